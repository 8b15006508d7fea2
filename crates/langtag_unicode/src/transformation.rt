//! The parts of the extension `t`.
ghost use Rattle.std.specs.Prelude.{◌≡◌, ℕ, List, IsTrue, option_map};
ghost use Rattle.langtag_scan.specs.Grammar.{Alike, join, subtags};
ghost use Rattle.langtag.specs.Definitions.{are_extension_subtags};
ghost use Rattle.langtag_keyword.specs.Keywords as keywords;
ghost use Rattle.langtag_keyword.specs.Transform as spec;

use crate::keywords_iter::KeywordsIter;
use langtag_keyword::{Keys, before_key, nonempty, value_in};

/// The extension `t` of a tag (RFC 6497 section 2.2): the language of the string before it was transformed, and how it
/// was transformed.
///
/// ```
/// use langtag::LangTag;
/// use langtag_unicode::transform;
///
/// let tag = LangTag::new("und-Cyrl-t-und-latn-m0-ungegn-2007")?;
/// let transform = transform(tag).ok_or("no such extension")?;
/// transform.language(); // Some("und-latn")
/// transform.field("M0"); // Some("ungegn-2007")
/// transform.field("d0"); // None
/// ```
#[derive(Clone, Copy, Debug, Drop)]
pub struct Transformation<'a> {
    text: &'a str,
    ghost in_class: { IsTrue (are_extension_subtags (subtags text.now)) },
}

impl<'a> Transformation<'a> {
    ghost use Rattle.langtag_unicode.specs.Text.{keywords_left, transformation_subtags};

    /// Returns the extension with these subtags.
    pub(crate) fn new(text: &'a str) -> Self
        requires { IsTrue (are_extension_subtags (subtags text.now)) }
        ensures { result.text.now ≡ text.now }
    {
        Transformation { text }
    }

    /// Returns the language of the source text, as a slice of the tag. It need not be a tag: for `und-t-abcd-efgh-ijkl`
    /// it is `abcd-efgh-ijkl`.
    ///
    /// ```
    /// use langtag::LangTag;
    /// use langtag_unicode::transform;
    ///
    /// let found = transform(LangTag::new("und-t-ja-latn-m0-hepburn")?);
    /// found.and_then(|it| it.language()); // Some("ja-latn")
    /// let found = transform(LangTag::new("und-t-m0-hepburn")?);
    /// found.and_then(|it| it.language()); // None
    /// ```
    pub fn language(&self) -> Option<&'a str>
        ensures { option_map (λ text. text.now) result ≡ spec.transform_language (transformation_subtags self.now) }
    {
        nonempty(before_key(nonempty(self.text), Keys::Transform))
    }

    /// Returns the value of a field, as a slice of the tag: in `und-t-ja-m0-hepburn` the field `m0` has the value
    /// `hepburn`. Case is ignored, and the first of repeated keys counts. Returns `None` if the field is absent, and
    /// the empty string if it has no value.
    ///
    /// ```
    /// use langtag::LangTag;
    /// use langtag_unicode::transform;
    ///
    /// let found = transform(LangTag::new("und-t-ja-m0-hepburn")?);
    /// found.and_then(|it| it.field("m0")); // Some("hepburn")
    /// ```
    #[tactic(auto, using(langtag_keyword::proofs::WalkLaws::keyword_laws))]
    pub fn field(&self, key: &str) -> Option<&'a str>
        ensures value { option_map (λ text. text.now) result
            ≡ option_map join (keywords.value_of spec.is_field_key key.now (transformation_subtags self.now)) }
        // law: the case of a key changes nothing
        ensures any_case { (k l : List ℕ) (subtags : List (List ℕ)) → Alike k l
            → keywords.value_of spec.is_field_key k subtags ≡ keywords.value_of spec.is_field_key l subtags }
    {
        value_in(self.text, Keys::Transform, key.as_bytes())
    }

    /// Returns an iterator over the fields, in the order of the tag. Each key is returned once, with its first value.
    ///
    /// ```
    /// use langtag::LangTag;
    /// use langtag_unicode::transform;
    ///
    /// let found = transform(LangTag::new("und-t-ja-m0-hepburn")?);
    /// let first = found.and_then(|it| it.fields().next());
    /// first.map(|field| (field.key, field.value)); // Some(("m0", "hepburn"))
    /// ```
    #[tactic(auto, using(langtag_keyword::proofs::WalkLaws::keyword_laws))]
    pub fn fields(&self) -> KeywordsIter<'a>
        ensures list { keywords_left result ≡ keywords.keywords_of spec.is_field_key (transformation_subtags self.now) }
        // law: the value of a listed key is the one that `keyword`, or `field`, returns
        ensures listed { (k : List ℕ) (subtags : List (List ℕ)) → IsTrue (spec.is_field_key k)
            → keywords.value_among k (keywords.keywords_of spec.is_field_key subtags)
            ≡ option_map join (keywords.value_of spec.is_field_key k subtags) }
    {
        KeywordsIter::new(self.text, Keys::Transform)
    }
}
