//! The extension `u` of a tag, which describes the locale.
ghost use Rattle.std.specs.Prelude.{◌≡◌, ℕ, List, [], None, IsTrue, option_map};
ghost use Rattle.langtag_scan.specs.Grammar.{Alike, join};
ghost use Rattle.langtag.specs.Definitions.{PartOf, lang_tag_text};
ghost use Rattle.langtag_keyword.specs.Keywords as spec;
ghost use Rattle.langtag_unicode.specs.Text.{attributes_left, keywords_left};

use crate::attributes_iter::AttributesIter;
use crate::extension_text::unicode_text;
use crate::keywords_iter::KeywordsIter;
use langtag::LangTag;
use langtag_keyword::{Keys, before_key, nonempty, value_in};

/// A keyword of the extension `u` (RFC 6067 section 2.1), or a field of the extension `t` (RFC 6497 section 2.2), as
/// slices of the tag.
///
/// ```
/// use langtag::LangTag;
/// use langtag_unicode::keywords;
///
/// let first = keywords(LangTag::new("ar-u-ca-islamic-civil")?).next();
/// first.map(|it| (it.key, it.value)); // Some(("ca", "islamic-civil"))
/// ```
#[derive(Clone, Copy, Debug, Drop)]
pub struct KeyValue<'a> {
    /// The key, as it is written.
    pub key: &'a str,
    /// The value, with its hyphens. It is empty if the key has no value, which means `true`.
    pub value: &'a str,
}

/// Returns the value of a key of the extension `u` (RFC 6067 section 2.1), as a slice of the tag: in
/// `ar-u-ca-islamic-civil-nu-latn` the key `ca` has the value `islamic-civil`. Case is ignored.
///
/// The value is empty if the key has none, like `kn` in `de-u-kn`, which means `true`. Returns `None` if the key is
/// absent, if the string is not a key, or if the tag has no extension `u`. The first of repeated keys counts.
///
/// ```
/// use langtag::LangTag;
/// use langtag_unicode::keyword;
///
/// let tag = LangTag::new("ar-EG-u-ca-islamic-civil-kn")?;
/// keyword(tag, "CA"); // Some("islamic-civil")
/// keyword(tag, "kn"); // Some("")
/// keyword(tag, "nu"); // None
/// ```
pub fn keyword<'a>(tag: LangTag<'a>, key: &str) -> Option<&'a str>
    ensures value { PartOf (lang_tag_text tag.entry)
        (λ r. option_map join (spec.value_of spec.is_key key.now (spec.subtags_of 117 r))) None (option_map (λ v. v.now) result) }

    // law: the case of a key changes nothing
    ensures any_case { (k l : List ℕ) (subtags : List (List ℕ)) → Alike k l
        → spec.value_of spec.is_key k subtags ≡ spec.value_of spec.is_key l subtags }
{
    value_in(unicode_text(tag), Keys::Unicode, key.as_bytes())
}

/// Returns an iterator over the keywords of the extension `u` (RFC 6067 section 2.1), in the order of the tag. Each
/// key is returned once, with its first value. The total time is linear.
///
/// ```
/// use langtag::LangTag;
/// use langtag_unicode::keywords;
///
/// let mut walk = keywords(LangTag::new("de-u-kn-ca-buddhist-kn-false")?);
/// walk.next().map(|keyword| (keyword.key, keyword.value)); // Some(("kn", ""))
/// walk.next().map(|keyword| (keyword.key, keyword.value)); // Some(("ca", "buddhist"))
/// walk.next().is_none(); // true
/// ```
pub fn keywords<'a>(tag: LangTag<'a>) -> KeywordsIter<'a>
    ensures list { PartOf (lang_tag_text tag.entry) (λ r. spec.keywords_of spec.is_key (spec.subtags_of 117 r)) []
        (keywords_left result) }
    // law: the value of a listed key is the one that `keyword`, or `field`, returns
    ensures listed { (k : List ℕ) (subtags : List (List ℕ)) → IsTrue (spec.is_key k)
        → spec.value_among k (spec.keywords_of spec.is_key subtags) ≡ option_map join (spec.value_of spec.is_key k subtags) }

    ensures cloned { (walk copy : KeywordsIter) → ⟦<KeywordsIter<'a> as Clone>⟧.is_clone walk copy
        → keywords_left copy ≡ keywords_left walk }
    ensures clone_succeeds { (walk : KeywordsIter) → ⟦<KeywordsIter<'a> as Clone>⟧.is_infallible walk }
    ensures cloned_pair { (pair copy : KeyValue) → ⟦<KeyValue<'a> as Clone>⟧.is_clone pair copy → copy ≡ pair }
    ensures clone_succeeds_pair { (pair : KeyValue) → ⟦<KeyValue<'a> as Clone>⟧.is_infallible pair }
{
    KeywordsIter::new(unicode_text(tag), Keys::Unicode)
}

/// Returns an iterator over the attributes of the extension `u` (RFC 6067 section 2.1), which precede its first key.
/// They are returned in the order of the tag, each once, ignoring case.
///
/// Each attribute is compared with the attributes before it, so the total time is quadratic in the number of
/// attributes.
///
/// ```
/// use langtag::LangTag;
/// use langtag_unicode::attributes;
///
/// let mut walk = attributes(LangTag::new("de-u-attr-foo-ATTR-ca-buddhist")?);
/// walk.next(); // Some("attr")
/// walk.next(); // Some("foo")
/// walk.next(); // None
/// ```
pub fn attributes<'a>(tag: LangTag<'a>) -> AttributesIter<'a>
    ensures list { PartOf (lang_tag_text tag.entry) (λ r. spec.attributes_of (spec.subtags_of 117 r)) []
        (attributes_left result) }

    ensures cloned { (walk copy : AttributesIter) → ⟦<AttributesIter<'a> as Clone>⟧.is_clone walk copy
        → attributes_left copy ≡ attributes_left walk }
    ensures clone_succeeds { (walk : AttributesIter) → ⟦<AttributesIter<'a> as Clone>⟧.is_infallible walk }
{
    AttributesIter::new(before_key(nonempty(unicode_text(tag)), Keys::Unicode))
}
