//! Language tags of every kind: rule `Language-Tag` of RFC 5646 section 2.1.
ghost use Rattle.std.specs.Prelude.{◌≡◌, ◌↔◌, ◌<◌, ◌^◌, ℕ, List, [], Some, None, IsTrue, IfOk};
ghost use Rattle.std.specs.Prelude.{IfErr, IfSome, is_ok, is_some, length, option_map};
ghost use Rattle.langtag_text.specs.RecommendedCase.{recommended_text};
ghost use Rattle.langtag_text.specs.Text.{in_recommended_case_text};
ghost use Rattle.langtag_scan.specs.Grammar.{IsSpelledAlike, EndsFirst, are_alike, case_cmp, IsFoundOf, language_part};
ghost use Rattle.langtag_scan.specs.Grammar.{variants_part, extensions_part, private_use_part, private_use_subtags};
ghost use Rattle.langtag_scan.specs.Grammar.{EachRecord, flat, spell, subtags, IsNormal, IsPrivate, IsIrregular, IsTag};
ghost use Rattle.langtag.specs.Edit.{base_record};
ghost use Rattle.langtag.specs.Recognised.{finding_of};

use crate::grandfathered::GrandfatheredLangTag;
use crate::kind::Kind;
use crate::lang_tag_buf::LangTagBuf;
use crate::normal_lang_tag::NormalLangTag;
use crate::private_use_lang_tag::PrivateUseLangTag;
use crate::recognise_text::{recognise_bytes, recognise_text};
use crate::recognised::Recognised;
use crate::typed_lang_tag::TypedLangTag;
use langtag_extension::Extensions;
use langtag_language::Language;
use langtag_place::{Region, Script, Variants};
use langtag_private::{PrivateUse, PrivateUseIter};
use langtag_scan::{Caseless, Subtags};
use langtag_text::{InRecommendedCase, is_in_recommended_case};
use std::alloc::{AllocError, Global};
use std::cmp::Ordering;
use std::fmt;
use std::fmt::Debug;
use thiserror::Error;

/// The error for a string that is not a language tag. It contains the string.
///
/// ```
/// use langtag::LangTag;
///
/// let error = LangTag::new("zh_Hant").err();
/// error.map(|error| error.0); // Some("zh_Hant")
/// ```
#[derive(Debug, Drop, Error)]
#[error("invalid language tag")]
#[error_bound(T: Debug + Drop)]
pub struct InvalidLangTag<T>(pub T);

/// A language tag (RFC 5646 section 2.1). It is a normal tag, such as `zh-Hant-TW`, a private-use tag, such as
/// `x-fr-CH`, or an irregular grandfathered tag, such as `i-klingon`.
///
/// It stores its kind, and where the parts of a normal tag end, so no call parses the string again. Two tags are equal
/// if their strings differ only in the case of ASCII letters.
///
/// ```
/// use langtag::LangTag;
///
/// let tag = LangTag::new("zh-Hant-TW")?;
/// tag.script().map(|script| script.as_str()); // Some("Hant")
/// tag == LangTag::new("ZH-hant-tw")?; // true
/// ```
#[derive(Clone, Copy)]
#[derive_where(Debug, PartialEq, Eq, PartialOrd, Ord, Hash)]
pub struct LangTag<'a> {
    text: Caseless<&'a str>,
    #[derive_where(skip)]
    found: Recognised,
    ghost kept_found: { ∥ IsFoundOf text.0.now (finding_of found) ∥₁ },
}

#[tactic(auto, using(crate::proofs::KeptFound::found_kept))]
impl<'a> LangTag<'a> {
    ghost use Rattle.langtag_private.specs.Text.{private_use_text};
    ghost use Rattle.langtag.specs.Compared.{LangTagsCompareByCase};
    ghost use Rattle.langtag.specs.Kinds.{IsOfKind, AreOfOneKind};
    ghost use Rattle.langtag.specs.Order.{KindsCompareByIndex};
    ghost use Rattle.langtag.specs.Registered.{index_of, IsGrandfatheredAt, IsGrandfathered};
    ghost use Rattle.langtag.specs.Text.{normal_lang_tag_text, lang_tag_text, lang_tag_buf_text};
    ghost use Rattle.langtag.specs.Typed.{IsTypedAs};

    /// Parses a string as a language tag. Case does not matter, and the string keeps its case. No string is of two
    /// kinds.
    ///
    /// # Errors
    ///
    /// Returns the string if it is not a tag, such as `zh_Hant` or the empty string.
    ///
    /// ```
    /// use langtag::LangTag;
    ///
    /// LangTag::new("zh-Hant-TW").is_ok(); // true
    /// LangTag::new("x-fr-CH").is_ok(); // true
    /// LangTag::new("zh_Hant").err().map(|error| error.0); // Some("zh_Hant")
    /// ```
    #[tactic(auto, using(crate::proofs::KeptFound::found_kept, crate::proofs::KeptFound::one_kind))]
    pub fn new(text: &'a str) -> Result<LangTag<'a>, InvalidLangTag<&'a str>>
        ensures accepts { IsTrue (is_ok result) ↔ IsTag text.now }
        ensures same_text { IfOk result (λ tag. lang_tag_text tag ≡ text.now) }
        ensures given_back { IfErr result (λ error. error.0 ≡ text.entry) }

        // law: no text is of two kinds
        ensures normal_not_private { (t : List ℕ) → IsNormal t → IsPrivate t → ⊥ }
        // law: no text is of two kinds
        ensures normal_not_irregular { (t : List ℕ) → IsNormal t → IsIrregular t → ⊥ }
        // law: no text is of two kinds
        ensures private_not_irregular { (t : List ℕ) → IsPrivate t → IsIrregular t → ⊥ }
    {
        let Some(found) = recognise_text(text) else {
            return Err(InvalidLangTag(text));
        };
        Ok(LangTag::with_found(text, found))
    }

    /// Parses bytes as a language tag. The bytes need not be UTF-8. They are not checked for UTF-8 first, because every
    /// tag is ASCII.
    ///
    /// # Errors
    ///
    /// Returns the same slice if it is not a tag, such as `b"zh_Hant"` or `b"fr\xFF"`.
    ///
    /// ```
    /// use langtag::LangTag;
    ///
    /// LangTag::from_bytes(b"zh-Hant-TW")?.as_str(); // "zh-Hant-TW"
    /// LangTag::from_bytes(b"fr\xFF").is_err(); // true
    /// ```
    #[tactic(auto, using(crate::proofs::KeptFound::found_kept, crate::proofs::KeptFound::utf8_found))]
    pub fn from_bytes(bytes: &'a [u8]) -> Result<LangTag<'a>, InvalidLangTag<&'a [u8]>>
        ensures accepts { IsTrue (is_ok result) ↔ IsTag bytes.now }
        ensures same_text { IfOk result (λ tag. lang_tag_text tag ≡ bytes.now) }
        ensures given_back { IfErr result (λ error. error.0 ≡ bytes.entry) }
    {
        let Some(found) = recognise_bytes(bytes) else {
            return Err(InvalidLangTag(bytes));
        };
        // SAFETY: a tag is ASCII, which is proved here.
        let ascii = unsafe { str::from_utf8_unchecked(bytes) };
        Ok(LangTag::with_found(ascii, found))
    }

    /// Wraps a string that is known to be a language tag: `LangTag::from_checked(tag.as_str())` equals `tag`. It parses
    /// the string again to find the parts.
    pub fn from_checked(text: &'a str) -> LangTag<'a>
        requires { IsTag text.now }
        ensures { lang_tag_text result ≡ text.now }
    {
        let Some(found) = recognise_text(text) else {
            unreachable!()
        };
        LangTag::with_found(text, found)
    }

    /// Makes a tag from a string and what the parser found in the string, without parsing the string again.
    pub(crate) fn with_found(text: &'a str, found: Recognised) -> LangTag<'a>
        requires { ∥ IsFoundOf text.now (finding_of found) ∥₁ }
        ensures { lang_tag_text result ≡ text.now }
    {
        LangTag {
            text: Caseless(text),
            found,
        }
    }

    /// Returns the string, in its original case.
    ///
    /// ```
    /// use langtag::LangTag;
    ///
    /// LangTag::new("ZH-hant")?.as_str(); // "ZH-hant"
    /// ```
    pub fn as_str(&self) -> &'a str
        ensures same_text { result.now ≡ lang_tag_text self.now }
        ensures in_class { IsTag result.now }
    {
        self.text.0
    }

    /// Returns the string as bytes.
    ///
    /// ```
    /// use langtag::LangTag;
    ///
    /// LangTag::new("x-a")?.as_bytes(); // b"x-a"
    /// ```
    pub fn as_bytes(&self) -> &'a [u8]
        ensures { result.now ≡ lang_tag_text self.now }
    {
        self.as_str().as_bytes()
    }

    /// Returns an iterator over all subtags, from either end: `zh`, `Hant` and `TW` for `zh-Hant-TW`, and `x` and `a`
    /// for `x-a`.
    ///
    /// ```
    /// use langtag::LangTag;
    ///
    /// let tag = LangTag::new("zh-Hant-TW")?;
    /// let mut subtags = tag.subtags();
    /// subtags.next(); // Some("zh")
    /// subtags.next_back(); // Some("TW")
    /// subtags.next(); // Some("Hant")
    /// subtags.next(); // None
    /// ```
    #[tactic(auto, using(langtag_scan::proofs::SpelledTexts::tag_subtags))]
    pub fn subtags(&self) -> Subtags<'a>
        ensures list { result ≡ subtags (lang_tag_text self.now) }
        ensures record { EachRecord (lang_tag_text self.now) (λ r. result ≡ flat r) }
        ensures few { length result < 2 ^ 64 }
    {
        Subtags::new(self.as_str())
    }

    /// Returns whether another string equals this tag, ignoring the case of ASCII letters. A string that is equal is a
    /// tag of the same kind. If both are normal tags, their parts are equal, ignoring case, and are at the same
    /// offsets.
    ///
    /// Comparisons and hashes of tags also ignore case. A tag sorts after every longer tag that begins with its text:
    /// `zh` sorts after `zh-Latn`.
    ///
    /// ```
    /// use langtag::LangTag;
    ///
    /// LangTag::new("zh-Hant")?.eq_str("ZH-hant"); // true
    /// LangTag::new("zh-Hant")?.eq_str("zh_Hant"); // false
    /// ```
    #[tactic(auto, using(langtag_scan::proofs::CaseOrder::bytes_ends_first, crate::proofs::OrderLaws::tag_ends_first, crate::proofs::KeptFound::alike_laws))]
    pub fn eq_str(&self, other: &str) -> bool
        ensures test { result ≡ are_alike (lang_tag_text self.now) other.now }
        // law: equal texts, ignoring case, are of the same kind
        ensures same_kind { IsTrue result → AreOfOneKind (lang_tag_text self.now) other.now }
        // law: equal texts, ignoring case, have equal parts at the same offsets
        ensures alike_parts { IsTrue result → EachRecord (lang_tag_text self.now) (λ r. IsSpelledAlike r other.now) }

        ensures compared { LangTagsCompareByCase }
        ensures cloned { (copy : LangTag) → ⟦<LangTag<'a> as Clone>⟧.is_clone self.now copy → copy ≡ self.now }
        ensures clone_succeeds { ⟦<LangTag<'a> as Clone>⟧.is_infallible self.now }
        // law: a text is greater than every longer text that begins with it
        ensures ends_first { (t u : List ℕ) → IsTag u → EndsFirst t u → case_cmp t u ≡ Ordering.Greater }
    {
        self.text == Caseless(other)
    }

    /// Returns the kind of the tag. The regular grandfathered tags are normal. Kinds compare and hash by their position
    /// in the declaration of [`Kind`].
    ///
    /// ```
    /// use langtag::{Kind, LangTag};
    ///
    /// LangTag::new("fr-x-a")?.kind(); // Kind::Normal
    /// LangTag::new("x-a")?.kind(); // Kind::PrivateUse
    /// LangTag::new("i-lux")?.kind(); // Kind::Grandfathered
    /// ```
    #[tactic(auto, using(crate::proofs::KeptFound::typed_kind))]
    pub fn kind(&self) -> Kind
        ensures kind { IsOfKind (lang_tag_text self.now) result }
        // law: kinds and grandfathered tags compare by the order of their declarations
        ensures by_index { KindsCompareByIndex }
        ensures cloned { (kind copy : Kind) → ⟦<Kind as Clone>⟧.is_clone kind copy → copy ≡ kind }
        ensures clone_succeeds { (kind : Kind) → ⟦<Kind as Clone>⟧.is_infallible kind }
    {
        self.as_typed().kind()
    }

    /// Returns the tag as an enum with one variant for each kind, for use in `match`. The value inside has the same
    /// text.
    ///
    /// ```
    /// use langtag::{GrandfatheredLangTag, LangTag, TypedLangTag};
    ///
    /// let tag = LangTag::new("i-lux")?;
    /// matches!(tag.as_typed(), TypedLangTag::Grandfathered(GrandfatheredLangTag::ILux)); // true
    /// ```
    #[tactic(auto, using(crate::proofs::KeptFound::found_kept, crate::proofs::KeptFound::kept_as))]
    pub fn as_typed(&self) -> TypedLangTag<'a>
        ensures { IsTypedAs (lang_tag_text self.now) result }
    {
        match self.found {
            Recognised::Normal(ends) => {
                TypedLangTag::Normal(NormalLangTag::with_ends(self.text.0, ends))
            }
            Recognised::PrivateUse => {
                TypedLangTag::PrivateUse(PrivateUse::from_checked(self.text.0))
            }
            Recognised::Irregular(tag) => TypedLangTag::Grandfathered(tag),
        }
    }

    /// Returns whether the tag is a normal tag, which is made of parts. The regular grandfathered tags are normal, too.
    ///
    /// ```
    /// use langtag::LangTag;
    ///
    /// LangTag::new("zh-Latn")?.is_normal(); // true
    /// LangTag::new("x-a")?.is_normal(); // false
    /// ```
    pub fn is_normal(&self) -> bool
        ensures { IsTrue result ↔ IsNormal (lang_tag_text self.now) }
    {
        self.found.is_normal()
    }

    /// Returns whether the whole tag is for private use, which means that it begins with `x-`.
    ///
    /// ```
    /// use langtag::LangTag;
    ///
    /// LangTag::new("x-a")?.is_private_use(); // true
    /// LangTag::new("fr-x-a")?.is_private_use(); // false
    /// ```
    pub fn is_private_use(&self) -> bool
        ensures { IsTrue result ↔ IsPrivate (lang_tag_text self.now) }
    {
        self.found.is_private_use()
    }

    /// Returns whether the tag is one of the 26 grandfathered tags, ignoring case (RFC 5646 section 2.2.8).
    ///
    /// The regular grandfathered tags are normal tags, too. For example, this is `true` for `art-lojban`, whose kind is
    /// normal, while [`as_typed().is_grandfathered()`](TypedLangTag::is_grandfathered) is `false`.
    ///
    /// ```
    /// use langtag::LangTag;
    ///
    /// LangTag::new("i-lux")?.is_grandfathered(); // true
    /// LangTag::new("Art-Lojban")?.is_grandfathered(); // true
    /// LangTag::new("fr")?.is_grandfathered(); // false
    /// ```
    pub fn is_grandfathered(&self) -> bool
        ensures { IsTrue result ↔ IsGrandfathered (lang_tag_text self.now) }
    {
        self.as_grandfathered().is_some()
    }

    /// Returns the tag as a [`NormalLangTag`] if it is a normal tag: `Some` for `zh-Latn` and `art-lojban`, `None` for
    /// `x-a`.
    ///
    /// ```
    /// use langtag::LangTag;
    ///
    /// let tag = LangTag::new("zh-Latn")?;
    /// tag.as_normal().map(|normal| normal.as_str()); // Some("zh-Latn")
    /// LangTag::new("x-a")?.as_normal(); // None
    /// ```
    pub fn as_normal(&self) -> Option<NormalLangTag<'a>>
        ensures kind { IsTrue (is_some result) ↔ IsNormal (lang_tag_text self.now) }
        ensures same_text { IfSome result (λ tag. normal_lang_tag_text tag ≡ lang_tag_text self.now) }
    {
        let ends = self.found.ends()?;
        Some(NormalLangTag::with_ends(self.text.0, ends))
    }

    /// Returns the tag as a [`PrivateUseLangTag`] if the whole tag is for private use: `Some` for `x-a`, `None` for
    /// `fr-x-a`.
    ///
    /// ```
    /// use langtag::LangTag;
    ///
    /// let tag = LangTag::new("x-a")?;
    /// tag.as_private_use().map(|tag| tag.as_str()); // Some("x-a")
    /// LangTag::new("fr-x-a")?.as_private_use(); // None
    /// ```
    pub fn as_private_use(&self) -> Option<PrivateUseLangTag<'a>>
        ensures kind { IsTrue (is_some result) ↔ IsPrivate (lang_tag_text self.now) }
        ensures same_text { IfSome result (λ tag. private_use_text tag ≡ lang_tag_text self.now) }
    {
        if !self.is_private_use() {
            return None;
        }
        Some(PrivateUse::from_checked(self.text.0))
    }

    /// Returns the tag as a [`GrandfatheredLangTag`] if it is one of the 26 grandfathered tags, ignoring case: `Some`
    /// for `I-Lux` and `art-lojban`, `None` for `fr`.
    ///
    /// ```
    /// use langtag::LangTag;
    ///
    /// let tag = LangTag::new("I-Lux")?;
    /// tag.as_grandfathered().map(|tag| tag.as_str().len()); // Some(5)
    /// LangTag::new("fr")?.as_grandfathered().is_none(); // true
    /// ```
    pub fn as_grandfathered(&self) -> Option<GrandfatheredLangTag>
        ensures kind { IsTrue (is_some result) ↔ IsGrandfathered (lang_tag_text self.now) }
        ensures same_tag { IfSome result (λ tag. IsGrandfatheredAt (index_of tag) (lang_tag_text self.now)) }
    {
        GrandfatheredLangTag::new(self.as_bytes()).ok()
    }

    /// Copies the tag into a tag that owns its text.
    ///
    /// # Errors
    ///
    /// Returns an error if allocation fails.
    ///
    /// ```
    /// use langtag::LangTag;
    ///
    /// let owned = LangTag::new("zh-Latn")?.try_to_owned(alloc)?;
    /// owned.as_str(); // "zh-Latn"
    /// ```
    pub fn try_to_owned(&self, alloc: Global) -> Result<LangTagBuf, AllocError>
        ensures { IfOk result (λ owned. lang_tag_buf_text owned ≡ lang_tag_text self.now) }
    {
        let text = String::from_str(alloc, self.as_str())?;
        Ok(LangTagBuf::with_found(text, self.found))
    }

    /// Returns a value that displays the tag in the case that RFC 5646 section 2.1.1 recommends. It does not allocate.
    ///
    /// ```
    /// use langtag::LangTag;
    ///
    /// let tag = LangTag::new("MN-cYRL-mn")?;
    /// assert_eq!(format!("{}", tag.in_recommended_case()), "mn-Cyrl-MN");
    /// ```
    #[tactic(auto, using(crate::proofs::KeptFound::ascii_found))]
    pub fn in_recommended_case(&self) -> InRecommendedCase<'a>
        ensures { in_recommended_case_text result ≡ recommended_text (lang_tag_text self.now) }
    {
        InRecommendedCase::from_checked(self.as_str())
    }

    /// Returns whether the tag is in the case that RFC 5646 section 2.1.1 recommends.
    ///
    /// ```
    /// use langtag::LangTag;
    ///
    /// LangTag::new("mn-Cyrl-MN")?.is_in_recommended_case(); // true
    /// LangTag::new("mn-cyrl-MN")?.is_in_recommended_case(); // false
    /// ```
    pub fn is_in_recommended_case(&self) -> bool
        ensures { IsTrue result ↔ (recommended_text (lang_tag_text self.now) ≡ lang_tag_text self.now) }
    {
        is_in_recommended_case(self.as_bytes())
    }

    /// Copies the tag into an owned tag, in the case that RFC 5646 section 2.1.1 recommends.
    ///
    /// # Errors
    ///
    /// Returns an error if allocation fails.
    ///
    /// ```
    /// use langtag::LangTag;
    ///
    /// let owned = LangTag::new("MN-cYRL-mn")?.try_to_recommended_case(alloc)?;
    /// owned.as_str(); // "mn-Cyrl-MN"
    /// ```
    pub fn try_to_recommended_case(&self, alloc: Global) -> Result<LangTagBuf, AllocError>
        ensures { IfOk result (λ owned. lang_tag_buf_text owned ≡ recommended_text (lang_tag_text self.now)) }
    {
        let mut owned = self.try_to_owned(alloc)?;
        owned.make_recommended_case();
        Ok(owned)
    }
}

/// The parts of a normal tag; a tag of another kind has none.
#[tactic(auto, using(crate::proofs::PartRules::part_found, langtag_scan::proofs::SpelledTexts::normal_spelled))]
impl<'a> LangTag<'a> {
    ghost use Rattle.langtag_language.specs.Text.{language_text};
    ghost use Rattle.langtag_place.specs.Text.{script_text, region_text, variants_text};
    ghost use Rattle.langtag_extension.specs.Text.{extensions_text};
    ghost use Rattle.langtag_private.specs.Text.{private_use_text, private_use_subtags_left};
    ghost use Rattle.langtag.specs.Part.{PartOf};
    ghost use Rattle.langtag.specs.Text.{lang_tag_text, normal_lang_tag_text};

    /// Returns the language, with its extended subtags: `zh-yue` for `zh-yue-HK`, and `None` for `x-a` and `i-lux`.
    ///
    /// ```
    /// use langtag::LangTag;
    ///
    /// let tag = LangTag::new("zh-yue-HK")?;
    /// tag.language().map(|language| language.as_str()); // Some("zh-yue")
    /// LangTag::new("x-a")?.language(); // None
    /// ```
    pub fn language(&self) -> Option<Language<'a>>
        ensures part { PartOf (lang_tag_text self.now) (λ r. Some (language_part r)) None (option_map language_text result) }
    {
        Some(self.as_normal()?.language())
    }

    /// Returns the script, if there is one: `Latn` for `sl-Latn-IT`, `None` for `sl-IT` and `x-a`.
    ///
    /// ```
    /// use langtag::LangTag;
    ///
    /// let tag = LangTag::new("sl-Latn-IT")?;
    /// tag.script().map(|script| script.as_str()); // Some("Latn")
    /// LangTag::new("sl-IT")?.script(); // None
    /// ```
    pub fn script(&self) -> Option<Script<'a>>
        ensures part { PartOf (lang_tag_text self.now) (λ r. r.script) None (option_map script_text result) }
    {
        self.as_normal()?.script()
    }

    /// Returns the region, if there is one: `419` for `es-419`, `None` for `es` and `x-a`.
    ///
    /// ```
    /// use langtag::LangTag;
    ///
    /// let tag = LangTag::new("es-419")?;
    /// tag.region().map(|region| region.as_str()); // Some("419")
    /// LangTag::new("es")?.region(); // None
    /// ```
    pub fn region(&self) -> Option<Region<'a>>
        ensures part { PartOf (lang_tag_text self.now) (λ r. r.region) None (option_map region_text result) }
    {
        self.as_normal()?.region()
    }

    /// Returns the variants: `rozaj-1994` for `sl-rozaj-1994`, and the empty string for `sl` and `x-a`.
    ///
    /// ```
    /// use langtag::LangTag;
    ///
    /// LangTag::new("sl-rozaj-1994")?.variants().as_str(); // "rozaj-1994"
    /// LangTag::new("x-a")?.variants().as_str(); // ""
    /// ```
    pub fn variants(&self) -> Variants<'a>
        ensures part { PartOf (lang_tag_text self.now) variants_part [] (variants_text result) }
    {
        let Some(tag) = self.as_normal() else {
            return Variants::EMPTY;
        };
        tag.variants()
    }

    /// Returns the extensions: `a-bb-u-co` for `en-a-bb-u-co-x-y`, and the empty string for `en` and `x-a`.
    ///
    /// ```
    /// use langtag::LangTag;
    ///
    /// LangTag::new("en-a-bb-u-co-x-y")?.extensions().as_str(); // "a-bb-u-co"
    /// LangTag::new("x-a")?.extensions().as_str(); // ""
    /// ```
    pub fn extensions(&self) -> Extensions<'a>
        ensures part { PartOf (lang_tag_text self.now) extensions_part [] (extensions_text result) }
    {
        let Some(tag) = self.as_normal() else {
            return Extensions::EMPTY;
        };
        tag.extensions()
    }

    /// Returns the private use part of a normal tag: `x-y` for `en-x-y`. It is `None` for `x-a`, which is a private-use
    /// tag and has no parts: see [`as_private_use`](LangTag::as_private_use).
    ///
    /// ```
    /// use langtag::LangTag;
    ///
    /// let tag = LangTag::new("en-x-y")?;
    /// tag.private_use().map(|part| part.as_str()); // Some("x-y")
    /// LangTag::new("x-y")?.private_use(); // None
    /// ```
    pub fn private_use(&self) -> Option<PrivateUse<'a>>
        ensures part { PartOf (lang_tag_text self.now) private_use_part None (option_map private_use_text result) }
    {
        self.as_normal()?.private_use()
    }

    /// Returns the tag without extensions and private use, as `Intl.Locale` has it in `baseName`: `de-CH-1996` for
    /// `de-CH-1996-u-co-phonebk-x-mine`. It keeps its case. A private-use tag and an irregular tag have no extensions, so
    /// they are returned unchanged.
    ///
    /// ```
    /// use langtag::LangTag;
    ///
    /// LangTag::new("de-CH-1996-u-co-phonebk-x-mine")?.base().as_str(); // "de-CH-1996"
    /// LangTag::new("x-a")?.base().as_str(); // "x-a"
    /// ```
    pub fn base(&self) -> LangTag<'a>
        ensures { PartOf (lang_tag_text self.now) (λ r. spell (base_record r)) (lang_tag_text self.now) (lang_tag_text result) }
    {
        let Some(tag) = self.as_normal() else {
            return *self;
        };
        tag.base().as_lang_tag()
    }

    /// Returns an iterator over the subtags of the private use part, or over no subtags if there is no such part: `x`
    /// and `y` for `en-x-x-y`.
    ///
    /// ```
    /// use langtag::LangTag;
    ///
    /// let tag = LangTag::new("en-x-x-y")?;
    /// let mut subtags = tag.private_use_subtags();
    /// subtags.next().map(|subtag| subtag.as_str()); // Some("x")
    /// subtags.next().map(|subtag| subtag.as_str()); // Some("y")
    /// subtags.next(); // None
    /// ```
    pub fn private_use_subtags(&self) -> PrivateUseIter<'a>
        ensures part { PartOf (lang_tag_text self.now) private_use_subtags [] (private_use_subtags_left result) }
    {
        let Some(tag) = self.as_normal() else {
            return PrivateUseIter::empty();
        };
        tag.private_use_subtags()
    }
}

impl<'a> From<NormalLangTag<'a>> for LangTag<'a> {
    ghost use Rattle.langtag.specs.Text.{normal_lang_tag_text, lang_tag_text};

    ghost from_gives = { λ normal tag. lang_tag_text tag ≡ normal_lang_tag_text normal };

    fn from(tag: NormalLangTag<'a>) -> LangTag<'a> {
        tag.as_lang_tag()
    }
}

#[tactic(auto, using(langtag_scan::proofs::TagLaws::tag_private))]
impl<'a> From<PrivateUse<'a>> for LangTag<'a> {
    ghost use Rattle.langtag_private.specs.Text.{private_use_text};
    ghost use Rattle.langtag.specs.Text.{lang_tag_text};

    ghost from_gives = { λ private_use tag. lang_tag_text tag ≡ private_use_text private_use };

    fn from(tag: PrivateUse<'a>) -> LangTag<'a> {
        LangTag::with_found(tag.as_str(), Recognised::PrivateUse)
    }
}

impl fmt::Display for LangTag<'_> {
    ghost use Rattle.langtag.specs.Text.{lang_tag_text};

    ghost output = { λ tag. Some (lang_tag_text tag) };

    fn fmt<W: fmt::Write>(&self, f: &mut fmt::Formatter<W>) -> fmt::Result {
        f.write_str(self.as_str())
    }
}
