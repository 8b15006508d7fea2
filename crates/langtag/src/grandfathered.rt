//! The grandfathered tags (RFC 5646 section 2.2.8).
ghost use Rattle.std.specs.Prelude.{◌≡◌, ◌↔◌, ◌<◌, ℕ, List, Some, IsTrue, IfOk, IfErr, is_ok, position, slice_get, option_map};
ghost use Rattle.langtag_scan.specs.Grammar.{are_alike, EachRecord, IsTag};
ghost use Rattle.langtag.specs.Registered.{text_of};

use crate::lang_tag::LangTag;
use langtag_language::Language;
use langtag_scan::{GRANDFATHERED_TEXTS, case_insensitive_eq};
use std::convert::TryFrom;
use std::fmt;
use std::fmt::Debug;
use thiserror::Error;

/// The error for bytes that are not a grandfathered tag. It contains the bytes.
///
/// ```
/// use langtag::GrandfatheredLangTag;
///
/// let error = GrandfatheredLangTag::try_from(&b"i-none"[..]).err();
/// error.map(|error| error.0); // Some(&b"i-none"[..])
/// ```
#[derive(Debug, Drop, Error)]
#[error("invalid grandfathered tag")]
#[error_bound(T: Debug + Drop)]
pub struct InvalidGrandfatheredTag<T>(pub T);

/// A grandfathered tag: one of the 26 tags that were registered before the current grammar (RFC 5646 section 2.2.8), in
/// the order of section 2.1. The first 17 are irregular: they do not follow the grammar of other tags. The nine regular
/// tags, from `art-lojban` on, are normal tags, too.
///
/// Comparisons and hashes use the position in this declaration.
///
/// ```
/// use langtag::GrandfatheredLangTag;
///
/// let tag = GrandfatheredLangTag::new(b"I-KLINGON");
/// tag.map(|tag| tag.as_str()); // Ok("i-klingon")
/// ```
#[derive(Clone, Copy, Debug, PartialEq, Eq, PartialOrd, Ord, Hash)]
pub enum GrandfatheredLangTag {
    /// `en-GB-oed`, English in the spelling of the Oxford English Dictionary.
    EnGbOed,
    /// `i-ami`, Amis.
    IAmi,
    /// `i-bnn`, Bunun.
    IBnn,
    /// `i-default`, the default language of messages, for use when no language is known.
    IDefault,
    /// `i-enochian`, Enochian.
    IEnochian,
    /// `i-hak`, Hakka Chinese.
    IHak,
    /// `i-klingon`, Klingon.
    IKlingon,
    /// `i-lux`, Luxembourgish.
    ILux,
    /// `i-mingo`, Mingo.
    IMingo,
    /// `i-navajo`, Navajo.
    INavajo,
    /// `i-pwn`, Paiwan.
    IPwn,
    /// `i-tao`, Tao.
    ITao,
    /// `i-tay`, Tayal.
    ITay,
    /// `i-tsu`, Tsou.
    ITsu,
    /// `sgn-BE-FR`, Belgian-French Sign Language.
    SgnBeFr,
    /// `sgn-BE-NL`, Belgian-Flemish Sign Language.
    SgnBeNl,
    /// `sgn-CH-DE`, Swiss German Sign Language.
    SgnChDe,
    /// `art-lojban`, Lojban.
    ArtLojban,
    /// `cel-gaulish`, Gaulish.
    CelGaulish,
    /// `no-bok`, Norwegian Bokmål.
    NoBok,
    /// `no-nyn`, Norwegian Nynorsk.
    NoNyn,
    /// `zh-guoyu`, Mandarin Chinese.
    ZhGuoyu,
    /// `zh-hakka`, Hakka Chinese.
    ZhHakka,
    /// `zh-min`, Min Chinese.
    ZhMin,
    /// `zh-min-nan`, Min Nan Chinese.
    ZhMinNan,
    /// `zh-xiang`, Xiang Chinese.
    ZhXiang,
}

/// All grandfathered tags, in the order of [`GrandfatheredLangTag`].
///
/// ```
/// use langtag::GRANDFATHERED;
///
/// GRANDFATHERED.first().map(|tag| tag.as_str()); // Some("en-GB-oed")
/// GRANDFATHERED.len(); // 26
/// ```
pub const GRANDFATHERED: [GrandfatheredLangTag; 26] = [
    GrandfatheredLangTag::EnGbOed,
    GrandfatheredLangTag::IAmi,
    GrandfatheredLangTag::IBnn,
    GrandfatheredLangTag::IDefault,
    GrandfatheredLangTag::IEnochian,
    GrandfatheredLangTag::IHak,
    GrandfatheredLangTag::IKlingon,
    GrandfatheredLangTag::ILux,
    GrandfatheredLangTag::IMingo,
    GrandfatheredLangTag::INavajo,
    GrandfatheredLangTag::IPwn,
    GrandfatheredLangTag::ITao,
    GrandfatheredLangTag::ITay,
    GrandfatheredLangTag::ITsu,
    GrandfatheredLangTag::SgnBeFr,
    GrandfatheredLangTag::SgnBeNl,
    GrandfatheredLangTag::SgnChDe,
    GrandfatheredLangTag::ArtLojban,
    GrandfatheredLangTag::CelGaulish,
    GrandfatheredLangTag::NoBok,
    GrandfatheredLangTag::NoNyn,
    GrandfatheredLangTag::ZhGuoyu,
    GrandfatheredLangTag::ZhHakka,
    GrandfatheredLangTag::ZhMin,
    GrandfatheredLangTag::ZhMinNan,
    GrandfatheredLangTag::ZhXiang,
];

impl GrandfatheredLangTag {
    ghost use Rattle.langtag_language.specs.Text.{language_text};
    ghost use Rattle.langtag.specs.Text.{lang_tag_text};
    ghost use Rattle.langtag.specs.Order.{TagsCompareByIndex};
    ghost use Rattle.langtag.specs.Registered.{index_of, language_of, IsGrandfatheredAt, IsGrandfathered};

    /// Returns the grandfathered tag that equals these bytes, ignoring case: `GrandfatheredLangTag::new(b"I-AMI")` is
    /// `Ok(GrandfatheredLangTag::IAmi)`.
    ///
    /// No two grandfathered tags are equal, ignoring case, and all are language tags. They compare and hash by their
    /// indices, and [`GRANDFATHERED`] has each tag at its index.
    ///
    /// # Errors
    ///
    /// Returns the same slice if it is not a grandfathered tag, such as `b"fr"`.
    pub fn new(bytes: &[u8]) -> Result<Self, &[u8]>
        ensures accepts { IsTrue (is_ok result) ↔ IsGrandfathered bytes.now }
        ensures same_tag { IfOk result (λ tag. IsGrandfatheredAt (index_of tag) bytes.now) }
        ensures given_back { IfErr result (λ same. same ≡ bytes.entry) }

        // law: no text is at two indices of the table
        ensures one_index { (j k : ℕ) (t : List ℕ) → IsGrandfatheredAt j t → IsGrandfatheredAt k t → j ≡ k }
        // law: each of the 26 is a tag
        ensures are_tags { (t : List ℕ) → IsGrandfathered t → IsTag t }
        // law: kinds and grandfathered tags compare by the order of their declarations
        ensures by_index { TagsCompareByIndex }
        ensures cloned { (tag copy : GrandfatheredLangTag) → ⟦<GrandfatheredLangTag as Clone>⟧.is_clone tag copy → copy ≡ tag }
        ensures clone_succeeds { (tag : GrandfatheredLangTag) → ⟦<GrandfatheredLangTag as Clone>⟧.is_infallible tag }
        // law: each of the 26 is in `GRANDFATHERED` at its index
        ensures listed { (tag : GrandfatheredLangTag) → slice_get GRANDFATHERED (index_of tag) ≡ Some tag }
    {
        match first_alike(&GRANDFATHERED, bytes) {
            Some(index) => Ok(GrandfatheredLangTag::at(index)),
            None => Err(bytes),
        }
    }

    /// Returns the tag at an index of [`GRANDFATHERED`].
    pub(crate) fn at(index: usize) -> Self
        requires { index < 26 }
        ensures { index_of result ≡ index }
    {
        GRANDFATHERED[index]
    }

    /// Returns the primary language subtag of a regular tag. An irregular tag has none.
    #[tactic(auto, unfolding(langtag_scan::specs::Grandfathered::grandfathered_tags))]
    fn primary(&self) -> Option<&'static str>
        ensures { option_map (λ language. language.now) result ≡ language_of self.now }
    {
        match self {
            GrandfatheredLangTag::ArtLojban => Some("art"),
            GrandfatheredLangTag::CelGaulish => Some("cel"),
            GrandfatheredLangTag::NoBok | GrandfatheredLangTag::NoNyn => Some("no"),
            GrandfatheredLangTag::ZhGuoyu
            | GrandfatheredLangTag::ZhHakka
            | GrandfatheredLangTag::ZhMin
            | GrandfatheredLangTag::ZhMinNan
            | GrandfatheredLangTag::ZhXiang => Some("zh"),
            _ => None,
        }
    }

    /// Returns the primary language of a regular tag. An irregular tag has none.
    ///
    /// ```
    /// use langtag::GrandfatheredLangTag;
    ///
    /// GrandfatheredLangTag::ZhMinNan.language().map(|it| it.as_str()); // Some("zh")
    /// GrandfatheredLangTag::ILux.language(); // None
    /// ```
    pub fn language(&self) -> Option<Language<'static>>
        ensures language { option_map language_text result ≡ language_of self.now }
        ensures primary { EachRecord (text_of self.now) (λ r. language_of self.now ≡ Some r.primary) }
    {
        let language = self.primary()?;
        Some(Language::from_checked(language))
    }

    /// Returns the registered spelling: `GrandfatheredLangTag::SgnBeFr.as_str()` is `"sgn-BE-FR"`.
    #[tactic(auto, unfolding(langtag_scan::specs::Grandfathered::grandfathered_tags))]
    pub fn as_str(&self) -> &'static str
        ensures { result.now ≡ text_of self.now }
    {
        GRANDFATHERED_TEXTS[*self as usize]
    }

    /// Returns the tag with the registered spelling: `GrandfatheredLangTag::ILux.as_lang_tag().kind()` is
    /// `Kind::Grandfathered`.
    #[tactic(auto, using(crate::proofs::RegisteredLaws::spelling_tag))]
    pub fn as_lang_tag(&self) -> LangTag<'static>
        ensures { lang_tag_text result ≡ text_of self.now }
    {
        LangTag::from_checked(self.as_str())
    }

    /// Returns the bytes of the registered spelling: `GrandfatheredLangTag::ILux.as_bytes()` is `b"i-lux"`.
    pub fn as_bytes(&self) -> &'static [u8]
        ensures { result.now ≡ text_of self.now }
    {
        self.as_str().as_bytes()
    }
}

/// Returns the index of the first tag that is equal to these bytes, ignoring the case of ASCII letters.
fn first_alike(tags: &[GrandfatheredLangTag], bytes: &[u8]) -> Option<usize>
    ensures { result ≡ position (λ tag. are_alike (text_of tag) bytes.now) tags.now }
{
    tags.iter()
        .position(|tag| case_insensitive_eq(tag.as_bytes(), bytes))
}

impl<'a> TryFrom<&'a [u8]> for GrandfatheredLangTag {
    ghost use Rattle.langtag.specs.LooksUp.{LooksUp};

    type Error = InvalidGrandfatheredTag<&'a [u8]>;

    ghost try_from_gives = { LooksUp };

    fn try_from(bytes: &'a [u8]) -> Result<Self, InvalidGrandfatheredTag<&'a [u8]>> {
        match GrandfatheredLangTag::new(bytes) {
            Ok(tag) => Ok(tag),
            Err(bytes) => Err(InvalidGrandfatheredTag(bytes)),
        }
    }
}

impl fmt::Display for GrandfatheredLangTag {
    ghost output = { λ tag. Some (text_of tag) };

    fn fmt<W: fmt::Write>(&self, f: &mut fmt::Formatter<W>) -> fmt::Result {
        f.write_str(self.as_str())
    }
}
