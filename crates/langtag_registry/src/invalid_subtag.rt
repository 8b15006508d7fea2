//! What makes a well-formed tag invalid (RFC 5646 section 2.2.9).
use langtag_extension::Singleton;
use langtag_language::{ExtendedLangTag, PrimaryLanguage};
use langtag_place::{Region, Script, Variant};
use thiserror::Error;

/// The error for a tag that is not valid: the first subtag that is not registered, is a second extended language, or
/// repeats an earlier subtag.
///
/// The subtag is a slice of the tag, in its original case. Two values are equal if they have the same kind and their
/// subtags are equal.
///
/// ```
/// use langtag::LangTag;
/// use langtag_registry::{InvalidSubtag, validate};
///
/// let fault = validate(LangTag::new("fr-FQ")?).err();
/// matches!(fault, Some(InvalidSubtag::Region(region)) if region.as_str() == "FQ"); // true
/// ```
#[derive(Clone, Copy, Debug, PartialEq, Eq, Hash, Error)]
pub enum InvalidSubtag<'a> {
    /// A language that is not registered: `qt` in `qt-FR`.
    #[error("language {0} is not registered")]
    Language(PrimaryLanguage<'a>),
    /// An extended language that is not registered: `fra` in `zh-fra`.
    #[error("extended language {0} is not registered")]
    Extlang(ExtendedLangTag<'a>),
    /// A second extended language, which no valid tag has (section 2.2.2): `yue` in `zh-cmn-yue`.
    #[error("extended language {0} is the second")]
    SecondExtlang(ExtendedLangTag<'a>),
    /// A script that is not registered: `Abcd` in `fr-Abcd`.
    #[error("script {0} is not registered")]
    Script(Script<'a>),
    /// A region that is not registered: `FQ` in `fr-FQ`.
    #[error("region {0} is not registered")]
    Region(Region<'a>),
    /// A variant that is not registered: `1997` in `de-1997`.
    #[error("variant {0} is not registered")]
    Variant(Variant<'a>),
    /// A variant that equals an earlier one, ignoring case: the second `1996` in `de-1996-1996`.
    #[error("variant {0} is repeated")]
    RepeatedVariant(Variant<'a>),
    /// A singleton that equals an earlier one, ignoring case: the `A` in `fr-a-bb-A-cc`.
    #[error("singleton {0} is repeated")]
    RepeatedSingleton(Singleton),
}
