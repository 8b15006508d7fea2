//! The string types: whether each type accepts the shortest text, the longest text, other long strings and strings of
//! digits. The tests also show that each type displays and copies them.
use crate::support::{are_answered, cut, repeated};
use langtag::{
    ExtendedLangTag, Extension, ExtensionSubtag, Extensions, LangTag, Language, LanguageExtension,
    NormalLangTag, PrimaryLanguage, PrivateUse, PrivateUseSubtag, Region, Script, Variant,
    Variants,
};
use langtag_match::LanguageRange;
use std::alloc::{AllocError, Global};
use std::fmt::Display;

/// The body of a function for each type, which returns whether the type accepts a string. The owned form is a copy.
macro_rules! told {
    ($type:ident, $text:ident, $alloc:ident) => {
        match $type::new($text) {
            Ok(value) => shown($alloc, $text, &value, value.try_to_owned($alloc)),
            Err(refusal) => refusal.to_string($alloc),
        }
    };
}

/// Returns `accepted` if a copy of a value and the value itself display its text. Otherwise it returns what the first of
/// them that differs displays.
fn shown<T: Display, U: Display + Drop>(
    alloc: Global,
    text: &str,
    value: &T,
    copy: Result<U, AllocError>,
) -> Result<String, AllocError> {
    let kept = copy?.to_string(alloc)?;
    if kept.as_str() != text {
        return Ok(kept);
    }
    let lent = value.to_string(alloc)?;
    if lent.as_str() != text {
        return Ok(lent);
    }
    String::from_str(alloc, "accepted")
}

fn primary_language(text: &str, alloc: Global) -> Result<String, AllocError> {
    told!(PrimaryLanguage, text, alloc)
}

fn extended_subtag(text: &str, alloc: Global) -> Result<String, AllocError> {
    told!(ExtendedLangTag, text, alloc)
}

fn language(text: &str, alloc: Global) -> Result<String, AllocError> {
    told!(Language, text, alloc)
}

fn language_extension(text: &str, alloc: Global) -> Result<String, AllocError> {
    told!(LanguageExtension, text, alloc)
}

fn script(text: &str, alloc: Global) -> Result<String, AllocError> {
    told!(Script, text, alloc)
}

fn region(text: &str, alloc: Global) -> Result<String, AllocError> {
    told!(Region, text, alloc)
}

fn variant(text: &str, alloc: Global) -> Result<String, AllocError> {
    told!(Variant, text, alloc)
}

fn variants(text: &str, alloc: Global) -> Result<String, AllocError> {
    told!(Variants, text, alloc)
}

fn extension_subtag(text: &str, alloc: Global) -> Result<String, AllocError> {
    told!(ExtensionSubtag, text, alloc)
}

fn extension(text: &str, alloc: Global) -> Result<String, AllocError> {
    told!(Extension, text, alloc)
}

fn extensions(text: &str, alloc: Global) -> Result<String, AllocError> {
    told!(Extensions, text, alloc)
}

fn private_use_subtag(text: &str, alloc: Global) -> Result<String, AllocError> {
    told!(PrivateUseSubtag, text, alloc)
}

fn private_use(text: &str, alloc: Global) -> Result<String, AllocError> {
    told!(PrivateUse, text, alloc)
}

fn normal_lang_tag(text: &str, alloc: Global) -> Result<String, AllocError> {
    told!(NormalLangTag, text, alloc)
}

fn lang_tag(text: &str, alloc: Global) -> Result<String, AllocError> {
    told!(LangTag, text, alloc)
}

fn range(text: &str, alloc: Global) -> Result<String, AllocError> {
    told!(LanguageRange, text, alloc)
}

/// Returns whether a type accepts a string. The piece after `+` is repeated 300 times.
fn told(alloc: Global, question: &str) -> Result<String, AllocError> {
    let (name, text) = cut(question);
    let whole = repeated(alloc, text, 300)?;
    let text = whole.as_str();
    match name {
        "PrimaryLanguage" => primary_language(text, alloc),
        "ExtendedLangTag" => extended_subtag(text, alloc),
        "LanguageExtension" => language_extension(text, alloc),
        "Language" => language(text, alloc),
        "Script" => script(text, alloc),
        "Region" => region(text, alloc),
        "Variant" => variant(text, alloc),
        "Variants" => variants(text, alloc),
        "ExtensionSubtag" => extension_subtag(text, alloc),
        "Extension" => extension(text, alloc),
        "Extensions" => extensions(text, alloc),
        "PrivateUseSubtag" => private_use_subtag(text, alloc),
        "PrivateUse" => private_use(text, alloc),
        "NormalLangTag" => normal_lang_tag(text, alloc),
        "LangTag" => lang_tag(text, alloc),
        "LanguageRange" => range(text, alloc),
        _ => String::from_str(alloc, "not a type"),
    }
}

/// Strings of each type: the shortest, the longest or a long string, a string of digits if there is one, and an invalid
/// text.
const TEXTS: &[(&str, &str)] = &[
    ("PrimaryLanguage|fr", "accepted"),
    ("PrimaryLanguage|abcdefgh", "accepted"),
    ("PrimaryLanguage|f", "invalid primary language"),
    ("ExtendedLangTag|min", "accepted"),
    ("ExtendedLangTag|", "invalid extended language subtag"),
    ("LanguageExtension|min", "accepted"),
    ("LanguageExtension|min-nan-abc", "accepted"),
    ("LanguageExtension|mi", "invalid language extension"),
    ("Language|fr", "accepted"),
    ("Language|zho-abc-def-ghi", "accepted"),
    ("Language|zh-", "invalid language"),
    ("Script|Latn", "accepted"),
    ("Script|", "invalid script"),
    ("Region|FR", "accepted"),
    ("Region|419", "accepted"),
    ("Region|F", "invalid region"),
    ("Variant|1996", "accepted"),
    ("Variant|12345678", "accepted"),
    ("Variant|AbCdEfGh", "accepted"),
    ("Variant|abcd", "invalid variant"),
    ("Variants|", "accepted"),
    ("Variants|1996", "accepted"),
    ("Variants|rozaj+-AbCdEfGh", "accepted"),
    ("Variants|-", "invalid variants"),
    ("ExtensionSubtag|aa", "accepted"),
    ("ExtensionSubtag|12345678", "accepted"),
    ("ExtensionSubtag|a", "invalid extension subtag"),
    ("Extension|a-bb", "accepted"),
    ("Extension|1-22", "accepted"),
    ("Extension|U-co+-12345678", "accepted"),
    ("Extension|a", "invalid extension"),
    ("Extensions|", "accepted"),
    ("Extensions|1-22", "accepted"),
    ("Extensions|a-bb+-U-co", "accepted"),
    ("Extensions|x-a", "invalid extensions"),
    ("PrivateUseSubtag|1", "accepted"),
    ("PrivateUseSubtag|AbCdEfGh", "accepted"),
    ("PrivateUseSubtag|", "invalid private use subtag"),
    ("PrivateUse|x-a", "accepted"),
    ("PrivateUse|X-1+-12345678", "accepted"),
    ("PrivateUse|x", "invalid private use"),
    ("NormalLangTag|fr", "accepted"),
    (
        "NormalLangTag|zh-min-nan-Hant-TW-rozaj-1996-a-bb-X-y+-z",
        "accepted",
    ),
    ("NormalLangTag|x-a", "invalid normal language tag"),
    ("LangTag|fr", "accepted"),
    ("LangTag|x-1", "accepted"),
    ("LangTag|I-kLINgon", "accepted"),
    ("LangTag|de-419+-A-BB", "accepted"),
    ("LangTag|", "invalid language tag"),
    ("LanguageRange|*", "accepted"),
    ("LanguageRange|de-419", "accepted"),
    ("LanguageRange|de_CH", "invalid language range"),
];

#[test]
fn each_text_type_shows_and_copies_its_texts(rt: HostRuntime) {
    are_answered(&rt, rt.alloc(), TEXTS, told);
}
