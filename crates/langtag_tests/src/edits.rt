//! Setting and removing parts of a tag.
use crate::support::{are_answered, cut};
use langtag::{
    EditError, Extensions, LangTagBuf, Language, NormalLangTag, NormalLangTagBuf, Part, PrivateUse,
    Region, Script, Variants,
};
use std::alloc::{AllocError, Global};

/// Returns the part with this string. A string that cannot be a script, a region or private use removes that part. For
/// other parts, such a string gives `None`.
fn part_of<'a>(name: &str, text: &'a str) -> Option<Part<'a>> {
    Some(match name {
        "language" => Part::Language(Language::new(text).ok()?),
        "script" => Part::Script(Script::new(text).ok()),
        "region" => Part::Region(Region::new(text).ok()),
        "variants" => Part::Variants(Variants::new(text).ok()?),
        "extensions" => Part::Extensions(Extensions::new(text).ok()?),
        "private_use" => Part::PrivateUse(PrivateUse::new(text).ok()),
        _ => return None,
    })
}

/// Sets a part of a tag of any kind.
fn set(tag: &mut LangTagBuf, alloc: Global, part: Part<'_>) -> Result<(), EditError> {
    match part {
        Part::Language(part) => tag.set_language(alloc, part),
        Part::Script(part) => tag.set_script(alloc, part),
        Part::Region(part) => tag.set_region(alloc, part),
        Part::Variants(part) => tag.set_variants(alloc, part),
        Part::Extensions(part) => tag.set_extensions(alloc, part),
        Part::PrivateUse(part) => tag.set_private_use(alloc, part),
    }
}

/// Sets a part of a normal tag.
fn set_normal(tag: &mut NormalLangTagBuf, alloc: Global, part: Part<'_>) -> Result<(), AllocError> {
    match part {
        Part::Language(part) => tag.set_language(alloc, part),
        Part::Script(part) => tag.set_script(alloc, part),
        Part::Region(part) => tag.set_region(alloc, part),
        Part::Variants(part) => tag.set_variants(alloc, part),
        Part::Extensions(part) => tag.set_extensions(alloc, part),
        Part::PrivateUse(part) => tag.set_private_use(alloc, part),
    }
}

/// Returns the tag after a part is set. The question is `TAG|PART|TEXT`. The setter of a normal tag must give the
/// same result, and leave no spare capacity if the tag grew. If an allocation fails, the tag must be unchanged.
fn edited(alloc: Global, question: &str) -> Result<String, AllocError> {
    let (text, part) = cut(question);
    let (name, given) = cut(part);
    let (Ok(tag), Some(part)) = (NormalLangTag::new(text), part_of(name, given)) else {
        return String::from_str(alloc, "not a normal tag and a part");
    };
    let answer = edited_tag(alloc, tag, part)?;
    let edited = edited_normal(alloc, tag, part)?;
    if edited.as_str() != answer.as_str() {
        return String::from_str(alloc, "another answer of a normal tag");
    }
    if edited.len() > text.len() && edited.capacity() != edited.len() {
        return String::from_str(alloc, "room to spare");
    }
    Ok(edited)
}

/// Returns a tag after a part is set, by the type of a tag of any kind.
fn edited_tag(alloc: Global, tag: NormalLangTag<'_>, part: Part<'_>) -> Result<String, AllocError> {
    let mut owned = tag.as_lang_tag().try_to_owned(alloc)?;
    match set(&mut owned, alloc, part) {
        Ok(()) => Ok(owned.into_string()),
        Err(_) => unchanged(alloc, owned.as_str(), tag.as_str()),
    }
}

/// Returns a tag after a part is set, by the type of a normal tag.
fn edited_normal(
    alloc: Global,
    tag: NormalLangTag<'_>,
    part: Part<'_>,
) -> Result<String, AllocError> {
    let mut owned = tag.try_to_owned(alloc)?;
    match set_normal(&mut owned, alloc, part) {
        Ok(()) => Ok(owned.into_string()),
        Err(_) => unchanged(alloc, owned.as_str(), tag.as_str()),
    }
}

/// Returns an error if a tag is unchanged, so that the test repeats the call.
fn unchanged(alloc: Global, text: &str, was: &str) -> Result<String, AllocError> {
    if text == was {
        return Err(AllocError);
    }
    String::from_str(alloc, "changed, though memory was refused")
}

/// Edits that set or remove each part, and the tag afterwards.
const EDITS: &[(&str, &str)] = &[
    ("fr-Latn-FR|language|zh-min-nan", "zh-min-nan-Latn-FR"),
    ("zh-min-nan-Hant|language|de", "de-Hant"),
    ("fr|script|Latn", "fr-Latn"),
    ("sr-Cyrl-RS|script|Latn", "sr-Latn-RS"),
    ("sr-Cyrl-RS|script|", "sr-RS"),
    ("fr-Latn|region|FR", "fr-Latn-FR"),
    ("es-ES-1996|region|419", "es-419-1996"),
    ("es-419-a-bb|region|", "es-a-bb"),
    ("sl|variants|rozaj-biske-1994", "sl-rozaj-biske-1994"),
    ("sl-rozaj-x-a|variants|", "sl-x-a"),
    ("de|extensions|a-bb-U-co", "de-a-bb-U-co"),
    ("de-a-bb-x-c|extensions|", "de-x-c"),
    ("de-1996|private_use|x-12345678-y", "de-1996-x-12345678-y"),
    ("de-x-y|private_use|", "de"),
    ("en|language|abcdefgh", "abcdefgh"),
    ("EN-us|language|zh-yue", "zh-yue-us"),
    (
        "de-Latn-DE-1996-a-bb-x-y|language|zh-yue",
        "zh-yue-Latn-DE-1996-a-bb-x-y",
    ),
    ("de-1996|script|Latn", "de-Latn-1996"),
    ("zh-min-nan-TW|script|Hant", "zh-min-nan-Hant-TW"),
    ("de-DE-u-co-phonebk|script|Latn", "de-Latn-DE-u-co-phonebk"),
    ("de-1996|region|AT", "de-AT-1996"),
    ("es-x-y|region|419", "es-419-x-y"),
    ("zh-cmn-Hans|region|CN", "zh-cmn-Hans-CN"),
    ("en-a-bb|variants|1996", "en-1996-a-bb"),
    ("sl-IT-x-a|variants|nedis", "sl-IT-nedis-x-a"),
    ("sl-rozaj|variants|rozaj-biske-1994", "sl-rozaj-biske-1994"),
    ("en-x-a|extensions|u-co-phonebk", "en-u-co-phonebk-x-a"),
    ("qaa-Qaaa-QM|extensions|1-22-A-bb", "qaa-Qaaa-QM-1-22-A-bb"),
    ("fr-CA-a-bb|extensions|a-bb-U-co", "fr-CA-a-bb-U-co"),
    ("fr-CA|private_use|X-Y", "fr-CA-X-Y"),
    ("en-u-co|private_use|x-1", "en-u-co-x-1"),
    ("en-Latn|language|zh-min-nan", "zh-min-nan-Latn"),
    ("az-x-y|script|Cyrl", "az-Cyrl-x-y"),
    ("mn-Cyrl-u-co|region|MN", "mn-Cyrl-MN-u-co"),
    (
        "de-CH-x-y|variants|1996-AbCdEfGh",
        "de-CH-1996-AbCdEfGh-x-y",
    ),
    ("ja-JP|extensions|u-ca-japanese", "ja-JP-u-ca-japanese"),
    ("ar-a-bb|private_use|x-12345678", "ar-a-bb-x-12345678"),
    (
        "en-x-y|private_use|x-12345678-12345678",
        "en-x-12345678-12345678",
    ),
];

#[test]
fn each_setter_has_memory(rt: HostRuntime) {
    are_answered(&rt, rt.alloc(), EDITS, edited);
}
