//! Setting and removing keywords of an owned tag, and the canonical forms of its extensions and of the whole tag.
use crate::support::{are_answered, cut, tag};
use langtag_locale::locale_form;
use langtag_unicode::{SetKeywordError, extensions_form, remove_keyword, set_keyword};
use std::alloc::{AllocError, Global};

/// Returns the tag after a key is set, or removed if the value is `none`. The question is `TAG|KEY|VALUE`. If an
/// allocation fails, the tag must be unchanged.
fn edited(alloc: Global, question: &str) -> Result<String, AllocError> {
    let (text, keyword) = cut(question);
    let (key, value) = cut(keyword);
    let mut owned = tag(text).try_to_owned(alloc)?;
    let result = match value {
        "none" => remove_keyword(&mut owned, alloc, key),
        _ => set_keyword(&mut owned, alloc, key, value),
    };
    if result.is_err() && owned.as_str() != text {
        return String::from_str(alloc, "changed, though there is an error");
    }
    match result {
        Ok(()) => Ok(owned.into_string()),
        Err(SetKeywordError::Memory(error)) => Err(error),
        Err(SetKeywordError::Keyword(_)) => String::from_str(alloc, "refused"),
    }
}

/// Returns the canonical form of the extensions of a tag.
fn formed(alloc: Global, text: &str) -> Result<String, AllocError> {
    Ok(extensions_form(alloc, tag(text))?.into_string())
}

/// Returns the canonical form of a tag as a Unicode locale identifier, or `-`.
fn localized(alloc: Global, text: &str) -> Result<String, AllocError> {
    match locale_form(alloc, tag(text))? {
        Some(form) => Ok(form.into_string()),
        None => String::from_str(alloc, "-"),
    }
}

#[test]
fn keywords_are_set_and_removed(rt: HostRuntime) {
    let rows = [
        ("de-x-a|ca|buddhist", "de-u-ca-buddhist-x-a"),
        (
            "th-u-nu-thai|ca|islamic-civil",
            "th-u-ca-islamic-civil-nu-thai",
        ),
        ("th-u-CA-roc-nu-thai-ca|ca|", "th-u-CA-nu-thai"),
        ("th-u-ca-roc-nu-thai|ca|none", "th-u-nu-thai"),
        ("th-u-ca-roc-x-a|CA|none", "th-x-a"),
        ("th|ca|none", "th"),
        ("x-u-ca|ca|roc", "refused"),
        ("th|c4|roc", "refused"),
    ];
    are_answered(&rt, rt.alloc(), &rows, edited);
}

#[test]
fn extensions_have_their_form(rt: HostRuntime) {
    let rows = [
        (
            "en-u-nu-thai-ca-gregory-kn-true",
            "en-u-ca-gregory-kn-nu-thai",
        ),
        ("en-x-true", "en-x-true"),
    ];
    are_answered(&rt, rt.alloc(), &rows, formed);
}

#[test]
fn tags_have_a_form_as_locales(rt: HostRuntime) {
    let rows = [
        ("ger-UK-u-ca-islamicc", "de-GB-u-ca-islamic-civil"),
        ("zh-yue-t-en-m0-names", "yue-t-en-m0-prprname"),
        ("en-GB-oed", "en-GB-oxendict"),
        ("i-klingon", "tlh"),
        ("i-default", "-"),
        ("x-a", "-"),
        ("zh-yue-t-m0", "-"),
        ("zh-yue-hepburn-heploc", "yue-alalc97"),
        ("zh-min", "-"),
    ];
    are_answered(&rt, rt.alloc(), &rows, localized);
}
