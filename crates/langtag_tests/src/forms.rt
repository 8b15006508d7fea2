//! Calls that return a new tag or read a header. Each call succeeds if no allocation fails.
use crate::support::{Answer, are_answered, tag};
use langtag::{NormalLangTag, NormalLangTagBuf};
use langtag_likely::{maximized, minimized};
use langtag_match::{AcceptLanguage, AcceptLanguageError, tag_for_header};
use langtag_posix::{PosixError, from_posix};
use langtag_registry::{canonical, extlang_form};
use std::alloc::Global;

/// Makes each call, and compares its answer with the string after the arrow.
macro_rules! answers {
    ($rt:ident: $($call:ident($text:literal) => $wanted:literal;)*) => {
        $(are_answered(&$rt, $rt.alloc(), &[($text, $wanted)], $call);)*
    };
}

#[test]
fn each_form_and_header_has_memory(rt: HostRuntime) {
    answers! { rt:
        recommended("I-KLINGON") => "i-klingon";
        recommended("ZH-hant-tw-X-A") => "zh-Hant-TW-x-a";
        recommended_normal("ZH-hant-tw-X-A") => "zh-Hant-TW-x-a";
        from_parts("zh-min-nan-Hant-TW-x-a") => "zh-min-nan-Hant-TW";
        from_parts("es-419-1996") => "es-419";
        from_parts("fr") => "fr";
        canonical_form("iw-BU-heploc") => "he-MM-alalc97";
        canonical_form("zh-yue-b-cc-A-dd") => "yue-a-dd-b-cc";
        canonical_form("x-a") => "x-a";
        long_form("hak-CN") => "zh-hak-CN";
        maximal_form("zh-TW-x-a") => "zh-Hant-TW-x-a";
        minimal_form("zh-Hant-TW-x-a") => "zh-TW-x-a";
        posix("sr_RS.UTF-8@latin") => "sr-Latn-RS";
        posix("de__") => "de__";
        strict("fr, de-ch-1996;q=0.9") => "de-CH";
        strict("de_CH") => "a bad element";
        lenient("de_CH, en;q=0.5, de-CH;q=0.7") => "de-CH";
        for_header("en;q=0.5, de-CH;q=0.7, fr, it;q=0.1, es, ja, ko, zh, pt, ru") => "de-CH";
        for_header("fr") => "i-default";
    }
}

fn recommended(alloc: Global, text: &str) -> Answer {
    Ok(tag(text).try_to_recommended_case(alloc)?.into_string())
}

fn recommended_normal(alloc: Global, text: &str) -> Answer {
    match NormalLangTag::new(text) {
        Ok(tag) => Ok(tag.try_to_recommended_case(alloc)?.into_string()),
        Err(_) => String::from_str(alloc, "not a normal tag"),
    }
}

/// Returns a tag of the parts of a tag up to the region.
fn from_parts(alloc: Global, text: &str) -> Answer {
    let Ok(tag) = NormalLangTag::new(text) else {
        return String::from_str(alloc, "not a normal tag");
    };
    let (language, script, region) = (tag.language(), tag.script(), tag.region());
    Ok(NormalLangTagBuf::from_parts(alloc, language, script, region)?.into_string())
}

fn canonical_form(alloc: Global, text: &str) -> Answer {
    Ok(canonical(alloc, tag(text))?.into_string())
}

fn long_form(alloc: Global, text: &str) -> Answer {
    Ok(extlang_form(alloc, tag(text))?.into_string())
}

fn maximal_form(alloc: Global, text: &str) -> Answer {
    Ok(maximized(alloc, tag(text))?.into_string())
}

fn minimal_form(alloc: Global, text: &str) -> Answer {
    Ok(minimized(alloc, tag(text))?.into_string())
}

fn posix(alloc: Global, name: &str) -> Answer {
    match from_posix(alloc, name) {
        Ok(tag) => Ok(tag.into_string()),
        Err(PosixError::NoTag(text)) => String::from_str(alloc, text),
        Err(PosixError::Memory(error)) => Err(error),
    }
}

fn strict(alloc: Global, header: &str) -> Answer {
    match AcceptLanguage::new(alloc, header) {
        Ok(ranges) => looked_up(alloc, &ranges),
        Err(error) => refused(alloc, error),
    }
}

fn lenient(alloc: Global, header: &str) -> Answer {
    looked_up(alloc, &AcceptLanguage::lenient(alloc, header)?)
}

fn looked_up(alloc: Global, ranges: &AcceptLanguage<'_>) -> Answer {
    let found = ranges.look_up(&[tag("en"), tag("de-CH")], tag("i-default"));
    String::from_str(alloc, found.as_str())
}

fn for_header(alloc: Global, header: &str) -> Answer {
    match tag_for_header(alloc, header, &[tag("en"), tag("de-CH")], tag("i-default")) {
        Ok(tag) => String::from_str(alloc, tag.as_str()),
        Err(error) => refused(alloc, error),
    }
}

fn refused(alloc: Global, error: AcceptLanguageError<'_>) -> Answer {
    match error {
        AcceptLanguageError::Memory(error) => Err(error),
        _ => String::from_str(alloc, "a bad element"),
    }
}
