//! The locale to format with.
use crate::support::{are_answered, cut, tag};
use langtag_locale::resolved_locale;
use std::alloc::{AllocError, Global};

/// Returns the locale to format with for a question `RANGE|TAG`.
fn resolved(alloc: Global, question: &str) -> Result<String, AllocError> {
    let (range, text) = cut(question);
    Ok(resolved_locale(alloc, range.as_bytes(), tag(text))?.into_string())
}

#[test]
fn locales_are_resolved(rt: HostRuntime) {
    let rows = [
        ("en-GB-u-hc-h12|en", "en-GB-u-hc-h12"),
        ("zh-HK|zh-CN", "zh-Hans-HK"),
        ("es-rUS|es", "es-US"),
        ("*|x-site", "x-site"),
    ];
    are_answered(&rt, rt.alloc(), &rows, resolved);
}
