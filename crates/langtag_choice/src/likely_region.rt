//! How unlikely the region of a tag is.
ghost use Rattle.std.specs.Prelude.{◌≡◌, option_map};
ghost use Rattle.langtag_choice.specs.Nearness as spec;
ghost use Rattle.langtag_cldr.specs.Definitions.{field_texts};

use langtag_cldr::{TagFields, suffices};
use langtag_scan::case_insensitive_eq;

/// Returns 0 if the region of a matching form is the likely region for its language and script, 1 if the form is one of
/// CLDR's paradigm locales, and 2 otherwise.
#[tactic(auto, unfolding(crate::specs::Nearness::unlikely_of))]
pub(crate) fn unlikely(form: Option<TagFields<'_>>) -> u8
    ensures { result ≡ spec.unlikely_of (option_map field_texts form.entry) }
{
    match form {
        Some(form) => unlikely_form(form),
        None => 2,
    }
}

/// Returns how unlikely the region of a matching form is.
pub(crate) fn unlikely_form(form: TagFields<'_>) -> u8
    ensures { result ≡ spec.unlikely_form (field_texts form.entry) }
{
    if suffices(form, form.without_region()) {
        0
    } else if is_paradigm(form) {
        1
    } else {
        2
    }
}

fn is_paradigm(form: TagFields<'_>) -> bool
    ensures { result ≡ spec.is_paradigm (field_texts form.entry) }
{
    is_form(form, b"en", b"GB") || (is_form(form, b"es", b"419") || is_form(form, b"pt", b"PT"))
}

fn is_form(form: TagFields<'_>, language: &[u8], region: &[u8]) -> bool
    ensures { result ≡ spec.is_form language.now region.now (field_texts form.entry) }
{
    case_insensitive_eq(language, form.language)
        && (case_insensitive_eq(b"Latn", form.script) && case_insensitive_eq(region, form.region))
}
