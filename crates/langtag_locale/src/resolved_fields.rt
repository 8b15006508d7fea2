//! The script and the region of the locale to format with.
ghost use Rattle.std.specs.Prelude.{◌≡◌, ◌∷◌, [], IsTrue};
ghost use Rattle.langtag.specs.Definitions.{normal_lang_tag_text, capital_text, Pushes};
ghost use Rattle.langtag_scan.specs.Grammar.{are_alike};
ghost use Rattle.langtag_scan.specs.Record as model;
ghost use Rattle.langtag_text.specs.FieldClasses.{is_region_field, is_script_field};
ghost use Rattle.langtag_cldr.specs.Definitions.{field_texts, or_else};
ghost use Rattle.langtag_text.specs.Fields.{subtag_of};
ghost use Rattle.langtag_locale.specs.Resolved as spec;

use crate::locale_extensions::push_field;
use crate::locale_fields::other_region;
use langtag::{NormalLangTag, case_insensitive_eq, region_field, script_field};
use langtag_cldr::{TagFields, add_likely_subtags};
use langtag_likely::{fields_of, is_read};
use langtag_text::Output;

/// Returns the region that a tag gets, or the empty string if its region stays.
pub(crate) fn new_region<'a>(tag: NormalLangTag<'_>, region: &'a [u8]) -> &'a [u8]
    requires { IsTrue (is_region_field region.now) }
    ensures region { model.EachRecord (normal_lang_tag_text tag.entry) (λ r. result.now ≡ spec.new_region r region.entry.now) }
    ensures in_class { IsTrue (is_region_field result.now) }
{
    if case_insensitive_eq(region_field(tag.region()), region) {
        return b"";
    }
    region
}

/// Returns the script of a tag that gets a region. It is written if it is not likely for the language, both alone and with
/// that region.
pub(crate) fn script_with<'a>(tag: NormalLangTag<'a>, region: &'a [u8]) -> &'a [u8]
    requires { IsTrue (is_region_field region.now) }
    ensures script { model.EachRecord (normal_lang_tag_text tag.entry) (λ r. result.now ≡ spec.script_with r region.entry.now) }
    ensures in_class { IsTrue (is_script_field result.now) }
{
    let script = script_field(tag.script());
    if region.is_empty() || !is_read(tag) {
        return script;
    }
    let own = fields_of(tag);
    if is_likely_with(own, region) {
        return script;
    }
    likely_script(own)
}

/// Returns whether the script is likely for the language, both alone and with a region.
fn is_likely_with<'a>(own: TagFields<'a>, region: &'a [u8]) -> bool
    requires { IsTrue (is_region_field region.now) }
    ensures { result ≡ spec.is_likely_with (field_texts own.entry) region.now }
{
    has_script_of(own, other_region(own, region)) && has_script_of(own, own.language_alone())
}

/// Returns whether two fields have the same likely script.
fn has_script_of(own: TagFields<'_>, other: TagFields<'_>) -> bool
    ensures { result ≡ are_alike (spec.likely_script (field_texts own.entry)) (spec.likely_script (field_texts other.entry)) }
{
    case_insensitive_eq(likely_script(own), likely_script(other))
}

/// Returns the script of the fields, or their likely script.
fn likely_script<'a>(fields: TagFields<'a>) -> &'a [u8]
    ensures script { result.now ≡ spec.likely_script (field_texts fields.entry) }
    ensures in_class { IsTrue (is_script_field result.now) }
{
    match add_likely_subtags(fields) {
        Some(most) => most.script,
        None => fields.script,
    }
}

/// Appends the new region in uppercase, or the old region if there is no new one.
pub(crate) fn push_region(out: &mut Output<'_>, new: &[u8], old: &[u8])
    ensures { Pushes (model.one_flat (or_else (subtag_of (capital_text new.now)) (subtag_of old.now))) out.old out.new }
{
    if new.is_empty() {
        return push_field(out, old);
    }
    push_uppercase(out, new);
}

/// Appends a subtag in uppercase.
fn push_uppercase(out: &mut Output<'_>, subtag: &[u8])
    ensures { Pushes (capital_text subtag.now ∷ []) out.old out.new }
{
    out.push_subtag(b"");
    for byte in subtag {
        out.push(&[byte.to_ascii_uppercase()]);
    }
}
