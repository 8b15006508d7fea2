//! The scripts in which a language is written.
ghost use Rattle.std.specs.Prelude.{◌≡◌, IfSome, IsTrue, [], option_map};
ghost use Rattle.langtag_text.specs.FieldClasses.{is_region_field, is_script_field};
ghost use Rattle.langtag_parent.specs.Base.{base_fields};
ghost use Rattle.langtag_parent.specs.Parent.{has_likely_script, likely_script, named, other_script, short};

use crate::base::Base;
use langtag_cldr::{TagFields, add_likely};
use langtag_scan::case_insensitive_eq;

/// Returns whether there is a script, and it is the one in which the language is usually written in the region.
pub(crate) fn has_likely_script(base: Base<'_>) -> bool
    ensures { result ≡ has_likely_script (base_fields base.entry) }
{
    if base.script.is_empty() {
        return false;
    }
    match likely_script(base.without_script()) {
        Some(likely) => case_insensitive_eq(base.script, likely),
        None => false,
    }
}

/// Returns the fields without a script that is likely anyway.
pub(crate) fn short<'a>(base: Base<'a>) -> Base<'a>
    ensures { base_fields result ≡ short (base_fields base.entry) }
{
    if has_likely_script(base) {
        base.without_script()
    } else {
        base
    }
}

/// Returns the fields with the script that a tag names, if they are the language of the tag alone, and the language is
/// usually written in this script.
pub(crate) fn named<'a>(base: Base<'a>, tag: Base<'a>) -> Base<'a>
    ensures { base_fields result ≡ named (base_fields tag.entry) (base_fields base.entry) }
{
    let alone = base.script.is_empty() && base.region.is_empty();
    if alone
        && case_insensitive_eq(base.language, tag.language)
        && has_likely_script(tag.without_region())
    {
        base.with_script(tag.script)
    } else {
        base
    }
}

/// Returns the likely script of fields without a script, if the language is usually written in another one.
pub(crate) fn other_script<'a>(base: Base<'a>) -> Option<&'a [u8]>
    ensures script { option_map (λ script. script.now) result ≡ other_script (base_fields base.entry) }
    ensures in_class { IfSome result (λ script. IsTrue (is_script_field script.now)) }
{
    if !base.script.is_empty() {
        return None;
    }
    let here = likely_script(base)?;
    let alone = likely_script(base.language_alone())?;
    if case_insensitive_eq(here, alone) {
        None
    } else {
        Some(here)
    }
}

/// Returns the script in which a language is most likely written in a region, or everywhere if there is no region.
/// Returns `None` if CLDR has no likely subtags of the language.
#[tactic(auto, using(crate::proofs::Bases::likely_none))]
pub(crate) fn likely_script<'a>(base: Base<'a>) -> Option<&'a [u8]>
    requires { base.script.now ≡ [] }
    ensures script { option_map (λ script. script.now) result ≡ likely_script base.entry.language.now base.entry.region.now }
    ensures in_class { IfSome result (λ script. IsTrue (is_script_field script.now)) }
{
    Some(add_likely(base.fields()?)?.script)
}
