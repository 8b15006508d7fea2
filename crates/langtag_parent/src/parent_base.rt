//! The parent of a language with its script and its region.
ghost use Rattle.std.specs.Prelude.{◌≡◌, IsTrue, option_map};
ghost use Rattle.langtag_text.specs.FieldClasses.{is_script_field};
ghost use Rattle.langtag_parent.specs.Base.{base_fields};
ghost use Rattle.langtag_parent.specs.Parent.{parent_in_script, parent_of, parent_of_region, parent_of_script, usual_parent};

use crate::base::Base;
use crate::scripts::{likely_script, other_script};
use crate::stated::stated_parent;

/// Returns the parent of a short base: what CLDR states, or else the usual parent.
#[tactic(auto, unfolding(crate::specs::Parent::parent_of))]
pub(crate) fn parent_of<'a>(base: Base<'a>) -> Option<Base<'a>>
    ensures { option_map base_fields result ≡ parent_of (base_fields base.entry) }
{
    match stated_parent(base) {
        Some(stated) => stated,
        None => usual_parent(base),
    }
}

/// Returns the parent of a base for which CLDR states none: without the region, or else without the script.
fn usual_parent<'a>(base: Base<'a>) -> Option<Base<'a>>
    ensures { option_map base_fields result ≡ usual_parent (base_fields base.entry) }
{
    if !base.region.is_empty() {
        return parent_of_region(base);
    }
    if base.script.is_empty() {
        return None;
    }
    parent_of_script(base)
}

/// Returns the language, if its likely script is not known.
fn parent_of_script<'a>(base: Base<'a>) -> Option<Base<'a>>
    ensures { option_map base_fields result ≡ parent_of_script (base_fields base.entry) }
{
    let alone = base.language_alone();
    match likely_script(alone) {
        Some(_) => None,
        None => Some(alone),
    }
}

/// Returns the parent of a language in a region.
fn parent_of_region<'a>(base: Base<'a>) -> Option<Base<'a>>
    ensures { option_map base_fields result ≡ parent_of_region (base_fields base.entry) }
{
    match other_script(base) {
        Some(script) => parent_in_script(base.with_script(script)),
        None => Some(base.without_region()),
    }
}

/// Returns the parent of a language in a region, read with its script.
fn parent_in_script<'a>(base: Base<'a>) -> Option<Base<'a>>
    ensures { option_map base_fields result ≡ parent_in_script (base_fields base.entry) }
{
    match stated_parent(base) {
        Some(stated) => stated,
        None => Some(base.without_region()),
    }
}
