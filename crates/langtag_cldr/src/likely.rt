//! Adding and removing the likely subtags of fields (UTS #35, part 1, section 'Likely Subtags').
ghost use Rattle.std.specs.Prelude.{◌≡◌, option_map};
ghost use Rattle.langtag_cldr.specs.Definitions.{filled, add_likely, looked_up, likely_subtags, add_likely_subtags};
ghost use Rattle.langtag_cldr.specs.Definitions.{suffices, least, remove_likely_subtags, field_texts};

use crate::aliases::{canonical_fields, is_current_region};
use crate::rows::likely_for;
use crate::tag_fields::TagFields;

/// Returns the fields with the likely subtag instead of each empty field, or `None` if no row fits.
pub fn add_likely<'a>(fields: TagFields<'a>) -> Option<TagFields<'a>>
    ensures { option_map field_texts result ≡ add_likely likely_subtags (field_texts fields.entry) }
{
    Some(fields.filled(looked_up(fields)?))
}

/// Returns the right side of the first row that fits.
#[inline(always)]
fn looked_up(fields: TagFields<'_>) -> Option<TagFields<'static>>
    ensures { option_map (filled (field_texts fields.entry)) (option_map field_texts result)
        ≡ option_map (filled (field_texts fields.entry)) (looked_up likely_subtags (field_texts fields.entry)) }
{
    if let Some(likely) = likely_for(fields) {
        return Some(likely);
    }
    if let Some(likely) = likely_for(fields.without_region()) {
        return Some(likely);
    }
    if let Some(likely) = likely_for(fields.without_script()) {
        return Some(likely);
    }
    likely_for(fields.language_alone())
}

/// Returns the fields with the likely subtag instead of each empty field, or `None` if no row fits. Deprecated subtags
/// count as their replacements, and stay.
#[tactic(auto, unfolding(crate::specs::LikelyFields::add_likely_subtags))]
pub fn add_likely_subtags<'a>(fields: TagFields<'a>) -> Option<TagFields<'a>>
    ensures { option_map field_texts result ≡ add_likely_subtags (field_texts fields.entry) }
{
    // A language that has a row is not deprecated.
    if is_current_region(fields) {
        if let Some(most) = add_likely(fields) {
            return Some(most);
        }
    }
    Some(fields.filled(add_likely(canonical_fields(fields))?))
}

/// Returns the fewest fields that have the same maximal form, or `None` if no row fits.
pub fn remove_likely_subtags<'a>(fields: TagFields<'a>) -> Option<TagFields<'a>>
    ensures { option_map field_texts result ≡ remove_likely_subtags (field_texts fields.entry) }
{
    Some(least(add_likely_subtags(fields)?))
}

/// Returns the fewest fields of a maximal form that have the same maximal form. A region is preferred to a script.
fn least<'a>(most: TagFields<'a>) -> TagFields<'a>
    ensures { field_texts result ≡ least (field_texts most.entry) }
{
    let known = most.known();
    if suffices(most, known.language_alone()) {
        return known.language_alone();
    }
    if suffices(most, known.without_script()) {
        return known.without_script();
    }
    if suffices(most, known.without_region()) {
        return known.without_region();
    }
    most
}

/// Returns whether the fields `few` have the maximal form `most`.
pub fn suffices(most: TagFields<'_>, few: TagFields<'_>) -> bool
    ensures { result ≡ suffices (field_texts most.entry) (field_texts few.entry) }
{
    match add_likely_subtags(few) {
        Some(form) => most.are_alike(form),
        None => false,
    }
}
