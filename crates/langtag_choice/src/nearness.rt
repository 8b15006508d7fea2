//! How near a tag is to a range.
ghost use Rattle.std.specs.Prelude.{◌≡◌, ◌≤◌, ◌<◌, ◌==◌, ◌&&◌, ◌||◌, not, IsTrue, IfSome, MatchOption, Some, length};
ghost use Rattle.langtag_scan.specs.Prelude.{list_any};
ghost use Rattle.langtag_range.specs.Definitions.{ends_subtag, ends_in_single, basic_text, hyphened};
ghost use Rattle.langtag_choice.specs.Serves.{may_serve, reach};
ghost use Rattle.langtag_choice.specs.Distance.{distance_of_texts, fields_distance, formless_distance, language_distance};
ghost use Rattle.langtag_choice.specs.Near.{IsNear, IsNearer};
ghost use Rattle.langtag_text.specs.Fields.{Fields};
ghost use Rattle.langtag_choice.specs.KnownTexts.{is_known, known_text};
ghost use Rattle.langtag_cldr.specs.Definitions.{completed, matching_form, field_texts};
ghost use Rattle.langtag_choice.specs.Nearness as spec;
ghost use Rattle.langtag_choice.specs.Prepared.{is_prepared_for};

use crate::known_tag::KnownTag;
use crate::prepared_form::PreparedForm;
use crate::rule_distance::language_distance;
use crate::tag_distance::places_distance;
use crate::wish::Wish;
use langtag_cldr::{
    TagFields, after_common, are_alike, basic_len, completed, matching_form, replaced_form,
};
use langtag_range::ends_in_single;

/// The distance of a tag from a range, and the tag's matching form.
#[derive(Clone, Copy)]
pub(crate) struct Nearness<'t> {
    pub(crate) distance: u8,
    pub(crate) form: Option<TagFields<'t>>,
}

/// Returns how near a tag is to a range that the tag may serve, if the distance is below a limit. The distance is 50
/// if only lookup finds the tag.
#[tactic(auto, unfolding(crate::specs::Serves::reach))]
#[inline(always)]
pub(crate) fn measured<'t>(limit: u8, wish: &Wish<'_>, tag: KnownTag<'t>) -> Option<Nearness<'t>>
    ensures near { IsTrue (is_known tag.entry) → MatchOption result (IsTrue (may_serve (basic_text wish.now.range.now) (known_text tag.entry)) → limit ≤ reach (basic_text wish.now.range.now) (known_text tag.entry))
        (IsNear (basic_text wish.now.range.now) (known_text tag.entry)) }
    ensures below { IsTrue (is_known tag.entry) → IfSome result (λ near. near.distance < limit) }
{
    if let Some(near) = nearer_than(limit.min(50), wish, tag) {
        return Some(near);
    }
    if limit <= 50 || kept(wish.range, tag.bytes()) == 0 {
        return None;
    }
    Some(Nearness {
        distance: 50,
        form: tag.form(),
    })
}

/// Returns how near a tag is to a range (UTS #35, Language Matching), if it is nearer than a limit.
#[inline(always)]
fn nearer_than<'t>(limit: u8, wish: &Wish<'_>, tag: KnownTag<'t>) -> Option<Nearness<'t>>
    ensures { IsTrue (is_known tag.entry) → MatchOption result (limit ≤ distance_of_texts (basic_text wish.now.range.now) (known_text tag.entry))
        (IsNearer limit (distance_of_texts (basic_text wish.now.range.now) (known_text tag.entry))
        (matching_form (known_text tag.entry))) }
{
    match tag {
        KnownTag::Text(text) => nearer_text(limit, wish, text),
        KnownTag::Prepared(text, prepared) => nearer_prepared(limit, wish, text, prepared),
    }
}

/// Returns how near a string is to a range, if it is nearer than a limit.
#[tactic(auto, unfolding(crate::specs::Distance::distance_of_texts), using(langtag_cldr::proofs::AlikeFields::form_completed))]
fn nearer_text<'t>(limit: u8, wish: &Wish<'_>, tag: &'t [u8]) -> Option<Nearness<'t>>
    ensures { MatchOption result (limit ≤ distance_of_texts (basic_text wish.now.range.now) tag.now)
        (IsNearer limit (distance_of_texts (basic_text wish.now.range.now) tag.now) (matching_form tag.now)) }
{
    let Some(desired) = wish.form else {
        return equal_text(limit, wish.range, tag);
    };
    match replaced_form(tag) {
        Some(supported) => nearer_fields(limit, desired, supported),
        None => equal_text(limit, wish.range, tag),
    }
}

/// Returns how near a prepared tag is to a range, if it is nearer than a limit.
#[tactic(auto, unfolding(crate::specs::Distance::distance_of_texts))]
#[inline(always)]
fn nearer_prepared<'t>(
    limit: u8,
    wish: &Wish<'_>,
    tag: &'t [u8],
    prepared: &'t PreparedForm,
) -> Option<Nearness<'t>>
    ensures { IsTrue (is_prepared_for tag.now prepared.now) → MatchOption result (limit ≤ distance_of_texts (basic_text wish.now.range.now) tag.now)
        (IsNearer limit (distance_of_texts (basic_text wish.now.range.now) tag.now) (matching_form tag.now)) }
{
    if limit <= 1 && prepared.has_other_region(wish) {
        return None;
    }
    let Some(form) = prepared.form() else {
        return nearer_text(limit, wish, tag);
    };
    match wish.form {
        Some(desired) if prepared.has_language_of(wish) => nearer_places(limit, 0, desired, form),
        Some(desired) => nearer_form(limit, desired, form),
        None => equal_text(limit, wish.range, tag),
    }
}

/// Computes how near a tag is to a range, from the fields of both. It adds the tag's likely subtags only if the
/// language is near enough.
fn nearer_fields<'t>(
    limit: u8,
    desired: TagFields<'_>,
    supported: TagFields<'t>,
) -> Option<Nearness<'t>>
    ensures { MatchOption result (limit ≤ fields_distance (field_texts desired.entry) (completed (field_texts supported.entry)))
        (IsNearer limit (fields_distance (field_texts desired.entry) (completed (field_texts supported.entry)))
        (Some (completed (field_texts supported.entry)))) }
{
    let language = language_distance(desired, with_language(supported));
    if language >= limit {
        return None;
    }
    nearer_places(limit, language, desired, completed(supported))
}

/// Returns how near a matching form is to the form of a range, if it is nearer than a limit.
fn nearer_form<'t>(limit: u8, desired: TagFields<'_>, form: TagFields<'t>) -> Option<Nearness<'t>>
    ensures { MatchOption result (limit ≤ fields_distance (field_texts desired.entry) (field_texts form.entry))
        (IsNearer limit (fields_distance (field_texts desired.entry) (field_texts form.entry)) (Some (field_texts form.entry))) }
{
    let language = language_distance(desired, form);
    if language >= limit {
        return None;
    }
    nearer_places(limit, language, desired, form)
}

/// Returns how near a matching form is to the form of a range, if it is nearer than a limit, given the distance of their
/// languages.
fn nearer_places<'t>(
    limit: u8,
    language: u8,
    desired: TagFields<'_>,
    form: TagFields<'t>,
) -> Option<Nearness<'t>>
    requires { language ≤ 80 }
    ensures { language ≡ language_distance (field_texts desired.entry) (field_texts form.entry) → MatchOption result (limit ≤ fields_distance (field_texts desired.entry) (field_texts form.entry))
        (IsNearer limit (fields_distance (field_texts desired.entry) (field_texts form.entry)) (Some (field_texts form.entry))) }
{
    let distance = language + places_distance(desired, form);
    if distance >= limit {
        return None;
    }
    Some(Nearness {
        distance,
        form: Some(form),
    })
}

/// Returns the fields; if they have no language, likely subtags are added first.
#[tactic(auto, unfolding(crate::specs::Distance::language_distance), using(langtag_cldr::proofs::AlikeFields::completed_language))]
fn with_language<'t>(fields: TagFields<'t>) -> TagFields<'t>
    ensures { (desired : Fields) → language_distance desired (field_texts result)
        ≡ language_distance desired (completed (field_texts fields.entry)) }
{
    if fields.language.is_empty() {
        completed(fields)
    } else {
        fields
    }
}

/// Returns how near a tag is to a range if the tag or the range has no matching form.
fn equal_text<'t>(limit: u8, range: &[u8], tag: &'t [u8]) -> Option<Nearness<'t>>
    ensures { MatchOption result (limit ≤ formless_distance (basic_text range.now) tag.now)
        (IsNearer limit (formless_distance (basic_text range.now) tag.now) (matching_form tag.now)) }
{
    if limit == 0 || !are_alike(range, tag) {
        return None;
    }
    Some(Nearness {
        distance: 0,
        form: matching_form(tag),
    })
}

/// Returns the number of bytes of a range that lookup keeps when it finds a tag, or 0 if it does not find the tag.
#[tactic(auto, unfolding(crate::specs::Nearness::kept), using(crate::proofs::RangeLengths::longer_tag))]
pub(crate) fn kept(range: &[u8], tag: &[u8]) -> usize
    ensures { result ≡ spec.kept (basic_text range.now) tag.now }
{
    if tag.len() <= range.len() && is_fallback(range, tag) {
        tag.len()
    } else {
        0
    }
}

/// Returns how many bytes lookup removes from a range to find a tag, or the length of the range if lookup does not find the
/// tag.
pub(crate) fn lost(range: &[u8], tag: &[u8]) -> usize
    ensures { result ≡ spec.lost (basic_text range.now) tag.now }
{
    len_of(range).saturating_sub(kept(range, tag))
}

/// Returns the length of a range without each `-*`. This is quick if there is none.
#[tactic(auto, using(crate::proofs::RangeLengths::starless))]
fn len_of(range: &[u8]) -> usize
    ensures { result ≡ length (basic_text range.now) }
{
    if has_star(range) {
        basic_len(range)
    } else {
        range.len()
    }
}

/// Returns whether a range contains `*`.
fn has_star(range: &[u8]) -> bool
    ensures { result ≡ list_any (λ byte. byte == 42) range.now }
{
    range.iter().any(|byte| *byte == b'*')
}

/// Returns whether a tag equals a range, or equals the string before one of the range's hyphens and does not end in a
/// subtag of a single character.
#[tactic(auto, using(crate::proofs::FarTags::tag_begins))]
pub(crate) fn is_fallback(range: &[u8], tag: &[u8]) -> bool
    ensures { result ≡ spec.is_fallback (basic_text range.now) tag.now }
{
    let (left, rest) = after_common(range, tag);
    rest.is_empty() && may_go(left, tag)
}

/// Returns whether lookup can remove `left`, the rest of a range after a tag. This holds if `left` is empty, or if it
/// begins with a hyphen and the tag does not end in a subtag of a single character.
fn may_go(left: &[u8], tag: &[u8]) -> bool
    ensures { result ≡ (ends_subtag (hyphened left.now) && ((length left.now == 0) || not (ends_in_single tag.now))) }
{
    goes_on(left) && (left.is_empty() || !ends_in_single(tag))
}

/// Returns whether the rest of a range is empty or begins with a hyphen.
fn goes_on(rest: &[u8]) -> bool
    ensures { result ≡ ends_subtag (hyphened rest.now) }
{
    matches!(rest, [] | [b'-' | b'_', ..])
}
