//! Replacing types and subdivisions (UTS #35, part 1, Annex C).
ghost use Rattle.std.specs.Prelude.{◌≡◌, flat_map, map, option_map};
ghost use Rattle.langtag_text.specs.Alias.{type_alias_for};
ghost use Rattle.langtag_keyword.specs.Aliases as list;
ghost use Rattle.langtag_keyword.specs.Keys.{canonical_value_of};
ghost use Rattle.langtag_keyword.specs.Form as spec;

use crate::alias_tables as tables;
use crate::keys::Keys;
use langtag_scan::case_insensitive_eq;
use langtag_text::alias_for;

/// A key, and its types that are replaced, each with its replacement.
type KeyAliases = (&'static str, &'static [(&'static str, &'static str)]);

/// Returns the canonical value of a key, except that its case may differ.
pub(crate) fn canonical_value<'a>(keys: Keys, key: &[u8], value: &'a str) -> &'a str
    ensures { result.now ≡ canonical_value_of keys key.now value.now }
{
    match keys {
        Keys::Unicode => without_true(unicode_value(key, value)),
        Keys::Transform => transform_value(key, value),
    }
}

/// Returns a value of `u`, or its replacement.
fn unicode_value<'a>(key: &[u8], value: &'a str) -> &'a str
    ensures { spec.without_true result.now ≡ spec.unicode_value key.now value.now }
{
    if has_subdivision(key) {
        return subdivision(value);
    }
    unicode_type(key, value)
}

/// Returns whether the values of a key are subdivisions.
fn has_subdivision(key: &[u8]) -> bool
    ensures { result ≡ spec.has_subdivision key.now }
{
    case_insensitive_eq(key, b"rg") || case_insensitive_eq(key, b"sd")
}

/// Returns a value, or the empty string for `true`.
fn without_true(value: &str) -> &str
    ensures { result.now ≡ spec.without_true value.now }
{
    if case_insensitive_eq(value.as_bytes(), b"true") {
        return "";
    }
    value
}

#[tactic(auto, unfolding(crate::specs::Form::subdivision))]
fn subdivision(value: &str) -> &str
    ensures { result.now ≡ spec.subdivision value.now }
{
    match alias_for(subdivision_aliases(), value.as_bytes()) {
        Some(other) => other,
        None => value,
    }
}

#[tactic(auto, unfolding(crate::specs::Form::unicode_type))]
fn unicode_type<'a>(key: &[u8], value: &'a str) -> &'a str
    ensures { result.now ≡ spec.unicode_type key.now value.now }
{
    match key_alias_for(unicode_type_aliases(), key, value.as_bytes()) {
        Some(other) => other,
        None => value,
    }
}

#[tactic(auto, unfolding(crate::specs::Form::transform_value))]
fn transform_value<'a>(key: &[u8], value: &'a str) -> &'a str
    ensures { result.now ≡ spec.transform_value key.now value.now }
{
    match key_alias_for(transform_type_aliases(), key, value.as_bytes()) {
        Some(other) => other,
        None => value,
    }
}

/// Returns the replacement of a type of a key, if there is one.
fn key_alias_for(rows: &'static [KeyAliases], key: &[u8], text: &[u8]) -> Option<&'static str>
    ensures { option_map (λ t. t.now) result
        ≡ type_alias_for (flat_map
        (λ group. map (λ row. record { key = group.0.now; old = row.0.now; new = row.1.now }) group.1.now) rows.now) key.now
        text.now }
{
    let mut rows = rows;
    while let [(of, types), others @ ..] = rows {
        if case_insensitive_eq(of.as_bytes(), key) {
            if let Some(new) = alias_for(types, text) {
                return Some(new);
            }
        }
        rows = others;
    }
    None
}

#[tactic(auto, using(crate::proofs::Aliases::unicode_rows))]
fn unicode_type_aliases() -> &'static [KeyAliases]
    ensures { flat_map (λ group. map (λ row. record { key = group.0.now; old = row.0.now; new = row.1.now }) group.1.now)
        result.now ≡ list.unicode_type_aliases }
{
    &tables::UNICODE_TYPE_ALIASES
}

#[tactic(auto, using(crate::proofs::Aliases::transform_rows))]
fn transform_type_aliases() -> &'static [KeyAliases]
    ensures { flat_map (λ group. map (λ row. record { key = group.0.now; old = row.0.now; new = row.1.now }) group.1.now)
        result.now ≡ list.transform_type_aliases }
{
    &tables::TRANSFORM_TYPE_ALIASES
}

#[tactic(auto, using(crate::proofs::Aliases::subdivision_rows))]
fn subdivision_aliases() -> &'static [(&'static str, &'static str)]
    ensures { map (λ row. record { old = row.0.now; new = row.1.now }) result.now ≡ list.subdivision_aliases }
{
    &tables::SUBDIVISION_ALIASES
}
