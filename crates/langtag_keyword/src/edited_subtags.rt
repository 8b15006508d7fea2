//! Writing the subtags of the extension `u` with a keyword set or removed.
ghost use Rattle.std.specs.Prelude.{◌≡◌, ◌∷◌, find, length, nat_lt, is_some, option_map};
ghost use Rattle.langtag_scan.specs.Grammar.{segments_left, subtags};
ghost use Rattle.langtag_text.specs.Output.{Pushes};
ghost use Rattle.langtag_keyword.specs.Edit as spec;

use crate::alphabet::is_before;
use crate::keys::Keys;
use crate::subtags::{nonempty, split_first};
use langtag_scan::{Subtags, case_insensitive_eq};
use langtag_text::Output;

/// Returns whether a string has a subtag that belongs to no keyword of a key.
pub(crate) fn has_others(text: &str, key: &str) -> bool
    ensures { result ≡ nat_lt 0 (length (spec.without_keyword key.now (subtags text.now))) }
{
    let mut is_inside = false;
    for subtag in Subtags::new(text) {
        is_inside = belongs(key, is_inside, subtag);
        if !is_inside {
            return true;
        }
    }
    false
}

/// Appends the subtags that belong to no keyword of a key.
pub(crate) fn push_without_keyword(out: &mut Output<'_>, rest: Option<&str>, key: &str)
    ensures { Pushes (spec.without_keyword key.now (segments_left rest.entry)) out.old out.new }
{
    let mut rest = rest;
    let mut is_inside = false;
    while let Some(text) = rest {
        let (subtag, after) = split_first(text);
        is_inside = belongs(key, is_inside, subtag);
        if !is_inside {
            out.push_subtag(subtag.as_bytes());
        }
        rest = after;
    }
}

/// Returns whether a subtag belongs to a keyword of a key, given whether the subtag before it does.
fn belongs(key: &str, is_inside: bool, subtag: &str) -> bool
    ensures { result ≡ spec.belongs key.now is_inside subtag.now }
{
    if Keys::Unicode.has(subtag.as_bytes()) {
        return case_insensitive_eq(subtag.as_bytes(), key.as_bytes());
    }
    is_inside
}

/// Appends the subtags with a keyword set.
pub(crate) fn push_with_keyword(out: &mut Output<'_>, text: &str, key: &str, value: &str)
    ensures { Pushes (spec.with_keyword key.now (subtags value.now) (subtags text.now)) out.old out.new }
{
    let standing = standing_key(text, key);
    let mut rest = nonempty(text);
    while let Some(text) = rest {
        let (subtag, after) = split_first(text);
        if is_place(key, standing, subtag) {
            push_keyword(out, standing.unwrap_or(key), value);
            return push_without_keyword(out, rest, key);
        }
        out.push_subtag(subtag.as_bytes());
        rest = after;
    }
    push_keyword(out, standing.unwrap_or(key), value);
}

/// Returns a key as it is written among subtags, or `None` if it is absent.
fn standing_key<'a>(text: &'a str, key: &str) -> Option<&'a str>
    ensures { option_map (λ t. t.now) result ≡ find (spec.is_this_key key.now) (subtags text.now) }
{
    Subtags::new(text).find(|subtag| is_this_key(key, subtag))
}

/// Returns whether a subtag is the given key, ignoring case.
fn is_this_key(key: &str, subtag: &str) -> bool
    ensures { result ≡ spec.is_this_key key.now subtag.now }
{
    Keys::Unicode.has(subtag.as_bytes()) && case_insensitive_eq(subtag.as_bytes(), key.as_bytes())
}

/// Returns whether a new keyword goes here: to the key as it stands or, if it is absent, before the first greater key.
fn is_place(key: &str, standing: Option<&str>, subtag: &str) -> bool
    ensures { result ≡ spec.is_place key.now (is_some standing.entry) subtag.now }
{
    match standing {
        Some(_) => is_this_key(key, subtag),
        None => {
            Keys::Unicode.has(subtag.as_bytes()) && is_before(key.as_bytes(), subtag.as_bytes())
        }
    }
}

/// Appends a key and the subtags of its value.
fn push_keyword(out: &mut Output<'_>, key: &str, value: &str)
    ensures { Pushes (key.now ∷ subtags value.now) out.old out.new }
{
    out.push_subtag(key.as_bytes());
    for subtag in Subtags::new(value) {
        out.push_subtag(subtag.as_bytes());
    }
}
