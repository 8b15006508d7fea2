//! The keywords of a range put among the subtags of the extension `u` of a tag.
ghost use Rattle.std.specs.Prelude.{◌≡◌, ◌==◌, ◌++◌, List, ℕ, false, length, map, nat_lt};
ghost use Rattle.langtag_scan.specs.Grammar.{AllByRecursion, list_any, segments_left, subtags, IsSubtag};
ghost use Rattle.langtag_text.specs.Output.{Pushes};
ghost use Rattle.langtag_text.specs.declared.output.Output.{Output};
ghost use Rattle.langtag_keyword.specs.Form.{has_subdivision, keyword_form, unicode_value};
ghost use Rattle.langtag_keyword.specs.Keywords.{before_key, is_key};
ghost use Rattle.langtag_keyword.specs.Least.{key_of};
ghost use Rattle.langtag_locale.specs.WishTexts.{wish_texts};
ghost use Rattle.langtag_locale.specs.Resolved as spec;

use crate::wish::Wish;
use langtag::case_insensitive_eq;
use langtag_keyword::{
    FEW, Keys, LeastNumbers, is_among, is_before, key_of, nonempty, offer_keys, push_keyword,
    split_first, value_in,
};
use langtag_scan::Subtags;
use langtag_text::Output;

/// Appends the subtags of a `u` that stay, with the keywords of the range. Each keyword stands before the first greater key.
pub(crate) fn push_resolved(out: &mut Output<'_>, wish: Wish<'_>, text: &str)
    requires { AllByRecursion IsSubtag (wish_texts wish).unicode }
    ensures { Pushes (spec.resolved_subtags (wish_texts wish.entry) (subtags text.now)) out.old out.new }
{
    let mut least = LeastNumbers::<FEW>::new();
    let mut rest = nonempty(text);
    let mut more = true;
    while more {
        offer_keys(&mut least, wish.unicode, Keys::Unicode);
        least.sort();
        rest = push_each(out, wish, rest, least.kept());
        more = least.advance();
    }
    push_remaining(out, wish, rest);
}

/// Appends the keywords whose keys have these numbers, each after the subtags that stay before it. Returns the rest.
fn push_each<'a>(
    out: &mut Output<'_>,
    wish: Wish<'_>,
    rest: Option<&'a str>,
    numbers: &[u64],
) -> Option<&'a str>
    ensures { (keys : List (List ℕ)) (end : Output) →
        Pushes (spec.with_keywords (keyword_form is_key unicode_value (wish_texts wish.entry).unicode) keys
        (spec.remaining_subtags (wish_texts wish.entry) false (segments_left result))) out.new end →
        Pushes (spec.with_keywords (keyword_form is_key unicode_value (wish_texts wish.entry).unicode) (map key_of numbers.now ++ keys)
        (spec.remaining_subtags (wish_texts wish.entry) false (segments_left rest.entry))) out.old end }
{
    let mut rest = rest;
    for number in numbers {
        let key = key_of(*number);
        rest = push_before(out, wish, rest, &key);
        push_keyword(
            out,
            Keys::Unicode,
            key,
            value_in(wish.unicode, Keys::Unicode, &key),
        );
    }
    rest
}

/// Appends the subtags that stay, up to the first greater key. Returns the rest, which begins with that key.
fn push_before<'a>(
    out: &mut Output<'_>,
    wish: Wish<'_>,
    rest: Option<&'a str>,
    key: &[u8],
) -> Option<&'a str>
    ensures before { Pushes (before_key (spec.is_greater_key key.now)
        (spec.remaining_subtags (wish_texts wish.entry) false (segments_left rest.entry))) out.old out.new }
    ensures rest { spec.remaining_subtags (wish_texts wish.entry) false (segments_left result)
        ≡ spec.from_greater key.now (spec.remaining_subtags (wish_texts wish.entry) false (segments_left rest.entry)) }
{
    let mut rest = rest;
    let mut is_removed = false;
    while let Some(text) = rest {
        let (subtag, after) = split_first(text);
        is_removed = belongs_to_removed(wish, is_removed, subtag);
        if !is_removed {
            if is_greater_key(key, subtag.as_bytes()) {
                return rest;
            }
            out.push_subtag(subtag.as_bytes());
        }
        rest = after;
    }
    None
}

/// Returns whether a subtag is a key that is greater than a key.
fn is_greater_key(key: &[u8], subtag: &[u8]) -> bool
    ensures { result ≡ spec.is_greater_key key.now subtag.now }
{
    Keys::Unicode.has(subtag) && is_before(key, subtag)
}

/// Appends the subtags that stay.
fn push_remaining(out: &mut Output<'_>, wish: Wish<'_>, rest: Option<&str>)
    ensures { Pushes (spec.remaining_subtags (wish_texts wish.entry) false (segments_left rest.entry)) out.old out.new }
{
    let mut rest = rest;
    let mut is_removed = false;
    while let Some(text) = rest {
        let (subtag, after) = split_first(text);
        is_removed = belongs_to_removed(wish, is_removed, subtag);
        if !is_removed {
            out.push_subtag(subtag.as_bytes());
        }
        rest = after;
    }
}

/// Returns whether a `u` with the keywords of the range has no subtags.
pub(crate) fn is_resolved_empty(wish: Wish<'_>, text: &str) -> bool
    ensures { result ≡ (length (spec.resolved_subtags (wish_texts wish.entry) (subtags text.now)) == 0) }
{
    if has_key(wish.unicode) {
        return false;
    }
    !has_remaining(wish, text)
}

/// Returns whether a string has a key.
fn has_key(text: &str) -> bool
    ensures { result ≡ list_any is_key (subtags text.now) }
{
    for subtag in Subtags::new(text) {
        if Keys::Unicode.has(subtag.as_bytes()) {
            return true;
        }
    }
    false
}

/// Returns whether any subtag stays.
fn has_remaining(wish: Wish<'_>, text: &str) -> bool
    ensures { result ≡ nat_lt 0 (length (spec.remaining_subtags (wish_texts wish.entry) false (subtags text.now))) }
{
    let mut is_removed = false;
    for subtag in Subtags::new(text) {
        is_removed = belongs_to_removed(wish, is_removed, subtag);
        if !is_removed {
            return true;
        }
    }
    false
}

/// Returns whether a subtag belongs to a keyword that is removed, given whether the subtag before it does.
fn belongs_to_removed(wish: Wish<'_>, is_removed: bool, subtag: &str) -> bool
    ensures { result ≡ spec.belongs_to_removed (wish_texts wish.entry) is_removed subtag.now }
{
    if Keys::Unicode.has(subtag.as_bytes()) {
        return is_replaced(wish, subtag.as_bytes());
    }
    is_removed
}

/// Returns whether the keywords of a key are removed.
fn is_replaced(wish: Wish<'_>, key: &[u8]) -> bool
    ensures { result ≡ spec.is_replaced (wish_texts wish.entry) key.now }
{
    is_among(nonempty(wish.unicode), key) || (wish.removes_subdivisions() && has_subdivision(key))
}

/// Returns whether the values of a key are subdivisions.
fn has_subdivision(key: &[u8]) -> bool
    ensures { result ≡ has_subdivision key.now }
{
    case_insensitive_eq(key, b"rg") || case_insensitive_eq(key, b"sd")
}
