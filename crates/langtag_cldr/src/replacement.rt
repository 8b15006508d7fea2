//! Tags that the registry replaces as a whole (RFC 5646 section 3.1.7), such as `i-klingon` and `zh-hakka`, also with
//! extensions and private use. Most strings show by their first bytes that they are none of these. What each choice runs
//! many times is inlined.
ghost use Rattle.std.specs.Prelude.{◌≡◌, ◌≤◌, ◌==◌, ◌⊎◌, ◌∷◌, [], ℕ, IsTrue, List, None, true, false, drop, find, length, option_map};
ghost use Rattle.langtag_scan.specs.Grammar.{after_first, before_first, fold_byte, is_hyphen, is_letter, is_single, list_all};
ghost use Rattle.langtag_fields.specs.Fields.{preferred_tag};
ghost use Rattle.langtag_range.specs.Definitions.{basic_text, ends_subtag, is_separator};
ghost use Rattle.langtag_cldr.specs.Definitions.{BeginsPlain, KeepsLanguage, base_text, begins_british, begins_counted};
ghost use Rattle.langtag_cldr.specs.Definitions.{begins_replaced, begins_with_base, is_plain_byte};

use crate::read_text::{after_common, without_stars};
use langtag_fields::{preferred_tags, preferred_text};
use langtag_range::is_separator;
use langtag_scan::{case_insensitive_eq, into_smallcase};

/// Returns the tag that replaces a string as a whole, given the first subtag of the string and the rest: `hak` for
/// `zh_hakka`.
#[inline(always)]
pub(crate) fn replacement(text: &[u8], first: &[u8], rest: &[u8]) -> Option<&'static [u8]>
    requires first { first.now ≡ before_first is_separator text.now }
    requires rest { rest.now ≡ after_first is_separator text.now }
    ensures { option_map (λ tag. tag.now) result ≡ preferred_tag (base_text (basic_text text.now)) }
{
    if may_be_replaced(first, rest) {
        preferred(text)
    } else {
        None
    }
}

/// Returns the Preferred-Value of the whole tag that equals the base of a range. Tags are searched by halves: only a range
/// can have `_` or `*`.
#[tactic(auto, using(crate::proofs::BaseTexts::plain_read_whole))]
#[inline(never)]
fn preferred(range: &[u8]) -> Option<&'static [u8]>
    ensures { option_map (λ tag. tag.now) result ≡ preferred_tag (base_text (basic_text range.now)) }
{
    let value = if is_plain(range) {
        preferred_text(base(range))
    } else {
        preferred_as_read(range)
    };
    Some(value?.as_bytes())
}

/// Returns whether a range has neither `_` nor `*`, so that it is read as it is written.
fn is_plain(range: &[u8]) -> bool
    ensures { result ≡ list_all is_plain_byte range.now }
{
    range.iter().all(|byte| *byte != b'*' && *byte != b'_')
}

/// Returns a string without extensions and private use.
fn base(text: &[u8]) -> &[u8]
    requires { IsTrue (list_all is_plain_byte text.now) }
    ensures { result.now ≡ base_text text.now }
{
    let mut len = 0;
    while !is_baseless(&text[len..]) {
        len += 1;
    }
    &text[..len]
}

/// Returns the Preferred-Value of the whole tag that equals the base of a range, which may have `_` and `*`.
#[tactic(auto, unfolding(langtag_fields::specs::Fields::preferred_tag))]
fn preferred_as_read(range: &[u8]) -> Option<&'static str>
    ensures { option_map (λ value. value.now) result ≡ preferred_tag (base_text (basic_text range.now)) }
{
    let (_, value) = first_alike(preferred_tags(), range)?;
    Some(value)
}

/// Returns the first pair with whose first string a range begins, if no more than extensions and private use follow.
fn first_alike(
    pairs: &'static [(&'static str, &'static str)],
    range: &[u8],
) -> Option<(&'static str, &'static str)>
    ensures { result ≡ find (λ pair. begins_with_base (basic_text range.now) pair.0.now) pairs.now }
{
    pairs
        .iter()
        .copied()
        .find(|(text, _)| begins_with_base(range, text.as_bytes()))
}

/// Returns whether a range begins with a string, ignoring case, and no more than extensions and private use follow.
fn begins_with_base(range: &[u8], text: &[u8]) -> bool
    ensures { result ≡ begins_with_base (basic_text range.now) text.now }
{
    let (left, rest) = after_common(range, text);
    rest.is_empty() && is_baseless(left)
}

/// Returns whether the rest of a range is empty, or begins with a separator and a subtag of one character.
#[tactic(auto, using(crate::proofs::BaseTexts::baseless_read, crate::proofs::BaseTexts::none_baseless))]
fn is_baseless(range: &[u8]) -> bool
    requires { BeginsPlain range.now }
    ensures { result ≡ (length (base_text (basic_text range.now)) == 0) }
{
    match range {
        [mark, rest @ ..] => is_separator(*mark) && begins_single(rest),
        [] => true,
    }
}

/// Returns whether a range begins with a subtag of one character.
#[tactic(auto, using(crate::proofs::BaseTexts::single_read, crate::proofs::BaseTexts::none_single))]
fn begins_single(range: &[u8]) -> bool
    ensures { result ≡ is_single (before_first is_hyphen (basic_text range.now)) }
{
    match without_stars(range) {
        [byte, rest @ ..] => !is_separator(*byte) && ends_subtag(rest),
        [] => false,
    }
}

/// Returns whether a range is empty or begins with a separator.
#[tactic(auto, using(crate::proofs::BaseTexts::ends_at, crate::proofs::BaseTexts::ends_none))]
fn ends_subtag(range: &[u8]) -> bool
    ensures { result ≡ ends_subtag (basic_text range.now) }
{
    match without_stars(range) {
        [mark, ..] => is_separator(*mark),
        [] => true,
    }
}

/// Returns `false` only if the first subtag of a string, and the rest, show that the string is not replaced as a whole.
#[tactic(auto, using(crate::proofs::WholeTags::not_by_little, crate::proofs::WholeTags::not_by_two, crate::proofs::WholeTags::not_by_follow, crate::proofs::WholeTags::not_by_three, crate::proofs::WholeTags::not_by_more))]
#[inline(always)]
fn may_be_replaced(first: &[u8], rest: &[u8]) -> bool
    ensures { result ≡ false → (text : List ℕ) → first.now ≡ before_first is_separator text
        → rest.now ≡ after_first is_separator text → preferred_tag (base_text (basic_text text)) ≡ None }
{
    match first {
        [] | [_] => !rest.is_empty(),
        [first, second] => may_change_language(rest) && begins_replaced(*first, *second),
        [_, _, _] => case_insensitive_eq(first, b"sgn") || case_insensitive_eq(first, b"art"),
        _ => false,
    }
}

/// Returns whether a tag with these two letters at its start is replaced as a whole.
fn begins_replaced(first: u8, second: u8) -> bool
    ensures { result ≡ begins_replaced (fold_byte first) (fold_byte second) }
{
    matches!(
        (into_smallcase(first), into_smallcase(second)),
        (b'a', b'r') | (b'e', b'n') | (b'n', b'o') | (b's', b'g') | (b'z', b'h')
    )
}

/// Returns `false` only if a string after a language of two letters keeps this language: it begins with no extended
/// language, and no tag that is replaced as a whole goes on like this.
#[tactic(auto, using(crate::proofs::WholeTags::keeps_none, crate::proofs::WholeTags::keeps_few, crate::proofs::WholeTags::keeps_other, crate::proofs::WholeTags::keeps_single, crate::proofs::WholeTags::keeps_pair, crate::proofs::WholeTags::keeps_long))]
#[inline(always)]
pub fn may_change_language(text: &[u8]) -> bool
    ensures { result ≡ false → KeepsLanguage text.now }
{
    match text {
        [first, ..] if !begins_counted(*first) => true,
        [_, mark, next, ..] if is_separator(*mark) => !begins_counted(*next),
        [first, second, mark, next, ..] if is_separator(*mark) => {
            !begins_counted(*next) || is_british(*first, *second)
        }
        [first, _, _] => is_letter(*first),
        [first, _, _, fourth, rest @ ..] => {
            is_letter(*first) && (is_separator(*fourth) || ends_soon(rest))
        }
        _ => false,
    }
}

/// Returns whether two letters are `gb`, in any case.
fn is_british(first: u8, second: u8) -> bool
    ensures { result ≡ begins_british (first ∷ second ∷ []) }
{
    (into_smallcase(first), into_smallcase(second)) == (b'g', b'b')
}

/// Returns `false` only if a string is empty, or has a second byte that is neither a separator nor `*`.
fn ends_soon(text: &[u8]) -> bool
    ensures { result ≡ false → (length text.now ≡ 0) ⊎ ((2 ≤ length text.now) × (begins_counted (drop 1 text.now) ≡ true)) }
{
    match text {
        [] => false,
        [_] => true,
        [_, second, ..] => !begins_counted(*second),
    }
}

/// Returns whether a byte is the first byte of a subtag that counts.
fn begins_counted(byte: u8) -> bool
    ensures { result ≡ begins_counted (byte ∷ []) }
{
    !is_separator(byte) && byte != b'*'
}

#[tactic(auto, unfolding(langtag_scan::specs::Class::is_letter))]
fn is_letter(byte: u8) -> bool
    ensures { result ≡ is_letter byte }
{
    byte.is_ascii_alphabetic()
}
