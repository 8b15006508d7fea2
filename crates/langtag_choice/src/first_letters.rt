//! What the first letters of a tag show of its language.
ghost use Rattle.std.specs.Prelude.{◌≡◌, ◌≤◌, ◌<◌, ◌∷◌, []};
ghost use Rattle.langtag_scan.specs.Grammar.{ForSome};
ghost use Rattle.langtag_cldr.specs.Definitions.{matching_form};
ghost use Rattle.langtag_choice.specs.FirstLetters as spec;
ghost use Rattle.langtag_choice.specs.NearLanguages.{HasNumber};
ghost use Rattle.langtag_choice.specs.declared.matching_tables.TheConstants.{CHANGED_BITS};

use crate::matching_tables as tables;
use langtag_cldr::may_change_language;
use langtag_range::is_separator;
use langtag_scan::into_smallcase;

/// The number of `aa`, which is the least of all languages.
const FIRST_LANGUAGE: u32 = 27;

/// Returns the first two bytes of a string, in lowercase.
pub(crate) fn first_two(text: &[u8]) -> Option<(u8, u8)>
    ensures { result ≡ spec.first_two text.now }
{
    match text {
        [first, second, ..] => Some((into_smallcase(*first), into_smallcase(*second))),
        _ => None,
    }
}

/// Returns the number of the language of two or three letters with which a tag begins. Returns `None` if the language may
/// be another: `iw` and `cmn` are replaced, and `zh-yue`, `zh-hakka` and `sgn-BE-FR` are `yue`, `hak` and `sfb`.
#[inline(always)]
pub(crate) fn language_of(tag: &[u8]) -> Option<u32>
    ensures language { ForSome result (λ number. ForSome (matching_form tag.now) (HasNumber number)) }
    ensures most { ForSome result (λ number. number < 32768) }
{
    let (number, rest) = first_language(tag)?;
    if may_change_language(rest) || is_changed(number) {
        return None;
    }
    Some(number)
}

/// Returns the number of the first subtag of a string, if it has two or three letters, and what follows its separator.
#[inline(always)]
fn first_language(text: &[u8]) -> Option<(u32, &[u8])>
    ensures first { ForSome result (λ pair. spec.IsFirst text.now pair.0 pair.1.now) }
    ensures bounds { ForSome result (λ pair. (27 ≤ pair.0) × (pair.0 ≤ 18278)) }
{
    match text {
        [a, b] => Some((number_of_two(*a, *b)?, b"")),
        [a, b, c] => Some((number_of_three(*a, *b, *c)?, b"")),
        [a, b, c, mark, rest @ ..] => {
            if is_separator(*c) {
                Some((number_of_two(*a, *b)?, &text[3..]))
            } else if is_separator(*mark) {
                Some((number_of_three(*a, *b, *c)?, rest))
            } else {
                None
            }
        }
        _ => None,
    }
}

/// Returns the number of a language of two letters, or `None` if a byte is no letter.
#[tactic(auto, using(crate::proofs::FarTags::number_of_pair))]
#[inline(always)]
fn number_of_two(a: u8, b: u8) -> Option<u32>
    ensures number { ForSome result (spec.IsNumberOf (a ∷ b ∷ [])) }
    ensures bounds { ForSome result (λ number. (27 ≤ number) × (number ≤ 702)) }
{
    Some(place_of(a)? * 26 + place_of(b)?)
}

/// Returns the number of a language of three letters, or `None` if a byte is no letter.
#[tactic(auto, using(crate::proofs::FarTags::number_of_triple))]
#[inline(always)]
fn number_of_three(a: u8, b: u8, c: u8) -> Option<u32>
    ensures number { ForSome result (spec.IsNumberOf (a ∷ b ∷ c ∷ [])) }
    ensures bounds { ForSome result (λ number. (703 ≤ number) × (number ≤ 18278)) }
{
    Some(number_of_two(a, b)? * 26 + place_of(c)?)
}

/// Returns the position of a letter in the alphabet, counted from 1, or `None` if the byte is no letter.
#[inline(always)]
fn place_of(byte: u8) -> Option<u32>
    ensures number { ForSome result (spec.IsNumberOf (byte ∷ [])) }
    ensures bounds { ForSome result (λ number. (1 ≤ number) × (number ≤ 26)) }
{
    let small = into_smallcase(byte);
    if !small.is_ascii_lowercase() {
        return None;
    }
    Some(u32::from(small - b'a') + 1)
}

/// Returns whether a language, given by its number, is among those that may change.
#[tactic(auto, unfolding(crate::specs::FirstLetters::is_changed))]
#[inline(always)]
fn is_changed(number: u32) -> bool
    requires from_aa { 27 ≤ number }
    requires to_zzz { number ≤ 18278 }
    ensures { result ≡ spec.is_changed number }
{
    let place = (number - FIRST_LANGUAGE) as usize;
    (tables::CHANGED_BITS[place / 64] >> (place % 64)) % 2 == 1
}
