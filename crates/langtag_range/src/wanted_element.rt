//! An element of a header, read leniently.
ghost use Rattle.std.specs.Prelude.{◌≡◌, false, IfSome, IsTrue, MatchOption, if◌then◌else◌, option_map};
ghost use Rattle.langtag_scan.specs.Prelude.{after_first, slice_split, list_all};
ghost use Rattle.langtag_scan.specs.Grammar.{is_alphanumeric, is_letter};
ghost use Rattle.langtag_range.specs.Definitions.{is_semicolon, items, trimmed, are_basic_range, is_basic_range, is_star};
ghost use Rattle.langtag_range.specs.Locale as place;
ghost use Rattle.langtag_range.specs.Wanted as spec;

use crate::locale::locale_place;
use crate::split::{first_place, split_at_byte};
use crate::wanted::WantedRange;
use crate::weight::{are_digits, digit_at};
use crate::white_space::trimmed_place;

/// Returns the range of an item of a header, with its weight. `behind` is what follows the comma after the item.
#[tactic(auto, unfolding(crate::specs::Wanted::written))]
pub(crate) fn wanted_at<'a>(item: &'a [u8], behind: &[u8]) -> Option<WantedRange<'a>>
    ensures written { option_map spec.written_element result ≡ spec.written item.now (spec.digits_behind (items behind.now)) }
    ensures basic { IfSome result (λ found. IsTrue (is_basic_range (spec.hyphened found.bytes.now))) }
{
    let (before, parameters) = split_at_byte(item, b';');
    let bytes = wanted_bytes(trimmed(before))?;
    let weight = wanted_weight(parameters, behind);
    Some(WantedRange { bytes, weight })
}

/// Returns the range in a string, or `None` if it has none. Most strings are ranges, so only the others are read as locale
/// names.
#[tactic(auto, using(crate::proofs::BasicForms::range_place))]
fn wanted_bytes(text: &[u8]) -> Option<&[u8]>
    ensures { MatchOption result (is_basic_range (spec.hyphened (place.locale_place text.now)) ≡ false)
        (λ bytes. (bytes.now ≡ place.locale_place text.now) × IsTrue (is_basic_range (spec.hyphened bytes.now))) }
{
    if is_wanted_range(text) {
        return Some(text);
    }
    let bytes = locale_place(text);
    if is_wanted_range(bytes) {
        return Some(bytes);
    }
    None
}

/// Returns whether a string is a basic language range if `_` is read as `-`.
#[tactic(auto, using(crate::proofs::WantedTexts::basic_read))]
pub(crate) fn is_wanted_range(text: &[u8]) -> bool
    ensures { result ≡ is_basic_range (spec.hyphened text.now) }
{
    is_star(text) || are_wanted_subtags(text)
}

pub(crate) fn is_star(text: &[u8]) -> bool
    ensures { result ≡ is_star text.now }
{
    matches!(text, [b'*'])
}

/// Returns whether the first subtag is 1 to 8 letters, and each other subtag 1 to 8 letters or digits.
#[tactic(auto, using(crate::proofs::PlainElements::reads_subtags))]
fn are_wanted_subtags(text: &[u8]) -> bool
    ensures { result ≡ are_basic_range (slice_split spec.is_separator text.now) }
{
    let mut is_first = true;
    let mut len = 0usize;
    for byte in text {
        if len < 8 && is_in_subtag(*byte, is_first) {
            len += 1;
        } else if len > 0 && is_separator(*byte) {
            is_first = false;
            len = 0;
        } else {
            return false;
        }
    }
    len > 0
}

/// Returns whether a byte may be in the first subtag, or in another subtag.
#[tactic(auto, unfolding(langtag_scan::specs::Class::is_letter, langtag_scan::specs::Class::is_digit))]
fn is_in_subtag(byte: u8, is_first: bool) -> bool
    ensures { result ≡ (if is_first then is_letter byte else is_alphanumeric byte) }
{
    if is_first {
        byte.is_ascii_alphabetic()
    } else {
        byte.is_ascii_alphanumeric()
    }
}

/// Returns whether a byte separates subtags, if `_` is read as `-`.
pub fn is_separator(byte: u8) -> bool
    ensures { result ≡ spec.is_separator byte }
{
    byte == b'-' || byte == b'_'
}

/// Returns the weight of the first parameter named `q`, or 1000 if there is none.
#[tactic(auto, using(crate::proofs::WantedTexts::weight_at, crate::proofs::WantedTexts::shorter))]
fn wanted_weight(parameters: &[u8], behind: &[u8]) -> u32
    ensures { result ≡ spec.wanted_weight (slice_split is_semicolon parameters.now) (spec.digits_behind (items behind.now)) }
{
    let mut left = parameters;
    while !left.is_empty() {
        let (parameter, rest) = split_at_byte(left, b';');
        if let Some(value) = q_value(parameter) {
            return value_weight(value, behind);
        }
        left = rest;
    }
    1000
}

/// Returns the value of a parameter named `q`.
#[tactic(auto, using(crate::proofs::WantedTexts::no_equals, crate::proofs::WantedTexts::some_equals, std::proofs::lemmas::List::take_rest))]
fn q_value(parameter: &[u8]) -> Option<&[u8]>
    ensures { MatchOption result (spec.is_q_parameter parameter.now ≡ false)
        (λ value. (value.now ≡ trimmed (after_first spec.is_equals parameter.now)) × IsTrue (spec.is_q_parameter parameter.now)) }
{
    let Some(equals) = first_place(parameter, b'=') else {
        return None;
    };
    if !is_q_name(trimmed(&parameter[..equals])) {
        return None;
    }
    Some(trimmed(&parameter[equals + 1..]))
}

fn is_q_name(name: &[u8]) -> bool
    ensures { result ≡ spec.is_q_name name.now }
{
    matches!(name, [b'q' | b'Q'])
}

/// Returns the weight of a value. If the value has no point, the digits at the start of `behind`, which is the string
/// after the next comma, are its fraction.
fn value_weight(value: &[u8], behind: &[u8]) -> u32
    ensures { result ≡ spec.value_weight value.now (spec.digits_behind (items behind.now)) }
{
    let (whole, fraction) = split_at_byte(value, b'.');
    if whole.len() < value.len() {
        return number_weight(whole, fraction);
    }
    number_weight(whole, digits_behind(behind))
}

/// Returns the digits at the start of a string if a comma or the end of the string follows them. Otherwise it returns
/// an empty string.
#[tactic(auto, unfolding(langtag_scan::specs::Class::is_digit), using(crate::proofs::WantedTexts::digits_at))]
fn digits_behind(text: &[u8]) -> &[u8]
    ensures { result.now ≡ spec.digits_behind (items text.now) }
{
    let (item, _rest) = split_at_byte(text, b',');
    if are_digits(item, b'9') { item } else { b"" }
}

/// Returns the weight of a number, given the strings before and after its decimal mark. It is 1000 if the strings are
/// not a number, or if the number is above 1.
fn number_weight(whole: &[u8], fraction: &[u8]) -> u32
    ensures { result ≡ spec.number_weight whole.now fraction.now }
{
    if !is_number(whole, fraction) || !are_zeros(whole) {
        return 1000;
    }
    100 * digit_at(fraction, 0) + 10 * digit_at(fraction, 1) + digit_at(fraction, 2)
}

/// Returns whether the strings before and after a decimal mark have only digits, and at least one of them has a digit.
#[tactic(auto, unfolding(langtag_scan::specs::Class::is_digit))]
fn is_number(whole: &[u8], fraction: &[u8]) -> bool
    ensures { result ≡ spec.are_number whole.now fraction.now }
{
    are_digits(whole, b'9') && are_digits(fraction, b'9') && whole.len() + fraction.len() > 0
}

/// Returns a string without the white space around it.
pub(crate) fn trimmed(text: &[u8]) -> &[u8]
    ensures { result.now ≡ trimmed text.now }
{
    let (start, end) = trimmed_place(text);
    &text[start..end]
}

fn are_zeros(digits: &[u8]) -> bool
    ensures { result ≡ list_all spec.is_zero digits.now }
{
    digits.iter().all(|digit| *digit == b'0')
}
