//! The language of a range, and the languages that are near it.
ghost use Rattle.std.specs.Prelude.{◌≡◌, ◌<◌, ◌≤◌, ◌*◌, ◌^◌, ◌++◌, [], ◌∷◌, ℕ, IsTrue, Some, length, slice_index, option_map};
ghost use Rattle.langtag_scan.specs.Prelude.{ForSome};
ghost use Rattle.langtag_choice.specs.FirstLetters.{first_two};
ghost use Rattle.langtag_choice.specs.NearLanguages.{AreFar, HasNumberOrNone, HasRuleKeys, is_among_numbers};
ghost use Rattle.langtag_cldr.specs.Definitions.{field_texts};
ghost use Rattle.langtag_range.specs.Definitions.{basic_text};
ghost use Rattle.langtag_text.specs.Numbers.{climbs_from};

use crate::first_letters::first_two;
use crate::read_range::starts;
use crate::rule_distance::language_rule_keys;
use langtag_cldr::{TagFields, are_alike, language_number};
use langtag_scan::into_smallcase;

/// The language of a range, the letters with which the range begins, and the keys of the rules for the language as the
/// desired one.
#[derive(Clone, Copy)]
pub(crate) struct RangeLanguage {
    /// The first two bytes of the range, in lowercase. The second is 0 if the range has only one byte. They are not those of
    /// the language if the language was replaced.
    pub(crate) letters: (u8, u8),
    /// The number of the language, or 0 if the range has no matching form, or a language of more than three letters.
    pub(crate) number: u32,
    keys: &'static [u32],
    pub ghost most: { number < 32768 },
    pub ghost all_keys: { HasRuleKeys (number * 32768) keys.now },
}

impl RangeLanguage {
    /// Returns the language of a range with this matching form, or `None` if the range is not compared by its first bytes.
    #[tactic(auto, using(crate::proofs::FarTags::begins_with_two, crate::proofs::FarTags::begins_with_one))]
    pub(crate) fn of(range: &[u8], form: Option<TagFields<'_>>) -> Option<RangeLanguage>
        ensures number { ForSome result (λ own. ForSome (option_map field_texts form.entry) (HasNumberOrNone own.number)) }
        ensures begins { ForSome result (λ own. first_two (basic_text range.now ++ 0 ∷ []) ≡ Some own.letters) }
    {
        let letters = match range {
            [_, _, ..] if starts(range, &range[..2]) => first_two(range)?,
            [only, ..] if are_alike(range, &range[..1]) => (into_smallcase(*only), 0),
            _ => return None,
        };
        let number = form_number(form);
        Some(RangeLanguage {
            letters,
            number,
            keys: rule_keys(number * 32768),
        })
    }

    /// Returns whether another language, given by its number, is neither this language nor near it.
    pub(crate) fn is_far(&self, other: u32) -> bool
        requires { other < 32768 }
        ensures { IsTrue result → AreFar self.now.number other }
    {
        other != self.number && !has_key(self.keys, self.number * 32768 + other)
    }
}

/// Returns the number of the language of a form, or 0 if there is no form, or if the language has more than three letters.
#[tactic(auto, using(langtag_cldr::proofs::FieldClasses::language_letters))]
fn form_number(form: Option<TagFields<'_>>) -> u32
    ensures number { ForSome (option_map field_texts form.entry) (HasNumberOrNone result) }
    ensures most { result < 32768 }
{
    match form {
        Some(form) if form.language.len() <= 3 => language_number(form.language),
        _ => 0,
    }
}

/// Returns whether a key is among a few keys. For so few, `contains` takes longer. Most languages have one key or none, so
/// for these the compiler makes a loop over tags without a loop over keys.
#[inline(always)]
fn has_key(keys: &[u32], key: u32) -> bool
    ensures { result ≡ is_among_numbers keys.now key }
{
    match keys {
        [] => false,
        [own] => *own == key,
        _ => keys.iter().any(|own| *own == key),
    }
}

/// Returns the keys of the rules from a number on, as far as 32,768 numbers go.
fn rule_keys(from: u32) -> &'static [u32]
    requires { from < 2 ^ 30 }
    ensures { HasRuleKeys from result.now }
{
    let keys = language_rule_keys();
    let start = place(keys, from);
    let end = place(keys, from + 32768);
    &keys[start..end]
}

/// Returns the index of the first number that is at least `least`, in a list of ascending numbers.
fn place(numbers: &[u32], least: u32) -> usize
    requires { IsTrue (climbs_from 0 numbers.now) }
    ensures within { result ≤ length numbers.now }
    ensures before { (k : ℕ) → k < result → slice_index numbers.now k < least }
    ensures after { (k : ℕ) → result ≤ k → k < length numbers.now → least ≤ slice_index numbers.now k }
{
    match numbers.binary_search(&least) {
        Ok(index) => index,
        Err(index) => index,
    }
}
