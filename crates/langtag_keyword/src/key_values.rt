//! The values of the keys that begin with one character, found by one walk over the subtags.
ghost use Rattle.std.specs.Prelude.{◌≡◌, ◌<◌, ◌∷◌, ◌&&◌, ◌==◌, [], IfSome, IsTrue, None, false, get_or, ℕ, option_map};
ghost use Rattle.langtag_scan.specs.Grammar.{AllByRecursion, option_map_or, are_alike, is_alphanumeric, join, subtags, IsSubtag};
ghost use Rattle.langtag_keyword.specs.Keys.{opens_keyword};
ghost use Rattle.langtag_keyword.specs.Keywords.{value_of};
ghost use Rattle.langtag_keyword.specs.KeySets as spec;

use crate::key_set::{CHARACTERS, place_of};
use crate::keys::Keys;
use crate::subtags::{before_key, nonempty, split_first};
use langtag_scan::into_smallcase;

/// Returns the values of the keys that begin with a character, ignoring case. The index of a value is the place of the
/// second character of its key.
pub(crate) fn values_after<'a>(
    first: u8,
    text: &'a str,
    keys: Keys,
) -> [Option<&'a str>; CHARACTERS]
    requires { AllByRecursion IsSubtag (subtags text.now) }
    ensures { (second : ℕ) → IsTrue (is_alphanumeric second) → option_map (λ v. v.now) (get_or result (spec.place_of second) None)
        ≡ option_map join (value_of (opens_keyword keys) (first ∷ second ∷ []) (subtags text.now)) }
{
    let mut values = [None; CHARACTERS];
    let mut rest = nonempty(text);
    while let Some(text) = rest {
        let (subtag, others) = split_first(text);
        if let Some(place) = place_after(first, subtag.as_bytes(), keys) {
            values[place] = values[place].or(Some(before_key(others, keys)));
        }
        rest = others;
    }
    values
}

/// Returns the place of the second character of a subtag, if the subtag is a key that begins with a character, ignoring
/// case.
fn place_after(first: u8, subtag: &[u8], keys: Keys) -> Option<usize>
    requires { IsSubtag subtag.now }
    ensures place { (second : ℕ) → IsTrue (is_alphanumeric second) → option_map_or (λ place. place == spec.place_of second) result false
        ≡ (opens_keyword keys subtag.now && are_alike subtag.now (first ∷ second ∷ [])) }
    ensures within { IfSome result (λ place. place < 36) }
{
    match subtag {
        [start, second] if into_smallcase(*start) == into_smallcase(first) && keys.has(subtag) => {
            Some(place_of(*second))
        }
        _ => None,
    }
}
