//! Finds the positions of strings in the tables, which contain numbers for the strings.
ghost use Rattle.std.specs.Prelude.{◌≡◌, ◌≤◌, ◌<◌, IfSome, IsTrue, length};
ghost use Rattle.langtag_scan.specs.Grammar.{folded_number};
ghost use Rattle.langtag_text.specs.Numbers.{climbs_from};
ghost use Rattle.langtag_cldr.specs.Definitions.{first_index, place};

use langtag_scan::folded_number;

/// Returns the index of a string's number in a list of ascending numbers.
pub fn index_of(keys: &[u32], text: &[u8]) -> Option<usize>
    requires climbs { IsTrue (climbs_from 0 keys.now) }
    requires short { length text.now ≤ 4 }
    ensures found { result ≡ first_index keys.now (folded_number text.now) }
    ensures within { IfSome result (λ index. index < length keys.now) }
{
    keys.binary_search_by_key(&folded_number(text), |key| u64::from(*key))
        .ok()
}

/// Returns the position of a string among the strings whose numbers are `keys`, counted from 1. It is 0 for the empty
/// string, and the position after the last for a string that is not among them.
pub(crate) fn place(keys: &[u32], text: &[u8]) -> u32
    requires climbs { IsTrue (climbs_from 0 keys.now) }
    requires few { length keys.now ≤ 256 }
    requires short { length text.now ≤ 4 }
    ensures place { result ≡ place keys.now text.now }
    ensures few { result ≤ 257 }
{
    if text.is_empty() {
        return 0;
    }
    match index_of(keys, text) {
        Some(index) => index as u32 + 1,
        None => keys.len() as u32 + 1,
    }
}
