//! Tables of subtags, which are searched for a string, ignoring case.
ghost use Rattle.std.specs.Prelude.{◌≡◌, ℕ, ◌==◌, IsTrue, List, length, map, nat_lt, option_map};
ghost use Rattle.langtag_scan.specs.Grammar.{IsSubtag, list_all};
ghost use Rattle.langtag_fields.specs.Entry.{Entry, value_for};
ghost use Rattle.langtag_fields.specs.Registered as registered;
ghost use Rattle.langtag_fields.specs.Tables.{AreKeysOf, IsTableOf, texts_at};

use langtag_scan::folded_number;

/// Returns whether a string is in a table, whose keys are the numbers of its strings.
pub(crate) fn is_among(keys: &[u64], text: &[u8]) -> bool
    requires { IsSubtag text.now }
    ensures { (list : List (List ℕ)) → AreKeysOf keys.now list → result ≡ registered.contains_alike list text.now }
{
    keys.binary_search(&folded_number(text)).is_ok()
}

/// Returns the value for a string. Many subtags may have one value: `indices` has the index of the value of each key.
pub(crate) fn value_of(
    keys: &[u64],
    indices: &[u8],
    values: &'static [&'static str],
    text: &[u8],
) -> Option<&'static str>
    requires subtag { IsSubtag text.now }
    requires beside { IsTrue (length keys.now == length indices.now) }
    requires inside { IsTrue (list_all (λ index. nat_lt index (length values.now)) indices.now) }
    ensures { (list : List Entry) → IsTableOf keys.now (texts_at (map (λ text. text.now) values.now) indices.now) list
        → option_map (λ text. text.now) result ≡ value_for list text.now }
{
    match keys.binary_search(&folded_number(text)) {
        Ok(index) => Some(values[usize::from(indices[index])]),
        Err(_) => None,
    }
}
