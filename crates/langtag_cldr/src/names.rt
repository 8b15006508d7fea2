//! The names of languages, scripts and regions, by their positions in the tables.
ghost use Rattle.std.specs.Prelude.{◌≡◌, ◌<◌, ◌≤◌, IsTrue, [], length, map, nat_lt, slice_index_or};
ghost use Rattle.langtag_scan.specs.Prelude.{list_all};
ghost use Rattle.langtag_cldr.specs.Definitions.{name_at, name_length, script_codes};

use crate::tables;

/// Returns the codes of the scripts in the likely subtags, in alphabetical order.
#[tactic(auto, using(crate::proofs::TableRows::scripts_listed))]
pub fn script_codes() -> &'static [[u8; 4]]
    ensures { result.now ≡ script_codes }
{
    &tables::SCRIPT_NAMES
}

/// Returns the name at an index.
pub(crate) fn name_at(names: &'static [[u8; 4]], index: usize) -> &'static [u8]
    requires { index < length names.now }
    ensures { result.now ≡ name_at names.now index }
{
    let name = &names[index];
    &name[..name_length(name)]
}

/// Reads the index of a name from a column of a table, and returns the name.
pub(crate) fn name_in(
    names: &'static [[u8; 4]],
    column: &'static [u8],
    index: usize,
) -> &'static [u8]
    requires inside { index < length column.now }
    requires named { IsTrue (list_all (λ i. nat_lt i (length names.now)) column.now) }
    ensures { result.now ≡ slice_index_or (map (name_at names.now) column.now) index [] }
{
    name_at(names, usize::from(column[index]))
}

/// Returns the number of letters in a name, without the zeros that fill it up to four bytes.
fn name_length(name: &[u8; 4]) -> usize
    ensures letters { result ≡ name_length name.now }
    ensures most { result ≤ 4 }
{
    if name[1] == 0 {
        return 0;
    }
    if name[2] == 0 {
        return 2;
    }
    if name[3] == 0 { 3 } else { 4 }
}
