//! Whether a script is written from right to left.
ghost use Rattle.std.specs.Prelude.{◌≡◌, IsTrue, map};
ghost use Rattle.langtag_scan.specs.Grammar.{folded_number};
ghost use Rattle.langtag_text.specs.FieldClasses.{is_script_field};
ghost use Rattle.langtag_text.specs.Numbers.{climbs_from};
ghost use Rattle.langtag_cldr.specs.Definitions.{is_right_to_left_script, right_to_left_scripts};

use crate::keys::index_of;
use crate::tables;

/// Returns whether a script is written from right to left.
#[tactic(auto, using(crate::proofs::FieldClasses::script_length, crate::proofs::FieldClasses::found_by_key))]
pub fn is_right_to_left_script(script: &[u8]) -> bool
    requires { IsTrue (is_script_field script.now) }
    ensures { result ≡ is_right_to_left_script script.now }
{
    index_of(right_to_left_keys(), script).is_some()
}

#[tactic(auto, using(crate::proofs::FieldClasses::keys_listed))]
fn right_to_left_keys() -> &'static [u32]
    ensures numbers { result.now ≡ map folded_number right_to_left_scripts }
    ensures climbs { IsTrue (climbs_from 0 result.now) }
{
    &tables::RIGHT_TO_LEFT_KEYS
}
