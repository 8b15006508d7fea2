//! The number that stands for a string of two or three letters.
ghost use Rattle.std.specs.Prelude.{◌≡◌, ◌≤◌, IsTrue, length};
ghost use Rattle.langtag_scan.specs.Class as class;
ghost use Rattle.langtag_text.specs.Numbers.{letter, letter_number};

use langtag_scan::into_smallcase;

/// Returns the number whose digits in base 26 are the letters of a string, ignoring case: 27 for `aa`, 31 for `ae` and
/// `AE`, 18278 for `zzz`. Strings of two or three letters have the same number only if they are equal, ignoring case.
/// Most languages (RFC 5646 section 2.2.1) have two or three letters.
///
/// The string has to be two or three ASCII letters.
#[tactic(auto, using(crate::proofs::Letters::primary_length, crate::proofs::Letters::letter_at, crate::proofs::Letters::number_of_two, crate::proofs::Letters::number_of_three))]
pub fn letter_number(bytes: &[u8]) -> usize
    requires primary { IsTrue (class.is_primary bytes.now) }
    requires short { length bytes.now ≤ 3 }
    ensures number { result ≡ letter_number bytes.now }
    ensures from_aa { 27 ≤ result }
    ensures to_zzz { result ≤ 18278 }
{
    let number = place(bytes[0]) * 26 + place(bytes[1]);
    if bytes.len() == 2 {
        return number;
    }
    number * 26 + place(bytes[2])
}

/// Returns the position of a letter in the alphabet, which is 1 for `a`.
#[tactic(auto, using(crate::proofs::Letters::letter_place))]
fn place(byte: u8) -> usize
    requires { IsTrue (class.is_letter byte) }
    ensures place { result ≡ letter byte }
    ensures some { 1 ≤ result }
    ensures most { result ≤ 26 }
{
    usize::from(into_smallcase(byte)) - 96
}
