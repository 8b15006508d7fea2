//! The language and the territory of a POSIX locale name.
ghost use Rattle.std.specs.Prelude.{◌≡◌};
ghost use Rattle.langtag_range.specs.Definitions.{locale_place, without_mark};

use crate::split::{split_at_byte, split_at_either};

/// Returns the language and the territory of a POSIX locale name (IEEE Std 1003.1, section 8.2), without the codeset,
/// the modifier, and the script that Java and Android print after `_#`. The result need not be a tag.
///
/// ```
/// use langtag_match::locale_place;
///
/// locale_place(b"pt_BR.UTF-8"); // b"pt_BR"
/// locale_place(b"zh_TW_#Hant"); // b"zh_TW"
/// locale_place(b"de@euro"); // b"de"
/// ```
#[tactic(auto, using(crate::proofs::WantedTexts::no_hash, crate::proofs::WantedTexts::some_hash))]
pub fn locale_place(name: &[u8]) -> &[u8]
    ensures { result.now ≡ locale_place name.now }
{
    let (front, _codeset) = split_at_either(name, b'.', b'@');
    let (before, _script) = split_at_byte(front, b'#');
    if before.len() == front.len() {
        return front;
    }
    without_mark(without_mark(before))
}

/// Returns a string without the `_` at its end, if it has one.
fn without_mark(text: &[u8]) -> &[u8]
    ensures { result.now ≡ without_mark text.now }
{
    match text {
        [front @ .., b'_'] => front,
        _ => text,
    }
}
