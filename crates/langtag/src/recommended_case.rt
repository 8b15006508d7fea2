//! The string of a tag in its recommended case.
ghost use Rattle.std.specs.Prelude.{◌≡◌, IsAscii, string_bytes};
ghost use Rattle.langtag_scan.specs.Prelude.{string_vec, SameBlock};
ghost use Rattle.langtag_text.specs.RecommendedCase.{recommended_text};

use langtag_text::make_recommended_case;
use std::mem;

/// Changes an ASCII text to its recommended case, in place.
pub(crate) fn put_recommended_case(text: &mut String)
    requires { IsAscii (string_bytes text.old) }
    ensures case { string_bytes text.new ≡ recommended_text (string_bytes text.old) }
    ensures same_block { SameBlock (string_vec text.old) (string_vec text.new) }
{
    let empty = String::new(*text.allocator());
    let mut bytes = mem::replace(text, empty).into_bytes();
    make_recommended_case(bytes.as_mut_slice());
    // SAFETY: the bytes are ASCII, which is proved here. The safe `from_utf8` would read all bytes again.
    *text = unsafe { String::from_utf8_unchecked(bytes) };
}
