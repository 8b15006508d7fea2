//! The length of the longest prefix of a string with which some tag begins.
ghost use Rattle.std.specs.Prelude.{◌≤◌, ◌++◌, ◌∷◌, [], ◌^◌};
ghost use Rattle.langtag_scan.specs.Grammar.{IsViableLength};

use crate::metered::Metered;
use crate::recogniser::read;
use crate::source::ByteSource;

/// Returns the length in bytes of the longest prefix with which some tag begins (RFC 5646 section 2.1). For example, a
/// program can use it to complete what a user types.
///
/// For a tag, this is the whole length. Otherwise it is the index of the first wrong byte, or the whole length if the
/// bytes end too soon. The function does not allocate.
///
/// ```
/// use langtag_scan::viable_len;
///
/// viable_len(b"zh-TW"); // 5
/// viable_len(b"zh_Hant"); // 2
/// viable_len(b"i-notexist"); // 3
/// viable_len(b"de-x"); // 4
/// viable_len(b""); // 0
/// ```
pub fn viable_len(bytes: &[u8]) -> usize
    ensures { IsViableLength bytes.now result }
{
    viable_len_of(&mut Metered::of_bytes(bytes))
}

/// Returns what [`viable_len`] returns for the bytes followed by a hyphen: 3 for `zh`. The result shows whether another
/// subtag may follow.
pub fn viable_len_with_hyphen(bytes: &[u8]) -> usize
    ensures { IsViableLength (bytes.now ++ 45 ∷ []) result }
{
    viable_len_of(&mut Metered::followed(bytes, b"-"))
}

/// Returns the length in bytes of the longest prefix of a source with which some tag begins.
fn viable_len_of<'a>(source: &mut Metered<'a>) -> usize
    requires { ⟦<Metered<'a> as ByteSource>⟧.reads source.old ≤ 2 ^ 126 }
    ensures { IsViableLength (⟦<Metered<'a> as ByteSource>⟧.bytes source.old) result }
{
    let len = source.len();
    match read(source) {
        Ok(_) => len,
        Err(viable) => viable,
    }
}
