//! How many bytes of a string can begin a tag.
ghost use Rattle.langtag_scan.specs.Grammar.{IsStop, IsViableLength};

use langtag_scan::viable_len;

/// Returns the length of the longest prefix with which some tag begins: 3 for "i-no" and for "en-". It is `len` if and
/// only if the string is a tag, or more bytes can make it one.
#[unsafe(no_mangle)]
pub extern "C" fn langtag_viable_len(bytes: &[u8]) -> usize
    ensures { IsViableLength bytes.now result }
{
    viable_len(bytes)
}

/// Returns the length of the shortest prefix with which no tag begins, or `len` if there is none: 4 for "i-no", 3 for
/// "en-". A program that reads the string byte by byte can stop there.
#[tactic(auto, using(crate::proofs::KindLaws::stop_after_viable))]
#[unsafe(no_mangle)]
pub extern "C" fn langtag_stop_len(bytes: &[u8]) -> usize
    ensures { IsStop bytes.now result }
{
    bytes.len().min(viable_len(bytes) + 1)
}
