//! Changes a string to its recommended case, or tests whether it has that case.
ghost use Rattle.std.specs.Prelude.{◌≡◌, ◌↔◌, ℕ, List, Some, IsTrue, ◌≤◌, length, slice_get, take};
ghost use Rattle.langtag_scan.specs.Grammar.{Alike, fold_text, Record, IsWellFormed, spell, segments};
ghost use Rattle.langtag_text.specs.RecommendedCase.{recommended_record, recommended_subtag, recommended_text};
ghost use Rattle.langtag_text.specs.Walk.{cased};

use crate::piece::Piece;
use crate::recommended_bytes::RecommendedBytes;

/// Changes the letters of a string to the case that RFC 5646 section 2.1.1 recommends for a tag, as in `mn-Cyrl-MN`,
/// `en-CA-x-ca` and `az-Latn-x-latn`.
///
/// The first subtag, and every subtag anywhere after a single-byte subtag, becomes lowercase. Other subtags become
/// uppercase if they have two bytes, titlecase if they have four bytes, and lowercase otherwise. A byte that is not an
/// ASCII letter stays as it is.
///
/// Strings that differ only in case become the same bytes, so the result can be a key in a store that compares bytes.
///
/// ```
/// use langtag_text::make_recommended_case;
///
/// let mut text = *b"MN-cYRL-mn";
/// make_recommended_case(&mut text);
/// &text; // b"mn-Cyrl-MN"
/// ```
pub fn make_recommended_case(text: &mut [u8])
    ensures case { text.new ≡ recommended_text text.old }

    // law: the case of each subtag
    ensures each_subtag { (t subtag : List ℕ) (k : ℕ) → slice_get (segments t) k ≡ Some subtag →
        slice_get (segments (recommended_text t)) k ≡ Some (recommended_subtag (take k (segments t)) subtag) }
    ensures alike { (t : List ℕ) → Alike (recommended_text t) t }
    // law: the case of each part
    ensures of_record { (r : Record) → IsWellFormed r → recommended_text (spell r) ≡ spell (recommended_record r) }
    // law: doing it again changes nothing
    ensures twice { (t : List ℕ) → recommended_text (recommended_text t) ≡ recommended_text t }
    ensures one_key { (t u : List ℕ) → Alike t u → recommended_text t ≡ recommended_text u }
{
    text.make_ascii_lowercase();
    capitalise_pieces(text);
}

/// Puts a lowercase text into its recommended case, piece by piece.
#[tactic(auto, using(crate::proofs::PieceLaws::piece_steps))]
fn capitalise_pieces(text: &mut [u8])
    requires { fold_text text.old ≡ text.old }
    ensures { text.new ≡ recommended_text text.old }
{
    let mut end = Piece::first(text).len;
    while end < text.len() {
        let start = end + 1;
        let piece = Piece::later(&text[start..]);
        end = start + piece.len;
        capitalise(&mut text[start..end], piece.capitals);
    }
}

/// Changes the letters among the first `capitals` bytes of a lowercase text to uppercase. If `capitals` is at most 1,
/// which is usual, this needs no loop.
fn capitalise(text: &mut [u8], capitals: usize)
    requires small { fold_text text.old ≡ text.old }
    requires within { capitals ≤ length text.old }
    ensures { text.new ≡ cased capitals text.old }
{
    match capitals {
        0 => {}
        1 => text[0].make_ascii_uppercase(),
        _ => text[..capitals].make_ascii_uppercase(),
    }
}

/// Returns whether a string is in its recommended case, so that [`make_recommended_case`] would change nothing.
///
/// ```
/// use langtag_text::is_in_recommended_case;
///
/// is_in_recommended_case(b"en-CA-x-ca"); // true
/// is_in_recommended_case(b"en-CA-x-CA"); // false
/// ```
pub fn is_in_recommended_case(text: &[u8]) -> bool
    ensures { IsTrue result ↔ (recommended_text text.now ≡ text.now) }
{
    RecommendedBytes::new(text)
        .cmp(text.iter().copied())
        .is_eq()
}
