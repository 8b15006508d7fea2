//! The case of ASCII letters, which tags ignore (RFC 5646 section 2.1.1). Strings are compared and hashed by their
//! folded bytes, in which each ASCII letter is lowercase. Nothing else is folded, so `[` and `{` differ.
ghost use Rattle.std.specs.Prelude.{◌≡◌, ◌↔◌, ◌≤◌, ℕ, List, ◌==◌, IsTrue, fold, length};
ghost use Rattle.langtag_scan.specs.Grammar.{fold_byte, Alike, are_alike, case_cmp, EndsFirst};
ghost use Rattle.langtag_scan.specs.Grammar.{case_writes, folded_number, are_alphanumeric};

use std::cmp::Ordering;
use std::hash::Hasher;

/// Returns a byte in lowercase if it is an ASCII letter, and any other byte unchanged (RFC 5646 section 2.1.1).
///
/// ```
/// use langtag_scan::into_smallcase;
///
/// into_smallcase(b'L'); // b'l'
/// into_smallcase(b'['); // b'['
/// ```
#[tactic(auto, unfolding(crate::specs::Case::fold_byte))]
pub fn into_smallcase(c: u8) -> u8
    ensures { result ≡ fold_byte c }
{
    c.to_ascii_lowercase()
}

/// Returns whether two strings are equal, ignoring the case of ASCII letters (RFC 5646 section 2.1.1).
///
/// ```
/// use langtag_scan::case_insensitive_eq;
///
/// case_insensitive_eq(b"zh-Latn", b"ZH-LATN"); // true
/// ```
#[tactic(auto, unfolding(crate::specs::Case::fold_byte))]
pub fn case_insensitive_eq(a: &[u8], b: &[u8]) -> bool
    ensures test { result ≡ are_alike a.now b.now }
    ensures alike { IsTrue result ↔ Alike a.now b.now }
{
    a.eq_ignore_ascii_case(b)
}

/// Compares two strings by their lowercase bytes (RFC 5646 section 2.1.1). If one string is a prefix of the other, the
/// shorter string is greater.
///
/// ```
/// use langtag_scan::case_insensitive_cmp;
/// use std::cmp::Ordering;
///
/// case_insensitive_cmp(b"zh-Latn", b"ZH-LATN"); // Ordering::Equal
/// case_insensitive_cmp(b"zh", b"zh-Latn"); // Ordering::Greater
/// ```
pub fn case_insensitive_cmp(a: &[u8], b: &[u8]) -> Ordering
    ensures order { result ≡ case_cmp a.now b.now }
    // law: a text is greater than every longer text that begins with it
    ensures ends_first { EndsFirst a.now b.now → result ≡ Ordering.Greater }
{
    for (x, y) in a.iter().zip(b) {
        let order = into_smallcase(*x).cmp(&into_smallcase(*y));
        if order.is_ne() {
            return order;
        }
    }
    b.len().cmp(&a.len())
}

/// Feeds a hasher the lowercase bytes of a string (RFC 5646 section 2.1.1), each in a separate write. It feeds nothing
/// else: neither the length nor an end marker.
///
/// For `b"FR"` it writes `b'f'` and then `b'r'`.
///
/// ```
/// use langtag_scan::case_insensitive_hash;
/// use std::hash::{DefaultHasher, Hasher};
///
/// let mut upper = DefaultHasher::new();
/// case_insensitive_hash(b"ZH-TW", &mut upper);
/// let mut lower = DefaultHasher::new();
/// case_insensitive_hash(b"zh-tw", &mut lower);
/// upper.finish() == lower.finish(); // true
/// ```
pub fn case_insensitive_hash<H: Hasher>(bytes: &[u8], hasher: &mut H)
    ensures { hasher.new ≡ fold H.write hasher.old (case_writes bytes.now) }
{
    for byte in bytes {
        hasher.write_u8(into_smallcase(*byte));
    }
}

/// Returns the number whose digits in base 256 are the lowercase bytes (RFC 5646 section 2.1.1) of a string of at most
/// eight bytes. `folded_number(b"FR")` is 26,226, which is 256 times `b'f'` plus `b'r'`.
///
/// Two strings of letters and digits, such as subtags, have the same number if and only if the strings are equal,
/// ignoring case.
pub fn folded_number(bytes: &[u8]) -> u64
    requires { length bytes.now ≤ 8 }
    ensures number { result ≡ folded_number bytes.now }

    ensures tells { (a b : List ℕ) → IsTrue (are_alphanumeric a) → IsTrue (are_alphanumeric b)
        → (folded_number b == folded_number a) ≡ are_alike a b }
{
    let mut number = 0;
    for byte in bytes {
        number = number * 256 + u64::from(into_smallcase(*byte));
    }
    number
}
