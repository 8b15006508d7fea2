//! The canonical form of a tag, in the caller's buffer (RFC 5646 section 4.5).
ghost use Rattle.std.specs.Prelude.{◌≡◌, ◌↔◌, ◌<◌, length, true};
ghost use Rattle.langtag_scan.specs.Grammar.{IsTag};
ghost use Rattle.langtag_registry.specs.Canonical.{IsCanonicalForm, IsReplacedForm};
ghost use Rattle.langtag.specs.Definitions.{WritesWhole};

use crate::tag::tag_of;
use langtag_registry::{is_canonical, write_canonical};

/// Writes the canonical form of a tag to `buffer` (RFC 5646 section 4.5) in the recommended case (section 2.1.1), and returns
/// its length: iw becomes he, DE-at becomes de-AT, zh-yue becomes yue, art-lojban becomes jbo, en-b-ccc-a-aaa becomes
/// en-a-aaa-b-ccc. It uses the registry whose date `langtag_registry_date` returns.
///
/// ```c
/// char buffer[64];
/// size_t len = langtag_canonical("en-BU", 5, buffer, sizeof buffer);
/// if (len > 0 && len <= sizeof buffer) printf("%.*s\n", (int)len, buffer); // en-MM
/// ```
///
/// As with snprintf, the result may be greater than `buffer_len`. It is then the size that is needed, and nothing is
/// written. The form may be longer than the tag: heploc becomes alalc97. No NUL is written, and bytes after the form
/// are left unchanged.
///
/// Tags that differ only in case have the same form, byte for byte. Variants keep their order. Step 2 of
/// section 4.5 is repeated after step 3, so that canonicalizing a form again changes nothing: sgn-DD becomes gsg. The
/// tag need not be valid: subtags that are not registered stay, and so do two extended languages and the language
/// before them.
///
/// Returns 0 and writes nothing if the string is not a tag.
#[tactic(auto, using(crate::proofs::WrittenTexts::canonical_written))]
#[unsafe(no_mangle)]
pub extern "C" fn langtag_canonical(bytes: &[u8], buffer: &mut [u8]) -> usize
    ensures canonical { IsTag bytes.now → WritesWhole (IsCanonicalForm bytes.now) buffer.old buffer.new result }
    ensures untouched { length buffer.old < result → buffer.new ≡ buffer.old }
    ensures no_tag { result ≡ 0 ↔ (IsTag bytes.now → ⊥) }
    ensures nothing { result ≡ 0 → buffer.new ≡ buffer.old }
{
    match tag_of(bytes) {
        Some(tag) => write_canonical(tag, buffer),
        None => 0,
    }
}

/// Returns whether a string is a tag that equals its canonical form, ignoring case: true for HE and x-iw, false for iw,
/// for en-b-ccc-a-aaa, and for a string that is not a tag.
#[unsafe(no_mangle)]
pub extern "C" fn langtag_is_canonical(bytes: &[u8]) -> bool
    ensures { (result ≡ true) ↔ (IsTag bytes.now × IsReplacedForm bytes.now bytes.now) }
{
    match tag_of(bytes) {
        Some(tag) => is_canonical(tag),
        None => false,
    }
}
