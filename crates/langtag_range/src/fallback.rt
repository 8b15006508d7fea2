//! The length of a fallback of a language range (RFC 4647 section 3.4).
ghost use Rattle.std.specs.Prelude.{◌≡◌, ◌<◌, ◌∷◌, [], length, take, IfSome, IsTrue};
ghost use Rattle.langtag_scan.specs.Prelude.{option_map_or};
ghost use Rattle.langtag_range.specs.Fallback as spec;
ghost use Rattle.langtag_range.specs.Definitions.{is_language_range};

use langtag_scan::segment_start;

/// Returns the length of a range without its last subtag, and then without any single-character subtags at its end.
/// Returns `None` if nothing is left.
pub fn shortened_len(range: &[u8]) -> Option<usize>
    ensures shorter { IfSome result (λ len. len < length range.now) }
    ensures same { spec.fallbacks range.now ≡ range.now ∷ option_map_or (λ len. spec.fallbacks (take len range.now)) result [] }
    ensures in_class { IfSome result (λ len. IsTrue (is_language_range range.now)
        → IsTrue (is_language_range (take len range.now))) }
{
    let mut left = range;
    while let Some(len) = len_without_last(left) {
        left = &left[..len];
        if !ends_in_single(left) {
            return Some(len);
        }
    }
    None
}

/// Returns the number of bytes before the last hyphen.
fn len_without_last(range: &[u8]) -> Option<usize>
    ensures shorter { IfSome result (λ len. len < length range.now) }
    ensures cut { spec.before_hyphens range.now
        ≡ option_map_or (λ len. take len range.now ∷ spec.before_hyphens (take len range.now)) result [] }
    ensures in_class { IfSome result (λ len. IsTrue (is_language_range range.now)
        → IsTrue (is_language_range (take len range.now))) }
{
    let start = segment_start(range, range.len());
    if start == 0 {
        return None;
    }
    Some(start - 1)
}

/// Returns whether the last subtag of a string is a single character.
pub fn ends_in_single(text: &[u8]) -> bool
    ensures { result ≡ spec.ends_in_single text.now }
{
    matches!(text, [_] | [.., b'-', _])
}
