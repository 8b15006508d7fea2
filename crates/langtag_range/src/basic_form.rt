//! The basic range for an extended range (RFC 4647 section 3.2).
ghost use Rattle.std.specs.Prelude.{◌≡◌};
ghost use Rattle.langtag_scan.specs.Grammar.{are_alike};
ghost use Rattle.langtag_range.specs.BasicForm as spec;

/// Returns whether a tag equals a range, ignoring case and each `-*`.
#[tactic(auto, using(crate::proofs::Among::bytes_alike))]
pub fn is_range(tag: &[u8], range: &[u8]) -> bool
    ensures { result ≡ are_alike tag.now (spec.basic_form range.now) }
{
    let mut tag = tag;
    let mut range = range;
    while let [first, others @ ..] = range {
        if begins_with_wildcard(range) {
            range = &range[2..];
            continue;
        }
        let [byte, rest @ ..] = tag else {
            return false;
        };
        if !byte.eq_ignore_ascii_case(first) {
            return false;
        }
        tag = rest;
        range = others;
    }
    tag.is_empty()
}

/// Returns whether a string begins with `-*`.
fn begins_with_wildcard(text: &[u8]) -> bool
    ensures { result ≡ spec.begins_with_wildcard text.now }
{
    matches!(text, [b'-', b'*', ..])
}
