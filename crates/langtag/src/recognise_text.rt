//! The only file in which this crate calls a recogniser.
ghost use Rattle.std.specs.Prelude.{MatchOption};
ghost use Rattle.langtag_scan.specs.Grammar.{HasEnds, IsFoundOf, IsNormal, IsTag};
ghost use Rattle.langtag.specs.Recognised.{finding_of};

use crate::grandfathered::GrandfatheredLangTag;
use crate::recognised::Recognised;
use langtag_scan::{Ends, read_bytes};

/// Returns what the recogniser finds in bytes, or `None` if they are not a tag.
///
/// Every constructor that parses a tag calls this function. It is inlined, since the recogniser is only one short loop.
#[inline(always)]
#[tactic(auto, using(crate::proofs::KeptFound::irregular_found))]
pub(crate) fn recognise_bytes(bytes: &[u8]) -> Option<Recognised>
    ensures { MatchOption result (IsTag bytes.now → ⊥) (λ found. IsFoundOf bytes.now (finding_of found)) }
{
    let Some(found) = read_bytes(bytes) else {
        return None;
    };
    if let Some(ends) = found.ends() {
        return Some(Recognised::Normal(ends));
    }
    match found.irregular() {
        Some(index) => Some(Recognised::Irregular(GrandfatheredLangTag::at(index))),
        None => Some(Recognised::PrivateUse),
    }
}

/// Returns what the recogniser finds in a string, or `None` if it is not a tag.
pub(crate) fn recognise_text(text: &str) -> Option<Recognised>
    ensures { MatchOption result (IsTag text.now → ⊥) (λ found. IsFoundOf text.now (finding_of found)) }
{
    recognise_bytes(text.as_bytes())
}

/// Returns where the parts of a normal tag end, or `None` if the string is not a normal tag.
#[tactic(auto, using(langtag_scan::proofs::FoundLaws::found_ends, langtag_scan::proofs::TagLaws::tag_normal))]
pub(crate) fn normal_ends(text: &str) -> Option<Ends>
    ensures { MatchOption result (IsNormal text.now → ⊥) (λ ends. HasEnds text.now ends) }
{
    recognise_text(text)?.ends()
}
