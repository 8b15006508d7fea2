//! The recommended case (RFC 5646 section 2.1.1).
ghost use Rattle.std.specs.Prelude.{◌≡◌};
ghost use Rattle.langtag_scan.specs.Grammar.{IsSpelledAlike, Alike, EachRecord};
ghost use Rattle.langtag.specs.Definitions.{recommended_text, AreOfOneKind};

use langtag_text::make_recommended_case;

/// Changes a string to the case that RFC 5646 section 2.1.1 recommends, in place: zh-hant-tw becomes zh-Hant-TW.
///
/// Letters become lowercase, except in subtags of two bytes, which become uppercase (CH), and of four bytes, which get
/// one uppercase letter (Latn). The exceptions do not apply to the first subtag, or to any subtag that comes after a
/// subtag of one byte. The string may be any bytes. A tag keeps its kind, and its parts keep their offsets.
#[tactic(auto, using(langtag_text::proofs::RecommendedLaws::alike_of_recommended))]
#[unsafe(no_mangle)]
pub extern "C" fn langtag_recommend(bytes: &mut [u8])
    ensures case { bytes.new ≡ recommended_text bytes.old }

    ensures alike { Alike bytes.old bytes.new }
    // law: equal texts, ignoring case, are of the same kind
    ensures same_kind { AreOfOneKind bytes.old bytes.new }
    // law: equal texts, ignoring case, have equal parts at the same offsets
    ensures alike_parts { EachRecord bytes.old (λ r. IsSpelledAlike r bytes.new) }
{
    make_recommended_case(bytes);
}
