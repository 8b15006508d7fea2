//! How a part of a tag's string is set, and where the parts of the new string end.
#![tactic(auto, using(langtag_scan::proofs::SpelledTexts::offsets_kept))]

ghost use Rattle.std.specs.Prelude.{◌≡◌, ◌≤◌, [], IfOk, OnOk, OnErr, IsOk, string_bytes, string_capacity};
ghost use Rattle.langtag_scan.specs.Grammar.{HasEnds};
ghost use Rattle.langtag.specs.Edit.{SetsPart};
ghost use Rattle.langtag.specs.Text.{part_text};

use crate::lengths::Lengths;
use crate::part::Part;
use langtag_scan::Ends;
use langtag_text::replace;
use std::alloc::{AllocError, Global};

/// Sets or removes a part in the string of a normal tag whose parts end at these offsets. Returns where the parts of
/// the new string end, without parsing it.
pub(crate) fn set_part(
    text: &mut String,
    ends: Ends,
    alloc: Global,
    part: Part<'_>,
) -> Result<Ends, AllocError>
    requires { ∥ HasEnds (string_bytes text.old) ends ∥₁ }
    ensures set { OnOk result (SetsPart part.entry (string_bytes text.old) (string_bytes text.new)) }
    ensures kept { IfOk result (λ moved. ∥ HasEnds (string_bytes text.new) moved ∥₁) }
    ensures unchanged { OnErr result (text.new ≡ text.old) }
    ensures taken_out { part_text part.entry ≡ [] → IsOk result }
    ensures room_kept { part_text part.entry ≡ [] → string_capacity text.old ≤ string_capacity text.new }
{
    let new = part.replacement(&ends);
    let len = new.hyphen.len() + new.part.len();
    replace(text, alloc, new)?;
    Ok(Lengths::of(ends).with(&part, len).ends())
}
