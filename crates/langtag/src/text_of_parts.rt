//! The string of a language, a script and a region.
ghost use Rattle.std.specs.Prelude.{◌≡◌, ◌++◌, IfOk, OnOk, string_bytes};
ghost use Rattle.langtag.specs.Lengths.{after_hyphen};

use std::alloc::{AllocError, Global};

/// Returns a new string that consists of a language, a script and a region, joined by hyphens. It first allocates
/// `room` bytes. An empty script or region is left out.
pub(crate) fn join_parts(
    alloc: Global,
    room: usize,
    language: &str,
    script: &str,
    region: &str,
) -> Result<String, AllocError>
    ensures { IfOk result (λ whole. string_bytes whole ≡ (language.now ++ after_hyphen script.now) ++ after_hyphen region.now) }
{
    let mut whole = String::with_capacity(alloc, room)?;
    whole.push_str(language)?;
    push_part(&mut whole, script)?;
    push_part(&mut whole, region)?;
    Ok(whole)
}

/// Appends a hyphen and a part to a string, or nothing if the part is empty.
fn push_part(text: &mut String, part: &str) -> Result<(), AllocError>
    ensures { OnOk result (string_bytes text.new ≡ string_bytes text.old ++ after_hyphen part.now) }
{
    if part.is_empty() {
        return Ok(());
    }
    text.push_str("-")?;
    text.push_str(part)
}
