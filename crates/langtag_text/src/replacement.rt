//! A range of a string that is replaced by a part, and the hyphen before that part.
ghost use Rattle.std.specs.Prelude.{◌≡◌, ◌++◌, ◌≤◌, [], length, IfOk, OnOk, OnErr, IsOk, IsAscii, string_bytes, string_capacity};
ghost use Rattle.langtag_scan.specs.Grammar.{replace_range};

use std::alloc::{AllocError, Global};

/// A change of a tag's string, which `put_part` of langtag returns: the bytes to replace, and the string that replaces
/// them. Offsets are in bytes.
///
/// ```
/// use langtag::{NormalLangTag, Part, put_part};
///
/// let new = put_part(NormalLangTag::new("de-DE-1996")?, Part::Region(None));
/// (new.start, new.end, new.hyphen, new.part); // (2, 5, "", "")
/// ```
#[derive(Debug, Drop)]
pub struct Replacement<'a> {
    /// The offset of the first byte to replace: 2 in `de-x-a`, for a private use part.
    pub start: usize,
    /// The offset after the last byte to replace: 6 in `de-x-a`. It equals `start` if the tag has no such part.
    pub end: usize,
    /// The hyphen before the part. It is empty for a language, and if the part is removed.
    pub hyphen: &'static str,
    /// The string of the part, which is empty if the part is removed.
    pub part: &'a str,
}

/// Replaces the bytes of a string from `new.start` up to `new.end`.
///
/// If there are new bytes, the new string is complete before the old string is dropped. If there are none, the old
/// bytes are removed in place, without allocating.
pub fn replace(text: &mut String, alloc: Global, new: Replacement<'_>) -> Result<(), AllocError>
    requires order { new.start ≤ new.end }
    requires within { new.end ≤ length (string_bytes text.old) }
    requires ascii { IsAscii (string_bytes text.old) }
    requires one { length new.hyphen.now ≤ 1 }
    requires empty { new.part.now ≡ [] → new.hyphen.now ≡ [] }
    ensures replaced { OnOk result (string_bytes text.new
        ≡ replace_range (string_bytes text.old) new.entry.start new.entry.end (new.entry.hyphen.now ++ new.entry.part.now)) }
    ensures unchanged { OnErr result (text.new ≡ text.old) }
    ensures taken_out { new.entry.hyphen.now ++ new.entry.part.now ≡ [] → IsOk result }
    ensures room_kept { new.entry.hyphen.now ++ new.entry.part.now ≡ [] → string_capacity text.old ≤ string_capacity text.new }
{
    if new.part.is_empty() {
        return text.replace_range(new.start..new.end, "");
    }
    *text = join(alloc, text.as_str(), new)?;
    Ok(())
}

/// Returns a new string in which these bytes are replaced. It allocates once, exactly the length of the new string.
fn join(alloc: Global, text: &str, new: Replacement<'_>) -> Result<String, AllocError>
    requires order { new.start ≤ new.end }
    requires within { new.end ≤ length text.now }
    requires ascii { IsAscii text.now }
    requires one { length new.hyphen.now ≤ 1 }
    ensures { IfOk result (λ whole. string_bytes whole
        ≡ replace_range text.now new.entry.start new.entry.end (new.entry.hyphen.now ++ new.entry.part.now)) }
{
    let len = new.start + new.hyphen.len() + new.part.len() + (text.len() - new.end);
    let mut whole = String::with_capacity(alloc, len)?;
    whole.push_str(&text[..new.start])?;
    whole.push_str(new.hyphen)?;
    whole.push_str(new.part)?;
    whole.push_str(&text[new.end..])?;
    Ok(whole)
}
