//! The parts of a normal tag (RFC 5646 section 2.1), by number.
ghost use Rattle.std.specs.Prelude.{◌≡◌, IfSome, MatchOption, None, Some};
ghost use Rattle.langtag.specs.Definitions.{part_text};
ghost use Rattle.langtag_c.specs.NumberedParts.{IsPartNamed, IsPartText, extensions, language, name_of};
ghost use Rattle.langtag_c.specs.NumberedParts.{part_numbered, private_use, region, script, variants};

use langtag::{Extensions, Language, Part, PrivateUse, Region, Script, Variants};

/// Returns the part with a number and a string. The empty string means that the part is removed. Returns `None` if no
/// part has this number, or if the string is not a string of this part.
#[tactic(auto, using(crate::proofs::TagLengths::utf8_parts))]
pub(crate) fn part_of<'a>(number: u32, bytes: &'a [u8]) -> Option<Part<'a>>
    ensures none { result ≡ None → IsPartText number bytes.now → ⊥ }
    ensures has { IfSome result (λ _. IsPartText number bytes.now) }
    ensures name { IfSome result (λ part. part_numbered number ≡ Some (name_of part)) }
    ensures text { IfSome result (λ part. part_text part ≡ bytes.now) }
{
    numbered_part(number, str::from_utf8(bytes).ok()?)
}

/// Returns the part with a number and a string, as [`part_of`] does.
fn numbered_part(number: u32, text: &str) -> Option<Part<'_>>
    ensures { MatchOption (part_numbered number) (result ≡ None) (λ name. IsPartNamed name text.now result) }
{
    match number {
        0 => language_part(text),
        1 => script_part(text),
        2 => region_part(text),
        3 => variants_part(text),
        4 => extensions_part(text),
        5 => private_use_part(text),
        _ => None,
    }
}

fn language_part(text: &str) -> Option<Part<'_>>
    ensures { IsPartNamed language text.now result }
{
    Some(Part::Language(Language::new(text).ok()?))
}

fn script_part(text: &str) -> Option<Part<'_>>
    ensures { IsPartNamed script text.now result }
{
    if text.is_empty() {
        return Some(Part::Script(None));
    }
    Some(Part::Script(Some(Script::new(text).ok()?)))
}

fn region_part(text: &str) -> Option<Part<'_>>
    ensures { IsPartNamed region text.now result }
{
    if text.is_empty() {
        return Some(Part::Region(None));
    }
    Some(Part::Region(Some(Region::new(text).ok()?)))
}

fn variants_part(text: &str) -> Option<Part<'_>>
    ensures { IsPartNamed variants text.now result }
{
    Some(Part::Variants(Variants::new(text).ok()?))
}

fn extensions_part(text: &str) -> Option<Part<'_>>
    ensures { IsPartNamed extensions text.now result }
{
    Some(Part::Extensions(Extensions::new(text).ok()?))
}

fn private_use_part(text: &str) -> Option<Part<'_>>
    ensures { IsPartNamed private_use text.now result }
{
    if text.is_empty() {
        return Some(Part::PrivateUse(None));
    }
    Some(Part::PrivateUse(Some(PrivateUse::new(text).ok()?)))
}
