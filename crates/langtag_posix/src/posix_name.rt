//! The parts of a POSIX locale name, and how they are written.
ghost use Rattle.std.specs.Prelude.{◌≡◌, ◌≤◌, [], if◌then◌else◌, length, option_map};
ghost use Rattle.langtag_scan.specs.Grammar.{fold_text, EachRecord};
ghost use Rattle.langtag.specs.Definitions.{capital_text, normal_lang_tag_text, Writes};
ghost use Rattle.langtag_posix.specs.Modifiers.{is_empty};

use crate::posix_parts::{modifier_of_tag, named_language, region_text, variant_of_tag};
use langtag::NormalLangTag;
use langtag_text::write_pieces;

/// The parts of a POSIX locale name, `language[_territory][_variant][@modifier]`. Each is empty if it is absent.
#[derive(Clone, Copy)]
pub(crate) struct PosixName<'a> {
    language: &'a [u8],
    territory: &'a [u8],
    variant: &'static [u8],
    modifier: &'static [u8],
    ghost short_language: { length language.now ≤ 3 },
    ghost short_territory: { length territory.now ≤ 3 },
    ghost short_variant: { length variant.now ≤ 5 },
    ghost short_modifier: { length modifier.now ≤ 14 },
}

impl<'a> PosixName<'a> {
    ghost use Rattle.langtag_posix.specs.PosixNames.{posix_name_parts};
    ghost use Rattle.langtag_posix.specs.ToPosix.{name_parts, name_text};

    /// Returns the parts of the name for a tag, or `None` if the tag has no name.
    #[tactic(auto, unfolding(crate::specs::ToPosix::name_parts))]
    pub(crate) fn of(tag: NormalLangTag<'a>) -> Option<PosixName<'a>>
        ensures { EachRecord (normal_lang_tag_text tag.entry) (λ r. option_map posix_name_parts result ≡ name_parts r) }
    {
        let language = named_language(tag.language())?;
        let variant = variant_of_tag(tag)?;
        let modifier = modifier_of_tag(tag)?;
        Some(PosixName {
            language,
            territory: region_text(tag.region()),
            variant,
            modifier,
        })
    }

    /// Writes the name to a buffer if it fits, and returns its length in bytes.
    pub(crate) fn write(&self, buffer: &mut [u8]) -> usize
        ensures written { Writes (λ text. text ≡ name_text (posix_name_parts self.now)) buffer.old buffer.new result }
        ensures few { result ≤ 28 }
    {
        let (mut lower, mut upper) = ([0; 3], [0; 3]);
        let language = lowercase(self.language, &mut lower);
        let territory = uppercase(self.territory, &mut upper);
        let pieces: [&[u8]; 7] = [
            language,
            mark_before(territory, b"_"),
            territory,
            mark_before(self.variant, b"_"),
            self.variant,
            mark_before(self.modifier, b"@"),
            self.modifier,
        ];
        write_pieces(&pieces, buffer)
    }
}

/// Returns the mark, or the empty string if nothing comes after it.
fn mark_before(text: &[u8], mark: &'static [u8]) -> &'static [u8]
    ensures { result.now ≡ if is_empty text.now then [] else mark.now }
{
    if text.is_empty() { b"" } else { mark }
}

/// Writes a string in lowercase into `room`, and returns it.
#[tactic(auto, unfolding(langtag_scan::specs::Case::fold_byte))]
fn lowercase<'r>(text: &[u8], room: &'r mut [u8; 3]) -> &'r [u8]
    requires { length text.now ≤ 3 }
    ensures { result.now ≡ fold_text text.now }
{
    let bytes = &mut room[..text.len()];
    bytes.copy_from_slice(text);
    bytes.make_ascii_lowercase();
    bytes
}

/// Writes a string in uppercase into `room`, and returns it.
fn uppercase<'r>(text: &[u8], room: &'r mut [u8; 3]) -> &'r [u8]
    requires { length text.now ≤ 3 }
    ensures { result.now ≡ capital_text text.now }
{
    let bytes = &mut room[..text.len()];
    bytes.copy_from_slice(text);
    bytes.make_ascii_uppercase();
    bytes
}
