//! The parts of a normal tag (RFC 5646 section 2.1), and how a new part is put into the string of a tag.
ghost use Rattle.std.specs.Prelude.{◌≡◌, ◌++◌, ◌≤◌, ◌+◌, length};
ghost use Rattle.langtag_scan.specs.Grammar.{replace_range, IsNormal};
ghost use Rattle.langtag.specs.Edit.{SetsPart};
ghost use Rattle.langtag.specs.PartPlaces.{part_start, part_end, put_text};
ghost use Rattle.langtag.specs.Text.{normal_lang_tag_text, part_text};
ghost use Rattle.langtag_text.specs.Writes.{Writes};

use crate::normal_lang_tag::NormalLangTag;
use langtag_extension::Extensions;
use langtag_language::Language;
use langtag_place::{Region, Script, Variants};
use langtag_private::PrivateUse;
use langtag_scan::Ends;
use langtag_text::{Replacement, write_pieces};

/// A part of a normal tag (RFC 5646 section 2.1), as an argument of [`put_part`].
///
/// `None`, [`Variants::EMPTY`] and [`Extensions::EMPTY`] mean that the part is absent, and remove the old part. A
/// language is never absent.
///
/// ```
/// use langtag::{Part, Script};
///
/// Part::Script(Some(Script::new("Latn")?)).as_str(); // "Latn"
/// Part::Script(None).as_str(); // ""
/// ```
#[derive(Clone, Copy, Debug)]
pub enum Part<'a> {
    /// The language, with its extended subtags (section 2.2.1): `zh-yue`.
    Language(Language<'a>),
    /// The script (section 2.2.3): `Latn`.
    Script(Option<Script<'a>>),
    /// The region (section 2.2.4): `419`.
    Region(Option<Region<'a>>),
    /// All variants (section 2.2.5): `rozaj-1994`.
    Variants(Variants<'a>),
    /// All extensions (section 2.2.6): `u-co-phonebk`.
    Extensions(Extensions<'a>),
    /// The private use part (section 2.2.7): `x-mine`.
    PrivateUse(Option<PrivateUse<'a>>),
}

/// Returns the change of a normal tag's string that sets this part (RFC 5646 sections 2.2.1 to 2.2.7). It does not
/// allocate. The caller joins the bytes before `start`, the hyphen, the part, and the bytes from `end` on.
///
/// To put the region `AT` into `de-DE-1996`, replace the bytes from 2 to 5 by a hyphen and `AT`.
///
/// ```
/// use langtag::{NormalLangTag, Part, Region, put_part};
///
/// let region = Part::Region(Some(Region::new("AT")?));
/// let new = put_part(NormalLangTag::new("de-DE-1996")?, region);
/// (new.start, new.end, new.hyphen, new.part); // (2, 5, "-", "AT")
/// ```
pub fn put_part<'a>(tag: NormalLangTag<'_>, part: Part<'a>) -> Replacement<'a>
    ensures order { result.start ≤ result.end }
    ensures within { result.end ≤ length (normal_lang_tag_text tag.entry) }
    ensures one_hyphen { length result.hyphen.now ≤ 1 }
    ensures part { result.part.now ≡ part_text part.entry }
    ensures set { SetsPart part.entry (normal_lang_tag_text tag.entry)
        (replace_range (normal_lang_tag_text tag.entry) result.start result.end (result.hyphen.now ++ result.part.now)) }
    ensures normal { IsNormal
        (replace_range (normal_lang_tag_text tag.entry) result.start result.end (result.hyphen.now ++ result.part.now)) }

    ensures cloned { (part copy : Part) → ⟦<Part<'a> as Clone>⟧.is_clone part copy → copy ≡ part }
    ensures clone_succeeds { (part : Part) → ⟦<Part<'a> as Clone>⟧.is_infallible part }
{
    part.replacement(&tag.ends())
}

/// Writes the string of a normal tag, changed as [`put_part`] says, to a buffer, and returns the length of the string
/// in bytes. If the buffer is too short, it stays unchanged, and the length says how much room is needed. The function
/// does not allocate.
pub fn write_part<'a>(tag: NormalLangTag<'a>, part: Part<'a>, buffer: &mut [u8]) -> usize
    ensures set { Writes (λ new. SetsPart part.entry (normal_lang_tag_text tag.entry) new × IsNormal new) buffer.old buffer.new
        result }
    ensures bounded { result ≤ length (normal_lang_tag_text tag.entry) + length (part_text part.entry) + 1 }
{
    let text = tag.as_str().as_bytes();
    let new = put_part(tag, part);
    let hyphen: &'a [u8] = new.hyphen.as_bytes();
    let part = new.part.as_bytes();
    let pieces = [&text[..new.start], hyphen, part, &text[new.end..]];
    write_pieces(&pieces, buffer)
}

impl<'a> Part<'a> {
    /// Returns the string of the part: `Part::Script(Script::new("Latn").ok()).as_str()` is `"Latn"`. An absent part
    /// has the empty string.
    pub fn as_str(&self) -> &'a str
        ensures { result.now ≡ part_text self.now }
    {
        match self {
            Part::Language(language) => language.as_str(),
            Part::Script(Some(script)) => script.as_str(),
            Part::Region(Some(region)) => region.as_str(),
            Part::Variants(variants) => variants.as_str(),
            Part::Extensions(extensions) => extensions.as_str(),
            Part::PrivateUse(Some(private_use)) => private_use.as_str(),
            Part::Script(None) | Part::Region(None) | Part::PrivateUse(None) => "",
        }
    }

    /// Returns the change of a string whose parts end at these offsets.
    pub(crate) fn replacement(&self, ends: &Ends) -> Replacement<'a>
        ensures start { result.start ≡ part_start self.now ends.now }
        ensures end { result.end ≡ part_end self.now ends.now }
        ensures one { length result.hyphen.now ≤ 1 }
        ensures put { result.hyphen.now ++ result.part.now ≡ put_text self.now }
        ensures part { result.part.now ≡ part_text self.now }
    {
        let part = self.as_str();
        let (start, end) = self.place(ends);
        Replacement {
            start,
            end,
            hyphen: self.hyphen_before(part),
            part,
        }
    }

    /// Returns where the previous part ends, and where this part ends.
    fn place(&self, ends: &Ends) -> (usize, usize)
        ensures start { result.0 ≡ part_start self.now ends.now }
        ensures end { result.1 ≡ part_end self.now ends.now }
    {
        match self {
            Part::Language(_) => (0, ends.language),
            Part::Script(_) => (ends.language, ends.script),
            Part::Region(_) => (ends.script, ends.region),
            Part::Variants(_) => (ends.region, ends.variants),
            Part::Extensions(_) => (ends.variants, ends.extensions),
            Part::PrivateUse(_) => (ends.extensions, ends.whole),
        }
    }

    /// Returns the hyphen before the string of this part, or nothing for a language or an empty string.
    fn hyphen_before(&self, text: &str) -> &'static str
        requires { text.now ≡ part_text self.now }
        ensures one { length result.now ≤ 1 }
        ensures put { result.now ++ text.now ≡ put_text self.now }
    {
        if text.is_empty() || matches!(self, Part::Language(_)) {
            ""
        } else {
            "-"
        }
    }
}
