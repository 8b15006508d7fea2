//! A tag of a chain of parents.
ghost use Rattle.std.specs.Prelude.{◌≡◌, ◌+◌, ◌<◌, ◌≤◌, ◌^◌, ◌∷◌, ◌++◌, flat_map, length};
ghost use Rattle.langtag_scan.specs.Grammar.{one_flat};
ghost use Rattle.langtag.specs.Definitions.{Writes};
ghost use Rattle.langtag_text.specs.Fields.{subtag_of};

use crate::base::Base;
use langtag_text::write_pieces;

/// A tag of a chain of parents, in pieces: its subtags are those of the tag at the start of the chain, or CLDR's. It is
/// written to a buffer, since the pieces need not lie next to each other: `pt-AO` in `pt-Latn-AO`.
///
/// ```
/// use langtag::LangTag;
/// use langtag_parent::parent;
///
/// let mut buffer = [0; 16];
/// parent(LangTag::new("pt-AO")?).map(|tag| tag.write(&mut buffer)); // Some(5)
/// buffer.get(..5); // Some(&b"pt-PT"[..])
/// ```
#[derive(Clone, Copy, Debug)]
pub struct ParentTag<'a> {
    language: &'a [u8],
    script: &'a [u8],
    region: &'a [u8],
    // The variants, extensions and private use, with the hyphen before them.
    rest: &'a [u8],
    ghost some: { 1 ≤ length language.now },
    ghost fits: { length language.now + length rest.now < 2 ^ 63 + 16 },
    ghost short_script: { length script.now ≤ 4 },
    ghost short_region: { length region.now ≤ 4 },
}

impl<'a> ParentTag<'a> {
    ghost use Rattle.langtag_parent.specs.Chain.{parent_text, text_of};
    ghost use Rattle.langtag_parent.specs.Base.{base_fields};

    /// Returns the tag of a base and what stands after it.
    #[tactic(auto, using(langtag_cldr::proofs::FieldClasses::script_length, langtag_cldr::proofs::FieldClasses::region_length))]
    pub(crate) fn new(base: Base<'a>, rest: &'a [u8]) -> ParentTag<'a>
        ensures { parent_text result ≡ text_of (base_fields base.entry) rest.now }
    {
        ParentTag {
            language: base.language,
            script: base.script,
            region: base.region,
            rest,
        }
    }

    /// Returns the tag of a whole string.
    pub(crate) fn whole(text: &'a [u8]) -> ParentTag<'a>
        requires { 1 ≤ length text.now }
        ensures { parent_text result ≡ text.now }
    {
        ParentTag {
            language: text,
            script: b"",
            region: b"",
            rest: b"",
        }
    }

    /// Writes the tag to a buffer, and returns its length in bytes. If the buffer is too short, it stays unchanged, and
    /// the length says how long a buffer must be. It does not allocate.
    ///
    /// ```
    /// use langtag::LangTag;
    /// use langtag_parent::Parents;
    ///
    /// let mut buffer = [0; 16];
    /// let mut chain = Parents::new(LangTag::new("pt-Latn-AO")?);
    /// chain.nth(1).map(|tag| tag.write(&mut buffer)); // Some(5)
    /// buffer.get(..5); // Some(&b"pt-AO"[..])
    /// ```
    pub fn write(self, buffer: &mut [u8]) -> usize
        ensures written { Writes (λ new. new ≡ parent_text self.entry) buffer.old buffer.new result }
        ensures some { 1 ≤ result }
        ensures cloned { (tag copy : ParentTag) → ⟦<ParentTag<'a> as Clone>⟧.is_clone tag copy → copy ≡ tag }
        ensures clone_succeeds { (tag : ParentTag) → ⟦<ParentTag<'a> as Clone>⟧.is_infallible tag }
    {
        let pieces = [
            self.language,
            hyphen_before(self.script),
            self.script,
            hyphen_before(self.region),
            self.region,
            self.rest,
        ];
        write_pieces(&pieces, buffer)
    }
}

/// Returns the hyphen before a subtag, or nothing if the subtag is empty.
fn hyphen_before(subtag: &[u8]) -> &[u8]
    ensures hyphen { result.now ++ subtag.now ≡ flat_map (λ s. 45 ∷ s) (one_flat (subtag_of subtag.now)) }
    ensures few { length result.now ≤ 1 }
{
    if subtag.is_empty() { b"" } else { b"-" }
}
