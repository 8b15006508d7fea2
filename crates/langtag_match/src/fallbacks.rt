//! The fallbacks of a language range, which are made by removing subtags from its end (RFC 4647 section 3.4).
ghost use Rattle.std.specs.Prelude.{◌≡◌, ◌<◌, ◌^◌, ◌∷◌, [], length};
ghost use Rattle.langtag_scan.specs.Prelude.{YieldsFirstBy, item_count, option_map_or};
ghost use Rattle.langtag_range.specs.Definitions.{fallbacks};
ghost use Rattle.langtag_match.specs.Text.{language_range_text, fallbacks_left};

use crate::language_range::LanguageRange;
use langtag_range::shortened_len;

/// An iterator over a range and its fallbacks, the longest first: `zh-Hant-TW`, `zh-Hant` and `zh`
/// (RFC 4647 section 3.4).
///
/// A single letter or digit is removed together with the subtag after it, and so is `*`: `de-CH` follows `de-CH-x-a`,
/// and `de` follows `de-*-DE`.
///
/// ```
/// use langtag_match::LanguageRange;
///
/// let range = LanguageRange::new("de-CH-x-a")?;
/// let mut shorter = range.fallbacks();
/// shorter.next().map(|range| range.as_str()); // Some("de-CH-x-a")
/// shorter.next().map(|range| range.as_str()); // Some("de-CH")
/// ```
#[derive(Clone, Debug, Drop)]
pub struct Fallbacks<'a> {
    rest: Option<LanguageRange<'a>>,
}

impl<'a> Fallbacks<'a> {
    /// Returns an iterator that starts at the range itself.
    #[tactic(auto, using(langtag_range::proofs::Among::few_fallbacks))]
    pub(crate) fn new(range: LanguageRange<'a>) -> Self
        ensures list { fallbacks_left result ≡ fallbacks (language_range_text range.entry) }
        ensures few { length (fallbacks_left result) < 2 ^ 64 }
    {
        Fallbacks { rest: Some(range) }
    }
}

impl<'a> Iterator for Fallbacks<'a> {
    type Item = LanguageRange<'a>;

    ghost next_gives = { YieldsFirstBy language_range_text fallbacks_left };

    ghost remaining = { item_count fallbacks_left };

    fn next(&mut self) -> Option<LanguageRange<'a>> {
        let range = self.rest?;
        self.rest = shortened(range);
        Some(range)
    }
}

/// Returns a range without its last subtag, and then without any single-character subtags at its end.
fn shortened(range: LanguageRange<'_>) -> Option<LanguageRange<'_>>
    ensures { fallbacks (language_range_text range.entry) ≡ language_range_text range.entry
        ∷ option_map_or (λ shorter. fallbacks (language_range_text shorter)) result [] }
{
    let text = range.as_str();
    let len = shortened_len(text.as_bytes())?;
    Some(LanguageRange::from_checked(&text[..len]))
}
