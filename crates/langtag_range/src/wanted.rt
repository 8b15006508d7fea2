//! The language ranges of a header, read leniently.
ghost use Rattle.std.specs.Prelude.{◌≡◌, ◌<◌, ◌^◌, ◌∷◌, [], IfSome, IsTrue, length, map};
ghost use Rattle.langtag_scan.specs.Prelude.{YieldsFirstBy, item_count, option_map_or};
ghost use Rattle.langtag_range.specs.Range.{is_basic_range};
ghost use Rattle.langtag_range.specs.Wanted as spec;

use crate::plain_element::plain_element;
use crate::split::split_at_byte;
use crate::wanted_element::wanted_at;

/// A language range of a header, and its weight. Its bytes may have `_` instead of a hyphen.
///
/// ```
/// use langtag_match::wanted_ranges;
///
/// let mut wanted = wanted_ranges(b"de_CH;q=0.5");
/// wanted.next().map(|range| (range.bytes, range.weight)); // Some((&b"de_CH"[..], 500))
/// ```
#[derive(Clone, Copy, Debug, Drop)]
pub struct WantedRange<'a> {
    /// The string, in which `_` means `-`: `de_CH` is the range `de-CH`.
    pub bytes: &'a [u8],
    /// The weight in thousandths, from 0 to 1000. A range of weight 0 is not acceptable.
    pub weight: u32,
}

/// The iterator that [`wanted_ranges`] returns. It does not allocate.
///
/// ```
/// use langtag_match::wanted_ranges;
///
/// wanted_ranges(b"de_CH, german language, en;q=0").count(); // 2
/// ```
#[derive(Debug, Drop)]
pub struct WantedRanges<'a> {
    rest: &'a [u8],
}

/// Returns an iterator over the language ranges of an Accept-Language header, in the header's order. It accepts any
/// header, and includes ranges of weight 0. For `de_CH, zh_CN.UTF-8;q=1.5, german language;q=0.3, en;level=1;Q=.5`
/// the ranges are `de-CH` and `zh-CN`, of weight 1000, and `en`, of weight 500.
///
/// In a range, `_` is read as `-`, and everything from the first `.`, `@` or `_#` on is dropped, as in `zh_TW_#Hant`.
/// If the rest is not a range, the element is skipped. Parameters other than `q` are ignored. A weight that is not a
/// number, or is above 1, counts as 1. A weight may have a decimal comma: `fr;q=0,8` has the weight 800, because
/// no range begins with a digit. In contrast, `AcceptLanguage` follows RFC 9110 strictly.
///
/// ```
/// use langtag_match::wanted_ranges;
///
/// let mut ranges = wanted_ranges(b"de_CH, en;q=.5");
/// ranges.next().map(|it| (it.bytes, it.weight)); // Some((&b"de_CH"[..], 1000))
/// ranges.next().map(|it| (it.bytes, it.weight)); // Some((&b"en"[..], 500))
/// ```
#[tactic(auto, using(crate::proofs::AlikeTexts::alike_headers, crate::proofs::WantedTexts::few_written))]
pub fn wanted_ranges<'a>(header: &'a [u8]) -> WantedRanges<'a>
    ensures list { spec.written_left result ≡ spec.written_elements header.now }
    // law: alike headers have alike elements
    ensures case { spec.ElementsIgnoreCase header.now (map spec.hyphened_element (spec.written_left result)) }
    ensures few { length (spec.written_left result) < 2 ^ 64 }
    ensures cloned { (wanted copy : WantedRange) → ⟦<WantedRange<'a> as Clone>⟧.is_clone wanted copy → copy ≡ wanted }
    ensures clone_succeeds { (wanted : WantedRange) → ⟦<WantedRange<'a> as Clone>⟧.is_infallible wanted }
{
    WantedRanges { rest: header }
}

impl<'a> Iterator for WantedRanges<'a> {
    type Item = WantedRange<'a>;

    ghost next_gives = { YieldsFirstBy spec.written_element spec.written_left };

    ghost remaining = { item_count spec.written_left };

    #[tactic(auto, using(crate::proofs::WantedTexts::nothing_written))]
    fn next(&mut self) -> Option<WantedRange<'a>> {
        let Some((found, rest)) = split_wanted(self.rest) else {
            self.rest = b"";
            return None;
        };
        self.rest = rest;
        Some(found)
    }
}

/// Returns the first range of a header, as [`wanted_ranges`] reads it, and a string that has the other ranges, such as
/// what stands after its comma. Returns `None` if there is no range. Use it instead of the iterator if the state of
/// your loop has to be a `Copy` value.
///
/// ```
/// use langtag_match::split_wanted;
///
/// let found = split_wanted(b"de,en");
/// found.map(|(first, rest)| (first.bytes, rest)); // Some((&b"de"[..], &b"en"[..]))
/// ```
#[tactic(auto, using(crate::proofs::WantedTexts::elements_at, crate::proofs::WantedTexts::nothing_written, crate::proofs::WantedTexts::shorter, crate::proofs::WantedTexts::few_written))]
pub fn split_wanted(header: &[u8]) -> Option<(WantedRange<'_>, &[u8])>
    ensures first { spec.written_elements header.now
        ≡ option_map_or (λ found. spec.written_element found.0 ∷ spec.written_elements found.1.now) result [] }
    ensures basic { IfSome result (λ found. IsTrue (is_basic_range (spec.hyphened found.0.bytes.now))) }
    ensures few { length (spec.written_elements header.now) < 2 ^ 64 }
{
    let mut left = header;
    while !left.is_empty() {
        if let Some(found) = plain_element(left) {
            return Some(found);
        }
        let (item, rest) = split_at_byte(left, b',');
        if let Some(found) = wanted_at(item, rest) {
            return Some((found, rest));
        }
        left = rest;
    }
    None
}
