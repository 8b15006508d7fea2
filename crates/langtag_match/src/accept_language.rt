//! The language ranges in an Accept-Language header (RFC 9110 section 12.5.4).
ghost use Rattle.std.specs.Prelude.{◌≡◌, List, IsTrue, IfOk, IfErr, MatchOption, map};
ghost use Rattle.langtag_match.specs.AcceptLanguage as spec;
ghost use Rattle.langtag_range.specs.Definitions.{items};
ghost use Rattle.langtag_match.specs.LookUp.{choice};
ghost use Rattle.langtag_match.specs.declared.weighted_range.WeightedRange.{WeightedRange};

use crate::accept_language_error::AcceptLanguageError;
use crate::element::{BadElement, element_at};
use crate::lookup::tag_for;
use crate::weighted_range::WeightedRange;
use langtag::LangTag;
use langtag_range::{is_empty_element, split_at_byte, trimmed_place};
use std::alloc::{AllocError, Global};
use std::cmp::Reverse;

/// The ranges that a header accepts, the greatest weight first. For `fr;q=0.5, de, *;q=0` these are `de` with the
/// weight 1000 and `fr` with 500.
///
/// ```
/// use langtag_match::AcceptLanguage;
///
/// let accepted = AcceptLanguage::new(alloc, "fr;q=0.5, de, *;q=0")?;
/// accepted.ranges().len(); // 2
/// accepted.ranges()[0].range.as_str(); // "de"
/// ```
#[derive(Debug, Drop)]
pub struct AcceptLanguage<'a> {
    ranges: Vec<WeightedRange<'a>>,
}

impl<'a> AcceptLanguage<'a> {
    ghost use Rattle.langtag_match.specs.Compared.{WeightedRangesCompareByBoth};
    ghost use Rattle.langtag_match.specs.Text.{accept_language_ranges};

    /// Parses a header by RFC 9110, and leaves out the ranges of weight 0, which are not acceptable. Ranges of equal
    /// weight keep their order. Empty elements are skipped: `AcceptLanguage::new(alloc, ",de,")` is `Ok`.
    ///
    /// # Errors
    ///
    /// Returns `BadElement` if an element is neither empty nor a basic language range with an optional weight. The
    /// error contains the whole header, and the index and offset of the first such element. Returns `Memory` if
    /// allocation fails.
    #[tactic(auto, using(crate::proofs::Readings::one_reading))]
    pub fn new(
        alloc: Global,
        header: &'a str,
    ) -> Result<AcceptLanguage<'a>, AcceptLanguageError<'a>>
        ensures accepted { IfOk result (λ accepted. spec.AreAccepted header.now (accept_language_ranges accepted)) }
        ensures refused { IfErr result (spec.Refuses header.entry) }

        // law: a header has one list of ranges and weights
        ensures one_reading { spec.HasOneReading header.now }
    {
        let (read, bad) = elements(alloc, header)?;
        if let Some(bad) = bad {
            return Err(AcceptLanguageError::BadElement {
                header,
                index: bad.index,
                offset: bad.offset,
                part: bad.part,
            });
        }
        Ok(AcceptLanguage::by_weight(read)?)
    }

    /// Parses a header as [`AcceptLanguage::new`] does, but skips malformed elements: `de, *-CH` has the range `de`.
    ///
    /// # Errors
    ///
    /// Returns an error if allocation fails.
    ///
    /// ```
    /// use langtag_match::AcceptLanguage;
    ///
    /// let accepted = AcceptLanguage::lenient(alloc, "de_CH, fr;q=0.5, de")?;
    /// accepted.ranges().first().map(|first| first.range.as_str()); // Some("de")
    /// ```
    pub fn lenient(alloc: Global, header: &'a str) -> Result<AcceptLanguage<'a>, AllocError>
        ensures { IfOk result (λ accepted. spec.AreElements header.now (accept_language_ranges accepted)) }
    {
        let (read, _) = elements(alloc, header)?;
        AcceptLanguage::by_weight(read)
    }

    /// Leaves out the elements of weight 0, and sorts the other elements by descending weight.
    fn by_weight(elements: Vec<WeightedRange<'a>>) -> Result<AcceptLanguage<'a>, AllocError>
        ensures { IfOk result (λ accepted. spec.IsByWeight (spec.acceptable (map spec.reading elements.entry.items))
            (map spec.reading (accept_language_ranges accepted))) }
    {
        let mut ranges = elements;
        ranges.retain(|weighted| weighted.weight > 0);
        ranges.sort_by_key(|weighted| Reverse(weighted.weight))?;
        Ok(AcceptLanguage { ranges })
    }

    /// Returns the ranges, the greatest weight first. Two ranges are equal if their weights are equal, and their
    /// strings are, ignoring case.
    ///
    /// ```
    /// use langtag_match::AcceptLanguage;
    ///
    /// let accepted = AcceptLanguage::new(alloc, "fr;q=0.5, de")?;
    /// accepted.ranges().first().map(|first| first.range.as_str()); // Some("de")
    /// ```
    pub fn ranges(&self) -> &[WeightedRange<'a>]
        ensures list { result.now ≡ accept_language_ranges self.now }

        ensures compared { WeightedRangesCompareByBoth }
        ensures cloned { (weighted copy : WeightedRange) → ⟦<WeightedRange<'a> as Clone>⟧.is_clone weighted copy
            → copy ≡ weighted }
        ensures clone_succeeds { (weighted : WeightedRange) → ⟦<WeightedRange<'a> as Clone>⟧.is_infallible weighted }
    {
        self.ranges.as_slice()
    }

    /// Returns the tag that lookup finds for the ranges, or the default, as [`look_up`](crate::look_up) does.
    ///
    /// ```
    /// use langtag::LangTag;
    /// use langtag_match::AcceptLanguage;
    ///
    /// let accepted = AcceptLanguage::new(alloc, "fr;q=0.3, DE-ch-1996;q=0.9")?;
    /// let tags = [LangTag::new("de-CH")?, LangTag::new("fr")?];
    /// accepted.look_up(&tags, LangTag::new("en")?).as_str(); // "de-CH"
    /// ```
    pub fn look_up<'t>(&self, tags: &[LangTag<'t>], default: LangTag<'t>) -> LangTag<'t>
        ensures { result ≡ choice tags.now default.entry (spec.range_texts (accept_language_ranges self.now)) }
    {
        for weighted in self.ranges() {
            if let Some(tag) = tag_for(weighted.range, tags) {
                return tag;
            }
        }
        default
    }
}

/// Returns the tag that lookup finds for a header, or the default. It does what [`AcceptLanguage::new`] and
/// [`AcceptLanguage::look_up`] do, in one call.
///
/// For `fr;q=0.3, DE-ch-1996;q=0.9` and the tags `de-CH` and `fr` it returns `de-CH`.
///
/// This follows RFC 4647 to the letter, so `zh-TW` does not find `zh-Hant`. Most web sites should call
/// `langtag_choice::best_for_header` instead.
///
/// # Errors
///
/// Returns the errors of [`AcceptLanguage::new`].
///
/// ```
/// use langtag::LangTag;
/// use langtag_match::tag_for_header;
///
/// let tags = [LangTag::new("de-CH")?, LangTag::new("fr")?];
/// tag_for_header(alloc, "fr;q=0.3, DE-ch-1996;q=0.9", &tags, LangTag::new("en")?)?.as_str(); // "de-CH"
/// ```
pub fn tag_for_header<'h, 't>(
    alloc: Global,
    header: &'h str,
    tags: &[LangTag<'t>],
    default: LangTag<'t>,
) -> Result<LangTag<'t>, AcceptLanguageError<'h>>
    ensures chosen { IfOk result (λ tag. (ordered : List WeightedRange) × spec.AreAccepted header.now ordered
        × (tag ≡ choice tags.now default.entry (spec.range_texts ordered))) }
    ensures refused { IfErr result (spec.Refuses header.entry) }
{
    let accepted = AcceptLanguage::new(alloc, header)?;
    Ok(accepted.look_up(tags, default))
}

/// Returns the elements of a header that are well-formed, in order, and its first malformed element.
fn elements(
    alloc: Global,
    header: &str,
) -> Result<(Vec<WeightedRange<'_>>, Option<BadElement>), AllocError>
    ensures elements { IfOk result (λ found. map spec.reading found.0.items ≡ spec.elements (items header.now)) }
    ensures bad { IfOk result (λ found. MatchOption found.1 (IsTrue (spec.are_good (items header.now)))
        (λ bad. spec.IsFirstBad header.now bad.index bad.offset bad.part)) }
{
    let mut elements = Vec::new(alloc);
    let mut bad = None;
    let mut left = header.as_bytes();
    let mut index = 0;
    while !left.is_empty() {
        let (item, rest) = split_at_byte(left, b',');
        match element_at(item) {
            Ok(element) => elements.push(element.weighted).map_err(AllocError::from)?,
            Err(part) if bad.is_none() && !is_empty_element(item) => {
                bad = Some(BadElement {
                    index,
                    offset: header.len() - left.len() + trimmed_place(item).0,
                    part,
                });
            }
            Err(_) => {}
        }
        index += 1;
        left = rest;
    }
    Ok((elements, bad))
}
