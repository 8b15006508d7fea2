//! The tags of a site that is known before the requests. A site borrows its prepared tags, so that a program without an
//! allocator can prepare tags in an array. It has no index by language: an index would need proofs of its own and room
//! in the caller's array in C, and a tag whose language is far from that of a range costs few instructions anyway.
ghost use Rattle.std.specs.Prelude.{◌≡◌, option_map};
ghost use Rattle.langtag_choice.specs.Best as spec;
ghost use Rattle.langtag_choice.specs.ListTexts.{header_ranges, ordered_elements, tag_texts, weighted_elements};
ghost use Rattle.langtag_choice.specs.Sites.{prepared_tags};
ghost use Rattle.langtag_match.specs.Text.{accept_language_ranges};
ghost use Rattle.langtag_range.specs.Definitions.{wanted_elements};

use crate::best::{best_among, match_among};
use crate::best_match::BestMatch;
use crate::prepared_form::PreparedForm;
use crate::prepared_tag::PreparedTag;
use crate::range_list::RangeList;
use crate::tag_list::TagList;
use langtag::LangTag;
use langtag_match::{AcceptLanguage, LanguageRange};

/// The tags of a site, prepared for many choices. A choice among them is the same as among the tags themselves, but takes
/// fewer instructions: 0.4 times as many for 40 tags, and 0.2 times for 1,000. A site does not change: make another if its
/// tags do.
///
/// ```
/// use langtag::LangTag;
/// use langtag_choice::{PreparedTag, Site};
///
/// let tags = [PreparedTag::new(LangTag::new("en")?), PreparedTag::new(LangTag::new("zh-Hant")?)];
/// let site = Site::new(&tags);
/// site.best_for_header(b"zh-TW,zh;q=0.9"); // Some(1)
/// site.best_for_header(b"ja");             // None
/// ```
#[derive(Clone, Copy)]
pub struct Site<'s, 't> {
    tags: &'s [PreparedTag<'t>],
}

impl<'s, 't> Site<'s, 't> {
    /// Returns the site with these tags.
    pub fn new(tags: &'s [PreparedTag<'t>]) -> Site<'s, 't>
        ensures tags { result.tags.now ≡ tags.now }
        ensures cloned { (site copy : Site) → ⟦<Site<'s, 't> as Clone>⟧.is_clone site copy → copy ≡ site }
        ensures clone_succeeds { (site : Site) → ⟦<Site<'s, 't> as Clone>⟧.is_infallible site }
    {
        Site { tags }
    }

    /// Returns the prepared tags.
    pub fn tags(self) -> &'s [PreparedTag<'t>]
        ensures { result.now ≡ self.entry.tags.now }
    {
        self.tags
    }

    /// Returns the index of the best tag for an Accept-Language header, as
    /// [`best_for_header`](crate::best_for_header) does.
    pub fn best_for_header(self, header: &[u8]) -> Option<usize>
        ensures { spec.IsChoice (wanted_elements header.now) (tag_texts (prepared_tags self.entry.tags.now)) result }
    {
        best_among(header, &self)
    }

    /// Returns the index of the best tag for a parsed header, as
    /// [`best_for_accept_language`](crate::best_for_accept_language) does.
    pub fn best_for_accept_language(self, accepted: &AcceptLanguage<'_>) -> Option<usize>
        ensures { spec.IsChoice (weighted_elements (accept_language_ranges accepted.now))
            (tag_texts (prepared_tags self.entry.tags.now)) result }
    {
        best_among(accepted.ranges(), &self)
    }

    /// Returns the index of the best tag for a list of language ranges, as
    /// [`best_for_ranges`](crate::best_for_ranges) does.
    pub fn best_for_ranges(self, ranges: &[LanguageRange<'_>]) -> Option<usize>
        ensures { spec.IsChoice (ordered_elements ranges.now) (tag_texts (prepared_tags self.entry.tags.now)) result }
    {
        best_among(ranges, &self)
    }

    /// Returns the best tag for an Accept-Language header with the range that it serves, as
    /// [`match_for_header`](crate::match_for_header) does.
    pub fn match_for_header<'a>(self, header: &'a [u8]) -> Option<BestMatch<'a>>
        ensures found { spec.IsMatch (wanted_elements header.now) (tag_texts (prepared_tags self.entry.tags.now)) result }
        ensures written { spec.IsWritten (header_ranges header.now) result }
        ensures choice { spec.IsChoice (wanted_elements header.now) (tag_texts (prepared_tags self.entry.tags.now))
            (option_map (λ found. found.index) result) }
    {
        match_among(header, &self)
    }
}

#[tactic(auto, using(crate::proofs::SuitableTags::tag_at, crate::proofs::SuitableTags::tag_count))]
impl TagList for Site<'_, '_> {
    ghost texts = { λ site. tag_texts (prepared_tags site.tags.now) };

    fn count(&self) -> usize {
        self.tags.len()
    }

    fn tag_at(&self, index: usize) -> Option<LangTag<'_>> {
        Some(self.tags[index].tag())
    }

    fn bytes_at(&self, index: usize) -> &[u8] {
        self.tags[index].tag().as_bytes()
    }

    fn form_at(&self, index: usize) -> Option<&PreparedForm> {
        Some(self.tags[index].form())
    }
}
