//! The two rules of filtering (RFC 4647 section 3.3).
ghost use Rattle.std.specs.Prelude.{◌≡◌};
ghost use Rattle.langtag.specs.Definitions.{lang_tag_text};
ghost use Rattle.langtag_match.specs.FilterRule.{matches_by};
ghost use Rattle.langtag_match.specs.Text.{language_range_text};

use crate::language_range::LanguageRange;
use langtag::LangTag;

/// The rule by which a range matches a tag.
#[derive(Clone, Copy, Debug)]
pub(crate) enum FilterRule {
    /// Basic filtering (section 3.3.1).
    Basic,
    /// Extended filtering (section 3.3.2).
    Extended,
}

impl FilterRule {
    /// Returns whether a range matches a tag by the rule.
    pub(crate) fn matches(self, range: LanguageRange<'_>, tag: LangTag<'_>) -> bool
        ensures { result ≡ matches_by self (language_range_text range.entry) (lang_tag_text tag.entry) }
    {
        match self {
            FilterRule::Basic => range.matches_basic(&tag),
            FilterRule::Extended => range.matches_extended(&tag),
        }
    }
}
