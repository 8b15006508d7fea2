//! The lists of tags from which one can be chosen.
ghost use Rattle.std.specs.Prelude.{◌≡◌, ◌<◌, ℕ, IsTrue, List, Option, None, length, slice_index_or, option_map};
ghost use Rattle.langtag_scan.specs.Prelude.{ForSome};
ghost use Rattle.langtag.specs.Definitions.{lang_tag_text};
ghost use Rattle.langtag_choice.specs.ListTexts.{tag_texts};
ghost use Rattle.langtag_choice.specs.Prepared.{is_prepared_for};

use crate::prepared_form::PreparedForm;
use langtag::LangTag;

/// A list of tags with an index for each. An entry that is not a tag is allowed, but never chosen.
///
/// ```
/// use langtag::LangTag;
/// use langtag_choice::{TagList, best_among};
///
/// struct Texts(&'static [&'static str]);
///
/// impl TagList for Texts {
///     fn count(&self) -> usize {
///         self.0.len()
///     }
///
///     fn tag_at(&self, index: usize) -> Option<LangTag<'_>> {
///         LangTag::new(self.0[index]).ok()
///     }
///
///     fn bytes_at(&self, index: usize) -> &[u8] {
///         self.0[index].as_bytes()
///     }
/// }
///
/// best_among(&b"zh-TW"[..], &Texts(&["en", "zh-Hant"])); // Some(1)
/// ```
pub trait TagList {
    ghost texts: { Self → List (Option (List ℕ)) };

    /// Returns the number of entries.
    fn count(&self) -> usize
        ensures { result ≡ length (texts self.now) };

    /// Returns the tag at an index, or `None` if the entry is not a tag.
    fn tag_at(&self, index: usize) -> Option<LangTag<'_>>
        requires { index < length (texts self.now) }
        ensures { option_map lang_tag_text result ≡ slice_index_or (texts self.now) index None };

    /// Returns the string of the tag at an index. If the entry is not a tag, any string may be returned.
    fn bytes_at(&self, index: usize) -> &[u8]
        requires { index < length (texts self.now) }
        ensures { ForSome (slice_index_or (texts self.now) index None) (λ text. result.now ≡ text) };

    /// Returns what was prepared of the tag at an index, or `None`. If the entry is not a tag, this may be untrue of it.
    /// Override this only for prepared tags.
    fn form_at(&self, _index: usize) -> Option<&PreparedForm>
        requires { _index < length (texts self.now) }
        ensures { ForSome result (λ form. ForSome (slice_index_or (texts self.now) _index None)
            (λ text. IsTrue (is_prepared_for text form.now))) }
    {
        None
    }
}

/// Tags in a slice.
#[derive(Clone, Copy)]
pub(crate) struct Tags<'a, 't>(pub(crate) &'a [LangTag<'t>]);

impl TagList for Tags<'_, '_> {
    ghost texts = { λ tags. tag_texts tags.0.now };

    fn count(&self) -> usize {
        self.0.len()
    }

    fn tag_at(&self, index: usize) -> Option<LangTag<'_>> {
        Some(self.0[index])
    }

    fn bytes_at(&self, index: usize) -> &[u8] {
        self.0[index].as_bytes()
    }
}
