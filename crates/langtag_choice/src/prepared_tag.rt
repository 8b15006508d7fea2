//! A tag with what the choice computes of it.
ghost use Rattle.std.specs.Prelude.{◌≡◌, IsTrue};
ghost use Rattle.langtag.specs.Definitions.{lang_tag_text};
ghost use Rattle.langtag_choice.specs.Prepared.{KeepsForm, is_prepared_for};

use crate::prepared_form::PreparedForm;
use langtag::LangTag;

/// A tag with what the choice computes of it.
///
/// ```
/// use langtag::LangTag;
/// use langtag_choice::{PreparedTag, Site};
///
/// let prepared = [PreparedTag::new(LangTag::new("en")?), PreparedTag::new(LangTag::new("zh-Hant")?)];
/// Site::new(&prepared).best_for_header(b"zh-TW"); // Some(1)
/// ```
#[derive(Clone, Copy)]
pub struct PreparedTag<'t> {
    tag: LangTag<'t>,
    form: PreparedForm,
    ghost current: { IsTrue (is_prepared_for (lang_tag_text tag) form) },
}

impl<'t> PreparedTag<'t> {
    /// Prepares a tag for many choices.
    pub fn new(tag: LangTag<'t>) -> PreparedTag<'t>
        ensures tag { result.tag ≡ tag.entry }
        ensures kept { KeepsForm (lang_tag_text tag.entry) result.form }
        ensures cloned { (prepared copy : PreparedTag) → ⟦<PreparedTag<'t> as Clone>⟧.is_clone prepared copy → copy ≡ prepared }
        ensures clone_succeeds { (prepared : PreparedTag) → ⟦<PreparedTag<'t> as Clone>⟧.is_infallible prepared }
    {
        PreparedTag {
            tag,
            form: PreparedForm::of(tag.as_bytes()),
        }
    }

    /// Returns the tag.
    pub fn tag(&self) -> LangTag<'t>
        ensures { result ≡ self.now.tag }
    {
        self.tag
    }

    /// Returns what the choice computes of the tag.
    pub fn form(&self) -> &PreparedForm
        ensures { result.now ≡ self.now.form }
    {
        &self.form
    }
}
