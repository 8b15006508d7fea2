//! A tag as the choice reads it.
ghost use Rattle.std.specs.Prelude.{◌≡◌, IsTrue, option_map};
ghost use Rattle.langtag_choice.specs.KnownTexts.{is_known, known_text};
ghost use Rattle.langtag_choice.specs.Prepared.{is_prepared_for};
ghost use Rattle.langtag_cldr.specs.Definitions.{matching_form, field_texts};

use crate::prepared_form::PreparedForm;
use langtag_cldr::{TagFields, matching_form};

/// A tag as the choice reads it: a string, or a string with what was kept of it. What was kept may be untrue of an entry
/// of a list that is not a tag.
#[derive(Clone, Copy)]
pub(crate) enum KnownTag<'t> {
    Text(&'t [u8]),
    Prepared(&'t [u8], &'t PreparedForm),
}

impl<'t> KnownTag<'t> {
    ghost use Rattle.langtag_scan.specs.Prelude.{ForSome};
    ghost use Rattle.langtag_choice.specs.Nearness.{unlikely};

    /// Returns the string of the tag.
    pub(crate) fn bytes(self) -> &'t [u8]
        ensures { result.now ≡ known_text self.entry }
    {
        match self {
            KnownTag::Text(text) => text,
            KnownTag::Prepared(text, _) => text,
        }
    }

    /// Returns the matching form of the tag.
    pub(crate) fn form(self) -> Option<TagFields<'t>>
        ensures { IsTrue (is_known self.entry) → option_map field_texts result ≡ matching_form (known_text self.entry) }
    {
        match self {
            KnownTag::Text(text) => matching_form(text),
            KnownTag::Prepared(text, prepared) => prepared_form(text, prepared),
        }
    }

    /// Returns how unlikely the region of the tag is, if this was kept.
    pub(crate) fn kept_unlikely(self) -> Option<u8>
        ensures { IsTrue (is_known self.entry) → ForSome result (λ kept. kept ≡ unlikely (known_text self.entry)) }
    {
        match self {
            KnownTag::Text(_) => None,
            KnownTag::Prepared(_, prepared) => prepared.unlikely(),
        }
    }
}

/// Returns the matching form that was kept of a string, or else computes it.
fn prepared_form<'t>(text: &'t [u8], prepared: &'t PreparedForm) -> Option<TagFields<'t>>
    ensures { IsTrue (is_prepared_for text.now prepared.now) → option_map field_texts result ≡ matching_form text.now }
{
    match prepared.form() {
        Some(form) => Some(form),
        None => matching_form(text),
    }
}
