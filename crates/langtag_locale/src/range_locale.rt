//! The Unicode locale identifier that a range stands for.
ghost use Rattle.std.specs.Prelude.{◌≡◌, IfSome, List, None, ℕ};
ghost use Rattle.langtag.specs.Definitions.{normal_lang_tag_text};
ghost use Rattle.langtag_locale.specs.Resolved as spec;

use crate::locale_for::locale_for;
use langtag::{LangTag, NormalLangTag};
use langtag_posix::write_from_posix;

/// The greatest length of the tag for the name of a POSIX locale that is read, in bytes.
pub(crate) const MOST_NAMED: usize = 288;

/// Returns a Unicode locale identifier with the form of a range. A range that is not a tag with a form is read as the name of a
/// POSIX locale, whose tag is written into `room`.
pub(crate) fn range_locale<'a>(
    range: &'a [u8],
    room: &'a mut [u8; MOST_NAMED],
) -> Option<NormalLangTag<'a>>
    ensures some { IfSome result (λ locale. spec.IsLocaleOf range.entry.now (normal_lang_tag_text locale)) }
    ensures none { result ≡ None → (locale : List ℕ) → spec.IsLocaleOf range.entry.now locale → ⊥ }
{
    if let Some(locale) = locale_of(range) {
        return Some(locale);
    }
    locale_of(posix_tag(range, room)?)
}

/// Returns a Unicode locale identifier with the form of a tag.
#[tactic(auto, using(crate::proofs::RangeLaws::no_form, crate::proofs::RangeLaws::no_tag))]
fn locale_of(text: &[u8]) -> Option<NormalLangTag<'_>>
    ensures some { IfSome result (λ locale. spec.HasLocale text.entry.now (normal_lang_tag_text locale)) }
    ensures none { result ≡ None → spec.HasNoLocale text.entry.now }
{
    match LangTag::from_bytes(text) {
        Ok(tag) => locale_for(tag),
        Err(_) => None,
    }
}

/// Returns the tag for the name of a POSIX locale, written into `room`.
fn posix_tag<'a>(name: &[u8], room: &'a mut [u8; MOST_NAMED]) -> Option<&'a [u8]>
    ensures some { IfSome result (λ tag. spec.IsNameOf name.now tag.now) }
    ensures none { result ≡ None → (tag : List ℕ) → spec.IsNameOf name.now tag → ⊥ }
{
    let len = write_from_posix(name, room)?;
    if len > MOST_NAMED {
        return None;
    }
    Some(&room[..len])
}
