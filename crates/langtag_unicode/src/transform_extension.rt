//! The extension `t` of a tag, which says how a string was transformed.
ghost use Rattle.std.specs.Prelude.{◌≡◌, None, option_map};
ghost use Rattle.langtag.specs.Definitions.{PartOf, lang_tag_text, find_extension};
ghost use Rattle.langtag_unicode.specs.Text.{transformation_subtags};

use crate::extension_text::extension_text;
use crate::transformation::Transformation;
use langtag::{LangTag, Singleton};
use langtag_keyword::nonempty;

/// Returns the first extension `t` of a tag (RFC 6497 section 2.2), or `None` if there is none.
///
/// ```
/// use langtag::LangTag;
/// use langtag_unicode::transform;
///
/// let found = transform(LangTag::new("und-t-ja-latn-m0-hepburn")?);
/// found.and_then(|it| it.language()); // Some("ja-latn")
/// ```
pub fn transform<'a>(tag: LangTag<'a>) -> Option<Transformation<'a>>
    ensures first { PartOf (lang_tag_text tag.entry) (λ r. option_map (λ e. e.subtags) (find_extension 116 r.extensions)) None
        (option_map transformation_subtags result) }

    ensures cloned { (transformation copy : Transformation) → ⟦<Transformation<'a> as Clone>⟧.is_clone transformation copy
        → copy ≡ transformation }
    ensures clone_succeeds { (transformation : Transformation) → ⟦<Transformation<'a> as Clone>⟧.is_infallible transformation }
{
    let singleton = Singleton::new(b't').ok()?;
    let text = nonempty(extension_text(tag, singleton))?;
    Some(Transformation::new(text))
}
