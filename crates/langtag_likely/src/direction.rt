//! Whether a tag is written from right to left.
ghost use Rattle.std.specs.Prelude.{◌≡◌};
ghost use Rattle.langtag.specs.Definitions.{lang_tag_text};
ghost use Rattle.langtag_cldr.specs.Direction as spec;

use langtag::LangTag;
use langtag_cldr::{is_right_to_left_script, matching_form};

/// Returns whether a tag's language is written from right to left: `true` for `he`, `pa-PK`, `az-Arab` and `und-Thaa`,
/// `false` for `ar-Latn`.
///
/// The script of the tag decides. If the tag has no script, the most likely script of its language and region is used.
/// Deprecated subtags such as `iw` count as their replacements. An extended language counts only if it is registered for
/// the language before it (RFC 5646 section 2.2.2). The result is `false` for private-use tags, irregular
/// tags and `und`.
///
/// ```
/// use langtag::LangTag;
/// use langtag_likely::is_right_to_left;
///
/// is_right_to_left(LangTag::new("az-IR")?); // true
/// is_right_to_left(LangTag::new("az")?); // false
/// ```
pub fn is_right_to_left(tag: LangTag<'_>) -> bool
    ensures { result ≡ spec.is_right_to_left (lang_tag_text tag.entry) }
{
    match matching_form(tag.as_bytes()) {
        Some(form) => is_right_to_left_script(form.script),
        None => false,
    }
}
