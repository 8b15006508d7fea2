//! The parent of a tag.
ghost use Rattle.std.specs.Prelude.{◌≡◌, ℕ, List, slice_get, option_map};
ghost use Rattle.langtag.specs.Definitions.{lang_tag_text};
ghost use Rattle.langtag_parent.specs.Chain.{IsChain, parent_text};

use crate::parent_tag::ParentTag;
use crate::parents::Parents;
use langtag::LangTag;

/// Returns the parent of a tag in CLDR: `pt-PT` for `pt-AO`, `es-419` for `es-MX`, `en-001` for `en-GB`. If a catalogue
/// has no string for a tag, look for the string of its parent. Returns `None` if there is no parent, as for `pt`.
///
/// The parent is the second tag of [`Parents`], which has all of them.
///
/// ```
/// use langtag::LangTag;
/// use langtag_parent::parent;
///
/// let mut buffer = [0; 16];
/// parent(LangTag::new("zh-TW")?).map(|tag| tag.write(&mut buffer)); // Some(7)
/// buffer.get(..7); // Some(&b"zh-Hant"[..])
/// parent(LangTag::new("zh-Hant")?).is_none(); // true
/// ```
pub fn parent(tag: LangTag<'_>) -> Option<ParentTag<'_>>
    ensures { (chain : List (List ℕ)) → IsChain (lang_tag_text tag.entry) chain
        → option_map parent_text result ≡ slice_get chain 1 }
{
    nth_parent(tag, 1)
}

/// Returns the tag at an index of the chain of parents. At 0 is the tag itself, and at 1 its parent. Returns `None` if
/// the chain has no more tags.
///
/// ```
/// use langtag::LangTag;
/// use langtag_parent::nth_parent;
///
/// let mut buffer = [0; 16];
/// nth_parent(LangTag::new("pt-Latn-AO")?, 2).map(|tag| tag.write(&mut buffer)); // Some(5)
/// buffer.get(..5); // Some(&b"pt-PT"[..])
/// ```
pub fn nth_parent(tag: LangTag<'_>, index: usize) -> Option<ParentTag<'_>>
    ensures { (chain : List (List ℕ)) → IsChain (lang_tag_text tag.entry) chain
        → option_map parent_text result ≡ slice_get chain index }
{
    Parents::new(tag).nth(index)
}
