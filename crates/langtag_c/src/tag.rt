//! Reading bytes as tags.
ghost use Rattle.std.specs.Prelude.{◌≡◌, MatchOption};
ghost use Rattle.langtag_scan.specs.Grammar.{IsNormal, IsTag};
ghost use Rattle.langtag.specs.Definitions.{lang_tag_text, normal_lang_tag_text};

use langtag::{LangTag, NormalLangTag};

/// Returns the bytes as a tag, or `None` if they are not a tag.
pub(crate) fn tag_of<'a>(bytes: &'a [u8]) -> Option<LangTag<'a>>
    ensures { MatchOption result (IsTag bytes.now → ⊥) (λ tag. (lang_tag_text tag ≡ bytes.now) × IsTag bytes.now) }
{
    LangTag::from_bytes(bytes).ok()
}

/// Returns the bytes as a normal tag, or `None` if they are not a normal tag.
#[tactic(auto, using(langtag_scan::proofs::TagLaws::tag_normal))]
pub(crate) fn normal_tag_of<'a>(bytes: &'a [u8]) -> Option<NormalLangTag<'a>>
    ensures { MatchOption result (IsNormal bytes.now → ⊥) (λ tag. (normal_lang_tag_text tag ≡ bytes.now) × IsNormal bytes.now) }
{
    tag_of(bytes)?.as_normal()
}
