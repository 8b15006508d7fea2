//! The part of a tag before its extensions and private use.
ghost use Rattle.std.specs.Prelude.{◌≡◌, ◌↔◌, length};
ghost use Rattle.langtag_scan.specs.Grammar.{spell, IsTag};
ghost use Rattle.langtag.specs.Definitions.{base_record, PartOf};

use crate::tag::tag_of;

/// Returns the length of a tag without its extensions and private use, which is 10 for de-CH-1996-u-co-phonebk-x-mine.
/// A private-use tag and an irregular tag have no extensions, so this is their length. Returns 0 for bytes that are not
/// a tag.
#[tactic(auto, using(langtag_parent::proofs::Chains::some_tag))]
#[unsafe(no_mangle)]
pub extern "C" fn langtag_base_len(bytes: &[u8]) -> usize
    // law: the length of the text of `LangTag::base`
    ensures base { IsTag bytes.now → PartOf bytes.now (λ r. length (spell (base_record r))) (length bytes.now) result }
    // law: 0 if and only if the bytes are not a tag
    ensures none { result ≡ 0 ↔ (IsTag bytes.now → ⊥) }
{
    match tag_of(bytes) {
        Some(tag) => tag.base().as_str().len(),
        None => 0,
    }
}
