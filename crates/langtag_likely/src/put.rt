//! A tag with other fields, in pieces.
ghost use Rattle.std.specs.Prelude.{◌≡◌, ◌+◌, ◌≤◌, ◌∷◌, ◌++◌, drop, flat_map, length, option_map};
ghost use Rattle.langtag_scan.specs.Grammar.{option_map_or, ends_of, EachRecord, one_flat, spell, join};
ghost use Rattle.langtag.specs.Definitions.{EachLanguageSpelling, language_text, normal_lang_tag_text};
ghost use Rattle.langtag_likely.specs.Maximal.{put_fields, put_language};
ghost use Rattle.langtag_text.specs.Fields.{subtag_of};
ghost use Rattle.langtag_cldr.specs.Definitions.{field_texts};

use langtag::NormalLangTag;
use langtag_cldr::{TagFields, or_other};
use langtag_language::Language;

/// Returns a tag with the given fields, in pieces, or the unchanged tag if `None` is given.
#[inline(always)]
pub(crate) fn changed<'a>(tag: NormalLangTag<'a>, fields: Option<TagFields<'a>>) -> [&'a [u8]; 6]
    ensures whole { EachRecord (normal_lang_tag_text tag.entry)
        (λ r. flat_map (λ piece. piece.now) result
        ≡ spell (option_map_or (put_fields r) (option_map field_texts fields.entry) r)) }
    ensures short { EachRecord (normal_lang_tag_text tag.entry)
        (λ r. length (flat_map (λ piece. piece.now) result) ≤ length (normal_lang_tag_text tag.entry) + 17) }
{
    match fields {
        Some(fields) => pieces(tag, fields),
        None => whole(tag.as_str().as_bytes()),
    }
}

/// Returns a whole string as the first piece, before pieces that are empty.
pub(crate) fn whole(text: &[u8]) -> [&[u8]; 6]
    ensures { flat_map (λ piece. piece.now) result ≡ text.now }
{
    [text, b"", b"", b"", b"", b""]
}

/// Returns the pieces of a tag with these fields. It is inlined, so that the pieces are not copied.
#[inline(always)]
fn pieces<'a>(tag: NormalLangTag<'a>, fields: TagFields<'a>) -> [&'a [u8]; 6]
    ensures whole { EachRecord (normal_lang_tag_text tag.entry)
        (λ r. flat_map (λ piece. piece.now) result ≡ spell (put_fields r (field_texts fields.entry))) }
    ensures short { EachRecord (normal_lang_tag_text tag.entry)
        (λ r. length (flat_map (λ piece. piece.now) result) ≤ length (normal_lang_tag_text tag.entry) + 17) }
{
    [
        put_language(tag.language(), fields.language),
        hyphen_before(fields.script),
        fields.script,
        hyphen_before(fields.region),
        fields.region,
        after_region(tag),
    ]
}

/// Returns the hyphen before a subtag, or nothing if the subtag is empty.
fn hyphen_before(subtag: &[u8]) -> &[u8]
    ensures { result.now ++ subtag.now ≡ flat_map (λ s. 45 ∷ s) (one_flat (subtag_of subtag.now)) }
{
    if subtag.is_empty() { b"" } else { b"-" }
}

/// Returns the rest of a tag after its region, with the hyphen before it.
#[tactic(auto, unfolding(langtag_scan::specs::Tag::IsNormal), using(crate::proofs::PutLaws::region_inside))]
fn after_region<'a>(tag: NormalLangTag<'a>) -> &'a [u8]
    ensures { EachRecord (normal_lang_tag_text tag.entry) (λ r. result.now ≡ drop (ends_of r).region (spell r)) }
{
    let text = tag.as_str();
    &text.as_bytes()[tag.ends().region..]
}

/// Returns the language of a tag, or `other` instead of `und`.
#[tactic(auto, using(crate::proofs::PutLaws::und_alone))]
fn put_language<'a>(language: Language<'a>, other: &'a [u8]) -> &'a [u8]
    ensures { EachLanguageSpelling (language_text language.entry)
        (λ primary extended. result.now ≡ join (put_language primary extended other.now ∷ extended)) }
{
    if language.eq_str("und") {
        return or_other(other, language.as_bytes());
    }
    language.as_bytes()
}
