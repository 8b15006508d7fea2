//! The parts of the POSIX locale name for a tag.
ghost use Rattle.std.specs.Prelude.{◌≡◌, ◌≤◌, [], IfSome, length, None, Some, if◌then◌else◌, option_map, unwrap_or};
ghost use Rattle.langtag_scan.specs.Grammar.{variants_part, EachRecord};
ghost use Rattle.langtag.specs.Definitions.{normal_lang_tag_text, language_text, region_text};
ghost use Rattle.langtag_likely.specs.Maximal.{fields_of};
ghost use Rattle.langtag_cldr.specs.Definitions.{field_texts};
ghost use Rattle.langtag_posix.specs.ToPosix.{after_variants, is_named, name_modifier, name_variant, is_likely};

use crate::modifiers::modifier_for;
use langtag::NormalLangTag;
use langtag_cldr::{TagFields, add_likely_subtags};
use langtag_language::Language;
use langtag_likely::fields_of;
use langtag_place::{Region, Script};
use langtag_scan::case_insensitive_eq;

/// Returns the string of a language that can stand in a name: it has two or three letters, and is not `und`.
pub(crate) fn named_language<'a>(language: Language<'a>) -> Option<&'a [u8]>
    ensures language { option_map (λ text. text.now) result
        ≡ if is_named (language_text language.entry) then Some (language_text language.entry) else None }
    ensures few { IfSome result (λ text. length text.now ≤ 3) }
{
    let text = language.as_bytes();
    if text.len() > 3 || case_insensitive_eq(b"und", text) {
        return None;
    }
    Some(text)
}

/// Returns the string of a region, or the empty string if there is none.
#[tactic(auto, using(langtag_scan::proofs::Disjoint::region_short))]
pub(crate) fn region_text<'a>(region: Option<Region<'a>>) -> &'a [u8]
    ensures region { result.now ≡ unwrap_or (option_map region_text region.entry) [] }
    ensures few { length result.now ≤ 3 }
{
    match region {
        Some(region) => region.as_bytes(),
        None => b"",
    }
}

/// Returns the variant of the name: `POSIX` for the keyword `va-posix`, and the empty string for a tag without
/// extensions and private use. Any other tag has no name.
pub(crate) fn variant_of_tag(tag: NormalLangTag<'_>) -> Option<&'static [u8]>
    ensures variant { EachRecord (normal_lang_tag_text tag.entry)
        (λ r. option_map (λ text. text.now) result ≡ name_variant (after_variants r)) }
    ensures few { IfSome result (λ text. length text.now ≤ 5) }
{
    name_variant(after_variants(tag))
}

/// Returns the extensions and the private use part of a tag, with the hyphen before them.
#[tactic(auto, unfolding(langtag_scan::specs::Tag::IsNormal), using(crate::proofs::PosixLaws::variants_inside))]
fn after_variants<'a>(tag: NormalLangTag<'a>) -> &'a [u8]
    ensures { EachRecord (normal_lang_tag_text tag.entry) (λ r. result.now ≡ after_variants r) }
{
    let text = tag.as_str();
    &text.as_bytes()[tag.ends().variants..]
}

fn name_variant(extensions: &[u8]) -> Option<&'static [u8]>
    ensures variant { option_map (λ text. text.now) result ≡ name_variant extensions.now }
    ensures few { IfSome result (λ text. length text.now ≤ 5) }
{
    if extensions.is_empty() {
        return Some(b"");
    }
    if case_insensitive_eq(b"-u-va-posix", extensions) {
        return Some(b"POSIX");
    }
    None
}

/// Returns the modifier of the name, which is empty if it has none. It names the script and the variants of the tag.
pub(crate) fn modifier_of_tag(tag: NormalLangTag<'_>) -> Option<&'static [u8]>
    ensures modifier { EachRecord (normal_lang_tag_text tag.entry)
        (λ r. option_map (λ text. text.now) result ≡ name_modifier (fields_of r) (unwrap_or r.script []) (variants_part r)) }
    ensures few { IfSome result (λ text. length text.now ≤ 14) }
{
    let script = match tag.script() {
        Some(script) => script.as_bytes(),
        None => b"",
    };
    let variants = tag.variants();
    name_modifier(fields_of(tag), script, variants.as_bytes())
}

/// Returns the modifier for a script and variants. It leaves out a likely script, if the script is likely without the
/// region, too, or has no modifier.
fn name_modifier(fields: TagFields<'_>, script: &[u8], variants: &[u8]) -> Option<&'static [u8]>
    ensures { option_map (λ text. text.now) result ≡ name_modifier (field_texts fields.entry) script.now variants.now }
{
    if !is_likely(fields.without_script(), script) {
        return modifier_for(script, variants);
    }
    if is_likely(fields.language_alone(), script) {
        return modifier_for(b"", variants);
    }
    modifier_for(script, variants).or(modifier_for(b"", variants))
}

/// Returns whether a script is the likely script of fields that have none.
fn is_likely(fields: TagFields<'_>, script: &[u8]) -> bool
    ensures { result ≡ is_likely (field_texts fields.entry) script.now }
{
    match add_likely_subtags(fields) {
        Some(most) => case_insensitive_eq(most.script, script),
        None => false,
    }
}
