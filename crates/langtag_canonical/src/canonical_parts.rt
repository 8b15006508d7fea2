//! The canonical forms of a tag's parts (RFC 5646 section 4.5), written to an output in their order.
ghost use Rattle.std.specs.Prelude.{◌≡◌, ◌∷◌, [], List, map, flat_map, option_map};
ghost use Rattle.langtag_scan.specs.Grammar.{fold_text, subtags};
ghost use Rattle.langtag_scan.specs.Record as model;
ghost use Rattle.langtag.specs.Definitions.{EachLanguageSpelling, language_text, extended_lang_tag_text, script_text};
ghost use Rattle.langtag.specs.Definitions.{region_text, variants_text, SpellsExtensions, extension_spelling};
ghost use Rattle.langtag.specs.Definitions.{extensions_text, normal_lang_tag_text, of_singleton, Pushes, IsCounted};
ghost use Rattle.langtag_canonical.specs.Canonical.{canonical_record, canonical_language, canonical_primary};
ghost use Rattle.langtag_canonical.specs.Canonical.{canonical_extended, canonical_region, canonical_variants, in_order};

use crate::extension_order::are_in_order;
use langtag::{NormalLangTag, push_private_use};
use langtag_extension::{Extensions, folded_singleton, singletons_of};
use langtag_fields::{
    is_registered_extlang, preferred_language, preferred_region, preferred_variant,
};
use langtag_language::{ExtendedLangTag, Language, PrimaryLanguage};
use langtag_place::{Region, Script, Variants};
use langtag_text::Output;

/// Writes a tag with its parts in their canonical forms into a buffer, as far as it fits, and returns the length of
/// the form.
pub(crate) fn put_canonical_parts(tag: NormalLangTag<'_>, buffer: &mut [u8]) -> usize
    ensures { model.EachRecord (normal_lang_tag_text tag.entry)
        (λ r. IsCounted (model.spell (canonical_record r)) buffer.old buffer.new result) }
{
    let mut out = Output::new(buffer);
    push_parts(&mut out, tag);
    out.len()
}

fn push_parts(out: &mut Output<'_>, tag: NormalLangTag<'_>)
    ensures { model.EachRecord (normal_lang_tag_text tag.entry) (λ r. Pushes (model.flat (canonical_record r)) out.old out.new) }
{
    push_canonical_language(out, tag.language());
    push_script(out, tag.script());
    push_region(out, tag.region());
    push_variants(out, tag.variants());
    push_ordered(out, tag.extensions());
    push_private_use(out, tag.private_use());
}

/// Adds the canonical form of a language. A registered extended subtag replaces the language before it, and may then be
/// replaced as a language. If there are two or more extended subtags, nothing is replaced.
fn push_canonical_language(out: &mut Output<'_>, language: Language<'_>)
    ensures { EachLanguageSpelling (language_text language.entry) (λ primary extended.
        Pushes (canonical_primary primary extended ∷ canonical_extended extended) out.old out.new) }
{
    let primary = language.primary();
    let mut extlangs = language.extension_subtags();
    let Some(extlang) = extlangs.next() else {
        return out.push_subtag(preferred_language(primary).unwrap_or(primary).as_bytes());
    };
    let None = extlangs.next() else {
        return out.push_subtag(language.as_bytes());
    };
    if is_registered_extlang(extlang) {
        return push_extlang(out, extlang);
    }
    out.push_subtag(preferred_language(primary).unwrap_or(primary).as_bytes());
    out.push_subtag(extlang.as_bytes());
}

/// Adds the language that replaces an extended subtag.
fn push_extlang(out: &mut Output<'_>, extlang: ExtendedLangTag<'_>)
    ensures { Pushes (canonical_language (fold_text (extended_lang_tag_text extlang.entry)) ∷ []) out.old out.new }
{
    match preferred_language(PrimaryLanguage::from_checked(extlang.as_str())) {
        Some(preferred) => out.push_subtag(preferred.as_bytes()),
        None => out.push_subtag(&in_small_letters(extlang)),
    }
}

/// Returns an extended subtag in lowercase, which is its case in the registry.
#[tactic(auto, using(langtag_scan::proofs::Disjoint::extended_three), unfolding(langtag_scan::specs::Case::fold_byte))]
fn in_small_letters(extlang: ExtendedLangTag<'_>) -> [u8; 3]
    ensures { result ≡ fold_text (extended_lang_tag_text extlang.entry) }
{
    let mut small = [0; 3];
    small.copy_from_slice(extlang.as_bytes());
    small.make_ascii_lowercase();
    small
}

fn push_script(out: &mut Output<'_>, script: Option<Script<'_>>)
    ensures { Pushes (model.one_flat (option_map script_text script.entry)) out.old out.new }
{
    if let Some(script) = script {
        out.push_subtag(script.as_bytes());
    }
}

fn push_region(out: &mut Output<'_>, region: Option<Region<'_>>)
    ensures { Pushes (model.one_flat (canonical_region (option_map region_text region.entry))) out.old out.new }
{
    if let Some(region) = region {
        out.push_subtag(preferred_region(region).unwrap_or(region).as_bytes());
    }
}

/// Adds the canonical form of each variant, even if the form equals another variant.
fn push_variants(out: &mut Output<'_>, variants: Variants<'_>)
    ensures { Pushes (canonical_variants (subtags (variants_text variants.entry))) out.old out.new }
{
    for variant in variants.iter() {
        out.push_subtag(preferred_variant(variant).unwrap_or(variant).as_bytes());
    }
}

/// Adds extensions in the order of their singletons. Extensions with the same singleton, which no valid tag has, keep
/// their order.
fn push_ordered(out: &mut Output<'_>, extensions: Extensions<'_>)
    ensures { (es : List model.Extension) → SpellsExtensions es (extensions_text extensions.entry)
        → Pushes (flat_map model.extension_flat (in_order es)) out.old out.new }
{
    if extensions.as_str().is_empty() {
        return;
    }
    if are_in_order(extensions) {
        return out.push_subtag(extensions.as_bytes());
    }
    let present = singletons_of(extensions);
    for singleton in b'0'..=b'z' {
        if !present[usize::from(singleton)] {
            continue;
        }
        push_singleton(out, extensions, singleton);
    }
}

/// Adds the extensions with a singleton, which is given in lowercase.
fn push_singleton(out: &mut Output<'_>, extensions: Extensions<'_>, singleton: u8)
    ensures { (es : List model.Extension) → SpellsExtensions es (extensions_text extensions.entry)
        → Pushes (of_singleton singleton (map extension_spelling es)) out.old out.new }
{
    for extension in extensions.iter() {
        if folded_singleton(extension) != singleton {
            continue;
        }
        out.push_subtag(extension.as_bytes());
    }
}
