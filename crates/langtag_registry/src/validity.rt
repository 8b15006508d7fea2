//! Valid tags (RFC 5646 section 2.2.9).
ghost use Rattle.std.specs.Prelude.{◌≡◌, ◌↔◌, [], IsNone, Some, IfSome, IfErr, is_ok, map, true, slice_get, option_map};
ghost use Rattle.langtag_scan.specs.Grammar.{Record, EachRecord, subtags};
ghost use Rattle.langtag.specs.Definitions.{singleton_byte, EachLanguageSpelling, language_text};
ghost use Rattle.langtag.specs.Definitions.{script_text, region_text, variants_text, are_alike_bytes};
ghost use Rattle.langtag.specs.Definitions.{repeat, repeat_index, lang_tag_text, normal_lang_tag_text};
ghost use Rattle.langtag_registry.specs.Compared.{FaultsCompareByKind};
ghost use Rattle.langtag_registry.specs.Fault.{told, faults, fault_index, language_faults};
ghost use Rattle.langtag_registry.specs.Fault.{script_faults, region_faults, variant_faults};
ghost use Rattle.langtag_fields.specs.Valid.{IsValid};
ghost use Rattle.langtag_registry.specs.declared.invalid_subtag.InvalidSubtag.{InvalidSubtag};

use crate::invalid_subtag::InvalidSubtag;
use langtag::{LangTag, NormalLangTag, is_among_first};
use langtag_extension::Singleton;
use langtag_fields::{
    is_registered_extlang, is_registered_language, is_registered_region, is_registered_script,
    is_registered_variant,
};
use langtag_language::Language;
use langtag_place::{Region, Script, Variants};

/// Checks whether a tag is valid by the registry (RFC 5646 section 2.2.9). All its subtags must be registered. It must
/// have at most one extended language, and no variant or singleton may occur twice. Grandfathered and private-use tags
/// are valid: `fr-FR`, `zh-min` and `x-qt` are `Ok`. Prefixes of variants do not matter. Errors are equal if their
/// kinds and subtags are equal.
///
/// # Errors
///
/// Returns the first invalid subtag of the tag: the language `qt` in `qt-FQ`. `langtag_likely::suggested_language` and
/// `langtag_likely::suggested_region` return the registered code that was probably meant: `de` for `ger`, `GB` for
/// `UK`.
///
/// ```
/// use langtag::LangTag;
/// use langtag_registry::validate;
///
/// validate(LangTag::new("de-CH-1996")?).is_ok(); // true
/// validate(LangTag::new("qt-FQ")?).is_err(); // true
/// ```
pub fn validate<'a>(tag: LangTag<'a>) -> Result<(), InvalidSubtag<'a>>
    ensures valid { (is_ok result ≡ true) ↔ IsValid (lang_tag_text tag.entry) }
    ensures first { IfErr result (λ invalid. EachRecord (lang_tag_text tag.entry)
        (λ r. slice_get (faults r) 0 ≡ Some (told invalid))) }

    ensures compared { FaultsCompareByKind }
    ensures cloned { (invalid copy : InvalidSubtag) → ⟦<InvalidSubtag<'a> as Clone>⟧.is_clone invalid copy → copy ≡ invalid }
    ensures clone_succeeds { (invalid : InvalidSubtag) → ⟦<InvalidSubtag<'a> as Clone>⟧.is_infallible invalid }
{
    match fault_at(tag) {
        Some((fault, _)) => Err(fault),
        None => Ok(()),
    }
}

/// Returns the error that [`validate`] would return, and an index, or `None` for a valid tag. The index counts from 0
/// among the variants, or among the extensions for a repeated singleton: for `de-1996-1996` it is 1. For other subtags
/// it is 0. It does not allocate.
///
/// ```
/// use langtag::LangTag;
/// use langtag_registry::fault_at;
///
/// fault_at(LangTag::new("de-1996-1996")?).map(|(_, index)| index); // Some(1)
/// fault_at(LangTag::new("de-1996")?).is_none(); // true
/// ```
#[tactic(auto, using(langtag::proofs::KeptFound::found_kept, crate::proofs::FaultLaws::valid_of_other, crate::proofs::FaultLaws::valid_of_none, crate::proofs::FaultLaws::valid_grandfathered))]
pub fn fault_at<'a>(tag: LangTag<'a>) -> Option<(InvalidSubtag<'a>, usize)>
    ensures valid { IsNone result ↔ IsValid (lang_tag_text tag.entry) }
    // law: the first fault
    ensures first { IfSome result (λ fault. EachRecord (lang_tag_text tag.entry)
        (λ r. slice_get (faults r) 0 ≡ Some (told fault.0))) }
    // law: the index of the variant or extension of the first fault
    ensures index { IfSome result (λ fault. EachRecord (lang_tag_text tag.entry)
        (λ r. fault_index r (told fault.0) ≡ Some fault.1)) }
{
    let normal = tag.as_normal()?;
    let fault = find_fault_of_normal(normal)?;
    if tag.is_grandfathered() {
        return None;
    }
    Some(fault)
}

/// Returns the first fault of a normal tag. It does not check whether the tag is grandfathered.
#[tactic(auto, using(crate::proofs::FaultLaws::first_fault, langtag::proofs::PartRules::language_spelled, langtag::proofs::PartRules::variants_listed, crate::proofs::FaultLaws::first_singleton))]
fn find_fault_of_normal<'a>(tag: NormalLangTag<'a>) -> Option<(InvalidSubtag<'a>, usize)>
    ensures first { EachRecord (normal_lang_tag_text tag.entry)
        (λ r. option_map (λ fault. told fault.0) result ≡ slice_get (faults r) 0) }
    ensures index { IfSome result (λ fault. EachRecord (normal_lang_tag_text tag.entry)
        (λ r. fault_index r (told fault.0) ≡ Some fault.1)) }
{
    if let Some(fault) = find_language_fault(tag.language()) {
        return Some((fault, 0));
    }
    if let Some(fault) = find_script_fault(tag.script()) {
        return Some((fault, 0));
    }
    if let Some(fault) = find_region_fault(tag.region()) {
        return Some((fault, 0));
    }
    if let Some(fault) = find_variant_fault(tag.variants()) {
        return Some(fault);
    }
    let (singleton, index) = find_repeated_singleton(tag)?;
    Some((InvalidSubtag::RepeatedSingleton(singleton), index))
}

/// Returns the first fault of a language.
fn find_language_fault<'a>(language: Language<'a>) -> Option<InvalidSubtag<'a>>
    ensures first { EachLanguageSpelling (language_text language.entry) (λ primary extended.
        option_map told result ≡ slice_get (language_faults primary extended) 0) }
    ensures index { IfSome result (λ fault. (r : Record) → fault_index r (told fault) ≡ Some 0) }
{
    let primary = language.primary();
    if !is_registered_language(primary) {
        return Some(InvalidSubtag::Language(primary));
    }
    let mut extlangs = language.extension_subtags();
    let first = extlangs.next()?;
    if !is_registered_extlang(first) {
        return Some(InvalidSubtag::Extlang(first));
    }
    let second = extlangs.next()?;
    Some(InvalidSubtag::SecondExtlang(second))
}

/// Returns the fault of a script, if it has one.
fn find_script_fault<'a>(script: Option<Script<'a>>) -> Option<InvalidSubtag<'a>>
    ensures first { option_map told result ≡ slice_get (script_faults (option_map script_text script.entry)) 0 }
    ensures index { IfSome result (λ fault. (r : Record) → fault_index r (told fault) ≡ Some 0) }
{
    let script = script?;
    if is_registered_script(script) {
        return None;
    }
    Some(InvalidSubtag::Script(script))
}

/// Returns the fault of a region, if it has one.
fn find_region_fault<'a>(region: Option<Region<'a>>) -> Option<InvalidSubtag<'a>>
    ensures first { option_map told result ≡ slice_get (region_faults (option_map region_text region.entry)) 0 }
    ensures index { IfSome result (λ fault. (r : Record) → fault_index r (told fault) ≡ Some 0) }
{
    let region = region?;
    if is_registered_region(region) {
        return None;
    }
    Some(InvalidSubtag::Region(region))
}

/// Returns the first fault among variants, and the index of that variant.
// Each variant is compared with the variants before it. The earlier variants are registered and all different, so they
// are few.
fn find_variant_fault<'a>(variants: Variants<'a>) -> Option<(InvalidSubtag<'a>, usize)>
    ensures first { option_map (λ fault. told fault.0) result
        ≡ slice_get (variant_faults [] (subtags (variants_text variants.entry))) 0 }
    ensures index { IfSome result (λ fault. (r : Record) → r.variants ≡ subtags (variants_text variants.entry)
        → fault_index r (told fault.0) ≡ Some fault.1) }
{
    for (index, variant) in variants.iter().enumerate() {
        if !is_registered_variant(variant) {
            return Some((InvalidSubtag::Variant(variant), index));
        }
        if is_among_first(variants, index, variant) {
            return Some((InvalidSubtag::RepeatedVariant(variant), index));
        }
    }
    None
}

/// Returns the first repeated singleton, and the index of its extension.
fn find_repeated_singleton<'a>(tag: NormalLangTag<'a>) -> Option<(Singleton, usize)>
    ensures first { EachRecord (normal_lang_tag_text tag.entry) (λ r.
        option_map (λ found. singleton_byte found.0) result ≡ repeat are_alike_bytes (map (λ e. e.singleton) r.extensions)) }
    ensures index { IfSome result (λ found. EachRecord (normal_lang_tag_text tag.entry) (λ r.
        repeat_index are_alike_bytes (map (λ e. e.singleton) r.extensions) ≡ Some found.1)) }
{
    let index = tag.repeated_singleton_index()?;
    let extension = tag.extensions().iter().nth(index)?;
    Some((extension.singleton(), index))
}
