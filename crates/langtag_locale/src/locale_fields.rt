//! Language, script and region in the form of a Unicode locale identifier (UTS #35, part 1, Annex C).
ghost use Rattle.std.specs.Prelude.{◌≡◌, IfSome, IsTrue, map, fold, option_map};
ghost use Rattle.langtag_scan.specs.Grammar.{segments, segments_left};
ghost use Rattle.langtag_text.specs.FieldClasses.{is_language_field, is_region_field, is_script_field};
ghost use Rattle.langtag_text.specs.Fields.{Fields};
ghost use Rattle.langtag_cldr.specs.Definitions.{or_other, language_replaced, field_texts};
ghost use Rattle.langtag_locale.specs.LocaleAliases as list;
ghost use Rattle.langtag_locale.specs.LocaleForm as spec;

use crate::locale_tables as tables;
use crate::locale_variants::variant_languages;
use langtag::case_insensitive_eq;
use langtag_cldr::{TagFields, add_likely, region_replacement};
use langtag_keyword::{is_among, split_first};
use langtag_text::alias_for;

/// Returns the form of the fields of a language identifier with these variants. The first step, which replaces the
/// language, is done already.
#[tactic(auto, unfolding(crate::specs::LocaleForm::identifier_form))]
pub(crate) fn identifier_form<'a>(replaced: TagFields<'a>, variants: Option<&str>) -> TagFields<'a>
    ensures { (fields : Fields) → field_texts replaced.entry ≡ language_replaced fields
        → field_texts result ≡ spec.identifier_form (segments_left variants.entry) fields }
{
    let fields = variant_language(replaced, variants);
    let fields = variant_region(sign_language(fields), variants);
    with_new_script(sign_language(with_new_region(fields)))
}

/// Returns the fields with another language if the language changes with one of the variants.
#[tactic(auto, unfolding(crate::specs::LocaleForm::variant_language))]
fn variant_language<'a>(fields: TagFields<'a>, variants: Option<&str>) -> TagFields<'a>
    ensures { field_texts result ≡ spec.variant_language (segments_left variants.entry) (field_texts fields.entry) }
{
    TagFields {
        language: language_with(fields.language, variants),
        script: fields.script,
        region: fields.region,
    }
}

/// Returns a language, or the language that it becomes with some of the variants.
fn language_with<'a>(language: &'a [u8], variants: Option<&str>) -> &'a [u8]
    requires { IsTrue (is_language_field language.now) }
    ensures language { result.now ≡ fold (spec.language_after (segments_left variants.entry)) language.now
        list.variant_languages }
    ensures in_class { IsTrue (is_language_field result.now) }
{
    if variants.is_none() {
        return language;
    }
    let mut language = language;
    let mut rows = variant_languages();
    while let [(old, variant, new), others @ ..] = rows {
        if case_insensitive_eq(old.as_bytes(), language) && is_among(variants, variant.as_bytes()) {
            language = new.as_bytes();
        }
        rows = others;
    }
    language
}

/// Returns the fields of the sign language if the language is `sgn` and the region has one. Otherwise the fields stay.
#[tactic(auto, unfolding(crate::specs::LocaleForm::sign_language))]
fn sign_language<'a>(fields: TagFields<'a>) -> TagFields<'a>
    ensures { field_texts result ≡ spec.sign_language (field_texts fields.entry) }
{
    match sign_for(fields) {
        Some(language) => without_sgn(fields, language),
        None => fields,
    }
}

/// Returns the sign language of the region if the language is `sgn`.
fn sign_for<'a>(fields: TagFields<'a>) -> Option<&'a [u8]>
    ensures language { option_map (λ t. t.now) result ≡ spec.sign_for (field_texts fields.entry) }
    ensures in_class { IfSome result (λ t. IsTrue (is_language_field t.now)) }
{
    if !case_insensitive_eq(fields.language, b"sgn") {
        return None;
    }
    Some(alias_for(sign_languages(), fields.region)?.as_bytes())
}

/// Returns the fields with another language and without a region.
fn without_sgn<'a>(fields: TagFields<'a>, language: &'a [u8]) -> TagFields<'a>
    requires { IsTrue (is_language_field language.now) }
    ensures { field_texts result ≡ spec.without_sgn (field_texts fields.entry) language.now }
{
    TagFields {
        language,
        script: fields.script,
        region: b"",
    }
}

/// Returns the fields with the region for which one of the variants stands, if they have no region.
#[tactic(auto, unfolding(crate::specs::LocaleForm::variant_region))]
fn variant_region<'a>(fields: TagFields<'a>, variants: Option<&str>) -> TagFields<'a>
    ensures { field_texts result ≡ spec.variant_region (segments_left variants.entry) (field_texts fields.entry) }
{
    other_region(fields, brought_region(fields, variants))
}

/// Returns the region of the fields or, if they have none, the region for which one of the variants stands.
fn brought_region<'a>(fields: TagFields<'a>, variants: Option<&str>) -> &'a [u8]
    ensures region { result.now ≡ or_other fields.entry.region.now
        (spec.variants_region (segments_left variants.entry) list.variant_regions) }
    ensures in_class { IsTrue (is_region_field result.now) }
{
    if fields.region.is_empty() {
        return variants_region(variants);
    }
    fields.region
}

/// Returns the region for which one of the variants stands, or the empty string.
fn variants_region(variants: Option<&str>) -> &'static [u8]
    ensures region { result.now ≡ spec.variants_region (segments_left variants.entry) list.variant_regions }
    ensures in_class { IsTrue (is_region_field result.now) }
{
    let mut rows = variant_regions();
    while let [(variant, region), others @ ..] = rows {
        if is_among(variants, variant.as_bytes()) {
            return region.as_bytes();
        }
        rows = others;
    }
    b""
}

pub(crate) fn other_region<'a>(fields: TagFields<'a>, region: &'a [u8]) -> TagFields<'a>
    requires { IsTrue (is_region_field region.now) }
    ensures { field_texts result ≡ spec.other_region (field_texts fields.entry) region.now }
{
    TagFields {
        language: fields.language,
        script: fields.script,
        region,
    }
}

/// Returns the fields with the region that replaces their region, if there is one.
#[tactic(auto, unfolding(crate::specs::LocaleForm::with_new_region))]
fn with_new_region<'a>(fields: TagFields<'a>) -> TagFields<'a>
    ensures { field_texts result ≡ spec.with_new_region (field_texts fields.entry) }
{
    other_region(fields, new_region(fields))
}

/// Returns the region that replaces the region of the fields, or their region.
#[tactic(auto, unfolding(crate::specs::LocaleForm::new_region))]
fn new_region<'a>(fields: TagFields<'a>) -> &'a [u8]
    ensures region { result.now ≡ spec.new_region (field_texts fields.entry) }
    ensures in_class { IsTrue (is_region_field result.now) }
{
    if let Some(region) = region_replacement(fields) {
        return region;
    }
    match alias_for(region_heirs(), fields.region) {
        Some(regions) => heir(likely_region(fields), regions),
        None => fields.region,
    }
}

/// Returns the likely region of the language and the script, or the empty string.
#[tactic(auto, unfolding(crate::specs::LocaleForm::likely_region))]
fn likely_region<'a>(fields: TagFields<'a>) -> &'a [u8]
    ensures region { result.now ≡ spec.likely_region (field_texts fields.entry) }
    ensures in_class { IsTrue (is_region_field result.now) }
{
    match add_likely(language_and_script(fields)) {
        Some(most) => most.region,
        None => b"",
    }
}

/// Returns the language and the script, for the lookup of likely subtags. `und` counts as no language.
fn language_and_script<'a>(fields: TagFields<'a>) -> TagFields<'a>
    ensures { field_texts result ≡ spec.language_and_script (field_texts fields.entry) }
{
    let is_unknown = case_insensitive_eq(b"und", fields.language);
    TagFields {
        language: if is_unknown { b"" } else { fields.language },
        script: fields.script,
        region: b"",
    }
}

/// Returns the likely region if it is among these regions, and otherwise the first of them.
fn heir<'a>(likely: &'a [u8], regions: &'static str) -> &'a [u8]
    ensures { result.now ≡ spec.heir likely.now (segments regions.now) }
{
    let (first, _) = split_first(regions);
    if is_among(Some(regions), likely) {
        return likely;
    }
    first.as_bytes()
}

/// Returns the fields with the script that replaces their script, if there is one.
#[tactic(auto, unfolding(crate::specs::LocaleForm::with_new_script))]
fn with_new_script<'a>(fields: TagFields<'a>) -> TagFields<'a>
    ensures { field_texts result ≡ spec.with_new_script (field_texts fields.entry) }
{
    TagFields {
        language: fields.language,
        script: new_script(fields),
        region: fields.region,
    }
}

/// Returns the script that replaces the script of the fields, or their script.
fn new_script<'a>(fields: TagFields<'a>) -> &'a [u8]
    ensures script { result.now ≡ spec.new_script (field_texts fields.entry) }
    ensures in_class { IsTrue (is_script_field result.now) }
{
    match alias_for(script_aliases(), fields.script) {
        Some(script) => script.as_bytes(),
        None => fields.script,
    }
}

#[tactic(auto, using(crate::proofs::LocaleTables::all_rows))]
fn sign_languages() -> &'static [(&'static str, &'static str)]
    ensures { map (λ row. record { old = row.0.now; new = row.1.now }) result.now ≡ list.sign_languages }
{
    &tables::SIGN_LANGUAGES
}

#[tactic(auto, using(crate::proofs::LocaleTables::all_rows))]
fn variant_regions() -> &'static [(&'static str, &'static str)]
    ensures { map (λ row. record { old = row.0.now; new = row.1.now }) result.now ≡ list.variant_regions }
{
    &tables::VARIANT_REGIONS
}

#[tactic(auto, using(crate::proofs::LocaleTables::all_rows))]
fn region_heirs() -> &'static [(&'static str, &'static str)]
    ensures { map (λ row. record { old = row.0.now; new = row.1.now }) result.now ≡ list.region_heirs }
{
    &tables::REGION_HEIRS
}

#[tactic(auto, using(crate::proofs::LocaleTables::all_rows))]
fn script_aliases() -> &'static [(&'static str, &'static str)]
    ensures { map (λ row. record { old = row.0.now; new = row.1.now }) result.now ≡ list.script_aliases }
{
    &tables::SCRIPT_ALIASES
}
