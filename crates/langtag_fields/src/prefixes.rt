//! Which strings an extended language and a variant should follow (RFC 5646 section 3.1.8).
ghost use Rattle.std.specs.Prelude.{◌≡◌, IsTrue, map, option_map};
ghost use Rattle.langtag_scan.specs.Grammar.{folded_number, is_extended};
ghost use Rattle.langtag.specs.Definitions.{primary_language_text, extended_lang_tag_text};
ghost use Rattle.langtag_fields.specs.Fields as field;
ghost use Rattle.langtag_fields.specs.Subtags as list;

use crate::table::value_of;
use crate::tables::{
    EXTLANG_PREFIX_INDICES, EXTLANG_PREFIX_KEYS, EXTLANG_PREFIX_VALUES, VARIANT_PREFIXES,
};
use langtag_language::{ExtendedLangTag, PrimaryLanguage};
use langtag_scan::case_insensitive_eq;

/// Returns the language that an extended language should follow (the field Prefix, RFC 5646 section 3.1.8): `zh` for
/// `yue`. Returns `None` for extended languages that are not registered. A tag with another language, such as `de-yue`,
/// may still be valid.
///
/// ```
/// use langtag::ExtendedLangTag;
/// use langtag_registry::extlang_prefix;
///
/// extlang_prefix(ExtendedLangTag::new("yue")?).map(|language| language.as_str()); // Some("zh")
/// ```
#[tactic(auto, using(langtag_text::proofs::Letters::extended_primary))]
pub fn extlang_prefix(extlang: ExtendedLangTag<'_>) -> Option<PrimaryLanguage<'static>>
    ensures { option_map primary_language_text result ≡ field.extlang_prefix (extended_lang_tag_text extlang.entry) }
{
    prefix_of_language(PrimaryLanguage::from_checked(extlang.as_str()))
}

/// Returns the prefix of a language that is also an extended language: `zh` for the language `yue`, `None` for `fr`.
#[tactic(auto, using(langtag_scan::proofs::SubtagFacts::of_primary, crate::proofs::FieldTables::prefix_table, crate::proofs::FieldTables::prefix_good), unfolding(crate::specs::Fields::extlang_prefix))]
pub fn prefix_of_language(language: PrimaryLanguage<'_>) -> Option<PrimaryLanguage<'static>>
    ensures { option_map primary_language_text result ≡ field.extlang_prefix (primary_language_text language.entry) }
{
    let text = value_of(
        &EXTLANG_PREFIX_KEYS,
        &EXTLANG_PREFIX_INDICES,
        &EXTLANG_PREFIX_VALUES,
        language.as_bytes(),
    )?;
    Some(PrimaryLanguage::from_checked(text))
}

/// Returns whether an extended language is registered for a language: `yue` is for `zh`. Case is ignored.
#[tactic(auto, using(langtag_scan::proofs::SubtagFacts::of_extended, crate::proofs::FieldTables::prefix_table), unfolding(crate::specs::Fields::extlang_prefix))]
pub fn is_prefix_of(language: &[u8], extlang: &[u8]) -> bool
    requires { IsTrue (is_extended extlang.now) }
    ensures { result ≡ field.is_prefix_of language.now extlang.now }
{
    match value_of(
        &EXTLANG_PREFIX_KEYS,
        &EXTLANG_PREFIX_INDICES,
        &EXTLANG_PREFIX_VALUES,
        extlang,
    ) {
        Some(prefix) => case_insensitive_eq(prefix.as_bytes(), language),
        None => false,
    }
}

/// Returns the number of each variant that should follow a prefix, and the prefix; a variant may have several.
pub fn variant_prefixes() -> &'static [(u64, &'static str)]
    ensures numbers { map (λ pair. pair.0) result.now ≡ map (λ entry. folded_number entry.subtag) list.variant_prefixes }
    ensures values { map (λ pair. pair.1.now) result.now ≡ map (λ entry. entry.value) list.variant_prefixes }
{
    &VARIANT_PREFIXES
}
