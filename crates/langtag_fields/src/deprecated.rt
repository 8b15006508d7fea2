//! Deprecated subtags and tags (RFC 5646 section 3.1.6). They stay valid.
ghost use Rattle.std.specs.Prelude.{◌≡◌};
ghost use Rattle.langtag_scan.specs.Grammar.{list_any, are_alike};
ghost use Rattle.langtag.specs.Definitions.{lang_tag_text, primary_language_text};
ghost use Rattle.langtag.specs.Definitions.{extended_lang_tag_text, region_text, variant_text};
ghost use Rattle.langtag_fields.specs.Fields as field;

use crate::table::is_among;
use crate::tables::{
    DEPRECATED_EXTLANG_KEYS, DEPRECATED_LANGUAGE_KEYS, DEPRECATED_REGION_KEYS, DEPRECATED_TAGS,
    DEPRECATED_VARIANT_KEYS,
};
use langtag::LangTag;
use langtag_language::{ExtendedLangTag, PrimaryLanguage};
use langtag_place::{Region, Variant};
use langtag_scan::case_insensitive_eq;

/// Returns whether a language is deprecated (RFC 5646 section 3.1.6): `true` for `iw`, `false` for `he` and for any
/// language that is not registered.
///
/// ```
/// use langtag::PrimaryLanguage;
/// use langtag_registry::is_deprecated_language;
///
/// is_deprecated_language(PrimaryLanguage::new("iw")?); // true
/// is_deprecated_language(PrimaryLanguage::new("he")?); // false
/// ```
#[tactic(auto, using(langtag_scan::proofs::SubtagFacts::of_primary, crate::proofs::FieldTables::deprecated_language_keys), unfolding(crate::specs::Fields::is_deprecated_language))]
pub fn is_deprecated_language(language: PrimaryLanguage<'_>) -> bool
    ensures { result ≡ field.is_deprecated_language (primary_language_text language.entry) }
{
    is_among(&DEPRECATED_LANGUAGE_KEYS, language.as_bytes())
}

/// Returns whether an extended language is deprecated (RFC 5646 section 3.1.6): `true` for `yds`, `false` for `yue`
/// and for any extended language that is not registered.
///
/// ```
/// use langtag::ExtendedLangTag;
/// use langtag_registry::is_deprecated_extlang;
///
/// is_deprecated_extlang(ExtendedLangTag::new("yds")?); // true
/// is_deprecated_extlang(ExtendedLangTag::new("yue")?); // false
/// ```
#[tactic(auto, using(langtag_scan::proofs::SubtagFacts::of_extended, crate::proofs::FieldTables::deprecated_extlang_keys), unfolding(crate::specs::Fields::is_deprecated_extlang))]
pub fn is_deprecated_extlang(extlang: ExtendedLangTag<'_>) -> bool
    ensures { result ≡ field.is_deprecated_extlang (extended_lang_tag_text extlang.entry) }
{
    is_among(&DEPRECATED_EXTLANG_KEYS, extlang.as_bytes())
}

/// Returns whether a region is deprecated (RFC 5646 section 3.1.6): `true` for `SU`, `false` for `FR` and for any
/// region that is not registered.
///
/// ```
/// use langtag::Region;
/// use langtag_registry::is_deprecated_region;
///
/// is_deprecated_region(Region::new("SU")?); // true
/// is_deprecated_region(Region::new("FR")?); // false
/// ```
#[tactic(auto, using(langtag_scan::proofs::SubtagFacts::of_region, crate::proofs::FieldTables::deprecated_region_keys), unfolding(crate::specs::Fields::is_deprecated_region))]
pub fn is_deprecated_region(region: Region<'_>) -> bool
    ensures { result ≡ field.is_deprecated_region (region_text region.entry) }
{
    is_among(&DEPRECATED_REGION_KEYS, region.as_bytes())
}

/// Returns whether a variant is deprecated (RFC 5646 section 3.1.6): `true` for `heploc`, `false` for `rozaj` and for
/// any variant that is not registered.
///
/// ```
/// use langtag::Variant;
/// use langtag_registry::is_deprecated_variant;
///
/// is_deprecated_variant(Variant::new("heploc")?); // true
/// is_deprecated_variant(Variant::new("rozaj")?); // false
/// ```
#[tactic(auto, using(langtag_scan::proofs::SubtagFacts::of_variant, crate::proofs::FieldTables::deprecated_variant_keys), unfolding(crate::specs::Fields::is_deprecated_variant))]
pub fn is_deprecated_variant(variant: Variant<'_>) -> bool
    ensures { result ≡ field.is_deprecated_variant (variant_text variant.entry) }
{
    is_among(&DEPRECATED_VARIANT_KEYS, variant.as_bytes())
}

/// Returns whether a whole tag is deprecated (RFC 5646 section 3.1.6), as some grandfathered and redundant tags are:
/// `true` for `zh-min`, `art-lojban` and `sgn-DE`. It is `false` for `i-default`, for tags that are not registered as a
/// whole, such as `sgn-DE-x-a`, and for `iw`, which is deprecated as a language.
///
/// ```
/// use langtag::LangTag;
/// use langtag_registry::is_deprecated_tag;
///
/// is_deprecated_tag(LangTag::new("zh-min")?); // true
/// is_deprecated_tag(LangTag::new("i-default")?); // false
/// ```
pub fn is_deprecated_tag(tag: LangTag<'_>) -> bool
    ensures { result ≡ field.is_deprecated_tag (lang_tag_text tag.entry) }
{
    is_listed(&DEPRECATED_TAGS, tag.as_bytes())
}

/// Returns whether bytes equal one of these strings, ignoring case.
fn is_listed(texts: &[&str], bytes: &[u8]) -> bool
    ensures { result ≡ list_any (λ text. are_alike bytes.now text.now) texts.now }
{
    texts
        .iter()
        .any(|text| case_insensitive_eq(bytes, text.as_bytes()))
}
