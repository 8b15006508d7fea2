//! The Preferred-Value of a region, a variant or a whole tag (RFC 5646 section 3.1.7).
ghost use Rattle.std.specs.Prelude.{◌≡◌, map, option_map};
ghost use Rattle.langtag.specs.Definitions.{region_text, variant_text, lang_tag_text};
ghost use Rattle.langtag_fields.specs.Entry.{value_for};
ghost use Rattle.langtag_fields.specs.Fields as field;
ghost use Rattle.langtag_fields.specs.Subtags as list;
ghost use Rattle.langtag_fields.specs.Tables.{AreEndsOf};

use crate::table::value_of;
use crate::tables::{
    PREFERRED_REGION_INDICES, PREFERRED_REGION_KEYS, PREFERRED_REGION_VALUES, PREFERRED_TAG_KEYS,
    PREFERRED_TAGS, PREFERRED_VARIANT_INDICES, PREFERRED_VARIANT_KEYS, PREFERRED_VARIANT_VALUES,
};
use langtag::LangTag;
use langtag_place::{Region, Variant};
use langtag_scan::{case_insensitive_eq, folded_number};

/// Returns the region that replaces a deprecated region (the field Preferred-Value, RFC 5646 section 3.1.7): `MM` for
/// `BU`. Returns `None` for `MM`, and for regions that are not registered.
///
/// ```
/// use langtag::Region;
/// use langtag_registry::preferred_region;
///
/// preferred_region(Region::new("BU")?).map(|region| region.as_str()); // Some("MM")
/// ```
#[tactic(auto, using(langtag_scan::proofs::SubtagFacts::of_region, crate::proofs::FieldTables::regions_table, crate::proofs::FieldTables::regions_good), unfolding(crate::specs::Fields::preferred_region))]
pub fn preferred_region(region: Region<'_>) -> Option<Region<'static>>
    ensures { option_map region_text result ≡ field.preferred_region (region_text region.entry) }
{
    let text = value_of(
        &PREFERRED_REGION_KEYS,
        &PREFERRED_REGION_INDICES,
        &PREFERRED_REGION_VALUES,
        region.as_bytes(),
    )?;
    Some(Region::from_checked(text))
}

/// Returns the variant that replaces a deprecated variant (the field Preferred-Value, RFC 5646 section 3.1.7):
/// `alalc97` for `heploc`. Returns `None` for `alalc97`, and for variants that are not registered.
///
/// ```
/// use langtag::Variant;
/// use langtag_registry::preferred_variant;
///
/// preferred_variant(Variant::new("heploc")?).map(|variant| variant.as_str()); // Some("alalc97")
/// ```
#[tactic(auto, using(langtag_scan::proofs::SubtagFacts::of_variant, crate::proofs::FieldTables::variants_table, crate::proofs::FieldTables::variants_good), unfolding(crate::specs::Fields::preferred_variant))]
pub fn preferred_variant(variant: Variant<'_>) -> Option<Variant<'static>>
    ensures { option_map variant_text result ≡ field.preferred_variant (variant_text variant.entry) }
{
    let text = value_of(
        &PREFERRED_VARIANT_KEYS,
        &PREFERRED_VARIANT_INDICES,
        &PREFERRED_VARIANT_VALUES,
        variant.as_bytes(),
    )?;
    Some(Variant::from_checked(text))
}

/// Returns the tag that replaces a whole grandfathered or redundant tag (the field Preferred-Value,
/// RFC 5646 section 3.1.7): `jbo` for `art-lojban`, `gsg` for `sgn-DE`. Returns `None` for `zh-min`, which has no
/// Preferred-Value, and for tags that are not registered as a whole, such as `sgn-DE-x-a`.
///
/// ```
/// use langtag::LangTag;
/// use langtag_registry::preferred_tag;
///
/// preferred_tag(LangTag::new("art-lojban")?).map(|tag| tag.as_str()); // Some("jbo")
/// ```
pub fn preferred_tag(tag: LangTag<'_>) -> Option<LangTag<'static>>
    ensures { option_map lang_tag_text result ≡ field.preferred_tag (lang_tag_text tag.entry) }
{
    preferred_for(tag.as_bytes())
}

/// Returns the tag that replaces a whole tag with this string.
#[tactic(auto, using(crate::proofs::WholeTags::preferred_is_tag), unfolding(crate::specs::Fields::preferred_tag))]
pub fn preferred_for(text: &[u8]) -> Option<LangTag<'static>>
    ensures { option_map lang_tag_text result ≡ field.preferred_tag text.now }
{
    Some(LangTag::from_checked(preferred_text(text)?))
}

/// Returns the string of the tag that replaces a whole tag with this string.
#[tactic(auto, using(crate::proofs::FieldTables::tag_ends, crate::proofs::FieldTables::tag_entries), unfolding(crate::specs::Fields::preferred_tag))]
pub fn preferred_text(text: &[u8]) -> Option<&'static str>
    ensures { option_map (λ value. value.now) result ≡ field.preferred_tag text.now }
{
    value_beside(&PREFERRED_TAG_KEYS, &PREFERRED_TAGS, text)
}

/// Returns each whole tag that has a Preferred-Value, and this value.
#[tactic(auto, using(crate::proofs::FieldTables::tag_entries))]
pub fn preferred_tags() -> &'static [(&'static str, &'static str)]
    ensures { map (λ pair. record { subtag = pair.0.now; value = pair.1.now }) result.now ≡ list.tag_preferred }
{
    &PREFERRED_TAGS
}

/// Finds the pair whose first string equals the bytes, ignoring case, and returns its second string. `keys` has the
/// number of the last eight bytes of each first string.
fn value_beside(
    keys: &[u64],
    table: &'static [(&'static str, &'static str)],
    bytes: &[u8],
) -> Option<&'static str>
    requires { AreEndsOf keys.now (map (λ pair. pair.0.now) table.now) }
    ensures { option_map (λ text. text.now) result
        ≡ value_for (map (λ pair. record { subtag = pair.0.now; value = pair.1.now }) table.now) bytes.now }
{
    let end = &bytes[bytes.len().saturating_sub(8)..];
    let Ok(index) = keys.binary_search(&folded_number(end)) else {
        return None;
    };
    let (text, value) = table[index];
    case_insensitive_eq(text.as_bytes(), bytes).then_some(value)
}
