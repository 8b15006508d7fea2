//! Registered extended languages, scripts, regions and variants (RFC 5646 sections 2.2.2 to 2.2.5).
ghost use Rattle.std.specs.Prelude.{◌≡◌};
ghost use Rattle.langtag.specs.Definitions.{extended_lang_tag_text, script_text, region_text, variant_text};
ghost use Rattle.langtag_fields.specs.Registered as registered;

use crate::table::is_among;
use crate::tables::{EXTLANG_KEYS, REGION_KEYS, SCRIPT_KEYS, VARIANT_KEYS};
use langtag_language::ExtendedLangTag;
use langtag_place::{Region, Script, Variant};

/// Returns whether an extended language is registered, ignoring case (RFC 5646 section 2.2.2): `true` for `yue` and
/// `YUE`, `false` for `fra`.
///
/// ```
/// use langtag::ExtendedLangTag;
/// use langtag_registry::is_registered_extlang;
///
/// is_registered_extlang(ExtendedLangTag::new("yue")?); // true
/// is_registered_extlang(ExtendedLangTag::new("fra")?); // false
/// ```
#[tactic(auto, using(langtag_scan::proofs::SubtagFacts::of_extended, crate::proofs::FieldTables::extlang_keys), unfolding(crate::specs::Registered::is_registered_extlang))]
pub fn is_registered_extlang(extlang: ExtendedLangTag<'_>) -> bool
    ensures { result ≡ registered.is_registered_extlang (extended_lang_tag_text extlang.entry) }
{
    is_among(&EXTLANG_KEYS, extlang.as_bytes())
}

/// Returns whether a script is registered, ignoring case (RFC 5646 section 2.2.3): `true` for `Latn`, `latn` and the
/// private use subtag `Qaaa`, `false` for `Abcd`.
///
/// ```
/// use langtag::Script;
/// use langtag_registry::is_registered_script;
///
/// is_registered_script(Script::new("latn")?); // true
/// is_registered_script(Script::new("Abcd")?); // false
/// ```
#[tactic(auto, using(langtag_scan::proofs::SubtagFacts::of_script, crate::proofs::FieldTables::script_keys), unfolding(crate::specs::Registered::is_registered_script))]
pub fn is_registered_script(script: Script<'_>) -> bool
    ensures { result ≡ registered.is_registered_script (script_text script.entry) }
{
    is_among(&SCRIPT_KEYS, script.as_bytes())
}

/// Returns whether a region is registered, ignoring case (RFC 5646 section 2.2.4): `true` for `FR`, `fr`, `419` and
/// the private use subtag `XA`, `false` for `FQ`.
///
/// ```
/// use langtag::Region;
/// use langtag_registry::is_registered_region;
///
/// is_registered_region(Region::new("419")?); // true
/// is_registered_region(Region::new("FQ")?); // false
/// ```
#[tactic(auto, using(langtag_scan::proofs::SubtagFacts::of_region, crate::proofs::FieldTables::region_keys), unfolding(crate::specs::Registered::is_registered_region))]
pub fn is_registered_region(region: Region<'_>) -> bool
    ensures { result ≡ registered.is_registered_region (region_text region.entry) }
{
    is_among(&REGION_KEYS, region.as_bytes())
}

/// Returns whether a variant is registered, ignoring case (RFC 5646 section 2.2.5): `true` for `rozaj`, `ROZAJ` and
/// `1996`, `false` for `1997`.
///
/// ```
/// use langtag::Variant;
/// use langtag_registry::is_registered_variant;
///
/// is_registered_variant(Variant::new("1996")?); // true
/// is_registered_variant(Variant::new("1997")?); // false
/// ```
#[tactic(auto, using(langtag_scan::proofs::SubtagFacts::of_variant, crate::proofs::FieldTables::variant_keys), unfolding(crate::specs::Registered::is_registered_variant))]
pub fn is_registered_variant(variant: Variant<'_>) -> bool
    ensures { result ≡ registered.is_registered_variant (variant_text variant.entry) }
{
    is_among(&VARIANT_KEYS, variant.as_bytes())
}
