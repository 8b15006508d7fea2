//! The fields of the registry's record for a language (RFC 5646 sections 3.1.7, 3.1.9 and 3.1.10).
ghost use Rattle.std.specs.Prelude.{◌≡◌, option_map};
ghost use Rattle.langtag.specs.Definitions.{primary_language_text, script_text};
ghost use Rattle.langtag_fields.specs.Fields as field;

use crate::table::value_of;
use crate::tables::{
    MACROLANGUAGE_INDICES, MACROLANGUAGE_KEYS, MACROLANGUAGE_VALUES, PREFERRED_LANGUAGE_INDICES,
    PREFERRED_LANGUAGE_KEYS, PREFERRED_LANGUAGE_VALUES, SUPPRESS_SCRIPT_INDICES,
    SUPPRESS_SCRIPT_KEYS, SUPPRESS_SCRIPT_VALUES,
};
use langtag_language::PrimaryLanguage;
use langtag_place::Script;

/// Returns the language that replaces a deprecated language (the field Preferred-Value, RFC 5646 section 3.1.7): `he`
/// for `iw`. Returns `None` for `he`, and for languages that are not registered.
///
/// ```
/// use langtag::PrimaryLanguage;
/// use langtag_registry::preferred_language;
///
/// preferred_language(PrimaryLanguage::new("iw")?).map(|language| language.as_str()); // Some("he")
/// ```
#[tactic(auto, using(langtag_scan::proofs::SubtagFacts::of_primary, crate::proofs::FieldTables::preferred_table, crate::proofs::FieldTables::preferred_good), unfolding(crate::specs::Fields::preferred_language))]
pub fn preferred_language(language: PrimaryLanguage<'_>) -> Option<PrimaryLanguage<'static>>
    ensures { option_map primary_language_text result ≡ field.preferred_language (primary_language_text language.entry) }
{
    let text = value_of(
        &PREFERRED_LANGUAGE_KEYS,
        &PREFERRED_LANGUAGE_INDICES,
        &PREFERRED_LANGUAGE_VALUES,
        language.as_bytes(),
    )?;
    Some(PrimaryLanguage::from_checked(text))
}

/// Returns the script that tags of this language should leave out (the field Suppress-Script, RFC 5646 section 3.1.9):
/// `Latn` for `fr`. Returns `None` for `sr`, which is written in two scripts, and for languages that are not
/// registered.
///
/// ```
/// use langtag::PrimaryLanguage;
/// use langtag_registry::suppress_script;
///
/// suppress_script(PrimaryLanguage::new("fr")?).map(|script| script.as_str()); // Some("Latn")
/// ```
#[tactic(auto, using(langtag_scan::proofs::SubtagFacts::of_primary, crate::proofs::FieldTables::suppress_table, crate::proofs::FieldTables::suppress_good), unfolding(crate::specs::Fields::suppress_script))]
pub fn suppress_script(language: PrimaryLanguage<'_>) -> Option<Script<'static>>
    ensures { option_map script_text result ≡ field.suppress_script (primary_language_text language.entry) }
{
    let text = value_of(
        &SUPPRESS_SCRIPT_KEYS,
        &SUPPRESS_SCRIPT_INDICES,
        &SUPPRESS_SCRIPT_VALUES,
        language.as_bytes(),
    )?;
    Some(Script::from_checked(text))
}

/// Returns the macrolanguage of a language (the field Macrolanguage, RFC 5646 section 3.1.10): `zh` for `yue`. Returns
/// `None` for `zh`, and for languages that are not registered.
///
/// ```
/// use langtag::PrimaryLanguage;
/// use langtag_registry::macrolanguage;
///
/// macrolanguage(PrimaryLanguage::new("yue")?).map(|language| language.as_str()); // Some("zh")
/// ```
#[tactic(auto, using(langtag_scan::proofs::SubtagFacts::of_primary, crate::proofs::FieldTables::macro_table, crate::proofs::FieldTables::macro_good), unfolding(crate::specs::Fields::macrolanguage))]
pub fn macrolanguage(language: PrimaryLanguage<'_>) -> Option<PrimaryLanguage<'static>>
    ensures { option_map primary_language_text result ≡ field.macrolanguage (primary_language_text language.entry) }
{
    let text = value_of(
        &MACROLANGUAGE_KEYS,
        &MACROLANGUAGE_INDICES,
        &MACROLANGUAGE_VALUES,
        language.as_bytes(),
    )?;
    Some(PrimaryLanguage::from_checked(text))
}
