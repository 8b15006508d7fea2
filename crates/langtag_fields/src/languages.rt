//! Registered languages (RFC 5646 section 2.2.1).
ghost use Rattle.std.specs.Prelude.{◌≡◌, ◌<◌};
ghost use Rattle.langtag.specs.Definitions.{primary_language_text};
ghost use Rattle.langtag_fields.specs.Registered as registered;
ghost use Rattle.langtag_fields.specs.Tables.{language_bit};

use crate::tables::LANGUAGE_BITS;
use langtag_language::PrimaryLanguage;
use langtag_text::letter_number;

/// Returns whether a language is registered, ignoring case (RFC 5646 section 2.2.1): `true` for `fr`, `FR` and the
/// private use subtag `qaa`, `false` for `qt`.
///
/// ```
/// use langtag::PrimaryLanguage;
/// use langtag_registry::is_registered_language;
///
/// is_registered_language(PrimaryLanguage::new("FR")?); // true
/// is_registered_language(PrimaryLanguage::new("qt")?); // false
/// ```
#[tactic(auto, using(crate::proofs::Values::long_language, crate::proofs::Values::language_from_bit, langtag_text::proofs::Letters::primary_letters))]
pub fn is_registered_language(language: PrimaryLanguage<'_>) -> bool
    ensures { result ≡ registered.is_registered_language (primary_language_text language.entry) }
{
    let bytes = language.as_bytes();
    if bytes.len() > 3 {
        return false;
    }
    is_set(letter_number(bytes) - 27)
}

/// Returns whether the bit at an index of the table is set.
#[tactic(auto, using(crate::proofs::Values::language_bit_at))]
fn is_set(index: usize) -> bool
    requires { index < 18304 }
    ensures { result ≡ language_bit index }
{
    (LANGUAGE_BITS[index / 64] >> (index % 64)) % 2 == 1
}
