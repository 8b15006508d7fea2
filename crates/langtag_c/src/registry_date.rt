//! The date of the registry (RFC 5646 section 3.1.1).
ghost use Rattle.std.specs.Prelude.{◌≡◌, ◌<◌, ◌^◌};
ghost use Rattle.langtag_registry.specs.tables.TheConstants.{FILE_DATE};
ghost use Rattle.langtag_c.specs.Answers.{digits_number};

use langtag_registry::FILE_DATE;

/// Returns the date of the IANA registry inside this library (its File-Date, RFC 5646 section 3.1.1) as one number:
/// year, month and day, so that 20250131 is 2025-01-31. A later date is a greater number.
#[tactic(auto, using(crate::proofs::DateLaws::date_fits))]
#[unsafe(no_mangle)]
pub extern "C" fn langtag_registry_date() -> u32
    ensures { result ≡ digits_number FILE_DATE.now }
{
    number_of(FILE_DATE.as_bytes())
}

/// Returns the digits of a date, read as one number.
#[tactic(auto, using(crate::proofs::DateLaws::continued_digit, crate::proofs::DateLaws::continued_other, crate::proofs::DateLaws::digit_fits), unfolding(langtag_scan::specs::Class::is_digit))]
pub(crate) fn number_of(date: &[u8]) -> u32
    requires { digits_number date.now < 2 ^ 32 }
    ensures { result ≡ digits_number date.now }
{
    let mut number = 0;
    for byte in date {
        if byte.is_ascii_digit() {
            number = number * 10 + u32::from(byte - b'0');
        }
    }
    number
}
