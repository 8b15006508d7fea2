//! Why an Accept-Language header was refused.
ghost use Rattle.std.specs.Prelude.{◌≡◌};
ghost use Rattle.langtag_match.specs.declared.accept_language_error.AcceptLanguageError.TheVariants.{Memory};

use std::alloc::AllocError;
use std::fmt;
use thiserror::Error;

/// The part of an element that is malformed: the language range in `de-`, the weight in `de;q=2`. If both are
/// malformed, the value is `Range`.
///
/// ```
/// use langtag_match::ElementPart;
///
/// assert_eq!(format!("{}", ElementPart::Range), "language range");
/// ```
#[derive(Debug, Drop)]
pub enum ElementPart {
    /// The string before the `;`, or the whole element if it has no `;`, is not a basic language range.
    Range,
    /// The string after the `;` is not a weight.
    Weight,
}

impl fmt::Display for ElementPart {
    fn fmt<W: fmt::Write>(&self, f: &mut fmt::Formatter<W>) -> fmt::Result {
        f.write_str(match self {
            ElementPart::Range => "language range",
            ElementPart::Weight => "weight",
        })
    }
}

/// The error for an Accept-Language header. For `de, *-CH` it is a `BadElement` with the index 1, the offset 4 and
/// [`ElementPart::Range`].
///
/// ```
/// use langtag_match::{AcceptLanguage, AcceptLanguageError};
///
/// let error = AcceptLanguage::new(alloc, "de, *-CH").err();
/// matches!(error, Some(AcceptLanguageError::BadElement { index: 1, offset: 4, .. })); // true
/// ```
#[derive(Debug, Drop, Error)]
pub enum AcceptLanguageError<'a> {
    /// The first malformed element.
    #[error("element {index} has a bad {part}")]
    BadElement {
        /// The header.
        header: &'a str,
        /// The index of the element, which is the number of commas before it.
        index: usize,
        /// The offset of the first byte of the element, after the spaces and tabs before it.
        offset: usize,
        /// The part that is malformed.
        part: ElementPart,
    },
    /// Allocation failed for the list of ranges.
    #[error("out of memory")]
    Memory(AllocError),
}

impl From<AllocError> for AcceptLanguageError<'_> {
    ghost from_gives = { λ error refusal. refusal ≡ Memory error };

    fn from(error: AllocError) -> Self {
        AcceptLanguageError::Memory(error)
    }
}
