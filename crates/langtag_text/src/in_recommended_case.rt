//! A string that is displayed in its recommended case.
ghost use Rattle.std.specs.Prelude.{◌≡◌, Some, IsAscii};
ghost use Rattle.langtag_text.specs.RecommendedCase.{recommended_text};

use crate::recommended_bytes::RecommendedBytes;
use crate::recommended_case::is_in_recommended_case;
use std::fmt;

/// An ASCII text that is displayed in the case that RFC 5646 section 2.1.1 recommends for tags: `MN-cYRL-mn` is
/// displayed as `mn-Cyrl-MN`.
///
/// It does not allocate. A string that is already in its recommended case is written in one call, and any other string
/// byte by byte.
///
/// ```
/// use langtag::LangTag;
///
/// let tag = LangTag::new("MN-cYRL-mn")?;
/// assert_eq!(format!("{}", tag.in_recommended_case()), "mn-Cyrl-MN");
/// ```
#[derive(Clone, Copy, Debug)]
pub struct InRecommendedCase<'a> {
    text: &'a str,
    ghost ascii: { IsAscii text.now },
}

impl<'a> InRecommendedCase<'a> {
    ghost use Rattle.langtag_text.specs.Text.{in_recommended_case_text};

    /// Returns a value that displays an ASCII text in its recommended case.
    pub fn from_checked(text: &'a str) -> Self
        requires { IsAscii text.now }
        ensures shown { in_recommended_case_text result ≡ recommended_text text.now }

        ensures clone_succeeds { (shown : InRecommendedCase) → ⟦<InRecommendedCase<'a> as Clone>⟧.is_infallible shown }
        ensures cloned { (shown copy : InRecommendedCase) → ⟦<InRecommendedCase<'a> as Clone>⟧.is_clone shown copy
            → copy ≡ shown }
    {
        InRecommendedCase { text }
    }
}

impl fmt::Display for InRecommendedCase<'_> {
    ghost use Rattle.langtag_text.specs.Text.{in_recommended_case_text};

    ghost output = { λ shown. Some (in_recommended_case_text shown) };

    fn fmt<W: fmt::Write>(&self, f: &mut fmt::Formatter<W>) -> fmt::Result {
        let bytes = self.text.as_bytes();
        if is_in_recommended_case(bytes) {
            return f.write_str(self.text);
        }
        for byte in RecommendedBytes::new(bytes) {
            f.write_char(char::from(byte))?;
        }
        Ok(())
    }
}
