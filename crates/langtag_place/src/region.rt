//! The region subtag (RFC 5646 section 2.2.4).
ghost use Rattle.std.specs.Prelude.{◌≡◌, ◌==◌, ◌&&◌, ◌||◌, Some, IsTrue, IfOk, IfErr, is_ok, length, string_bytes};
ghost use Rattle.langtag_scan.specs.Grammar.{is_ascii_alphabetic, is_ascii_digit, list_all, are_alike, is_region};

use langtag_scan::{Caseless, is_region};
use std::alloc::{AllocError, Global};
use std::fmt;
use std::fmt::Debug;
use thiserror::Error;

/// The error for a string that is not a region. It contains the string.
///
/// ```
/// use langtag_place::Region;
///
/// let error = Region::new("fra").err();
/// error.map(|error| error.0); // Some("fra")
/// ```
#[derive(Debug, Drop, Error)]
#[error("invalid region")]
#[error_bound(T: Debug + Drop)]
pub struct InvalidRegion<T>(pub T);

/// A region subtag (RFC 5646 section 2.2.4): two letters, such as `FR`, or three digits, such as `419`.
///
/// Two regions are equal if their strings differ only in the case of ASCII letters, such as `fr` and `FR`.
///
/// ```
/// use langtag_place::Region;
///
/// let region = Region::new("fr")?;
/// region.as_str(); // "fr"
/// region == Region::new("FR")?; // true
/// ```
#[derive(Clone, Copy, Debug, PartialEq, Eq, PartialOrd, Ord, Hash)]
pub struct Region<'a> {
    text: Caseless<&'a str>,
    ghost in_class: { IsTrue (is_region text.0.now) },
}

impl<'a> Region<'a> {
    ghost use Rattle.langtag_place.specs.Compared.{RegionsCompareByCase};
    ghost use Rattle.langtag_place.specs.Text.{region_text, region_buf_text};

    /// Parses a string as a region: `Region::new("fr")` is `Ok`.
    ///
    /// # Errors
    ///
    /// Returns the string if it is neither two letters nor three digits: `Region::new("FR1")` is
    /// `Err(InvalidRegion("FR1"))`.
    #[tactic(auto, using(crate::proofs::Numbers::region_numbers))]
    pub fn new(text: &'a str) -> Result<Region<'a>, InvalidRegion<&'a str>>
        ensures accepts { is_ok result ≡ is_region text.now }
        ensures by_number { is_ok result ≡
            (((length text.now == 2) && list_all is_ascii_alphabetic text.now)
            || ((length text.now == 3) && list_all is_ascii_digit text.now)) }
        ensures same_text { IfOk result (λ region. region_text region ≡ text.now) }
        ensures given_back { IfErr result (λ error. error.0 ≡ text.entry) }
    {
        if !is_region(text.as_bytes()) {
            return Err(InvalidRegion(text));
        }
        Ok(Region::from_checked(text))
    }

    /// Wraps a string that is known to be a region, without checking it. `Region::from_checked(region.as_str())` is
    /// equal to `region`.
    pub fn from_checked(text: &'a str) -> Region<'a>
        requires { IsTrue (is_region text.now) }
        ensures { region_text result ≡ text.now }
    {
        Region {
            text: Caseless(text),
        }
    }

    /// Returns the string, in its original case: `Region::new("FR")?.as_str()` is `"FR"`.
    pub fn as_str(&self) -> &'a str
        ensures same_text { result.now ≡ region_text self.now }
        ensures in_class { IsTrue (is_region result.now) }
    {
        self.text.0
    }

    /// Returns the string as bytes: `Region::new("FR")?.as_bytes()` is `b"FR"`.
    pub fn as_bytes(&self) -> &'a [u8]
        ensures { result.now ≡ region_text self.now }
    {
        self.as_str().as_bytes()
    }

    /// Returns whether another string equals this string, ignoring the case of ASCII letters:
    /// `Region::new("fr")?.eq_str("FR")` is `true`. Comparisons and hashes also ignore case.
    #[tactic(auto, using(langtag_scan::proofs::CaseOrder::bytes_ends_first, langtag_scan::proofs::CaseLaw::alike_region))]
    pub fn eq_str(&self, other: &str) -> bool
        ensures test { result ≡ are_alike (region_text self.now) other.now }
        ensures in_class { IsTrue result → IsTrue (is_region other.now) }

        ensures compared { RegionsCompareByCase }
        ensures cloned { (copy : Region) → ⟦<Region<'a> as Clone>⟧.is_clone self.now copy → copy ≡ self.now }
        ensures clone_succeeds { ⟦<Region<'a> as Clone>⟧.is_infallible self.now }
    {
        self.text == Caseless(other)
    }

    /// Copies the string into an owned value: `Region::new("FR")?.try_to_owned(alloc)?.as_str()` is `"FR"`.
    ///
    /// # Errors
    ///
    /// Returns an error if allocation fails.
    pub fn try_to_owned(&self, alloc: Global) -> Result<RegionBuf, AllocError>
        ensures { IfOk result (λ owned. region_buf_text owned ≡ region_text self.now) }
    {
        let text = String::from_str(alloc, self.as_str())?;
        Ok(RegionBuf {
            text: Caseless(text),
        })
    }
}

impl fmt::Display for Region<'_> {
    ghost use Rattle.langtag_place.specs.Text.{region_text};

    ghost output = { λ region. Some (region_text region) };

    fn fmt<W: fmt::Write>(&self, f: &mut fmt::Formatter<W>) -> fmt::Result {
        f.write_str(self.as_str())
    }
}

/// A region that owns its text.
///
/// ```
/// use langtag_place::Region;
///
/// let owned = Region::new("fr")?.try_to_owned(alloc)?;
/// owned.as_region() == Region::new("FR")?; // true
/// owned.into_string().as_str(); // "fr"
/// ```
#[derive(Debug, Drop, PartialEq, Eq, PartialOrd, Ord, Hash)]
pub struct RegionBuf {
    text: Caseless<String>,
    ghost in_class: { IsTrue (is_region (string_bytes text.0)) },
}

impl RegionBuf {
    ghost use Rattle.langtag_place.specs.Compared.{RegionBufsCompareByCase};
    ghost use Rattle.langtag_place.specs.Text.{region_text, region_buf_string, region_buf_text};

    /// Parses a `String` as a region and keeps it, without copying.
    ///
    /// # Errors
    ///
    /// Returns the same `String` if it is neither two letters nor three digits, such as `FR1`.
    ///
    /// ```
    /// use langtag_place::RegionBuf;
    /// use std::str::FromStr;
    ///
    /// RegionBuf::new(String::from_str(alloc, "fr")?)?.as_str(); // "fr"
    /// RegionBuf::new(String::from_str(alloc, "FR1")?).is_err(); // true
    /// ```
    pub fn new(text: String) -> Result<RegionBuf, InvalidRegion<String>>
        ensures accepts { is_ok result ≡ is_region (string_bytes text) }
        ensures same_text { IfOk result (λ region. region_buf_text region ≡ string_bytes text) }
        ensures same_string { IfOk result (λ region. region_buf_string region ≡ text) }
        ensures given_back { IfErr result (λ error. error.0 ≡ text) }
    {
        if !is_region(text.as_bytes()) {
            return Err(InvalidRegion(text));
        }
        Ok(RegionBuf {
            text: Caseless(text),
        })
    }

    /// Borrows the region: `Region::new("FR")?.try_to_owned(alloc)?.as_region().as_str()` is `"FR"`.
    #[tactic(auto, using(langtag_scan::proofs::CaseOrder::bytes_ends_first))]
    pub fn as_region(&self) -> Region<'_>
        ensures same_text { region_text result ≡ region_buf_text self.now }

        ensures compared { RegionBufsCompareByCase }
    {
        Region::from_checked(self.as_str())
    }

    /// Returns the string, in its original case: `Region::new("FR")?.try_to_owned(alloc)?.as_str()` is `"FR"`.
    pub fn as_str(&self) -> &str
        ensures same_text { result.now ≡ region_buf_text self.now }
        ensures in_class { IsTrue (is_region result.now) }
    {
        self.text.0.as_str()
    }

    /// Returns the `String`, without copying it: `Region::new("FR")?.try_to_owned(alloc)?.into_string()` is `"FR"`.
    pub fn into_string(self) -> String
        ensures same_text { string_bytes result ≡ region_buf_text self }
        ensures same_string { result ≡ region_buf_string self }
        ensures in_class { IsTrue (is_region (string_bytes result)) }
    {
        self.text.0
    }
}

impl fmt::Display for RegionBuf {
    ghost use Rattle.langtag_place.specs.Text.{region_buf_text};

    ghost output = { λ region. Some (region_buf_text region) };

    fn fmt<W: fmt::Write>(&self, f: &mut fmt::Formatter<W>) -> fmt::Result {
        f.write_str(self.as_str())
    }
}
