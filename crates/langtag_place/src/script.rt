//! The script subtag (RFC 5646 section 2.2.3).
ghost use Rattle.std.specs.Prelude.{◌≡◌, ◌==◌, ◌&&◌, Some, IsTrue, IfOk, IfErr, is_ok, length, string_bytes};
ghost use Rattle.langtag_scan.specs.Grammar.{is_ascii_alphabetic, list_all, are_alike, is_script};

use langtag_scan::{Caseless, is_script};
use std::alloc::{AllocError, Global};
use std::fmt;
use std::fmt::Debug;
use thiserror::Error;

/// The error for a string that is not a script. It contains the string.
///
/// ```
/// use langtag_place::Script;
///
/// let error = Script::new("Lat").err();
/// error.map(|error| error.0); // Some("Lat")
/// ```
#[derive(Debug, Drop, Error)]
#[error("invalid script")]
#[error_bound(T: Debug + Drop)]
pub struct InvalidScript<T>(pub T);

/// A script subtag (RFC 5646 section 2.2.3): four letters, such as `Latn`.
///
/// Two scripts are equal if their strings differ only in the case of ASCII letters, such as `Latn` and `LATN`.
///
/// ```
/// use langtag_place::Script;
///
/// let script = Script::new("Latn")?;
/// script.as_str(); // "Latn"
/// script == Script::new("LATN")?; // true
/// ```
#[derive(Clone, Copy, Debug, PartialEq, Eq, PartialOrd, Ord, Hash)]
pub struct Script<'a> {
    text: Caseless<&'a str>,
    ghost in_class: { IsTrue (is_script text.0.now) },
}

impl<'a> Script<'a> {
    ghost use Rattle.langtag_place.specs.Compared.{ScriptsCompareByCase};
    ghost use Rattle.langtag_place.specs.Text.{script_text, script_buf_text};

    /// Parses a string as a script: `Script::new("Latn")` is `Ok`.
    ///
    /// # Errors
    ///
    /// Returns the string if it is not four letters: `Script::new("Lat")` is `Err(InvalidScript("Lat"))`.
    #[tactic(auto, using(crate::proofs::Numbers::script_numbers))]
    pub fn new(text: &'a str) -> Result<Script<'a>, InvalidScript<&'a str>>
        ensures accepts { is_ok result ≡ is_script text.now }
        ensures by_number { is_ok result ≡ ((length text.now == 4) && list_all is_ascii_alphabetic text.now) }
        ensures same_text { IfOk result (λ script. script_text script ≡ text.now) }
        ensures given_back { IfErr result (λ error. error.0 ≡ text.entry) }
    {
        if !is_script(text.as_bytes()) {
            return Err(InvalidScript(text));
        }
        Ok(Script::from_checked(text))
    }

    /// Wraps a string that is known to be a script, without checking it. `Script::from_checked(script.as_str())` is
    /// equal to `script`.
    pub fn from_checked(text: &'a str) -> Script<'a>
        requires { IsTrue (is_script text.now) }
        ensures { script_text result ≡ text.now }
    {
        Script {
            text: Caseless(text),
        }
    }

    /// Returns the string, in its original case: `Script::new("LATN")?.as_str()` is `"LATN"`.
    pub fn as_str(&self) -> &'a str
        ensures same_text { result.now ≡ script_text self.now }
        ensures in_class { IsTrue (is_script result.now) }
    {
        self.text.0
    }

    /// Returns the string as bytes: `Script::new("LATN")?.as_bytes()` is `b"LATN"`.
    pub fn as_bytes(&self) -> &'a [u8]
        ensures { result.now ≡ script_text self.now }
    {
        self.as_str().as_bytes()
    }

    /// Returns whether another string equals this string, ignoring the case of ASCII letters:
    /// `Script::new("Latn")?.eq_str("LATN")` is `true`. Comparisons and hashes also ignore case.
    #[tactic(auto, using(langtag_scan::proofs::CaseOrder::bytes_ends_first, langtag_scan::proofs::CaseLaw::alike_script))]
    pub fn eq_str(&self, other: &str) -> bool
        ensures test { result ≡ are_alike (script_text self.now) other.now }
        ensures in_class { IsTrue result → IsTrue (is_script other.now) }

        ensures compared { ScriptsCompareByCase }
        ensures cloned { (copy : Script) → ⟦<Script<'a> as Clone>⟧.is_clone self.now copy → copy ≡ self.now }
        ensures clone_succeeds { ⟦<Script<'a> as Clone>⟧.is_infallible self.now }
    {
        self.text == Caseless(other)
    }

    /// Copies the string into an owned value: `Script::new("LATN")?.try_to_owned(alloc)?.as_str()` is `"LATN"`.
    ///
    /// # Errors
    ///
    /// Returns an error if allocation fails.
    pub fn try_to_owned(&self, alloc: Global) -> Result<ScriptBuf, AllocError>
        ensures { IfOk result (λ owned. script_buf_text owned ≡ script_text self.now) }
    {
        let text = String::from_str(alloc, self.as_str())?;
        Ok(ScriptBuf {
            text: Caseless(text),
        })
    }
}

impl fmt::Display for Script<'_> {
    ghost use Rattle.langtag_place.specs.Text.{script_text};

    ghost output = { λ script. Some (script_text script) };

    fn fmt<W: fmt::Write>(&self, f: &mut fmt::Formatter<W>) -> fmt::Result {
        f.write_str(self.as_str())
    }
}

/// A script that owns its text.
///
/// ```
/// use langtag_place::Script;
///
/// let owned = Script::new("Latn")?.try_to_owned(alloc)?;
/// owned.as_script() == Script::new("LATN")?; // true
/// owned.into_string().as_str(); // "Latn"
/// ```
#[derive(Debug, Drop, PartialEq, Eq, PartialOrd, Ord, Hash)]
pub struct ScriptBuf {
    text: Caseless<String>,
    ghost in_class: { IsTrue (is_script (string_bytes text.0)) },
}

impl ScriptBuf {
    ghost use Rattle.langtag_place.specs.Compared.{ScriptBufsCompareByCase};
    ghost use Rattle.langtag_place.specs.Text.{script_text, script_buf_string, script_buf_text};

    /// Parses a `String` as a script and keeps it, without copying.
    ///
    /// # Errors
    ///
    /// Returns the same `String` if it is not four letters, such as `Lat`.
    ///
    /// ```
    /// use langtag_place::ScriptBuf;
    /// use std::str::FromStr;
    ///
    /// ScriptBuf::new(String::from_str(alloc, "Latn")?)?.as_str(); // "Latn"
    /// ScriptBuf::new(String::from_str(alloc, "Lat")?).is_err(); // true
    /// ```
    pub fn new(text: String) -> Result<ScriptBuf, InvalidScript<String>>
        ensures accepts { is_ok result ≡ is_script (string_bytes text) }
        ensures same_text { IfOk result (λ script. script_buf_text script ≡ string_bytes text) }
        ensures same_string { IfOk result (λ script. script_buf_string script ≡ text) }
        ensures given_back { IfErr result (λ error. error.0 ≡ text) }
    {
        if !is_script(text.as_bytes()) {
            return Err(InvalidScript(text));
        }
        Ok(ScriptBuf {
            text: Caseless(text),
        })
    }

    /// Borrows the script: `Script::new("LATN")?.try_to_owned(alloc)?.as_script().as_str()` is `"LATN"`.
    #[tactic(auto, using(langtag_scan::proofs::CaseOrder::bytes_ends_first))]
    pub fn as_script(&self) -> Script<'_>
        ensures same_text { script_text result ≡ script_buf_text self.now }

        ensures compared { ScriptBufsCompareByCase }
    {
        Script::from_checked(self.as_str())
    }

    /// Returns the string, in its original case: `Script::new("LATN")?.try_to_owned(alloc)?.as_str()` is `"LATN"`.
    pub fn as_str(&self) -> &str
        ensures same_text { result.now ≡ script_buf_text self.now }
        ensures in_class { IsTrue (is_script result.now) }
    {
        self.text.0.as_str()
    }

    /// Returns the `String`, without copying it: `Script::new("LATN")?.try_to_owned(alloc)?.into_string()` is `"LATN"`.
    pub fn into_string(self) -> String
        ensures same_text { string_bytes result ≡ script_buf_text self }
        ensures same_string { result ≡ script_buf_string self }
        ensures in_class { IsTrue (is_script (string_bytes result)) }
    {
        self.text.0
    }
}

impl fmt::Display for ScriptBuf {
    ghost use Rattle.langtag_place.specs.Text.{script_buf_text};

    ghost output = { λ script. Some (script_buf_text script) };

    fn fmt<W: fmt::Write>(&self, f: &mut fmt::Formatter<W>) -> fmt::Result {
        f.write_str(self.as_str())
    }
}
