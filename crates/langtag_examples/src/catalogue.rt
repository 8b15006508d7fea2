//! Strings by language tag.
ghost use Rattle.std.specs.Prelude.{◌≡◌, ℕ, List, Some, None, OnOk, OnErr, IfOk, IsTrue, false};
ghost use Rattle.std.specs.Option.{option_map};
ghost use Rattle.std.specs.String.{string_bytes};
ghost use Rattle.langtag.specs.Definitions.{are_alike, IsTag, lang_tag_buf_text};
ghost use Rattle.langtag.specs.declared.lang_tag_buf.LangTagBuf.{LangTagBuf};

use langtag::LangTagBuf;
use std::alloc::{AllocError, Global};
use std::collections::HashMap;

/// Strings by language tag. A string is found by its tag, ignoring case.
///
/// After `Salut` was inserted for `fr`, `find(alloc, "FR")` is `Ok(Some("Salut"))`.
#[derive(Drop)]
pub struct Catalogue {
    texts: HashMap<LangTagBuf, String>,
}

impl Catalogue {
    ghost use Rattle.langtag_examples.specs.Catalogue.{text_for};

    /// Returns a catalogue without strings: `Catalogue::new(alloc).find(alloc, "fr")` is `Ok(None)`.
    pub fn new(alloc: Global) -> Self
        ensures { (tag : List ℕ) → text_for result tag ≡ None }
    {
        Catalogue {
            texts: HashMap::new(alloc),
        }
    }

    /// Inserts a string for a tag, and replaces any older text: `Hoi` for `DE-ch` replaces `Grüezi` for `de-CH`.
    ///
    /// # Errors
    ///
    /// Returns an error if allocation fails. The catalogue is then unchanged.
    pub fn put(&mut self, tag: LangTagBuf, text: String) -> Result<(), AllocError>
        ensures put { OnOk result ((other : List ℕ) → IsTrue (are_alike (lang_tag_buf_text tag) other) →
            text_for self.new other ≡ Some (string_bytes text)) }
        ensures others { OnOk result ((other : LangTagBuf) → are_alike (lang_tag_buf_text tag) (lang_tag_buf_text other) ≡ false →
            text_for self.new (lang_tag_buf_text other) ≡ text_for self.old (lang_tag_buf_text other)) }
        ensures unchanged { OnErr result ((other : List ℕ) → text_for self.new other ≡ text_for self.old other) }
    {
        self.texts.insert(tag, text)?;
        Ok(())
    }

    /// Returns the string of a tag: the tag `FR` finds the string of `fr`, but `fr-CH` does not.
    pub fn get(&self, tag: &LangTagBuf) -> Option<&str>
        ensures { option_map (λ text. text.now) result ≡ text_for self.now (lang_tag_buf_text tag.now) }
    {
        let text = self.texts.get(tag)?;
        Some(text.as_str())
    }

    /// Returns the string of a tag, which is given as a string, ignoring case. Also returns `None` if the string is not
    /// a tag, such as `de_CH`.
    ///
    /// # Errors
    ///
    /// Returns an error if allocation fails for the owned tag that the map needs as a key.
    pub fn find(&self, alloc: Global, tag: &str) -> Result<Option<&str>, AllocError>
        ensures found { IfOk result (λ text. IsTag tag.now → option_map (λ text. text.now) text ≡ text_for self.now tag.now) }
        ensures none { IfOk result (λ text. (IsTag tag.now → ⊥) → text ≡ None) }
    {
        let Ok(tag) = LangTagBuf::new(String::from_str(alloc, tag)?) else {
            return Ok(None);
        };
        Ok(self.get(&tag))
    }
}
