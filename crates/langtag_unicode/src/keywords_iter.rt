//! An iterator over the keywords of a tag.
ghost use Rattle.std.specs.Prelude.{◌≡◌, IsTrue, ⊤};
ghost use Rattle.langtag_scan.specs.Grammar.{YieldsFirstBy, item_count, segments_left, subtags};
ghost use Rattle.langtag.specs.Definitions.{are_extension_subtags};
ghost use Rattle.langtag_keyword.specs.Keys.{opens_keyword};
ghost use Rattle.langtag_keyword.specs.Keywords as spec;

use crate::unicode_extension::KeyValue;
use langtag_keyword::{KeySet, Keys, before_key, nonempty, split_first};
use std::alloc::AllocError;

/// An iterator over the keywords of the extension `u`, or the fields of the extension `t`, in the order of the tag.
///
/// Each key is returned once, with its first value.
///
/// ```
/// use langtag::LangTag;
/// use langtag_unicode::keywords;
///
/// keywords(LangTag::new("de-u-kn-ca-buddhist-kn-false")?).count(); // 2
/// ```
#[derive(Debug, Drop)]
pub struct KeywordsIter<'a> {
    keys: Keys,
    met: KeySet,
    rest: Option<&'a str>,
    ghost in_class: { IsTrue (are_extension_subtags (segments_left rest)) },
}

impl<'a> KeywordsIter<'a> {
    ghost use Rattle.langtag_unicode.specs.Text.{keywords_left};

    /// Returns an iterator over the keywords among the subtags of a string.
    #[tactic(auto, using(langtag_keyword::proofs::KeySetLaws::keywords_left))]
    pub(crate) fn new(text: &'a str, keys: Keys) -> Self
        requires { IsTrue (are_extension_subtags (subtags text.now)) }
        ensures { keywords_left result ≡ spec.keywords_of (opens_keyword keys) (subtags text.now) }
    {
        KeywordsIter {
            keys,
            met: KeySet::new(),
            rest: nonempty(text),
        }
    }
}

impl Clone for KeywordsIter<'_> {
    ghost use Rattle.langtag_unicode.specs.Text.{keywords_left};

    ghost is_clone = { λ walk copy. keywords_left copy ≡ keywords_left walk };

    ghost is_infallible = { λ _. ⊤ };

    fn clone(&self) -> Result<Self, AllocError> {
        Ok(KeywordsIter {
            keys: self.keys,
            met: self.met,
            rest: self.rest,
        })
    }
}

impl<'a> Iterator for KeywordsIter<'a> {
    ghost use Rattle.langtag_unicode.specs.Text.{key_value_texts, keywords_left};

    type Item = KeyValue<'a>;

    ghost next_gives = { YieldsFirstBy key_value_texts keywords_left };

    ghost remaining = { item_count keywords_left };

    fn next(&mut self) -> Option<KeyValue<'a>> {
        while let Some(text) = self.rest {
            let (key, rest) = split_first(text);
            let is_new = self.met.insert(key.as_bytes());
            self.rest = rest;
            if self.keys.has(key.as_bytes()) && is_new {
                let value = before_key(rest, self.keys);
                return Some(KeyValue { key, value });
            }
        }
        None
    }
}
