//! An iterator over the attributes of a tag.
ghost use Rattle.std.specs.Prelude.{◌≡◌, ◌<◌, ◌^◌, [], drop, length, ⊤};
ghost use Rattle.langtag_scan.specs.Grammar.{YieldsFirstRef, item_count, subtags};
ghost use Rattle.langtag_keyword.specs.Keywords as spec;

use langtag::Subtags;
use langtag_keyword::is_earlier_subtag;
use std::alloc::AllocError;

/// The iterator that `attributes` returns: the attributes of the extension `u`, in the order of the tag, each once.
///
/// ```
/// use langtag::LangTag;
/// use langtag_unicode::attributes;
///
/// attributes(LangTag::new("de-u-attr-foo-ATTR-ca-buddhist")?).count(); // 2
/// ```
#[derive(Debug, Drop)]
pub struct AttributesIter<'a> {
    text: &'a str,
    passed: usize,
    rest: Subtags<'a>,
    ghost in_step: { rest ≡ drop passed (subtags text.now) },
    ghost few: { length (subtags text.now) < 2 ^ 64 },
}

impl<'a> AttributesIter<'a> {
    ghost use Rattle.langtag_unicode.specs.Text.{attributes_left};

    /// Returns an iterator over the distinct subtags of a string.
    #[tactic(auto, using(langtag_keyword::proofs::SubtagTexts::few_subtags))]
    pub(crate) fn new(text: &'a str) -> Self
        ensures { attributes_left result ≡ spec.each_once_after [] (subtags text.now) }
    {
        AttributesIter {
            text,
            passed: 0,
            rest: Subtags::new(text),
        }
    }
}

impl Clone for AttributesIter<'_> {
    ghost use Rattle.langtag_unicode.specs.Text.{attributes_left};

    ghost is_clone = { λ walk copy. attributes_left copy ≡ attributes_left walk };

    ghost is_infallible = { λ _. ⊤ };

    fn clone(&self) -> Result<Self, AllocError> {
        let rest = self.rest.clone()?;
        Ok(AttributesIter {
            text: self.text,
            passed: self.passed,
            rest,
        })
    }
}

impl<'a> Iterator for AttributesIter<'a> {
    ghost use Rattle.langtag_unicode.specs.Text.{attributes_left};

    type Item = &'a str;

    ghost next_gives = { YieldsFirstRef attributes_left };

    ghost remaining = { item_count attributes_left };

    fn next(&mut self) -> Option<&'a str> {
        while let Some(attribute) = self.rest.next() {
            let is_repeated = is_earlier_subtag(self.text, self.passed, attribute);
            self.passed += 1;
            if !is_repeated {
                return Some(attribute);
            }
        }
        None
    }
}
