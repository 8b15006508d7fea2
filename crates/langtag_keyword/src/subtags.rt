//! The subtags of an extension, as one string that is read from its start.
ghost use Rattle.std.specs.Prelude.{◌≡◌, ◌∷◌, take, option_map};
ghost use Rattle.langtag_scan.specs.Grammar.{AllByRecursion, list_any, are_alike, join};
ghost use Rattle.langtag_scan.specs.Grammar.{segments, segments_left, subtags, IsSubtag};
ghost use Rattle.langtag_keyword.specs.Keys.{length_with_hyphens, opens_keyword};
ghost use Rattle.langtag_keyword.specs.Keywords as spec;
ghost use Rattle.langtag_keyword.specs.Transform.{some_text};

use crate::keys::Keys;
use langtag_scan::{Subtags, case_insensitive_eq, segment_end};

/// Returns a string, or `None` if it is empty and so has no subtags.
pub fn nonempty(text: &str) -> Option<&str>
    ensures same_text { option_map (λ t. t.now) result ≡ some_text text.now }
    ensures segments { segments_left result ≡ subtags text.now }
{
    if text.is_empty() {
        return None;
    }
    Some(text)
}

/// Returns the first subtag of a string and, if there are more subtags, the rest of the string after the hyphen.
pub fn split_first(text: &str) -> (&str, Option<&str>)
    ensures { segments text.now ≡ result.0.now ∷ segments_left result.1 }
{
    let end = segment_end(text.as_bytes(), 0);
    if end == text.len() {
        return (text, None);
    }
    (&text[..end], Some(&text[end + 1..]))
}

/// Returns the string before the first key.
#[tactic(auto, using(crate::proofs::SubtagTexts::cut_before_key))]
pub fn before_key<'a>(rest: Option<&'a str>, keys: Keys) -> &'a str
    ensures { result.now ≡ join (spec.before_key (opens_keyword keys) (segments_left rest.entry)) }
{
    match rest {
        Some(text) => cut_before_key(text, keys),
        None => "",
    }
}

/// Returns the subtags before the first key of a string, if there are any.
pub fn preceding(text: &str, keys: Keys) -> Option<&str>
    requires { AllByRecursion IsSubtag (subtags text.now) }
    ensures { segments_left result ≡ spec.before_key (opens_keyword keys) (subtags text.now) }
{
    nonempty(before_key(nonempty(text), keys))
}

/// Returns the string before the first key of a string.
#[tactic(auto, using(crate::proofs::SubtagTexts::cut_before_key))]
fn cut_before_key(text: &str, keys: Keys) -> &str
    ensures { result.now ≡ join (spec.before_key (opens_keyword keys) (subtags text.now)) }
{
    let len = len_before_key(text, keys);
    &text[..len.saturating_sub(1)]
}

/// Returns the number of bytes that the subtags before the first key take, each with a hyphen after it.
#[tactic(auto, using(crate::proofs::SubtagTexts::counted_before_key))]
fn len_before_key(text: &str, keys: Keys) -> usize
    ensures { result ≡ length_with_hyphens (spec.before_key (opens_keyword keys) (subtags text.now)) }
{
    let mut len = 0;
    for subtag in Subtags::new(text) {
        if keys.has(subtag.as_bytes()) {
            return len;
        }
        len += subtag.len() + 1;
    }
    len
}

/// Returns whether a subtag equals one of the first `count` subtags of a string, ignoring case.
pub fn is_earlier_subtag(text: &str, count: usize, subtag: &str) -> bool
    ensures { result ≡ list_any (are_alike subtag.now) (take count (subtags text.now)) }
{
    Subtags::new(text).take(count).any(|earlier| case_insensitive_eq(
        subtag.as_bytes(),
        earlier.as_bytes(),
    ))
}

/// Returns the value of a key among subtags.
pub fn value_in<'a>(text: &'a str, keys: Keys, key: &[u8]) -> Option<&'a str>
    ensures { option_map (λ v. v.now) result ≡ option_map join (spec.value_of (opens_keyword keys) key.now (subtags text.now)) }
{
    let mut rest = nonempty(text);
    while let Some(text) = rest {
        let (subtag, after) = split_first(text);
        if keys.has(subtag.as_bytes()) && case_insensitive_eq(subtag.as_bytes(), key) {
            return Some(before_key(after, keys));
        }
        rest = after;
    }
    None
}
