//! Where the subtags of an extension are in a tag (RFC 5646 section 2.2.6).
ghost use Rattle.std.specs.Prelude.{◌≡◌, ◌∷◌, ◌+◌, ◌-◌, ◌<◌, List, [], None, MatchOption, IfSome, IsTrue};
ghost use Rattle.std.specs.Prelude.{drop, length, option_map, take};
ghost use Rattle.langtag_scan.specs.Grammar.{option_map_or, extensions_part, EachRecord, Extension, join, IsNormal};
ghost use Rattle.langtag_scan.specs.Grammar.{after_first, ends_of};
ghost use Rattle.langtag_extension.specs.Decided.{opens_alike};
ghost use Rattle.langtag_extension.specs.ExtensionTexts.{extension_texts};
ghost use Rattle.langtag.specs.Definitions.{PartOf, IsExtensions, SpellsExtensions, find_extension};
ghost use Rattle.langtag_keyword.specs.Keys.{length_with_hyphens, opens_keyword};
ghost use Rattle.langtag_keyword.specs.Keywords as spec;
ghost use Rattle.langtag_c.specs.Keywords.{HasSubtags, IsEnd, after_key, keywords_from, subtags_in};
ghost use Rattle.langtag_c.specs.Spans.{IsWithin, end_of, span_text};

use crate::span::Span;
use crate::tag::normal_tag_of;
use langtag_extension::first_extension_end;
use langtag_keyword::{KeySet, Keys};
use langtag_scan::{case_insensitive_eq, into_smallcase, segment_end};

/// Where a key and its value are.
#[derive(Drop)]
pub(crate) struct KeyPlace {
    pub key: Span,
    pub value: Span,
}

/// Returns the subtags of the first extension with a singleton, or an empty span if there is none.
pub(crate) fn extension_subtags(bytes: &[u8], singleton: u8) -> Span
    ensures subtags { PartOf bytes.now (spec.subtags_of singleton) [] (subtags_in bytes.now result) }
    ensures some { HasSubtags bytes.now result }
    ensures end { 0 < result.len → EachRecord bytes.now (λ r. IsEnd singleton r (end_of result)) }
{
    let Some(extensions) = extensions_of(bytes) else {
        return Span { start: 0, len: 0 };
    };
    find_extension(bytes, extensions, singleton)
}

/// Returns the extensions, if the bytes are a normal tag.
fn extensions_of(bytes: &[u8]) -> Option<Span>
    ensures none { result ≡ None → IsNormal bytes.now → ⊥ }
    ensures normal { IfSome result (λ _. IsNormal bytes.now) }
    ensures text { IfSome result (λ span. EachRecord bytes.now (λ r. span_text bytes.now span ≡ extensions_part r)) }
    ensures within { IfSome result (IsWithin bytes.now) }
    ensures end { IfSome result (λ span. EachRecord bytes.now (λ r. end_of span ≡ (ends_of r).extensions)) }
{
    let ends = normal_tag_of(bytes)?.ends();
    Some(Span::between(ends.variants, ends.extensions))
}

/// Returns the subtags of the first of several extensions that has the given singleton, or an empty span if none has
/// it.
fn find_extension(bytes: &[u8], extensions: Span, singleton: u8) -> Span
    requires within { IsWithin bytes.now extensions }
    requires extensions { IsExtensions (span_text bytes.now extensions) }
    ensures subtags { (es : List Extension) → SpellsExtensions es (span_text bytes.now extensions) →
        subtags_in bytes.now result ≡ option_map_or (λ e. e.subtags) (find_extension singleton es) [] }
    ensures some { HasSubtags bytes.now result }
    ensures end { 0 < result.len → end_of result + length_with_hyphens (after_first (opens_alike singleton)
        (extension_texts (span_text bytes.now extensions))) ≡ end_of extensions }
{
    let mut rest = extensions;
    while let Some(part) = rest.of(bytes) {
        let extension = rest.take_first(first_extension_end(part));
        if into_smallcase(part[0]) == into_smallcase(singleton) {
            return extension.without_singleton();
        }
    }
    Span { start: 0, len: 0 }
}

/// Returns the subtags before the first key.
pub(crate) fn before_key(bytes: &[u8], subtags: Span, keys: Keys) -> Span
    requires { HasSubtags bytes.now subtags }
    ensures text { span_text bytes.now result ≡ join (spec.before_key (opens_keyword keys) (subtags_in bytes.now subtags)) }
    ensures within { IsWithin bytes.now result }
    ensures start { result.start ≡ subtags.start }
{
    Span {
        start: subtags.start,
        len: len_before_key(bytes, subtags, keys).saturating_sub(1),
    }
}

/// Returns the number of bytes of the subtags before the first key, each with a hyphen after it.
fn len_before_key(bytes: &[u8], subtags: Span, keys: Keys) -> usize
    requires { HasSubtags bytes.now subtags }
    ensures { result ≡ length_with_hyphens (spec.before_key (opens_keyword keys) (subtags_in bytes.now subtags)) }
{
    let mut rest = subtags;
    let mut len = 0;
    while let Some((_, subtag)) = take_subtag(bytes, &mut rest) {
        if keys.has(subtag) {
            return len;
        }
        len += subtag.len() + 1;
    }
    len
}

/// Returns the value of the first key that equals a string, ignoring case.
pub(crate) fn value_of(bytes: &[u8], subtags: Span, keys: Keys, key: &[u8]) -> Option<Span>
    requires { HasSubtags bytes.now subtags }
    ensures value { option_map (span_text bytes.now) result
        ≡ option_map join (spec.value_of (opens_keyword keys) key.now (subtags_in bytes.now subtags)) }
    ensures within { IfSome result (IsWithin bytes.now) }
    ensures place { IfSome result (λ found. found.start
        + length (join (after_key (opens_keyword keys) key.now (subtags_in bytes.now subtags))) ≡ end_of subtags) }
{
    let mut rest = subtags;
    while let Some((_, subtag)) = take_subtag(bytes, &mut rest) {
        if keys.has(subtag) && case_insensitive_eq(subtag, key) {
            return Some(before_key(bytes, rest, keys));
        }
    }
    None
}

/// Returns the first key after the first `passed` subtags that equals no subtag before it, with its value. `passed`
/// then counts the subtags up to and including that key.
pub(crate) fn next_key(
    bytes: &[u8],
    subtags: Span,
    keys: Keys,
    passed: &mut usize,
) -> Option<KeyPlace>
    requires { HasSubtags bytes.now subtags }
    ensures some { IfSome result (λ place. keywords_from (opens_keyword keys) (subtags_in bytes.now subtags) passed.old
        ≡ record { key = span_text bytes.now place.key; value = span_text bytes.now place.value } ∷ keywords_from
        (opens_keyword keys) (subtags_in bytes.now subtags) passed.new) }
    ensures within { IfSome result (λ place. IsWithin bytes.now place.key × IsWithin bytes.now place.value) }
    ensures place { IfSome result (λ place.
        IsTrue (spec.is_new_key (opens_keyword keys) (take (passed.new - 1) (subtags_in bytes.now subtags)) (span_text bytes.now place.key))
        × (place.key.start + length (join (drop (passed.new - 1) (subtags_in bytes.now subtags))) ≡ end_of subtags)
        × (place.value.start + length (join (drop passed.new (subtags_in bytes.now subtags))) ≡ end_of subtags)) }
    ensures none { result ≡ None → keywords_from (opens_keyword keys) (subtags_in bytes.now subtags) passed.old ≡ [] }
    ensures nothing { result ≡ None → passed.new ≡ passed.old }
{
    let mut rest = subtags;
    let mut met = KeySet::new();
    let mut count = 0;
    while let Some((key, subtag)) = take_subtag(bytes, &mut rest) {
        let is_new = met.insert(subtag);
        if count >= *passed && keys.has(subtag) && is_new {
            *passed = count + 1;
            let value = before_key(bytes, rest, keys);
            return Some(KeyPlace { key, value });
        }
        count += 1;
    }
    None
}

/// Removes the first of some subtags, with the hyphen after it. Returns its span and its text.
fn take_subtag<'a>(bytes: &'a [u8], rest: &mut Span) -> Option<(Span, &'a [u8])>
    requires { HasSubtags bytes.now rest.old }
    ensures subtags { MatchOption result (subtags_in bytes.now rest.old ≡ [])
        (λ taken. subtags_in bytes.now rest.old ≡ taken.1.now ∷ subtags_in bytes.now rest.new) }
    ensures left { HasSubtags bytes.now rest.new }
    ensures nothing { result ≡ None → rest.new ≡ rest.old }
    ensures place { IfSome result (λ taken. IsWithin bytes.now taken.0 × (span_text bytes.now taken.0 ≡ taken.1.now)) }
    ensures shorter { IfSome result (λ _. rest.new.len < rest.old.len) }
    ensures start { IfSome result (λ taken. taken.0.start ≡ rest.old.start) }
    ensures end { end_of rest.new ≡ end_of rest.old }
{
    let part = rest.of(bytes)?;
    let len = segment_end(part, 0);
    let subtag = rest.take_first(len);
    Some((subtag, &part[..len]))
}
