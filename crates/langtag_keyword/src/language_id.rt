//! The language of the extension `t` (UTS #35, part 1, `unicode_language_id`).
ghost use Rattle.std.specs.Prelude.{◌≡◌, ◌-◌, ◌^◌, [], IsTrue, fold, length, map, min, option_map};
ghost use Rattle.langtag_scan.specs.Grammar.{AllByRecursion, list_all, list_any, are_alike, fold_text, is_region};
ghost use Rattle.langtag_scan.specs.Grammar.{is_script, one_flat, segments, segments_left, is_variant, IsSubtag};
ghost use Rattle.langtag_text.specs.Output.{Pushes, with_subtag};
ghost use Rattle.langtag_keyword.specs.Form as spec;

use crate::alphabet::{push_in_alphabet, push_lowercase};
use crate::subtags::split_first;
use langtag_scan::{case_insensitive_eq, is_primary, is_region, is_script, is_variant};
use langtag_text::Output;

/// Returns whether a string is a language with an optional script, an optional region, and any number of different
/// variants.
pub(crate) fn is_language_id(text: &str) -> bool
    ensures { result ≡ spec.is_language_id (segments text.now) }
{
    let (language, rest) = split_first(text);
    let (_, rest) = take_script(rest);
    let (_, variants) = take_region(rest);
    is_unicode_language(language) && are_variants(variants)
}

/// Appends a language with its script, region and variants in lowercase, and with the variants in order.
pub(crate) fn push_language_id(out: &mut Output<'_>, text: &str)
    requires { AllByRecursion IsSubtag (segments text.now) }
    ensures { Pushes (spec.language_form (segments text.now)) out.old out.new }
{
    let (language, rest) = split_first(text);
    let (script, rest) = take_script(rest);
    let (region, variants) = take_region(rest);
    push_lowercase(out, language);
    push_optional(out, script);
    push_optional(out, region);
    push_in_alphabet(out, variants);
}

fn push_optional(out: &mut Output<'_>, subtag: Option<&str>)
    ensures { Pushes (map fold_text (one_flat (option_map (λ t. t.now) subtag.entry))) out.old out.new }
{
    if let Some(subtag) = subtag {
        push_lowercase(out, subtag);
    }
}

/// Returns whether a subtag is a language that UTS #35 allows: a primary subtag that does not have four letters.
pub fn is_unicode_language(subtag: &str) -> bool
    ensures { result ≡ spec.is_unicode_language subtag.now }
{
    is_primary(subtag.as_bytes()) && subtag.len() != 4
}

/// Returns the script at the start, if there is one, and the rest.
pub fn take_script<'a>(rest: Option<&'a str>) -> (Option<&'a str>, Option<&'a str>)
    ensures script { one_flat (option_map (λ t. t.now) result.0) ≡ spec.one_of is_script (segments_left rest.entry) }
    ensures others { segments_left result.1 ≡ spec.after_one is_script (segments_left rest.entry) }
{
    if let Some(text) = rest {
        let (first, others) = split_first(text);
        if is_script(first.as_bytes()) {
            return (Some(first), others);
        }
    }
    (None, rest)
}

/// Returns the region at the start, if there is one, and the rest.
pub fn take_region<'a>(rest: Option<&'a str>) -> (Option<&'a str>, Option<&'a str>)
    ensures region { one_flat (option_map (λ t. t.now) result.0) ≡ spec.one_of is_region (segments_left rest.entry) }
    ensures others { segments_left result.1 ≡ spec.after_one is_region (segments_left rest.entry) }
{
    if let Some(text) = rest {
        let (first, others) = split_first(text);
        if is_region(first.as_bytes()) {
            return (Some(first), others);
        }
    }
    (None, rest)
}

/// Returns whether all subtags are variants, and no two of them are equal.
#[tactic(auto, using(crate::proofs::VariantLengths::not_variants))]
fn are_variants(rest: Option<&str>) -> bool
    ensures { result ≡ spec.are_different_variants (segments_left rest.entry) }
{
    match rest {
        Some(text) => are_all_variants(rest) && are_different(text),
        None => true,
    }
}

/// Returns whether all subtags are variants.
fn are_all_variants(rest: Option<&str>) -> bool
    ensures { result ≡ list_all is_variant (segments_left rest.entry) }
{
    let mut rest = rest;
    while let Some(text) = rest {
        let (subtag, others) = split_first(text);
        if !is_variant(subtag.as_bytes()) {
            return false;
        }
        rest = others;
    }
    true
}

/// Returns whether no two variants of a string are equal: whether they take as many bytes when each is written once.
#[tactic(auto, using(crate::proofs::VariantLengths::are_subtags, crate::proofs::VariantLengths::different_length))]
fn are_different(text: &str) -> bool
    requires { IsTrue (list_all is_variant (segments text.now)) }
    ensures { result ≡ spec.are_different_variants (segments text.now) }
{
    len_in_alphabet(text, &mut []) == text.len()
}

/// Returns the length of the string of some variants in alphabetical order, each once. It is written to a buffer if it
/// fits.
fn len_in_alphabet(text: &str, buffer: &mut [u8]) -> usize
    requires { AllByRecursion IsSubtag (segments text.now) }
    ensures { result ≡ min (length (fold with_subtag [] (spec.in_alphabet (segments text.now)))) (2 ^ 64 - 1) }
{
    let mut out = Output::new(buffer);
    push_in_alphabet(&mut out, Some(text));
    out.len()
}

/// Returns whether a variant is among the subtags of a string, ignoring case.
pub fn is_among(rest: Option<&str>, variant: &[u8]) -> bool
    ensures { result ≡ list_any (are_alike variant.now) (segments_left rest.entry) }
{
    let mut rest = rest;
    while let Some(text) = rest {
        let (other, others) = split_first(text);
        if case_insensitive_eq(variant, other.as_bytes()) {
            return true;
        }
        rest = others;
    }
    false
}
