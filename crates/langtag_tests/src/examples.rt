//! Tests that call the worked examples, and show properties that no contract states.
use crate::support::{are_answered, cut, tag};
use langtag_examples::{Catalogue, tag_for_request};
use std::alloc::{AllocError, Global};

/// Inserts a string for the first tag, and one for each of 20 other tags. Returns what the second tag finds. The piece
/// after `+` is repeated 100 times, and added to both tags.
fn found(alloc: Global, question: &str) -> Result<String, AllocError> {
    let (put, wanted) = cut(question);
    let (wanted, piece) = wanted.split_once('+').unwrap_or((wanted, ""));
    let end = piece.repeat(alloc, 100)?;
    let mut catalogue = Catalogue::new(alloc);
    let first = format!(in alloc; "{put}{end}")?;
    catalogue.put(
        tag(first.as_str()).try_to_owned(alloc)?,
        String::from_str(alloc, "Zdravo")?,
    )?;
    let mut other = String::from_str(alloc, "x")?;
    for _ in 0..20_u32 {
        other.push_str("-a")?;
        let text = String::from_str(alloc, "other")?;
        catalogue.put(tag(other.as_str()).try_to_owned(alloc)?, text)?;
    }
    let wanted = format!(in alloc; "{wanted}{end}")?;
    String::from_str(
        alloc,
        catalogue.find(alloc, wanted.as_str())?.unwrap_or("none"),
    )
}

const FINDS: &[(&str, &str)] = &[
    ("sr|SR", "Zdravo"),
    ("sr|sr-RS", "none"),
    ("sr|sr_RS", "none"),
    ("sr|X-a-A", "other"),
    ("sr-x|SR-X+-a", "Zdravo"),
    ("sr-x|sr-RS-x+-a", "none"),
];

/// Returns the tag for a request, from `en` and `de-CH`. The request has no header if the string is `none`.
fn request(alloc: Global, header: &str) -> Result<String, AllocError> {
    let (english, german) = (tag("en"), tag("de-CH"));
    let header = if header == "none" { None } else { Some(header) };
    let chosen = tag_for_request(alloc, header, &[english, german], english)?;
    String::from_str(alloc, chosen.as_str())
}

const REQUESTS: &[(&str, &str)] = &[
    ("none", "en"),
    ("fr, de-ch-1996;q=0.9", "de-CH"),
    ("en;q=0.5, de-CH;q=0.7", "de-CH"),
    ("*", "en"),
    ("de-CH, fr_FR", "en"),
];

#[test]
fn examples_have_memory(rt: HostRuntime) {
    are_answered(&rt, rt.alloc(), FINDS, found);
    are_answered(&rt, rt.alloc(), REQUESTS, request);
}
