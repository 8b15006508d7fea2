//! The string that a locale name is read as, except for its script and its variant: its language and territory, and its
//! extensions.
ghost use Rattle.std.specs.Prelude.{◌≡◌, ◌≤◌, ◌++◌, IfSome, MatchOption, length};
ghost use Rattle.langtag_scan.specs.Grammar.{IsTag, list_all};
ghost use Rattle.langtag.specs.Definitions.{lang_tag_text};
ghost use Rattle.langtag_text.specs.Output.{Appends, IsCounted};
ghost use Rattle.langtag_range.specs.Definitions.{front_of};
ghost use Rattle.langtag_posix.specs.KeywordNames.{are_keywords, keywords_text};
ghost use Rattle.langtag_posix.specs.PlatformNames.{marked};
ghost use Rattle.langtag_posix.specs.Posix.{IsReadName, begins_extension, extensions_behind, has_extension, has_good_codeset, is_codeset, is_codeset_byte, behind_front, is_java_place};
ghost use Rattle.langtag_posix.specs.Posix.{is_single, may_follow, modifier_of, place_of, text_of_name, without_java_field};

use crate::keyword_names::{are_keywords, push_keywords};
use crate::platform_names::{MOST, MOST_READ, is_of_language, read_place};
use langtag::LangTag;
use langtag_range::{locale_place, split_at_byte, split_at_either};
use langtag_scan::{case_insensitive_eq, is_script};
use langtag_text::Output;

/// The greatest length of the string that a name is read as, in bytes.
pub(crate) const MOST_NAMED: usize = 260;

/// Returns the tag that a name is read as, written into `room`, without the script and the variant that the name gives.
pub(crate) fn tag_of_name<'a>(name: &[u8], room: &'a mut [u8; MOST_NAMED]) -> Option<LangTag<'a>>
    ensures tag { MatchOption result (IsReadName name.now → ⊥)
        (λ tag. IsReadName name.now × (lang_tag_text tag ≡ text_of_name name.now)) }
    ensures few { IfSome result (λ tag. length (lang_tag_text tag) ≤ 260) }
{
    let place = place_of(name);
    if place.len() > MOST {
        return None;
    }
    let (mut whole, mut short) = ([0; MOST], [0; MOST_READ]);
    let (front, modifier) = front_and_modifier(name);
    if !has_good_codeset(behind_front(name, front)) {
        return None;
    }
    let extensions = extensions_behind(front);
    let place = without_java_field(read_place(place, &mut whole, &mut short), extensions);
    if !may_follow(place, extensions, are_keywords(modifier)) {
        return None;
    }
    let len = put_text(place, extensions, modifier, room);
    if len > MOST_NAMED {
        return None;
    }
    let tag = tag_from(&room[..len])?;
    if !is_of_language(place) {
        return None;
    }
    Some(tag)
}

/// Returns the tag that a text is.
fn tag_from(text: &[u8]) -> Option<LangTag<'_>>
    ensures { MatchOption result (IsTag text.now → ⊥) (λ tag. IsTag text.now × (lang_tag_text tag ≡ text.now)) }
{
    LangTag::from_bytes(text).ok()
}

/// Writes the string that a name is read as to a buffer if it fits, and returns its length in bytes.
fn put_text(place: &[u8], extensions: &[u8], modifier: &[u8], buffer: &mut [u8]) -> usize
    ensures { IsCounted ((place.now ++ marked 45 extensions.now) ++ keywords_text modifier.now) buffer.old buffer.new result }
{
    let mut out = Output::new(buffer);
    push_text(&mut out, place, extensions, modifier);
    out.len()
}

/// Appends the string that a name is read as.
fn push_text(out: &mut Output<'_>, place: &[u8], extensions: &[u8], modifier: &[u8])
    ensures { Appends ((place.now ++ marked 45 extensions.now) ++ keywords_text modifier.now) out.old out.new }
{
    out.push(place);
    push_posix_extensions(out, extensions);
    push_keywords(out, modifier);
}

/// Appends extensions after a hyphen, if there are some.
fn push_posix_extensions(out: &mut Output<'_>, extensions: &[u8])
    ensures { Appends (marked 45 extensions.now) out.old out.new }
{
    if !extensions.is_empty() {
        out.push(b"-");
        out.push(extensions);
    }
}

/// Returns the string behind the front of a name: the codeset and the modifier, with their marks.
#[tactic(auto, using(crate::proofs::PosixNameLaws::front_within))]
fn behind_front<'a>(name: &'a [u8], front: &[u8]) -> &'a [u8]
    requires { front.now ≡ front_of name.now }
    ensures { result.now ≡ behind_front name.now }
{
    &name[front.len()..]
}

/// Returns whether the string behind a front is a modifier, or a dot and a codeset.
fn has_good_codeset(behind: &[u8]) -> bool
    ensures { result ≡ has_good_codeset behind.now }
{
    match behind {
        [] | [b'@', ..] => true,
        [_, behind @ ..] => {
            let (codeset, _modifier) = split_at_byte(behind, b'@');
            is_codeset(codeset)
        }
    }
}

fn is_codeset(text: &[u8]) -> bool
    ensures { result ≡ is_codeset text.now }
{
    !text.is_empty() && are_codeset_bytes(text)
}

fn are_codeset_bytes(text: &[u8]) -> bool
    ensures { result ≡ list_all is_codeset_byte text.now }
{
    text.iter().all(|byte| is_codeset_byte(*byte))
}

#[tactic(auto, unfolding(langtag_scan::specs::Class::is_letter, langtag_scan::specs::Class::is_digit))]
fn is_codeset_byte(byte: u8) -> bool
    ensures { result ≡ is_codeset_byte byte }
{
    byte.is_ascii_alphanumeric() || byte == b'-' || byte == b'_' || byte == b'.'
}

/// Returns the string before the codeset and the modifier, and the modifier.
pub(crate) fn front_and_modifier(name: &[u8]) -> (&[u8], &[u8])
    ensures front { result.0.now ≡ front_of name.now }
    ensures modifier { result.1.now ≡ modifier_of name.now }
{
    let (front, _codeset) = split_at_either(name, b'.', b'@');
    let (_, modifier) = split_at_byte(name, b'@');
    (front, modifier)
}

/// Returns the language and the territory of a name, or `und` if it has neither, but something after `#`.
fn place_of(name: &[u8]) -> &[u8]
    ensures { result.now ≡ place_of name.now }
{
    let (front, _) = front_and_modifier(name);
    let (_, behind) = split_at_byte(front, b'#');
    let place = locale_place(name);
    if place.is_empty() && !behind.is_empty() {
        b"und"
    } else {
        place
    }
}

/// Returns the extensions after `#`, or after a script and `_`.
fn extensions_behind(front: &[u8]) -> &[u8]
    ensures { result.now ≡ extensions_behind front.now }
{
    let (_, behind) = split_at_byte(front, b'#');
    let (script, extensions) = split_at_byte(behind, b'_');
    if is_script(script) {
        extensions
    } else {
        behind
    }
}

/// Returns a language and a territory without a last field that stands for the extensions after them.
fn without_java_field<'a>(place: &'a [u8], extensions: &[u8]) -> &'a [u8]
    ensures { result.now ≡ without_java_field place.now extensions.now }
{
    if is_java_place(place, extensions) {
        &place[..5]
    } else {
        place
    }
}

/// Returns whether a last field of Java, which has been read, stands for the extension that follows.
fn is_java_place(place: &[u8], extensions: &[u8]) -> bool
    ensures { result ≡ is_java_place place.now extensions.now }
{
    (case_insensitive_eq(b"ja-JP-u-ca-japanese", place)
        && case_insensitive_eq(b"u-ca-japanese", extensions))
        || (case_insensitive_eq(b"th-TH-u-nu-thai", place)
            && case_insensitive_eq(b"u-nu-thai", extensions))
}

/// Returns whether extensions or keywords may follow a language and a territory. A name has not both, since keywords
/// behind private use would be a part of it, and those behind `u` would be a second `u`.
fn may_follow(place: &[u8], extensions: &[u8], keywords: bool) -> bool
    ensures { result ≡ may_follow place.now extensions.now keywords }
{
    if extensions.is_empty() && !keywords {
        return true;
    }
    !has_extension(place) && (extensions.is_empty() || (begins_extension(extensions) && !keywords))
}

/// Returns whether a string has a subtag of one byte.
fn has_extension(text: &[u8]) -> bool
    ensures { result ≡ has_extension text.now }
{
    text.split(|byte| *byte == b'-')
        .any(|subtag| is_single(subtag))
}

/// Returns whether a string begins with a subtag of one byte.
fn begins_extension(text: &[u8]) -> bool
    ensures { result ≡ begins_extension text.now }
{
    let (first, _) = split_at_byte(text, b'-');
    is_single(first)
}

fn is_single(subtag: &[u8]) -> bool
    ensures { result ≡ is_single subtag.now }
{
    subtag.len() == 1
}
