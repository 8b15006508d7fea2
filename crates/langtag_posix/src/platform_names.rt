//! The language and the territory of a locale name, as Java, Windows, Android and .NET write them. The same
//! call reads all of them, because a program seldom knows where a name comes from. Qualifiers of Android's folders behind
//! a region are refused, and not dropped: `ldrtl` has the form of a variant, and `land` that of a script. Languages of
//! more than three letters are refused, because the registry has none, and names such as `german` have their form.
ghost use Rattle.std.specs.Prelude.{◌≡◌, ◌+◌, ◌≤◌, ◌∷◌, ◌++◌, IfSome, is_some, length, map, option_map};
ghost use Rattle.langtag_scan.specs.Prelude.{before_first};
ghost use Rattle.langtag_scan.specs.Grammar.{is_hyphen, is_variant};
ghost use Rattle.langtag_posix.specs.PlatformNames.{hyphened_at, android_region, behind_gap, chinese_script, filled};
ghost use Rattle.langtag_posix.specs.PlatformNames.{has_marked_region, is_of_language, is_short_language};
ghost use Rattle.langtag_text.specs.Alias.{alias_for};
ghost use Rattle.langtag_posix.specs.PlatformNames.{language_or_und, last_fields, marked, platform_behind, platform_read};
ghost use Rattle.langtag_posix.specs.PlatformNames.{platform_text, read_place, region_now, without_gap};

use crate::modifiers::is_script_code;
use langtag_range::split_at_byte;
use langtag_scan::{case_insensitive_eq, is_primary, is_region, is_script, is_variant};
use langtag_text::{alias_for, write_pieces};

/// The greatest length of a language and a territory, in bytes.
pub(crate) const MOST: usize = 255;

/// The greatest length of the string that they are read as, in bytes: `und` may come before them.
pub(crate) const MOST_READ: usize = 260;

/// The names with a last field that is no subtag, and their tags: those of Java, and those that Windows gives to other
/// orders of sorting.
#[rattlefmt::skip]
static LAST_FIELDS: [(&str, &str); 13] = [
    ("no-NO-NY", "nn-NO"), ("ja-JP-JP", "ja-JP-u-ca-japanese"), ("th-TH-TH", "th-TH-u-nu-thai"),
    ("de-DE-phoneb", "de-DE-u-co-phonebk"), ("es-ES-tradnl", "es-ES-u-co-trad"), ("ja-JP-radstr", "ja-JP-u-co-unihan"),
    ("zh-CN-stroke", "zh-CN-u-co-stroke"), ("zh-MO-stroke", "zh-MO-u-co-stroke"), ("zh-SG-stroke", "zh-SG-u-co-stroke"),
    ("zh-HK-radstr", "zh-HK-u-co-unihan"), ("zh-MO-radstr", "zh-MO-u-co-unihan"), ("zh-TW-radstr", "zh-TW-u-co-unihan"),
    ("zh-TW-pronun", "zh-TW-u-co-zhuyin"),
];

/// The least length of such a name, in bytes.
const SHORTEST_LAST: usize = 8;

/// Returns the string that a language and a territory are read as, written into `room` or `short`: `zh-TW` for `zh_TW`,
/// and for `zh-rTW` and `b+zh+TW`, and `und-TW` for `_TW`.
#[tactic(auto, unfolding(crate::specs::PlatformNames::read_place))]
pub(crate) fn read_place<'a>(
    place: &[u8],
    room: &'a mut [u8; MOST],
    short: &'a mut [u8; MOST_READ],
) -> &'a [u8]
    requires { length place.now ≤ 255 }
    ensures text { result.now ≡ read_place place.now }
    ensures few { length result.now ≤ 260 }
{
    let (front, tag) = split_at_byte(place, b'+');
    let (_, qualifiers) = split_at_byte(place, b'-');
    if case_insensitive_eq(b"b", front) && qualifiers.is_empty() {
        return hyphenated(tag, b'+', room);
    }
    platform_read(hyphenated(place, b'_', room), short)
}

/// Writes a string into `room` with each byte `mark` as a hyphen, and returns it.
fn hyphenated<'a>(text: &[u8], mark: u8, room: &'a mut [u8; MOST]) -> &'a [u8]
    requires { length text.now ≤ 255 }
    ensures { result.now ≡ hyphened_at mark text.now }
{
    let bytes = &mut room[..text.len()];
    bytes.copy_from_slice(text);
    hyphenate(bytes, mark);
    bytes
}

/// Writes a hyphen instead of each byte `mark`.
fn hyphenate(bytes: &mut [u8], mark: u8)
    ensures { bytes.new ≡ hyphened_at mark bytes.old }
{
    for byte in bytes.iter_mut() {
        if *byte == mark {
            *byte = b'-';
        }
    }
}

/// Returns the tag for a string in a form of Java, Windows, Android or .NET or with an empty field, or else the string as it
/// stands.
fn platform_read<'a>(text: &'a [u8], short: &'a mut [u8; MOST_READ]) -> &'a [u8]
    requires { length text.now ≤ 255 }
    ensures text { result.now ≡ platform_read text.entry.now }
    ensures few { length result.now ≤ 260 }
{
    if let Some(tag) = last_field(text) {
        return tag;
    }
    let (language, behind) = split_at_byte(text, b'-');
    if let Some((first, second)) = platform_text(language, behind) {
        return written(language, first, second, short);
    }
    match filled_behind(language, behind) {
        Some((first, second)) => written(language_or_und(language), first, second, short),
        None => text,
    }
}

/// Writes a language and one or two subtags into `room`, and returns them as one string.
fn written<'t, 'r>(
    language: &'t [u8],
    first: &'t [u8],
    second: &'t [u8],
    room: &'r mut [u8; MOST_READ],
) -> &'r [u8]
    requires { length language.now + (length first.now + length second.now) ≤ 258 }
    ensures text { result.now ≡ language.now ++ (45 ∷ first.now ++ marked 45 second.now) }
    ensures few { length result.now ≤ 260 }
{
    let pieces: [&[u8]; 5] = [language, b"-", first, b"-", second];
    let used = if second.is_empty() { 3 } else { 5 };
    let len = write_pieces(&pieces[..used], room);
    &room[..len]
}

/// Returns whether a string is a language of two or three letters.
fn is_short_language(language: &[u8]) -> bool
    ensures { result ≡ is_short_language language.now }
{
    is_primary(language) && language.len() <= 3
}

/// Returns what [`platform_behind`] does, after a language of two or three letters.
fn platform_text<'a>(language: &[u8], behind: &'a [u8]) -> Option<(&'a [u8], &'a [u8])>
    ensures read { option_map (λ pair. language.now ++ (45 ∷ pair.0.now ++ marked 45 pair.1.now)) result
        ≡ platform_text language.now behind.now }
    ensures few { IfSome result (λ pair. length language.now + (length pair.0.now + length pair.1.now) ≤ 10) }
{
    if is_short_language(language) {
        platform_behind(language, behind)
    } else {
        None
    }
}

/// Returns the one or two subtags that are read for the string after a language, if the string has a form of Android
/// or .NET. If there is one, the second is empty.
#[tactic(auto, using(crate::proofs::PosixNameLaws::script_code_four, crate::proofs::PosixNameLaws::region_now_few, crate::proofs::PosixNameLaws::region_now_marked))]
fn platform_behind<'a>(language: &[u8], behind: &'a [u8]) -> Option<(&'a [u8], &'a [u8])>
    ensures read { option_map (λ pair. pair.0.now ++ marked 45 pair.1.now) result ≡ platform_behind language.now behind.now }
    ensures few { IfSome result (λ pair. (length pair.0.now ≤ 4) × (length pair.1.now ≤ 3)) }
{
    if let Some(script) = chinese_script(language, behind) {
        return Some((script, b""));
    }
    if let Some(region) = android_region(language, behind) {
        return Some((region, b""));
    }
    let (region, script) = split_at_byte(behind, b'-');
    if is_region(region) && is_script_code(script) {
        return Some((script, region_now(language, region)));
    }
    None
}

/// Returns the script that .NET's names for Chinese mean: `Hans` for `zh-CHS`.
fn chinese_script(language: &[u8], behind: &[u8]) -> Option<&'static [u8]>
    ensures script { option_map (λ script. script.now) result ≡ chinese_script language.now behind.now }
    ensures few { IfSome result (λ script. length script.now ≡ 4) }
{
    if !case_insensitive_eq(b"zh", language) {
        return None;
    }
    if case_insensitive_eq(b"CHS", behind) {
        return Some(b"Hans");
    }
    if case_insensitive_eq(b"CHT", behind) {
        return Some(b"Hant");
    }
    None
}

/// Returns the region that Android writes after `r`: `TW` for `zh-rTW`.
#[tactic(auto, using(langtag_scan::proofs::Disjoint::region_short))]
fn android_region<'a>(language: &[u8], behind: &'a [u8]) -> Option<&'a [u8]>
    ensures region { option_map (λ region. region.now) result ≡ android_region language.now behind.now }
    ensures few { IfSome result (λ region. length region.now ≤ 3) }
{
    if case_insensitive_eq(b"sgn", language) {
        return None;
    }
    match behind {
        [b'r' | b'R', region @ ..] if is_region(region) => Some(region),
        _ => None,
    }
}

/// Returns the region of a name with a script. .NET writes `SP` for Serbia.
fn region_now<'a>(language: &[u8], region: &'a [u8]) -> &'a [u8]
    ensures { result.now ≡ region_now language.now region.now }
{
    if case_insensitive_eq(b"sr", language) && case_insensitive_eq(b"SP", region) {
        return b"RS";
    }
    region
}

/// Returns the tag for a name whose last field is no subtag: `nn-NO` for `no-NO-NY`.
#[tactic(auto, using(crate::proofs::LastFields::short_none))]
fn last_field(text: &[u8]) -> Option<&'static [u8]>
    ensures tag { option_map (λ tag. tag.now) result ≡ alias_for last_fields text.now }
    ensures few { IfSome result (λ tag. length tag.now ≤ 20) }
{
    if text.len() < SHORTEST_LAST {
        return None;
    }
    match alias_for(last_fields(), text) {
        Some(tag) => Some(tag.as_bytes()),
        None => None,
    }
}

#[tactic(auto, using(crate::proofs::LastFields::rows))]
fn last_fields() -> &'static [(&'static str, &'static str)]
    ensures { map (λ row. record { old = row.0.now; new = row.1.now }) result.now ≡ last_fields }
{
    &LAST_FIELDS
}

/// Returns the string behind a language in a name with an empty field, in one or two parts: `POSIX` for `-POSIX`, and `Hant`
/// and `PINYIN` for `Hant--PINYIN`. If the language is empty, any string behind it is returned.
fn filled_behind<'a>(language: &[u8], behind: &'a [u8]) -> Option<(&'a [u8], &'a [u8])>
    ensures read { option_map (λ pair. language_or_und language.now ++ (45 ∷ pair.0.now ++ marked 45 pair.1.now)) result
        ≡ filled language.now behind.now }
    ensures few { IfSome result (λ pair. length pair.0.now + length pair.1.now ≤ length behind.now) }
{
    if let Some(found) = without_gap(behind) {
        return Some(found);
    }
    if language.is_empty() && !behind.is_empty() {
        Some((behind, b""))
    } else {
        None
    }
}

/// Returns the string behind a language without the mark of an empty region, in one or two parts.
fn without_gap(behind: &[u8]) -> Option<(&[u8], &[u8])>
    ensures read { option_map (λ pair. pair.0.now ++ marked 45 pair.1.now) result ≡ without_gap behind.now }
    ensures few { IfSome result (λ pair. length pair.0.now + length pair.1.now ≤ length behind.now) }
{
    if let Some(variants) = behind_gap(behind) {
        return Some((variants, b""));
    }
    let (script, others) = split_at_byte(behind, b'-');
    if !is_script(script) {
        return None;
    }
    let variants = behind_gap(others)?;
    Some((script, variants))
}

/// Returns the variants behind an empty field.
#[tactic(auto, using(crate::proofs::PosixNameLaws::begins_some))]
fn behind_gap(behind: &[u8]) -> Option<&[u8]>
    ensures variants { option_map (λ variants. variants.now) result ≡ behind_gap behind.now }
    ensures few { IfSome result (λ variants. length variants.now + 1 ≡ length behind.now) }
    ensures some { IfSome result (λ variants. 1 ≤ length variants.now) }
{
    match behind {
        [b'-', variants @ ..] if begins_variant(variants) => Some(variants),
        _ => None,
    }
}

fn begins_variant(text: &[u8]) -> bool
    ensures { result ≡ is_variant (before_first is_hyphen text.now) }
{
    let (first, _) = split_at_byte(text, b'-');
    is_variant(first)
}

/// Returns a language, or `und` for an empty one.
fn language_or_und(language: &[u8]) -> &[u8]
    ensures language { result.now ≡ language_or_und language.now }
    ensures few { length result.now ≤ length language.now + 3 }
{
    if language.is_empty() {
        b"und"
    } else {
        language
    }
}

/// Returns whether a string has a language of at most three letters, or none, and no region with Android's mark.
pub(crate) fn is_of_language(text: &[u8]) -> bool
    ensures { result ≡ is_of_language text.now }
{
    let (language, _) = split_at_byte(text, b'-');
    language.len() <= 3 && !has_marked_region(text)
}

/// Returns whether a region keeps Android's mark, because other qualifiers of a folder come after it.
fn has_marked_region(text: &[u8]) -> bool
    ensures { result ≡ has_marked_region text.now }
{
    let (language, behind) = split_at_byte(text, b'-');
    let (region, _) = split_at_byte(behind, b'-');
    is_short_language(language) && is_marked(language, region)
}

#[tactic(auto, using(crate::proofs::PosixNameLaws::some_region))]
fn is_marked(language: &[u8], region: &[u8]) -> bool
    ensures { result ≡ is_some (android_region language.now region.now) }
{
    android_region(language, region).is_some()
}
