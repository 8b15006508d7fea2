//! What the modifiers of locale names mean. A modifier of four letters is the code of a script only if CLDR's likely
//! subtags have it, because `euro` is no script.
ghost use Rattle.std.specs.Prelude.{◌≡◌, ◌||◌, IsTrue, MatchOption, None, Some, codes, false, if◌then◌else◌, option_map};
ghost use Rattle.langtag_scan.specs.Grammar.{list_any, are_alike, is_script};
ghost use Rattle.langtag.specs.Definitions.{script_text};
ghost use Rattle.langtag_posix.specs.Modifiers as spec;
ghost use Rattle.langtag_posix.specs.Posix.{modifier_of};
ghost use Rattle.langtag_cldr.specs.Definitions.{script_codes};

use crate::keyword_names::are_keywords;
use langtag::case_insensitive_eq;
use langtag_cldr::script_codes;
use langtag_place::Script;
use langtag_range::split_at_byte;
use langtag_scan::is_script;

/// Returns the modifier of a locale name if [`write_from_posix`] and `from_posix` drop it because they do not know
/// it: `b"foo"` for `de_DE@foo`, and `b"x=y"` for `de_DE@x=y`.
///
/// Returns `None` if there is no modifier, if the modifier names a script or a variant, if it consists of keywords that
/// are read, or if it is not about the language, such as `euro`.
///
/// ```
/// use langtag_posix::unknown_modifier;
///
/// unknown_modifier(b"de_DE@foo"); // Some(&b"foo"[..])
/// unknown_modifier(b"sr_RS@latin"); // None
/// ```
///
/// [`write_from_posix`]: crate::write_from_posix
pub fn unknown_modifier(name: &[u8]) -> Option<&[u8]>
    ensures { MatchOption result (IsTrue (spec.is_known (modifier_of name.now)))
        (λ modifier. (modifier.now ≡ modifier_of name.now) × (spec.is_known modifier.now ≡ false)) }
{
    let (_, modifier) = split_at_byte(name, b'@');
    if is_known(modifier) {
        None
    } else {
        Some(modifier)
    }
}

#[tactic(auto, unfolding(crate::specs::Modifiers::is_known))]
fn is_known(modifier: &[u8]) -> bool
    ensures { result ≡ spec.is_known modifier.now }
{
    modifier.is_empty()
        || modifier_script(modifier).is_some()
        || modifier_variant(modifier).is_some()
        || says_nothing(modifier)
        || are_keywords(modifier)
}

/// Returns the script that a modifier names.
#[tactic(auto, unfolding(langtag_scan::specs::Class::is_script, langtag_scan::specs::Class::is_letter))]
pub(crate) fn modifier_script(modifier: &[u8]) -> Option<Script<'_>>
    ensures { option_map script_text result ≡ spec.modifier_script modifier.now }
{
    if says_latin(modifier) {
        return script_of(b"Latn");
    }
    if case_insensitive_eq(b"cyrillic", modifier) {
        return script_of(b"Cyrl");
    }
    if case_insensitive_eq(b"devanagari", modifier) {
        return script_of(b"Deva");
    }
    if is_script_code(modifier) {
        return script_of(modifier);
    }
    None
}

fn says_latin(modifier: &[u8]) -> bool
    ensures { result ≡ (are_alike (codes "latin") modifier.now
        || (are_alike (codes "iqtelif") modifier.now || are_alike (codes "ijekavianlatin") modifier.now)) }
{
    case_insensitive_eq(b"latin", modifier)
        || case_insensitive_eq(b"iqtelif", modifier)
        || case_insensitive_eq(b"ijekavianlatin", modifier)
}

/// Returns whether a string is the code of a script.
pub(crate) fn is_script_code(text: &[u8]) -> bool
    ensures { result ≡ spec.is_script_code text.now }
{
    is_script(text) && is_listed(text)
}

fn is_listed(text: &[u8]) -> bool
    ensures { result ≡ list_any (λ code. are_alike code text.now) script_codes }
{
    script_codes()
        .iter()
        .any(|code| case_insensitive_eq(code, text))
}

/// Returns a string as a script, or `None` if it is not one.
#[tactic(auto, using(crate::proofs::PosixLaws::utf8_script))]
pub(crate) fn script_of(text: &[u8]) -> Option<Script<'_>>
    ensures { option_map script_text result ≡ if is_script text.now then Some text.now else None }
{
    let text = str::from_utf8(text).ok()?;
    Script::new(text).ok()
}

/// Returns the variant that a modifier names.
pub(crate) fn modifier_variant(modifier: &[u8]) -> Option<&'static str>
    ensures { option_map (λ variant. variant.now) result ≡ spec.modifier_variant modifier.now }
{
    if case_insensitive_eq(b"ijekavian", modifier)
        || case_insensitive_eq(b"ijekavianlatin", modifier)
    {
        return Some("ijekavsk");
    }
    if case_insensitive_eq(b"polyton", modifier) {
        return Some("polyton");
    }
    if case_insensitive_eq(b"tarask", modifier) {
        return Some("tarask");
    }
    if case_insensitive_eq(b"valencia", modifier) {
        return Some("valencia");
    }
    None
}

/// Returns whether a modifier is about sorting, quotation marks or currency, and not about the language.
fn says_nothing(modifier: &[u8]) -> bool
    ensures { result ≡ spec.says_nothing modifier.now }
{
    case_insensitive_eq(b"euro", modifier)
        || case_insensitive_eq(b"preeuro", modifier)
        || case_insensitive_eq(b"abegede", modifier)
        || case_insensitive_eq(b"phonebook", modifier)
        || case_insensitive_eq(b"pinyin", modifier)
        || case_insensitive_eq(b"radical", modifier)
        || case_insensitive_eq(b"stroke", modifier)
        || case_insensitive_eq(b"cjknarrow", modifier)
        || case_insensitive_eq(b"quot", modifier)
        || case_insensitive_eq(b"boldquot", modifier)
}

/// The modifiers that are written, in the order in which they are tried. The empty string means that there is none.
const MODIFIERS: [&str; 9] = [
    "",
    "latin",
    "cyrillic",
    "devanagari",
    "ijekavian",
    "ijekavianlatin",
    "polyton",
    "tarask",
    "valencia",
];

/// Returns the first modifier that names a script and variants, ignoring case. The empty string means no script or no
/// variants, and an empty modifier names neither.
#[tactic(auto, unfolding(crate::specs::Modifiers::modifier_for))]
pub(crate) fn modifier_for(script: &[u8], variants: &[u8]) -> Option<&'static [u8]>
    ensures { option_map (λ modifier. modifier.now) result ≡ spec.modifier_for script.now variants.now }
{
    let mut modifiers: &[&'static str] = &MODIFIERS;
    while let [modifier, others @ ..] = modifiers {
        if names(modifier.as_bytes(), script, variants) {
            return Some(modifier.as_bytes());
        }
        modifiers = others;
    }
    None
}

/// Returns whether a modifier names a script and variants.
fn names(modifier: &[u8], script: &[u8], variants: &[u8]) -> bool
    ensures { result ≡ spec.names script.now variants.now modifier.now }
{
    let named_script = match modifier_script(modifier) {
        Some(script) => script.as_bytes(),
        None => b"",
    };
    let named_variants = modifier_variant(modifier).unwrap_or("");
    case_insensitive_eq(named_script, script)
        && case_insensitive_eq(named_variants.as_bytes(), variants)
}
