//! The keywords of a locale name, as ICU and Apple's systems write them after `@`: `calendar=buddhist;currency=THB`.
//! Only keywords of the extension `u` are read. Time zones by their long names, attributes, other extensions and
//! private use are left to `unknown_modifier`, because few names have them. ICU reads `@calendar=roc` as
//! `und-u-ca-roc`, and here it is refused.
ghost use Rattle.std.specs.Prelude.{◌≡◌, map};
ghost use Rattle.langtag_text.specs.Output.{Appends};
ghost use Rattle.langtag_keyword.specs.Edit.{is_type};
ghost use Rattle.langtag_posix.specs.KeywordNames as spec;

use langtag_keyword::is_unicode_key;
use langtag_range::split_at_byte;
use langtag_scan::is_extension_subtag;
use langtag_text::{Output, alias_for, type_alias_for};

/// ICU's names of keys, and the keys, from CLDR 48.2 (common/bcp47, the attribute `alias`).
#[rattlefmt::skip]
static KEY_NAMES: [(&str, &str); 17] = [
    ("calendar", "ca"), ("collation", "co"), ("currency", "cu"), ("hours", "hc"), ("colAlternate", "ka"),
    ("colBackwards", "kb"), ("colCaseLevel", "kc"), ("colCaseFirst", "kf"), ("colHiraganaQuaternary", "kh"),
    ("colNormalization", "kk"), ("colNumeric", "kn"), ("colReorder", "kr"), ("colStrength", "ks"), ("measure", "ms"),
    ("numbers", "nu"), ("timezone", "tz"), ("variableTop", "vt"),
];

/// ICU's names of types that cannot stand in a tag: a key, the name, and the type. The canonical form (UTS #35) replaces
/// the names that can.
#[rattlefmt::skip]
static TYPE_NAMES: [(&str, &str, &str); 17] = [
    ("ca", "gregorian", "gregory"), ("co", "dictionary", "dict"), ("co", "gb2312han", "gb2312"),
    ("co", "phonebook", "phonebk"), ("co", "traditional", "trad"), ("ka", "non-ignorable", "noignore"),
    ("kb", "no", "false"), ("kc", "no", "false"), ("kf", "no", "false"), ("kh", "no", "false"),
    ("kk", "no", "false"), ("kn", "no", "false"), ("ks", "secondary", "level2"), ("ks", "quaternary", "level4"),
    ("ks", "quarternary", "level4"), ("ks", "identical", "identic"), ("nu", "traditional", "traditio"),
];

/// Returns whether a modifier consists of keywords that can be read. An empty modifier has none.
pub(crate) fn are_keywords(modifier: &[u8]) -> bool
    ensures { result ≡ spec.are_keywords modifier.now }
{
    !modifier.is_empty() && is_each_keyword(modifier)
}

fn is_each_keyword(modifier: &[u8]) -> bool
    ensures { result ≡ spec.are_keywords modifier.now }
{
    modifier
        .split(|byte| *byte == b';')
        .all(|keyword| is_keyword(keyword))
}

fn is_keyword(keyword: &[u8]) -> bool
    ensures { result ≡ spec.is_keyword keyword.now }
{
    let (key, value) = key_and_type(keyword);
    is_unicode_key(key) && are_types(value)
}

/// Returns whether each subtag of a value has three to eight letters or digits.
fn are_types(value: &[u8]) -> bool
    ensures { result ≡ spec.are_types value.now }
{
    value
        .split(|byte| *byte == b'-')
        .all(|subtag| is_type(subtag))
}

fn is_type(subtag: &[u8]) -> bool
    ensures { result ≡ is_type subtag.now }
{
    subtag.len() >= 3 && is_extension_subtag(subtag)
}

/// Appends the extension `u` with the keywords of a modifier after a hyphen, if they can be read.
pub(crate) fn push_keywords(out: &mut Output<'_>, modifier: &[u8])
    ensures { Appends (spec.keywords_text modifier.now) out.old out.new }
{
    if are_keywords(modifier) {
        out.push(b"-u");
        push_each(out, modifier);
    }
}

/// Appends the keywords of a modifier as subtags, each after a hyphen.
fn push_each(out: &mut Output<'_>, modifier: &[u8])
    ensures { Appends (spec.keyword_texts modifier.now) out.old out.new }
{
    for keyword in modifier.split(|byte| *byte == b';') {
        push_keyword(out, keyword);
    }
}

fn push_keyword(out: &mut Output<'_>, keyword: &[u8])
    ensures { Appends (spec.keyword_text keyword.now) out.old out.new }
{
    let (key, value) = key_and_type(keyword);
    out.push(b"-");
    out.push(key);
    out.push(b"-");
    out.push(value);
}

/// Returns the key and the type that a keyword names.
fn key_and_type(keyword: &[u8]) -> (&[u8], &[u8])
    ensures key { result.0.now ≡ spec.key_of keyword.now }
    ensures value { result.1.now ≡ spec.type_of keyword.now }
{
    let (key, value) = split_at_byte(keyword, b'=');
    let key = key_named(key);
    (key, type_named(key, value))
}

#[tactic(auto, unfolding(crate::specs::KeywordNames::key_named))]
fn key_named(name: &[u8]) -> &[u8]
    ensures { result.now ≡ spec.key_named name.now }
{
    match alias_for(key_names(), name) {
        Some(key) => key.as_bytes(),
        None => name,
    }
}

#[tactic(auto, unfolding(crate::specs::KeywordNames::type_named))]
fn type_named<'a>(key: &[u8], name: &'a [u8]) -> &'a [u8]
    ensures { result.now ≡ spec.type_named key.now name.now }
{
    match type_alias_for(type_names(), key, name) {
        Some(value) => value.as_bytes(),
        None => name,
    }
}

#[tactic(auto, using(crate::proofs::KeywordNameLaws::key_rows))]
fn key_names() -> &'static [(&'static str, &'static str)]
    ensures { map (λ row. record { old = row.0.now; new = row.1.now }) result.now ≡ spec.key_names }
{
    &KEY_NAMES
}

#[tactic(auto, using(crate::proofs::KeywordNameLaws::type_rows))]
fn type_names() -> &'static [(&'static str, &'static str, &'static str)]
    ensures { map (λ row. record { key = row.0.now; old = row.1.now; new = row.2.now }) result.now ≡ spec.type_names }
{
    &TYPE_NAMES
}
