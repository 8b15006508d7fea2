//! Variants and extended languages that follow none of their prefixes (RFC 5646 section 3.1.8).
ghost use Rattle.std.specs.Prelude.{◌≡◌, [], get_or, option_map};
ghost use Rattle.langtag_scan.specs.Grammar.{EachRecord};
ghost use Rattle.langtag.specs.Definitions.{extended_lang_tag_text, variant_text, normal_lang_tag_text};
ghost use Rattle.langtag_range.specs.Definitions.{test_extended};
ghost use Rattle.langtag_registry.specs.Matching.{AreMatching, prefixes};
ghost use Rattle.langtag_registry.specs.Prefix as spec;

use langtag::NormalLangTag;
use langtag_fields::{extlang_prefix, variant_prefixes};
use langtag_language::ExtendedLangTag;
use langtag_place::Variant;
use langtag_range::matches_extended;
use langtag_scan::folded_number;

/// How many prefixes a walk over variants remembers, by their index: more than the registry has.
const REMEMBERED: usize = 512;

/// Returns the first variant of a tag that follows none of its prefixes (the field Prefix, RFC 5646 section 3.1.8).
/// Such a variant is `nedis` in `fr-nedis`, because its prefix is `sl`, and `1994` in `sl-1994-rozaj`, because its
/// prefix is `sl-rozaj`. Returns `None` for `sl-IT-nedis`, and for `fr-fonipa`, because `fonipa` has no prefix.
///
/// A prefix is compared with the subtags before the variant by extended filtering (RFC 4647 section 3.3.2). The RFC
/// only recommends prefixes, so a tag may be valid without them. It does not allocate.
///
/// ```
/// use langtag::NormalLangTag;
/// use langtag_registry::misplaced_variant;
///
/// misplaced_variant(NormalLangTag::new("fr-nedis")?).map(|variant| variant.as_str()); // Some("nedis")
/// misplaced_variant(NormalLangTag::new("sl-IT-nedis")?).is_none(); // true
/// ```
pub fn misplaced_variant<'a>(tag: NormalLangTag<'a>) -> Option<Variant<'a>>
    ensures { EachRecord (normal_lang_tag_text tag.entry) (λ r. option_map variant_text result ≡ spec.misplaced r) }
{
    let mut end = tag.ends().region;
    let mut matching = [false; REMEMBERED];
    for variant in tag.variants().iter() {
        if !fits_after(&tag.as_str()[..end], variant, &mut matching) {
            return Some(variant);
        }
        end += 1 + variant.as_str().len();
    }
    None
}

/// Returns the extended language of a tag if it follows a language other than its prefix (the field Prefix,
/// RFC 5646 section 3.1.8): `yue` in `de-yue`, because its prefix is `zh`. Returns `None` for `zh-yue`, and for
/// `zh-fra`, because `fra` is not registered.
///
/// A tag may be valid even if its extended language follows another language. A second extended language, which no
/// valid tag has, is ignored.
///
/// ```
/// use langtag::NormalLangTag;
/// use langtag_registry::misplaced_extlang;
///
/// misplaced_extlang(NormalLangTag::new("de-yue")?).map(|extended| extended.as_str()); // Some("yue")
/// ```
pub fn misplaced_extlang<'a>(tag: NormalLangTag<'a>) -> Option<ExtendedLangTag<'a>>
    ensures { EachRecord (normal_lang_tag_text tag.entry)
        (λ r. option_map extended_lang_tag_text result ≡ spec.misplaced_extlang r.primary r.extended) }
{
    let language = tag.language();
    let mut extlangs = language.extension_subtags();
    let extlang = extlangs.next()?;
    let prefix = extlang_prefix(extlang)?;
    if prefix == language.primary() {
        return None;
    }
    Some(extlang)
}

/// Returns whether a variant may follow the string before it: one of its prefixes matches this string, or it has no
/// prefix. `matching` says which prefixes are known to match it, by their index.
fn fits_after(before: &str, variant: Variant<'_>, matching: &mut [bool]) -> bool
    requires { AreMatching matching.old before.now }
    ensures fits { result ≡ spec.fits_after before.now (variant_text variant.entry) }
    ensures matching { AreMatching matching.new before.now }
{
    let number = folded_number(variant.as_bytes());
    let prefixes = variant_prefixes();
    let mut has_none = true;
    let mut index = 0;
    while index < prefixes.len() {
        let (key, prefix) = prefixes[index];
        if number == key {
            if matches_at(index, prefix, before, matching) {
                return true;
            }
            has_none = false;
        }
        index += 1;
    }
    has_none
}

/// Returns whether the prefix at an index matches the string before a variant by extended filtering. A prefix that matches
/// this string also matches a longer one, so a walk over variants remembers it, and asks long strings only a few times.
fn matches_at(index: usize, prefix: &str, before: &str, matching: &mut [bool]) -> bool
    requires prefix { prefix.now ≡ get_or prefixes index [] }
    requires matching { AreMatching matching.old before.now }
    ensures test { result ≡ test_extended prefix.now before.now }
    ensures matching { AreMatching matching.new before.now }
{
    if index >= matching.len() {
        return matches_prefix(prefix, before);
    }
    let is_matching = matching[index] || matches_prefix(prefix, before);
    matching[index] = is_matching;
    is_matching
}

/// Returns whether a prefix matches the string before a variant by extended filtering.
fn matches_prefix(prefix: &str, before: &str) -> bool
    ensures { result ≡ test_extended prefix.now before.now }
{
    matches_extended(prefix, before)
}
