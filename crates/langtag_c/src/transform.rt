//! Where the language and the fields of the extension `t` are (RFC 6497 section 2.2).
ghost use Rattle.std.specs.Prelude.{◌≡◌, ◌∷◌, [], None, IsTrue, false, option_map};
ghost use Rattle.langtag_scan.specs.Grammar.{EachRecord, join, IsNormal};
ghost use Rattle.langtag.specs.Definitions.{PartOf, find_extension};
ghost use Rattle.langtag_keyword.specs.Keywords as spec;
ghost use Rattle.langtag_keyword.specs.Transform.{is_field_key};
ghost use Rattle.langtag_c.specs.Answers.{answered};
ghost use Rattle.langtag_c.specs.Keywords.{AreAfter, BeginsWith, after_key, keywords_from};
ghost use Rattle.langtag_c.specs.Spans.{IsWithin, span_text};

use crate::extension_walk::{before_key, extension_subtags, next_key, value_of};
use crate::span::Span;
use langtag_keyword::Keys;

/// Returns whether a tag has the extension t (RFC 6497 section 2.2), and writes where the language of t is (out),
/// before its first field: ja-latn in und-t-ja-latn-m0-hepburn. The language is empty if there is none, and it need not
/// be a tag.
///
/// Returns false and leaves `language` unchanged if there is no t.
#[unsafe(no_mangle)]
pub extern "C" fn langtag_transform(bytes: &[u8], language: &mut Span) -> bool
    ensures language { PartOf bytes.now (λ r. option_map (λ e. join (spec.before_key is_field_key e.subtags))
        (find_extension 116 r.extensions)) None (answered result (span_text bytes.now language.new)) }
    ensures within { IsTrue result → IsWithin bytes.now language.new }
    ensures place { IsTrue result → EachRecord bytes.now (λ r. BeginsWith 116 (spec.subtags_of 116 r) r language.new) }
    ensures nothing { result ≡ false → language.new ≡ language.old }
{
    let subtags = extension_subtags(bytes, b't');
    if subtags.len == 0 {
        return false;
    }
    *language = before_key(bytes, subtags, Keys::Transform);
    true
}

/// Finds the value of a field of the extension t, as `langtag_keyword` does for u: hepburn for m0 in und-t-ja-m0-hepburn.
#[unsafe(no_mangle)]
pub extern "C" fn langtag_field(bytes: &[u8], key: &[u8], value: &mut Span) -> bool
    // law: the value that `field` returns, as a span of the tag
    ensures value { PartOf bytes.now (λ r. option_map join (spec.value_of is_field_key key.now (spec.subtags_of 116 r))) None
        (answered result (span_text bytes.now value.new)) }
    ensures within { IsTrue result → IsWithin bytes.now value.new }
    ensures place { IsTrue result → EachRecord bytes.now (λ r. BeginsWith 116 (after_key is_field_key key.now (spec.subtags_of 116 r)) r
        value.new) }
    ensures nothing { result ≡ false → value.new ≡ value.old }
{
    let subtags = extension_subtags(bytes, b't');
    let Some(found) = value_of(bytes, subtags, Keys::Transform, key) else {
        return false;
    };
    *value = found;
    true
}

/// Writes the next field of the extension t, as `langtag_next_keyword` does for the keywords of u.
#[unsafe(no_mangle)]
pub extern "C" fn langtag_next_field(
    bytes: &[u8],
    passed: &mut usize,
    key: &mut Span,
    value: &mut Span,
) -> bool
    // law: the next field after so many subtags
    ensures taken { IsTrue result → EachRecord bytes.now (λ r. keywords_from is_field_key (spec.subtags_of 116 r) passed.old
        ≡ record { key = span_text bytes.now key.new; value = span_text bytes.now value.new } ∷ keywords_from is_field_key
        (spec.subtags_of 116 r) passed.new) }
    // law: only a normal tag has one
    ensures other { (IsNormal bytes.now → ⊥) → result ≡ false }
    // law: there is none if and only if none is left
    ensures end { result ≡ false → EachRecord bytes.now
        (λ r. keywords_from is_field_key (spec.subtags_of 116 r) passed.old ≡ []) }
    ensures within { IsTrue result → IsWithin bytes.now key.new × IsWithin bytes.now value.new }
    ensures place { IsTrue result → EachRecord bytes.now (λ r. AreAfter is_field_key 116 passed.new bytes.now r key.new value.new) }
    ensures nothing { result ≡ false → (passed.new ≡ passed.old) × (key.new ≡ key.old) × (value.new ≡ value.old) }
{
    let subtags = extension_subtags(bytes, b't');
    let Some(place) = next_key(bytes, subtags, Keys::Transform, passed) else {
        return false;
    };
    *key = place.key;
    *value = place.value;
    true
}
