//! Where the keywords and attributes of the extension `u` are (RFC 6067 section 2.1).
ghost use Rattle.std.specs.Prelude.{◌≡◌, ◌↔◌, ◌<◌, ◌∷◌, [], None, IsTrue, false, option_map};
ghost use Rattle.langtag_scan.specs.Grammar.{EachRecord, join, IsNormal};
ghost use Rattle.langtag.specs.Definitions.{PartOf};
ghost use Rattle.langtag_keyword.specs.Keywords as spec;
ghost use Rattle.langtag_c.specs.Answers.{answered};
ghost use Rattle.langtag_c.specs.Keywords.{AreAfter, BeginsWith, after_key, keywords_from};
ghost use Rattle.langtag_c.specs.Spans.{IsWithin, span_text};

use crate::extension_walk::{before_key, extension_subtags, next_key, value_of};
use crate::span::Span;
use langtag_keyword::Keys;

/// Returns whether the extension u has a key (RFC 6067 section 2.1), ignoring case, and writes where its value is
/// (out).
///
/// ```c
/// const char *text = "ar-EG-u-ca-islamic-civil-nu-latn";
/// langtag_span value;
/// if (langtag_keyword(text, strlen(text), "ca", 2, &value))
///     printf("%.*s\n", (int)value.len, text + value.start); // islamic-civil
/// ```
///
/// The value is empty if the key has none, such as kn in de-u-kn. An empty value means true. If a key or the extension
/// is repeated, the first one counts.
///
/// Returns false and leaves `value` unchanged if the key is absent, or the string is not a tag.
#[unsafe(no_mangle)]
pub extern "C" fn langtag_keyword(bytes: &[u8], key: &[u8], value: &mut Span) -> bool
    // law: the value that `keyword` returns, as a span of the tag
    ensures value { PartOf bytes.now (λ r. option_map join (spec.value_of spec.is_key key.now (spec.subtags_of 117 r))) None
        (answered result (span_text bytes.now value.new)) }
    ensures within { IsTrue result → IsWithin bytes.now value.new }
    ensures place { IsTrue result → EachRecord bytes.now (λ r. BeginsWith 117 (after_key spec.is_key key.now (spec.subtags_of 117 r)) r
        value.new) }
    ensures nothing { result ≡ false → value.new ≡ value.old }
{
    let subtags = extension_subtags(bytes, b'u');
    let Some(found) = value_of(bytes, subtags, Keys::Unicode, key) else {
        return false;
    };
    *value = found;
    true
}

/// Writes where the key and the value of the next keyword of the extension u are (out). The value may be empty. Each
/// key is returned once, with its first value. `passed` counts the subtags of u that were passed. Begin with 0, and let
/// the calls change it:
///
/// ```c
/// const char *text = "ar-u-ca-islamic-civil-nu-latn";
/// size_t passed = 0, len = strlen(text);
/// langtag_span key, value;
/// while (langtag_next_keyword(text, len, &passed, &key, &value))
///     printf("%.*s=%.*s ", (int)key.len, text + key.start, (int)value.len, text + value.start); // ca=islamic-civil nu=latn
/// ```
///
/// Returns false and leaves all three unchanged if no keyword is left, or the string is not a tag.
#[unsafe(no_mangle)]
pub extern "C" fn langtag_next_keyword(
    bytes: &[u8],
    passed: &mut usize,
    key: &mut Span,
    value: &mut Span,
) -> bool
    // law: the next keyword after so many subtags
    ensures taken { IsTrue result → EachRecord bytes.now (λ r. keywords_from spec.is_key (spec.subtags_of 117 r) passed.old
        ≡ record { key = span_text bytes.now key.new; value = span_text bytes.now value.new } ∷ keywords_from spec.is_key
        (spec.subtags_of 117 r) passed.new) }
    // law: only a normal tag has one
    ensures other { (IsNormal bytes.now → ⊥) → result ≡ false }
    // law: there is none if and only if none is left
    ensures end { result ≡ false → EachRecord bytes.now (λ r. keywords_from spec.is_key (spec.subtags_of 117 r) passed.old ≡ []) }
    ensures within { IsTrue result → IsWithin bytes.now key.new × IsWithin bytes.now value.new }
    ensures place { IsTrue result → EachRecord bytes.now (λ r. AreAfter spec.is_key 117 passed.new bytes.now r key.new value.new) }
    ensures nothing { result ≡ false → (passed.new ≡ passed.old) × (key.new ≡ key.old) × (value.new ≡ value.old) }
{
    let subtags = extension_subtags(bytes, b'u');
    let Some(place) = next_key(bytes, subtags, Keys::Unicode, passed) else {
        return false;
    };
    *key = place.key;
    *value = place.value;
    true
}

/// Writes where the attributes of the extension u are (out), which come before its first key (RFC 6067 section 2.1):
/// attr-foo in de-u-attr-foo-ca-buddhist. `langtag_next_subtag` returns them one by one. A repeated attribute, which has
/// no meaning, is returned too.
///
/// Returns false, and writes an empty span, if there are none.
#[unsafe(no_mangle)]
pub extern "C" fn langtag_attributes(bytes: &[u8], attributes: &mut Span) -> bool
    ensures text { PartOf bytes.now (λ r. join (spec.before_key spec.is_key (spec.subtags_of 117 r))) []
        (span_text bytes.now attributes.new) }
    ensures some { IsTrue result ↔ 0 < attributes.new.len }
    ensures within { IsWithin bytes.now attributes.new }
    ensures place { IsTrue result → EachRecord bytes.now (λ r. BeginsWith 117 (spec.subtags_of 117 r) r attributes.new) }
{
    let subtags = extension_subtags(bytes, b'u');
    *attributes = before_key(bytes, subtags, Keys::Unicode);
    attributes.len > 0
}
