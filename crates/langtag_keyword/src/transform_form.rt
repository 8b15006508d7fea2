//! The canonical form of the extension `t`, written to an output.
ghost use Rattle.std.specs.Prelude.{◌≡◌, ◌∷◌, [], false};
ghost use Rattle.langtag_scan.specs.Grammar.{AllByRecursion, subtags, IsSubtag};
ghost use Rattle.langtag_text.specs.Output.{Pushes};
ghost use Rattle.langtag_keyword.specs.Form as spec;
ghost use Rattle.langtag_keyword.specs.Keywords.{before_key};
ghost use Rattle.langtag_keyword.specs.Transform.{is_field_key};

use crate::keys::Keys;
use crate::keyword_form::push_keywords;
use crate::language_id::{is_language_id, push_language_id};
use crate::subtags::preceding;
use langtag_scan::Subtags;
use langtag_text::Output;

/// Returns whether the subtags after the singleton are what UTS #35 allows: a language, fields, or both.
pub fn is_transform(text: &str) -> bool
    requires { AllByRecursion IsSubtag (subtags text.now) }
    ensures { result ≡ spec.is_transform (subtags text.now) }
{
    is_language_or_none(text) && are_fields(text)
}

/// Returns whether the string before the fields is a language or empty.
fn is_language_or_none(text: &str) -> bool
    requires { AllByRecursion IsSubtag (subtags text.now) }
    ensures { result ≡ spec.is_language_or_none (before_key is_field_key (subtags text.now)) }
{
    match preceding(text, Keys::Transform) {
        Some(language) => is_language_id(language),
        None => true,
    }
}

/// Appends the canonical form of the extension `t` with these subtags.
pub(crate) fn push_transform(out: &mut Output<'_>, text: &str)
    requires { AllByRecursion IsSubtag (subtags text.now) }
    ensures { Pushes ((116 ∷ []) ∷ spec.transform_form (subtags text.now)) out.old out.new }
{
    out.push_subtag(b"t");
    push_transform_language(out, text);
    push_keywords(out, text, Keys::Transform);
}

/// Appends the canonical form of the language before the fields.
fn push_transform_language(out: &mut Output<'_>, text: &str)
    requires { AllByRecursion IsSubtag (subtags text.now) }
    ensures { Pushes (spec.language_form (before_key is_field_key (subtags text.now))) out.old out.new }
{
    if let Some(language) = preceding(text, Keys::Transform) {
        push_language_id(out, language);
    }
}

/// Returns whether each field has a value, and all subtags of values have three characters or more.
fn are_fields(text: &str) -> bool
    ensures { result ≡ spec.are_fields false false (subtags text.now) }
{
    let mut in_fields = false;
    let mut after_key = false;
    for subtag in Subtags::new(text) {
        if !may_follow(in_fields, after_key, subtag) {
            return false;
        }
        after_key = Keys::Transform.has(subtag.as_bytes());
        in_fields = in_fields || after_key;
    }
    !after_key
}

/// Returns whether a subtag may follow the subtags before it.
fn may_follow(in_fields: bool, after_key: bool, subtag: &str) -> bool
    ensures { result ≡ spec.may_follow in_fields after_key subtag.now }
{
    if Keys::Transform.has(subtag.as_bytes()) {
        return !after_key;
    }
    !in_fields || subtag.len() >= 3
}
