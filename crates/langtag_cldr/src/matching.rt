//! The fields by which two tags are compared (UTS #35, part 1, section 'Language Matching'). They are those of the
//! longest prefix of a tag that is a normal tag. A tag that the registry replaces as a whole has the fields of its
//! replacement, so `i-klingon` is as near as `tlh`. Private-use tags and `i-default` begin with no language, so they have
//! none. A region in digits stays, such as `840`, as in ICU's LocaleMatcher, although `maximized` looks up `US` for it.
//! The fields of a string are read in one call, in which all else is inlined.
ghost use Rattle.std.specs.Prelude.{◌≡◌, option_map};
ghost use Rattle.langtag_cldr.specs.Matching as spec;
ghost use Rattle.langtag_cldr.specs.Definitions.{field_texts};

use crate::aliases::{language_replaced, letters_replaced};
use crate::likely::add_likely;
use crate::read_text::are_alike;
use crate::tag_fields::TagFields;

/// Returns the matching form of a string: its fields, with deprecated subtags replaced and likely subtags added.
/// Returns `None` for `und`, and for a string that does not begin with a language.
#[tactic(auto, using(crate::proofs::AlikeFields::form_completed))]
pub fn matching_form(text: &[u8]) -> Option<TagFields<'_>>
    ensures { option_map field_texts result ≡ spec.matching_form text.now }
{
    Some(completed(replaced_form(text)?))
}

/// Returns the fields of a string, with its language replaced if CLDR replaces it.
#[tactic(auto, unfolding(crate::specs::Matching::replaced_form))]
#[inline(never)]
pub fn replaced_form(text: &[u8]) -> Option<TagFields<'_>>
    ensures { option_map field_texts result ≡ spec.replaced_form text.now }
{
    if are_alike(text, b"und") {
        return None;
    }
    Some(language_replaced(TagFields::of_text(text)?))
}

/// Returns the fields with a deprecated region of two letters replaced, and with likely subtags added.
pub fn completed<'a>(fields: TagFields<'a>) -> TagFields<'a>
    ensures { field_texts result ≡ spec.completed (field_texts fields.entry) }
{
    most_likely(letters_replaced(fields))
}

/// Returns the fields with likely subtags added. If no likely subtags of the language are known, script and region
/// are what they would be without the language.
#[tactic(auto, unfolding(crate::specs::Matching::most_likely))]
fn most_likely<'a>(fields: TagFields<'a>) -> TagFields<'a>
    ensures { field_texts result ≡ spec.most_likely (field_texts fields.entry) }
{
    if let Some(most) = add_likely(fields) {
        return most;
    }
    match add_likely(fields.without_language()) {
        Some(likely) => fields.keeping_language(likely),
        None => fields,
    }
}

impl<'a> TagFields<'a> {
    /// Returns the script and the region.
    fn without_language(self) -> TagFields<'a>
        ensures { field_texts result ≡ spec.without_language (field_texts self.entry) }
    {
        TagFields {
            language: b"",
            script: self.script,
            region: self.region,
        }
    }

    /// Returns the language of these fields, with the script and the region of `others`.
    fn keeping_language(self, others: TagFields<'a>) -> TagFields<'a>
        ensures { field_texts result ≡ spec.keeping_language (field_texts self.entry) (field_texts others.entry) }
    {
        TagFields {
            language: self.language,
            script: others.script,
            region: others.region,
        }
    }
}
