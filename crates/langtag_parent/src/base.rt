//! The language, the script and the region of a tag.
ghost use Rattle.std.specs.Prelude.{◌≡◌, ◌≤◌, ◌∷◌, IsTrue, [], nat_lt, None, Some, length, if◌then◌else◌, option_map};
ghost use Rattle.langtag_scan.specs.Grammar.{EachRecord, join};
ghost use Rattle.langtag.specs.Definitions.{EachLanguageSpelling, language_text, normal_lang_tag_text};
ghost use Rattle.langtag_text.specs.FieldClasses.{is_language_field, is_script_field, is_region_field};
ghost use Rattle.langtag_cldr.specs.Definitions.{field_texts};
ghost use Rattle.langtag_likely.specs.Marked.{as_read, mark_of};
ghost use Rattle.langtag_parent.specs.Parent.{is_empty};

use langtag::{NormalLangTag, region_field, script_field};
use langtag_cldr::{TagFields, or_other};
use langtag_language::Language;

/// A language with its extended subtags, a script and a region. The script and the region are empty if they are absent.
#[derive(Clone, Copy, Debug)]
pub(crate) struct Base<'a> {
    pub language: &'a [u8],
    pub script: &'a [u8],
    pub region: &'a [u8],
    // A language with extended subtags has more than three bytes.
    pub ghost language_class: { length language.now ≤ 3 → IsTrue (is_language_field language.now) },
    pub ghost some_language: { 1 ≤ length language.now },
    pub ghost short_language: { length language.now ≤ 15 },
    pub ghost script_class: { IsTrue (is_script_field script.now) },
    pub ghost region_class: { IsTrue (is_region_field region.now) },
}

impl<'a> Base<'a> {
    ghost use Rattle.langtag_cldr.specs.Definitions.{language_alone, without_region, without_script};
    ghost use Rattle.langtag_parent.specs.Base.{base_fields};
    ghost use Rattle.langtag_parent.specs.Parent.{fields_of, with_script};

    /// Returns the language, the script and the region of a tag, which may have a region with Android's mark.
    #[tactic(auto, using(crate::proofs::Bases::read_fields, langtag_likely::proofs::MarkLaws::either_region))]
    pub(crate) fn of(tag: NormalLangTag<'a>, marked: &'a [u8]) -> Base<'a>
        requires mark { EachRecord (normal_lang_tag_text tag) (λ r. marked.now ≡ mark_of r) }
        requires in_class { IsTrue (is_region_field marked.now) }
        ensures { EachRecord (normal_lang_tag_text tag.entry) (λ r. base_fields result ≡ fields_of (as_read r)) }
    {
        Base {
            language: language_before(tag.language(), marked),
            script: script_field(tag.script()),
            region: or_other(region_field(tag.region()), marked),
        }
    }

    /// Returns fields of CLDR.
    #[tactic(auto, using(langtag_cldr::proofs::FieldClasses::language_length))]
    pub(crate) fn of_fields(fields: TagFields<'a>) -> Base<'a>
        requires { 1 ≤ length fields.language.now }
        ensures { base_fields result ≡ field_texts fields.entry }
    {
        Base {
            language: fields.language,
            script: fields.script,
            region: fields.region,
        }
    }

    /// Returns the fields as CLDR reads them, or `None` if CLDR has no such language, because it has more than three
    /// bytes.
    pub(crate) fn fields(self) -> Option<TagFields<'a>>
        ensures { option_map field_texts result
            ≡ if nat_lt 3 (length self.entry.language.now) then None else Some (base_fields self.entry) }
    {
        if self.language.len() > 3 {
            return None;
        }
        Some(TagFields {
            language: self.language,
            script: self.script,
            region: self.region,
        })
    }

    /// Returns the language alone.
    pub(crate) fn language_alone(self) -> Base<'a>
        ensures { base_fields result ≡ language_alone (base_fields self.entry) }
    {
        Base {
            language: self.language,
            script: b"",
            region: b"",
        }
    }

    /// Returns the language and the region.
    pub(crate) fn without_script(self) -> Base<'a>
        ensures { base_fields result ≡ without_script (base_fields self.entry) }
    {
        Base {
            language: self.language,
            script: b"",
            region: self.region,
        }
    }

    /// Returns the language and the script.
    pub(crate) fn without_region(self) -> Base<'a>
        ensures { base_fields result ≡ without_region (base_fields self.entry) }
    {
        Base {
            language: self.language,
            script: self.script,
            region: b"",
        }
    }

    /// Returns the fields with another script.
    pub(crate) fn with_script(self, script: &'a [u8]) -> Base<'a>
        requires { IsTrue (is_script_field script.now) }
        ensures { base_fields result ≡ with_script (base_fields self.entry) script.now }
    {
        Base {
            language: self.language,
            script,
            region: self.region,
        }
    }
}

/// Returns a language with its extended subtags, or without them if they are a region with Android's mark.
#[tactic(auto, using(crate::proofs::Bases::of_language_test, crate::proofs::Bases::of_primary_test))]
fn language_before<'a>(language: Language<'a>, marked: &[u8]) -> &'a [u8]
    ensures text { EachLanguageSpelling (language_text language.entry)
        (λ primary extended. result.now ≡ if is_empty marked.now then join (primary ∷ extended) else primary) }
    ensures in_class { length result.now ≤ 3 → IsTrue (is_language_field result.now) }
    ensures some { 1 ≤ length result.now }
    ensures short { length result.now ≤ 15 }
{
    if marked.is_empty() {
        language.as_bytes()
    } else {
        language.primary().as_bytes()
    }
}
