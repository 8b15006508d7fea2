//! The fields of a tag that likely subtags fill in: its language, its script and its region.
ghost use Rattle.std.specs.Prelude.{◌≡◌, IsTrue};
ghost use Rattle.langtag_text.specs.FieldClasses.{is_language_field, is_script_field, is_region_field};

use crate::fields::{known, or_other};
use langtag_scan::case_insensitive_eq;

/// A language, a script and a region. Each is the empty string if it is absent.
#[derive(Clone, Copy)]
pub struct TagFields<'a> {
    pub language: &'a [u8],
    pub script: &'a [u8],
    pub region: &'a [u8],
    pub ghost language_class: { IsTrue (is_language_field language.now) },
    pub ghost script_class: { IsTrue (is_script_field script.now) },
    pub ghost region_class: { IsTrue (is_region_field region.now) },
}

impl<'a> TagFields<'a> {
    ghost use Rattle.langtag_cldr.specs.Likely.{known_fields, filled, language_alone};
    ghost use Rattle.langtag_cldr.specs.Likely.{without_region, without_script, are_alike_fields};
    ghost use Rattle.langtag_cldr.specs.Texts.{field_texts};

    /// Returns the language, without script and region.
    pub fn language_alone(self) -> TagFields<'a>
        ensures { field_texts result ≡ language_alone (field_texts self.entry) }
    {
        TagFields {
            language: self.language,
            script: b"",
            region: b"",
        }
    }

    /// Returns the language and the script.
    pub fn without_region(self) -> TagFields<'a>
        ensures { field_texts result ≡ without_region (field_texts self.entry) }
    {
        TagFields {
            language: self.language,
            script: self.script,
            region: b"",
        }
    }

    /// Returns the language and the region.
    pub fn without_script(self) -> TagFields<'a>
        ensures { field_texts result ≡ without_script (field_texts self.entry) }
    {
        TagFields {
            language: self.language,
            script: b"",
            region: self.region,
        }
    }

    /// Returns the fields without a script `Zzzz` and a region `ZZ`.
    pub fn known(self) -> TagFields<'a>
        ensures { field_texts result ≡ known_fields (field_texts self.entry) }
    {
        TagFields {
            language: self.language,
            script: known(b"Zzzz", self.script),
            region: known(b"ZZ", self.region),
        }
    }

    /// Returns these fields, with each empty field replaced by the same field of `others`.
    pub fn filled(self, others: TagFields<'a>) -> TagFields<'a>
        ensures { field_texts result ≡ filled (field_texts self.entry) (field_texts others.entry) }
    {
        TagFields {
            language: or_other(self.language, others.language),
            script: or_other(self.script, others.script),
            region: or_other(self.region, others.region),
        }
    }

    /// Returns whether the fields are equal, ignoring case.
    pub fn are_alike(self, others: TagFields<'_>) -> bool
        ensures { result ≡ are_alike_fields (field_texts self.entry) (field_texts others.entry) }
    {
        case_insensitive_eq(self.language, others.language)
            && (case_insensitive_eq(self.script, others.script)
                && case_insensitive_eq(self.region, others.region))
    }
}
