//! The script and the region of a tag as strings, which are empty if the tag has none.
ghost use Rattle.std.specs.Prelude.{◌≡◌, [], IsTrue, unwrap_or, option_map};
ghost use Rattle.langtag_text.specs.FieldClasses.{is_script_field, is_region_field};
ghost use Rattle.langtag_place.specs.Text.{script_text, region_text};

use langtag_place::{Region, Script};

/// Returns the string of a script, or the empty string if there is none.
pub fn script_field<'a>(script: Option<Script<'a>>) -> &'a [u8]
    ensures field { result.now ≡ unwrap_or (option_map script_text script.entry) [] }
    ensures in_class { IsTrue (is_script_field result.now) }
{
    match script {
        Some(script) => script.as_bytes(),
        None => b"",
    }
}

/// Returns the string of a region, or the empty string if there is none.
pub fn region_field<'a>(region: Option<Region<'a>>) -> &'a [u8]
    ensures field { result.now ≡ unwrap_or (option_map region_text region.entry) [] }
    ensures in_class { IsTrue (is_region_field result.now) }
{
    match region {
        Some(region) => region.as_bytes(),
        None => b"",
    }
}
