//! Which singletons extensions have.
ghost use Rattle.std.specs.Prelude.{◌≡◌, List, map};
ghost use Rattle.langtag_scan.specs.Record as model;
ghost use Rattle.langtag_extension.specs.Noted.{AreNoted, small_singleton};
ghost use Rattle.langtag_extension.specs.Spelling.{SpellsExtensions, extension_spelling};
ghost use Rattle.langtag_extension.specs.Text.{extension_text, extensions_text};

use crate::extension::Extension;
use crate::extensions::Extensions;
use langtag_scan::into_smallcase;

/// All singletons (RFC 5646 section 2.2.6) in order.
pub const SINGLETONS: [u8; 35] = *b"0123456789abcdefghijklmnopqrstuvwyz";

/// Returns, for each byte, whether it is the lowercase singleton of one of the extensions.
pub fn singletons_of(extensions: Extensions<'_>) -> [bool; 256]
    ensures { (es : List model.Extension) → SpellsExtensions es (extensions_text extensions.entry)
        → AreNoted result (map extension_spelling es) }
{
    let mut present = [false; 256];
    for extension in extensions.iter() {
        present[usize::from(folded_singleton(extension))] = true;
    }
    present
}

/// Returns the singleton of an extension in lowercase.
pub fn folded_singleton(extension: Extension<'_>) -> u8
    ensures { result ≡ small_singleton (extension_text extension.entry) }
{
    into_smallcase(extension.singleton().unwrap())
}
