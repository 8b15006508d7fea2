//! Singletons that occur twice in a tag. Such a tag is well formed but not valid (RFC 5646 section 2.2.6).
ghost use Rattle.std.specs.Prelude.{◌≡◌, List, map};
ghost use Rattle.langtag_scan.specs.Record as model;
ghost use Rattle.langtag_place.specs.Repeat.{repeat_index, are_alike_bytes};
ghost use Rattle.langtag_extension.specs.Spelling.{SpellsExtensions};
ghost use Rattle.langtag_extension.specs.Text.{extensions_text};

use langtag_extension::Extensions;
use langtag_scan::into_smallcase;

/// Returns the index of the first of these extensions whose singleton equals the singleton of an earlier extension,
/// ignoring case.
#[tactic(auto, using(crate::proofs::SingletonRepeats::flag_bounds))]
pub(crate) fn first_repeated_singleton(extensions: Extensions<'_>) -> Option<usize>
    ensures { (es : List model.Extension) → SpellsExtensions es (extensions_text extensions.entry) →
        result ≡ repeat_index are_alike_bytes (map (λ e. e.singleton) es) }
{
    let mut seen = [false; 128];
    for (index, extension) in extensions.iter().enumerate() {
        let byte = into_smallcase(extension.singleton().unwrap()) as usize;
        if seen[byte] {
            return Some(index);
        }
        seen[byte] = true;
    }
    None
}
