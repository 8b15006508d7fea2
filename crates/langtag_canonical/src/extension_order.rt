//! The order of extensions (RFC 5646 section 4.5): by their singletons, ignoring case.
ghost use Rattle.std.specs.Prelude.{◌≡◌, ◌↔◌, List, true};
ghost use Rattle.langtag_scan.specs.Record as model;
ghost use Rattle.langtag.specs.Definitions.{SpellsExtensions, extensions_text};
ghost use Rattle.langtag_canonical.specs.Canonical.{in_order};

use langtag_extension::{Extensions, folded_singleton};

/// Returns whether extensions are in order, which means that no singleton is less than the singleton before it.
#[tactic(auto, using(crate::proofs::ExtensionOrder::rise_in_order, std::proofs::lemmas::Bool::Decides::nat_tests))]
pub(crate) fn are_in_order(extensions: Extensions<'_>) -> bool
    ensures { (es : List model.Extension) → SpellsExtensions es (extensions_text extensions.entry) → (result ≡ true)
        ↔ (in_order es ≡ es) }
{
    let mut last = 0;
    for extension in extensions.iter() {
        let singleton = folded_singleton(extension);
        if singleton < last {
            return false;
        }
        last = singleton;
    }
    true
}
