//! Whether a language with its extended subtags is its own canonical form (RFC 5646 section 4.5).
ghost use Rattle.std.specs.Prelude.{◌≡◌, ◌↔◌, true};
ghost use Rattle.langtag.specs.Definitions.{EachLanguageSpelling, language_text};
ghost use Rattle.langtag_canonical.specs.Canonical.{canonical_primary, canonical_extended};

use langtag_fields::{is_registered_extlang, preferred_language};
use langtag_language::Language;

/// Returns whether a language is its own canonical form: `true` for `he`, `zh-fra` and `zh-cmn-yue`, `false` for `iw`,
/// `iw-fra` and `zh-yue`.
#[tactic(auto, using(crate::proofs::ReplacedSubtags::alone_stays, crate::proofs::ReplacedSubtags::other_stays, crate::proofs::ReplacedSubtags::stays_without, crate::proofs::ReplacedSubtags::language_settled))]
pub(crate) fn is_canonical_language(language: Language<'_>) -> bool
    ensures { EachLanguageSpelling (language_text language.entry) (λ primary extended.
        (result ≡ true) ↔ ((canonical_primary primary extended ≡ primary) × (canonical_extended extended ≡ extended))) }
{
    let mut extlangs = language.extension_subtags();
    let Some(extlang) = extlangs.next() else {
        return preferred_language(language.primary()).is_none();
    };
    let None = extlangs.next() else {
        return true;
    };
    if is_registered_extlang(extlang) {
        return false;
    }
    preferred_language(language.primary()).is_none()
}
