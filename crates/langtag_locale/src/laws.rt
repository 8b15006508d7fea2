//! Laws of the form of a Unicode locale identifier (UTS #35, part 1, Annex C), and of the locale to format with. The toolchain
//! checks only contracts, so each law is the clause of a function that does nothing.
ghost use Rattle.std.specs.Prelude.{◌≡◌, ℕ, IsTrue, List};
ghost use Rattle.langtag_likely.specs.Marked.{as_read};
ghost use Rattle.langtag_locale.specs.Locale.{IsLocale, is_locale_record};
ghost use Rattle.langtag_locale.specs.LocaleForm.{locale_record};
ghost use Rattle.langtag_locale.specs.Resolved.{IsResolved};
ghost use Rattle.langtag_locale.specs.ResolvedLaws.{AsksNothing, ComesBack, EachResolved, HasRegisteredPlace, IsInOneScript, IsServed, IsSettled, KeepsParts, RepeatsNoMore, RepeatsNothing};
ghost use Rattle.langtag_scan.specs.Grammar.{EachRecord, IsTag};
ghost use Rattle.langtag_fields.specs.Valid.{IsValid};
ghost use Rattle.langtag_scan.specs.Record as model;

/// The form of a Unicode locale identifier is a Unicode locale identifier.
#[tactic(auto, using(crate::proofs::LocaleTwice::locale_settled))]
fn form_is_locale()
    // law: the form of a Unicode locale identifier is one
    ensures locale { (r : model.Record) → model.IsWellFormed r → IsTrue (is_locale_record r)
        → IsTrue (is_locale_record (locale_record r)) }
{}

/// The locale to format with has the parts of the tag, except the script, the region and the keywords of `u`.
fn parts_are_kept()
    // law: the locale to format with has the tag's language, variants, attributes, other extensions and private use, byte for byte
    ensures parts { EachResolved KeepsParts }
{}

/// The maximal form of the locale to format with has the language and the script of the tag's maximal form.
fn script_is_kept()
    // law: the maximal form of the locale to format with has the language and the script of the tag's maximal form
    ensures script { EachResolved IsInOneScript }
{}

/// The locale to format with has the region and the keywords of the range.
#[tactic(auto, using(crate::proofs::ServedRange::range_served))]
fn range_is_served()
    // law: the locale to format with has the region of the range, ignoring case, and each of its keywords, in canonical form
    ensures served { (range tag resolved : List ℕ) → IsResolved range tag resolved → IsServed range tag resolved }
{}

/// The tag comes back if its script, its region and its `u` are put back.
fn parts_come_back()
    // law: the script, the region and the `u` of the tag, put back, restore the tag, if its `u` is in its place
    ensures comes_back { EachResolved ComesBack }
{}

/// The locale to format with is the tag if the range asks for no region and no keyword.
fn nothing_is_asked()
    // law: if the range asks for no region and no keyword, the locale to format with is the tag, byte for byte
    ensures unchanged { (range tag resolved : List ℕ) → IsResolved range tag resolved → AsksNothing range tag → resolved ≡ tag }
{}

/// The locale to format with is a tag.
fn resolved_is_tag()
    // law: the locale to format with is a tag
    ensures tag { (range tag resolved : List ℕ) → IsResolved range tag resolved → IsTag tag → IsTag resolved }
{}

/// The locale to format with repeats no variant and no singleton unless the tag does.
fn nothing_is_repeated()
    // law: the locale to format with repeats no variant and no singleton unless the tag does
    ensures repeats { EachResolved RepeatsNoMore }
{}

/// The locale to format with is a Unicode locale identifier if the tag is.
fn resolved_is_locale()
    // law: the locale to format with is a Unicode locale identifier if the tag is
    ensures locale { (range tag resolved : List ℕ) → IsResolved range tag resolved → IsLocale tag → IsLocale resolved }
{}

/// The locale to format with is valid if the tag is, and its script and its region are registered.
fn resolved_is_valid()
    // law: the locale to format with is valid if the tag is, and its script and its region are registered
    ensures valid { (range tag resolved : List ℕ) → IsResolved range tag resolved → IsValid tag
        → EachRecord resolved HasRegisteredPlace → IsValid resolved }
{}

/// The same range asks nothing more of the locale to format with, if no singleton is repeated.
#[tactic(auto, using(crate::proofs::ResolvedTags::is_settled))]
fn asked_again()
    // law: asking for the same again changes nothing, if the tag repeats no singleton
    ensures settled { (l r : model.Record) → model.IsWellFormed l → IsTrue (is_locale_record (as_read l)) → model.IsWellFormed r
        → RepeatsNothing r → IsSettled l r }
{}
