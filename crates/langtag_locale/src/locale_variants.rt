//! The variants in the form of a Unicode locale identifier (UTS #35, part 1, Annex C).
ghost use Rattle.std.specs.Prelude.{◌≡◌, ◌≤◌, IsTrue, List, false, find, map, ℕ, option_map};
ghost use Rattle.langtag_scan.specs.Grammar.{AllByRecursion, list_any, are_alike, is_variant, one_flat, segments_left, IsSubtag};
ghost use Rattle.langtag_text.specs.Fields.{subtag_of};
ghost use Rattle.langtag.specs.Definitions.{Pushes};
ghost use Rattle.langtag_keyword.specs.Least.{IsOffered, order_number};
ghost use Rattle.langtag_keyword.specs.Identifier.{AreVariants};
ghost use Rattle.langtag_locale.specs.LocaleAliases as list;
ghost use Rattle.langtag_locale.specs.LocaleForm as spec;

use crate::locale_tables as tables;
use langtag::case_insensitive_eq;
use langtag_keyword::{
    FEW, LeastNumbers, MANY, are_few, is_among, order_number, push_numbers, split_first,
};
use langtag_text::{Output, alias_for, type_alias_for};

/// Appends the variants of a language identifier in their forms, each once, in lowercase and in alphabetical order.
pub(crate) fn push_variants(out: &mut Output<'_>, language: &[u8], variants: Option<&str>)
    requires { AreVariants (segments_left variants) }
    ensures { Pushes (spec.variants_form language.now (segments_left variants.entry)) out.old out.new }
{
    if are_few(variants) {
        return push_with_room::<FEW>(out, language, variants);
    }
    push_with_room::<MANY>(out, language, variants);
}

/// Appends what [`push_variants`] appends. Each walk over the variants finds the next `ROOM / 2` forms, or more.
// This function is not inlined, so that callers with few variants do not use the stack that many take.
#[inline(never)]
fn push_with_room<const ROOM: usize>(out: &mut Output<'_>, language: &[u8], variants: Option<&str>)
    requires room { (2 ≤ ROOM) × (ROOM ≤ 1024) }
    requires variants { AreVariants (segments_left variants) }
    ensures { Pushes (spec.variants_form language.now (segments_left variants.entry)) out.old out.new }
{
    let mut least = LeastNumbers::<ROOM>::new();
    let mut more = true;
    while more {
        offer_forms(&mut least, language, variants);
        least.sort();
        push_numbers(out, least.kept());
        more = least.advance();
    }
}

/// Offers the numbers of the forms of variants.
fn offer_forms<const ROOM: usize>(
    least: &mut LeastNumbers<ROOM>,
    language: &[u8],
    variants: Option<&str>,
)
    requires { AreVariants (segments_left variants) }
    ensures { IsOffered (map order_number (spec.forms language.now (segments_left variants.entry) (segments_left variants.entry)))
        least.old least.new }
{
    let mut rest = variants;
    while let Some(text) = rest {
        let (variant, others) = split_first(text);
        offer_form(least, language, variants, variant);
        rest = others;
    }
}

/// Offers the number of the form of a variant, unless the variant is left out.
fn offer_form<const ROOM: usize>(
    least: &mut LeastNumbers<ROOM>,
    language: &[u8],
    variants: Option<&str>,
    variant: &str,
)
    requires { IsTrue (is_variant variant.now) }
    ensures { IsOffered (map order_number
        (one_flat (subtag_of (spec.variant_form language.now (segments_left variants.entry) variant.now)))) least.old least.new }
{
    let number = order_number(variant.as_bytes());
    if may_change(number) {
        return offer_changed(least, variant_form(language, variants, variant));
    }
    least.offer(number);
}

/// Returns whether the variant with this number may have another form. Most variants never do, and this is a quick test.
fn may_change(number: u64) -> bool
    ensures { result ≡ false → (variant : List ℕ) → order_number variant ≡ number → (language : List ℕ) (variants : List (List ℕ))
        → spec.variant_form language variants variant ≡ variant }
{
    tables::CHANGING_VARIANTS.contains(&number)
}

/// Offers the number of a form, unless the form is empty.
fn offer_changed<const ROOM: usize>(least: &mut LeastNumbers<ROOM>, form: &str)
    requires { AllByRecursion IsSubtag (one_flat (subtag_of form.now)) }
    ensures { IsOffered (map order_number (one_flat (subtag_of form.now))) least.old least.new }
{
    if !form.is_empty() {
        least.offer(order_number(form.as_bytes()));
    }
}

/// Returns a variant, the variant that replaces it, or the empty string if it is left out.
#[tactic(auto, unfolding(crate::specs::LocaleForm::variant_form))]
fn variant_form<'a>(language: &[u8], variants: Option<&str>, variant: &'a str) -> &'a str
    ensures { result.now ≡ spec.variant_form language.now (segments_left variants.entry) variant.now }
{
    if type_alias_for(variant_languages(), language, variant.as_bytes()).is_some()
        || is_dropped(variant)
    {
        return "";
    }
    if let Some(new) = replaced_pair(variant, variants) {
        return new;
    }
    match alias_for(variant_aliases(), variant.as_bytes()) {
        Some(new) => new,
        None => variant,
    }
}

/// Returns the variant that replaces a variant together with another variant.
fn replaced_pair(variant: &str, variants: Option<&str>) -> Option<&'static str>
    ensures { option_map (λ t. t.now) result
        ≡ option_map (λ alias. alias.new) (find (spec.is_pair_of (segments_left variants.entry) variant.now) list.variant_pairs) }
{
    let mut rows = variant_pairs();
    while let [(first, second, new), others @ ..] = rows {
        if case_insensitive_eq(first.as_bytes(), variant.as_bytes())
            && is_among(variants, second.as_bytes())
        {
            return Some(new);
        }
        rows = others;
    }
    None
}

/// Returns whether a variant is left out of the form.
fn is_dropped(variant: &str) -> bool
    ensures { result ≡ list_any (are_alike variant.now) list.dropped_variants }
{
    let mut rows = dropped_variants();
    while let [dropped, others @ ..] = rows {
        if case_insensitive_eq(variant.as_bytes(), dropped.as_bytes()) {
            return true;
        }
        rows = others;
    }
    false
}

#[tactic(auto, using(crate::proofs::LocaleTables::all_rows))]
pub(crate) fn variant_languages() -> &'static [(&'static str, &'static str, &'static str)]
    ensures { map (λ row. record { key = row.0.now; old = row.1.now; new = row.2.now }) result.now ≡ list.variant_languages }
{
    &tables::VARIANT_LANGUAGES
}

#[tactic(auto, using(crate::proofs::LocaleTables::all_rows))]
fn variant_pairs() -> &'static [(&'static str, &'static str, &'static str)]
    ensures { map (λ row. record { key = row.0.now; old = row.1.now; new = row.2.now }) result.now ≡ list.variant_pairs }
{
    &tables::VARIANT_PAIRS
}

#[tactic(auto, using(crate::proofs::LocaleTables::all_rows))]
fn variant_aliases() -> &'static [(&'static str, &'static str)]
    ensures { map (λ row. record { old = row.0.now; new = row.1.now }) result.now ≡ list.variant_aliases }
{
    &tables::VARIANT_ALIASES
}

#[tactic(auto, using(crate::proofs::LocaleTables::all_rows))]
fn dropped_variants() -> &'static [&'static str]
    ensures { map (λ row. row.now) result.now ≡ list.dropped_variants }
{
    &tables::DROPPED_VARIANTS
}
