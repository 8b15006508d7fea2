//! How the canonical form of a tag is made (RFC 5646 section 4.5).
ghost use Rattle.std.specs.Prelude.{◌≡◌, ◌↔◌, true, option_map};
ghost use Rattle.langtag_scan.specs.Grammar.{EachRecord};
ghost use Rattle.langtag.specs.Definitions.{region_text, lang_tag_text, normal_lang_tag_text};
ghost use Rattle.langtag_canonical.specs.Canonical.{IsReplacedForm, canonical_record, canonical_region};
ghost use Rattle.langtag_canonical.specs.Form.{IsCanonicalAs};
ghost use Rattle.langtag_canonical.specs.declared.form.Form.TheVariants.{Same};

use crate::canonical_language::is_canonical_language;
use crate::canonical_variants::are_canonical_variants;
use crate::extension_order::are_in_order;
use langtag::{LangTag, NormalLangTag};
use langtag_fields::{preferred_region, preferred_tag};
use langtag_place::Region;

/// How the canonical form of a tag is made.
#[derive(Drop)]
pub(crate) enum Form<'a> {
    /// The tag itself.
    Same,
    /// The Preferred-Value of the whole tag.
    Whole(LangTag<'static>),
    /// This tag with its parts in their canonical forms, or the Preferred-Value of the tag that these parts make up.
    Parts(NormalLangTag<'a>),
}

/// Returns how the canonical form of a tag is made. It is inlined, so that the `Form` is not written to memory.
#[inline(always)]
#[tactic(auto, using(crate::proofs::CanonicalParts::kept_form, crate::proofs::CanonicalParts::preferred_goes, crate::proofs::CanonicalParts::record_form, crate::proofs::CanonicalParts::own_record, crate::proofs::TwiceLaws::itself), unfolding(langtag_scan::specs::Tag::IsNormal))]
pub(crate) fn form_of(tag: LangTag<'_>) -> Form<'_>
    ensures form { IsCanonicalAs (lang_tag_text tag.entry) result }
    ensures same { IsReplacedForm (lang_tag_text tag.entry) (lang_tag_text tag.entry) → result ≡ Same }
{
    if let Some(preferred) = preferred_tag(tag) {
        return Form::Whole(preferred);
    }
    let Some(normal) = tag.as_normal() else {
        return Form::Same;
    };
    // Most tags are their own canonical form.
    if has_canonical_parts(normal) || tag.is_grandfathered() {
        return Form::Same;
    }
    Form::Parts(normal)
}

/// Returns whether all parts of a tag are in their canonical forms.
#[tactic(auto, using(crate::proofs::CanonicalParts::parts_stay, crate::proofs::CanonicalParts::record_stays, langtag::proofs::PartRules::language_spelled, langtag::proofs::PartRules::variants_listed))]
fn has_canonical_parts(tag: NormalLangTag<'_>) -> bool
    ensures { EachRecord (normal_lang_tag_text tag.entry) (λ r. (result ≡ true) ↔ (canonical_record r ≡ r)) }
{
    is_canonical_language(tag.language())
        && is_canonical_region(tag.region())
        && are_canonical_variants(tag.variants())
        && are_in_order(tag.extensions())
}

/// Returns whether the region has no Preferred-Value.
fn is_canonical_region(region: Option<Region<'_>>) -> bool
    ensures { (result ≡ true) ↔ (canonical_region (option_map region_text region.entry) ≡ option_map region_text region.entry) }
{
    match region {
        Some(region) => preferred_region(region).is_none(),
        None => true,
    }
}
