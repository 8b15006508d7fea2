//! A tag and its parents. Tests show that no tag stands twice in a chain (rust/tests/rows/likely.rs). A proof would
//! have to compare each pair of members by their records. `zh-Hans-CN` leads to `zh-Hans` before `zh`, as in CLDR's own
//! chains; ICU4X's data have no `zh-Hans`.
ghost use Rattle.std.specs.Prelude.{◌≡◌, ◌∷◌, ◌++◌, ◌≤◌, [], IfSome, MatchOption, drop, length, if◌then◌else◌};
ghost use Rattle.langtag_scan.specs.Grammar.{EachRecord, IsHyphenFree, YieldsFirstBy, ends_of, item_count, option_map_or, spell};
ghost use Rattle.langtag.specs.Definitions.{lang_tag_text, normal_lang_tag_text};
ghost use Rattle.langtag_text.specs.Fields.{Fields};
ghost use Rattle.langtag_likely.specs.Marked.{mark_of};
ghost use Rattle.langtag_parent.specs.Base.{base_fields};
ghost use Rattle.langtag_parent.specs.Chain.{IsChain, above, as_written, bases_left, endings, forms, given_form, unless_empty, whole_chain};
ghost use Rattle.langtag_parent.specs.Chain.{parent_text, parents_left, shorter, text_of, with_each};
ghost use Rattle.langtag_parent.specs.Parent.{has_likely_script, named, parent_of, short};

use crate::base::Base;
use crate::parent_base::parent_of;
use crate::parent_tag::ParentTag;
use crate::scripts::{has_likely_script, named, short};
use langtag::{LangTag, NormalLangTag};
use langtag_likely::marked_region;
use langtag_scan::segment_start;

/// An iterator over a tag and its parents, the nearest first. `es-rUS`, as Android writes `es-US`, is followed by `es-US` and
/// its parents.
///
/// ```
/// use langtag::LangTag;
/// use langtag_parent::Parents;
///
/// Parents::new(LangTag::new("pt-AO")?).count(); // 3: `pt-AO`, `pt-PT` and `pt`
/// ```
#[derive(Clone, Debug, Drop)]
pub struct Parents<'a> {
    // A tag that comes before all others, or the empty string.
    written: &'a [u8],
    // A tag that comes before those of `base`.
    pending: Option<ParentTag<'a>>,
    base: Option<Base<'a>>,
    // The first tag, whose script is named again before its language alone.
    tag: Base<'a>,
    // What stands after the region of the next tag, with the hyphen before it.
    rest: &'a [u8],
    // The variants of the first tag, with the hyphen before them.
    variants: &'a [u8],
}

impl<'a> Parents<'a> {
    /// Returns an iterator that starts at the tag itself.
    #[tactic(auto, unfolding(langtag_scan::specs::Class::is_primary, langtag_scan::specs::Class::is_letter), using(crate::proofs::Chains::some_tag, crate::proofs::Chains::not_empty, crate::proofs::Chains::other_chain, crate::proofs::Chains::normal_chain))]
    pub fn new(tag: LangTag<'a>) -> Self
        ensures chain { IsChain (lang_tag_text tag.entry) (parents_left result) }
        ensures cloned { (walk copy : Parents) → ⟦<Parents<'a> as Clone>⟧.is_clone walk copy
            → parents_left copy ≡ parents_left walk }
        ensures clone_succeeds { (walk : Parents) → ⟦<Parents<'a> as Clone>⟧.is_infallible walk }
    {
        match tag.as_normal() {
            Some(tag) => Parents::of_normal(tag),
            None => Parents {
                written: tag.as_str().as_bytes(),
                pending: None,
                base: None,
                tag: Base {
                    language: b"und",
                    script: b"",
                    region: b"",
                },
                rest: b"",
                variants: b"",
            },
        }
    }

    /// Returns an iterator that starts at a normal tag.
    fn of_normal(tag: NormalLangTag<'a>) -> Self
        ensures { EachRecord (normal_lang_tag_text tag.entry) (λ r. parents_left result ≡ whole_chain r) }
    {
        let marked = marked_region(tag);
        let base = Base::of(tag, marked);
        let rest = after_region(tag);
        Parents {
            written: as_written(tag, marked),
            pending: given_form(base, rest),
            base: Some(short(base)),
            tag: base,
            rest,
            variants: after_region(tag.base()),
        }
    }
}

impl<'a> Iterator for Parents<'a> {
    type Item = ParentTag<'a>;

    ghost next_gives = { YieldsFirstBy parent_text parents_left };

    ghost remaining = { item_count parents_left };

    fn next(&mut self) -> Option<ParentTag<'a>> {
        if !self.written.is_empty() {
            let written = self.written;
            self.written = b"";
            return Some(ParentTag::whole(written));
        }
        if let Some(pending) = self.pending {
            self.pending = None;
            return Some(pending);
        }
        let base = self.base?;
        let rest = self.rest;
        (self.base, self.rest) = following(base, rest, self.variants);
        let base = named(base, self.tag);
        self.pending = short_form(base, rest);
        Some(ParentTag::new(base, rest))
    }
}

/// Returns the tag as it is written if Android's mark stands before its region, and otherwise the empty string.
#[tactic(auto, using(crate::proofs::Chains::some_tag, crate::proofs::Chains::not_empty))]
fn as_written<'a>(tag: NormalLangTag<'a>, marked: &[u8]) -> &'a [u8]
    requires { EachRecord (normal_lang_tag_text tag) (λ r. marked.now ≡ mark_of r) }
    ensures { EachRecord (normal_lang_tag_text tag.entry) (λ r. unless_empty result.now ≡ as_written r) }
{
    if marked.is_empty() {
        b""
    } else {
        tag.as_str().as_bytes()
    }
}

/// Returns the tag of a base with a region, if its script is likely anyway.
fn given_form<'a>(base: Base<'a>, rest: &'a [u8]) -> Option<ParentTag<'a>>
    ensures { option_map_or (λ tag. parent_text tag ∷ []) result [] ≡ given_form (base_fields base.entry) rest.now }
{
    if has_likely_script(base) && !base.region.is_empty() {
        Some(ParentTag::new(base, rest))
    } else {
        None
    }
}

/// Returns the tag of a base without its script, if this script is likely anyway.
fn short_form<'a>(base: Base<'a>, rest: &'a [u8]) -> Option<ParentTag<'a>>
    ensures { option_map_or (λ tag. parent_text tag ∷ []) result []
        ≡ if has_likely_script (base_fields base.entry) then text_of (short (base_fields base.entry)) rest.now ∷ [] else [] }
{
    if has_likely_script(base) {
        Some(ParentTag::new(short(base), rest))
    } else {
        None
    }
}

/// Returns the base of the next tag, and what stands after its region: the same base with less after it, or the parent
/// of the base with all variants.
#[tactic(auto, using(crate::proofs::Lines::step_some, crate::proofs::Lines::step_none))]
fn following<'a>(base: Base<'a>, rest: &'a [u8], variants: &'a [u8]) -> (Option<Base<'a>>, &'a [u8])
    ensures { (tag : Fields) → with_each (endings variants.now rest.now) (named tag (base_fields base.entry)) ++ above tag variants.now (parent_of (short (base_fields base.entry)))
        ≡ forms (named tag (base_fields base.entry)) rest.now ++ bases_left tag result.0 result.1.now variants.now }
{
    match shortened(rest, variants) {
        Some(shorter) => (Some(base), shorter),
        None => (parent_of(short(base)), variants),
    }
}

/// Returns what stands after the region of the next tag of the same language, script and region: without extensions and
/// private use, and then without the last variant. Returns `None` if nothing stands there.
#[tactic(auto, using(crate::proofs::Texts::endings_first, crate::proofs::Texts::endings_next))]
fn shortened<'a>(rest: &'a [u8], variants: &'a [u8]) -> Option<&'a [u8]>
    ensures { endings variants.now rest.now ≡ rest.now ∷ option_map_or (λ shorter. endings variants.now shorter.now) result [] }
{
    if variants.len() < rest.len() {
        return Some(variants);
    }
    without_last(rest)
}

/// Returns a string without its last subtag and the hyphen before it.
#[tactic(auto, using(crate::proofs::Texts::no_longer))]
fn without_last(text: &[u8]) -> Option<&[u8]>
    ensures fewer { IfSome result (λ shorter. length shorter.now ≤ length text.now) }
    ensures shorter { shorter text.now ≡ option_map_or (λ text. text.now ∷ shorter text.now) result [] }
{
    let (shorter, _) = split_last(text);
    shorter
}

/// Returns the string before the last hyphen and the string after it. If there is no hyphen, returns `None` and the
/// whole string.
#[tactic(auto, using(langtag_scan::proofs::SubtagLists::splits))]
fn split_last(text: &[u8]) -> (Option<&[u8]>, &[u8])
    ensures hyphen_free { IsHyphenFree result.1.now }
    ensures joined { MatchOption result.0 (text.now ≡ result.1.now) (λ prefix. text.now ≡ prefix.now ++ 45 ∷ result.1.now) }
{
    let start = segment_start(text, text.len());
    if start == 0 {
        return (None, text);
    }
    (Some(&text[..start - 1]), &text[start..])
}

/// Returns what stands after the region of a tag, with the hyphen before it.
#[tactic(auto, unfolding(langtag_scan::specs::Tag::IsNormal), using(crate::proofs::Texts::region_inside))]
fn after_region<'a>(tag: NormalLangTag<'a>) -> &'a [u8]
    ensures { EachRecord (normal_lang_tag_text tag.entry) (λ r. result.now ≡ drop (ends_of r).region (spell r)) }
{
    let text = tag.as_str();
    &text.as_bytes()[tag.ends().region..]
}
