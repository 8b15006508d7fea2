//! The entry of a list as the choice reads it, and the candidate after it was tried.
ghost use Rattle.std.specs.Prelude.{◌≡◌, ◌≤◌, ◌<◌, ◌+◌, ◌^◌, ◌==◌, ◌&&◌, IsTrue, MatchOption};
ghost use Rattle.std.specs.Prelude.{None, length, nat_le, nat_lt, slice_index_or};
ghost use Rattle.langtag_scan.specs.Prelude.{ForSome};
ghost use Rattle.langtag_choice.specs.Found.{AddsNothing, TriesRange};
ghost use Rattle.langtag_choice.specs.Near.{wish_element};
ghost use Rattle.langtag_choice.specs.KnownTexts.{is_known, known_text};

use crate::candidate::Candidate;
use crate::improve::improve_near;
use crate::known_tag::KnownTag;
use crate::range_language::RangeLanguage;
use crate::tag_list::TagList;
use crate::wish::Wish;

/// Returns the tag at an index of a list as the choice reads it.
fn known_at<T: TagList>(tags: &T, index: usize) -> KnownTag<'_>
    requires { index < length (T.texts tags.now) }
    ensures { ForSome (slice_index_or (T.texts tags.now) index None)
        (λ text. (known_text result ≡ text) × IsTrue (is_known result)) }
{
    match tags.form_at(index) {
        Some(prepared) => KnownTag::Prepared(tags.bytes_at(index), prepared),
        None => KnownTag::Text(tags.bytes_at(index)),
    }
}

/// Returns whether the first letters of an entry show that it cannot serve a range with this language.
#[inline(always)]
#[tactic(auto, using(crate::proofs::FoundLaws::far_at))]
fn is_far_at<T: TagList>(
    tags: &T,
    wish: &Wish<'_>,
    own: &Option<RangeLanguage>,
    index: usize,
) -> bool
    requires inside { index < length (T.texts tags.now) }
    requires own { own.now ≡ wish.now.language }
    ensures { IsTrue result → AddsNothing wish.now (T.texts tags.now) (λ there. there == index) }
{
    match tags.form_at(index) {
        Some(prepared) => prepared.is_far_from(wish, own),
        None => wish.is_far_from(tags.bytes_at(index)),
    }
}

/// Returns the first index from `from` on of an entry that may serve a range. The function is not inlined, so that its
/// loop has no calls and keeps what it compares in registers.
#[inline(never)]
pub(crate) fn next_near<T: TagList>(tags: &T, wish: &Wish<'_>, from: usize) -> Option<usize>
    ensures { MatchOption result (AddsNothing wish.now (T.texts tags.now) (λ there. nat_le from there))
        (λ index. (from ≤ index) × (index < length (T.texts tags.now)) × (index + 1 < 2 ^ 64) × AddsNothing wish.now
        (T.texts tags.now) (λ there. nat_le from there && nat_lt there index)) }
{
    let own = wish.language;
    for index in from..tags.count() {
        if !is_far_at(tags, wish, &own, index) {
            return Some(index);
        }
    }
    None
}

/// Replaces the candidate by the entry at an index, if the entry may serve a range and is better. It does not check that
/// the entry is a tag.
#[tactic(auto, using(crate::proofs::FoundLaws::takes_at))]
pub(crate) fn improve_at<'a, 't, T: TagList>(
    found: &mut Option<Candidate<'a, 't>>,
    wish: &Wish<'a>,
    tags: &'t T,
    index: usize,
)
    requires { index < length (T.texts tags.now) }
    ensures { TriesRange (wish_element wish.now) wish.now.place (T.texts tags.now) (λ there. there == index) found.old found.new }
{
    improve_near(found, wish, known_at(tags, index), index);
}

/// Replaces the candidate as [`improve_at`] does, after a test that is quicker if the entry is far.
pub(crate) fn improve_entry<'a, 't, T: TagList>(
    found: &mut Option<Candidate<'a, 't>>,
    wish: &Wish<'a>,
    tags: &'t T,
    index: usize,
)
    requires { index < length (T.texts tags.now) }
    ensures { TriesRange (wish_element wish.now) wish.now.place (T.texts tags.now) (λ there. there == index) found.old found.new }
{
    if !is_far_at(tags, wish, &wish.language, index) {
        improve_at(found, wish, tags, index);
    }
}
