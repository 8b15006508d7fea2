//! Improving the candidate by one more tag.
ghost use Rattle.std.specs.Prelude.{◌≡◌, ◌-◌, ◌<◌, ◌≤◌, ◌==◌, ℕ, List, IsTrue, MatchOption, Some, false};
ghost use Rattle.langtag_scan.specs.Prelude.{ForSome};
ghost use Rattle.langtag_range.specs.Definitions.{Element};
ghost use Rattle.langtag_choice.specs.Serves as spec;
ghost use Rattle.langtag_choice.specs.Serves.{reach, serves};
ghost use Rattle.langtag_choice.specs.Near.{wish_element};
ghost use Rattle.langtag_choice.specs.Candidates.{IsOf, IsNotAfter, Keeps, Takes, rank_of, service_number};
ghost use Rattle.langtag_choice.specs.KnownTexts.{is_known, known_text};

use crate::candidate::{Candidate, Rank, Service};
use crate::known_tag::KnownTag;
use crate::nearness::measured;
use crate::wish::Wish;

/// Returns the distance below which a tag may be better than the candidate, for a range with this `weight` and `place`.
/// It is 0 if no tag can be better, and 51 if even a tag that only lookup finds may be better.
#[tactic(auto, using(crate::proofs::RankLaws::reach_most))]
pub(crate) fn limit(found: &Option<Candidate<'_, '_>>, weight: u32, place: usize) -> u8
    ensures { (element : Element) (index : ℕ) (tag : List ℕ) → element.weight ≡ weight → result ≤ reach element.range tag
        → IsNotAfter found.now (spec.rank place element index tag) }
{
    let lacking = lack(weight);
    match found {
        Some(found) if found.rank.is_wanted_more(lacking, place) => {
            found.rank.service.least_distance()
        }
        Some(found) if found.rank.is_for(lacking, place) => nearer_limit(found),
        _ => 51,
    }
}

/// Returns the distance below which another tag may be better than the candidate, for the same range.
fn nearer_limit(found: &Candidate<'_, '_>) -> u8
    ensures service { (distance : ℕ) → result ≤ distance → service_number found.now.rank.service ≤ spec.service distance }
    ensures nearer { (distance : ℕ) → result ≤ distance → distance ≤ 50 → found.now.rank.distance < distance }
{
    let least = found.rank.service.least_distance();
    least.max(found.rank.distance.saturating_add(1))
}

/// Returns 1 minus a weight, in thousandths.
fn lack(weight: u32) -> u32
    ensures { result ≡ 1000 - weight }
{
    1000_u32.saturating_sub(weight)
}

/// Replaces the candidate by a tag, if the tag may serve a range and is better. `index` is the index of the tag in its
/// list. The function is not inlined, so that a test before it can be inlined in a loop over tags.
#[inline(never)]
pub(crate) fn improve_near<'a, 't>(
    found: &mut Option<Candidate<'a, 't>>,
    wish: &Wish<'a>,
    tag: KnownTag<'t>,
    index: usize,
)
    ensures { Takes wish.now tag.entry index found.old found.new }
{
    let limit = limit(found, wish.weight, wish.place);
    let Some(next) = as_candidate(limit, wish, tag, index) else {
        return;
    };
    if is_first(&next, found) {
        *found = Some(next);
    }
}

/// Returns whether a candidate is better than the found candidate, or no candidate was found.
fn is_first(next: &Candidate<'_, '_>, found: &Option<Candidate<'_, '_>>) -> bool
    ensures first { IsTrue result → Keeps found.now (Some next.now) }
    ensures later { result ≡ false → IsNotAfter found.now (rank_of next.now) }
{
    match found {
        Some(found) => next.goes_before(found),
        None => true,
    }
}

/// Returns the string at an index as a candidate for a range, if the string may serve the range and is nearer than a
/// limit.
#[tactic(auto, unfolding(crate::specs::Serves::rank, crate::specs::Serves::serves, crate::specs::Candidates::ties_of, crate::specs::RegionWidth::region_width), using(crate::proofs::PreparedForms::unlikely_either))]
fn as_candidate<'a, 't>(
    limit: u8,
    wish: &Wish<'a>,
    tag: KnownTag<'t>,
    index: usize,
) -> Option<Candidate<'a, 't>>
    ensures pair { ForSome result (λ c. (c.rank.place ≡ wish.now.place) × (c.index ≡ index)) }
    ensures candidate { IsTrue (is_known tag.entry) → MatchOption result (IsTrue (serves (wish_element wish.now) (known_text tag.entry)) → limit ≤ reach (wish_element wish.now).range (known_text tag.entry))
        (IsOf wish.now (known_text tag.entry) index) }
{
    let near = measured(limit, wish, tag)?;
    let rank = Rank {
        service: Service::at(near.distance),
        lack: lack(wish.weight),
        place: wish.place,
        distance: near.distance,
    };
    Some(Candidate {
        rank,
        range: wish.range,
        variants: wish.variants,
        tag: tag.bytes(),
        form: near.form,
        unlikely: tag.kept_unlikely(),
        index,
    })
}
