//! Finds the first repeated variant of a long list of variants, block by block.
ghost use Rattle.std.specs.Prelude.{◌≡◌, ◌==◌, ◌&&◌, ◌+◌, ◌≤◌, ℕ, List, [], ◌∷◌, ◌++◌, length, take, drop, map};
ghost use Rattle.langtag_scan.specs.Grammar.{list_any, IsNonDecreasing, are_alike, folded_number, subtags};
ghost use Rattle.langtag_place.specs.Text.{variant_text, variants_text, variants_left};
ghost use Rattle.langtag_place.specs.Repeat.{repeat_index};
ghost use Rattle.langtag_place.specs.VariantBlocks.{HasNoRepeatBefore, IsRepeatBefore, HoldsFrom, IsPlaceOf, AreMet};

use crate::variant::Variant;
use crate::variants::Variants;
use crate::variants_iter::VariantsIter;
use langtag_scan::folded_number;
use std::mem;

/// Returns the index of the first of these variants that equals an earlier variant, ignoring case. A block has `BLOCK`
/// variants; the last block may have fewer.
///
/// All variants are read once for each block. A block stores the numbers of its variants in ascending order, and a flag
/// for each number that says whether it has occurred. So a binary search finds each variant in few steps, whatever the
/// order of the variants is.
// This function is not inlined, so that callers with few variants do not use its stack.
#[inline(never)]
pub(crate) fn first_repeated_of_many<const BLOCK: usize>(variants: Variants<'_>) -> Option<usize>
    requires not_empty { 1 ≤ BLOCK }
    requires small { BLOCK ≤ 65536 }
    ensures { result ≡ repeat_index are_alike (subtags (variants_text variants.entry)) }
{
    let mut numbers = [0; BLOCK];
    let mut rest = variants.iter();
    let count = variants.iter().count();
    let mut start = 0;
    while start < count {
        let size = BLOCK.min(count - start);
        let block = &mut numbers[..size];
        fill(block, &mut rest);
        block.sort_unstable();
        let repeated = first_met_again::<BLOCK>(block, variants, start);
        if repeated.is_some() {
            return repeated;
        }
        start += size;
    }
    None
}

/// Fills a block with the numbers of the next variants.
fn fill(block: &mut [u64], rest: &mut VariantsIter<'_>)
    requires { length block.old ≤ length (variants_left rest.old) }
    ensures filled { block.new ≡ map folded_number (take (length block.old) (variants_left rest.old)) }
    ensures left { variants_left rest.new ≡ drop (length block.old) (variants_left rest.old) }
{
    for number in block.iter_mut() {
        if let Some(variant) = rest.next() {
            *number = number_of(variant);
        }
    }
}

/// Returns the index of the first variant up to the end of a block that equals an earlier variant, ignoring case. The
/// block has, in ascending order, the numbers of the variants from the index `start` on. No variant before `start`
/// equals an earlier variant.
fn first_met_again<const BLOCK: usize>(
    block: &[u64],
    variants: Variants<'_>,
    start: usize,
) -> Option<usize>
    requires small { BLOCK ≤ 65536 }
    requires room { length block.now ≤ BLOCK }
    requires within { start + length block.now ≤ length (subtags (variants_text variants)) }
    requires new { HasNoRepeatBefore start (subtags (variants_text variants)) }
    requires rises { IsNonDecreasing block.now }
    requires from_start { HoldsFrom start (subtags (variants_text variants)) block.now }
    ensures { IsRepeatBefore (start + length block.now) (subtags (variants_text variants.entry)) result }
{
    let mut met = [false; BLOCK];
    for (index, variant) in variants.iter().enumerate() {
        if index == start + block.len() {
            break;
        }
        if meet(block, &mut met, number_of(variant)) {
            return Some(index);
        }
    }
    None
}

/// Returns whether a number of a block has occurred before, and marks it as having occurred. If the block has the
/// number twice, only its first index is marked.
fn meet(block: &[u64], met: &mut [bool], number: u64) -> bool
    requires room { length block.now ≤ length met.old }
    requires rises { IsNonDecreasing block.now }
    ensures room { length met.new ≡ length met.old }
    ensures met { (numbers : List ℕ) → AreMet block.now met.old numbers → AreMet block.now met.new (numbers ++ number ∷ []) }
    ensures again { (numbers : List ℕ) → AreMet block.now met.old numbers
        → result ≡ (list_any (λ other. other == number) block.now && list_any (λ other. other == number) numbers) }
{
    let place = place_of(number, block);
    if place == block.len() || block[place] != number {
        return false;
    }
    mem::replace(&mut met[place], true)
}

/// Returns the first index of a number in a block, or the index at which it would have to be inserted.
fn place_of(number: u64, block: &[u64]) -> usize
    requires { IsNonDecreasing block.now }
    ensures { IsPlaceOf block.now number result }
{
    block.partition_point(|other| *other < number)
}

/// Returns the number that [`folded_number`] gives for a variant, which has at most eight bytes.
#[tactic(auto, using(langtag_scan::proofs::SubtagFacts::of_variant))]
fn number_of(variant: Variant<'_>) -> u64
    ensures { result ≡ folded_number (variant_text variant.entry) }
{
    folded_number(variant.as_bytes())
}
