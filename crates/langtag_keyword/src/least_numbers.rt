//! The least of many numbers, in little memory.
ghost use Rattle.std.specs.Prelude.{◌≡◌, ◌<◌, ◌≤◌, ℕ, List, [], ◌∷◌, length, ltb, take, true, filter, flat_map};
ghost use Rattle.langtag_scan.specs.Grammar.{IsSubtag};
ghost use Rattle.langtag_text.specs.Output.{Pushes};
ghost use Rattle.langtag_keyword.specs.Least.{AscendsFrom, HoldsLeast, IsOffered, IsSettled, Least};
ghost use Rattle.langtag_keyword.specs.Least.{ascending_after, is_within, number_text, order_number};

use langtag_scan::folded_number;
use langtag_text::Output;
use std::marker::Model;

/// Room for the numbers of a few subtags.
pub const FEW: usize = 32;

/// Room for the numbers of many subtags. They take 8 KiB of stack.
pub const MANY: usize = 1024;

/// The least of the numbers above `last` that were offered. If there is no room for all, those above `limit` are left out.
#[derive(Drop)]
pub struct LeastNumbers<const ROOM: usize> {
    numbers: [u64; ROOM],
    count: usize,
    last: u64,
    limit: u64,
}

impl<const ROOM: usize> Model for LeastNumbers<ROOM> {
    ghost Value = { Least };

    ghost view = { λ least. record { last = least.last; limit = least.limit; kept = take least.count least.numbers } };

    ghost invariant = { λ least. (least.count < ROOM) × (2 ≤ ROOM) };
}

impl<const ROOM: usize> LeastNumbers<ROOM> {
    /// Returns room for the least of all numbers but zero.
    pub fn new() -> LeastNumbers<ROOM>
        requires { 2 ≤ ROOM }
        ensures empty { HoldsLeast result [] }
        ensures last { result.last ≡ 0 }
    {
        LeastNumbers {
            numbers: [0; ROOM],
            count: 0,
            last: 0,
            limit: u64::MAX,
        }
    }

    /// Keeps a number if it is in range. If there is no room left then, only the lower half of the numbers is kept.
    pub fn offer(&mut self, number: u64)
        ensures { IsOffered (number ∷ []) self.old self.new }
    {
        if number <= self.last || number > self.limit {
            return;
        }
        self.numbers[self.count] = number;
        self.count += 1;
        if self.count < ROOM {
            return;
        }
        self.count = settle(&mut self.numbers);
        if self.count > ROOM / 2 {
            self.count = ROOM / 2;
            self.limit = self.numbers[ROOM / 2 - 1];
        }
    }

    /// Puts the numbers that are kept in ascending order, each once.
    pub fn sort(&mut self)
        ensures kept { (all : List ℕ) → AscendsFrom 0 all → HoldsLeast self.old all
            → self.new.kept ≡ filter (is_within self.old.last self.old.limit) all }
        ensures last { self.new.last ≡ self.old.last }
        ensures limit { self.new.limit ≡ self.old.limit }
    {
        self.count = settle(&mut self.numbers[..self.count]);
    }

    /// Returns the numbers that are kept.
    pub fn kept(&self) -> &[u64]
        ensures { result.now ≡ self.now.kept }
    {
        &self.numbers[..self.count]
    }

    /// Makes room for the numbers above those that are kept. Returns whether such numbers may have been left out.
    pub fn advance(&mut self) -> bool
        ensures next { self.new.last ≡ self.old.limit }
        ensures empty { result ≡ true → HoldsLeast self.new [] }
        ensures more { result ≡ ltb self.old.limit 18446744073709551615 }
    {
        self.last = self.limit;
        self.limit = u64::MAX;
        self.count = 0;
        self.last < u64::MAX
    }
}

/// Puts numbers in ascending order, each once and without zero. Returns how many these are.
fn settle(numbers: &mut [u64]) -> usize
    ensures settled { IsSettled numbers.old (take result numbers.new) }
    ensures within { result ≤ length numbers.old }
    ensures len { length numbers.new ≡ length numbers.old }
{
    numbers.sort_unstable();
    keep_rising(numbers)
}

/// Moves each number that is greater than all numbers before it, and than zero, to the start. Returns how many these are.
fn keep_rising(numbers: &mut [u64]) -> usize
    ensures rising { take result numbers.new ≡ ascending_after 0 numbers.old }
    ensures within { result ≤ length numbers.old }
    ensures len { length numbers.new ≡ length numbers.old }
{
    let mut last = 0;
    let mut count = 0;
    for index in 0..numbers.len() {
        let number = numbers[index];
        if number > last {
            numbers[count] = number;
            count += 1;
            last = number;
        }
    }
    count
}

/// Returns the number of a subtag. Numbers are in the order of their subtags, ignoring case.
#[tactic(auto, using(crate::proofs::LeastTexts::shifted_number))]
pub fn order_number(subtag: &[u8]) -> u64
    requires { IsSubtag subtag.now }
    ensures { result ≡ order_number subtag.now }
{
    folded_number(subtag) << (64 - 8 * subtag.len())
}

/// Appends the subtags of numbers.
pub fn push_numbers(out: &mut Output<'_>, numbers: &[u64])
    ensures { Pushes (flat_map (λ number. number_text number ∷ []) numbers.now) out.old out.new }
{
    for number in numbers {
        push_number(out, *number);
    }
}

/// Appends the subtag of a number.
fn push_number(out: &mut Output<'_>, number: u64)
    ensures { Pushes (number_text number ∷ []) out.old out.new }
{
    out.push_subtag(b"");
    for byte in number.to_be_bytes() {
        if byte > 0 {
            out.push(&[byte]);
        }
    }
}
