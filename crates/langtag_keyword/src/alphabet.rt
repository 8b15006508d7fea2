//! Subtags in lowercase and in alphabetical order, written to an output.
ghost use Rattle.std.specs.Prelude.{◌≡◌, ◌≤◌, ◌∷◌, [], map};
ghost use Rattle.langtag_scan.specs.Grammar.{AllByRecursion, fold_text, segments_left, subtags, IsSubtag};
ghost use Rattle.langtag_text.specs.Output.{Pushes};
ghost use Rattle.langtag_keyword.specs.Form as spec;
ghost use Rattle.langtag_keyword.specs.Least.{IsOffered, order_number};

use crate::least_numbers::{FEW, LeastNumbers, MANY, order_number, push_numbers};
use crate::subtags::split_first;
use langtag_scan::{Subtags, into_smallcase};
use langtag_text::Output;

/// Appends subtags in lowercase and in alphabetical order, each once.
pub(crate) fn push_in_alphabet(out: &mut Output<'_>, rest: Option<&str>)
    requires { AllByRecursion IsSubtag (segments_left rest) }
    ensures { Pushes (spec.in_alphabet (segments_left rest.entry)) out.old out.new }
{
    if are_few(rest) {
        return push_with_room::<FEW>(out, rest);
    }
    push_with_room::<MANY>(out, rest);
}

/// Returns whether subtags take so few bytes that room for [`FEW`] numbers is enough.
pub fn are_few(rest: Option<&str>) -> bool {
    match rest {
        Some(text) => text.len() <= 128,
        None => true,
    }
}

/// Appends what [`push_in_alphabet`] appends. Each walk over the subtags finds the next `ROOM / 2` of them, or more.
// This function is not inlined, so that callers with few subtags do not use the stack that many take.
#[inline(never)]
fn push_with_room<const ROOM: usize>(out: &mut Output<'_>, rest: Option<&str>)
    requires room { (2 ≤ ROOM) × (ROOM ≤ 1024) }
    requires subtags { AllByRecursion IsSubtag (segments_left rest) }
    ensures { Pushes (spec.in_alphabet (segments_left rest.entry)) out.old out.new }
{
    let mut least = LeastNumbers::<ROOM>::new();
    let mut more = true;
    while more {
        offer_each(&mut least, rest);
        least.sort();
        push_numbers(out, least.kept());
        more = least.advance();
    }
}

/// Offers the number of each subtag to `least`.
fn offer_each<const ROOM: usize>(least: &mut LeastNumbers<ROOM>, rest: Option<&str>)
    requires { AllByRecursion IsSubtag (segments_left rest) }
    ensures { IsOffered (map order_number (segments_left rest.entry)) least.old least.new }
{
    let mut rest = rest;
    while let Some(text) = rest {
        let (subtag, others) = split_first(text);
        least.offer(order_number(subtag.as_bytes()));
        rest = others;
    }
}

/// Returns whether a string comes before another in alphabetical order, ignoring case: `foo` comes before `foobar`.
pub fn is_before(a: &[u8], b: &[u8]) -> bool
    ensures { result ≡ spec.is_before (fold_text a.now) (fold_text b.now) }
{
    let mut a = a;
    let mut b = b;
    while let ([x, others_a @ ..], [y, others_b @ ..]) = (a, b) {
        let (x, y) = (into_smallcase(*x), into_smallcase(*y));
        if x != y {
            return x < y;
        }
        a = others_a;
        b = others_b;
    }
    a.len() < b.len()
}

/// Appends each subtag of a string in lowercase.
pub(crate) fn push_each_lowercase(out: &mut Output<'_>, text: &str)
    ensures { Pushes (map fold_text (subtags text.now)) out.old out.new }
{
    for subtag in Subtags::new(text) {
        push_lowercase(out, subtag);
    }
}

/// Appends a subtag in lowercase, after a hyphen if there is text before it.
pub(crate) fn push_lowercase(out: &mut Output<'_>, subtag: &str)
    ensures { Pushes (fold_text subtag.now ∷ []) out.old out.new }
{
    out.push_subtag(b"");
    for byte in subtag.as_bytes() {
        out.push(&[into_smallcase(*byte)]);
    }
}
