//! The recognisers, which read a source of bytes in one pass. From a source that was not read before, each byte below
//! the stop n of its text is read once. The clause `reads` says that there are n reads, all below n. Suppose a byte
//! were read twice. Then some other byte, which is not the last, would never be read. Replace it by `!`. Every read
//! returns the same as before, so again there are n reads, but the stop of the new text is right after its `!`, which
//! is before n. This is an argument and not a proof, because it is about what a function that is generic over its
//! source can know.
ghost use Rattle.std.specs.Prelude.{◌≡◌, ◌↔◌, ◌⊎◌, ℕ, ◌≤◌, ◌+◌, ◌^◌, max, List, length};
ghost use Rattle.std.specs.Prelude.{IsTrue, MatchOption, MatchResult, is_some};
ghost use Rattle.langtag_scan.specs.Grammar.{Record, IsWellFormed, spell, IsNormal, IsPrivate, IsIrregularAt};
ghost use Rattle.langtag_scan.specs.Grammar.{IsIrregular, IsTag, IsStop, IsViable, IsViableLength};
ghost use Rattle.langtag_scan.specs.Grammar.{IsIrregularPrefix, fill, finding, IsFoundOf, is_normal};

use crate::ends::Marks;
use crate::finding::Finding;
use crate::found::Found;
use crate::source::ByteSource;
use crate::state::{Ending, State};

/// Decides whether the bytes of a source are a tag (RFC 5646 section 2.1), and of which kind. Returns `None` if they
/// are not a tag.
///
/// It reads each byte once, in order, and stops after the first byte that makes a tag impossible: `recognise(&mut
/// Metered::new("i-notexist"))` is `None` after four reads. It does not allocate. It accepts exactly the tags.
///
/// ```
/// use langtag_scan::{Metered, recognise};
///
/// recognise(&mut Metered::new("zh-TW")).is_some(); // true
/// recognise(&mut Metered::new("zh_TW")).is_none(); // true
/// ```
#[inline(always)]
#[tactic(auto, using(crate::proofs::IrregularTexts::normal_no_private, crate::proofs::IrregularTexts::normal_no_irregular, crate::proofs::IrregularTexts::private_no_irregular, crate::proofs::IrregularTexts::irregular_once, crate::proofs::ReadingLaws::viable_fill))]
pub fn recognise<S: ByteSource>(source: &mut S) -> Option<Found>
    requires { S.reads source.old ≤ 2 ^ 126 }
    ensures accepts { IsTrue (is_some result) ↔ IsTag (S.bytes source.old) }
    ensures found { MatchOption result (IsTag (S.bytes source.old) → ⊥)
        (λ found. IsFoundOf (S.bytes source.old) (finding found)) }
    ensures bytes { S.bytes source.new ≡ S.bytes source.old }
    // law: the number of further reads is the stop, and no byte beyond it is read
    ensures reads { (n : ℕ) × IsStop (S.bytes source.old) n ×
        (S.reads source.new ≡ S.reads source.old + n) × (S.reach source.new ≡ max (S.reach source.old) n) }

    // Laws of the definitions. A tag has only one kind, an irregular tag only one index, and a string only one length
    // at which the recogniser stops. A string is viable if and only if the padded text is a tag or the string is a
    // prefix of an irregular tag.
    // law: no text is of two kinds
    ensures normal_not_private { (t : List ℕ) → IsNormal t → IsPrivate t → ⊥ }
    // law: no text is of two kinds
    ensures normal_not_irregular { (t : List ℕ) → IsNormal t → IsIrregular t → ⊥ }
    // law: no text is of two kinds
    ensures private_not_irregular { (t : List ℕ) → IsPrivate t → IsIrregular t → ⊥ }
    // law: no text is at two indices of the table
    ensures one_index { (j k : ℕ) (t : List ℕ) → IsIrregularAt j t → IsIrregularAt k t → j ≡ k }
    // law: a text has one stop
    ensures one_stop { (t : List ℕ) (n m : ℕ) → IsStop t n → IsStop t m → n ≡ m }
    // law: which prefixes begin a tag
    ensures viable { (p : List ℕ) → IsViable p ↔ (IsTag (fill p) ⊎ IsIrregularPrefix p) }
{
    read(source).ok()
}

/// Reads a source up to the first byte that makes a tag impossible. Returns what the whole string is or, if it is not a
/// tag, the length of the longest prefix with which some tag begins.
#[inline(always)]
#[tactic(auto, using(crate::proofs::PositionLaws::whole_stop, crate::proofs::PositionLaws::viable_nothing))]
pub(crate) fn read<S: ByteSource>(source: &mut S) -> Result<Found, usize>
    requires { S.reads source.old ≤ 2 ^ 126 }
    ensures found { MatchResult result (λ found. IsFoundOf (S.bytes source.old) (finding found))
        (λ viable. IsTag (S.bytes source.old) → ⊥) }
    ensures viable { MatchResult result (λ found. IsViableLength (S.bytes source.old) (length (S.bytes source.old)))
        (IsViableLength (S.bytes source.old)) }
    ensures bytes { S.bytes source.new ≡ S.bytes source.old }
    ensures reads { (n : ℕ) × IsStop (S.bytes source.old) n ×
        (S.reads source.new ≡ S.reads source.old + n) × (S.reach source.new ≡ max (S.reach source.old) n) }
{
    let len = source.len();
    if len == 0 {
        return Err(0);
    }
    // The first byte ends no part. It is read here, so that the address of the tables is found before the loop, and
    // not for each byte.
    let Some(mut state) = State::start().after(source.byte(0)) else {
        return Err(0);
    };
    let mut marks = Marks::new();
    let mut index = 1;
    while index < len {
        let Some(next) = state.after(source.byte(index)) else {
            return Err(index);
        };
        state = next;
        marks.set(state.part_before(), index);
        index += 1;
    }
    let finding = match state.ending() {
        Ending::NoTag => return Err(len),
        Ending::Normal(last) => {
            marks.set(last, len);
            Finding::Normal(marks.ends(len))
        }
        Ending::PrivateUse => Finding::PrivateUse,
        Ending::Irregular(index) => Finding::Irregular(index),
    };
    Ok(Found { finding })
}

/// Decides whether the bytes of a source are a normal tag (rule `langtag` of RFC 5646 section 2.1), as [`recognise`]
/// does. A normal tag splits into its parts in only one way.
///
/// ```
/// use langtag_scan::{Metered, recognise_normal};
///
/// recognise_normal(&mut Metered::new("zh-min")).is_some(); // true
/// recognise_normal(&mut Metered::new("x-a")).is_none(); // true
/// recognise_normal(&mut Metered::new("i-lux")).is_none(); // true
/// ```
#[tactic(auto, using(crate::proofs::FoundLaws::normal_found, crate::proofs::TagLaws::tag_normal))]
pub fn recognise_normal<S: ByteSource>(source: &mut S) -> Option<Found>
    requires { S.reads source.old ≤ 2 ^ 126 }
    ensures found { MatchOption result (IsNormal (S.bytes source.old) → ⊥) (λ found.
        IsTrue (is_normal (finding found)) × IsFoundOf (S.bytes source.old) (finding found)) }
    ensures bytes { S.bytes source.new ≡ S.bytes source.old }
    // law: the number of further reads is the stop, and no byte beyond it is read
    ensures reads { (n : ℕ) × IsStop (S.bytes source.old) n ×
        (S.reads source.new ≡ S.reads source.old + n) × (S.reach source.new ≡ max (S.reach source.old) n) }

    // A law of the definitions: a string has at most one record.
    // law: a text has at most one record
    ensures one_record { (r q : Record) → IsWellFormed r → IsWellFormed q → spell r ≡ spell q → r ≡ q }
{
    recognise(source).filter(|found| found.is_normal())
}
