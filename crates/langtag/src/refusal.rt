//! Where the first fault is in a string that is not a tag (RFC 5646 section 2.1).
ghost use Rattle.std.specs.Prelude.{◌≡◌, ◌↔◌, ◌≤◌, ◌<◌, ◌++◌, ◌∷◌, [], IsTrue, IsNone, IfSome, false, length, take, slice_index};
ghost use Rattle.langtag_scan.specs.Grammar.{list_any, are_alike, IsTag, IsViableLength, IsIrregularPrefix, is_alphanumeric};
ghost use Rattle.langtag.specs.Refusal.{AlphanumericWithin, EndsTooSoon, IsFirstOther, IsOpen, IsRefusedEnd, IsRefusedSubtag};
ghost use Rattle.langtag.specs.declared.refusal.Refusal.{Refusal};
ghost use Rattle.langtag.specs.declared.refusal.RefusalKind.{RefusalKind};
ghost use Rattle.langtag.specs.declared.refusal.RefusalKind.TheVariants as kind;

use langtag_scan::{
    GRANDFATHERED_TEXTS, Metered, case_insensitive_eq, recognise, segment_end, segment_start,
    viable_len_with_hyphen,
};

/// The reason why bytes are not a tag (RFC 5646 section 2.1).
///
/// ```
/// use langtag::{Refusal, RefusalKind};
///
/// Refusal::of(b"zh_Hant").map(|it| it.kind); // Some(RefusalKind::Byte)
/// ```
#[derive(Clone, Copy, Debug, PartialEq, Eq)]
pub enum RefusalKind {
    /// A subtag is empty, or is not allowed after the subtags before it, such as `DE` in `de-419-DE`.
    Subtag,
    /// A subtag has a byte that is neither a letter nor a digit, such as `_` in `zh_Hant`.
    Byte,
    /// The bytes end where a tag cannot end. Examples are `en-` and `en-a`.
    End,
}

/// The first fault of bytes that are not a tag: its reason and its offsets. Offsets are in bytes.
///
/// ```
/// use langtag::Refusal;
///
/// let refusal = Refusal::of(b"de-419-DE");
/// refusal.map(|it| (it.start, it.end, it.offset)); // Some((7, 9, 7))
/// ```
#[derive(Clone, Copy, Debug, PartialEq, Eq)]
pub struct Refusal {
    /// The reason why the bytes are not a tag.
    pub kind: RefusalKind,
    /// The offset of the first wrong subtag: 7 in `de-419-DE`. If the bytes end too soon, it is the number of bytes.
    pub start: usize,
    /// The offset after that subtag: 9 in `de-419-DE`.
    pub end: usize,
    /// The offset to point at: `start`, or the first byte of the subtag that is neither a letter nor a digit.
    pub offset: usize,
}

impl Refusal {
    /// Returns the first fault of the bytes, or `None` if they are a tag. The bytes need not be UTF-8.
    ///
    /// In `de-419-DE`, the subtag from offset 7 to offset 9 is wrong, because the tag already has a region.
    ///
    /// ```
    /// use langtag::{Refusal, RefusalKind};
    ///
    /// Refusal::of(b"de-419-DE").map(|it| (it.kind, it.start, it.end)); // Some((RefusalKind::Subtag, 7, 9))
    /// Refusal::of(b"zh_Hant").map(|it| (it.kind, it.offset));          // Some((RefusalKind::Byte, 2))
    /// Refusal::of(b"zh-").map(|it| (it.kind, it.offset));              // Some((RefusalKind::End, 3))
    /// Refusal::of(b"zh-Hant");                                         // None
    /// ```
    pub fn of(bytes: &[u8]) -> Option<Refusal>
        ensures none { IsNone result ↔ IsTag bytes.now }
        ensures end { IfSome result (λ it. (it.kind ≡ kind.End) ↔ EndsTooSoon bytes.now) }
        ensures subtag { IfSome result (λ it. (it.kind ≡ kind.End → ⊥) → IsRefusedSubtag bytes.now it.start it.end) }
        ensures whole { IfSome result (λ it. it.kind ≡ kind.Subtag
            → AlphanumericWithin bytes.now it.start it.end × (it.offset ≡ it.start)) }
        ensures byte { IfSome result (λ it. it.kind ≡ kind.Byte → IsFirstOther bytes.now it.start it.end it.offset) }
        ensures nothing { IfSome result (λ it. it.kind ≡ kind.End
            → (it.start ≡ length bytes.now) × (it.end ≡ length bytes.now) × (it.offset ≡ length bytes.now)) }

        ensures compared { (a b : Refusal) → IsTrue (⟦<Refusal as PartialEq>⟧.eq a b) ↔ (a ≡ b) }
        ensures kinds_compared { (a b : RefusalKind) → IsTrue (⟦<RefusalKind as PartialEq>⟧.eq a b) ↔ (a ≡ b) }
        ensures cloned { (refusal copy : Refusal) → ⟦<Refusal as Clone>⟧.is_clone refusal copy → copy ≡ refusal }
        ensures kind_cloned { (kind copy : RefusalKind) → ⟦<RefusalKind as Clone>⟧.is_clone kind copy → copy ≡ kind }
        ensures clone_succeeds { (refusal : Refusal) → ⟦<Refusal as Clone>⟧.is_infallible refusal }
        ensures clone_succeeds_of_kind { (kind : RefusalKind) → ⟦<RefusalKind as Clone>⟧.is_infallible kind }
    {
        if is_tag(bytes) {
            return None;
        }
        let viable = viable_len_with_hyphen(bytes);
        if ends_too_soon(bytes, viable) {
            let end = bytes.len();
            return Some(Refusal {
                kind: RefusalKind::End,
                start: end,
                end,
                offset: end,
            });
        }
        let end = refused_end(bytes, viable);
        let start = segment_start(bytes, end);
        let other = first_other(bytes, start, end);
        let (kind, offset) = if other == end {
            (RefusalKind::Subtag, start)
        } else {
            (RefusalKind::Byte, other)
        };
        Some(Refusal {
            kind,
            start,
            end,
            offset,
        })
    }
}

/// Returns whether the bytes are a tag.
#[tactic(auto, using(langtag_scan::proofs::FoundLaws::tag_found))]
fn is_tag(bytes: &[u8]) -> bool
    ensures { IsTrue result ↔ IsTag bytes.now }
{
    recognise(&mut Metered::of_bytes(bytes)).is_some()
}

/// Returns whether bytes that are not a tag end too soon. `viable` is the viable length of the bytes followed by a
/// hyphen.
#[tactic(auto, using(crate::proofs::RefusalLaws::irregular_left, crate::proofs::RefusalLaws::open_end))]
fn ends_too_soon(bytes: &[u8], viable: usize) -> bool
    requires no_tag { IsTag bytes.now → ⊥ }
    requires viable { IsViableLength (bytes.now ++ 45 ∷ []) viable }
    ensures soon { IsTrue result ↔ EndsTooSoon bytes.now }
    ensures within { result ≡ false → viable ≤ length bytes.now }
{
    viable > bytes.len() || (viable == bytes.len() && (is_open(bytes) || begins_irregular(bytes)))
}

/// Returns whether the last subtag is empty, so that the bytes are empty or end with a hyphen.
fn is_open(bytes: &[u8]) -> bool
    ensures { IsTrue result ↔ IsOpen bytes.now }
{
    bytes.is_empty() || bytes[bytes.len() - 1] == b'-'
}

/// Returns where the first wrong subtag of bytes that are not a tag ends.
fn refused_end(bytes: &[u8], viable: usize) -> usize
    requires no_tag { IsTag bytes.now → ⊥ }
    requires viable { IsViableLength (bytes.now ++ 45 ∷ []) viable }
    requires within { viable ≤ length bytes.now }
    ensures { IsRefusedEnd bytes.now result }
{
    let end = segment_end(bytes, viable);
    // The bytes before `end` are a tag that no further subtag may follow, so the next subtag is wrong.
    if end < bytes.len() && is_tag(&bytes[..end]) {
        return segment_end(bytes, end + 1);
    }
    end
}

/// Returns the index of the first byte from `start` up to `end` that is neither a letter nor a digit, or `end`.
fn first_other(bytes: &[u8], start: usize, end: usize) -> usize
    requires ordered { start ≤ end }
    requires within { end ≤ length bytes.now }
    ensures from { start ≤ result }
    ensures to { result ≤ end }
    ensures before { AlphanumericWithin bytes.now start result }
    ensures other { result < end → is_alphanumeric (slice_index bytes.now result) ≡ false }
{
    let mut index = start;
    while index < end && is_alphanumeric(bytes[index]) {
        index += 1;
    }
    index
}

#[tactic(auto, unfolding(langtag_scan::specs::Class::is_letter, langtag_scan::specs::Class::is_digit))]
fn is_alphanumeric(byte: u8) -> bool
    ensures { result ≡ is_alphanumeric byte }
{
    byte.is_ascii_alphanumeric()
}

/// The number of irregular grandfathered tags, which come first in [`GRANDFATHERED_TEXTS`].
const IRREGULAR: usize = 17;

/// Returns whether some irregular tag begins with the bytes (section 2.2.8).
#[tactic(auto, using(langtag_scan::proofs::IrregularTexts::begins_some), unfolding(langtag_scan::specs::Grandfathered::irregular_texts, langtag_scan::specs::Grandfathered::grandfathered_tags))]
fn begins_irregular(bytes: &[u8]) -> bool
    ensures { IsTrue result ↔ IsIrregularPrefix bytes.now }
{
    begins_any(bytes, &GRANDFATHERED_TEXTS[..IRREGULAR])
}

/// Returns whether one of these strings begins with the bytes.
fn begins_any(bytes: &[u8], texts: &[&str]) -> bool
    ensures { result ≡ list_any (λ text. are_alike bytes.now (take (length bytes.now) text.now)) texts.now }
{
    texts.iter().any(|text| begins(bytes, text.as_bytes()))
}

/// Returns whether a string begins with the bytes, ignoring the case of letters.
fn begins(bytes: &[u8], text: &[u8]) -> bool
    ensures { result ≡ are_alike bytes.now (take (length bytes.now) text.now) }
{
    case_insensitive_eq(bytes, &text[..bytes.len().min(text.len())])
}
