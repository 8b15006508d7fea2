//! Functions over bytes: what they feed to a hasher (RFC 5646 section 2.1.1), where subtags begin and end (section
//! 2.1), and how many bytes of a string are read.
ghost use Rattle.std.specs.Prelude.{◌≡◌, ◌+◌, ◌*◌, ◌%◌, ◌^◌, length, fold};

use crate::support::expect_true;
use langtag_scan::{
    ByteSource, Metered, case_insensitive_hash, recognise, segment_end, segment_start,
};
use std::hash::Hasher;

/// Records each call that feeds the hasher: first the length as one hexadecimal digit, and then each byte as two
/// digits.
#[derive(Drop)]
struct Calls(u128);

impl Hasher for Calls {
    ghost write = { λ calls bytes. record {
      0 = fold (λ kept b. ((kept * 256) % 2 ^ 128 + b) % 2 ^ 128)
          (((calls.0 * 16) % 2 ^ 128 + length bytes) % 2 ^ 128) bytes;
    } };

    ghost finish = { λ calls. calls.0 % 2 ^ 64 };

    fn finish(&self) -> u64 {
        (self.0 % (1 << 64)) as u64
    }

    fn write(&mut self, bytes: &[u8]) {
        self.0 = self.0.wrapping_mul(16).wrapping_add(bytes.len() as u128);
        for byte in bytes {
            self.0 = self.0.wrapping_mul(256).wrapping_add(u128::from(*byte));
        }
    }
}

#[test]
fn feeds_a_folded_byte_a_call(rt: HostRuntime) {
    for (text, fed) in [
        ("", 0),
        ("Fr", 0x166_172),
        ("dE-AraB-lY", 0x164_165_12d_161_172_161_162_12d_16c_179),
    ] {
        let mut calls = Calls(0);
        case_insensitive_hash(text.as_bytes(), &mut calls);
        expect_true(&rt, calls.0 == fed, text.len());
    }
}

#[test]
fn subtags_begin_and_end(rt: HostRuntime) {
    let ends = [
        segment_end(b"fr-FR", 0),
        segment_end(b"fr-FR", 2),
        segment_end(b"fr-FR", 3),
        segment_end(b"fr-FR", 5),
        segment_end(b"fr_FR", 0),
        segment_end(b"", 0),
    ];
    expect_true(&rt, ends == [2, 2, 5, 5, 5, 0], 5);
    let starts = [
        segment_start(b"fr-FR", 5),
        segment_start(b"fr-FR", 3),
        segment_start(b"fr-FR", 2),
        segment_start(b"fr-", 3),
        segment_start(b"", 0),
    ];
    expect_true(&rt, starts == [3, 3, 0, 3, 0], 5);
}

/// Returns how many bytes are read until it is known whether the bytes are a tag.
fn bytes_read(bytes: &[u8]) -> usize {
    let mut source = Metered::of_bytes(bytes);
    let _ = recognise(&mut source);
    source.reach()
}

/// Tags of each kind.
const TAGS: &[&str] = &[
    "de",
    "zh-cmn-Hans-CN",
    "sl-IT-nedis-rozaj",
    "en-a-bbb-x-a-ccc",
    "zh-min-nan",
    "x-whatever",
    "i-enochian",
    "sgn-BE-FR",
];

#[test]
fn each_byte_of_a_tag_is_read(rt: HostRuntime) {
    for tag in TAGS {
        expect_true(&rt, reads_each(tag.as_bytes()), tag.len());
    }
}

/// Returns whether all bytes of each prefix are read.
fn reads_each(tag: &[u8]) -> bool {
    for len in 0..tag.len() + 1 {
        if bytes_read(&tag[..len]) != len {
            return false;
        }
    }
    true
}

#[test]
fn no_byte_is_read_in_vain(rt: HostRuntime) {
    for (text, read) in [
        ("de_", 3),
        ("zh-cmn-Hans-CN_", 15),
        ("x-whatever_a", 11),
        ("i-enochian_", 11),
        ("de--", 4),
        ("zh-min-nan--", 12),
        ("en-a-bbb-x-a-ccc--a", 18),
        ("i-enochian--", 11),
        ("sgn-BE-FR--", 10),
    ] {
        expect_true(&rt, bytes_read(text.as_bytes()) == read, text.len());
    }
}
