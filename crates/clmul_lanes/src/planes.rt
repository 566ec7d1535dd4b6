//! Sixteen words, byte by byte: plane b has byte b of each word, where byte 0 is the lowest.

ghost use Rattle.std.specs.Prelude.{◌≡◌, ℕ, ◌*◌, List, length, map, ◌++◌};
ghost use Rattle.std.specs.List.{range_with_len};
ghost use Rattle.std.specs.Simd.Lanes.{Each1, chunk, number_l};
ghost use Rattle.std.proofs.Common.{Fits, w32};
ghost use Rattle.field_rules.specs.Elements.{product};
ghost use Rattle.clmul_lanes.specs.Planes.{byte_of, ArePlanes};

use crate::lanes::{looked_up, upper_halves};
use std::simd::prelude::*;

/// The four planes of sixteen words.
pub type Planes = [u8x16; 4];

/// The bytes of four words: first the lowest of each.
const BY_BYTE: [usize; 16] = [0, 4, 8, 12, 1, 5, 9, 13, 2, 6, 10, 14, 3, 7, 11, 15];

/// The lower halves of two vectors, four bytes of each in turn, and the upper halves.
const LOWER_FOURS: [usize; 16] = [0, 1, 2, 3, 16, 17, 18, 19, 4, 5, 6, 7, 20, 21, 22, 23];

const UPPER_FOURS: [usize; 16] = [8, 9, 10, 11, 24, 25, 26, 27, 12, 13, 14, 15, 28, 29, 30, 31];

/// Eight bytes of each.
const LOWER_EIGHTS: [usize; 16] = [0, 1, 2, 3, 4, 5, 6, 7, 16, 17, 18, 19, 20, 21, 22, 23];

const UPPER_EIGHTS: [usize; 16] = [8, 9, 10, 11, 12, 13, 14, 15, 24, 25, 26, 27, 28, 29, 30, 31];

/// The planes of words.
#[inline(always)]
pub fn planes_of(words: [u32; 16]) -> Planes
    ensures { ArePlanes words result }
{
    let a = bytes_in_turn(u32x4::from_array([words[0], words[1], words[2], words[3]]));
    let b = bytes_in_turn(u32x4::from_array([words[4], words[5], words[6], words[7]]));
    let c = bytes_in_turn(u32x4::from_array([words[8], words[9], words[10], words[11]]));
    let d = bytes_in_turn(u32x4::from_array([words[12], words[13], words[14], words[15]]));
    let (ab_lower, ab_upper) = (
        a.shuffle::<16>(b, LOWER_FOURS),
        a.shuffle::<16>(b, UPPER_FOURS),
    );
    let (cd_lower, cd_upper) = (
        c.shuffle::<16>(d, LOWER_FOURS),
        c.shuffle::<16>(d, UPPER_FOURS),
    );
    [
        ab_lower.shuffle::<16>(cd_lower, LOWER_EIGHTS),
        ab_lower.shuffle::<16>(cd_lower, UPPER_EIGHTS),
        ab_upper.shuffle::<16>(cd_upper, LOWER_EIGHTS),
        ab_upper.shuffle::<16>(cd_upper, UPPER_EIGHTS),
    ]
}

/// The bytes of four words: the lowest of each, the next of each, and so on.
#[inline(always)]
fn bytes_in_turn(words: u32x4) -> u8x16
    ensures { result ≡ map (byte_of 0) words ++ map (byte_of 1) words ++ map (byte_of 2) words ++ map (byte_of 3) words }
{
    words.to_le_bytes().swizzle::<16>(BY_BYTE)
}

/// The bytes of two vectors in turn, of their lower halves and of their upper halves.
const LOWER_ONES: [usize; 16] = [0, 16, 1, 17, 2, 18, 3, 19, 4, 20, 5, 21, 6, 22, 7, 23];

const UPPER_ONES: [usize; 16] = [8, 24, 9, 25, 10, 26, 11, 27, 12, 28, 13, 29, 14, 30, 15, 31];

/// Two bytes of each in turn.
const LOWER_TWOS: [usize; 16] = [0, 1, 16, 17, 2, 3, 18, 19, 4, 5, 20, 21, 6, 7, 22, 23];

const UPPER_TWOS: [usize; 16] = [8, 9, 24, 25, 10, 11, 26, 27, 12, 13, 28, 29, 14, 15, 30, 31];

/// The words that have these planes.
#[inline(always)]
pub fn words_of(planes: Planes) -> [u32; 16]
    ensures { (words : List ℕ) → length words ≡ 16 → Each1 (Fits w32) words → ArePlanes words planes → result ≡ words }
{
    let (low, low_rest) = (
        planes[0].shuffle::<16>(planes[1], LOWER_ONES),
        planes[0].shuffle::<16>(planes[1], UPPER_ONES),
    );
    let (high, high_rest) = (
        planes[2].shuffle::<16>(planes[3], LOWER_ONES),
        planes[2].shuffle::<16>(planes[3], UPPER_ONES),
    );
    let a = four_words(low.shuffle::<16>(high, LOWER_TWOS));
    let b = four_words(low.shuffle::<16>(high, UPPER_TWOS));
    let c = four_words(low_rest.shuffle::<16>(high_rest, LOWER_TWOS));
    let d = four_words(low_rest.shuffle::<16>(high_rest, UPPER_TWOS));
    [
        a[0], a[1], a[2], a[3], b[0], b[1], b[2], b[3], c[0], c[1], c[2], c[3], d[0], d[1], d[2],
        d[3],
    ]
}

/// Four words out of their bytes, those of a word one after the other from the lowest.
#[inline(always)]
fn four_words(bytes: u8x16) -> [u32; 4]
    ensures { result ≡ map (λ k. number_l 256 (chunk (4 * k) 4 bytes)) (range_with_len 0 4) }
{
    u32x4::from_le_bytes(bytes).to_array()
}

/// The products of the lowest half of a byte and the modulus's lower terms: their lower byte, and their upper one.
const LOW: [u8; 16] = [
    0x00, 0x8d, 0x1a, 0x97, 0x34, 0xb9, 0x2e, 0xa3, 0x68, 0xe5, 0x72, 0xff, 0x5c, 0xd1, 0x46, 0xcb,
];

const LOW_UP: [u8; 16] = [0, 0, 1, 1, 2, 2, 3, 3, 4, 4, 5, 5, 6, 6, 7, 7];

/// Those of the upper half.
const HIGH: [u8; 16] = [
    0x00, 0xd0, 0xa0, 0x70, 0x40, 0x90, 0xe0, 0x30, 0x80, 0x50, 0x20, 0xf0, 0xc0, 0x10, 0x60, 0xb0,
];

const HIGH_UP: [u8; 16] = [
    0, 8, 17, 25, 35, 43, 50, 58, 70, 78, 87, 95, 101, 109, 116, 124,
];

/// The planes of the words' products with `x ^ 8`: the bytes move up, and the top one comes back times the modulus's
/// lower terms.
#[inline(always)]
pub fn byte_up(planes: Planes) -> Planes
    ensures { (words : List ℕ) → Each1 (Fits w32) words → ArePlanes words planes
        → ArePlanes (map (λ w. product 32 w 256) words) result }
{
    let top = planes[3];
    let upper = upper_halves(top);
    [
        looked_up(u8x16::from_array(LOW), top) ^ looked_up(u8x16::from_array(HIGH), upper),
        planes[0]
            ^ (looked_up(u8x16::from_array(LOW_UP), top)
                ^ looked_up(u8x16::from_array(HIGH_UP), upper)),
        planes[1],
        planes[2],
    ]
}
