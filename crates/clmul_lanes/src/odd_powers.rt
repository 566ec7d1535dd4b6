//! The odd powers of an element of the field of 2 ^ 32 elements, added to a list.

ghost use Rattle.std.specs.Prelude.{◌≡◌, ℕ, ◌≤◌, length};
ghost use Rattle.field_rules.specs.Ops.{with_odd_powers};
ghost use Rattle.clmul_lanes.specs.Lane32.{ops};
ghost use Rattle.clmul_lanes.specs.OddPowers.{bits_of_odd_powers};

use crate::Lane32;
use crate::conjugates::{power_2, power_8};
use crate::lane_multiples::{byte_tables, planes_of_products};
use crate::multiples::Multiples;
use crate::planes::{planes_of, words_of};
use field_core::Field;

/// By a product for each item, which waits for the one before.
pub fn add_by_products(acc: &mut [Lane32], e: Lane32)
    ensures { acc.new ≡ with_odd_powers ops e 0 acc.old }
{
    let square = e.mul(e);
    let mut power = e;
    for a in acc.iter_mut() {
        *a = a.add(power);
        power = power.mul(square);
    }
}

/// Sixteen at once: each block's powers are those of the block before, times the power by 32.
pub fn add_by_lanes(acc: &mut [Lane32], e: Lane32)
    ensures { acc.new ≡ with_odd_powers ops e 0 acc.old }
{
    let up = power_8(power_2(power_2(e)));
    let tables = byte_tables(up.get());
    let mut planes = planes_of(first_powers(e));
    let blocks = acc.len() / 16;
    for n in 0..blocks {
        add_words(&mut acc[16 * n..16 * n + 16], words_of(planes));
        let next = planes_of_products(&tables, planes);
        planes = next;
    }
    add_words(&mut acc[16 * blocks..], words_of(planes));
}

/// Adds the elements of these bits to up to sixteen items.
#[inline(always)]
fn add_words(acc: &mut [Lane32], words: [u32; 16])
    requires { length acc.old ≤ 16 }
    ensures { (e : Lane32) (i : ℕ) → words ≡ bits_of_odd_powers e i → acc.new ≡ with_odd_powers ops e i acc.old }
{
    for j in 0..acc.len() {
        acc[j] = acc[j].add(Lane32::new(words[j]));
    }
}

/// The bits of the first sixteen odd powers.
fn first_powers(e: Lane32) -> [u32; 16]
    ensures { result ≡ bits_of_odd_powers e 0 }
{
    let square = Multiples::of(e.square().get());
    let mut power = e;
    let mut words = [0; 16];
    for j in 0..16 {
        words[j] = power.get();
        power = Lane32::new(square.times(power.get()));
    }
    words
}
