//! The multiple of a list by one factor, added to another list, over the field of 2 ^ 32 elements.

ghost use Rattle.std.specs.Prelude.{◌≡◌, ℕ, ◌≤◌, ◌<◌, length, slice_index, get_or};
ghost use Rattle.field_rules.specs.Fields.{with_multiple};
ghost use Rattle.clmul_lanes.specs.Lane32.{ops, bits_of, zero_of};
ghost use Rattle.clmul_lanes.specs.Tables.{AreByteTables};

use crate::Lane32;
use crate::lane_multiples::{ByteTables, byte_tables, planes_of_products};
use crate::planes::{planes_of, words_of};
use crate::small_sums::times;
use field_core::{Field, window_table};

/// By a product for each item, with one table of the factor's multiples.
pub fn axpy_by_products(acc: &mut [Lane32], k: Lane32, x: &[Lane32])
    requires { length acc.old ≡ length x.now }
    ensures { acc.new ≡ with_multiple ops acc.old k x.now }
{
    let multiples = window_table(k.get());
    for i in 0..acc.len() {
        acc[i] = acc[i].add(times(x[i], &multiples));
    }
}

/// By the multiples of the factor, sixteen items at once, and the last of them with zeros behind them.
pub fn axpy_by_lanes(acc: &mut [Lane32], k: Lane32, x: &[Lane32])
    requires { length acc.old ≡ length x.now }
    ensures { acc.new ≡ with_multiple ops acc.old k x.now }
{
    let tables = byte_tables(k.get());
    let blocks = x.len() / 16;
    for n in 0..blocks {
        let (from, to) = (16 * n, 16 * n + 16);
        add_block(&mut acc[from..to], &tables, &x[from..to]);
    }
    add_rest(&mut acc[16 * blocks..], &tables, &x[16 * blocks..]);
}

/// Adds the multiples of the items behind the last block, of which there may be none.
#[inline(always)]
fn add_rest(acc: &mut [Lane32], tables: &ByteTables, x: &[Lane32])
    requires { (length acc.old ≡ length x.now) × (length x.now ≤ 16) }
    ensures { (k : Lane32) → AreByteTables (bits_of k) tables.now → acc.new ≡ with_multiple ops acc.old k x.now }
{
    if !x.is_empty() {
        add_block(acc, tables, x)
    }
}

/// Adds the multiples of up to sixteen items.
#[inline(always)]
fn add_block(acc: &mut [Lane32], tables: &ByteTables, x: &[Lane32])
    requires { (length acc.old ≡ length x.now) × (length x.now ≤ 16) }
    ensures { (k : Lane32) → AreByteTables (bits_of k) tables.now → acc.new ≡ with_multiple ops acc.old k x.now }
{
    let products = words_of(planes_of_products(tables, planes_of(bits_in(x))));
    for i in 0..x.len() {
        acc[i] = acc[i].add(Lane32::new(products[i]));
    }
}

/// The bits of up to sixteen items, and zeros behind them.
#[inline(always)]
fn bits_in(x: &[Lane32]) -> [u32; 16]
    requires { length x.now ≤ 16 }
    ensures { (i : ℕ) → i < length x.now → slice_index result i ≡ bits_of (get_or x.now i zero_of) }
{
    let mut words = [0; 16];
    for i in 0..x.len() {
        words[i] = x[i].get();
    }
    words
}
