//! The multiples of a fixed list of 32 elements: rows by which its product with any element takes eight loads an item.

ghost use Rattle.std.specs.Prelude.{◌≡◌, ◌≢◌, ℕ, ◌+◌, ◌*◌, ◌/◌, ◌%◌, ◌<◌, ◌^◌, List, length, slice_index};
ghost use Rattle.field_rules.specs.Elements.{product};
ghost use Rattle.clmul_lanes.specs.Rows.{AreRows};

use crate::multiples::{doubled, nibble_multiples};

/// The bits of 32 elements.
pub(crate) type Row = [u32; 32];

/// The multiples of 32 elements, in 128 rows: row `16 i + v`, which begins at index `32 (16 i + v)`, has those by the
/// value v of nibble i of an element.
pub(crate) type Rows = [u32; 4096];

/// Makes the multiples of `list`.
pub(crate) fn fill_rows(rows: &mut Rows, list: &Row)
    ensures { AreRows list.now rows.new }
{
    let mut firsts = *list;
    for i in 0..8 {
        firsts = fill_place(rows, &firsts, i);
    }
}

/// Makes the 16 rows of nibble i from the first of them that isn't zero, and gives that of the next nibble.
fn fill_place(rows: &mut Rows, firsts: &Row, i: usize) -> Row
    requires { i < 8 }
    ensures size { length result ≡ 32 }
    ensures kept { (r j : ℕ) → r < 16 * i → j < 32 → slice_index rows.new (32 * r + j) ≡ slice_index rows.old (32 * r + j) }
    ensures made { (v j : ℕ) → v < 16 → j < 32 → slice_index rows.new (32 * (16 * i + v) + j) ≡ product 32 (slice_index firsts.now j) v }
    ensures next { (j : ℕ) → j < 32 → slice_index result j ≡ product 32 (product 32 (slice_index firsts.now j) 8) 2 }
{
    let mut next = [0; 32];
    for j in 0..32 {
        let multiples = nibble_multiples(firsts[j]);
        set_column(rows, i, j, &multiples);
        next[j] = doubled(multiples[8]);
    }
    next
}

/// Puts sixteen words into the rows of nibble i, at index j of each.
#[inline(always)]
fn set_column(rows: &mut Rows, i: usize, j: usize, words: &[u32; 16])
    requires { (i < 8) × (j < 32) }
    ensures kept { (r m : ℕ) → r < 16 * i → m < 32 → slice_index rows.new (32 * r + m) ≡ slice_index rows.old (32 * r + m) }
    ensures others { (r m : ℕ) → m < 32 → m ≢ j → slice_index rows.new (32 * r + m) ≡ slice_index rows.old (32 * r + m) }
    ensures made { (v : ℕ) → v < 16 → slice_index rows.new (32 * (16 * i + v) + j) ≡ slice_index words.now v }
{
    for v in 0..16 {
        rows[32 * (16 * i + v) + j] = words[v];
    }
}

/// The bits of the product of `k` and the item at index j of the list. Inlined, all indices share the nibbles of `k`.
#[inline(always)]
pub(crate) fn product_at(rows: &Rows, k: u32, j: usize) -> u32
    requires { j < 32 }
    ensures { (list : List ℕ) → AreRows list rows.now → slice_index list j < 2 ^ 32 → result ≡ product 32 (slice_index list j) k }
{
    let low = (word_at(rows, nibble(k, 0), j) ^ word_at(rows, 16 + nibble(k, 1), j))
        ^ (word_at(rows, 32 + nibble(k, 2), j) ^ word_at(rows, 48 + nibble(k, 3), j));
    let high = (word_at(rows, 64 + nibble(k, 4), j) ^ word_at(rows, 80 + nibble(k, 5), j))
        ^ (word_at(rows, 96 + nibble(k, 6), j) ^ word_at(rows, 112 + nibble(k, 7), j));
    low ^ high
}

/// The item at index j of the row at index r.
#[inline(always)]
fn word_at(rows: &Rows, r: usize, j: usize) -> u32
    requires { (r < 128) × (j < 32) }
    ensures { result ≡ slice_index rows.now (32 * r + j) }
{
    rows[32 * r + j]
}

/// Nibble i of `a`, where 0 is the lowest.
pub(crate) fn nibble(a: u32, i: u32) -> usize
    requires { i < 8 }
    ensures value { result ≡ a / 2 ^ (4 * i) % 16 }
    ensures below { result < 16 }
{
    ((a >> (4 * i)) & 15) as usize
}
