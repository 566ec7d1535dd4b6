//! A multiple of a list, added as the sum of rows.

ghost use Rattle.std.specs.Prelude.{◌≡◌, ℕ, ◌+◌, ◌*◌, ◌<◌, ◌≤◌, List, [], ◌∷◌, length, take, drop, fold};
ghost use Rattle.field_rules.specs.Fields.{with_multiple};
ghost use Rattle.field_rules.specs.Lists.{sums_of_both};
ghost use Rattle.list_multiples.specs.Rows.{row_count, AreRows};

use field_core::{Field, nibble};

/// Adds `k` times the items from index `from` on of the list of `n` items whose rows are given: for each four bits of
/// `k`, the row of their value.
pub fn add_by_rows<F: Field>(rows: &[F], n: usize, from: usize, acc: &mut [F], k: F)
    requires inside { from + length acc.old ≤ n }
    requires rows { length rows.now ≡ row_count F.BITS * n }
    ensures { (list : List F) → length list ≡ n → AreRows F.ops F.bits_of (row_count F.BITS) list rows.now → acc.new ≡ with_multiple F.ops acc.old k (drop from list) }
{
    let steps = (F::BITS as usize + 31) / 32;
    let size = acc.len();
    let mut bits = k.to_bits();
    for step in 0..steps {
        let word = (bits & 0xffff_ffff) as u32;
        let first = 128 * step;
        add_eight(
            acc,
            row_part(rows, n, first + nibble(word, 0), from, size),
            row_part(rows, n, first + 16 + nibble(word, 1), from, size),
            row_part(rows, n, first + 32 + nibble(word, 2), from, size),
            row_part(rows, n, first + 48 + nibble(word, 3), from, size),
            row_part(rows, n, first + 64 + nibble(word, 4), from, size),
            row_part(rows, n, first + 80 + nibble(word, 5), from, size),
            row_part(rows, n, first + 96 + nibble(word, 6), from, size),
            row_part(rows, n, first + 112 + nibble(word, 7), from, size),
        );
        bits >>= 32;
    }
}

/// Adds the items of eight lists at each index to the item of `acc` at that index, four items at once.
fn add_eight<F: Field>(
    acc: &mut [F],
    a: &[F],
    b: &[F],
    c: &[F],
    d: &[F],
    e: &[F],
    f: &[F],
    g: &[F],
    h: &[F],
)
    requires a { length a.now ≡ length acc.old }
    requires b { length b.now ≡ length acc.old }
    requires c { length c.now ≡ length acc.old }
    requires d { length d.now ≡ length acc.old }
    requires e { length e.now ≡ length acc.old }
    requires f { length f.now ≡ length acc.old }
    requires g { length g.now ≡ length acc.old }
    requires h { length h.now ≡ length acc.old }
    ensures { acc.new ≡ fold (sums_of_both F.ops) acc.old (a.now ∷ b.now ∷ c.now ∷ d.now ∷ e.now ∷ f.now ∷ g.now ∷ h.now ∷ []) }
{
    let blocks = acc.len() / 4;
    for n in 0..blocks {
        let (from, to) = (4 * n, 4 * n + 4);
        add_block(
            &mut acc[from..to],
            &a[from..to],
            &b[from..to],
            &c[from..to],
            &d[from..to],
            &e[from..to],
            &f[from..to],
            &g[from..to],
            &h[from..to],
        );
    }
    let done = 4 * blocks;
    add_items(
        &mut acc[done..],
        &a[done..],
        &b[done..],
        &c[done..],
        &d[done..],
        &e[done..],
        &f[done..],
        &g[done..],
        &h[done..],
    );
}

/// The same for four items. They are added up in a copy, so that the compiler needn't ask whether the lists overlap.
#[inline(always)]
fn add_block<F: Field>(
    acc: &mut [F],
    a: &[F],
    b: &[F],
    c: &[F],
    d: &[F],
    e: &[F],
    f: &[F],
    g: &[F],
    h: &[F],
)
    requires a { length a.now ≡ length acc.old }
    requires b { length b.now ≡ length acc.old }
    requires c { length c.now ≡ length acc.old }
    requires d { length d.now ≡ length acc.old }
    requires e { length e.now ≡ length acc.old }
    requires f { length f.now ≡ length acc.old }
    requires g { length g.now ≡ length acc.old }
    requires h { length h.now ≡ length acc.old }
    requires four { length acc.old ≡ 4 }
    ensures { acc.new ≡ fold (sums_of_both F.ops) acc.old (a.now ∷ b.now ∷ c.now ∷ d.now ∷ e.now ∷ f.now ∷ g.now ∷ h.now ∷ []) }
{
    let mut sums = [F::ZERO; 4];
    sums.copy_from_slice(acc);
    add_items(&mut sums, a, b, c, d, e, f, g, h);
    acc.copy_from_slice(&sums);
}

/// The same, item by item.
#[inline(always)]
fn add_items<F: Field>(
    acc: &mut [F],
    a: &[F],
    b: &[F],
    c: &[F],
    d: &[F],
    e: &[F],
    f: &[F],
    g: &[F],
    h: &[F],
)
    requires a { length a.now ≡ length acc.old }
    requires b { length b.now ≡ length acc.old }
    requires c { length c.now ≡ length acc.old }
    requires d { length d.now ≡ length acc.old }
    requires e { length e.now ≡ length acc.old }
    requires f { length f.now ≡ length acc.old }
    requires g { length g.now ≡ length acc.old }
    requires h { length h.now ≡ length acc.old }
    ensures { acc.new ≡ fold (sums_of_both F.ops) acc.old (a.now ∷ b.now ∷ c.now ∷ d.now ∷ e.now ∷ f.now ∷ g.now ∷ h.now ∷ []) }
{
    for i in 0..acc.len() {
        acc[i] = acc[i]
            .add(a[i])
            .add(b[i])
            .add(c[i])
            .add(d[i])
            .add(e[i])
            .add(f[i])
            .add(g[i])
            .add(h[i]);
    }
}

/// Some items of the row at index r of rows of n items each: from that at index `from` on, as many as `size`.
fn row_part<F: Field>(rows: &[F], n: usize, r: usize, from: usize, size: usize) -> &[F]
    requires row { r * n + n ≤ length rows.now }
    requires part { from + size ≤ n }
    ensures value { result.now ≡ take size (drop (r * n + from) rows.now) }
    ensures size { length result.now ≡ size }
{
    let start = r * n + from;
    &rows[start..start + size]
}
