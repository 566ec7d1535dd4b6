//! The sums of the odd powers of many elements, four of them side by side.

ghost use Rattle.std.specs.Prelude.{◌≡◌, ℕ, [], ◌∷◌, length};
ghost use Rattle.field_rules.specs.Lists.{sums_of_both};
ghost use Rattle.sketch_rules.specs.PowerSums.{odd_power_sums};
ghost use Rattle.clmul_lanes.specs.Lane32.{ops, bits_of};
ghost use Rattle.field_core.specs.Windows.{IsWindowTable};

use crate::Lane32;
use field_core::{Field, WindowTable, product_by_windows, reduce, window_table};

/// Four elements at a time, whose products needn't wait for one another.
pub fn add_four_at_a_time(acc: &mut [Lane32], elements: &[Lane32])
    ensures { acc.new ≡ sums_of_both ops acc.old (odd_power_sums ops elements.now 0 (length acc.old)) }
{
    let fours = elements.len() / 4;
    for n in 0..fours {
        add_four(
            acc,
            elements[4 * n],
            elements[4 * n + 1],
            elements[4 * n + 2],
            elements[4 * n + 3],
        );
    }
    add_each(acc, &elements[4 * fours..])
}

/// One element after the other.
pub fn add_each(acc: &mut [Lane32], elements: &[Lane32])
    ensures { acc.new ≡ sums_of_both ops acc.old (odd_power_sums ops elements.now 0 (length acc.old)) }
{
    for e in elements {
        Lane32::odd_powers_into(acc, *e);
    }
}

/// Four elements side by side, each with a table of its square's multiples.
fn add_four(acc: &mut [Lane32], d: Lane32, e: Lane32, f: Lane32, g: Lane32)
    ensures { acc.new ≡ sums_of_both ops acc.old (odd_power_sums ops (d ∷ e ∷ f ∷ g ∷ []) 0 (length acc.old)) }
{
    let (d_square, e_square) = (
        window_table(d.square().get()),
        window_table(e.square().get()),
    );
    let (f_square, g_square) = (
        window_table(f.square().get()),
        window_table(g.square().get()),
    );
    let (mut d_power, mut e_power, mut f_power, mut g_power) = (d, e, f, g);
    for a in acc.iter_mut() {
        *a = a.add(d_power).add(e_power).add(f_power).add(g_power);
        d_power = times(d_power, &d_square);
        e_power = times(e_power, &e_square);
        f_power = times(f_power, &f_square);
        g_power = times(g_power, &g_square);
    }
}

/// The product of an element and that of a table.
#[inline(always)]
pub fn times(a: Lane32, table: &WindowTable) -> Lane32
    ensures { (b : Lane32) (bits : ℕ) → bits ≡ bits_of b → IsWindowTable bits table.now → result ≡ ops.times a b }
{
    Lane32::new(reduce(product_by_windows(table, a.get())))
}
