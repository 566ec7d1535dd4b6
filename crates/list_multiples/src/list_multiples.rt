//! A fixed list, kept with its multiples. `clmul_lanes` makes such rows of 32 elements in words and without memory, for
//! the fractions of its sums; here a list has any length, and the field is any.

ghost use Rattle.std.specs.Prelude.{◌≡◌, ◌+◌, ◌≤◌, length, drop, IfOk};
ghost use Rattle.field_rules.specs.Fields.{with_multiple};

use crate::adding::add_by_rows;
use crate::rows::rows_of;
use base_types::OutOfMemory;
use field_core::Field;
use std::alloc::Global;
use std::marker::Model;

/// A list whose multiples by any element are sums of rows that are made once: of each four bits of an element, the
/// sixteen multiples of the list. At 32 bits that is 128 items for each of the list. A contract sees it as the list.
#[derive(Drop)]
pub struct ListMultiples<F: Field> {
    len: usize,
    rows: Vec<F>,
}

impl<F: Field> Model for ListMultiples<F> {
    ghost use Rattle.std.specs.Prelude.{List};
    ghost use Rattle.list_multiples.specs.Rows.{row_of, AreAllRows};

    ghost Value = { List F };

    ghost view = { λ m. row_of m.len m.rows.items 1 };

    ghost invariant = { λ m. AreAllRows F.ops F.bits_of F.BITS m.len m.rows.items };
}

impl<F: Field> ListMultiples<F> {
    /// Makes the multiples of `list`.
    pub fn of(alloc: Global, list: &[F]) -> Result<ListMultiples<F>, OutOfMemory>
        ensures { IfOk result (λ m. m ≡ list.now) }
    {
        let rows = rows_of(alloc, list)?;
        Ok(ListMultiples {
            len: list.len(),
            rows,
        })
    }

    /// How many items the list has.
    pub fn len(&self) -> usize
        ensures { result ≡ length self.now }
    {
        self.len
    }

    /// Adds `k` times the list's item at each index to the item of `acc` at that index: what `Field::axpy` adds.
    pub fn add_multiple(&self, acc: &mut [F], k: F)
        requires { length acc.old ≡ length self.now }
        ensures { acc.new ≡ with_multiple F.ops acc.old k self.now }
    {
        add_by_rows(self.rows.as_slice(), self.len, 0, acc, k)
    }

    /// The same for a part of the list, that from the index `from` on: as many items as `acc` has.
    pub fn add_multiple_of(&self, from: usize, acc: &mut [F], k: F)
        requires { from + length acc.old ≤ length self.now }
        ensures { acc.new ≡ with_multiple F.ops acc.old k (drop from self.now) }
    {
        add_by_rows(self.rows.as_slice(), self.len, from, acc, k)
    }
}
