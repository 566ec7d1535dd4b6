//! Lists whose correlations with others are wanted: the sums of the products with another from each index on.

ghost use Rattle.std.specs.Prelude.{◌≡◌, ◌+◌, ◌≤◌, length, replicate, IfOk};
ghost use Rattle.splitting_laws.specs.Parts.{IsCorrelation};

use crate::halved::{HalvedTaps, halved_taps};
use crate::lists::zeros;
use base_types::OutOfMemory;
use field_core::Field;
use std::alloc::Global;
use std::marker::Model;

/// From how many items on the multiples of a list are worth making for the rows of a set.
const MULTIPLES_PAY_FROM: usize = 64;

/// A list that may be kept with the multiples of its items, turned round. A contract sees it as the list.
#[derive(Drop)]
pub struct Taps<'a, F: Field> {
    items: &'a [F],
    halved: Option<HalvedTaps<F>>,
}

impl<'a, F: Field> Model for Taps<'a, F> {
    ghost use Rattle.std.specs.Prelude.{◌<◌, ◌^◌, List, IfSome};
    ghost use Rattle.trace_sequences.specs.Halved.{ArePaddedLists};

    ghost Value = { List F };

    ghost view = { λ t. t.items.now };

    ghost invariant = { λ t. IfSome t.halved (λ h. (h.size < 2 ^ 62) × ArePaddedLists F.ops h.depth h.size t.items.now h.lists.items) };
}

impl<'a, F: Field> Taps<'a, F> {
    /// For a few correlations.
    pub fn of(items: &'a [F]) -> Taps<'a, F>
        ensures { result ≡ items.now }
    {
        Taps {
            items,
            halved: None,
        }
    }

    /// For many, of n items each.
    pub fn for_many(alloc: Global, items: &'a [F], n: usize) -> Result<Taps<'a, F>, OutOfMemory>
        ensures { IfOk result (λ t. t ≡ items.now) }
    {
        if items.len() < MULTIPLES_PAY_FROM || n / 2 > items.len() {
            return Ok(Taps::of(items));
        }
        let halved = halved_taps(alloc, items, n)?;
        Ok(Taps {
            items,
            halved: Some(halved),
        })
    }

    /// For each k below n the sum of the products with the items of the other list from index k on.
    pub fn correlation(&self, alloc: Global, others: &[F], n: usize) -> Result<Vec<F>, OutOfMemory>
        requires { n + length self.now ≤ length others.now + 1 }
        ensures { IfOk result (λ v. IsCorrelation F.ops self.now others.now n v.items) }
    {
        if let Some(halved) = &self.halved {
            if n <= halved.size {
                return halved.correlation(alloc, others, n);
            }
        }
        let mut products = zeros(alloc, n)?;
        add_by_items(products.as_mut_slice(), self.items, others);
        Ok(products)
    }
}

/// Adds to zeros, item by item of the first list, its multiples of the second.
fn add_by_items<F: Field>(products: &mut [F], items: &[F], others: &[F])
    requires zeros { products.old ≡ replicate (length products.old) F.ops.zero }
    requires fits { length products.old + length items.now ≤ length others.now + 1 }
    ensures { IsCorrelation F.ops items.now others.now (length products.old) products.new }
{
    for (i, item) in items.iter().enumerate() {
        let window = &others[i..i + products.len()];
        F::axpy(products, *item, window);
    }
}
