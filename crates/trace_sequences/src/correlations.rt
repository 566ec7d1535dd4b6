//! The correlations of one list with many.

ghost use Rattle.std.specs.Prelude.{◌≡◌, ◌+◌, ◌≤◌, length, IfOk};
ghost use Rattle.std.specs.List.{All};
ghost use Rattle.sequence_laws.specs.Parts.{AreCorrelations};

use crate::Sequence;
use crate::taps::Taps;
use base_types::OutOfMemory;
use field_core::Field;
use std::alloc::Global;

/// From how many items of correlations on the multiples of a list are worth making.
const MULTIPLES_PAY_FROM: usize = 200;

/// The correlations of `items` with each sequence, n of each.
pub fn all_correlations<F: Field>(
    alloc: Global,
    items: &[F],
    sequences: &[Sequence<F>],
    n: usize,
) -> Result<Vec<Sequence<F>>, OutOfMemory>
    requires { All (λ s. n + length items.now ≤ length s + 1) sequences.now }
    ensures { IfOk result (λ v. AreCorrelations F.ops items.now n sequences.now v.items) }
{
    let taps = taps_for(alloc, items, n, sequences.len())?;
    let mut found = Vec::with_capacity(alloc, sequences.len())?;
    for sequence in sequences {
        let correlation = taps.correlation(alloc, sequence.as_slice(), n)?;
        found.push(Sequence::new(correlation))?;
    }
    Ok(found)
}

/// The list, with its multiples where it is for many items.
fn taps_for<F: Field>(
    alloc: Global,
    items: &[F],
    n: usize,
    sequences: usize,
) -> Result<Taps<F>, OutOfMemory>
    ensures { IfOk result (λ t. t ≡ items.now) }
{
    if n.saturating_mul(sequences) < MULTIPLES_PAY_FROM {
        Ok(Taps::of(items))
    } else {
        Taps::for_many(alloc, items, n)
    }
}
