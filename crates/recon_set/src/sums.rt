//! Sums of the odd powers of short ids.

ghost use Rattle.std.specs.Prelude.{◌≡◌, ◌≢◌, ℕ, ◌+◌, ◌<◌, ◌^◌, List, length, map, IfOk, IfErr, OnOk, Err};
ghost use Rattle.std.specs.List.{AllByRecursion};
ghost use Rattle.sketch_rules.specs.Sketches.{IsCapacity, sketch_of};
ghost use Rattle.sketch_core.specs.Refusals.{IsRefusal};
ghost use Rattle.sketch_core.specs.declared.fault.SketchFault.TheVariants.{CapacityOutOfRange};
ghost use Rattle.pool_rules.specs.Snapshots.{Member, is_single as is_single_in, snapshot_sketch};
ghost use Rattle.recon_set.specs.Changes.{IsChange};
ghost use Rattle.recon_set.specs.Members.{HaveElements};

use field_core::Field;
use sketch_core::{Sketch, SketchFault};
use std::alloc::Global;

/// Puts a short id into the sums of a sketch or takes it out, where one member became alone with it or ceased to be.
pub(crate) fn update<F: Field>(sums: &mut [F], short: u32, was_single: bool, is_single: bool)
    requires { F.BITS ≡ 32 }
    ensures length { length sums.new ≡ length sums.old }
    ensures changed { (xs ys : List Member) (c : ℕ) → HaveElements xs → HaveElements ys → IsChange short xs ys
        → was_single ≡ is_single_in xs short → is_single ≡ is_single_in ys short
        → map F.bits_of sums.old ≡ snapshot_sketch xs c → map F.bits_of sums.new ≡ snapshot_sketch ys c }
{
    if was_single != is_single {
        F::odd_powers_into(sums, F::from_bits(u64::from(short)));
    }
}

/// The sketch of these short ids.
pub(crate) fn sketch_of_shorts<F: Field>(
    alloc: Global,
    shorts: &[u32],
    capacity: usize,
) -> Result<Sketch<F>, SketchFault>
    requires width { F.BITS ≡ 32 }
    requires elements { AllByRecursion (λ s. (0 < s) × (s < 2 ^ 32)) shorts.now }
    ensures ok { IfOk result (λ s. map F.bits_of s ≡ sketch_of shorts.now capacity) }
    ensures in_range { OnOk result (IsCapacity capacity) }
    ensures refused { IfErr result (IsRefusal capacity) }
    ensures out_of_range { ¬ IsCapacity capacity → result ≡ Err (CapacityOutOfRange capacity) }
{
    let mut sketch = Sketch::empty(alloc, capacity)?;
    for short in shorts {
        sketch.toggle(F::from_bits(u64::from(*short)));
    }
    Ok(sketch)
}
