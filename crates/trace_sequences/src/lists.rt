//! Lists that are made of others.

ghost use Rattle.std.specs.Prelude.{◌≡◌, ◌⊎◌, ◌-◌, ◌≤◌, ◌++◌, length, take, drop, replicate, IfOk};
ghost use Rattle.field_rules.specs.Lists.{sums_of_both};

use base_types::OutOfMemory;
use field_core::Field;
use list_multiples::add_each;
use std::alloc::Global;

/// n zeros.
pub fn zeros<F: Field>(alloc: Global, n: usize) -> Result<Vec<F>, OutOfMemory>
    ensures { IfOk result (λ v. v.items ≡ replicate n F.ops.zero) }
{
    Ok(vec![in alloc; F::ZERO; n]?)
}

/// The first items of the list, no more than `size`, and zeros behind them.
pub fn padded<F: Field>(alloc: Global, list: &[F], size: usize) -> Result<Vec<F>, OutOfMemory>
    ensures { IfOk result (λ v. v.items ≡ take size list.now ++ replicate (size - length list.now) F.ops.zero) }
{
    let count = lesser(size, list.len());
    let rest = zeros(alloc, size - count)?;
    let mut items = Vec::with_capacity(alloc, size)?;
    items.extend_from_slice(&list[..count])?;
    items.extend_from_slice(rest.as_slice())?;
    Ok(items)
}

/// The sums of each item and the one so many places behind it, as long as there is one.
pub fn sums_with_later<F: Field>(
    alloc: Global,
    list: &[F],
    places: usize,
) -> Result<Vec<F>, OutOfMemory>
    requires { places ≤ length list.now }
    ensures { IfOk result (λ v. v.items ≡ sums_of_both F.ops (take (length list.now - places) list.now) (drop places list.now)) }
{
    let mut sums = Vec::from_slice(alloc, &list[..list.len() - places])?;
    add_each(sums.as_mut_slice(), &list[places..]);
    Ok(sums)
}

/// The lesser of two numbers.
pub fn lesser(a: usize, b: usize) -> usize
    ensures no_more { (result ≤ a) × (result ≤ b) }
    ensures one { (a ≤ result) ⊎ (b ≤ result) }
{
    if a < b { a } else { b }
}
