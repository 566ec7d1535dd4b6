//! Correlations by halves, as Karatsuba and Ofman multiply numbers: three of half as many taps in place of four.

ghost use Rattle.std.specs.Prelude.{◌≡◌, ℕ, ◌+◌, ◌*◌, ◌^◌, ◌<◌, ◌≤◌, List, ◌++◌, length, reverse, replicate, IfOk, OnOk};
ghost use Rattle.field_rules.specs.Lists.{sums_of_both};
ghost use Rattle.splitting_laws.specs.Parts.{IsCorrelation};
ghost use Rattle.trace_sequences.specs.Halved.{AreLists, ArePaddedLists};

use crate::lists::{lesser, padded, sums_with_later, zeros};
use base_types::OutOfMemory;
use field_core::Field;
use list_multiples::{ListMultiples, add_each};
use std::alloc::Global;

/// From how many taps on their halves are worth going by.
const HALVES_PAY_FROM: usize = 128;

/// More taps than memory holds.
const TOO_MANY: usize = 1 << 60;

/// Taps with zeros behind them, halved up to twice: the multiples of the lists that come of it.
#[derive(Drop)]
pub struct HalvedTaps<F: Field> {
    /// How many taps and zeros.
    pub size: usize,
    /// How often they are halved.
    pub depth: u32,
    pub lists: Vec<ListMultiples<F>>,
}

/// The halves of the taps, with zeros behind them, so that they are no fewer than `count`.
pub fn halved_taps<F: Field>(
    alloc: Global,
    taps: &[F],
    count: usize,
) -> Result<HalvedTaps<F>, OutOfMemory>
    requires { 1 ≤ length taps.now }
    ensures lists { IfOk result (λ h. ArePaddedLists F.ops h.depth h.size taps.now h.lists.items) }
    ensures size { IfOk result (λ h. (count ≤ h.size) × (h.size < 2 ^ 62)) }
{
    let least = taps.len().max(count);
    if least >= TOO_MANY {
        return Err(OutOfMemory);
    }
    let depth = halvings(least);
    let parts = 1 << depth;
    let size = (least + parts - 1) / parts * parts;
    let items = padded(alloc, taps, size)?;
    let mut lists = Vec::with_capacity(alloc, 9)?;
    push_lists(alloc, items.as_slice(), depth, &mut lists)?;
    Ok(HalvedTaps { size, depth, lists })
}

/// How often so many taps are halved.
fn halvings(taps: usize) -> u32
    ensures { result ≤ 2 }
{
    if taps >= 2 * HALVES_PAY_FROM {
        2
    } else if taps >= HALVES_PAY_FROM {
        1
    } else {
        0
    }
}

/// Appends the multiples of the lists for the taps.
fn push_lists<F: Field>(
    alloc: Global,
    taps: &[F],
    depth: u32,
    lists: &mut Vec<ListMultiples<F>>,
) -> Result<(), OutOfMemory>
    requires parts { (part : ℕ) × (1 ≤ part) × (length taps.now ≡ part * 2 ^ depth) }
    ensures { OnOk result ((more : List (List F)) × (lists.new.items ≡ lists.old.items ++ more) × AreLists F.ops depth taps.now more) }
{
    if depth == 0 {
        lists.push(turned_multiples(alloc, taps)?)?;
        return Ok(());
    }
    let half = taps.len() / 2;
    let sums = sums_with_later(alloc, taps, half)?;
    let (first, second) = taps.split_at(half);
    push_lists(alloc, sums.as_slice(), depth - 1, lists)?;
    push_lists(alloc, first, depth - 1, lists)?;
    push_lists(alloc, second, depth - 1, lists)
}

/// The multiples of the taps, turned round.
fn turned_multiples<F: Field>(alloc: Global, taps: &[F]) -> Result<ListMultiples<F>, OutOfMemory>
    ensures { IfOk result (λ m. m ≡ reverse taps.now) }
{
    let mut turned = Vec::from_slice(alloc, taps)?;
    turned.as_mut_slice().reverse();
    ListMultiples::of(alloc, turned.as_slice())
}

impl<F: Field> HalvedTaps<F> {
    /// The first n items of the correlation of the taps with `others`.
    pub fn correlation(&self, alloc: Global, others: &[F], n: usize) -> Result<Vec<F>, OutOfMemory>
        requires size { (n ≤ self.now.size) × (self.now.size < 2 ^ 62) }
        requires lists { (taps : List F) × ArePaddedLists F.ops self.now.depth self.now.size taps self.now.lists.items }
        ensures { (taps : List F) → ArePaddedLists F.ops self.now.depth self.now.size taps self.now.lists.items → n + length taps ≤ length others.now + 1
            → IfOk result (λ v. IsCorrelation F.ops taps others.now n v.items) }
    {
        let window = padded(alloc, others, 2 * self.size)?;
        let mut products = correlation_by_halves(
            alloc,
            self.lists.as_slice(),
            self.depth,
            self.size,
            window.as_slice(),
        )?;
        products.truncate(n);
        Ok(products)
    }
}

/// The correlation of the taps that the lists are for, as many items as there are taps: with f, g the halves of the taps,
/// the first half of it is that of f + g with `others` from the middle of the taps on, and that of f with the sums of
/// `others` and what is half the taps behind; the second half is that of f + g again, and that of g with the sums.
fn correlation_by_halves<F: Field>(
    alloc: Global,
    lists: &[ListMultiples<F>],
    depth: u32,
    size: usize,
    others: &[F],
) -> Result<Vec<F>, OutOfMemory>
    requires lists { (taps : List F) × AreLists F.ops depth taps lists.now × (length taps ≡ size) }
    requires fits { 2 * size ≤ length others.now + 1 }
    ensures { (taps : List F) → AreLists F.ops depth taps lists.now → length taps ≡ size → IfOk result (λ v. IsCorrelation F.ops taps others.now size v.items) }
{
    if depth == 0 {
        return correlation_by_multiples(alloc, &lists[0], size, others);
    }
    let (half, third) = (size / 2, lists.len() / 3);
    let sums = sums_with_later(alloc, others, half)?;
    let (for_sum, for_halves) = lists.split_at(third);
    let (for_first, for_second) = for_halves.split_at(third);
    let (_, others_behind) = others.split_at(half);
    let (_, sums_behind) = sums.as_slice().split_at(half);
    let both = correlation_by_halves(alloc, for_sum, depth - 1, half, others_behind)?;
    let first = correlation_by_halves(alloc, for_first, depth - 1, half, sums.as_slice())?;
    let second = correlation_by_halves(alloc, for_second, depth - 1, half, sums_behind)?;
    halves_with(first, second, both.as_slice())
}

/// Two lists, one behind the other, with the items of a third added to those of each.
fn halves_with<F: Field>(first: Vec<F>, second: Vec<F>, both: &[F]) -> Result<Vec<F>, OutOfMemory>
    requires first { length first.items ≡ length both.now }
    requires second { length second.items ≡ length both.now }
    ensures { IfOk result (λ v. v.items ≡ sums_of_both F.ops first.items both.now ++ sums_of_both F.ops second.items both.now) }
{
    let (mut halves, mut rest) = (first, second);
    add_each(halves.as_mut_slice(), both);
    add_each(rest.as_mut_slice(), both);
    halves.extend_from_slice(rest.as_slice())?;
    Ok(halves)
}

/// The correlation with `others` of the list that is given turned round, of n items.
fn correlation_by_multiples<F: Field>(
    alloc: Global,
    turned: &ListMultiples<F>,
    n: usize,
    others: &[F],
) -> Result<Vec<F>, OutOfMemory>
    requires some { 1 ≤ length turned.now }
    requires fits { n + length turned.now ≤ length others.now + 1 }
    ensures { (items : List F) → turned.now ≡ reverse items → IfOk result (λ v. IsCorrelation F.ops items others.now n v.items) }
{
    let mut products = zeros(alloc, n)?;
    add_by_multiples(products.as_mut_slice(), turned, others);
    Ok(products)
}

/// Adds to zeros, item by item of the second list, its multiples of the first, which is given turned round.
fn add_by_multiples<F: Field>(products: &mut [F], turned: &ListMultiples<F>, others: &[F])
    requires zeros { products.old ≡ replicate (length products.old) F.ops.zero }
    requires some { 1 ≤ length turned.now }
    requires fits { length products.old + length turned.now ≤ length others.now + 1 }
    ensures { (items : List F) → turned.now ≡ reverse items → IsCorrelation F.ops items others.now (length products.old) products.new }
{
    let size = turned.len();
    let used = products.len() + (size - 1);
    for j in 0..used {
        let first = (j + 1).saturating_sub(size);
        let end = lesser(products.len(), j + 1);
        let from = size - 1 - (j - first);
        turned.add_multiple_of(from, &mut products[first..end], others[j]);
    }
}
