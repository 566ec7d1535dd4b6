//! Small sketches whose sets are known, and larger ones of sets that were chosen first.

ghost use Rattle.std.specs.Prelude.{◌≢◌, IsTrue};

use base_types::OutOfMemory;
use bm_solver::shortest;
use field_core::{Field, Gf32};
use sketch_core::{Decoded, Sketch};
use sketch_rules::MAX_CAPACITY;
use std::alloc::Global;
use trace_roots::{decode, split};

/// The elements of these numbers.
fn elements(alloc: Global, numbers: &[u32]) -> Result<Vec<Gf32>, OutOfMemory> {
    let mut items = Vec::with_capacity(alloc, numbers.len())?;
    for number in numbers {
        items.push(Gf32::new(*number))?;
    }
    Ok(items)
}

/// The numbers of these elements.
fn numbers(alloc: Global, elements: &[Gf32]) -> Result<Vec<u32>, OutOfMemory> {
    let mut items = Vec::with_capacity(alloc, elements.len())?;
    for element in elements {
        items.push(element.get())?;
    }
    Ok(items)
}

/// The sketch of these sums.
fn sketch_from(alloc: Global, sums: &[u32]) -> Result<Sketch<Gf32>, OutOfMemory> {
    let items = elements(alloc, sums)?;
    if items.is_empty() || MAX_CAPACITY < items.len() {
        return Err(OutOfMemory);
    }
    Ok(Sketch::from_sums(items))
}

/// Whether it is not 0.
fn is_nonzero<F: Field>(e: F) -> bool
    ensures { IsTrue result → e ≢ F.ops.zero }
{
    e != F::ZERO
}

/// The sketch of the set of these numbers.
fn sketch_of(alloc: Global, set: &[u32], capacity: usize) -> Result<Sketch<Gf32>, OutOfMemory> {
    let Ok(mut sketch) = Sketch::empty(alloc, capacity) else {
        return Err(OutOfMemory);
    };
    for number in set {
        let element = Gf32::new(*number);
        if is_nonzero(element) {
            sketch.toggle(element);
        }
    }
    Ok(sketch)
}

/// The set that a sketch is of, as numbers.
fn decoded(alloc: Global, sketch: &Sketch<Gf32>) -> Result<Option<Vec<u32>>, OutOfMemory> {
    match decode::<Gf32>(alloc, sketch)? {
        Decoded::Found(set) => Ok(Some(numbers(alloc, set.as_slice())?)),
        Decoded::NoSet => Ok(None),
    }
}

/// Whether the sketch of this capacity of a set, given ascending, is decoded to that set.
fn comes_back(alloc: Global, set: &[u32], capacity: usize) -> Result<bool, OutOfMemory> {
    let sketch = sketch_of(alloc, set, capacity)?;
    let found = decoded(alloc, &sketch)?;
    Ok(matches!(&found, Some(items) if items.as_slice() == set))
}

/// Whether the sketch of this capacity of a set is decoded to no set, or to one that has the same sketch.
fn is_none_or_the_same(alloc: Global, set: &[u32], capacity: usize) -> Result<bool, OutOfMemory> {
    let sketch = sketch_of(alloc, set, capacity)?;
    let Some(found) = decoded(alloc, &sketch)? else {
        return Ok(true);
    };
    let other = sketch_of(alloc, found.as_slice(), capacity)?;
    Ok(found.len() <= capacity && other.sums() == sketch.sums())
}

/// A number that looks random. It is another one for each index, and 0 at index 0 alone.
fn scrambled(index: u32) -> u32 {
    let first = index.wrapping_mul(0x9e37_79b1);
    let second = (first ^ (first >> 15)).wrapping_mul(0x85eb_ca77);
    second ^ (second >> 13)
}

/// As many numbers from the index on, ascending.
fn random_set(alloc: Global, index: u32, size: usize) -> Result<Vec<u32>, OutOfMemory> {
    let mut set = Vec::with_capacity(alloc, size)?;
    let mut next = index;
    for _ in 0..size {
        set.push(scrambled(next))?;
        next = next.wrapping_add(1);
    }
    set.sort()?;
    Ok(set)
}

/// A basis of the sums of these elements whose products with `b` have trace 0, where these are a basis of all sums.
fn without_trace(alloc: Global, basis: &[Gf32], b: Gf32) -> Result<Vec<Gf32>, OutOfMemory> {
    let mut rest = Vec::with_capacity(alloc, basis.len())?;
    let mut first: Option<Gf32> = None;
    for element in basis {
        if !b.mul(*element).trace() {
            rest.push(*element)?;
        } else if let Some(pivot) = first {
            rest.push(element.add(pivot))?;
        } else {
            first = Some(*element);
        }
    }
    Ok(rest)
}

/// The elements whose products with the elements 1, x, .., x ^ 29 have trace 0 are the sums of those that come back.
fn last_two_of_the_dual_basis(alloc: Global) -> Result<Vec<Gf32>, OutOfMemory> {
    let mut basis = Vec::with_capacity(alloc, 32)?;
    for j in 0..32 {
        basis.push(Gf32::basis(j))?;
    }
    for j in 0..30 {
        basis = without_trace(alloc, basis.as_slice(), Gf32::basis(j))?;
    }
    Ok(basis)
}

/// Whether these sums are decoded to this set, or to none.
fn gives(alloc: Global, sums: &[u32], set: Option<&[u32]>) -> Result<bool, OutOfMemory> {
    let sketch = sketch_from(alloc, sums)?;
    let found = decoded(alloc, &sketch)?;
    Ok(match (&found, set) {
        (Some(items), Some(set)) => items.as_slice() == set,
        (None, None) => true,
        _ => false,
    })
}

// two elements look like their sum at capacity 1: 1 and 2 like 3
#[test]
fn sums_are_decoded_to_their_set_or_to_none(rt: HostRuntime) {
    let zeros = [0; 1024];
    for (sums, set) in [
        ([3, 9].as_slice(), Some([1, 2].as_slice())),
        (&[0, 6, 0x12, 0x7e], Some(&[1, 2, 3])),
        (&[3], Some(&[3])),
        (zeros.as_slice(), Some(&[])),
        (&[0, 6], None),
        (&[0, 1, 1, 1], None),
    ] {
        assert_eq!(rt; gives(rt.alloc(), sums, set), Ok(true));
    }
}

#[test]
fn all_sums_of_two_elements_are_split(rt: HostRuntime) {
    let alloc = rt.alloc();
    let sketch = sketch_from(alloc, &[3, 9]).expect(&rt, "memory");
    let sums = sketch.all_sums(alloc).expect(&rt, "memory");
    let want = [Gf32::new(3), Gf32::new(5), Gf32::new(9), Gf32::new(0x11)];
    assert_eq!(rt; sums.as_slice(), want.as_slice());
    let locator = shortest(alloc, sums.as_slice()).expect(&rt, "memory");
    assert!(rt; locator.length() <= sketch.capacity());
    let found = split(alloc, &locator, sums.as_slice()).expect(&rt, "memory");
    let set = [Gf32::new(1), Gf32::new(2)];
    assert!(rt; matches!(&found, Some(members) if members.as_slice() == set.as_slice()));
}

/// Whether one element comes back, also in a wider sketch.
fn alone_comes_back(alloc: Global, number: u32) -> Result<bool, OutOfMemory> {
    Ok(comes_back(alloc, &[number], 1)? && comes_back(alloc, &[number], 5)?)
}

#[test]
fn sets_within_the_capacity_come_back(rt: HostRuntime) {
    let alloc = rt.alloc();
    for number in [1, 0x8000_0000, 0xffff_ffff] {
        assert_eq!(rt; alone_comes_back(alloc, number), Ok(true), "{number}");
    }
    for size in [1, 2, 3, 7, 31, 64, 150, 300] {
        let set = random_set(alloc, 17, size).expect(&rt, "memory");
        for capacity in [size, size + 1, 2 * size] {
            let same = comes_back(alloc, set.as_slice(), capacity);
            assert_eq!(rt; same, Ok(true), "{size} elements at {capacity}");
        }
    }
}

#[test]
fn larger_sets_are_decoded_to_none_or_to_one_of_the_same_sketch(rt: HostRuntime) {
    let alloc = rt.alloc();
    for size in [2, 3, 7, 31, 64, 150, 300] {
        let set = random_set(alloc, 4711, size).expect(&rt, "memory");
        for capacity in [size / 2, size - 1] {
            let holds = is_none_or_the_same(alloc, set.as_slice(), capacity);
            assert_eq!(rt; holds, Ok(true), "{size} elements at {capacity}");
        }
    }
}

// two alone are solved at once
#[test]
fn the_last_two_basis_elements_alone_tell_three_apart(rt: HostRuntime) {
    let alloc = rt.alloc();
    let left = last_two_of_the_dual_basis(alloc).expect(&rt, "memory");
    assert_eq!(rt; left.len(), 2);
    let (first, second) = (left[0], left[1]);
    for j in 0..30 {
        let b = Gf32::basis(j);
        assert!(rt; !b.mul(first).trace() && !b.mul(second).trace(), "at {j}");
    }
    for number in [1, 2, 0x1234_5678] {
        let mut set = [number, number ^ first.get(), number ^ second.get()];
        set.sort_unstable();
        assert!(rt; set[0] != 0 && set[0] != set[1] && set[1] != set[2]);
        assert_eq!(rt; comes_back(alloc, &set, 3), Ok(true), "with {number}");
    }
}
