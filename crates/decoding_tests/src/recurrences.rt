use base_types::OutOfMemory;
use bm_solver::{Locator, monic, shortest};
use field_core::{Field, Gf32};
use poly_ops::Poly;
use std::alloc::Global;

/// The shortest recurrence of these sums.
fn found(alloc: Global, sums: &[u32]) -> Result<Locator<Gf32>, OutOfMemory> {
    let mut items = Vec::with_capacity(alloc, sums.len())?;
    for s in sums {
        items.push(Gf32::new(*s))?;
    }
    shortest(alloc, items.as_slice())
}

/// Its length, through the bound.
fn length_of<F: Field>(alloc: Global, sums: &[F]) -> Result<usize, OutOfMemory> {
    Ok(shortest(alloc, sums)?.length())
}

/// Whether these are the coefficients of the polynomial, from the constant up.
fn has_coefficients(poly: &Poly<Gf32>, coefficients: &[u32]) -> bool {
    poly.coeffs()
        .iter()
        .map(|c| c.get())
        .eq(coefficients.iter().copied())
}

/// Whether the shortest recurrence of these sums has this length, this polynomial and this monic form.
fn solves(
    alloc: Global,
    sums: &[u32],
    length: usize,
    poly: &[u32],
    form: &[u32],
) -> Result<bool, OutOfMemory> {
    let locator = found(alloc, sums)?;
    let copied = monic(alloc, &locator)?;
    let same = copied.coeffs() == locator.monic_form().coeffs()
        && locator.length() == length
        && has_coefficients(locator.poly(), poly);
    Ok(same && has_coefficients(&locator.into_monic_form(), form))
}

// the sums of two powers, zeros, powers of 1 and of 2, every second item, and last coefficients that are zero
#[test]
fn recurrences_are_known(rt: HostRuntime) {
    for (sums, length, poly, form) in [
        (
            [3, 5, 9, 0x11].as_slice(),
            2,
            [1, 3, 2].as_slice(),
            [2, 3, 1].as_slice(),
        ),
        (&[], 0, &[1], &[1]),
        (&[0, 0], 0, &[1], &[1]),
        (&[1, 1, 1], 1, &[1, 1], &[1, 1]),
        (&[1, 2, 4, 8], 1, &[1, 2], &[2, 1]),
        (&[0, 1, 0, 1], 2, &[1, 0, 1], &[1, 0, 1]),
        (&[1, 0], 1, &[1], &[0, 1]),
        (&[0, 0, 1, 0, 0, 0], 3, &[1], &[0, 0, 0, 1]),
    ] {
        assert_eq!(rt; solves(rt.alloc(), sums, length, poly, form), Ok(true));
    }
}

#[test]
fn a_failure_makes_it_longer(rt: HostRuntime) {
    let alloc = rt.alloc();
    let one = Gf32::new(1);
    let zero = Gf32::new(0);
    assert_eq!(rt; length_of(alloc, &[Gf32::new(7)]), Ok(1));
    assert_eq!(rt; length_of(alloc, &[zero, one, zero]), Ok(2));
    assert_eq!(rt; length_of(alloc, &[zero, zero, zero, Gf32::new(5)]), Ok(4));
    assert_eq!(rt;
        length_of(alloc, &[one, Gf32::new(2), Gf32::new(4), Gf32::new(9)]),
        Ok(3)
    );
}
