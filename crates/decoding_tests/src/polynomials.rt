ghost use Rattle.std.specs.Prelude.{◌≡◌, ◌≤◌, length, IfOk, IsTrue};
ghost use Rattle.poly_rules.specs.Polynomials.{degree, IsMonic};

use base_types::OutOfMemory;
use field_core::{Field, Gf32};
use poly_ops::{Poly, extend_recurrence, frobenius_table, rem_monic, square_mod};
use std::alloc::Global;

/// The polynomial of these coefficients.
fn poly(alloc: Global, coeffs: &[u32]) -> Result<Poly<Gf32>, OutOfMemory> {
    let mut items = Vec::with_capacity(alloc, coeffs.len())?;
    for c in coeffs {
        items.push(Gf32::new(*c))?;
    }
    Ok(Poly::from_coeffs(items))
}

/// Whether f is monic of degree at least 1.
fn is_monic<F: Field>(f: &Poly<F>) -> bool
    ensures monic { IsTrue result → IsMonic F.ops (degree f.now) f.now }
    ensures degree { IsTrue result → 1 ≤ degree f.now }
{
    let coeffs = f.coeffs();
    coeffs.len() > 1 && coeffs[coeffs.len() - 1] == F::ONE
}

/// The polynomial of these coefficients, whose last is 1.
fn monic(alloc: Global, coeffs: &[u32]) -> Result<Poly<Gf32>, OutOfMemory>
    ensures monic { IfOk result (λ f. IsMonic ⟦<Gf32 as Field>⟧.ops (degree f) f) }
    ensures degree { IfOk result (λ f. 1 ≤ degree f) }
    ensures no_longer { IfOk result (λ f. length f ≤ length coeffs.now) }
{
    let f = poly(alloc, coeffs)?;
    if is_monic(&f) && f.coeffs().len() <= coeffs.len() {
        Ok(f)
    } else {
        Err(OutOfMemory)
    }
}

#[test]
fn zeros_at_the_top_are_dropped(rt: HostRuntime) {
    let f = poly(rt.alloc(), &[0, 7, 0, 0]).expect(&rt, "memory");
    assert_eq!(rt; f.coeffs(), [Gf32::new(0), Gf32::new(7)].as_slice());
}

#[test]
fn a_factor_is_zero_at_its_root(rt: HostRuntime) {
    let f = poly(rt.alloc(), &[2, 3, 1]).expect(&rt, "memory");
    assert_eq!(rt; f.eval(Gf32::new(1)), Gf32::ZERO);
    assert_eq!(rt; f.eval(Gf32::new(0)), Gf32::new(2));
}

#[test]
fn a_cube_leaves_one(rt: HostRuntime) {
    let alloc = rt.alloc();
    let cube = poly(alloc, &[0, 0, 0, 1]).expect(&rt, "memory");
    let f = monic(alloc, &[1, 1, 1]).expect(&rt, "memory");
    let rest = rem_monic(alloc, &cube, &f).expect(&rt, "memory");
    assert_eq!(rt; rest.coeffs(), [Gf32::ONE].as_slice());
}

#[test]
fn a_square_leaves_a_binomial(rt: HostRuntime) {
    let alloc = rt.alloc();
    let variable = poly(alloc, &[0, 1]).expect(&rt, "memory");
    let f = monic(alloc, &[1, 1, 1]).expect(&rt, "memory");
    let rest = square_mod(alloc, &variable, &f).expect(&rt, "memory");
    assert_eq!(rt; rest.coeffs(), [Gf32::ONE, Gf32::ONE].as_slice());
}

#[test]
fn powers_are_one_at_one(rt: HostRuntime) {
    let alloc = rt.alloc();
    let f = monic(alloc, &[1, 1]).expect(&rt, "memory");
    let table = frobenius_table(alloc, &f).expect(&rt, "memory");
    assert_eq!(rt; table.len(), 33);
    for power in &table {
        assert_eq!(rt; power.coeffs(), [Gf32::ONE].as_slice());
    }
}

#[test]
fn a_recurrence_goes_on(rt: HostRuntime) {
    let alloc = rt.alloc();
    let f = monic(alloc, &[2, 3, 1]).expect(&rt, "memory");
    let values = extend_recurrence(alloc, &f, &[Gf32::new(3), Gf32::new(5)], 4).expect(
        &rt, "memory",
    );
    assert_eq!(rt;
        values.as_slice(),
        [Gf32::new(3), Gf32::new(5), Gf32::new(9), Gf32::new(0x11)].as_slice()
    );
}
