//! Values that an independent program computed: inverses by Euclid's algorithm on polynomials, traces as those of the
//! matrices of products.

ghost use Rattle.std.specs.Prelude.{◌<◌};

use crate::{Field, Gf32};

fn inverse(bits: u32) -> u32
    requires { 0 < bits }
{
    Gf32::new(bits).inv().get()
}

#[test]
fn inverses_are_known(rt: HostRuntime) {
    assert_eq!(rt; inverse(1), 1);
    assert_eq!(rt; inverse(2), 0x8000_0046);
    assert_eq!(rt; inverse(3), 0xffff_ff84);
    assert_eq!(rt; inverse(0x8000_0000), 0xfdc9_4c40);
    assert_eq!(rt; inverse(0xdead_beef), 0x236c_d880);
}

#[test]
fn traces_are_known(rt: HostRuntime) {
    for (bits, want) in [
        (0, false),
        (1, false),
        (2, false),
        (0x0200_0000, true),
        (0x2000_0000, true),
        (0x2200_0000, false),
        (0xffff_ffff, false),
        (0xdead_beef, true),
    ] {
        assert_eq!(rt; Gf32::new(bits).trace(), want, "at {bits}");
    }
}

#[test]
fn powers_of_x_have_one_bit(rt: HostRuntime) {
    assert_eq!(rt; Gf32::basis(0).get(), 1);
    assert_eq!(rt; Gf32::basis(31).get(), 0x8000_0000);
}

// what generic code calls, through its bound
fn sums_of<F: Field>(acc: &mut [F; 3], k: F, x: &mut [F; 3]) -> F {
    F::axpy(acc, k, x);
    F::square_each(x);
    F::dot(acc, x)
}

#[test]
fn lists_of_elements(rt: HostRuntime) {
    let mut acc = [Gf32::new(1), Gf32::new(0), Gf32::new(0xffff_ffff)];
    let mut x = [Gf32::new(2), Gf32::new(3), Gf32::new(1)];
    let sum = sums_of(&mut acc, Gf32::new(0x8000_0000), &mut x);
    for (i, want) in [0x8c, 0x8000_008d, 0x7fff_ffff].iter().enumerate() {
        assert_eq!(rt; acc[i].get(), *want, "at {i}");
    }
    for (i, want) in [4, 5, 1].iter().enumerate() {
        assert_eq!(rt; x[i].get(), *want, "at {i}");
    }
    assert_eq!(rt; sum.get(), 0xffff_fe6c);
}
