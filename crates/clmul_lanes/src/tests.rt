//! Kernels compared with the plain field's bodies, and values that an independent program computed: inverses by Euclid's
//! algorithm on polynomials, traces as those of the matrices of products.

ghost use Rattle.std.specs.Prelude.{◌≡◌, ◌<◌, length};

use crate::{Lane32, product4, reduce4};
use field_core::{Field, Gf32};

fn inverse(bits: u32) -> u32
    requires { 0 < bits }
{
    Lane32::new(bits).inv().get()
}

#[test]
fn worked_values(rt: HostRuntime) {
    assert_eq!(rt; Lane32::new(0x8000_0000).mul(Lane32::new(2)).get(), 0x8d);
    assert_eq!(rt; Lane32::new(0x8000_0000).square().get(), 0x4000_1037);
    assert_eq!(rt; inverse(1), 1);
    assert_eq!(rt; inverse(2), 0x8000_0046);
    assert_eq!(rt; inverse(3), 0xffff_ff84);
    assert_eq!(rt; inverse(0x8000_0000), 0xfdc9_4c40);
    assert_eq!(rt; inverse(0xdead_beef), 0x236c_d880);
    for (bits, want) in [(1, false), (0x0200_0000, true), (0xdead_beef, true)] {
        let element = Lane32::new(bits);
        assert_eq!(rt; element.trace(), want, "at {bits}");
        assert_eq!(rt; element.artin_schreier_root().is_none(), want, "at {bits}");
    }
    let products = product4([0x8000_0000; 4], [0x8000_0000; 4]);
    assert_eq!(rt; products, [0x4000_0000_0000_0000; 4]);
    assert_eq!(rt; reduce4(products), [0x4000_1037; 4]);
    let products = product4([1, 2, 0x8000_0000, 0xffff_ffff], [0xdead_beef, 3, 2, 1]);
    assert_eq!(rt; reduce4(products), [0xdead_beef, 6, 0x8d, 0xffff_ffff]);
}

/// Bits that differ.
fn numbers() -> [u32; 68] {
    let mut items = [0; 68];
    let mut bits: u32 = 0x8000_0001;
    for item in items.iter_mut() {
        *item = bits;
        bits = bits.rotate_left(7) ^ 0x9e37_79b9;
    }
    items
}

/// What each kernel makes of the first `len` numbers, through the bound, as generic code calls it.
fn work<F: Field>(x: [F; 68], len: usize, k: F) -> [F; 68]
    requires { len < 68 }
{
    let numbers = &x[..];
    let mut items = x;
    F::axpy(&mut items[..len], k, &numbers[..len]);
    F::square_each(&mut items[..len]);
    F::odd_powers_into(&mut items[..len], k);
    F::power_sums_into(&mut items[..len], &numbers[len..]);
    items[67] = F::dot(&items[..len], &numbers[68 - len..]);
    items
}

#[test]
fn each_kernel_is_the_plain_work(rt: HostRuntime) {
    let bits = numbers();
    for len in 0..68 {
        let mut plain = [Gf32::new(0); 68];
        let mut lanes = [Lane32::new(0); 68];
        for i in 0..68 {
            plain[i] = Gf32::new(bits[i]);
            lanes[i] = Lane32::new(bits[i]);
        }
        plain = work(plain, len, Gf32::new(bits[67 - len]));
        lanes = work(lanes, len, Lane32::new(bits[67 - len]));
        for i in 0..68 {
            assert_eq!(rt; lanes[i].get(), plain[i].get(), "at {i} of {len}");
        }
    }
}
