//! Compared with products, at each length.

use crate::ListMultiples;
use field_core::{Field, Gf32};

#[test]
fn multiples_are_those_of_axpy(rt: HostRuntime) {
    let mut list = [Gf32::new(0); 67];
    let mut bits: u32 = 0x8000_0001;
    for item in list.iter_mut() {
        *item = Gf32::new(bits);
        bits = bits.rotate_left(7) ^ 0x9e37_79b9;
    }
    for n in 0..68 {
        let multiples = ListMultiples::of(rt.alloc(), &list[..n]).expect(&rt, "memory");
        let mut by_rows = [Gf32::new(5); 67];
        let mut by_products = by_rows;
        for k in [0, 1, 0x8000_0000, 0xffff_ffff, 0xdead_beef] {
            let k = Gf32::new(k);
            multiples.add_multiple(&mut by_rows[..n], k);
            Gf32::axpy(&mut by_products[..n], k, &list[..n]);
            multiples.add_multiple_of(n / 2, &mut by_rows[..n - n / 2], k);
            Gf32::axpy(&mut by_products[..n - n / 2], k, &list[n / 2..n]);
        }
        assert_eq!(rt; by_rows, by_products, "{n}");
    }
}
