//! Small sketches, of which the sums are known.

use crate::{Decoded, Sketch, SketchFault};
use base_types::Elems;
use field_core::Gf32;

#[test]
fn capacities_are_1_to_4096(rt: HostRuntime) {
    for capacity in [0, 4097] {
        let refused = Sketch::<Gf32>::empty(rt.alloc(), capacity);
        assert_eq!(rt;
            refused.err(),
            Some(SketchFault::CapacityOutOfRange(capacity))
        );
    }
    for capacity in [1, 4096] {
        let sketch = Sketch::<Gf32>::empty(rt.alloc(), capacity).expect(&rt, "memory");
        assert_eq!(rt; sketch.capacity(), capacity);
        for sum in sketch.sums() {
            assert_eq!(rt; *sum, Gf32::new(0));
        }
    }
}

#[test]
fn elements_come_and_go(rt: HostRuntime) {
    let alloc = rt.alloc();
    let one = Sketch::of(alloc, &[Gf32::new(1)], 4).expect(&rt, "memory");
    assert_eq!(rt; one.sums(), [Gf32::new(1); 4].as_slice());
    let mut sketch = Sketch::of(alloc, &[Gf32::new(1), Gf32::new(2)], 4).expect(&rt, "memory");
    let both = Sketch::of(alloc, &[Gf32::new(2), Gf32::new(1)], 4).expect(&rt, "memory");
    assert_eq!(rt; sketch.sums(), both.sums());
    sketch.toggle(Gf32::new(2));
    assert_eq!(rt; sketch.sums(), one.sums());
    sketch.toggle(Gf32::new(2));
    assert_eq!(rt; sketch.sums(), both.sums());
    assert_eq!(rt; one.capacity(), sketch.capacity());
    sketch.merge_into(&one);
    let sums = [Gf32::new(2), Gf32::new(8), Gf32::new(32), Gf32::new(128)];
    assert_eq!(rt; sketch.sums(), sums.as_slice());
}

#[test]
fn a_prefix_and_an_extension_join(rt: HostRuntime) {
    let alloc = rt.alloc();
    let set = [Gf32::new(1), Gf32::new(2), Gf32::new(3)];
    let sketch = Sketch::of(alloc, &set, 4).expect(&rt, "memory");
    assert_eq!(rt; sketch.capacity(), 4);
    let prefix = sketch.prefix(alloc, 2).expect(&rt, "memory");
    let extension = sketch.extension(alloc, 2, 4).expect(&rt, "memory");
    assert_eq!(rt; prefix.sums(), [Gf32::new(0), Gf32::new(6)].as_slice());
    assert_eq!(rt;
        extension.as_slice(),
        [Gf32::new(0x12), Gf32::new(0x7e)].as_slice()
    );
    assert_eq!(rt; prefix.capacity(), 2);
    assert_eq!(rt; extension.len(), 2);
    let joined = Sketch::join(prefix, extension.as_slice()).expect(&rt, "memory");
    assert_eq!(rt; joined.sums(), sketch.sums());
}

#[test]
fn all_sums_have_the_even_powers(rt: HostRuntime) {
    let alloc = rt.alloc();
    let sketch = Sketch::of(alloc, &[Gf32::new(1), Gf32::new(2)], 2).expect(&rt, "memory");
    let sums = sketch.all_sums(alloc).expect(&rt, "memory");
    let want = [Gf32::new(3), Gf32::new(5), Gf32::new(9), Gf32::new(0x11)];
    assert_eq!(rt; sums.as_slice(), want.as_slice());
    let found = Decoded::Found(Elems::from_vec(sums));
    assert!(rt; matches!(&found, Decoded::Found(set) if set.as_slice().len() == 4));
    let none: Decoded<Gf32> = Decoded::NoSet;
    assert!(rt; matches!(&none, Decoded::NoSet));
}

#[test]
fn faults_have_texts(rt: HostRuntime) {
    for (fault, want) in [
        (
            SketchFault::CapacityOutOfRange(4097),
            "a sketch has 1 to 4096 sums, and not 4097",
        ),
        (SketchFault::OutOfMemory, "out of memory"),
    ] {
        let text = format!(in rt.alloc(); "{fault}").expect(&rt, "memory");
        assert_eq!(rt; text.as_str(), want);
    }
}
