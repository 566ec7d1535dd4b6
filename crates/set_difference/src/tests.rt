//! Two small sets whose sketches are known, and bytes that are no sketches.

use super::*;
use base_types::OutOfMemory;
use field_core::{Field, Gf32};
use sketch_bytes::BytesFault;
use sketch_core::Decoded;
use std::alloc::Global;

/// The numbers that were found, none where no set has the sketch.
fn numbers(alloc: Global, decoded: &Decoded<Gf32>) -> Result<Option<Vec<u32>>, OutOfMemory> {
    match decoded {
        Decoded::NoSet => Ok(None),
        Decoded::Found(set) => {
            let mut found = Vec::new(alloc);
            for element in set.as_slice() {
                found.push(element.get())?;
            }
            Ok(Some(found))
        }
    }
}

/// The sums of 1, 2 and 3, then those of 1, at capacity 2.
const THREE: &[u8] = b"\0\0\0\0\x06\0\0\0";

const ONE: &[u8] = b"\x01\0\0\0\x01\0\0\0";

#[test]
fn two_sets_differ_in_two_elements(rt: HostRuntime) {
    let alloc = rt.alloc();
    let found = difference::<Gf32>(alloc, THREE, ONE).expect(&rt, "two sketches");
    let set = numbers(alloc, &found).expect(&rt, "memory");
    assert!(rt; matches!(&set, Some(items) if items.as_slice() == [2, 3].as_slice()));
    let same = decode_bytes::<Gf32>(alloc, b"\x01\0\0\0\x07\0\0\0").expect(&rt, "a sketch");
    let set = numbers(alloc, &same).expect(&rt, "memory");
    assert!(rt; matches!(&set, Some(items) if items.as_slice() == [2, 3].as_slice()));
    let none = decode_bytes::<Gf32>(alloc, THREE).expect(&rt, "a sketch");
    assert!(rt; matches!(&none, Decoded::NoSet));
}

#[test]
fn bytes_without_a_difference(rt: HostRuntime) {
    let alloc = rt.alloc();
    for (ours, theirs, fault) in [
        (
            b"".as_slice(),
            b"".as_slice(),
            DifferenceFault::Ours(BytesFault::EmptySketch),
        ),
        (
            ONE,
            b"\x01".as_slice(),
            DifferenceFault::Theirs(BytesFault::RaggedLength(1)),
        ),
        (
            ONE,
            b"\x01\0\0\0".as_slice(),
            DifferenceFault::LengthsDiffer,
        ),
    ] {
        assert_eq!(rt; difference::<Gf32>(alloc, ours, theirs).err(), Some(fault));
    }
    let ragged = decode_bytes::<Gf32>(alloc, b"\x01");
    assert_eq!(rt; ragged.err(), Some(BytesFault::RaggedLength(1)));
}
