//! Sketches whose bytes and lines are known.

ghost use Rattle.std.specs.Prelude.{◌≢◌, IsTrue};

use super::*;
use field_core::Gf32;
use sketch_rules::MAX_CAPACITY;

/// Whether it is not 0.
fn is_nonzero<F: Field>(e: F) -> bool
    ensures { IsTrue result → e ≢ F.ops.zero }
{
    e != F::ZERO
}

/// The line of the sketch of the empty set, after each of these elements has come or gone.
fn line_of(alloc: Global, toggled: &[u32], capacity: usize) -> Result<Bytes, OutOfMemory> {
    let Ok(mut sketch) = Sketch::empty(alloc, capacity) else {
        return Err(OutOfMemory);
    };
    for number in toggled {
        let element = Gf32::new(*number);
        if is_nonzero(element) {
            sketch.toggle(element);
        }
    }
    to_line(alloc, &sketch)
}

#[test]
fn sketches_have_known_lines(rt: HostRuntime) {
    for (toggled, capacity, want) in [
        ([1].as_slice(), 3, b"010000000100000001000000".as_slice()),
        (&[0x8000_0000], 2, b"00000080726d0420"),
        (&[1, 2, 3], 4, b"0000000006000000120000007e000000"),
        (&[1, 1], 3, b"000000000000000000000000"),
    ] {
        let line = line_of(rt.alloc(), toggled, capacity).expect(&rt, "memory");
        assert_eq!(rt; line.as_slice(), want);
    }
}

/// The bytes of these sums.
fn bytes_of_sums(alloc: Global, numbers: &[u32]) -> Result<Bytes, OutOfMemory> {
    let mut sums = Vec::new(alloc);
    for number in numbers {
        sums.push(Gf32::new(*number))?;
    }
    to_bytes(alloc, sums.as_slice())
}

#[test]
fn bytes_are_sums_or_no_sketch(rt: HostRuntime) {
    let alloc = rt.alloc();
    let bytes = bytes_of_sums(alloc, &[0, 6, 0x12, 0x7e]).expect(&rt, "memory");
    assert_eq!(rt;
        bytes.as_slice(),
        b"\0\0\0\0\x06\0\0\0\x12\0\0\0\x7e\0\0\0".as_slice()
    );
    let long = vec![in alloc; 0u8; 16_388].expect(&rt, "memory");
    for (bytes, fault) in [
        (b"".as_slice(), BytesFault::EmptySketch),
        (b"\x03\0\0\0\x09\0", BytesFault::RaggedLength(6)),
        (long.as_slice(), BytesFault::TooWide(16_388)),
    ] {
        assert_eq!(rt; from_bytes::<Gf32>(alloc, bytes).err(), Some(fault));
    }
    let widest = from_bytes::<Gf32>(alloc, &long.as_slice()[4..]);
    assert_eq!(rt; widest.expect(&rt, "memory").capacity(), MAX_CAPACITY);
}

#[test]
fn lines_that_are_no_sketch(rt: HostRuntime) {
    for (line, fault) in [
        ("0300000", LineFault::OddDigits),
        ("030x000", LineFault::OddDigits),
        ("030g0z00", LineFault::BadDigit(3)),
        ("", LineFault::Bytes(BytesFault::EmptySketch)),
        (
            "030000000900",
            LineFault::Bytes(BytesFault::RaggedLength(6)),
        ),
    ] {
        let refused = from_line::<Gf32>(rt.alloc(), line.as_bytes());
        assert_eq!(rt; refused.err(), Some(fault));
    }
}

/// The line of the sum of two sketches of one capacity, read from their lines.
fn line_of_both(alloc: Global, first: &[u8], second: &[u8]) -> Result<Bytes, LineFault> {
    let mut sum = from_line::<Gf32>(alloc, first)?;
    let other = from_line::<Gf32>(alloc, second)?;
    if sum.capacity() != other.capacity() {
        return Err(LineFault::OddDigits);
    }
    sum.merge_into(&other);
    match to_line(alloc, &sum) {
        Ok(line) => Ok(line),
        Err(_) => Err(LineFault::Bytes(BytesFault::OutOfMemory)),
    }
}

#[test]
fn two_lines_make_the_line_of_the_difference(rt: HostRuntime) {
    for (first, second, want) in [
        (
            b"0300000009000000",
            b"0200000008000000",
            b"0100000001000000",
        ),
        (
            b"0300000009000000",
            b"0300000009000000",
            b"0000000000000000",
        ),
        (
            b"00000080726d0420",
            b"00000080726D0420",
            b"0000000000000000",
        ),
        (
            b"00000080726D0420",
            b"0000000000000000",
            b"00000080726d0420",
        ),
    ] {
        let line = line_of_both(rt.alloc(), first, second).expect(&rt, "two sketches");
        assert_eq!(rt; line.as_slice(), want.as_slice());
    }
}

#[test]
fn faults_have_texts(rt: HostRuntime) {
    for (fault, want) in [
        (
            BytesFault::RaggedLength(6),
            "a sketch of 6 bytes, which is no multiple of 4",
        ),
        (BytesFault::EmptySketch, "a sketch of no bytes"),
        (
            BytesFault::TooWide(16388),
            "a sketch of 16388 bytes, which is above 16384",
        ),
        (BytesFault::OutOfMemory, "out of memory"),
    ] {
        let text = format!(in rt.alloc(); "{fault}").expect(&rt, "memory");
        assert_eq!(rt; text.as_str(), want);
    }
}
