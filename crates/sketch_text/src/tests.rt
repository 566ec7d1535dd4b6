use super::repeats::first_repeat;
use super::seats::are_seen_distinct;
use super::{element_of, set_of};
use base_types::{Kind, TextFault};
use clmul_lanes::Lane32;
use line_text::ReadStop;

#[test]
fn lines_end_at_lf_or_cr_and_lf(rt: HostRuntime) {
    let set = set_of(rt.alloc(), b"0000000a\r\n\n\r\nFFFFFFFf").expect(&rt, "memory");
    assert_eq!(rt;
        set.as_slice(),
        [Lane32::new(10), Lane32::new(0xffff_ffff)].as_slice()
    );
    let empty = set_of(rt.alloc(), b"\n\r\n").expect(&rt, "memory");
    assert!(rt; empty.is_empty());
}

#[test]
fn the_first_faulty_line_is_named(rt: HostRuntime) {
    for (text, place, kind) in [
        (b"00000001\r".as_slice(), 1, Kind::DigitCount),
        (b"\xc3\xa4\xc3\xa4\xc3\xa4\xc3\xa4\n", 1, Kind::BadDigit),
        (b"00000001\n\n00000001\n00000000\n", 3, Kind::Repeated),
        (b"00000001\n00000000\n00000001\n", 2, Kind::Zero),
        // behind plain lines
        (b"00000001\n000000002\n", 2, Kind::DigitCount),
        (b"00000001\n00000002\n\r\n00000002\n", 4, Kind::Repeated),
        (b"0000000A\n0000000a\n", 2, Kind::Repeated),
        (b"00000001\n000/0002\n", 2, Kind::BadDigit),
        (b"00000001\n0000000\r\n", 2, Kind::DigitCount),
        (
            b"00000002\n00000001\n0000000\n0000000x\n",
            3,
            Kind::DigitCount,
        ),
        (
            b"0000000b\n00000005\n0000000B\n00000005\n",
            3,
            Kind::Repeated,
        ),
    ] {
        let stop = set_of(rt.alloc(), text).err();
        assert_eq!(rt; stop, Some(ReadStop::Fault(TextFault { place, kind })));
    }
}

#[test]
fn an_element_has_eight_digits(rt: HostRuntime) {
    assert_eq!(rt; element_of(b"0102aBfF"), Ok(0x0102_abff));
    assert_eq!(rt; element_of(b"0102aBf"), Err(Kind::DigitCount));
}

#[test]
fn numbers_in_a_row_are_seen_distinct(rt: HostRuntime) {
    let mut numbers = Vec::new(rt.alloc());
    for number in 1..3000u32 {
        numbers.push(number).expect(&rt, "memory");
    }
    assert_eq!(rt; are_seen_distinct(rt.alloc(), numbers.as_slice()), Ok(true));
    numbers.push(1).expect(&rt, "memory");
    assert_eq!(rt;
        are_seen_distinct(rt.alloc(), numbers.as_slice()),
        Ok(false)
    );
    assert_eq!(rt;
        first_repeat(rt.alloc(), numbers.as_slice()),
        Ok(Some(2999))
    );
}
