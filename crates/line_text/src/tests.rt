use super::{TextLine, TextLines, count};

#[test]
fn lines_end_at_lf_or_cr_and_lf(rt: HostRuntime) {
    let text = b"\n\r\nab\r\n\r\r\n\xffc\r".as_slice();
    let mut lines = TextLines::of(text);
    for (number, bytes) in [(3, b"ab".as_slice()), (4, b"\r"), (5, b"\xffc\r")] {
        assert_eq!(rt; lines.next(), Some(TextLine { number, bytes }));
    }
    assert!(rt; lines.next().is_none());
    assert_eq!(rt; count(text), 3);
}

#[test]
fn empty_lines_are_no_lines(rt: HostRuntime) {
    assert_eq!(rt; count(b""), 0);
    assert_eq!(rt; count(b"\n\r\n"), 0);
    assert_eq!(rt; count(b"\r"), 1);
}
