//! Moving bytes through the fakes, with calls that fail in mid-stream, and through streams of the standard library.

use crate::fakes::{TEN, only};
use erlay_base::{Failed, MemSink, MemSource, ReadEnd, StdSink, StdSource, read_all, write_all};
use std::alloc::Global;
use std::io::{Error, ErrorKind, Write};
use std::process::Abort;

/// A source of the ten bytes: a call reads at most `cut` of them, and that of the number `failing` fails.
fn source_of(rt: &impl Abort, alloc: Global, cut: usize, failing: u64) -> MemSource {
    let bytes = TEN.to_vec(alloc).expect(rt, "memory");
    let calls = only(alloc, failing).expect(rt, "memory");
    MemSource::new(bytes, cut.max(1), calls)
}

/// How many of the ten bytes were taken: the rest of them is still there.
fn taken_from(rt: &impl Abort, alloc: Global, source: &mut MemSource) -> usize {
    let Ok(rest) = read_all(alloc, source, 10) else {
        rt.abort()
    };
    assert!(rt; TEN.ends_with(rest.as_slice()));
    10usize.saturating_sub(rest.len())
}

/// Why reading up to a limit stops, if it doesn't read all ten bytes, and how many were taken by then.
fn read(
    rt: &impl Abort,
    alloc: Global,
    cut: usize,
    failing: u64,
    limit: usize,
) -> (Option<ReadEnd>, usize) {
    let mut source = source_of(rt, alloc, cut, failing);
    match read_all(alloc, &mut source, limit.min(1_000_000)) {
        Ok(bytes) => {
            assert_eq!(rt; bytes.as_slice(), TEN);
            (None, 10)
        }
        Err(end) => (Some(end), taken_from(rt, alloc, &mut source)),
    }
}

#[test]
fn reads_to_the_end_or_stops(rt: HostRuntime) {
    // the bytes of a call at most, the call that fails, the limit, why it stopped, and the bytes taken by then
    for (cut, failing, limit, stop, taken) in [
        (1usize, 0, 10, None, 10),
        (3, 0, 11, None, 10),
        (11, 0, 1_000_000, None, 10),
        (1, 0, 0, Some(ReadEnd::TooLong), 1),
        (11, 0, 0, Some(ReadEnd::TooLong), 1),
        (1, 0, 9, Some(ReadEnd::TooLong), 10),
        (4, 0, 9, Some(ReadEnd::TooLong), 10),
        (11, 0, 9, Some(ReadEnd::TooLong), 10),
        (4, 1, 10, Some(ReadEnd::Failed), 0),
        (4, 3, 10, Some(ReadEnd::Failed), 8),
        (10, 2, 10, Some(ReadEnd::Failed), 10),
        // two calls find the end, and no third is made
        (10, 3, 10, None, 10),
    ] {
        let told = read(&rt, rt.alloc(), cut, failing, limit);
        assert_eq!(rt; told, (stop, taken), "{cut} {failing} {limit}");
    }
}

/// What comes of writing the ten bytes, and how many were written by then.
fn written(
    rt: &impl Abort,
    alloc: Global,
    cut: usize,
    failing: u64,
) -> (Result<(), Failed>, usize) {
    let calls = only(alloc, failing).expect(rt, "memory");
    let mut sink = MemSink::new(alloc, cut.max(1), calls);
    let told = write_all(&mut sink, TEN);
    assert!(rt; TEN.starts_with(sink.written()));
    (told, sink.written().len())
}

#[test]
fn writes_all_or_stops(rt: HostRuntime) {
    // the bytes of a call at most, the call that fails, what comes of it, and the bytes written by then
    for (cut, failing, result, count) in [
        (1usize, 0, Ok(()), 10),
        (3, 0, Ok(()), 10),
        (11, 0, Ok(()), 10),
        (4, 1, Err(Failed), 0),
        (4, 3, Err(Failed), 8),
        (1, 10, Err(Failed), 9),
        // ten calls write all, and no eleventh is made
        (1, 11, Ok(()), 10),
    ] {
        let told = written(&rt, rt.alloc(), cut, failing);
        assert_eq!(rt; told, (result, count), "{cut} {failing}");
    }
}

/// Takes each piece, and gives `errors` errors before a flush passes.
#[derive(Drop)]
struct Flushing {
    errors: u32,
    kind: ErrorKind,
}

impl Write for Flushing {
    fn write(&mut self, buf: &[u8]) -> std::io::Result<usize> {
        Ok(buf.len())
    }

    fn flush(&mut self) -> std::io::Result<()> {
        if self.errors == 0 {
            return Ok(());
        }
        self.errors -= 1;
        Err(Error::from(self.kind))
    }
}

/// What comes of writing the ten bytes, where so many flushes fail.
fn flushed(errors: u32, kind: ErrorKind) -> Result<(), Failed> {
    let mut sink = StdSink::new(Flushing { errors, kind });
    write_all(&mut sink, TEN)
}

#[test]
fn a_flush_that_fails_is_a_fault(rt: HostRuntime) {
    assert_eq!(rt; flushed(1, ErrorKind::Other), Err(Failed));
    // but for interruptions below a thousand
    assert_eq!(rt; flushed(999, ErrorKind::Interrupted), Ok(()));
    assert_eq!(rt; flushed(1000, ErrorKind::Interrupted), Err(Failed));
}

#[test]
fn reads_through_std_streams(rt: HostRuntime) {
    let Ok(bytes) = read_all(rt.alloc(), &mut StdSource::new(TEN), 10) else {
        rt.abort()
    };
    assert_eq!(rt; bytes.as_slice(), TEN);
    let _ = StdSource::new(rt.reader());
}

#[test]
fn writes_through_std_streams(rt: HostRuntime) {
    let mut room = [0u8; 9];
    let mut sink = StdSink::new(&mut room[..]);
    // There is room for nine bytes: the tenth is a fault.
    assert_eq!(rt; write_all(&mut sink, TEN), Err(Failed));
    let mut streams = StdSink::new(std::io::writer(&rt));
    assert_eq!(rt; write_all(&mut streams, &[]), Ok(()));
}
