//! Sources and sinks over the standard library's readers and writers.

ghost use Rattle.std.specs.Prelude.{◌≡◌, ◌↔◌, None, IfOk, IsTrue, OnErr, take};
ghost use Rattle.std.specs.IoError.{error_kind};
ghost use Rattle.std.specs.Io.{ReadsAtMost, WritesAtMost};
ghost use Rattle.std.specs.Io.KnownBytes.{Appends, Keeps, ReadConsumes, WriteAppends};
ghost use Rattle.erlay_base.specs.Causes.{HasCause, count_if_failed};
ghost use Rattle.erlay_base.specs.Moves.{HasProgress, WritesFront};

use crate::calls::fault;
use crate::{Sink, Source};
use base_types::Failed;
use std::io::{Error, ErrorKind, Read, Write};
use std::marker::Model;

/// How often one call is tried where a signal interrupts it.
const TRIES: u32 = 1000;

/// A source over a reader. It tells no bytes. A read that a signal interrupts is tried again, a
/// thousand times in all; any other error, and the last interruption, is a fault.
#[derive(Drop)]
pub struct StdSource<R: Drop> {
    reader: R,
    faults: u64,
}

impl<R: Drop> Model for StdSource<R> {
    ghost use Rattle.erlay_base.specs.Fakes.{Adapter};

    ghost Value = { Adapter R };

    ghost view = { λ s. record { stream = s.reader; faults = s.faults } };
}

impl<R: Read + Drop> StdSource<R> {
    /// A source of what `reader` gives.
    pub fn new(reader: R) -> Self
        ensures stream { result.stream ≡ reader }
        ensures faults { result.faults ≡ 0 }
    {
        StdSource { reader, faults: 0 }
    }
}

impl<R: Read + Drop> Source for StdSource<R> {
    ghost left = { λ _. None };

    ghost faults = { λ s. s.faults };

    fn read(&mut self, buf: &mut [u8]) -> Result<usize, Failed>
        ensures bound { ReadsAtMost result buf.new }
        ensures bytes { ReadConsumes None None result buf.new }
        ensures cause { HasCause self.old.faults self.new.faults result }
        ensures faults { self.new.faults ≡ count_if_failed result self.old.faults }
        ensures passed { ReadConsumes (R.remaining self.old.stream) (R.remaining self.new.stream) result buf.new }
    {
        match read_retrying(&mut self.reader, buf) {
            Ok(count) => Ok(count),
            Err(Failed) => Err(fault(&mut self.faults)),
        }
    }
}

/// A sink over a writer. It tells no bytes. Each write is followed by a flush. A write or flush that
/// a signal interrupts is tried again, a thousand times in all; any other error, the last
/// interruption, and a write that takes no byte of a piece that isn't empty is a fault. Where the
/// flush fails, the writer may hold or have passed on what it took just before: a front part of the
/// piece, and nothing else.
#[derive(Drop)]
pub struct StdSink<W: Drop> {
    writer: W,
    faults: u64,
}

impl<W: Drop> Model for StdSink<W> {
    ghost use Rattle.erlay_base.specs.Fakes.{Adapter};

    ghost Value = { Adapter W };

    ghost view = { λ s. record { stream = s.writer; faults = s.faults } };
}

impl<W: Write + Drop> StdSink<W> {
    /// A sink that writes to `writer`.
    pub fn new(writer: W) -> Self
        ensures stream { result.stream ≡ writer }
        ensures faults { result.faults ≡ 0 }
    {
        StdSink { writer, faults: 0 }
    }
}

impl<W: Write + Drop> Sink for StdSink<W> {
    ghost written = { λ _. None };

    ghost faults = { λ s. s.faults };

    fn write(&mut self, piece: &[u8]) -> Result<usize, Failed>
        ensures bound { WritesAtMost result piece.now }
        ensures some { HasProgress result piece.now }
        ensures bytes { WriteAppends None None result piece.now }
        ensures cause { HasCause self.old.faults self.new.faults result }
        ensures faults { self.new.faults ≡ count_if_failed result self.old.faults }
        ensures passed { IfOk result (λ n. Appends (W.contents self.old.stream) (W.contents self.new.stream) (take n piece.now)) }
        ensures front { OnErr result (WritesFront (W.contents self.old.stream) (W.contents self.new.stream) piece.now) }
    {
        match write_and_flush(&mut self.writer, piece) {
            Ok(count) if count > 0 || piece.is_empty() => Ok(count),
            _ => Err(fault(&mut self.faults)),
        }
    }
}

/// A signal interrupted the call.
fn is_interrupted(error: &Error) -> bool
    ensures { IsTrue result ↔ (error_kind error.now ≡ ErrorKind.Interrupted) }
{
    error.kind() == ErrorKind::Interrupted
}

// One read, tried again where a signal interrupts it.
pub(crate) fn read_retrying<R: Read>(reader: &mut R, buf: &mut [u8]) -> Result<usize, Failed>
    ensures bound { ReadsAtMost result buf.new }
    ensures bytes { ReadConsumes (R.remaining reader.old) (R.remaining reader.new) result buf.new }
{
    for _ in 0..TRIES {
        match reader.read(buf) {
            Ok(count) => return Ok(count),
            Err(error) if is_interrupted(&error) => {}
            Err(_) => return Err(Failed),
        }
    }
    Err(Failed)
}

// One write and a flush, each tried again where a signal interrupts it.
fn write_and_flush<W: Write>(writer: &mut W, piece: &[u8]) -> Result<usize, Failed>
    ensures bound { WritesAtMost result piece.now }
    ensures bytes { IfOk result (λ n. Appends (W.contents writer.old) (W.contents writer.new) (take n piece.now)) }
    ensures front { OnErr result (WritesFront (W.contents writer.old) (W.contents writer.new) piece.now) }
{
    let count = write_retrying(writer, piece)?;
    flush_retrying(writer)?;
    Ok(count)
}

// One write, tried again where a signal interrupts it.
pub(crate) fn write_retrying<W: Write>(writer: &mut W, piece: &[u8]) -> Result<usize, Failed>
    ensures bound { WritesAtMost result piece.now }
    ensures bytes { WriteAppends (W.contents writer.old) (W.contents writer.new) result piece.now }
{
    for _ in 0..TRIES {
        match writer.write(piece) {
            Ok(count) => return Ok(count),
            Err(error) if is_interrupted(&error) => {}
            Err(_) => return Err(Failed),
        }
    }
    Err(Failed)
}

// A flush, tried again where a signal interrupts it.
fn flush_retrying<W: Write>(writer: &mut W) -> Result<(), Failed>
    ensures { Keeps (W.contents writer.old) (W.contents writer.new) }
{
    for _ in 0..TRIES {
        match writer.flush() {
            Ok(()) => return Ok(()),
            Err(error) if is_interrupted(&error) => {}
            Err(_) => return Err(Failed),
        }
    }
    Err(Failed)
}
