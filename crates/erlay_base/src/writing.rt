//! Writing to a sink.

ghost use Rattle.std.specs.Prelude.{OnOk, OnErr};
ghost use Rattle.std.specs.Io.KnownBytes.{Appends};
ghost use Rattle.erlay_base.specs.Causes.{HasCause};
ghost use Rattle.erlay_base.specs.Moves.{HasWrittenPart};

use crate::Sink;
use base_types::Failed;

/// Writes all bytes. Takes no memory.
pub fn write_all<S: Sink>(sink: &mut S, bytes: &[u8]) -> Result<(), Failed>
    ensures all { OnOk result (Appends (S.written sink.old) (S.written sink.new) bytes.now) }
    ensures part { OnErr result (HasWrittenPart (S.written sink.old) (S.written sink.new) bytes.now) }
    ensures cause { HasCause (S.faults sink.old) (S.faults sink.new) result }
{
    let mut at = 0;
    while at < bytes.len() {
        at += sink.write(&bytes[at..])?;
    }
    Ok(())
}
