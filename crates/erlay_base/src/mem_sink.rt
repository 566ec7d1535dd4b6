//! A sink that keeps what it takes.

ghost use Rattle.std.specs.Prelude.{Some, ◌≡◌, ◌≤◌, [], IfOk, IsErr, min, length};
ghost use Rattle.std.specs.List.{Contains};
ghost use Rattle.std.specs.Io.{WritesAtMost};
ghost use Rattle.std.specs.Io.KnownBytes.{WriteAppends};
ghost use Rattle.erlay_base.specs.Causes.{HasCause, next_count, count_if_failed};
ghost use Rattle.erlay_base.specs.Moves.{HasProgress};

use crate::Sink;
use crate::calls::{fault, is_to_fail};
use base_types::Failed;
use std::alloc::Global;
use std::marker::Model;

/// Keeps the bytes that it takes, at most `cut` a call, and tells them. The calls whose numbers it
/// was given fail; calls are counted from 1. Any other call may fail for want of memory for what it
/// keeps, and counts that as a fault.
#[derive(Debug, Drop)]
pub struct MemSink {
    taken: Vec<u8>,
    cut: usize,
    failing: Vec<u64>,
    calls: u64,
    faults: u64,
}

impl Model for MemSink {
    ghost use Rattle.std.specs.Prelude.{◌≤◌};
    ghost use Rattle.erlay_base.specs.Fakes.{SinkState};

    ghost Value = { SinkState };

    ghost view = { λ s. record { written = s.taken.items; cut = s.cut; failing = s.failing.items; calls = s.calls; faults = s.faults } };

    ghost invariant = { λ s. 1 ≤ s.cut };
}

impl MemSink {
    /// A sink that has no byte yet and takes at most `cut` a call. The calls with the numbers
    /// `failing` fail.
    pub fn new(alloc: Global, cut: usize, failing: Vec<u64>) -> MemSink
        requires { 1 ≤ cut }
        ensures written { result.written ≡ [] }
        ensures cut { result.cut ≡ cut }
        ensures failing { result.failing ≡ failing.items }
        ensures calls { result.calls ≡ 0 }
        ensures faults { result.faults ≡ 0 }
    {
        MemSink {
            taken: Vec::new(alloc),
            cut,
            failing,
            calls: 0,
            faults: 0,
        }
    }

    /// The bytes that it took, in order.
    pub fn written(&self) -> &[u8]
        ensures { result.now ≡ self.now.written }
    {
        self.taken.as_slice()
    }
}

impl Sink for MemSink {
    ghost written = { λ s. Some s.written };

    ghost faults = { λ s. s.faults };

    fn write(&mut self, piece: &[u8]) -> Result<usize, Failed>
        ensures bound { WritesAtMost result piece.now }
        ensures some { HasProgress result piece.now }
        ensures bytes { WriteAppends (Some self.old.written) (Some self.new.written) result piece.now }
        ensures cause { HasCause self.old.faults self.new.faults result }
        ensures failing { Contains self.old.failing self.new.calls → IsErr result }
        ensures count { IfOk result (λ n. n ≡ min self.old.cut (length piece.now)) }
        ensures calls { self.new.calls ≡ next_count self.old.calls }
        ensures faults { self.new.faults ≡ count_if_failed result self.old.faults }
        ensures same { (self.new.cut ≡ self.old.cut) × (self.new.failing ≡ self.old.failing) }
    {
        if is_to_fail(self.failing.as_slice(), &mut self.calls) {
            return Err(fault(&mut self.faults));
        }
        let count = self.cut.min(piece.len());
        if self.taken.extend_from_slice(&piece[..count]).is_err() {
            return Err(fault(&mut self.faults));
        }
        Ok(count)
    }
}
