//! A source over given bytes.

ghost use Rattle.std.specs.Prelude.{Some, ◌≡◌, ◌≤◌, ◌↔◌, ◌++◌, IfOk, OnErr, IsErr, min, length, take, drop};
ghost use Rattle.std.specs.List.{Contains};
ghost use Rattle.std.specs.Io.{ReadsAtMost};
ghost use Rattle.std.specs.Io.KnownBytes.{ReadConsumes};
ghost use Rattle.erlay_base.specs.Causes.{HasCause, next_count, count_if_failed};

use crate::Source;
use crate::calls::{fault, is_to_fail};
use base_types::Failed;
use std::marker::Model;

/// Gives the bytes that it was made with, at most `cut` a call, and tells them. The calls whose
/// numbers it was given fail; calls are counted from 1.
#[derive(Debug, Drop)]
pub struct MemSource {
    bytes: Vec<u8>,
    at: usize,
    cut: usize,
    failing: Vec<u64>,
    calls: u64,
    faults: u64,
}

impl Model for MemSource {
    ghost use Rattle.std.specs.Prelude.{◌≤◌, drop, vec_len};
    ghost use Rattle.erlay_base.specs.Fakes.{SourceState};

    ghost Value = { SourceState };

    ghost view = { λ s. record { left = drop s.at s.bytes.items; cut = s.cut; failing = s.failing.items; calls = s.calls; faults = s.faults } };

    ghost invariant = { λ s. (s.at ≤ vec_len s.bytes) × (1 ≤ s.cut) };
}

impl MemSource {
    /// A source of `bytes`, at most `cut` a call. The calls with the numbers `failing` fail.
    pub fn new(bytes: Vec<u8>, cut: usize, failing: Vec<u64>) -> MemSource
        requires { 1 ≤ cut }
        ensures left { result.left ≡ bytes.items }
        ensures cut { result.cut ≡ cut }
        ensures failing { result.failing ≡ failing.items }
        ensures calls { result.calls ≡ 0 }
        ensures faults { result.faults ≡ 0 }
    {
        MemSource {
            bytes,
            at: 0,
            cut,
            failing,
            calls: 0,
            faults: 0,
        }
    }
}

impl Source for MemSource {
    ghost left = { λ s. Some s.left };

    ghost faults = { λ s. s.faults };

    fn read(&mut self, buf: &mut [u8]) -> Result<usize, Failed>
        ensures bound { ReadsAtMost result buf.new }
        ensures bytes { ReadConsumes (Some self.old.left) (Some self.new.left) result buf.new }
        ensures cause { HasCause self.old.faults self.new.faults result }
        ensures failing { IsErr result ↔ Contains self.old.failing self.new.calls }
        ensures count { IfOk result (λ n. n ≡ min self.old.cut (min (length buf.old) (length self.old.left))) }
        ensures given { IfOk result (λ n. buf.new ≡ take n self.old.left ++ drop n buf.old) }
        ensures unchanged { OnErr result (buf.new ≡ buf.old) }
        ensures calls { self.new.calls ≡ next_count self.old.calls }
        ensures faults { self.new.faults ≡ count_if_failed result self.old.faults }
        ensures same { (self.new.cut ≡ self.old.cut) × (self.new.failing ≡ self.old.failing) }
    {
        if is_to_fail(self.failing.as_slice(), &mut self.calls) {
            return Err(fault(&mut self.faults));
        }
        let rest = &self.bytes[self.at..];
        let count = self.cut.min(buf.len().min(rest.len()));
        buf[..count].copy_from_slice(&rest[..count]);
        self.at += count;
        Ok(count)
    }
}
