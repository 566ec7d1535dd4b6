//! What the machine makes of a sketch.

ghost use Rattle.std.specs.Prelude.{◌≡◌, ℕ, ◌<◌, ◌==◌, List, length, map, IfOk, OnOk, IfErr, None, IsSome};
ghost use Rattle.pool_rules.specs.Snapshots.{Member};
ghost use Rattle.node_rules.specs.Opener.{initiator_question, difference_sketch, is_first_length};
ghost use Rattle.initiator.specs.Questions.{IsQuestion, end_of, round_with, sketch_fault};

use crate::stage::Stage;
use crate::{Initiator, InitiatorFault};
use base_types::OutOfMemory;
use field_core::Field;
use pool_rules::FIRST_LIMIT;
use recon_set::{ReconSet, Snapshot};
use sketch_bytes::from_bytes;
use sketch_core::Sketch;
use wire_rules::Name;

/// Whether a first sketch may have as many bytes.
fn is_first_length(len: u64) -> bool
    ensures { result ≡ is_first_length len }
{
    len % 4 == 0 && len <= 4 * u64::from(FIRST_LIMIT)
}

impl<F: Field> Initiator<F> {
    /// The sketch that is to be decoded once these bytes of a sketch have come: that of what the peer's set and the own one
    /// differ in, where the peer has sent any sums.
    pub fn merged(
        &self,
        skdata: &[u8],
        set: &ReconSet<F>,
    ) -> Result<Option<Sketch<F>>, InitiatorFault>
        ensures { IsQuestion F.bits_of (initiator_question self.now.machine set.now skdata.now) result }
    {
        self.check(skdata.len())?;
        if self.first_capacity(skdata) == 0 {
            return Ok(None);
        }
        Ok(Some(self.difference(skdata, set)?))
    }

    /// Whether a sketch of this many bytes is waited for.
    fn check(&self, len: usize) -> Result<(), InitiatorFault>
        ensures ok { OnOk result (sketch_fault self.now.machine len ≡ None) }
        ensures err { IfErr result (λ fault. (sketch_fault self.now.machine len ≡ end_of fault) × IsSome (end_of fault)) }
    {
        let len = len as u64;
        match &self.stage {
            Stage::Waiting => {
                if !is_first_length(len) {
                    return Err(InitiatorFault::SketchLength { len, wanted: 0 });
                }
            }
            Stage::Extending(round) => {
                let wanted = 4 * round.sketch.capacity() as u64;
                if len != wanted {
                    return Err(InitiatorFault::SketchLength { len, wanted });
                }
            }
            _ => {
                return Err(InitiatorFault::Misplaced {
                    command: Name::Sketch,
                    phase: self.phase(),
                });
            }
        }
        Ok(())
    }

    /// The capacity of the first sketch: 0 where it has no bytes.
    pub(crate) fn first_capacity(&self, skdata: &[u8]) -> u32
        requires { sketch_fault self.now.machine (length skdata.now) ≡ None }
        ensures value { (set : List Member) → result ≡ (round_with self.now.machine set skdata.now).capacity }
        ensures none { (result == 0) ≡ (length skdata.now == 0) }
    {
        match &self.stage {
            Stage::Extending(round) => round.capacity,
            _ => (skdata.len() / 4) as u32,
        }
    }

    /// The peer's sums so far, with those of these bytes behind them.
    pub(crate) fn peer_sketch(&self, skdata: &[u8]) -> Result<Sketch<F>, OutOfMemory>
        requires awaited { sketch_fault self.now.machine (length skdata.now) ≡ None }
        requires some { 0 < length skdata.now }
        ensures { IfOk result (λ sketch. (set : List Member)
            → map F.bits_of sketch ≡ (round_with self.now.machine set skdata.now).sums) }
    {
        let Ok(more) = from_bytes(self.alloc, skdata) else {
            return Err(OutOfMemory);
        };
        match &self.stage {
            Stage::Extending(round) => {
                let sketch = round.sketch.prefix(self.alloc, round.sketch.capacity())?;
                Sketch::join(sketch, more.sums())
            }
            _ => Ok(more),
        }
    }

    /// What the round compares with the peer's set: what it took of the own one, or is to take.
    pub(crate) fn snapshot<'a>(&'a self, set: &'a ReconSet<F>) -> &'a Snapshot<F>
        ensures { (bytes : List ℕ) → sketch_fault self.now.machine (length bytes) ≡ None
            → result.now.members ≡ (round_with self.now.machine set.now bytes).snapshot }
    {
        match &self.stage {
            Stage::Extending(round) => &round.snapshot,
            _ => set.as_snapshot(),
        }
    }

    /// The sketch of what the peer's set and the own one differ in.
    fn difference(&self, skdata: &[u8], set: &ReconSet<F>) -> Result<Sketch<F>, OutOfMemory>
        requires awaited { sketch_fault self.now.machine (length skdata.now) ≡ None }
        requires some { 0 < length skdata.now }
        ensures { IfOk result (λ sketch. map F.bits_of sketch ≡ difference_sketch (round_with self.now.machine set.now skdata.now)) }
    {
        let mut sketch = self.peer_sketch(skdata)?;
        let Ok(own) = self.snapshot(set).sketch(sketch.capacity()) else {
            return Err(OutOfMemory);
        };
        sketch.merge_into(&own);
        Ok(sketch)
    }
}
