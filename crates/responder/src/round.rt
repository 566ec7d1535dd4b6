//! A round under way.

ghost use Rattle.std.specs.Prelude.{◌≡◌, ◌+◌, ◌<◌, ◌≤◌, suc, None, IfOk, IfErr, OnOk};
ghost use Rattle.sketch_rules.specs.Sketches.{bytes_of};
ghost use Rattle.sketch_rules.specs.declared.limits.TheConstants.{MAX_CAPACITY};
ghost use Rattle.pool_rules.specs.Snapshots.{snapshot_sums};
ghost use Rattle.pool_rules.specs.declared.limits.TheConstants.{LEAST_CAPACITY, FIRST_LIMIT};
ghost use Rattle.node_rules.specs.Accepter.{next_portion as portion_behind, diff_fault, accepter_announcement, ending_of};
ghost use Rattle.node_rules.specs.Outcomes.{report_of};
ghost use Rattle.node_rules.specs.Stages.{sent_phase};
ghost use Rattle.responder.specs.Refusals.{IsFault};

use crate::ResponderFault;
use crate::asks::check_asks;
use base_types::{Bytes, Hashes, OutOfMemory, Shorts};
use field_core::Field;
use pool_rules::{Ending, Report};
use recon_set::Snapshot;
use sketch_bytes::to_bytes;
use std::alloc::Global;
use std::marker::Model;
use wire_rules::Phase;

/// A round under way: what was taken from the set, the capacity of the first sketch, and how many extensions were sent.
#[derive(Drop)]
pub(crate) struct Round<F: Field> {
    snapshot: Snapshot<F>,
    capacity: u32,
    extensions: u32,
}

impl<F: Field> Model for Round<F> {
    ghost use Rattle.responder.specs.Machines.{Progress, IsProgress};

    ghost Value = { Progress };

    ghost view = { λ r. record { snapshot = r.snapshot.members; capacity = r.capacity; extensions = r.extensions } };

    ghost invariant = { λ r. IsProgress F.BITS r.capacity r.extensions };
}

impl<F: Field> Round<F> {
    ghost use Rattle.responder.specs.Machines.{round_of};

    /// A round whose first sketch is sent.
    pub(crate) fn begun(snapshot: Snapshot<F>, capacity: u32) -> Round<F>
        requires width { F.BITS ≡ 32 }
        requires least { LEAST_CAPACITY ≤ capacity }
        requires greatest { capacity ≤ FIRST_LIMIT }
        ensures { result ≡ record { snapshot = snapshot.members; capacity = capacity; extensions = 0 } }
    {
        Round {
            snapshot,
            capacity,
            extensions: 0,
        }
    }

    /// How many extensions were sent.
    pub(crate) fn extensions(&self) -> u32
        ensures value { result ≡ self.now.extensions }
        ensures few { result ≤ 2 }
    {
        self.extensions
    }

    /// Where a node stands in it.
    #[tactic(auto, unfolding(node_rules::specs::Stages::sent_phase))]
    pub(crate) fn phase(&self) -> Phase
        ensures { result ≡ sent_phase self.now.extensions }
    {
        match self.extensions {
            0 => Phase::Sent,
            1 => Phase::SentExt,
            _ => Phase::SentExt2,
        }
    }

    /// The sums of one more extension, as bytes: as many as were sent, behind them.
    pub(crate) fn next_portion(&self, alloc: Global) -> Result<Bytes, OutOfMemory>
        requires { self.now.extensions < 2 }
        ensures { IfOk result (λ bytes. bytes ≡ portion_behind (round_of self.now) self.now.extensions) }
    {
        let sent = (self.capacity << self.extensions) as usize;
        portion(alloc, &self.snapshot, sent, sent)
    }

    /// One more extension is sent.
    pub(crate) fn extend(&mut self)
        requires { self.old.extensions < 2 }
        ensures { self.new ≡ record self.old { extensions = suc self.old.extensions } }
    {
        self.extensions += 1;
    }

    /// Refuses the first fault of a difference with these asks.
    pub(crate) fn check_diff(
        &self,
        alloc: Global,
        success: bool,
        asks: &[u32],
    ) -> Result<(), ResponderFault>
        ensures sound { OnOk result (diff_fault success (round_of self.now) asks.now ≡ None) }
        ensures refused { IfErr result (IsFault (diff_fault success (round_of self.now) asks.now)) }
    {
        if success {
            return check_asks(alloc, &self.snapshot, asks);
        }
        if !asks.is_empty() {
            return Err(ResponderFault::AsksOnFailure(asks.len() as u64));
        }
        Ok(())
    }

    /// The ids to announce where the difference was found, and these are asked for; or where it wasn't.
    pub(crate) fn announced(&self, success: bool, asks: &[u32]) -> Result<Hashes, OutOfMemory>
        ensures { IfOk result (λ ids. ids ≡ accepter_announcement success (round_of self.now) asks.now) }
    {
        if success {
            self.snapshot.announced(asks)
        } else {
            self.snapshot.ids()
        }
    }

    /// What is told of it, where it ends with this difference.
    pub(crate) fn report(
        &self,
        alloc: Global,
        success: bool,
        asks: &[u32],
    ) -> Result<Report, OutOfMemory>
        ensures { IfOk result (λ report. report ≡ report_of (round_of self.now) (ending_of success self.now.extensions) asks.now) }
    {
        let snapshot = self.snapshot.ids()?;
        let answered = Shorts::from_vec(Vec::from_slice(alloc, asks)?);
        Ok(Report {
            snapshot,
            capacity: self.capacity,
            ending: self.ending(success),
            answered,
        })
    }

    /// How it ends.
    #[tactic(auto, unfolding(node_rules::specs::Stages::answered_ending))]
    fn ending(&self, success: bool) -> Ending
        ensures { result ≡ ending_of success self.now.extensions }
    {
        if !success {
            return Ending::Fallback;
        }
        match self.extensions {
            0 => Ending::First,
            1 => Ending::Extension,
            _ => Ending::Extension2,
        }
    }
}

/// So many sums of a snapshot's sketch from index `from` on, as bytes.
pub(crate) fn portion<F: Field>(
    alloc: Global,
    snapshot: &Snapshot<F>,
    from: usize,
    count: usize,
) -> Result<Bytes, OutOfMemory>
    requires width { F.BITS ≡ 32 }
    requires some { 1 ≤ count }
    requires within { from + count ≤ MAX_CAPACITY }
    ensures { IfOk result (λ bytes. bytes ≡ bytes_of (snapshot_sums snapshot.now.members from count)) }
{
    let Ok(sketch) = snapshot.sketch(from + count) else {
        return Err(OutOfMemory);
    };
    to_bytes(alloc, &sketch.sums()[from..from + count])
}
