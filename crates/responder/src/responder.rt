//! The accepter's machine of rounds.

ghost use Rattle.std.specs.Prelude.{◌≡◌, ◌≤◌, [], ◌∷◌, Ok, IfOk, IfErr, OnErr};
ghost use Rattle.node_rules.specs.Accepter.{accepter_reqrecon, accepter_extension, accepter_diff};
ghost use Rattle.responder.specs.Refusals.{IsRefusal};
ghost use Rattle.responder.specs.Machines.{idle_machine};
ghost use Rattle.responder.specs.declared.fault.ResponderFault.TheVariants as responder_fault;

use crate::ResponderFault;
use crate::round::{Round, portion};
use base_types::Shorts;
use capacity_rule::capacity;
use field_core::Field;
use inventories::announcement_of;
use pool_rules::Report;
use recon_set::ReconSet;
use std::alloc::Global;
use std::marker::Model;
use wire_rules::{Message, Name, Outs, Phase};

/// The accepter's machine of rounds. A contract sees its phase, its level, the round under way and the reports.
#[derive(Drop)]
pub struct Responder<F: Field> {
    alloc: Global,
    level: u32,
    round: Option<Round<F>>,
    reports: Vec<Report>,
}

impl<F: Field> Model for Responder<F> {
    ghost use Rattle.node_rules.specs.State.{Machine};
    ghost use Rattle.responder.specs.Machines.{machine_of, IsLevel};

    ghost Value = { Machine };

    ghost view = { λ r. machine_of r.level r.round r.reports.items };

    ghost invariant = { λ r. IsLevel F.BITS r.level r.round };
}

impl<F: Field> Responder<F> {
    /// A machine that no round was asked of. The level, 1 or 2, is how many extensions of a sketch may be asked for. It
    /// takes no memory.
    pub fn new(alloc: Global, level: u32) -> Responder<F>
        requires width { F.BITS ≡ 32 }
        requires least { 1 ≤ level }
        requires greatest { level ≤ 2 }
        ensures { result ≡ idle_machine level [] }
    {
        Responder {
            alloc,
            level,
            round: None,
            reports: Vec::new(alloc),
        }
    }

    /// Where it stands: `Idle` between rounds, else in `Sent`, `SentExt` or `SentExt2`.
    pub fn phase(&self) -> Phase
        ensures { result ≡ self.now.phase }
    {
        match &self.round {
            None => Phase::Idle,
            Some(round) => round.phase(),
        }
    }

    /// The rounds that are over, in order.
    pub fn reports(&self) -> &[Report]
        ensures { result.now ≡ self.now.reports }
    {
        self.reports.as_slice()
    }

    /// Answers a request for a sketch: takes the set whole, and sends its sketch. `size` is how many ids the other side has,
    /// and `q` the coefficient of the request. Where it refuses or memory runs out, the machine and the set are as they were.
    pub fn on_reqrecon(
        &mut self,
        size: u16,
        q: u16,
        set: &mut ReconSet<F>,
    ) -> Result<Message, ResponderFault>
        ensures answered { IfOk result (λ message. accepter_reqrecon self.old set.old size q ≡ Ok (record { machine = self.new; out = message ∷ [] })) }
        ensures emptied { IfOk result (λ _. set.new ≡ []) }
        ensures refused { IfErr result (IsRefusal (accepter_reqrecon self.old set.old size q)) }
        ensures unchanged { OnErr result (self.new ≡ self.old) }
        ensures kept { OnErr result (set.new ≡ set.old) }
    {
        if self.round.is_some() {
            return Err(self.misplaced(Name::ReqRecon));
        }
        let capacity = capacity(size, set.len() as u32, q);
        let sketch = portion(self.alloc, set.as_snapshot(), 0, capacity as usize)?;
        self.round = Some(Round::begun(set.take_snapshot(), capacity));
        Ok(Message::Sketch(sketch))
    }

    /// Answers a request for an extension of the sketch: sends as many sums as it has sent, behind them. Where it refuses or
    /// memory runs out, the machine is as it was.
    pub fn on_reqsketchext(&mut self) -> Result<Message, ResponderFault>
        ensures answered { IfOk result (λ message. accepter_extension self.old ≡ Ok (record { machine = self.new; out = message ∷ [] })) }
        ensures refused { IfErr result (IsRefusal (accepter_extension self.old)) }
        ensures unchanged { OnErr result (self.new ≡ self.old) }
    {
        let misplaced = self.misplaced(Name::ReqSketchExt);
        let Some(round) = &mut self.round else {
            return Err(misplaced);
        };
        if round.extensions() == self.level {
            return Err(misplaced);
        }
        let sums = round.next_portion(self.alloc)?;
        round.extend();
        Ok(Message::Sketch(sums))
    }

    /// Answers a difference: announces what was set aside and what is asked for, or all where it wasn't found. The round is
    /// over, and its report is kept. Where it refuses or memory runs out, the machine is as it was.
    pub fn on_reconcildiff(&mut self, success: bool, asks: &Shorts) -> Result<Outs, ResponderFault>
        ensures answered { IfOk result (λ outs. accepter_diff self.old success asks.now ≡ Ok (record { machine = self.new; out = outs })) }
        ensures refused { IfErr result (IsRefusal (accepter_diff self.old success asks.now)) }
        ensures unchanged { OnErr result (self.new ≡ self.old) }
    {
        let misplaced = self.misplaced(Name::ReconcilDiff);
        let Some(round) = &self.round else {
            return Err(misplaced);
        };
        round.check_diff(self.alloc, success, asks.as_slice())?;
        let announced = round.announced(success, asks.as_slice())?;
        let messages = announcement_of(self.alloc, announced.as_slice())?;
        let report = round.report(self.alloc, success, asks.as_slice())?;
        self.reports.push(report)?;
        self.round = None;
        Ok(Outs::from_vec(messages))
    }

    /// The refusal of a message that doesn't belong in the phase.
    fn misplaced(&self, command: Name) -> ResponderFault
        ensures { result ≡ responder_fault.Misplaced command self.now.phase }
    {
        ResponderFault::Misplaced {
            command,
            phase: self.phase(),
        }
    }
}
