//! The rounds of a node: by its opener's or its accepter's machine.

ghost use Rattle.std.specs.Prelude.{◌≡◌, ◌∷◌, [], true, IfOk, OnOk, OnErr};
ghost use Rattle.wire_rules.specs.Limits.{IsMessage};
ghost use Rattle.wire_rules.specs.declared.message.Message.TheVariants as message;
ghost use Rattle.node_rules.specs.Barrier.{is_barrier_end, on_pong};
ghost use Rattle.node_rules.specs.Invariant.{IsNode};
ghost use Rattle.node_rules.specs.Opener.{plain_start, round_start};
ghost use Rattle.node_rules.specs.Stages.{is_after_handshake, is_idle};
ghost use Rattle.node_rules.specs.Steps.{in_relay, on_start};
ghost use Rattle.node_rules.specs.Turns.{after_turn, turn_with};
ghost use Rattle.node_rules.specs.declared.end.End.TheVariants as end;
ghost use Rattle.outbox.specs.Waiting.{with_messages};
ghost use Rattle.conversation.specs.Handled.{IsStep};
ghost use Rattle.conversation.specs.declared.stop.Stop.TheVariants as stop;

use crate::conversation::Conversation;
use crate::stage::Stage;
use crate::stop::Stop;
use base_types::{OutOfMemory, Shorts};
use clmul_lanes::Lane32;
use initiator::Initiator;
use node_rules::End;
use outbox::Outbox;
use sketch_answers::take_sketch;
use wire_rules::{Message, Name, Phase};

/// Starts a round over a set of this size. Where memory runs out, nothing changes.
#[tactic(auto, unfolding(node_rules::specs::Opener::start_if))]
fn start_round(
    machine: &mut Initiator<Lane32>,
    size: u16,
    outbox: &mut Outbox,
) -> Result<(), OutOfMemory>
    requires { is_idle machine.old.machine.phase ≡ true }
    ensures machine { OnOk result (machine.new ≡ (round_start machine.old size).initiator) }
    ensures sent { OnOk result (outbox.new ≡ with_messages outbox.old ((round_start machine.old size).message ∷ [])) }
    ensures err { OnErr result ((machine.new ≡ machine.old) × (outbox.new ≡ outbox.old)) }
{
    let q = machine.coefficient();
    outbox.push(&Message::ReqRecon { size, q })?;
    let _sent = machine.begin(size);
    Ok(())
}

/// Starts a round with a plain peer. Where memory runs out, nothing changes.
#[tactic(auto, unfolding(node_rules::specs::Opener::start_if))]
fn start_plain_round(
    machine: &mut Initiator<Lane32>,
    outbox: &mut Outbox,
) -> Result<(), OutOfMemory>
    requires { is_idle machine.old.machine.phase ≡ true }
    ensures machine { OnOk result (machine.new ≡ (plain_start machine.old).initiator) }
    ensures sent { OnOk result (outbox.new ≡ with_messages outbox.old ((plain_start machine.old).message ∷ [])) }
    ensures err { OnErr result ((machine.new ≡ machine.old) × (outbox.new ≡ outbox.old)) }
{
    let number = machine.begun().wrapping_add(1);
    outbox.push(&Message::Ping(number))?;
    let _sent = machine.begin_plain();
    Ok(())
}

impl Conversation {
    /// Begins a round, where the node is an opener between rounds. It tells whether. Where memory runs out, nothing changes.
    pub fn begin_round(&mut self) -> Result<bool, OutOfMemory>
        requires { IsNode self.old.state }
        ensures told { IfOk result (λ begun. begun ≡ (on_start self.old.state).begun) }
        ensures ok { IfOk result (λ _. self.new ≡ after_turn self.old (on_start self.old.state).turn) }
        ensures err { OnErr result (self.new ≡ self.old) }
    {
        let is_plain = self.is_plain();
        let Stage::Opener(machine) = &mut self.stage else {
            return Ok(false);
        };
        let Phase::Idle = machine.phase() else {
            return Ok(false);
        };
        if is_plain {
            start_plain_round(machine, &mut self.outbox)?;
            return Ok(true);
        }
        start_round(machine, self.set.len() as u16, &mut self.outbox)?;
        Ok(true)
    }

    /// The end of a node to which a message comes that doesn't belong in its phase.
    fn misplaced(&self, command: Name) -> Stop
        ensures { result ≡ stop.Ended (end.Misplaced command self.now.state.machine.phase) }
    {
        Stop::Ended(End::Misplaced {
            command,
            phase: self.phase(),
        })
    }

    /// A request for a sketch is answered.
    pub(crate) fn on_reqrecon(&mut self, size: u16, q: u16) -> Result<(), Stop>
        requires node { IsNode self.old.state }
        requires relaying { is_after_handshake self.old.state.machine.phase ≡ true }
        requires message { IsMessage (message.ReqRecon size q) }
        ensures { IsStep (in_relay self.old.state (message.ReqRecon size q)) self.old self.new result }
    {
        let misplaced = self.misplaced(Name::ReqRecon);
        if self.is_plain() {
            return Err(misplaced);
        }
        let Stage::Accepter(machine) = &mut self.stage else {
            return Err(misplaced);
        };
        let sketch = machine.on_reqrecon(size, q, &mut self.set)?;
        self.outbox.push(&sketch)?;
        Ok(())
    }

    /// A sketch is answered.
    pub(crate) fn on_sketch(&mut self, skdata: &[u8]) -> Result<(), Stop>
        requires node { IsNode self.old.state }
        requires relaying { is_after_handshake self.old.state.machine.phase ≡ true }
        requires message { IsMessage (message.Sketch skdata.now) }
        ensures { IsStep (in_relay self.old.state (message.Sketch skdata.now)) self.old self.new result }
    {
        let misplaced = self.misplaced(Name::Sketch);
        if self.is_plain() {
            return Err(misplaced);
        }
        let Stage::Opener(machine) = &mut self.stage else {
            return Err(misplaced);
        };
        let outs = take_sketch(self.alloc, machine, &mut self.set, skdata)?;
        self.outbox.push_all(outs.as_slice())?;
        Ok(())
    }

    /// A request for an extension is answered.
    pub(crate) fn on_reqsketchext(&mut self) -> Result<(), Stop>
        requires node { IsNode self.old.state }
        requires relaying { is_after_handshake self.old.state.machine.phase ≡ true }
        ensures { IsStep (in_relay self.old.state message.ReqSketchExt) self.old self.new result }
    {
        let misplaced = self.misplaced(Name::ReqSketchExt);
        if self.is_plain() {
            return Err(misplaced);
        }
        let Stage::Accepter(machine) = &mut self.stage else {
            return Err(misplaced);
        };
        let sketch = machine.on_reqsketchext()?;
        self.outbox.push(&sketch)?;
        Ok(())
    }

    /// A difference is answered.
    pub(crate) fn on_reconcildiff(&mut self, success: bool, asks: &Shorts) -> Result<(), Stop>
        requires node { IsNode self.old.state }
        requires relaying { is_after_handshake self.old.state.machine.phase ≡ true }
        requires message { IsMessage (message.ReconcilDiff success asks.now) }
        ensures { IsStep (in_relay self.old.state (message.ReconcilDiff success asks.now)) self.old self.new result }
    {
        let misplaced = self.misplaced(Name::ReconcilDiff);
        if self.is_plain() {
            return Err(misplaced);
        }
        let Stage::Accepter(machine) = &mut self.stage else {
            return Err(misplaced);
        };
        let outs = machine.on_reconcildiff(success, asks)?;
        self.outbox.push_all(outs.as_slice())?;
        Ok(())
    }

    /// A ping is answered.
    pub(crate) fn on_ping(&mut self, number: u64) -> Result<(), Stop>
        ensures { IsStep (turn_with self.old.state (message.Pong number ∷ [])) self.old self.new result }
    {
        self.outbox.push(&Message::Pong(number))?;
        Ok(())
    }

    /// The pong of a round asks for what is wanted.
    pub(crate) fn on_pong(&mut self, number: u64) -> Result<(), Stop>
        requires node { IsNode self.old.state }
        requires relaying { is_after_handshake self.old.state.machine.phase ≡ true }
        requires message { IsMessage (message.Pong number) }
        ensures { IsStep (on_pong self.old.state number) self.old self.new result }
    {
        let Stage::Opener(machine) = &mut self.stage else {
            return Ok(());
        };
        if !ends_barrier(machine, number) {
            return Ok(());
        }
        let wanted = self.store.wanted()?;
        let outs = machine.on_pong(number, &wanted)?;
        self.outbox.push_all(outs.as_slice())?;
        self.store.ask_wanted();
        Ok(())
    }
}

/// Whether a pong of this number ends the barrier behind a round.
#[tactic(auto, unfolding(node_rules::specs::Barrier::is_barrier))]
fn ends_barrier(machine: &Initiator<Lane32>, number: u64) -> bool
    ensures { result ≡ is_barrier_end machine.now number }
{
    match machine.phase() {
        Phase::Barrier => number == machine.begun(),
        _ => false,
    }
}
