//! What the machine does once a sketch was decoded.

ghost use Rattle.std.specs.Prelude.{◌≡◌, ℕ, ◌<◌, ◌==◌, List, [], false, length, IfOk, OnErr, Ok, Some, None, IsOkAnd, IsSome, option_and_then, not, nat_lt, ◌&&◌};
ghost use Rattle.sketch_core.specs.Answered.{decoded_numbers};
ghost use Rattle.sketch_rules.specs.Answers.{answer_of};
ghost use Rattle.pool_rules.specs.Snapshots.{Member};
ghost use Rattle.wire_rules.specs.declared.phase.Phase.TheVariants as phase;
ghost use Rattle.node_rules.specs.Opener.{initiator_question, opener_sketch, remaining_set, extension_request};
ghost use Rattle.node_rules.specs.Outcomes.{after_round};
ghost use Rattle.node_rules.specs.Stages.{answered_ending, requested_extensions};
ghost use Rattle.initiator.specs.Questions.{round_with, sketch_fault};
ghost use Rattle.initiator.specs.declared.stage.Stage.TheVariants as stage;

use crate::Initiator;
use crate::outcome::{Outcome, answered, fallen_back, short_ids};
use crate::stage::{Pending, Stage};
use base_types::OutOfMemory;
use field_core::Field;
use pool_rules::Ending;
use recon_set::ReconSet;
use sketch_core::Decoded;
use std::mem;
use wire_rules::{Message, Outs};

/// The ending of a round that is answered with so many extensions.
#[tactic(auto, unfolding(node_rules::specs::Stages::answered_ending))]
fn ending_after(extensions: u32) -> Ending
    ensures { result ≡ answered_ending extensions }
{
    match extensions {
        0 => Ending::First,
        1 => Ending::Extension,
        _ => Ending::Extension2,
    }
}

/// Empties the set, where the first sketch of a round was waited for.
fn empty_at_first<F: Field>(at: &Stage<F>, set: &mut ReconSet<F>)
    ensures first { at.now ≡ stage.Waiting → set.new ≡ [] }
    ensures later { (at.now ≡ stage.Waiting → ⊥) → set.new ≡ set.old }
{
    if let Stage::Waiting = at {
        let _taken = set.take_snapshot();
    }
}

impl<F: Field> Initiator<F> {
    /// Takes the bytes of a sketch, with what `merged` gives for them decoded: the round is answered or falls back, or an
    /// extension is asked for. The first sketch of a round takes the set. Where memory runs out, all is as it was.
    pub fn on_answer(
        &mut self,
        skdata: &[u8],
        set: &mut ReconSet<F>,
        answer: Decoded<F>,
    ) -> Result<Outs, OutOfMemory>
        requires { IsOkAnd (initiator_question self.old.machine set.old skdata.now)
            (λ asked. decoded_numbers F.bits_of answer ≡ option_and_then answer_of asked) }
        ensures ok { IfOk result (λ outs. opener_sketch self.old set.old skdata.now
            ≡ Ok (record { initiator = self.new; set = set.new; out = outs })) }
        ensures err { OnErr result ((self.new ≡ self.old) × (set.new ≡ set.old)) }
    {
        let capacity = self.first_capacity(skdata);
        let extensions = self.extensions();
        match answer {
            Decoded::Found(found) => {
                let shorts = short_ids(self.alloc, found.as_slice())?;
                let ending = ending_after(extensions);
                let snapshot = self.snapshot(set);
                let outcome = answered(self.alloc, snapshot, capacity, ending, shorts, self.begun)?;
                self.finish(outcome, set)
            }
            Decoded::NoSet => {
                if self.has_extension_left(capacity, extensions) {
                    return self.extend(skdata, capacity, set);
                }
                let snapshot = self.snapshot(set);
                let q = self.coefficient;
                let outcome = fallen_back(self.alloc, snapshot, capacity, q, self.begun)?;
                self.finish(outcome, set)
            }
        }
    }

    /// Whether a sketch with so many extensions may be extended, where the first one has this capacity.
    fn has_extension_left(&self, capacity: u32, extensions: u32) -> bool
        ensures { result ≡ (not (capacity == 0) && nat_lt extensions self.now.machine.level) }
    {
        capacity != 0 && extensions < self.level
    }

    /// How many extensions of the sketch that is waited for were asked for.
    fn extensions(&self) -> u32
        ensures { (n : ℕ) → requested_extensions self.now.machine.phase ≡ Some n → result ≡ n }
    {
        match &self.stage {
            Stage::Extending(round) => round.extensions,
            _ => 0,
        }
    }

    /// Keeps the peer's sums, and asks for an extension.
    fn extend(
        &mut self,
        skdata: &[u8],
        capacity: u32,
        set: &mut ReconSet<F>,
    ) -> Result<Outs, OutOfMemory>
        requires awaited { sketch_fault self.old.machine (length skdata.now) ≡ None }
        requires capacity { capacity ≡ (round_with self.old.machine set.old skdata.now).capacity }
        requires some { 0 < capacity }
        requires left { (n : ℕ) → requested_extensions self.old.machine.phase ≡ Some n → n < self.old.machine.level }
        ensures ok { IfOk result (λ outs. (n : ℕ) → requested_extensions self.old.machine.phase ≡ Some n
            → extension_request self.old (round_with self.old.machine set.old skdata.now) n (remaining_set n set.old)
            ≡ record { initiator = self.new; set = set.new; out = outs }) }
        ensures err { OnErr result ((self.new ≡ self.old) × (set.new ≡ set.old)) }
    {
        let sketch = self.peer_sketch(skdata)?;
        let mut messages = Vec::new(self.alloc);
        messages.push(Message::ReqSketchExt)?;
        let (snapshot, extensions) = match mem::replace(&mut self.stage, Stage::Waiting) {
            Stage::Extending(round) => (round.snapshot, round.extensions + 1),
            _ => (set.take_snapshot(), 1),
        };
        self.stage = Stage::Extending(Pending {
            snapshot,
            capacity,
            sketch,
            extensions,
        });
        Ok(Outs::from_vec(messages))
    }

    /// Ends the round.
    fn finish(&mut self, outcome: Outcome, set: &mut ReconSet<F>) -> Result<Outs, OutOfMemory>
        requires { IsSome (requested_extensions self.old.machine.phase) }
        ensures outs { IfOk result (λ outs. outs ≡ outcome.messages) }
        ensures machine { IfOk result (λ _. self.new ≡ record {
          machine = after_round self.old.machine phase.Barrier outcome.report;
          requests = record self.old.requests { coefficient = outcome.coefficient };
        }) }
        ensures set { IfOk result (λ _. (n : ℕ) → requested_extensions self.old.machine.phase ≡ Some n
            → set.new ≡ remaining_set n set.old) }
        ensures err { OnErr result ((self.new ≡ self.old) × (set.new ≡ set.old)) }
    {
        let Outcome {
            report,
            coefficient,
            messages,
        } = outcome;
        self.reports.push(report)?;
        empty_at_first(&self.stage, set);
        self.stage = Stage::Barrier;
        self.coefficient = coefficient;
        Ok(messages)
    }
}
