//! The machine.

ghost use Rattle.std.specs.Prelude.{◌≡◌, ℕ, ◌≤◌, [], IfOk, OnErr};
ghost use Rattle.node_rules.specs.Barrier.{initiator_pong, without_fetching};
ghost use Rattle.node_rules.specs.Opener.{initiator_start, initiator_plain_start};
ghost use Rattle.node_rules.specs.State.{Initiator as Opener, no_round};
ghost use Rattle.initiator.specs.Turns.{IsStart};
ghost use Rattle.wire_rules.specs.declared.phase.Phase.TheVariants as phase;

use crate::stage::Stage;
use base_types::{Hashes, OutOfMemory};
use field_core::Field;
use inventories::request_of;
use pool_rules::Report;
use std::alloc::Global;
use std::marker::Model;
use wire_rules::{Message, Outs, Phase};

/// The opener's machine of rounds: what it keeps of the round that is under way, and what is told of those that are over.
/// A contract sees it as the machine of the definitions.
#[derive(Drop)]
pub struct Initiator<F: Field> {
    pub(crate) alloc: Global,
    pub(crate) level: u32,
    pub(crate) stage: Stage<F>,
    pub(crate) reports: Vec<Report>,
    pub(crate) coefficient: u16,
    pub(crate) begun: u64,
}

impl<F: Field> Model for Initiator<F> {
    ghost use Rattle.std.specs.Prelude.{◌≡◌, ◌≤◌};
    ghost use Rattle.node_rules.specs.State.{Initiator as Opener};

    ghost Value = { Opener };

    ghost use Rattle.initiator.specs.Stages.{phase_of, round_of, IsStage};

    ghost view = { λ i. record {
      machine = record { phase = phase_of i.stage; level = i.level; round = round_of F.bits_of i.stage; reports = i.reports.items };
      requests = record { coefficient = i.coefficient; begun = i.begun };
    } };

    ghost invariant = { λ i. (F.BITS ≡ 32) × (i.level ≤ 2) × IsStage i.stage };
}

impl<F: Field> Initiator<F> {
    /// A machine before its first round, whose coefficient is `q`. The level of the connection is how many extensions of
    /// a sketch may be asked for. It takes no memory.
    pub fn new(alloc: Global, q: u16, level: u32) -> Initiator<F>
        requires width { F.BITS ≡ 32 }
        requires level { (1 ≤ level) × (level ≤ 2) }
        ensures { result ≡ record {
          machine = record { phase = phase.Idle; level = level; round = no_round; reports = [] };
          requests = record { coefficient = q; begun = 0 };
        } }
    {
        Initiator {
            alloc,
            level,
            stage: Stage::Idle,
            reports: Vec::new(alloc),
            coefficient: q,
            begun: 0,
        }
    }

    /// Where it stands.
    #[tactic(auto, unfolding(node_rules::specs::Stages::waiting_phase))]
    pub fn phase(&self) -> Phase
        ensures { result ≡ self.now.machine.phase }
    {
        match &self.stage {
            Stage::Idle => Phase::Idle,
            Stage::Waiting => Phase::Waiting,
            Stage::Extending(round) => {
                if round.extensions == 1 {
                    Phase::WaitingExt
                } else {
                    Phase::WaitingExt2
                }
            }
            Stage::Barrier => Phase::Barrier,
            Stage::Fetching => Phase::Fetching,
        }
    }

    /// The coefficient of the next round.
    pub fn coefficient(&self) -> u16
        ensures { result ≡ self.now.requests.coefficient }
    {
        self.coefficient
    }

    /// How many rounds were begun, modulo 2^64.
    pub fn begun(&self) -> u64
        ensures { result ≡ self.now.requests.begun }
    {
        self.begun
    }

    /// Starts a round over a set of this size. It takes no memory.
    #[tactic(auto, unfolding(node_rules::specs::Opener::start_if, node_rules::specs::Stages::is_idle, node_rules::specs::Stages::waiting_phase))]
    pub fn begin(&mut self, size: u16) -> Option<Message>
        ensures { IsStart (initiator_start self.old size) self.old self.new result }
    {
        let Stage::Idle = self.stage else {
            return None;
        };
        self.stage = Stage::Waiting;
        self.begun = self.begun.wrapping_add(1);
        Some(Message::ReqRecon {
            size,
            q: self.coefficient,
        })
    }

    /// Starts a round with a plain peer, which is its ping alone. It takes no memory.
    #[tactic(auto, unfolding(node_rules::specs::Opener::start_if, node_rules::specs::Stages::is_idle, node_rules::specs::Stages::waiting_phase))]
    pub fn begin_plain(&mut self) -> Option<Message>
        ensures { IsStart (initiator_plain_start self.old) self.old self.new result }
    {
        let Stage::Idle = self.stage else {
            return None;
        };
        self.stage = Stage::Barrier;
        self.begun = self.begun.wrapping_add(1);
        Some(Message::Ping(self.begun))
    }

    /// The peer's pong of this number has come, and these ids are wanted. That of the round asks for them.
    #[tactic(auto, unfolding(node_rules::specs::Barrier::is_barrier, node_rules::specs::Barrier::phase_after_barrier, node_rules::specs::Barrier::pong_response, node_rules::specs::Stages::waiting_phase))]
    pub fn on_pong(&mut self, number: u64, wanted: &Hashes) -> Result<Outs, OutOfMemory>
        ensures ok { IfOk result (λ outs. initiator_pong self.old number wanted.now
            ≡ record { machine = self.new.machine; out = outs }) }
        ensures requests { self.new.requests ≡ self.old.requests }
        ensures err { OnErr result (self.new ≡ self.old) }
    {
        let ends = match self.stage {
            Stage::Barrier => number == self.begun,
            _ => false,
        };
        if !ends {
            return Ok(Outs::from_vec(Vec::new(self.alloc)));
        }
        let messages = request_of(self.alloc, wanted.as_slice())?;
        self.stage = if wanted.as_slice().is_empty() {
            Stage::Idle
        } else {
            Stage::Fetching
        };
        Ok(Outs::from_vec(messages))
    }

    /// The last of the ids that were asked for has come, or can't.
    #[tactic(auto, unfolding(node_rules::specs::Barrier::phase_after_fetch, node_rules::specs::Stages::waiting_phase))]
    pub fn on_last_want(&mut self)
        ensures { self.new ≡ record self.old { machine = without_fetching self.old.machine } }
    {
        if let Stage::Fetching = self.stage {
            self.stage = Stage::Idle;
        }
    }

    /// What is told of the rounds that are over, the first one first.
    pub fn reports(&self) -> &[Report]
        ensures { result.now ≡ self.now.machine.reports }
    {
        self.reports.as_slice()
    }
}
