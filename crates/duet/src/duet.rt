//! Two nodes, and the wires between them.

ghost use Rattle.std.specs.Prelude.{◌≡◌, ◌↔◌, ℕ, min, [], ◌∷◌, false, true, IsTrue, List};
ghost use Rattle.pool_rules.specs.Pools.{Transaction};
ghost use Rattle.node_rules.specs.declared.config.Config.{Config};
ghost use Rattle.pair_rules.specs.Announcements.{HaveAnnouncedOnly};
ghost use Rattle.pair_rules.specs.Deliveries.{IsDrainedWhereUnended};
ghost use Rattle.pair_rules.specs.Ends.{HasCauseOfEnd};
ghost use Rattle.pair_rules.specs.Gains.{HaveGainedOnly};
ghost use Rattle.pair_rules.specs.Headline.{IsFinishedWhereDrained};
ghost use Rattle.pair_rules.specs.Messages.{AreBounded, all_messages, rounds_of_script};
ghost use Rattle.pair_rules.specs.Reports.{AreAlikeSoFar, AreAlikeWhereDrained};
ghost use Rattle.pair_rules.specs.Rounds.{pair_keys};
ghost use Rattle.pair_rules.specs.World.{IsDrained, IsScript, has_end, is_event, opening_world, run};
ghost use Rattle.pair_rules.specs.declared.event.Event.{Event};
ghost use Rattle.duet.specs.Runs.{IsRun};
ghost use Rattle.duet.specs.Views.{AreNew, AreNewOf, IsReached, IsReachedBy};

use crate::events::{happen, is_out_of_memory};
use crate::stop::DuetStop;
use pair_rules::{Event, Side};
use relay_node::Node;
use std::alloc::Global;
use std::marker::Model;

/// Two nodes in opposite roles, and the wires between them, which lose nothing and keep the order. What a node has to send
/// is on its wire. A contract sees their world.
#[derive(Drop)]
pub struct Duet {
    alloc: Global,
    a: Node,
    b: Node,
    full: u64,
    out_of_memory: bool,
}

impl Model for Duet {
    ghost use Rattle.duet.specs.Views.{IsPairOf, PairView, world_of};

    ghost Value = { PairView };

    ghost view = { λ d. record { world = world_of d.a d.b; full = d.full; out_of_memory = d.out_of_memory } };

    ghost invariant = { λ d. IsPairOf d.out_of_memory d.a d.b d.full };
}

impl Duet {
    /// Two new nodes of one network, the opener and the accepter. What the opener says first is on its way.
    pub fn new(alloc: Global, a: Node, b: Node) -> Duet
        requires { AreNew a b }
        ensures { (c d : Config) (p q : List Transaction) → AreNewOf c d p q a b
            → result ≡ record { world = opening_world c d p q; full = 0; out_of_memory = false } }
    {
        Duet {
            alloc,
            a,
            b,
            full: 0,
            out_of_memory: false,
        }
    }

    /// Lets events happen, in order, up to the one in which a node ends, and answers that end. Where a node had ended before,
    /// nothing changes. Once memory was refused nothing changes any more. A delivery costs in proportion to its bytes.
    pub fn run(&mut self, script: &[Event]) -> Result<(), DuetStop>
        requires { IsScript script.now }
        ensures run { IsRun self.old script.now self.new result }

        // In every case: what a pool gains was added to its node, or is in the other pool.
        ensures gains { HaveGainedOnly self.old.world script.now self.new.world }
        ensures causes { self.new.out_of_memory ≡ false → HasCauseOfEnd self.new.world.a self.new.world.b }
    {
        self.stop()?;
        for event in script {
            self.happen(event)?;
        }
        Ok(())
    }

    /// Why no event happens any more, where none does.
    fn stop(&self) -> Result<(), DuetStop>
        ensures run { IsRun self.now [] self.now result }
        ensures reached { self.now.out_of_memory ≡ false → IsReached self.now.world self.now.full }
    {
        if self.out_of_memory {
            return Err(DuetStop::OutOfMemory);
        }
        match self.a.end() {
            Some(end) => Err(DuetStop::Ended { side: Side::A, end }),
            None => match self.b.end() {
                Some(end) => Err(DuetStop::Ended { side: Side::B, end }),
                None => Ok(()),
            },
        }
    }

    /// An event, where no node has ended and no memory was refused.
    fn happen(&mut self, event: &Event) -> Result<(), DuetStop>
        requires memory { self.old.out_of_memory ≡ false }
        requires unended { has_end self.old.world ≡ false }
        requires event { IsTrue (is_event event.now) }
        ensures { IsRun self.old (event.now ∷ []) self.new result }
    {
        let told = happen(self.alloc, &mut self.a, &mut self.b, &mut self.full, event);
        self.out_of_memory = is_out_of_memory(&told);
        told
    }

    /// Whether nothing is on the way. Where no node has ended, every begun round is then finished on both sides.
    pub fn drained(&self) -> bool
        ensures drained { IsTrue result ↔ IsDrained self.now.world }
        ensures finished { self.now.out_of_memory ≡ false → IsFinishedWhereDrained self.now.world }
        ensures alike { self.now.out_of_memory ≡ false → AreAlikeWhereDrained self.now.world }
    {
        self.a.outbox().is_empty() && self.b.outbox().is_empty()
    }

    /// The opener.
    pub fn a(&self) -> &Node
        ensures state { result.now.state ≡ self.now.world.a }
        ensures outbox { result.now.outbox ≡ self.now.world.ab }
        ensures memory { self.now.out_of_memory ≡ false → result.now.out_of_memory ≡ false }
    {
        &self.a
    }

    /// The accepter.
    pub fn b(&self) -> &Node
        ensures state { result.now.state ≡ self.now.world.b }
        ensures outbox { result.now.outbox ≡ self.now.world.ba }
        ensures memory { self.now.out_of_memory ≡ false → result.now.out_of_memory ≡ false }
    {
        &self.b
    }

    /// How many additions found no room, up to `u64::MAX`, where the count stays.
    pub fn full(&self) -> u64
        ensures full { result ≡ self.now.full }

        // Until memory is refused two new nodes have come to this world, and whatever the script was:
        ensures reached { self.now.out_of_memory ≡ false → IsReached self.now.world self.now.full }
        ensures announced { (c d : Config) (p q : List Transaction) (script : List Event) → IsReachedBy c d p q script self.now.world self.now.full
            → HaveAnnouncedOnly (run (opening_world c d p q) script) }
        ensures bounded { (c d : Config) (p q : List Transaction) (script : List Event) → IsReachedBy c d p q script self.now.world self.now.full
            → AreBounded (min c.top d.top) (all_messages c d (run (opening_world c d p q) script)) (rounds_of_script script (opening_world c d p q)) }
        ensures alike { self.now.out_of_memory ≡ false → AreAlikeSoFar (pair_keys self.now.world) self.now.world.a.machine.reports self.now.world.b.machine.reports }

        // Deliveries of all that waits leave nothing on the way.
        ensures deliveries { self.now.out_of_memory ≡ false → has_end self.now.world ≡ false → IsDrainedWhereUnended self.now.world 16 }
    {
        self.full
    }
}
