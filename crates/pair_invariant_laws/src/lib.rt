//! What holds of two nodes until one of them ends is kept by each of their steps, in `proofs/`, part by part: the handshake, the
//! round that is under way, what each side wants of the other, what is announced, and what the reports have in common. Bytes
//! are read as messages once, for all of them. Each theorem is stated by a function.
#![tactic(auto)]

ghost use Rattle.std.specs.Prelude.{◌≡◌, ℕ, false, IsTrue, None, List, [], ◌++◌, length};
ghost use Rattle.std.specs.List.{AllByRecursion};
ghost use Rattle.wire_rules.specs.Limits.{IsMessage};
ghost use Rattle.wire_rules.specs.declared.message.Message.{Message};
ghost use Rattle.pool_rules.specs.Pools.{Transaction};
ghost use Rattle.node_rules.specs.Invariant.{IsNode};
ghost use Rattle.node_rules.specs.State.{NodeState};
ghost use Rattle.node_rules.specs.Steps.{on_piece};
ghost use Rattle.node_rules.specs.declared.config.Config.{Config};
ghost use Rattle.pair_rules.specs.World.{World, ArePair, IsScript, is_event, effect_of, opening_world, run, has_end};
ghost use Rattle.pair_rules.specs.declared.event.Event.{Event};
ghost use Rattle.pair_invariant_rules.specs.Invariant.{IsPair};
ghost use Rattle.pair_invariant_rules.specs.Pairs.{AreOnTheWay, HasPair, HasTaken, without_inbox};

/// Where what a node has received and what is on its wire are the frames of messages, it takes, of each piece that comes
/// off the wire, the messages that become whole with it, in their order, and the others stay on the way. It does nothing
/// when it runs: its contract is the theorem.
pub fn pieces_are_messages()
    ensures { (s : NodeState) (piece wire : List ℕ) (ms : List Message) → length s.config.magic ≡ 4 → s.ended ≡ None → AllByRecursion IsMessage ms
        → AreOnTheWay s.config.magic s.inbox (piece ++ wire) ms → HasTaken s wire ms (on_piece s piece) }
{}

/// Two new nodes of one network in opposite roles have the invariant of a pair; it is kept by each event of a world in
/// which no node has ended or ends, so each world that they come to without an end has it. It does nothing when it runs:
/// its contract is the theorem.
pub fn pairs_stay_pairs()
    ensures opening { (c d : Config) (p q : List Transaction) → ArePair c d p q → HasPair IsPair (opening_world c d p q) [] [] }
    ensures by_event { (w : World) (by_a by_b : List Message) (e : Event) → IsTrue (is_event e) → HasPair IsPair w by_a by_b → has_end w ≡ false → has_end (effect_of w e).world ≡ false
        → HasPair IsPair (effect_of w e).world (by_a ++ (effect_of w e).by_a) (by_b ++ (effect_of w e).by_b) }
    ensures by_run { (c d : Config) (p q : List Transaction) (script : List Event) → ArePair c d p q → IsScript script → has_end (run (opening_world c d p q) script).world ≡ false
        → HasPair IsPair (run (opening_world c d p q) script).world (run (opening_world c d p q) script).by_a (run (opening_world c d p q) script).by_b }
{}

/// Both nodes of each run of two new nodes are nodes still, also where one of them has ended: their pools, wants, sets, rounds
/// and reports are within their limits. What was received of a message has no part in it. It does nothing when it runs: its
/// contract is the theorem.
pub fn nodes_of_pairs_are_nodes()
    ensures { (c d : Config) (p q : List Transaction) (script : List Event) → ArePair c d p q → IsScript script
        → IsNode (without_inbox (run (opening_world c d p q) script).world.a) × IsNode (without_inbox (run (opening_world c d p q) script).world.b) }
{}
