//! What holds of a node at every moment is kept by each of its steps, part by part, and what it sends may be sent. The proofs
//! are in `proofs/`; each theorem is stated by a function.
#![tactic(auto)]

ghost use Rattle.std.specs.Prelude.{ℕ, ◌≤◌, IsTrue, List, length};
ghost use Rattle.std.specs.List.{AllByRecursion};
ghost use Rattle.id_rules.specs.Bytes.{are_bytes, is_tx};
ghost use Rattle.wire_rules.specs.Limits.{IsMessage};
ghost use Rattle.wire_rules.specs.declared.message.Message.{Message};
ghost use Rattle.pool_rules.specs.Pools.{Transaction, IsPool};
ghost use Rattle.pool_rules.specs.declared.limits.TheConstants.{POOL_LIMIT};
ghost use Rattle.node_rules.specs.Additions.{on_addition};
ghost use Rattle.node_rules.specs.Handshake.{opening_messages};
ghost use Rattle.node_rules.specs.Invariant.{IsConfig, IsStore, IsConversing, IsNode};
ghost use Rattle.node_rules.specs.State.{NodeState, opening_state};
ghost use Rattle.node_rules.specs.Steps.{on_message, on_messages, on_piece, on_start};
ghost use Rattle.node_rules.specs.declared.config.Config.{Config};

/// A node's pool, its wants and what it has served are kept within their limits: by every message that may be sent, every
/// addition of bytes that may be a transaction, and the start of a round, also where the node ends. It does nothing when it
/// runs: its contract is the theorem.
pub fn stores_are_kept()
    ensures opening { (c : Config) (pool : List Transaction) → IsPool pool → IsStore (opening_state c pool) }
    ensures by_message { (s : NodeState) (m : Message) → IsStore s → IsMessage m → IsStore (on_message s m).state }
    ensures by_addition { (s : NodeState) (tx : List ℕ) → IsStore s → IsTrue (is_tx tx) → IsStore (on_addition s tx).turn.state }
    ensures by_round { (s : NodeState) → IsStore s → IsStore (on_start s).turn.state }
{}

/// Each message that a node sends may be sent: what a new one has to send, and what it sends in a step. It does nothing when
/// it runs: its contract is the theorem.
pub fn what_is_sent_may_be_sent()
    ensures opening { (c : Config) → IsConfig c → AllByRecursion IsMessage (opening_messages c) }
    ensures by_message { (s : NodeState) (m : Message) → IsNode s → IsMessage m → AllByRecursion IsMessage (on_message s m).out }
    ensures by_addition { (s : NodeState) (tx : List ℕ) → IsNode s → IsTrue (is_tx tx) → AllByRecursion IsMessage (on_addition s tx).turn.out }
    ensures by_round { (s : NodeState) → IsNode s → AllByRecursion IsMessage (on_start s).turn.out }
{}

/// A node's set and its snapshot have no more members than a pool may have transactions. It does nothing when it runs: its
/// contract is the theorem.
pub fn sets_fit_the_pool()
    ensures set { (s : NodeState) → IsNode s → length s.set ≤ POOL_LIMIT }
    ensures snapshot { (s : NodeState) → IsNode s → length s.machine.round.snapshot ≤ POOL_LIMIT }
{}

/// What a node notes of its peer, its level, its phase and what its role keeps hold behind each of its steps. It does nothing
/// when it runs: its contract is the theorem.
pub fn conversations_are_kept()
    ensures opening { (c : Config) (pool : List Transaction) → IsConversing (opening_state c pool) }
    ensures by_message { (s : NodeState) (m : Message) → IsConversing s → IsMessage m → IsConversing (on_message s m).state }
    ensures by_addition { (s : NodeState) (tx : List ℕ) → IsConversing s → IsTrue (is_tx tx) → IsConversing (on_addition s tx).turn.state }
    ensures by_round { (s : NodeState) → IsConversing s → IsConversing (on_start s).turn.state }
{}

/// All that is to hold of a node holds of a new one. It does nothing when it runs: its contract is the theorem.
pub fn new_nodes_are_nodes()
    ensures { (c : Config) (pool : List Transaction) → IsConfig c → IsPool pool → IsNode (opening_state c pool) }
{}

/// All that is to hold of a node holds behind each of its steps, also where the node ends: by messages that may be sent, by
/// any bytes of its peer, by an addition of bytes that may be a transaction, and by the start of a round. It does nothing when
/// it runs: its contract is the theorem.
pub fn nodes_stay_nodes()
    ensures by_message { (s : NodeState) (m : Message) → IsNode s → IsMessage m → IsNode (on_message s m).state }
    ensures by_messages { (s : NodeState) (ms : List Message) → IsNode s → AllByRecursion IsMessage ms → IsNode (on_messages s ms).state }
    ensures by_piece { (s : NodeState) (piece : List ℕ) → IsNode s → IsTrue (are_bytes piece) → IsNode (on_piece s piece).state }
    ensures by_addition { (s : NodeState) (tx : List ℕ) → IsNode s → IsTrue (is_tx tx) → IsNode (on_addition s tx).turn.state }
    ensures by_round { (s : NodeState) → IsNode s → IsNode (on_start s).turn.state }
{}

/// Each message that a node sends for many messages in a row may be sent, and so may each that it sends for a piece of bytes,
/// whatever these are. It does nothing when it runs: its contract is the theorem.
pub fn answers_to_pieces_may_be_sent()
    ensures by_messages { (s : NodeState) (ms : List Message) → IsNode s → AllByRecursion IsMessage ms → AllByRecursion IsMessage (on_messages s ms).out }
    ensures by_piece { (s : NodeState) (piece : List ℕ) → IsNode s → IsTrue (are_bytes piece) → AllByRecursion IsMessage (on_piece s piece).out }
{}
