//! Laws of the steps of a node, in `proofs/`, each stated by a function.
#![tactic(auto)]

ghost use Rattle.std.specs.Prelude.{◌≡◌, ◌||◌, ℕ, ◌+◌, ◌^◌, ◌<◌, ◌≤◌, Bool, true, false, Some, None, Ok, Err, option_and_then, List, [], ◌++◌, length};
ghost use Rattle.base_types.specs.declared.lists.Hash32.{Hash32};
ghost use Rattle.wire_rules.specs.Layout.{wire_bytes};
ghost use Rattle.wire_rules.specs.Stream.{Stream, StreamFault, Stop, IsUnfinished, front_of, later_offset};
ghost use Rattle.wire_rules.specs.declared.limits.TheConstants.{HEADER_LEN, PAYLOAD_LIMIT};
ghost use Rattle.wire_rules.specs.declared.message.Message.{Message};
ghost use Rattle.node_rules.specs.Additions.{on_addition};
ghost use Rattle.std.specs.declared.option.Option.{Option};
ghost use Rattle.sketch_rules.specs.Answers.{answer_of};
ghost use Rattle.pool_rules.specs.Snapshots.{Member};
ghost use Rattle.node_rules.specs.Opener.{after_sketch, initiator_question, opener_sketch};
ghost use Rattle.node_rules.specs.Stages.{requested_extensions};
ghost use Rattle.pool_rules.specs.Pools.{Transaction, is_same_id, without_id};
ghost use Rattle.node_rules.specs.Inventory.{new_ids};
ghost use Rattle.node_rules.specs.Memory.{IsOutOfMemoryIn, view_behind_piece, view_behind_addition, view_behind_start};
ghost use Rattle.node_rules.specs.State.{Inbox, Initiator, NodeState, NodeView};
ghost use Rattle.node_rules.specs.Steps.{on_message, on_messages, at_front, on_frames, on_unread, turn_sequence, on_piece, on_start, with_inbox};
ghost use Rattle.node_rules.specs.Turns.{unchanged, refusal};
ghost use Rattle.node_rules.specs.declared.added.Added.{Added};
ghost use Rattle.node_rules.specs.declared.added.Added.TheVariants as added;
ghost use Rattle.node_rules.specs.declared.end.End.{End};
ghost use Rattle.node_laws.specs.Inboxes.{turn_with_inbox};
ghost use Rattle.node_laws.specs.Later.{IsLater};
ghost use Rattle.node_laws.specs.Streams.{IsTakenAs, takes_to_fault};

/// Nothing leaves a node's pool or its reports, nothing in them changes its index, and the configuration stays: by a
/// message, by many, by a piece of bytes, an addition, or the start of a round. It does nothing when it runs: its contract
/// is the theorem.
pub fn nodes_only_grow()
    ensures by_message { (s : NodeState) (m : Message) → IsLater s (on_message s m).state }
    ensures by_messages { (s : NodeState) (ms : List Message) → IsLater s (on_messages s ms).state }
    ensures by_piece { (s : NodeState) (piece : List ℕ) → IsLater s (on_piece s piece).state }
    ensures by_addition { (s : NodeState) (tx : List ℕ) → IsLater s (on_addition s tx).turn.state }
    ensures by_round { (s : NodeState) → IsLater s (on_start s).turn.state }
{}

/// What has been received of the messages behind one has no part in its step, and a step in which a node ends changes
/// nothing but that, and sends nothing. It does nothing when it runs: its contract is the theorem.
pub fn messages_are_taken_whole()
    ensures inbox { (s : NodeState) (i : Inbox) (m : Message) → on_message (with_inbox s i) m ≡ turn_with_inbox (on_message s m) i }
    ensures refusal { (s : NodeState) (m : Message) (e : End) → s.ended ≡ None → (on_message s m).state.ended ≡ Some e → on_message s m ≡ refusal s e }
{}

/// A node that has ended takes no step: pieces and additions leave it as it is, and no round begins. It does nothing
/// when it runs: its contract is the theorem.
pub fn ended_nodes_stay()
    ensures by_piece { (s : NodeState) (e : End) (piece : List ℕ) → s.ended ≡ Some e → on_piece s piece ≡ unchanged s }
    ensures by_addition { (s : NodeState) (e : End) (tx : List ℕ) → s.ended ≡ Some e → on_addition s tx ≡ record { added = added.Ended; turn = unchanged s } }
    ensures by_round { (s : NodeState) (e : End) → s.ended ≡ Some e → on_start s ≡ record { begun = false; turn = unchanged s } }
{}

/// What stands whole in the unread bytes is handled frame by frame (`next`), and it doesn't matter how many frames may be
/// handled where they are enough. A piece that comes in two parts is handled alike. What a node that hasn't ended leaves
/// unread is unfinished, and so shorter than the longest frame; one that ends leaves nothing. It does nothing when it
/// runs: its contract is the theorem.
pub fn pieces_are_handled_alike()
    ensures next { (s : NodeState) → on_unread s ≡ at_front (front_of s.config.magic s.inbox.offset s.inbox.unread) s on_unread }
    ensures enough { (n : ℕ) (s : NodeState) → length s.inbox.unread ≤ n → on_frames n s ≡ on_unread s }
    ensures in_parts { (s : NodeState) (p q : List ℕ) → on_piece s (p ++ q) ≡ turn_sequence (on_piece s p) (on_piece (on_piece s p).state q) }
    ensures unfinished { (s : NodeState) (piece : List ℕ) → s.ended ≡ None → (on_piece s piece).state.ended ≡ None → IsUnfinished s.config.magic (on_piece s piece).state.inbox.unread }
    ensures short { (s : NodeState) (piece : List ℕ) → s.ended ≡ None → (on_piece s piece).state.ended ≡ None
        → length (on_piece s piece).state.inbox.unread < HEADER_LEN + PAYLOAD_LIMIT }
    ensures dropped { (s : NodeState) (piece : List ℕ) (e : End) → s.ended ≡ None → (on_piece s piece).state.ended ≡ Some e → (on_piece s piece).state.inbox.unread ≡ [] }
{}

/// A node takes the messages that its unread bytes and a piece are the stream of, in order, up to its end, and keeps the
/// rest; where a fault stands behind them it ends with that fault. It does nothing when it runs: its contract is the
/// theorem.
pub fn streams_are_taken()
    ensures messages { (s : NodeState) (piece : List ℕ) (ms : List Message) (rest : List ℕ) → length s.config.magic ≡ 4 → s.inbox.offset < 2 ^ 64 → s.ended ≡ None
        → Stream s.config.magic (s.inbox.unread ++ piece) ms rest → IsTakenAs (on_messages s ms) (on_piece s piece) }
    ensures rest { (s : NodeState) (piece : List ℕ) (ms : List Message) (rest : List ℕ) → length s.config.magic ≡ 4 → s.inbox.offset < 2 ^ 64 → s.ended ≡ None
        → Stream s.config.magic (s.inbox.unread ++ piece) ms rest → (on_messages s ms).state.ended ≡ None
        → (on_piece s piece).state.inbox ≡ record { unread = rest; offset = later_offset s.inbox.offset (length (wire_bytes s.config.magic ms)) } }
    ensures fault { (s : NodeState) (piece : List ℕ) (ms : List Message) (f : StreamFault) → length s.config.magic ≡ 4 → s.inbox.offset < 2 ^ 64 → s.ended ≡ None
        → Stop s.config.magic s.inbox.offset (s.inbox.unread ++ piece) ms f → IsTakenAs (takes_to_fault s ms f) (on_piece s piece) }
{}

/// Where one id more is known, those of an announcement that are new are the others: so they may be found from the left,
/// each being known to those behind it. It does nothing when it runs: its contract is the theorem.
pub fn new_ids_are_found_from_the_left()
    ensures { (known : Hash32 → Bool) (id : Hash32) (ids : List Hash32) → new_ids (λ other. known other || is_same_id other id) ids ≡ without_id (new_ids known ids) id }
{}

/// Nothing leaves the pool of a node whose memory is refused in a piece, and nothing happens to it any more. It does
/// nothing when it runs: its contract is the theorem.
pub fn nodes_out_of_memory_stay()
    ensures pool { (old new : NodeView) (piece : List ℕ) → IsOutOfMemoryIn old piece new → (more : List Transaction) × (new.state.pool ≡ old.state.pool ++ more) }
    ensures by_piece { (v : NodeView) (piece : List ℕ) → v.out_of_memory ≡ true → view_behind_piece v piece ≡ v }
    ensures by_addition { (v : NodeView) (tx : List ℕ) → v.out_of_memory ≡ true → view_behind_addition v tx ≡ v }
    ensures by_round { (v : NodeView) → v.out_of_memory ≡ true → view_behind_start v ≡ v }
{}

/// A sketch message at an opener leads to a question, which is a sketch or none, and then to what the answer to it makes of
/// the round: so the message may be handled in two steps, with the search for the answer between them. It does nothing
/// when it runs: its contract is the theorem.
pub fn sketches_are_questions()
    ensures refused { (i : Initiator) (set : List Member) (bytes : List ℕ) (e : End) → initiator_question i.machine set bytes ≡ Err e → opener_sketch i set bytes ≡ Err e }
    ensures answered { (i : Initiator) (set : List Member) (bytes : List ℕ) (n : ℕ) (q : Option (List ℕ)) → requested_extensions i.machine.phase ≡ Some n
        → initiator_question i.machine set bytes ≡ Ok q → opener_sketch i set bytes ≡ Ok (after_sketch (option_and_then answer_of q) i set n bytes) }
{}
