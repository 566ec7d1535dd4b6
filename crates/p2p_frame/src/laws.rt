//! Laws of feeders.

ghost use Rattle.std.specs.Prelude.{◌≡◌, ℕ, None, List};
ghost use Rattle.std.specs.List.{concat};
ghost use Rattle.wire_rules.specs.declared.frame.Frame.{Frame};
ghost use Rattle.stream_laws.specs.FrameReading.{frames_of, frames_of_pieces};
ghost use Rattle.p2p_frame.specs.Fed.{IsFed, IsFeeder, IsReadTo};
ghost use Rattle.p2p_frame.specs.Feeding.{Feed, IsWhole, feed_front, stop_in};

/// A feeder that was given bytes in pieces, and answers no further frame, has answered what is read from the bytes at
/// once, up to the same rest or the same fault. So two cuts of the same bytes end alike. It does nothing when it runs:
/// its contract is the theorem.
pub fn pieces_are_fed_as_one()
    ensures read { (s : Feed) (bytes : List ℕ) (frames : List Frame) → IsFeeder s → IsFed s bytes frames → (IsWhole (feed_front s) → ⊥)
        → IsReadTo s frames (frames_of s.magic 0 bytes) }
    ensures pieces { (s : Feed) (pieces : List (List ℕ)) (frames : List Frame) → IsFeeder s → IsFed s (concat pieces) frames → (IsWhole (feed_front s) → ⊥)
        → IsReadTo s frames (frames_of_pieces s.magic 0 pieces) }
    ensures cuts { (s t : Feed) (ps qs : List (List ℕ)) (fs gs : List Frame) → s.magic ≡ t.magic → concat ps ≡ concat qs → IsFeeder s → IsFeeder t
        → IsFed s (concat ps) fs → IsFed t (concat qs) gs → (IsWhole (feed_front s) → ⊥) → (IsWhole (feed_front t) → ⊥)
        → (fs ≡ gs) × (s.place ≡ t.place) × (stop_in (feed_front s) ≡ stop_in (feed_front t)) × (stop_in (feed_front s) ≡ None → s.unread ≡ t.unread) }
{}
