//! Laws of streams, in `proofs/`, each stated by a function. A reader of bytes that come in pieces finds what one front
//! says in `fronts_are_frames`, what all of them say in `bytes_have_one_reading`, and what pieces say together in
//! `pieces_are_read_as_one`.
#![tactic(auto)]

ghost use Rattle.std.specs.Prelude.{◌≡◌, ◌⊎◌, ℕ, ◌+◌, ◌-◌, ◌^◌, ◌<◌, ◌≤◌, IsTrue, Some, None, Ok, Err, List, ◌∷◌, ◌++◌, length, take, drop, map};
ghost use Rattle.std.specs.List.{concat};
ghost use Rattle.id_rules.specs.Bytes.{are_bytes};
ghost use Rattle.wire_rules.specs.Layout.{frame_bytes};
ghost use Rattle.wire_rules.specs.Limits.{IsFrame};
ghost use Rattle.wire_rules.specs.Reading.{message_of};
ghost use Rattle.wire_rules.specs.Stream.{Frames, FrameStop, StreamFrameFault, StreamPayloadFault, PartialFrame, Stop, Stream, StreamFault, IsUnfinished, WholeFrame, front_of, later_offset, stream_of};
ghost use Rattle.wire_rules.specs.declared.faults.PayloadFault.{PayloadFault};
ghost use Rattle.wire_rules.specs.declared.frame.Frame.{Frame};
ghost use Rattle.wire_rules.specs.declared.frame.FrameFault.{FrameFault};
ghost use Rattle.wire_rules.specs.declared.message.Message.{Message};
ghost use Rattle.stream_laws.specs.FrameReading.{IsFirstFrame, frames_up_to, frames_by, frames_of, frames_of_pieces, frames_with_more};
ghost use Rattle.stream_laws.specs.StreamReading.{IsReadAs, IsStoppedAs};

/// What bytes begin with. A frame in front is found whole, whatever follows it, and a proper front of a frame is
/// unfinished; what is found whole is a frame whose bytes stand first; and what is no longer unfinished stays the same,
/// whatever follows. Being unfinished depends on no offset, and offsets add up. It does nothing when it runs: its contract
/// is the theorem.
pub fn fronts_are_frames()
    ensures whole { (magic : List ℕ) (offset : ℕ) (f : Frame) (more : List ℕ) → length magic ≡ 4 → IsFrame f
        → front_of magic offset (frame_bytes magic f ++ more) ≡ WholeFrame f (24 + length f.payload) }
    ensures cut { (magic : List ℕ) (f : Frame) (n : ℕ) → length magic ≡ 4 → IsFrame f → n < length (frame_bytes magic f)
        → IsUnfinished magic (take n (frame_bytes magic f)) }
    ensures first { (magic : List ℕ) (offset : ℕ) (bytes : List ℕ) (f : Frame) (n : ℕ) → IsTrue (are_bytes bytes)
        → front_of magic offset bytes ≡ WholeFrame f n → IsFirstFrame magic bytes f n }
    ensures size { (magic : List ℕ) (offset : ℕ) (bytes : List ℕ) (f : Frame) (n : ℕ) → front_of magic offset bytes ≡ WholeFrame f n
        → (24 ≤ n) × (n ≤ length bytes) }
    ensures stays { (magic : List ℕ) (offset : ℕ) (bytes more : List ℕ) → (front_of magic offset bytes ≡ PartialFrame → ⊥)
        → front_of magic offset (bytes ++ more) ≡ front_of magic offset bytes }
    ensures partial { (magic : List ℕ) (offset other : ℕ) (bytes : List ℕ) → front_of magic offset bytes ≡ PartialFrame → front_of magic other bytes ≡ PartialFrame }
    ensures offsets { (offset n k : ℕ) → later_offset (later_offset offset n) k ≡ later_offset offset (n + k) }
{}

/// Of frames before an unfinished rest and frames before a fault exactly one applies to bytes, with one value: what
/// `frames_of` reads from their front, which goes on frame by frame (`next`). It does nothing when it runs: its contract
/// is the theorem.
pub fn bytes_have_one_reading()
    ensures next { (magic : List ℕ) (offset : ℕ) (bytes : List ℕ) → frames_of magic offset bytes ≡ frames_by (front_of magic offset bytes) offset bytes (frames_of magic) }
    ensures frames { (magic : List ℕ) (offset : ℕ) (bytes : List ℕ) (fs : List Frame) (rest : List ℕ) → length magic ≡ 4 → offset < 2 ^ 64
        → Frames magic bytes fs rest → frames_of magic offset bytes ≡ frames_up_to fs offset bytes rest None }
    ensures stop { (magic : List ℕ) (offset : ℕ) (bytes : List ℕ) (fs : List Frame) (fault : FrameFault) → length magic ≡ 4 → offset < 2 ^ 64
        → (s : FrameStop magic offset bytes fs fault) → frames_of magic offset bytes ≡ frames_up_to fs offset bytes s.rest (Some fault) }
    ensures is_frames { (magic : List ℕ) (offset : ℕ) (bytes : List ℕ) → offset < 2 ^ 64 → IsTrue (are_bytes bytes) → (frames_of magic offset bytes).stop ≡ None
        → Frames magic bytes (frames_of magic offset bytes).frames (frames_of magic offset bytes).unread }
    ensures is_stop { (magic : List ℕ) (offset : ℕ) (bytes : List ℕ) (fault : FrameFault) → offset < 2 ^ 64 → IsTrue (are_bytes bytes)
        → (frames_of magic offset bytes).stop ≡ Some fault → FrameStop magic offset bytes (frames_of magic offset bytes).frames fault }
    ensures either { (magic : List ℕ) (offset : ℕ) (bytes : List ℕ) → offset < 2 ^ 64 → IsTrue (are_bytes bytes)
        → ((fs : List Frame) × (rest : List ℕ) × Frames magic bytes fs rest) ⊎ ((fs : List Frame) × (fault : FrameFault) × FrameStop magic offset bytes fs fault) }
    ensures not_both { (magic : List ℕ) (offset : ℕ) (bytes : List ℕ) (fs gs : List Frame) (rest : List ℕ) (fault : FrameFault) → length magic ≡ 4
        → Frames magic bytes fs rest → FrameStop magic offset bytes gs fault → ⊥ }
    ensures one { (magic bytes : List ℕ) (fs gs : List Frame) (rest left : List ℕ) → length magic ≡ 4 → Frames magic bytes fs rest → Frames magic bytes gs left
        → (fs ≡ gs) × (rest ≡ left) }
    ensures one_stop { (magic : List ℕ) (offset : ℕ) (bytes : List ℕ) (fs gs : List Frame) (fault other : FrameFault) → length magic ≡ 4
        → FrameStop magic offset bytes fs fault → FrameStop magic offset bytes gs other → (fs ≡ gs) × (fault ≡ other) }
{}

/// What is said of a part, and then of its rest with what follows, is said of the whole. So pieces that come one after
/// another are read as their bytes in a row, however these are cut. It does nothing when it runs: its contract is the
/// theorem.
pub fn pieces_are_read_as_one()
    ensures frames { (magic p q : List ℕ) (fs gs : List Frame) (rest left : List ℕ) → Frames magic p fs rest → Frames magic (rest ++ q) gs left
        → Frames magic (p ++ q) (fs ++ gs) left }
    ensures stop { (magic : List ℕ) (offset : ℕ) (p q : List ℕ) (fs gs : List Frame) (rest : List ℕ) (fault : FrameFault) → Frames magic p fs rest
        → FrameStop magic (later_offset offset (length p - length rest)) (rest ++ q) gs fault → FrameStop magic offset (p ++ q) (fs ++ gs) fault }
    ensures stopped { (magic : List ℕ) (offset : ℕ) (p q : List ℕ) (fs : List Frame) (fault : FrameFault) → FrameStop magic offset p fs fault → FrameStop magic offset (p ++ q) fs fault }
    ensures more { (magic : List ℕ) (offset : ℕ) (bytes piece : List ℕ) → frames_with_more magic (frames_of magic offset bytes) piece ≡ frames_of magic offset (bytes ++ piece) }
    ensures pieces { (magic : List ℕ) (offset : ℕ) (pieces : List (List ℕ)) → frames_of_pieces magic offset pieces ≡ frames_of magic offset (concat pieces) }
    ensures cuts { (magic : List ℕ) (offset : ℕ) (ps qs : List (List ℕ)) → concat ps ≡ concat qs → frames_of_pieces magic offset ps ≡ frames_of_pieces magic offset qs }
{}

/// Of messages before an unfinished rest and messages before a fault exactly one applies to bytes, with one value: what is
/// read from their front. It does nothing when it runs: its contract is the theorem.
pub fn streams_have_one_reading()
    ensures read { (magic bytes : List ℕ) (ms : List Message) (rest : List ℕ) → length magic ≡ 4 → Stream magic bytes ms rest → IsReadAs ms rest (stream_of magic bytes) }
    ensures stop { (magic bytes : List ℕ) (ms : List Message) (fault : StreamFault) → length magic ≡ 4 → Stop magic 0 bytes ms fault → IsStoppedAs ms fault (stream_of magic bytes) }
    ensures is_stream { (magic bytes : List ℕ) → IsTrue (are_bytes bytes) → (stream_of magic bytes).stop ≡ None
        → Stream magic bytes (stream_of magic bytes).messages (stream_of magic bytes).rest }
    ensures is_stop { (magic bytes : List ℕ) (fault : StreamFault) → IsTrue (are_bytes bytes) → (stream_of magic bytes).stop ≡ Some fault
        → Stop magic 0 bytes (stream_of magic bytes).messages fault }
    ensures either { (magic : List ℕ) (offset : ℕ) (bytes : List ℕ) → offset < 2 ^ 64 → IsTrue (are_bytes bytes)
        → ((ms : List Message) × (rest : List ℕ) × Stream magic bytes ms rest) ⊎ ((ms : List Message) × (fault : StreamFault) × Stop magic offset bytes ms fault) }
    ensures not_both { (magic : List ℕ) (offset : ℕ) (bytes : List ℕ) (ms ns : List Message) (rest : List ℕ) (fault : StreamFault) → length magic ≡ 4
        → Stream magic bytes ms rest → Stop magic offset bytes ns fault → ⊥ }
    ensures one { (magic bytes : List ℕ) (ms ns : List Message) (rest left : List ℕ) → length magic ≡ 4 → Stream magic bytes ms rest → Stream magic bytes ns left
        → (ms ≡ ns) × (rest ≡ left) }
    ensures one_stop { (magic : List ℕ) (offset : ℕ) (bytes : List ℕ) (ms ns : List Message) (fault other : StreamFault) → length magic ≡ 4
        → Stop magic offset bytes ms fault → Stop magic offset bytes ns other → (ms ≡ ns) × (fault ≡ other) }
{}

/// What is said of a part as messages, and then of its rest with what follows, is said of the whole. It does nothing when
/// it runs: its contract is the theorem.
pub fn streams_are_read_as_one()
    ensures stream { (magic p q : List ℕ) (ms ns : List Message) (rest left : List ℕ) → Stream magic p ms rest → Stream magic (rest ++ q) ns left
        → Stream magic (p ++ q) (ms ++ ns) left }
    ensures stop { (magic : List ℕ) (offset : ℕ) (p q : List ℕ) (ms ns : List Message) (rest : List ℕ) (fault : StreamFault) → Stream magic p ms rest
        → Stop magic (later_offset offset (length p - length rest)) (rest ++ q) ns fault → Stop magic offset (p ++ q) (ms ++ ns) fault }
    ensures stopped { (magic : List ℕ) (offset : ℕ) (p q : List ℕ) (ms : List Message) (fault : StreamFault) → Stop magic offset p ms fault → Stop magic offset (p ++ q) ms fault }
{}

/// Frames whose payloads are all read are the stream of these messages, and a fault of a frame behind them is the
/// stream's. The first fault of a payload ends the stream before it, whatever follows. It does nothing when it runs: its
/// contract is the theorem.
pub fn frames_make_streams()
    ensures read { (magic bytes : List ℕ) (fs : List Frame) (ms : List Message) (rest : List ℕ) → map message_of fs ≡ map Ok ms → Frames magic bytes fs rest
        → Stream magic bytes ms rest }
    ensures stop { (magic : List ℕ) (offset : ℕ) (bytes : List ℕ) (fs : List Frame) (ms : List Message) (fault : FrameFault) → map message_of fs ≡ map Ok ms
        → FrameStop magic offset bytes fs fault → Stop magic offset bytes ms (StreamFrameFault fault) }
    ensures payload { (magic : List ℕ) (offset : ℕ) (bytes : List ℕ) (fs gs : List Frame) (f : Frame) (ms : List Message) (fault : PayloadFault) (rest : List ℕ)
        → length magic ≡ 4 → map message_of fs ≡ map Ok ms → message_of f ≡ Err fault → Frames magic bytes (fs ++ (f ∷ gs)) rest → Stop magic offset bytes ms (StreamPayloadFault fault) }
    ensures earlier { (magic : List ℕ) (offset : ℕ) (bytes : List ℕ) (fs gs : List Frame) (f : Frame) (ms : List Message) (fault : PayloadFault) (other : FrameFault)
        → length magic ≡ 4 → map message_of fs ≡ map Ok ms → message_of f ≡ Err fault → FrameStop magic offset bytes (fs ++ (f ∷ gs)) other → Stop magic offset bytes ms (StreamPayloadFault fault) }
{}
