//! A connection to another program.

ghost use Rattle.std.specs.Prelude.{◌≡◌, Bool, true, false, ℕ, length, IfOk, IfSome, OnErr, OnOk};
ghost use Rattle.std.specs.Io.{ReadsAtMost, WritesAtMost};
ghost use Rattle.std.specs.declared.option.Option.{Option};
ghost use Rattle.link_rules.specs.Links.{Link, ConnectCall, ListenCall, AcceptCall};
ghost use Rattle.erlay_base.specs.Causes.{HasCause};
ghost use Rattle.erlay_base.specs.Moves.{HasProgress};
ghost use Rattle.erlay_base.specs.Told.{AreTold};
ghost use Rattle.erlay_base.specs.WireCalls.{IsUnused, IsStarted, IsListened, IsReceived, IsSent, IsEndTold};

use base_types::Failed;

/// Has at most one link, over which bytes come in order and are sent in order.
///
/// - `link` is what it tells, where it tells it: the calls of `connect`, `listen` and `accept` so
///   far, with their addresses; and of its current link the bytes still to come, the bytes sent,
///   the pieces received, each with the number of bytes that had been sent before it, and whether
///   the input has ended.
/// - `is_linked`: a link was started, by a `connect` or an `accept` that succeeded.
/// - `is_listening`: a `listen` succeeded.
/// - `has_ended`: the input of the current link has ended. It hasn't where no link was started.
///   Every wire tells this and the two before, also one that tells no link.
/// - `faults` counts the calls that failed. The count may stay at `2^64 - 1`.
///
/// A call that fails has moved no bytes and leaves the link that there was. Where it is a
/// `connect`, a `listen` or an `accept`, it may be missing from the list of calls.
pub trait Wire {
    ghost link: { Self → Option Link };

    ghost is_linked: { Self → Bool };

    ghost is_listening: { Self → Bool };

    ghost has_ended: { Self → Bool };

    ghost faults: { Self → ℕ };

    /// Starts a link to the program that listens at `address`. Nothing was sent or received over it,
    /// and its input hasn't ended.
    fn connect(&mut self, address: &str) -> Result<(), Failed>
        ensures link { AreTold (link self.old) (link self.new) (IsStarted result (ConnectCall address.now)) }
        ensures unused { OnOk result (IsUnused (link self.new)) }
        ensures linked { OnOk result (is_linked self.new ≡ true) }
        ensures fresh { OnOk result (has_ended self.new ≡ false) }
        ensures still_linked { OnErr result (is_linked self.new ≡ is_linked self.old) }
        ensures still_ended { OnErr result (has_ended self.new ≡ has_ended self.old) }
        ensures still_listening { is_listening self.new ≡ is_listening self.old }
        ensures cause { HasCause (faults self.old) (faults self.new) result };

    /// Lets other programs connect to `address`. The link that there was stays.
    fn listen(&mut self, address: &str) -> Result<(), Failed>
        ensures link { AreTold (link self.old) (link self.new) (IsListened result (ListenCall address.now)) }
        ensures listening { OnOk result (is_listening self.new ≡ true) }
        ensures still_listening { OnErr result (is_listening self.new ≡ is_listening self.old) }
        ensures still_linked { is_linked self.new ≡ is_linked self.old }
        ensures still_ended { has_ended self.new ≡ has_ended self.old }
        ensures cause { HasCause (faults self.old) (faults self.new) result };

    /// Starts a link to a program that connects to the address of the last `listen`. Nothing was sent
    /// or received over it, and its input hasn't ended.
    fn accept(&mut self) -> Result<(), Failed>
        requires { is_listening self.old ≡ true }
        ensures link { AreTold (link self.old) (link self.new) (IsStarted result AcceptCall) }
        ensures unused { OnOk result (IsUnused (link self.new)) }
        ensures linked { OnOk result (is_linked self.new ≡ true) }
        ensures fresh { OnOk result (has_ended self.new ≡ false) }
        ensures still_linked { OnErr result (is_linked self.new ≡ is_linked self.old) }
        ensures still_ended { OnErr result (has_ended self.new ≡ has_ended self.old) }
        ensures still_listening { is_listening self.new ≡ is_listening self.old }
        ensures cause { HasCause (faults self.old) (faults self.new) result };

    /// Receives up to `buf.len()` bytes to the front of `buf`: a piece, where there is at least one.
    /// Into a buffer that isn't empty it receives no byte exactly at the end of the input, and the
    /// input has then ended. A call that fails may have changed the buffer.
    fn receive(&mut self, buf: &mut [u8]) -> Result<usize, Failed>
        requires { is_linked self.old ≡ true }
        ensures bound { ReadsAtMost result buf.new }
        ensures link { AreTold (link self.old) (link self.new) (IsReceived result buf.new) }
        ensures input { IfOk result (λ n. IsEndTold n (length buf.new) (has_ended self.old) (has_ended self.new)) }
        ensures still_ended { OnErr result (has_ended self.new ≡ has_ended self.old) }
        ensures still_linked { is_linked self.new ≡ true }
        ensures still_listening { is_listening self.new ≡ is_listening self.old }
        ensures cause { HasCause (faults self.old) (faults self.new) result };

    /// Sends a front part of `piece`, and answers how many bytes that were: at least one of a piece
    /// that isn't empty.
    fn send(&mut self, piece: &[u8]) -> Result<usize, Failed>
        requires { is_linked self.old ≡ true }
        ensures bound { WritesAtMost result piece.now }
        ensures some { HasProgress result piece.now }
        ensures link { AreTold (link self.old) (link self.new) (IsSent result piece.now) }
        ensures still_ended { has_ended self.new ≡ has_ended self.old }
        ensures still_linked { is_linked self.new ≡ true }
        ensures still_listening { is_listening self.new ≡ is_listening self.old }
        ensures cause { HasCause (faults self.old) (faults self.new) result };

    ghost told_end: { (w : Self) → IfSome (link w) (λ l. l.input_ended ≡ has_ended w) };

    ghost unlinked: { (w : Self) → is_linked w ≡ false → has_ended w ≡ false };
}
