//! Where bytes go to.

ghost use Rattle.std.specs.Prelude.{ℕ, List};
ghost use Rattle.std.specs.Io.{WritesAtMost};
ghost use Rattle.std.specs.Io.KnownBytes.{WriteAppends};
ghost use Rattle.std.specs.declared.option.Option.{Option};
ghost use Rattle.erlay_base.specs.Causes.{HasCause};
ghost use Rattle.erlay_base.specs.Moves.{HasProgress};

use base_types::Failed;

/// Takes bytes in order, call by call. `written` is the bytes that it has taken, where it tells
/// them, and `faults` counts the calls that failed. The count may stay at `2^64 - 1`.
pub trait Sink {
    ghost written: { Self → Option (List ℕ) };

    ghost faults: { Self → ℕ };

    /// Writes a front part of `piece`, and answers how many bytes that were: at least one of a piece
    /// that isn't empty. A call that fails has written none.
    fn write(&mut self, piece: &[u8]) -> Result<usize, Failed>
        ensures bound { WritesAtMost result piece.now }
        ensures some { HasProgress result piece.now }
        ensures bytes { WriteAppends (written self.old) (written self.new) result piece.now }
        ensures cause { HasCause (faults self.old) (faults self.new) result };
}
