//! Where bytes come from.

ghost use Rattle.std.specs.Prelude.{ℕ, List};
ghost use Rattle.std.specs.Io.{ReadsAtMost};
ghost use Rattle.std.specs.Io.KnownBytes.{ReadConsumes};
ghost use Rattle.std.specs.declared.option.Option.{Option};
ghost use Rattle.erlay_base.specs.Causes.{HasCause};

use base_types::Failed;

/// Gives bytes in order, call by call. `left` is the bytes that it will give from here on, where it
/// tells them, and `faults` counts the calls that failed. The count may stay at `2^64 - 1`.
pub trait Source {
    ghost left: { Self → Option (List ℕ) };

    ghost faults: { Self → ℕ };

    /// Reads up to `buf.len()` bytes to the front of `buf`. Into a buffer that isn't empty it reads
    /// no byte only at the end of the input. A call that fails has read none, and may have changed
    /// the buffer.
    fn read(&mut self, buf: &mut [u8]) -> Result<usize, Failed>
        ensures bound { ReadsAtMost result buf.new }
        ensures bytes { ReadConsumes (left self.old) (left self.new) result buf.new }
        ensures cause { HasCause (faults self.old) (faults self.new) result };
}
