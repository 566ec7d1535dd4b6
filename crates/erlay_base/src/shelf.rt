//! Contents under names.

ghost use Rattle.std.specs.Prelude.{ℕ};
ghost use Rattle.std.specs.Io.{ReadsAtMost};
ghost use Rattle.erlay_base.specs.Causes.{HasCause};
ghost use Rattle.erlay_base.specs.ShelfCalls.{ToldShelf, IsReadAt, IsSaved};
ghost use Rattle.erlay_base.specs.Told.{AreTold};

use base_types::Failed;

/// Has contents of bytes, each under a name.
///
/// - `told` is what it tells, where it tells it: the contents, and the calls so far, each with its
///   name and whether it read or saved.
/// - `faults` counts the calls that failed. The count may stay at `2^64 - 1`.
///
/// No call changes the content of another name, also one that fails. A call that fails may be
/// missing from the list of calls.
pub trait Shelf {
    ghost told: { Self → ToldShelf };

    ghost faults: { Self → ℕ };

    /// Reads up to `buf.len()` bytes of the content of `name`, from the byte at index `at` on, to the
    /// front of `buf`. Into a buffer that isn't empty it reads no byte exactly where `at` isn't below
    /// the content's length. It changes no content. A call that fails may have changed the buffer.
    fn read_at(&mut self, name: &str, at: u64, buf: &mut [u8]) -> Result<usize, Failed>
        ensures bound { ReadsAtMost result buf.new }
        ensures told { AreTold (told self.old) (told self.new) (IsReadAt result name.now at buf.new) }
        ensures cause { HasCause (faults self.old) (faults self.new) result };

    /// Makes the content of `name` equal to the bytes. After a call that failed that name may have
    /// any content, or none.
    fn save(&mut self, name: &str, bytes: &[u8]) -> Result<(), Failed>
        ensures told { AreTold (told self.old) (told self.new) (IsSaved result name.now bytes.now) }
        ensures cause { HasCause (faults self.old) (faults self.new) result };
}
