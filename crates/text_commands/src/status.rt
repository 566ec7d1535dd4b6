//! How a run ended.

ghost use Rattle.std.specs.Prelude.{◌≡◌};

use base_types::Kind;
use node_rules::End;
use protocol_text_rules::StreamKind;
use wire_rules::Phase;

/// How a run ended.
#[derive(Clone, Copy, Debug, PartialEq, Eq)]
pub enum Status {
    /// The command did its work, and its text was written.
    Ok,
    /// The words of the command line ask for no command.
    Usage,
    /// The input has a fault, the first of which is named.
    BadInput { place: u64, kind: Kind },
    /// The frames of the input have a fault. The first is named, by the offset of its frame's first byte.
    BadStream { place: u64, kind: StreamKind },
    /// No set of at most as many elements as the sketch has sums has it. `no set` was written.
    NoSet,
    /// A node ended, for the cause that is named. Where two nodes were run, what became of them was written.
    Refused(End),
    /// A read of the input failed.
    ReadFault,
    /// A write of the output failed. Nothing was written after it.
    WriteFault,
    /// A call of the wire failed.
    LinkFault,
    /// A call of the shelf failed.
    ShelfFault,
    /// The peer's bytes ended before the session was done. The phase of the node is named.
    Truncated(Phase),
    /// The input, the pool file or the session has more bytes than the limit, which is named.
    TooLong(u64),
    /// Memory ran out.
    OutOfMemory,
}

impl Status {
    ghost use Rattle.text_commands.specs.Codes.{code_of};

    /// The exit status of the program.
    pub fn code(&self) -> u8
        ensures { result ≡ code_of self.now }
    {
        match self {
            Status::Ok => 0,
            Status::Usage => 1,
            Status::BadInput { .. } => 2,
            Status::BadStream { .. } => 2,
            Status::NoSet => 3,
            Status::Refused(_) => 4,
            Status::ReadFault => 5,
            Status::WriteFault => 6,
            Status::LinkFault => 7,
            Status::ShelfFault => 8,
            Status::Truncated(_) => 9,
            Status::TooLong(_) => 10,
            Status::OutOfMemory => 11,
        }
    }
}
