//! Frames of a stream of bytes.

use base_types::Bytes;

/// A frame without its magic, length and checksum, which follow from these.
#[derive(Debug, Drop)]
pub struct Frame {
    /// Printable bytes, and then NUL up to 12 bytes.
    pub command: [u8; 12],
    pub payload: Bytes,
}

/// A frame whose payload is lent, by the bytes of a stream or by who sends it.
#[derive(Clone, Copy, Debug)]
pub struct FrameRef<'a> {
    /// Printable bytes, and then NUL up to 12 bytes.
    pub command: [u8; 12],
    pub payload: &'a [u8],
}

/// Why a stream has no frame at an offset. `at` is the offset in the whole stream of the frame's first byte.
#[derive(Clone, Copy, Debug, PartialEq, Eq)]
pub enum FrameFault {
    /// The first four bytes aren't the network's.
    BadMagic {
        at: u64,
    },
    /// The command isn't printable bytes, at least one, and then NUL.
    BadCommand {
        at: u64,
    },
    /// The header tells a payload of more bytes than one may have.
    TooLong {
        at: u64,
        len: u32,
    },
    /// The checksum that stands in the header isn't that of the payload.
    BadChecksum {
        at: u64,
        stands: [u8; 4],
        computed: [u8; 4],
    },
}
