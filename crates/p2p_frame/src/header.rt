//! The header of a frame: what it tells, and its first fault.

ghost use Rattle.std.specs.Prelude.{◌≡◌, ◌+◌, ◌==◌, ◌≤◌, length, slice_range};
ghost use Rattle.std.specs.List.{list_all, position, position_or_len};
ghost use Rattle.wire_rules.specs.Commands as Commands;
ghost use Rattle.wire_rules.specs.Commands.{is_command, is_filled};
ghost use Rattle.wire_rules.specs.Stream.{fault_of_header, header_of};
ghost use Rattle.p2p_frame.specs.Views.{fields_of, is_other};

use wire_rules::{FrameFault, HEADER_LEN, PAYLOAD_LIMIT};

/// The fields of a header, which says how many bytes the payload has, and its checksum.
#[derive(Clone, Copy, Debug)]
pub struct Header {
    pub magic: [u8; 4],
    pub command: [u8; 12],
    pub size: u32,
    pub sum: [u8; 4],
}

impl Header {
    /// The header at the front of `bytes`.
    pub fn read(bytes: &[u8]) -> Header
        requires { 24 ≤ length bytes.now }
        ensures { fields_of result ≡ header_of bytes.now }
    {
        Header {
            magic: part(bytes, 0),
            command: part(bytes, 4),
            size: u32::from_le_bytes(part(bytes, 16)),
            sum: part(bytes, 20),
        }
    }

    /// How many bytes a frame with this header has.
    pub fn frame_size(&self) -> usize
        ensures { result ≡ 24 + self.now.size }
    {
        HEADER_LEN + self.size as usize
    }

    /// Its first fault: of the magic, the command and then the size. `place` is the offset of its first byte.
    pub fn fault(&self, magic: [u8; 4], place: u64) -> Option<FrameFault>
        ensures { result ≡ fault_of_header magic place (fields_of self.now) }
    {
        if magic != self.magic {
            return Some(FrameFault::BadMagic { at: place });
        }
        if !is_command_field(&self.command) {
            return Some(FrameFault::BadCommand { at: place });
        }
        if PAYLOAD_LIMIT < self.size as usize {
            return Some(FrameFault::TooLong {
                at: place,
                len: self.size,
            });
        }
        None
    }
}

/// `N` bytes from an index on.
fn part<const N: usize>(bytes: &[u8], from: usize) -> [u8; N]
    requires { from + N ≤ length bytes.now }
    ensures { result ≡ slice_range bytes.now from (from + N) }
{
    let mut part = [0u8; N];
    part.copy_from_slice(&bytes[from..from + N]);
    part
}

/// Whether 12 bytes are a command: printable ones, at least one, and then only NUL.
pub fn is_command_field(command: &[u8; 12]) -> bool
    ensures { result ≡ is_command command.now }
{
    is_printable(command[0]) && is_filled_field(command)
}

/// Whether bytes are printable up to the first that is not, and NUL from there on.
fn is_filled_field(bytes: &[u8]) -> bool
    ensures { result ≡ is_filled bytes.now }
{
    is_nul(bytes.split_at(printable_len(bytes)).1)
}

/// How many printable bytes there are before the first that is not.
fn printable_len(bytes: &[u8]) -> usize
    ensures length { result ≡ position_or_len is_other bytes.now }
    ensures within { result ≤ length bytes.now }
{
    first_other(bytes).unwrap_or(bytes.len())
}

/// Where the first byte stands that is not printable.
fn first_other(bytes: &[u8]) -> Option<usize>
    ensures { result ≡ position is_other bytes.now }
{
    bytes.iter().position(|b| !is_printable(*b))
}

/// Whether all bytes are NUL.
fn is_nul(bytes: &[u8]) -> bool
    ensures { result ≡ list_all (λ b. b == 0) bytes.now }
{
    bytes.iter().all(|b| *b == 0)
}

/// Whether a byte is printable ASCII.
fn is_printable(b: u8) -> bool
    ensures { result ≡ Commands.is_printable b }
{
    0x20 <= b && b <= 0x7E
}
