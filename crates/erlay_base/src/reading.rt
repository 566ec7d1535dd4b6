//! Reading a source to its end.

ghost use Rattle.std.specs.Prelude.{◌≡◌, ◌≢◌, ◌+◌, ◌<◌, ◌≤◌, IfOk, OnOk, vec_len};
ghost use Rattle.std.specs.Io.KnownBytes.{Consumes, IsAtEnd};
ghost use Rattle.erlay_base.specs.Causes.{HasRisen};
ghost use Rattle.erlay_base.specs.Moves.{HasConsumed};

use crate::Source;
use std::alloc::Global;

/// How many bytes one call reads at most.
const PIECE: usize = 16384;

/// Why a source wasn't read to its end.
#[derive(Clone, Copy, Debug, PartialEq, Eq)]
pub enum ReadEnd {
    /// A call to the source failed. At most `limit` bytes were taken before it.
    Failed,
    /// More bytes came than the limit allows.
    TooLong,
    /// Memory ran out. At most `limit + 1` bytes were taken.
    OutOfMemory,
}

/// Reads all bytes that are left, at most `limit` of them. Takes memory for them and for one piece
/// of at most 16 KB. No read follows one that failed.
pub fn read_all<S: Source>(alloc: Global, source: &mut S, limit: usize) -> Result<Vec<u8>, ReadEnd>
    requires { limit < usize.MAX }
    ensures all { IfOk result (λ bytes. Consumes (S.left source.old) (S.left source.new) bytes.items) }
    ensures end { OnOk result (IsAtEnd (S.left source.new)) }
    ensures within { IfOk result (λ bytes. vec_len bytes ≤ limit) }
    ensures too_long { result ≡ Err ReadEnd.TooLong → HasConsumed (S.left source.old) (S.left source.new) (λ n. n ≡ limit + 1) }
    ensures stopped { result ≡ Err ReadEnd.Failed → HasConsumed (S.left source.old) (S.left source.new) (λ n. n ≤ limit) }
    ensures refused { result ≡ Err ReadEnd.OutOfMemory → HasConsumed (S.left source.old) (S.left source.new) (λ n. n ≤ limit + 1) }
    ensures failed { result ≡ Err ReadEnd.Failed → HasRisen (S.faults source.old) (S.faults source.new) }
    ensures no_fault { result ≢ Err ReadEnd.Failed → S.faults source.new ≡ S.faults source.old }
    ensures later { S.faults source.old ≤ S.faults source.new }
{
    let Ok(mut buf) = vec![in alloc; 0u8; PIECE.min(limit + 1)] else {
        return Err(ReadEnd::OutOfMemory);
    };
    let buf = buf.as_mut_slice();
    let mut bytes = Vec::new(alloc);
    while bytes.len() <= limit {
        let room = buf.len().min(limit - bytes.len() + 1);
        let piece = &mut buf[..room];
        let Ok(count) = source.read(piece) else {
            return Err(ReadEnd::Failed);
        };
        if count == 0 {
            return Ok(bytes);
        }
        if bytes.extend_from_slice(&piece[..count]).is_err() {
            return Err(ReadEnd::OutOfMemory);
        }
    }
    Err(ReadEnd::TooLong)
}
