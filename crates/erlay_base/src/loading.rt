//! Reading a whole content of a shelf.

ghost use Rattle.std.specs.Prelude.{◌≡◌, ◌≢◌, ◌<◌, ◌≤◌, IfOk, vec_len};
ghost use Rattle.erlay_base.specs.Causes.{HasRisen};
ghost use Rattle.erlay_base.specs.ShelfCalls.{AreReads, HasContent, IsLonger};
ghost use Rattle.erlay_base.specs.Told.{AreTold};

use crate::{ReadEnd, Shelf};
use std::alloc::Global;

/// How many bytes one call reads at most.
const PIECE: usize = 16384;

/// Reads the whole content of `name`, at most `limit` bytes of it: `TooLong` comes exactly where it has
/// more, after reads that gave `limit + 1`. Takes memory for them and for one piece of at most 16 KB. It
/// makes no other calls than reads of `name`, and none after one that failed.
pub fn load_all<S: Shelf>(
    alloc: Global,
    shelf: &mut S,
    name: &str,
    limit: usize,
) -> Result<Vec<u8>, ReadEnd>
    requires { limit < usize.MAX }
    ensures all { IfOk result (λ bytes. HasContent (S.told shelf.old) name.now bytes.items) }
    ensures within { IfOk result (λ bytes. vec_len bytes ≤ limit) }
    ensures too_long { result ≡ Err ReadEnd.TooLong → IsLonger (S.told shelf.old) name.now limit }
    ensures reads { AreTold (S.told shelf.old) (S.told shelf.new) (AreReads name.now) }
    ensures failed { result ≡ Err ReadEnd.Failed → HasRisen (S.faults shelf.old) (S.faults shelf.new) }
    ensures no_fault { result ≢ Err ReadEnd.Failed → S.faults shelf.new ≡ S.faults shelf.old }
    ensures later { S.faults shelf.old ≤ S.faults shelf.new }
{
    let Ok(mut buf) = vec![in alloc; 0u8; PIECE.min(limit + 1)] else {
        return Err(ReadEnd::OutOfMemory);
    };
    let buf = buf.as_mut_slice();
    let mut bytes = Vec::new(alloc);
    while bytes.len() <= limit {
        let room = buf.len().min(limit - bytes.len() + 1);
        let piece = &mut buf[..room];
        let Ok(count) = shelf.read_at(name, bytes.len() as u64, piece) else {
            return Err(ReadEnd::Failed);
        };
        if count == 0 {
            return Ok(bytes);
        }
        if bytes.extend_from_slice(&piece[..count]).is_err() {
            return Err(ReadEnd::OutOfMemory);
        }
    }
    Err(ReadEnd::TooLong)
}
