//! Sets, made id by id.

ghost use Rattle.std.specs.Prelude.{◌≡◌};

use base_types::Hash32;
use field_core::Field;
use pool_rules::POOL_LIMIT;
use recon_set::ReconSet;
use std::alloc::Global;
use std::process::Abort;

/// An id with its short id.
pub type Pair = (Hash32, u32);

/// The id whose bytes are all the same.
pub fn id_of(byte: u8) -> Hash32 {
    Hash32([byte; 32])
}

/// Puts an id into a set that lacks it.
pub fn put<F: Field>(rt: &impl Abort, set: &mut ReconSet<F>, id: Hash32, short: u32) {
    assert!(rt; !set.contains(&id));
    assert!(rt; set.len() < POOL_LIMIT);
    assert!(rt; 0 < short);
    set.add(id, short).expect(rt, "memory");
}

/// The set of these pairs.
pub fn set_of<F: Field>(rt: &impl Abort, alloc: Global, pairs: &[Pair]) -> ReconSet<F>
    requires { F.BITS ≡ 32 }
{
    let mut set = ReconSet::empty(alloc);
    for (id, short) in pairs {
        put(rt, &mut set, *id, *short);
    }
    set
}
