//! Pools loaded from a shelf in memory.

use super::*;
use base_types::{Kind, TextFault};
use erlay_base::MemShelf;
use std::alloc::{AllocError, Global};
use std::test::Fail;

/// A shelf with this text under the name 'pool'.
fn shelf_of(alloc: Global, text: &[u8]) -> Result<MemShelf, AllocError> {
    let mut held = Vec::new(alloc);
    held.push((String::from_str(alloc, "pool")?, text.to_vec(alloc)?))?;
    Ok(MemShelf::new(alloc, held, Vec::new(alloc)))
}

#[test]
fn a_pool_from_a_shelf(rt: HostRuntime) -> Result<(), Fail> {
    let alloc = rt.alloc();
    let fault = TextFault {
        place: 0,
        kind: Kind::LineCount,
    };
    // a text, the name that is asked for, and how many transactions the pool has, or why there is none
    for (text, name, answer) in [
        (
            b"pool 2 1\n9595c9df90075148eb06860365df33584b75bff782a510c6cd4883a419833d50 68656c6c6f\n".as_slice(),
            "pool",
            Ok(1usize),
        ),
        (b"pool 2 1\n", "pool", Err(PoolStop::Fault(fault))),
        (b"pool 2 0\n", "other", Err(PoolStop::ShelfFault)),
    ] {
        let mut shelf = shelf_of(alloc, text)?;
        let len = load_pool(alloc, &mut shelf, name).map(|pool| pool.len());
        assert_eq!(rt; len, answer);
    }
    Ok(())
}
