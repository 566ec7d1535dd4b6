//! What the tests give to fakes.

use std::alloc::{AllocError, Global};

pub const TEN: &[u8] = &[0, 1, 2, 3, 4, 5, 6, 7, 8, 9];

/// The numbers of the calls that fail: of the one call, or of none where it is 0.
pub fn only(alloc: Global, call: u64) -> Result<Vec<u64>, AllocError> {
    let mut calls = Vec::new(alloc);
    if call > 0 {
        calls.push(call)?;
    }
    Ok(calls)
}
