//! Errors that many calls share.

use std::alloc::{AllocError, AllocFailed};

/// Memory ran out. A call that takes memory may answer it in place of any other answer.
#[derive(Clone, Copy, Debug, PartialEq, Eq)]
pub struct OutOfMemory;

impl From<AllocError> for OutOfMemory {
    fn from(_error: AllocError) -> OutOfMemory {
        OutOfMemory
    }
}

impl<T: Drop> From<AllocFailed<T>> for OutOfMemory {
    fn from(_error: AllocFailed<T>) -> OutOfMemory {
        OutOfMemory
    }
}

/// A call to the outside failed. It moved no bytes.
#[derive(Clone, Copy, Debug, PartialEq, Eq)]
pub struct Failed;
