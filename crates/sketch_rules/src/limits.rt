//! How large a sketch may be.

/// The greatest capacity: a sketch has no more sums.
pub const MAX_CAPACITY: usize = 4_096;

/// The bytes of a sketch of the greatest capacity, 4 for each sum.
pub const MAX_SKETCH_BYTES: usize = 16_384;
