//! How much text a command reads.

/// How many bytes of its input a command reads.
pub const INPUT_LIMIT: usize = 67_108_864;
