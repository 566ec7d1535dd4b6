//! The limits of scripts, and the network.

/// Events of a script.
pub const EVENT_LIMIT: usize = 100_000;

/// The greatest number of the generator.
pub const GENERATOR_LIMIT: u64 = 10_000;

/// The main network's first bytes of each frame. All commands use it.
pub const MAIN_MAGIC: [u8; 4] = [0xf9, 0xbe, 0xb4, 0xd9];
