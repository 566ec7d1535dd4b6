//! How much a pool and a first sketch may hold.

/// Transactions of a pool, counted together with the ids that are wanted and that it doesn't hold.
pub const POOL_LIMIT: usize = 50_000;

/// Bytes of all transactions of a pool.
pub const POOL_BYTES: u64 = 134_217_728;

/// Bytes of a pool as text: both limits are reached in fewer.
pub const POOL_FILE_LIMIT: u64 = 272_000_000;

/// The least capacity of a round's first sketch.
pub const LEAST_CAPACITY: u32 = 8;

/// The greatest capacity of a round's first sketch.
pub const FIRST_LIMIT: u32 = 1_024;

/// The coefficient of the first round.
pub const FIRST_COEFFICIENT: u16 = 8_192;
