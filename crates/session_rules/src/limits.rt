//! How much a session receives.

/// Bytes of one piece.
pub const PIECE_LIMIT: usize = 65_536;

/// Bytes of all pieces together.
pub const SESSION_LIMIT: u64 = 1_073_741_824;
