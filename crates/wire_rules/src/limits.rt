//! How large the parts of a message may be.

/// Bytes of a frame before its payload: magic, command, length and checksum.
pub const HEADER_LEN: usize = 24;

/// Bytes of a payload.
pub const PAYLOAD_LIMIT: usize = 4_000_000;

/// Entries of a counted list in a payload, and bytes of a sketch in one.
pub const LIST_LIMIT: usize = 50_000;

/// Bytes of the agent text of a `version` message.
pub const AGENT_LIMIT: usize = 256;
