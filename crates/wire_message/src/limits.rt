//! The limits that every job has.

/// The most bytes of a payload (profile).
pub const MAX_PAYLOAD: usize = 8192;

/// The most bytes of a datagram: a header of 40, 16 arguments of 4, and a payload (profile).
pub const MAX_DATAGRAM: usize = 40 + 16 * 4 + MAX_PAYLOAD;
