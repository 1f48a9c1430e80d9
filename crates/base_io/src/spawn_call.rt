//! The calls that a spawner in memory tells.

/// A start or a finish that a spawner in memory tells.
#[derive(Drop)]
pub enum SpawnCall {
    /// The child of a rank was started.
    Start {
        /// The rank.
        rank: u16,
        /// The port of rank 0.
        port: u16,
        /// The bytes that the child was given.
        input: Vec<u8>,
    },
    /// The child of a rank was finished.
    Finish {
        /// The rank.
        rank: u16,
    },
}
