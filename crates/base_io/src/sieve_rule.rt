//! The rules of a sieve.

/// What a sieve does with a datagram that is handed to it.
#[derive(Clone, Copy)]
pub(crate) enum SieveRule {
    /// It is lost.
    Lose,
    /// It is sent twice.
    Repeat,
    /// It is held back.
    HoldBack,
    /// It is sent.
    Pass,
}
