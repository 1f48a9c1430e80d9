//! Waiters, which are told of each turn before it is taken.

/// What a thread passes before each of its turns; it may wait there, and can't fail.
pub trait Waiter {
    /// Called before each turn of the thread with this number.
    ///
    /// `quiet` says whether the thread's last turn was quiet: nothing was got, and no step ended in it. It is false
    /// before its first.
    fn before_turn(&self, thread: u16, quiet: bool);
}

/// The waiter that lets each thread pass at once.
#[derive(Clone, Copy)]
pub struct ReadyWaiter;

impl Waiter for ReadyWaiter {
    /// Nothing.
    fn before_turn(&self, _thread: u16, _quiet: bool) {}
}
