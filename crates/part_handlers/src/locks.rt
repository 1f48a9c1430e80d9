//! A node's handler-safe locks.

ghost use Rattle.std.specs.Prelude.{◌≡◌, []};
ghost use Rattle.part_handlers.specs.Locks.{lock_answer, after_lock, unlock_answer, unlock_fault};
ghost use Rattle.part_handlers.specs.Locks.{after_unlock, held_by, holds, blocking_lock, without, holder};
ghost use Rattle.part_handlers.specs.Locks.{latest, is_listed};

use crate::lock_answer::{Held, LockAnswer, LockFault, Owner, UnlockAnswer};
use arrayvec::ArrayVec;
use std::marker::Model;

/// How many locks a node has.
pub const LOCKS: usize = 64;

/// The locks of a node, 0 to 63, all free at first (GASNet 1.8.1, core API, handler-safe locks). Its value is the list
/// of those that are held, each with its owner, in order of locking.
///
/// Nothing here waits or takes memory: a lock that another owner holds is answered `Held`, and whoever asked may ask
/// again.
#[derive(Drop)]
pub struct Locks {
    held: ArrayVec<Held, LOCKS>,
}

impl Model for Locks {
    ghost use Rattle.std.specs.Prelude.{List};
    ghost use Rattle.part_handlers.specs.declared.lock_answer.Held.{Held};
    ghost use Rattle.part_handlers.specs.KeptLocks.{AreLocks};

    ghost Value = { List Held };

    ghost view = { λ l. l.held.items };

    ghost invariant = { λ l. AreLocks l.held.items };
}

impl Locks {
    /// All locks free.
    pub fn new() -> Locks
        ensures { result ≡ [] }
    {
        Locks {
            held: ArrayVec::new(),
        }
    }

    /// Takes a lock for its owner. `listed` has a bit for each lock that the entry of the running handler lists; for a
    /// thread it says nothing.
    ///
    /// In this order (profile): `Refused(BadIndex)` exactly where `lock` is 64 or more, `Refused(NotListed)` where the
    /// owner is the handler and bit `lock` of `listed` is 0, `Refused(Recursive)` where the owner holds the lock,
    /// `Held` where another does, else `Taken`. Only `Taken` changes anything: the lock is the owner's latest from then
    /// on.
    pub fn lock(&mut self, owner: Owner, lock: u8, listed: u64) -> LockAnswer
        ensures answer { result ≡ lock_answer self.old owner lock listed }
        ensures locks { self.new ≡ after_lock self.old owner lock listed }
    {
        if lock as usize >= LOCKS {
            return LockAnswer::Refused(LockFault::BadIndex);
        }
        if !owner.is_thread() && !is_listed(listed, lock) {
            return LockAnswer::Refused(LockFault::NotListed);
        }
        match self.holder(lock) {
            Some(other) if other.is(owner) => LockAnswer::Refused(LockFault::Recursive),
            Some(_) => LockAnswer::Held,
            None => {
                self.held.push(Held { lock, owner });
                LockAnswer::Taken
            }
        }
    }

    /// Gives a lock back.
    ///
    /// In this order (profile): `Refused(BadIndex)` exactly where `lock` is 64 or more, `Refused(NotHeld)` where the
    /// owner does not hold it, `Refused(OutOfOrder)` where it is not the latest of the locks that the owner holds, else
    /// `Freed`. Only `Freed` changes anything: the lock is free from then on.
    pub fn unlock(&mut self, owner: Owner, lock: u8) -> UnlockAnswer
        ensures answer { result ≡ unlock_answer self.old owner lock }
        ensures locks { self.new ≡ after_unlock self.old owner lock }
    {
        match self.unlock_fault(owner, lock) {
            Some(fault) => UnlockAnswer::Refused(fault),
            None => {
                self.held
                    .retain(|one| !(one.lock == lock && one.owner.is(owner)));
                UnlockAnswer::Freed
            }
        }
    }

    /// Whether the owner holds a lock.
    pub fn holds(&self, owner: Owner) -> bool
        ensures { result ≡ holds owner self.now }
    {
        self.held.iter().any(|one| one.owner.is(owner))
    }

    /// The smallest lock that is listed and that a thread holds: while there is one, the message of a handler that
    /// lists these locks waits (profile). None exactly where no thread holds a listed lock.
    pub fn blocked(&self, listed: u64) -> Option<u8>
        ensures { result ≡ blocking_lock self.now listed }
    {
        self.held
            .iter()
            .filter(|one| one.owner.is_thread() && is_listed(listed, one.lock))
            .map(|one| one.lock)
            .min()
    }

    /// Gives all locks of the owner back, and tells how many they were.
    pub fn release_all(&mut self, owner: Owner) -> usize
        ensures count { result ≡ held_by self.old owner }
        ensures locks { self.new ≡ without owner self.old }
    {
        let before = self.held.len();
        self.held.retain(|one| !one.owner.is(owner));
        before - self.held.len()
    }

    // What is wrong with giving the lock back.
    fn unlock_fault(&self, owner: Owner, lock: u8) -> Option<LockFault>
        ensures { result ≡ unlock_fault self.now owner lock }
    {
        if lock as usize >= LOCKS {
            return Some(LockFault::BadIndex);
        }
        if !matches!(self.holder(lock), Some(holder) if holder.is(owner)) {
            return Some(LockFault::NotHeld);
        }
        if self.latest(owner) != Some(lock) {
            return Some(LockFault::OutOfOrder);
        }
        None
    }

    // Who holds the lock.
    fn holder(&self, lock: u8) -> Option<Owner>
        ensures { result ≡ holder self.now lock }
    {
        let found = self.held.iter().find(|one| one.lock == lock)?;
        Some(found.owner)
    }

    // The lock that the owner took last, among those that it holds.
    fn latest(&self, owner: Owner) -> Option<u8>
        ensures { result ≡ latest self.now owner }
    {
        let found = self.held.iter().rev().find(|one| one.owner.is(owner))?;
        Some(found.lock)
    }
}

// Whether bit `lock` of `listed` is 1.
#[tactic(auto, using(crate::proofs::Bits::unlisted_above))]
fn is_listed(listed: u64, lock: u8) -> bool
    ensures { result ≡ is_listed listed lock }
{
    (lock as usize) < LOCKS && (listed >> lock) % 2 == 1
}
