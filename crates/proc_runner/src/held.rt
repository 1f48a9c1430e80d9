//! What lies under a node's lock: its station, with the book of the ledger in which each entry is counted.

ghost use Rattle.std.specs.Prelude.{◌≡◌, ◌+◌, ◌<◌, ◌↔◌, ℕ, IsSomeAnd, IsTrue};
ghost use Rattle.std.specs.Option.{ForSome};
ghost use Rattle.proc_runner.specs.StationState.{new_station};
ghost use Rattle.proc_runner.specs.Facts.{HasFacts};
ghost use Rattle.proc_runner.specs.Turns.{CountsAtMostOne, TakesTurn};

use crate::ends::TurnAnswer;
use crate::recorder::Recorder;
use crate::station::Station;
use base_io::{Clock, Link};
use base_turns::Machine;
use std::marker::{Brand, Model};
use std::sync::ledger::{Blank, Book, Ledger, Share};

/// The ledger of a node's threads.
pub trait Crew: Ledger {
    /// How many threads the node has.
    ghost threads: { ℕ };
}

impl Crew for Brand {
    ghost threads = { 0 };
}

/// The name that a station under its lock, its book and its shares carry.
pub trait StationName<M, L, C, K>: Crew {
    ghost use Rattle.std.specs.Prelude.{Option};
    ghost use Rattle.proc_runner.specs.StationState.{Opening};

    /// What the station was opened with.
    ghost opening: { Option (Opening M L C K) };
}

impl<M, L, C, K> StationName<M, L, C, K> for Brand {
    ghost use Rattle.std.specs.Prelude.{None};

    ghost opening = { None };
}

/// A station with the book of its node's ledger. Contracts see it as the station.
///
/// Whenever the lock is free the facts hold of it, for what its name says that it was opened with, and its count is
/// the total of the book.
pub struct Held<N: StationName<M, L, C, K>, M: Machine, L: Link, C: Clock, K: Recorder> {
    station: Station<M, L, C, K>,
    book: Book<N>,
}

impl<N: StationName<M, L, C, K>, M: Machine, L: Link, C: Clock, K: Recorder> Model
    for Held<N, M, L, C, K> {
    ghost use Rattle.std.specs.Prelude.{◌≡◌};
    ghost use Rattle.std.specs.Option.{ForSome};
    ghost use Rattle.proc_runner.specs.StationState.{StationState};
    ghost use Rattle.proc_runner.specs.Facts.{HasFacts};

    ghost Value = { StationState M L C K };

    ghost view = { λ h. h.station };

    ghost invariant = { λ h. (h.station.count ≡ h.book.total)
        × (M.thread_count h.station.machine ≡ N.threads)
        × ForSome N.opening (λ opening. HasFacts M.Machine L.Link C.Clock K.Recorder opening
        h.station) };
}

impl<N: StationName<M, L, C, K>, M: Machine, L: Link, C: Clock, K: Recorder> Held<N, M, L, C, K> {
    /// Puts a new station under its name, with a new ledger. The share has all parts of it, and nothing is booked.
    pub fn open(station: Station<M, L, C, K>, blank: Blank) -> (Held<N, M, L, C, K>, Share<N>)
        requires opened { IsSomeAnd N.opening (λ opening. station ≡ new_station opening) }
        requires threads { M.thread_count station.machine ≡ N.threads }
        requires name { blank.name ≡ N.name }
        requires parts { blank.parts ≡ N.parts }
        ensures held { result.0 ≡ station }
        ensures parts { result.1.parts ≡ N.parts }
        ensures amount { result.1.amount ≡ 0 }
    {
        let (book, all) = blank.open::<N>();
        (Held { station, book }, all)
    }

    /// One turn of a thread under the lock, as `Station::turn` says. Where it keeps an entry, the share that it is
    /// handed has one more.
    pub fn turn(&mut self, thread: u16, mine: &mut Share<N>) -> TurnAnswer
        requires thread { thread < N.threads }
        requires part { 0 < mine.old.parts }
        ensures turn { TakesTurn M.Machine L.Link C.Clock K.Recorder (record {
          thread = thread;
          before = self.old;
          end = result;
          after = self.new;
        }) }
        ensures count { CountsAtMostOne self.old.count self.new.count }
        ensures booked { mine.new.amount + self.old.count
            ≡ mine.old.amount + self.new.count }
        ensures parts { mine.new.parts ≡ mine.old.parts }
    {
        let before = self.station.count();
        let end = self.station.turn(thread);
        if self.station.count() > before {
            self.book.add(mine, 1);
        }
        end
    }

    /// Whether the last turn was quiet.
    pub fn was_quiet(&self) -> bool
        ensures { IsTrue result ↔ (0 < self.now.quiet) }
    {
        self.station.quiet() > 0
    }

    /// Takes the station out, once the share has all parts again. The facts hold of it, and its count is as great as
    /// the share says.
    pub fn close(self, all: &mut Share<N>) -> Station<M, L, C, K>
        requires { all.old.parts ≡ N.parts }
        ensures held { result ≡ self }
        ensures facts { ForSome N.opening (λ opening.
            HasFacts M.Machine L.Link C.Clock K.Recorder opening result) }
        ensures booked { result.count ≡ all.old.amount }
    {
        let Held { station, book } = self;
        let mut book = book;
        book.audit(all);
        station
    }
}
