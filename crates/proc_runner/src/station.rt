//! A station, and its turns.

ghost use Rattle.std.specs.Prelude.{◌≡◌, ◌≢◌, ◌≤◌, ◌<◌, ◌+◌, List, [], true, false, if◌then◌else◌};
ghost use Rattle.std.specs.Prelude.{None, IfOk, MatchResult};
ghost use Rattle.std.specs.Option.{ForSome};
ghost use Rattle.proc_runner.specs.StationState.{Opening, opened_with, new_station, ended_with};
ghost use Rattle.proc_runner.specs.Facts.{Facts, IsJournalFull};
ghost use Rattle.proc_runner.specs.Turns.{GoesTurn, SendsOn, Finishes, KeepsFacts, CountsAtMostOne};
ghost use Rattle.base_turns.specs.declared.entry.Entry.{Entry as EntryState};
ghost use Rattle.proc_runner.specs.Leaving.{left_by_station};

use crate::ends::{EndedStation, StationEnd, TurnAnswer};
use crate::exchange::{quiet_after, record_entry, send_outgoing};
use crate::inbox::{Asked, Inbox};
use crate::recorder::Recorder;
use base_io::{Clock, Link, LinkAnswer, Wrote};
use base_turns::{Bytes, Entry, Machine};
use std::alloc::Global;
use std::marker::Model;

/// A node's machine with its link, its clock, and what takes the journal of its turns.
///
/// Contracts see it as a `StationState`. It counts the quiet turns, in which nothing was got and no script step ended,
/// and the empty ones, in which nothing was got and nothing changed; and it keeps the end that a turn met.
#[derive(Drop)]
pub struct Station<M, L, C, K> {
    alloc: Global,
    machine: M,
    link: L,
    clock: C,
    recorder: K,
    // How many entries the recorder was handed.
    count: u64,
    quiet: u32,
    idle: u64,
    patience: u32,
    kept: Option<StationEnd>,
    inbox: Inbox,
}

impl<M, L, C, K> Model for Station<M, L, C, K> {
    ghost use Rattle.std.specs.Prelude.{◌≤◌};
    ghost use Rattle.proc_runner.specs.StationState.{StationState};

    ghost Value = { StationState M L C K };

    ghost view = { λ s. record {
      machine = s.machine;
      link = s.link;
      clock = s.clock;
      recorder = s.recorder;
      count = s.count;
      quiet = s.quiet;
      idle = s.idle;
      patience = s.patience;
      kept = s.kept;
    } };

    ghost invariant = { λ s. s.quiet ≤ s.patience };
}

impl<M, L, C, K> Station<M, L, C, K> {
    /// How many entries its journal has.
    pub fn count(&self) -> u64
        ensures { result ≡ self.now.count }
    {
        self.count
    }

    /// How many quiet turns came last in a row.
    pub fn quiet(&self) -> u32
        ensures { result ≡ self.now.quiet }
    {
        self.quiet
    }

    /// The end that it keeps, once a turn has met one.
    pub fn kept(&self) -> Option<StationEnd>
        ensures { result ≡ self.now.kept }
    {
        self.kept
    }

    /// Takes the station apart. Where no end was kept, it is want of memory.
    pub fn into_ended(self) -> EndedStation<M, L, C, K>
        ensures { result ≡ left_by_station self }
    {
        let Station {
            alloc: _,
            machine,
            link,
            clock,
            recorder,
            count: _,
            quiet: _,
            idle: _,
            patience: _,
            kept,
            inbox: _,
        } = self;
        EndedStation {
            machine,
            link,
            clock,
            recorder,
            end: kept.unwrap_or(StationEnd::NoMemory),
        }
    }
}

// The most entries of a journal.
const ENTRY_LIMIT: u64 = 4294967295;

impl<M: Machine, L: Link, C: Clock, K: Recorder> Station<M, L, C, K> {
    /// A station that took no turn yet, which ends after `patience` quiet turns in a row.
    ///
    /// For want of memory it hands the four back, and the end is `NoMemory`.
    pub fn new(
        alloc: Global,
        machine: M,
        link: L,
        clock: C,
        recorder: K,
        patience: u32,
    ) -> Result<Station<M, L, C, K>, EndedStation<M, L, C, K>>
        requires { 1 ≤ patience }
        ensures made { MatchResult result
            (λ station. station ≡ new_station (opened_with machine link clock recorder patience))
            (λ ended. ended
            ≡ left_by_station (new_station (opened_with machine link clock recorder patience))) }
        ensures facts { IfOk result (λ station.
            Facts M.Machine L.Link C.Clock K.Recorder
            (opened_with machine link clock recorder patience) [] station) }
    {
        let Ok(inbox) = Inbox::new(alloc) else {
            return Err(EndedStation {
                machine,
                link,
                clock,
                recorder,
                end: StationEnd::NoMemory,
            });
        };
        Ok(Station {
            alloc,
            machine,
            link,
            clock,
            recorder,
            count: 0,
            quiet: 0,
            idle: 0,
            patience,
            kept: None,
            inbox,
        })
    }

    // Keeps an end.
    fn keep(&mut self, end: StationEnd) -> TurnAnswer
        ensures end { result ≡ TurnAnswer.Ended end }
        ensures kept { self.new ≡ ended_with self.old end }
    {
        self.kept = Some(end);
        TurnAnswer::Ended(end)
    }

    // Whether no turn is begun.
    fn is_full(&self) -> bool
        ensures full { result ≡ true → IsJournalFull self.now.count }
        ensures room { result ≡ false → ¬ IsJournalFull self.now.count }
    {
        self.count >= ENTRY_LIMIT
    }

    // Takes a turn that is begun: steps four to eight of `turn`.
    fn go(&mut self, thread: u16, polls: bool) -> TurnAnswer
        requires thread { thread < M.thread_count self.old.machine }
        requires polls { polls ≡ M.polls_at self.old.machine thread }
        requires patience { self.old.quiet < self.old.patience }
        requires begun { self.old.kept ≡ None }
        requires full { ¬ IsJournalFull self.old.count }
        ensures { GoesTurn M.Machine L.Link C.Clock K.Recorder (record {
          thread = thread;
          before = self.old;
          end = result;
          after = self.new;
        }) }
    {
        if self.inbox.make_room(self.alloc, polls).is_err() {
            return self.keep(StationEnd::NoMemory);
        }
        let now = self.clock.now();
        match self.inbox.ask(&mut self.link, polls) {
            Asked::Nothing => {
                let turned = self.machine.turn(thread, now, None);
                if !turned.changed {
                    self.idle = self.idle.saturating_add(1);
                    self.quiet += 1;
                    return TurnAnswer::Idle;
                }
                let entry = Entry {
                    thread,
                    now,
                    got: None,
                };
                self.quiet = quiet_after(self.quiet, turned.stepped);
                self.finish(&entry, turned.sends)
            }
            Asked::Datagram(bytes) => {
                let turned = self.machine.turn(thread, now, Some(bytes.as_slice()));
                let entry = Entry {
                    thread,
                    now,
                    got: Some(Bytes::of(bytes)),
                };
                self.quiet = 0;
                self.finish(&entry, turned.sends)
            }
            Asked::Fault => self.keep(StationEnd::LinkFault),
        }
    }

    // Hands the entry of the last turn to the recorder, and then sends its datagrams.
    fn finish(&mut self, entry: &Entry, sends: u8) -> TurnAnswer
        requires full { ¬ IsJournalFull self.old.count }
        ensures { Finishes M.Machine L.Link K.Recorder entry.entry.now (record {
          sends = sends;
          before = self.old;
          end = result;
          after = self.new;
        }) }
    {
        self.count += 1;
        match record_entry(&mut self.recorder, entry, sends) {
            Wrote::Done => self.send(sends),
            Wrote::Fault => self.keep(StationEnd::WriteFault),
        }
    }

    // Sends the datagrams of the last turn.
    fn send(&mut self, sends: u8) -> TurnAnswer
        ensures { SendsOn M.Machine L.Link (record {
          sends = sends;
          before = self.old;
          end = result;
          after = self.new;
        }) }
    {
        match send_outgoing(&self.machine, &mut self.link, sends) {
            LinkAnswer::Done => TurnAnswer::Went,
            LinkAnswer::Failed => self.keep(StationEnd::LinkFault),
        }
    }

    /// One turn of a thread.
    ///
    /// An end that was kept is answered again. Where `patience` quiet turns came in a row the end is `Over` if all
    /// scripts are over, else `Stuck`; where the journal is full it is `JournalFull`; where there is no memory for one
    /// entry it is `NoMemory`, and all else stays. Then the clock is asked; where the thread polls, the link is asked
    /// for one datagram; and the machine takes its turn. Where something was got or changed, its entry goes into the
    /// recorder, and on to the sink behind where the turn sends datagrams; then these are sent: `Went`. Else the turn is
    /// `Idle`, and sends nothing.
    ///
    /// `LinkFault` comes only where the link's count of faults rose in this turn, or stands at its last value: as it was
    /// asked, and then machine and journal stay; or as a datagram was sent, and then neither this datagram nor those after it
    /// are sent. `WriteFault` comes only where the count of faults of the recorder's sink rose, or stands at its last
    /// value; then nothing of the turn is sent. Each end is kept.
    pub fn turn(&mut self, thread: u16) -> TurnAnswer
        requires { thread < M.thread_count self.old.machine }
        ensures facts { (opening : Opening M L C K) (journal : List EntryState)
            → Facts M.Machine L.Link C.Clock K.Recorder opening journal self.old
            → KeepsFacts M.Machine L.Link C.Clock K.Recorder opening thread journal self.new }
        ensures threads { M.thread_count self.new.machine ≡ M.thread_count self.old.machine }
        ensures count { CountsAtMostOne self.old.count self.new.count }
        ensures again { ForSome self.old.kept (λ end.
            (result ≡ TurnAnswer.Ended end) × (self.new ≡ self.old)) }
        ensures spent { self.old.kept ≡ None → self.old.quiet ≡ self.old.patience
            → let end = if M.is_over self.old.machine then StationEnd.Over else StationEnd.Stuck in
            (result ≡ TurnAnswer.Ended end) × (self.new ≡ ended_with self.old end) }
        ensures full { self.old.kept ≡ None → self.old.quiet ≢ self.old.patience
            → IsJournalFull self.old.count
            → (result ≡ TurnAnswer.Ended StationEnd.JournalFull)
            × (self.new ≡ ended_with self.old StationEnd.JournalFull) }
        ensures goes { self.old.kept ≡ None → self.old.quiet ≢ self.old.patience
            → ¬ IsJournalFull self.old.count
            → GoesTurn M.Machine L.Link C.Clock K.Recorder (record {
              thread = thread;
              before = self.old;
              end = result;
              after = self.new;
            }) }
    {
        if let Some(end) = self.kept {
            return TurnAnswer::Ended(end);
        }
        if self.quiet >= self.patience {
            if self.machine.over() {
                return self.keep(StationEnd::Over);
            }
            return self.keep(StationEnd::Stuck);
        }
        if self.is_full() {
            return self.keep(StationEnd::JournalFull);
        }
        let polls = self.machine.polls(thread);
        self.go(thread, polls)
    }
}
