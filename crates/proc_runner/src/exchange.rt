//! What a turn gives to its link, and whether it was quiet.

ghost use Rattle.std.specs.Prelude.{◌≡◌, ◌+◌, ◌^◌, ◌<◌, if◌then◌else◌};
ghost use Rattle.proc_runner.specs.Turns.{SendsOutgoing, RecordsAs};

use crate::recorder::Recorder;
use base_io::{Link, LinkAnswer, Wrote};
use base_turns::{Entry, Machine};

// Sends the datagrams of the machine's last turn, at most so many, in order, up to one that fails.
pub fn send_outgoing<M: Machine, L: Link>(machine: &M, link: &mut L, sends: u8) -> LinkAnswer
    ensures { SendsOutgoing M.Machine L.Link (record {
      machine = machine.now;
      count = sends;
      before = link.old;
      answer = result;
      after = link.new;
    }) }
{
    for i in 0..sends {
        let Some((to, bytes)) = machine.outgoing(i) else {
            return LinkAnswer::Done;
        };
        match link.send(to, bytes) {
            LinkAnswer::Done => {}
            LinkAnswer::Failed => return LinkAnswer::Failed,
        }
    }
    LinkAnswer::Done
}

// Hands an entry to the recorder, and has it go on to the sink behind where its turn sends datagrams.
pub fn record_entry<K: Recorder>(recorder: &mut K, entry: &Entry, sends: u8) -> Wrote
    ensures { RecordsAs K.Recorder entry.entry.now sends recorder.old recorder.new result }
{
    match recorder.record(entry) {
        Wrote::Done => {}
        Wrote::Fault => return Wrote::Fault,
    }
    if sends == 0 {
        return Wrote::Done;
    }
    recorder.flush()
}

// How many quiet turns came in a row after one more that got nothing.
pub fn quiet_after(quiet: u32, stepped: bool) -> u32
    requires { quiet + 1 < 2 ^ 32 }
    ensures { result ≡ (if stepped then 0 else quiet + 1) }
{
    if stepped { 0 } else { quiet + 1 }
}
