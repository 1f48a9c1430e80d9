//! The top call.

ghost use Rattle.std.specs.Prelude.{◌≡◌, ℕ, IfErr, IfOk, MatchOption, map, string_bytes};
ghost use Rattle.base_io.specs.Buffered.{outbox};
ghost use Rattle.cli_commands.specs.Outsides.{call_between, given_with, outside_view};
ghost use Rattle.cli_commands.specs.TopCall.{AsksNode, IsComplete, IsSaid, LeavesAlone, StatusMeans};
ghost use Rattle.cli_commands.specs.TopParts.{Closes, GivesOn, IsNoNode, StandsOver};

use crate::command::returning_command;
use crate::ending::{CommandEnd, EndedCommand};
use crate::node::node_command;
use crate::outside::Outside;
use crate::words::{Command, asked};
use base_io::{BufferedSink, Clock, Link, Sink, Source, Spawner, Waiter, Wrote};
use cli_launch::Notes;
use node_endpoint::Endpoint;
use proc_station::NodeAddress;
use sim_world::World;
use std::alloc::Global;
use std::mem::forget;
use std::sync::Wait;
use std::thread::Threads;

/// How a call ended.
#[derive(Drop)]
pub struct Status {
    /// The exit status, 0 to 12.
    pub code: u8,
    /// The world after the run of `world` or `drill`; there is one exactly where the code is 0 or 1.
    pub world: Option<World>,
    /// The node after the run of `node`; there is one exactly where the code is 0, 1, 6, 9 or 10.
    pub node: Option<Endpoint>,
    /// The nodes after the run of `check` or `launch`, in rising order of ranks; there are such exactly where the code
    /// is 0 or 1.
    pub nodes: Option<Vec<Endpoint>>,
}

impl Status {
    /// The exit status alone, for a program that ends with it. The world and the nodes keep their memory, which the
    /// system takes back as the program ends.
    pub fn into_code(self) -> u8
        ensures { result ≡ self.code }
    {
        let code = self.code;
        forget(self);
        code
    }
}

/// Gives on what the sink still holds back; a fault of that is how the call ends. After a fault of the sink it is left.
pub(crate) fn flushed<K: Sink>(sink: &mut BufferedSink<K>, ended: EndedCommand) -> EndedCommand
    ensures { GivesOn (outbox K.taken K.faults sink.old) (outbox K.taken K.faults sink.new)
        ended result }
{
    if let CommandEnd::WriteFault = ended.end {
        return ended;
    }
    match sink.flush() {
        Wrote::Done => ended,
        Wrote::Fault => {
            drop(ended);
            EndedCommand::cut()
        }
    }
}

/// The outside, over a sink that gathers.
fn gathering<S, K: Sink, L, P, C, G>(
    outside: Outside<S, K, L, P, C, G>,
) -> Outside<S, BufferedSink<K>, L, P, C, G>
    ensures { StandsOver outside result }
{
    let Outside {
        source,
        sink,
        link,
        spawner,
        clock,
        waiter,
    } = outside;
    Outside {
        source,
        sink: BufferedSink::new(sink),
        link,
        spawner,
        clock,
        waiter,
    }
}

/// Ends the call of a command that ended so: gives on what the sink still holds back, and gives the outside back.
fn closed<S, K: Sink, L, P, C, G>(
    ended: EndedCommand,
    gathering: Outside<S, BufferedSink<K>, L, P, C, G>,
) -> (Status, Outside<S, K, L, P, C, G>)
    ensures { Closes K.taken K.faults ended gathering result.0 result.1 }
{
    let Outside {
        source,
        sink,
        link,
        spawner,
        clock,
        waiter,
    } = gathering;
    let mut sink = sink;
    let EndedCommand { end, given } = flushed(&mut sink, ended);
    (
        Status {
            code: end.code(),
            world: given.world,
            node: given.node,
            nodes: given.nodes,
        },
        Outside {
            source,
            sink: sink.into_inner(),
            link,
            spawner,
            clock,
            waiter,
        },
    )
}

/// The node that is asked for, where the command is `node`.
fn node_of(command: Option<Command>) -> Option<NodeAddress>
    ensures { MatchOption result (IsNoNode command)
        (λ node. command ≡ Some (Command.Node node.rank node.port)) }
{
    match command {
        Some(Command::Node { rank, port }) => Some(NodeAddress { rank, port }),
        Some(Command::World) => None,
        Some(Command::Upgrade) => None,
        Some(Command::Check) => None,
        Some(Command::Launch { .. }) => None,
        Some(Command::Drill { .. }) => None,
        None => None,
    }
}

/// The top call of all commands but `node`: it returns, whatever comes, if the calls of the source, the sink and the
/// spawner do. All else is as [`gasnet`] says it.
///
/// # Errors
///
/// The rank and the port, and the outside as it was, exactly where the words are those of `node`.
pub fn returning_call<S: Source, K: Sink, L: Link, P: Spawner, C: Clock, G, N: Notes>(
    alloc: Global,
    words: &[String],
    outside: Outside<S, K, L, P, C, G>,
    notes: &mut N,
) -> Result<(Status, Outside<S, K, L, P, C, G>), (NodeAddress, Outside<S, K, L, P, C, G>)>
    ensures said { IfOk result (λ done. IsSaid
        (call_between (outside_view S.Source K.Sink L.Link P.Spawner C.Clock)
        (map string_bytes words.now) outside done.1 (given_with done.0)) done.0.code) }
    ensures returns { IfOk result (λ done. (rank port : ℕ)
        → AsksNode (map string_bytes words.now) rank port → ⊥) }
    ensures node { IfErr result (λ asked.
        AsksNode (map string_bytes words.now) asked.0.rank asked.0.port × (asked.1 ≡ outside)) }
{
    let command = asked(words);
    match node_of(command) {
        Some(node) => Err((node, outside)),
        None => {
            let mut gathering = gathering(outside);
            let ended = returning_command(alloc, command, &mut gathering, notes);
            Ok(closed(ended, gathering))
        }
    }
}

/// The top call: does what the words say (the program's own name is none of them), and gives the outside back.
///
/// The word `world` alone reads a job and runs it; `upgrade` alone reads a job and writes the same job with datagrams
/// of version 2; `drill SEED` runs the drill of that number, and reads nothing; `node RANK PORT` reads a job, runs the
/// scripts of its node RANK in threads over the outside's link, bound to that place, and writes the trace of what they
/// did as it grows; `check` alone reads a job and behind it what each of its nodes wrote, and writes the lines of the
/// run that their traces are; `launch PORT` reads a job, starts a child for each of its nodes by the outside's spawner,
/// with the bytes that it read, finishes them, and goes on with what they gave as `check` does. The last line written
/// is `status CODE NAME`, but with code 5, and with 0 of `upgrade`:
///
/// - 0 `ok`: the job, the drill or the traces were run, the lines of that run were written before, and no node noted a
///   violation; or the text of the job was written; or the node's scripts came to their ends, and it was quiet for as
///   many turns as the job's patience says;
/// - 1 `violations`: the job, the traces or the node were run so, and a node noted a violation;
/// - 2 `usage`: the words are those of no command; or the rank is no node of the job, or not each node has a port;
/// - 3 `bad-job LINE WHY`: the bytes read are no job's text (of `check`: with an output of each node behind it); the
///   first bad line, and the first reason that applies to it. Of more than 4,194,304 bytes (of `check` 67,108,864)
///   they are `0 size`;
/// - 4 `read-fault`, only where the source's count of faults rose, or stands at its last value;
/// - 5, only where the sink's count of faults rose, or stands at its last value: a prefix of the text was written; a
///   node took no more turns then;
/// - 6 `link-fault`, of `node`, only where the link's count of faults rose, or stands at its last value; the trace was
///   written before, without turns where the link couldn't be bound;
/// - 7 `spawn-fault`, of `launch`, only where the spawner's count of faults rose, or stands at its last value; each
///   child that was started was finished;
/// - 8 `no-memory`: memory ran out; whole lines of the run were written before, or none; of `upgrade` none; of `node`
///   none, or the trace without its last line;
/// - 9 `stuck`, of `node`: it was quiet for so many turns, and some script isn't over; the trace was written before;
/// - 10 `journal-full`, of `node`: its journal is full; the trace was written before;
/// - 11 `not-a-run NODE ENTRY`, of `check` and `launch`: the traces are no run; the smallest node with an entry that
///   can't ever go, and that entry;
/// - 12 `child RANK CODE`, of `check`: a node ended with a status other than 0 and 1; the smallest such rank, and the
///   status in its output; of `launch`: the child of a node ended so, or gave something else than an output of its node
///   with the status that it ended with; the smallest such rank, and that exit status, which is 0 or 1 too where what
///   the child gave is no such output.
pub fn gasnet<
    R: Threads + Wait + Sync,
    S: Source,
    K: Sink + Send,
    L: Link + Send,
    P: Spawner,
    C: Clock + Send,
    G: Waiter + Sync,
    N: Notes,
>(
    rt: &R,
    alloc: Global,
    words: &[String],
    outside: Outside<S, K, L, P, C, G>,
    notes: &mut N,
) -> (Status, Outside<S, K, L, P, C, G>)
    // What each exit status says of what was read, what was written, and what is given.
    ensures means { StatusMeans (call_between (outside_view S.Source K.Sink L.Link P.Spawner C.Clock)
        (map string_bytes words.now) outside result.1 (given_with result.0)) result.0.code }
    // A job that could be read is run, or written, unless memory runs out.
    ensures complete { IsComplete (call_between (outside_view S.Source K.Sink L.Link P.Spawner C.Clock)
        (map string_bytes words.now) outside result.1 (given_with result.0)) result.0.code }
    // What the words don't ask for stands as it did.
    ensures leaves { LeavesAlone (call_between (outside_view S.Source K.Sink L.Link P.Spawner C.Clock)
        (map string_bytes words.now) outside result.1 (given_with result.0)) }
{
    match returning_call(alloc, words, outside, notes) {
        Ok(done) => done,
        Err((address, outside)) => {
            let (ended, after) = node_command(rt, alloc, address, gathering(outside));
            closed(ended, after)
        }
    }
}
