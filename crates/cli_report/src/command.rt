//! The command that a run is of, and what is kept of the run.

ghost use Rattle.std.specs.Prelude.{◌≡◌, ◌&&◌, [], not, true, false, None, ℕ, List, option_map};
ghost use Rattle.cli_report.specs.Command.{HasWord, IsReadAgain, TellsPorts, is_node, kind_of};
ghost use Rattle.cli_report.specs.Command.{lacks_port, name_of, needs_input};
ghost use Rattle.cli_report.specs.Ports.{ArePorts};
ghost use Rattle.std.specs.Bool.{MatchBool};

use crate::ports::{FreePorts, Ports, free_ports, port_of, port_word, ports_line};
use crate::seen::{MOST_INPUT, Seen};
use crate::status::{is_refusal, last_line, line_status};
use crate::telling::{Tells, tell_made};
use std::alloc::Global;

/// The commands of whose runs more is told than why they went wrong.
#[derive(Clone, Copy)]
pub(crate) enum CommandKind {
    /// `check`.
    Check,
    /// `launch`.
    Launch,
    /// `world`.
    World,
    /// Another one.
    Other,
}

/// A command, and what is kept of its run.
#[derive(Drop)]
pub struct Command {
    /// The words of the command.
    pub words: Vec<String>,
    /// Whether each step is told beside its answer.
    pub steps: bool,
    /// What was read.
    pub input: Seen,
    /// What was written.
    pub output: Seen,
}

/// Standard input that may be read once more.
pub trait ReadsAgain {
    /// What so many bytes of its beginning were found to be.
    ghost again: { Self → ℕ → List ℕ → Type 0 };

    /// So many bytes at most from its beginning; none where it can't be read, or memory runs out.
    fn read_again(&self, most: usize) -> Vec<u8>
        ensures { again self.now most result.items };
}

/// The name of the command, empty where there are no words.
pub fn command_name(words: &[String]) -> &str
    ensures { result.now ≡ name_of words.now }
{
    match words.first() {
        Some(name) => name.as_str(),
        None => "",
    }
}

/// Whether the words are those of a launch without a port.
pub(crate) fn lacks_port(words: &[String]) -> bool
    ensures { result ≡ lacks_port words.now }
{
    words.len() == 1 && command_name(words) == "launch"
}

/// Whether the words are those of one node.
pub fn is_node(words: &[String]) -> bool
    ensures { result ≡ is_node words.now }
{
    command_name(words) == "node"
}

/// Which command words are of.
#[tactic(auto, unfolding(crate::specs::Command::kind_of))]
pub(crate) fn kind_of(words: &[String]) -> CommandKind
    ensures { result ≡ kind_of (name_of words.now) }
{
    let name = command_name(words);
    if name == "check" {
        return CommandKind::Check;
    }
    if name == "launch" {
        return CommandKind::Launch;
    }
    if name == "world" {
        return CommandKind::World;
    }
    CommandKind::Other
}

/// Whether what was read is needed to tell of the run of this command with this last line: each
/// step, what nodes tell, or why words or a job are refused.
fn needs_input(steps: bool, kind: CommandKind, line: &[u8]) -> bool
    ensures { result ≡ needs_input steps kind line.now }
{
    match kind {
        CommandKind::Check | CommandKind::Launch => true,
        CommandKind::World | CommandKind::Other => steps || is_refusal(line_status(line)),
    }
}

impl Command {
    /// The command of these words, before its run. The steps of one node are never told.
    pub fn new(alloc: Global, words: Vec<String>, steps: bool, keeps: bool) -> Command
        ensures words { result.words ≡ words }
        ensures steps { result.steps ≡ (steps && not (is_node words.items)) }
        ensures input { result.input.bytes.items ≡ [] }
        ensures keeps { result.input.keeps ≡ keeps }
        ensures output { result.output.bytes.items ≡ [] }
        ensures whole { result.output.keeps ≡ true }
        ensures faults { (result.input.fault ≡ None) × (result.output.fault ≡ None) }
        ensures failures { (result.input.failed ≡ false) × (result.output.failed ≡ false) }
    {
        let steps = steps && !is_node(&words);
        Command {
            words,
            steps,
            input: Seen::new(alloc, keeps),
            output: Seen::new(alloc, true),
        }
    }

    /// Reads the beginning of the input again, where it wasn't kept and is needed to tell of the run.
    pub fn read_again<A: ReadsAgain>(&mut self, from: &A)
        ensures words { self.new.words ≡ self.old.words }
        ensures steps { self.new.steps ≡ self.old.steps }
        ensures output { self.new.output ≡ self.old.output }
        ensures input { IsReadAgain (A.again from.now) self.old self.new }
    {
        let (kind, line) = (kind_of(&self.words), last_line(&self.output.bytes));
        if !self.input.keeps && needs_input(self.steps, kind, line) {
            self.input.bytes = from.read_again(MOST_INPUT);
        }
    }
}

/// The words with that of a port behind them, where there is one, and memory for it.
fn with_word(alloc: Global, mut words: Vec<String>, port: Option<u16>) -> Vec<String>
    ensures { HasWord port words.items result.items }
{
    if let Some(port) = port {
        if let Ok(word) = port_word(alloc, port) {
            let _ = words.push(word);
        }
    }
    words
}

/// Takes ports that are free, and tells the first, or that none are.
fn take_ports<T: Tells, P: Ports>(alloc: Global, from: &P, to: &mut T) -> Option<FreePorts<P::Held>>
    ensures ports { ArePorts (P.holds from.now) result }
    ensures told { TellsPorts (T.told to.old) (T.told to.new) (option_map (λ p. p.port) result) }
{
    let ports = free_ports(from);
    let line = ports_line(alloc, port_of(&ports));
    tell_made(to, &line);
    ports
}

/// The words of a command, with a port that is free where they are those of a launch without one.
/// That port is told, or that none is free. Beside them what holds the ports.
pub fn with_port<T: Tells, P: Ports>(
    alloc: Global,
    words: Vec<String>,
    from: &P,
    to: &mut T,
) -> (Vec<String>, Option<FreePorts<P::Held>>)
    ensures words { HasWord (option_map (λ p. p.port) result.1) words.items result.0.items }
    ensures ports { MatchBool (lacks_port words.items) (ArePorts (P.holds from.now) result.1)
        (result.1 ≡ None) }
    ensures told { MatchBool (lacks_port words.items)
        (TellsPorts (T.told to.old) (T.told to.new) (option_map (λ p. p.port) result.1))
        (to.new ≡ to.old) }
{
    if !lacks_port(&words) {
        return (words, None);
    }
    let ports = take_ports(alloc, from, to);
    let port = port_of(&ports);
    (with_word(alloc, words, port), ports)
}
