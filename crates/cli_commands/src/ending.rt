//! How a command ends.

ghost use Rattle.std.specs.Prelude.{◌≡◌};
ghost use Rattle.cli_commands.specs.Commands.{code_of, end_of, why_word};
ghost use Rattle.cli_commands.specs.HowEnds.{node_given, nodes_given, nothing, world_given};
ghost use Rattle.cli_commands.specs.TopParts.{cut_short};

use base_text::LineWhy;
use node_endpoint::Endpoint;
use sim_world::World;

/// How a command ends.
#[derive(Clone, Copy)]
pub enum CommandEnd {
    /// The run came to its end, and no node noted a violation; or the job was written with datagrams of version 2.
    Done,
    /// The run came to its end, and a node noted a violation.
    Violations,
    /// The words are those of no command; or, of `node`, the rank is no node of the job; or, of `node` and `launch`,
    /// not each node has a port.
    Usage,
    /// The bytes read are no job's text, or too many; of `check`, no job's text with an output of each node behind it.
    BadJob {
        /// The first bad line, counted from 1; 0 where there are too many bytes.
        line: u32,
        /// The first reason that applies to it.
        why: LineWhy,
    },
    /// The source failed.
    ReadFault,
    /// The sink failed.
    WriteFault,
    /// The link failed.
    LinkFault,
    /// The spawner failed.
    SpawnFault,
    /// Memory ran out.
    NoMemory,
    /// A node was quiet for so many turns in a row as the job's patience says, and some script isn't over.
    Stuck,
    /// A node's journal is full.
    JournalFull,
    /// The traces are no run.
    NotARun {
        /// The smallest node whose next entry can't ever go.
        node: u16,
        /// That entry, counted from 1.
        entry: u32,
    },
    /// Of `check`, a node ended with a status other than 0 and 1; of `launch`, the child of a node ended so, or gave
    /// something else than an output of its node with the status that it ended with.
    Child {
        /// The smallest rank of such a node.
        rank: u16,
        /// Of `check`, the status in its output; of `launch`, the exit status of its child, which may be 0 or 1 too.
        code: u8,
    },
}

impl CommandEnd {
    /// The end of a run that came to its end.
    pub fn of_run(violated: bool) -> CommandEnd
        ensures { result ≡ end_of violated }
    {
        if violated {
            CommandEnd::Violations
        } else {
            CommandEnd::Done
        }
    }

    /// Its exit status.
    pub fn code(self) -> u8
        ensures { result ≡ code_of self }
    {
        match self {
            CommandEnd::Done => 0,
            CommandEnd::Violations => 1,
            CommandEnd::Usage => 2,
            CommandEnd::BadJob { .. } => 3,
            CommandEnd::ReadFault => 4,
            CommandEnd::WriteFault => 5,
            CommandEnd::LinkFault => 6,
            CommandEnd::SpawnFault => 7,
            CommandEnd::NoMemory => 8,
            CommandEnd::Stuck => 9,
            CommandEnd::JournalFull => 10,
            CommandEnd::NotARun { .. } => 11,
            CommandEnd::Child { .. } => 12,
        }
    }
}

/// What a command gives its caller besides its end.
#[derive(Drop)]
pub struct Given {
    /// The world after a run in a world; there is one after `Done` and `Violations` alone.
    pub world: Option<World>,
    /// The node after a run as a process; there is one after `Done`, `Violations`, `LinkFault`, `Stuck` and
    /// `JournalFull` alone.
    pub node: Option<Endpoint>,
    /// The nodes after a run of traces, in rising order of ranks; there are such after `Done` and `Violations` alone.
    pub nodes: Option<Vec<Endpoint>>,
}

impl Given {
    /// Nothing.
    pub fn nothing() -> Given
        ensures { result ≡ nothing }
    {
        Given {
            world: None,
            node: None,
            nodes: None,
        }
    }

    /// This world.
    pub fn world(world: World) -> Given
        ensures { result ≡ world_given world }
    {
        Given {
            world: Some(world),
            node: None,
            nodes: None,
        }
    }

    /// This node, where there is one.
    pub fn node(node: Option<Endpoint>) -> Given
        ensures { result ≡ node_given node }
    {
        Given {
            world: None,
            node,
            nodes: None,
        }
    }

    /// These nodes.
    pub fn nodes(nodes: Vec<Endpoint>) -> Given
        ensures { result ≡ nodes_given nodes }
    {
        Given {
            world: None,
            node: None,
            nodes: Some(nodes),
        }
    }
}

/// How a command ended, and what it gives.
#[derive(Drop)]
pub struct EndedCommand {
    pub end: CommandEnd,
    pub given: Given,
}

impl EndedCommand {
    /// The sink failed.
    pub fn cut() -> EndedCommand
        ensures { result ≡ cut_short }
    {
        EndedCommand {
            end: CommandEnd::WriteFault,
            given: Given::nothing(),
        }
    }
}

/// The word of a reason why bytes are no job's text.
pub fn why_word(why: LineWhy) -> &'static [u8]
    ensures { result.now ≡ why_word why }
{
    match why {
        LineWhy::Size => b"size",
        LineWhy::Text => b"text",
        LineWhy::Form => b"form",
        LineWhy::Value => b"value",
        LineWhy::Entry => b"entry",
        LineWhy::Count => b"count",
        LineWhy::Early => b"early",
        LineWhy::After => b"after",
    }
}
