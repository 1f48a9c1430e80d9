//! The commands of the program. Help, the completion of the shell and the page of the manual are
//! made from this table.

use crate::tables::word_of;

/// The commands, in the order in which they are told. A line has the name with the words behind it,
/// those that may be left out in brackets, what the command does, what it reads and writes, and one
/// use of it.
///
/// What those words may be is said in the table of kinds. A new command's name goes there, too, and
/// into the text below.
pub static COMMANDS: &str = "\
world|runs the schedule of a job over all its nodes, in one process|\
It reads a job from standard input, and writes the answer of each line of its schedule and the \
lines of its nodes.|\
gasnet_cli world < examples/one_request.job
upgrade|writes a job as one of version 2|\
It reads a job from standard input, and writes the same job with messages of the second layout.|\
gasnet_cli upgrade < old.job > new.job
check|checks whether the traces of nodes are one run|\
It reads a job and behind it what each of its nodes wrote, and writes the answers of their steps \
and the lines of the \
nodes.|cat two.job node0.out node1.out | gasnet_cli check
launch [PORT]|runs each node of a job as a process, and checks their traces|\
It reads a job from standard input, and writes what check writes. The node of rank R has the UDP \
port PORT + R. \
Without PORT it takes ports that are free on this host, and tells the first.|gasnet_cli launch < \
examples/halo.job
node RANK PORT|runs one node of a job, and writes its trace|\
It reads a job from standard input, and runs the scripts of its node RANK over the UDP port PORT \
+ RANK.|\
gasnet_cli node 0 21000 < two.job > node0.out
drill SEED|runs a schedule made from a number, and counts the answers|\
It reads nothing. The same SEED gives the same bytes on each machine.|gasnet_cli drill 1
help [COMMAND]|tells the commands, or one of them|\
Help goes to standard error. Standard output has 'status 2 usage', and the exit status is \
2.|gasnet_cli help launch
";

/// The names of all commands.
pub static NAMES: &str = "world, upgrade, check, launch, node, drill, help";

/// What a person is told of a command.
#[derive(Clone, Copy)]
pub struct CommandText {
    /// Its name.
    pub name: &'static str,
    /// Its name and its words.
    pub usage: &'static str,
    /// What it does, in a line.
    pub about: &'static str,
    /// What it reads and writes.
    pub detail: &'static str,
    /// One use of it.
    pub example: &'static str,
}

/// The command that a line of the table says.
pub fn command_in(line: &'static str) -> CommandText {
    let mut fields = line.splitn(4, '|');
    let usage = fields.next().unwrap_or("");
    CommandText {
        name: word_of(usage, 0),
        usage,
        about: fields.next().unwrap_or(""),
        detail: fields.next().unwrap_or(""),
        example: fields.next().unwrap_or(""),
    }
}

/// The command of this name. One without a name where there is none.
pub fn command_of(name: &str) -> CommandText {
    for line in COMMANDS.lines() {
        let command = command_in(line);
        if command.name == name {
            return command;
        }
    }
    command_in("")
}
