//! Help, the completion of the shell, and the page of the manual.

use crate::commands::{COMMANDS, CommandText, command_in, command_of};
use crate::tables::{as_one, fill, padded};
use crate::usage::parameter_of;
use std::alloc::{AllocError, Global};

/// What is told of the program's version.
static VERSION: &str = "\
gasnet_cli of Yuspelgna: GASNet 1.8.1, core and extended API, PARSYNC, over UDP datagrams
built by rattle-kit-13f, logic dac8208d650f15bf
Proved: what each exit status of a command says of the bytes that were read and written, and the \
laws of the run.
Trusted: the kit, LLVM, and the system's sockets, clock, input and output. docs/PROVED.md has the \
whole list.
";

/// What stands behind the commands in their help.
static HELP_END: &str = "    --version        what was built, and what is proved of it

`gasnet_cli help COMMAND` tells more of one. The last line of standard output is `status CODE NAME`,
and CODE is the exit status: of help 2, as of all words that no command has. docs/FORMATS.md has \
the rest.
";

/// The completion of bash: the names of commands, and behind `help` once more.
static COMPLETION: &str = "# The completion of gasnet_cli for bash, written by tools/help-pages.
_gasnet_cli() {
    local names=\"@ \"
    case $COMP_CWORD in
        1) COMPREPLY=($(compgen -W \"$names--help --version\" -- \"${COMP_WORDS[1]}\")) ;;
        2) [ \"${COMP_WORDS[1]}\" = help ] && COMPREPLY=($(compgen -W \"$names\" -- \
        \"${COMP_WORDS[2]}\")) ;;
    esac
}
complete -o default -F _gasnet_cli gasnet_cli
";

/// The beginning of the manual's page.
static MANUAL: &str = ".\\\" Written by tools/help-pages.
.TH GASNET_CLI 1
.SH NAME
gasnet_cli \\- GASNet active messages over lossy datagrams
.SH SYNOPSIS
";

/// Its end.
static MANUAL_END: &str = ".SH EXIT STATUS
The code in the last line of standard output, status CODE NAME. It is 2 of help, as of all words \
that no command has.
.SH SEE ALSO
docs/FORMATS.md, docs/JOBS.md and docs/NODES.md of Yuspelgna
";

/// What is told of one command.
fn help_of(alloc: Global, command: &CommandText) -> Result<String, AllocError> {
    let mut text = fill(
        alloc,
        "gasnet_cli @: @\n\n",
        &[command.usage, command.about],
        &[],
    )?;
    for word in command.usage.split(' ').skip(1) {
        let [_, name, expected] = parameter_of(word);
        let name = padded(alloc, name, 8)?;
        let line = fill(
            alloc,
            "    @ @\n",
            &as_one(name.as_str(), expected, "", ""),
            &[],
        )?;
        text.push_str(line.as_str())?;
    }
    let end = fill(
        alloc,
        "@\nExample: @\n",
        &[command.detail, command.example],
        &[],
    )?;
    text.push_str(end.as_str())?;
    Ok(text)
}

/// What is told of all commands.
fn help_of_all(alloc: Global) -> Result<String, AllocError> {
    let prefix = "gasnet_cli COMMAND: GASNet active messages over lossy datagrams\n\n";
    let mut text = String::from_str(alloc, prefix)?;
    for line in COMMANDS.lines() {
        let command = command_in(line);
        let usage = padded(alloc, command.usage, 16)?;
        let words = as_one(usage.as_str(), command.about, command.example, "");
        let line = fill(alloc, "    @ @\n                     @\n", &words, &[])?;
        text.push_str(line.as_str())?;
    }
    text.push_str(HELP_END)?;
    Ok(text)
}

/// Each command, its words in place of the `@` of a text.
fn each_command(alloc: Global, text: &mut String, told: &str) -> Result<(), AllocError> {
    for line in COMMANDS.lines() {
        let command = command_in(line);
        let words = [
            command.usage,
            command.about,
            command.detail,
            command.example,
        ];
        let one = fill(alloc, told, &words, &[])?;
        text.push_str(one.as_str())?;
    }
    Ok(())
}

/// The page of the manual.
fn manual(alloc: Global) -> Result<String, AllocError> {
    let mut text = String::from_str(alloc, MANUAL)?;
    each_command(alloc, &mut text, ".B gasnet_cli\n@\n.br\n")?;
    text.push_str(".SH COMMANDS\n")?;
    each_command(alloc, &mut text, ".TP\n.B @\n@.\n@\n.br\nExample:\n.I @\n")?;
    text.push_str(MANUAL_END)?;
    Ok(text)
}

/// The help that these two words ask for. Empty where they ask for none.
fn help_for_two(alloc: Global, first: &str, second: &str) -> Result<String, AllocError> {
    let mut name = "";
    if first == "help" {
        if second == "--bash" {
            let [names, _, _] = parameter_of("[COMMAND]");
            return fill(alloc, COMPLETION, &[names], &[]);
        }
        if second == "--man" {
            return manual(alloc);
        }
        name = second;
    } else if second == "--help" || second == "-h" {
        name = first;
    }
    let command = command_of(name);
    if command.usage.is_empty() {
        return Ok(String::new(alloc));
    }
    help_of(alloc, &command)
}

/// The help that the words of the command line ask for. Empty where they ask for none.
pub fn help_for(alloc: Global, words: &[String]) -> Result<String, AllocError> {
    if let [first, second] = words {
        return help_for_two(alloc, first.as_str(), second.as_str());
    }
    let word = match words {
        [word] => word.as_str(),
        _ => "",
    };
    if word == "help" || word == "--help" || word == "-h" {
        return help_of_all(alloc);
    }
    String::from_str(alloc, if word == "--version" { VERSION } else { "" })
}
