//! A spawner of processes.

ghost use Rattle.std.specs.Prelude.{◌≡◌, ◌≤◌, ◌<◌, IfSome, slice_get, vec_len};
ghost use Rattle.std.specs.Process.{child_status};
ghost use Rattle.base_io.specs.Faults.{Rose};
ghost use Rattle.base_io.specs.Spawner.{AppendsOutput};
ghost use Rattle.proc_linux.specs.Children.{EndedWith, HandsOn};
ghost use Rattle.proc_linux.specs.Ends.{first_unstarted};

use crate::child_command::child_command;
use crate::child_ends::{ChildEnd, ChildEnds};
use crate::drain::{Drained, drain};
use crate::feed::feed;
use crate::kept_file::kept_path;
use base_io::{Finished, Spawner, Started};
use std::alloc::Global;
use std::io::ErrorKind;
use std::process::{Child, ExitStatus, OpenProcess, Processes, SystemProcess};
use std::rt::Files;
use std::thread::{JoinHandle, Threads};
use std::{env, fs, io, thread};

/// A spawner that starts a program once for each rank, with the words `node RANK PORT` and the bytes on its standard
/// input.
///
/// Each child's output is read while it runs, by a thread of its own, so that no child waits for the end of another
/// before it can write on.
///
/// Where it was given a folder it keeps what each child wrote there as `RANK.out`, and how it ended as `RANK.end`: a
/// line `exit status: CODE` or `signal: NUMBER (NAME)`. It makes the folder where there is none. A file that can't be written is left out, which is no fault.
/// So are the files of a child whose output couldn't be read to its end.
///
/// A child that ends before it has read all its input is no fault: its end tells why. A start of a rank whose child
/// runs, a finish of a rank without a child, an output over the limit and an end by a signal are faults, and so is each
/// other error of the system. It tells nothing of its children.
#[derive(Drop)]
pub struct ProcessSpawner<'a, R: Processes> {
    rt: R,
    alloc: Global,
    program: String,
    folder: Option<String>,
    /// Where it keeps how its children ended.
    ends: &'a ChildEnds,
    children: Vec<Running<R::Started>>,
    faults: u64,
    /// The rank of the first child that couldn't be started, with the system's number of the error.
    unstarted: Option<(u16, i32)>,
}

/// A child that was started, with the thread that reads its output.
#[derive(Drop)]
struct Running<P: OpenProcess> {
    rank: u16,
    child: Child<P>,
    output: JoinHandle<Drained>,
}

/// The path of the program that runs, or an empty text where it can't be had.
fn own_path<R: Files + AllocGlobal>(rt: &R) -> String {
    match env::current_exe(rt) {
        Ok(path) => path.into_string(),
        Err(_) => String::new(rt.alloc()),
    }
}

impl<'a, R: Processes + Files + AllocGlobal> ProcessSpawner<'a, R> {
    /// A spawner of the program that runs. Where the system can't tell its path each start is a fault.
    pub fn of_own_program(rt: R, ends: &'a ChildEnds) -> ProcessSpawner<'a, R> {
        let alloc = rt.alloc();
        let program = own_path(&rt);
        ProcessSpawner::new(rt, alloc, program, ends)
    }
}

impl<'a, R: Processes> ProcessSpawner<'a, R> {
    /// A spawner of the program with this path, or of the one that the system finds by this name. How its children end is
    /// kept there.
    pub fn new(
        rt: R,
        alloc: Global,
        program: String,
        ends: &'a ChildEnds,
    ) -> ProcessSpawner<'a, R> {
        ProcessSpawner {
            rt,
            alloc,
            program,
            folder: None,
            ends,
            children: Vec::new(alloc),
            faults: 0,
            unstarted: None,
        }
    }

    /// Gives it a folder for the files of its children.
    pub fn keep_in(&mut self, folder: String) {
        self.folder = Some(folder);
    }

    /// The first child that couldn't be started, with the system's number of the error, where it has one.
    pub fn unstarted(&self) -> Option<(u16, i32)> {
        self.unstarted
    }

    /// The place of the child of a rank.
    fn place(&self, rank: u16) -> Option<usize>
        ensures within { IfSome result (λ place. place < vec_len self.now.children) }
        ensures of_rank { IfSome result (λ place. IfSome
            (slice_get self.now.children.items place) (λ child. child.rank ≡ rank)) }
    {
        self.children
            .iter()
            .position(|running| running.rank == rank)
    }

    /// Takes the child of a rank out of those that run. None where there is none.
    fn take_child(&mut self, rank: u16) -> Option<Running<R::Started>>
        ensures of_rank { IfSome result (λ child. child.rank ≡ rank) }
        ensures same_faults { self.new.faults ≡ self.old.faults }
    {
        let place = self.place(rank)?;
        Some(self.children.swap_remove(place))
    }

    /// Starts the program.
    fn spawn(&self, rank: u16, port: u16) -> io::Result<Child<R::Started>> {
        child_command(self.alloc, self.program.as_str(), rank, port)?.spawn(&self.rt)
    }
}

impl<R: Processes<Started = SystemProcess> + Threads> ProcessSpawner<'_, R> {
    /// Starts the child of a rank, begins to read its output, and gives it its input.
    fn try_start(&mut self, rank: u16, port: u16, input: &[u8]) -> io::Result<()>
        ensures { self.new.faults ≡ self.old.faults }
    {
        if self.place(rank).is_some() {
            return Err(io::Error::from(ErrorKind::AlreadyExists));
        }
        self.children.reserve(1)?;
        let mut child = self.spawn(rank, port)?;
        match self.begin(&mut child, input) {
            Ok(output) => {
                self.children.push_reserved(Running {
                    rank,
                    child,
                    output,
                });
                Ok(())
            }
            Err(error) => {
                stop(&mut child);
                Err(error)
            }
        }
    }

    /// Starts the thread that reads a child's output, and gives the child its input.
    fn begin(
        &self,
        child: &mut Child<R::Started>,
        input: &[u8],
    ) -> io::Result<JoinHandle<Drained>> {
        let (Some(mut into), Some(from)) = (child.stdin.take(), child.stdout.take()) else {
            return Err(io::Error::from(ErrorKind::BrokenPipe));
        };
        let alloc = self.alloc;
        let output = thread::spawn(&self.rt, move || drain(alloc, from))?;
        feed(&mut into, input)?;
        Ok(output)
    }
}

/// The first child that couldn't be started, with the system's number of the error, once the one of this rank couldn't.
fn first_unstarted(before: Option<(u16, i32)>, rank: u16, code: Option<i32>) -> Option<(u16, i32)>
    ensures { result ≡ first_unstarted before rank code }
{
    match (before, code) {
        (None, Some(code)) => Some((rank, code)),
        (before, _) => before,
    }
}

/// Ends a child at once. One that can't be ended is left alone.
fn stop<P: OpenProcess>(child: &mut Child<P>) {
    if child.kill().is_ok() {
        let _ = child.wait();
    }
}

impl<R: Processes<Started = SystemProcess> + Files + Threads> ProcessSpawner<'_, R> {
    /// Waits until a child ends, and appends its output.
    fn end(&self, running: Running<R::Started>, into: &mut Vec<u8>) -> Finished
        ensures { AppendsOutput result into.old.items into.new.items }
    {
        let Running {
            rank,
            mut child,
            output,
        } = running;
        self.hand_on(rank, &mut child, output.join(&self.rt), into)
    }

    /// Hands on what a child gave: appends its output, and answers its exit status, for which it waits.
    fn hand_on(
        &self,
        rank: u16,
        child: &mut Child<R::Started>,
        drained: Drained,
        into: &mut Vec<u8>,
    ) -> Finished
        ensures hands_on { HandsOn drained (child_status child.new) result
            into.old.items into.new.items }
        ensures within { AppendsOutput result into.old.items into.new.items }
    {
        let output = match drained {
            Drained::Bytes(output) => output.into_bytes(),
            Drained::NoMemory => {
                self.ends.keep(rank, ChildEnd::Lost);
                stop(child);
                return Finished::NoMemory;
            }
            Drained::Fault => {
                self.ends.keep(rank, ChildEnd::Lost);
                stop(child);
                return Finished::Failed;
            }
        };
        let Some(status) = self.status_of(rank, child, &output) else {
            return Finished::Failed;
        };
        if into.extend_from_slice(&output).is_err() {
            return Finished::NoMemory;
        }
        Finished::Ended(status)
    }

    /// Waits for a child's exit status, and keeps it, with its files. None where the status can't be had, or a signal ended the
    /// child.
    fn status_of(&self, rank: u16, child: &mut Child<R::Started>, output: &[u8]) -> Option<u8>
        ensures { IfSome result (EndedWith (child_status child.new)) }
    {
        let status = child.wait().ok()?;
        self.ends.keep(rank, ChildEnd::Ended(status));
        if let Some(folder) = &self.folder {
            let _ = self.keep(folder.as_str(), rank, output, status);
        }
        u8::try_from(status.code()?).ok()
    }

    /// Keeps the files of a child.
    fn keep(&self, folder: &str, rank: u16, output: &[u8], status: ExitStatus) -> io::Result<()> {
        fs::create_dir_all(&self.rt, folder)?;
        let path = kept_path(self.alloc, folder, rank, "out")?;
        fs::write(&self.rt, path.as_str(), output)?;
        let path = kept_path(self.alloc, folder, rank, "end")?;
        let text = format!(in self.alloc; "{status}\n")?;
        fs::write(&self.rt, path.as_str(), text.as_bytes())
    }
}

impl<R: Processes<Started = SystemProcess> + Files + Threads> Spawner for ProcessSpawner<'_, R> {
    ghost use Rattle.std.specs.Prelude.{None};

    ghost told = { λ _. None };

    ghost faults = { λ s. s.faults };

    /// Starts the program with the words `node RANK PORT`, and a thread that reads its output; then it gives its input
    /// to its pipe, and waits until the pipe took all of it, or the child ended before.
    fn start(&mut self, rank: u16, port: u16, input: &[u8]) -> Started {
        if let Err(error) = self.try_start(rank, port, input) {
            self.ends.keep(rank, ChildEnd::Unstarted);
            self.unstarted = first_unstarted(self.unstarted, rank, error.raw_os_error());
            self.faults = self.faults.saturating_add(1);
            return Started::Failed;
        }
        Started::Started
    }

    /// Waits until the child's output was read to its end, and then for its exit status. Where that fails the child is
    /// ended, if the system does so.
    fn finish(&mut self, rank: u16, into: &mut Vec<u8>) -> Finished {
        let end = match self.take_child(rank) {
            Some(running) => self.end(running, into),
            None => Finished::Failed,
        };
        if end == Finished::Failed {
            self.faults = self.faults.saturating_add(1);
        }
        end
    }
}
