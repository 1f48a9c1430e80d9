//! A waiter that watches a link's socket, and whether standard output is still read.

ghost use Rattle.std.specs.Prelude.{◌≡◌};
ghost use Rattle.mio.specs.Events.{items};
ghost use Rattle.proc_linux.specs.Waits.{TellUnread, rest_before};

use crate::link_socket::LinkSocket;
use base_io::Waiter;
use mio::unix::SourceFd;
use mio::{Events, Interest, Poll, Token};
use std::alloc::Global;
use std::io::ErrorKind;
use std::net::Net;
use std::os::fd::AsRawFd;
use std::sync::Mutex;
use std::sync::atomic::{AtomicU64, Ordering};
use std::time::{Clock, Duration};
use std::{io, thread};

/// The milliseconds of a pause, at most.
const PAUSE: u64 = 1;

/// What stands for standard output among the events.
const OUTPUT: Token = Token(1);

/// The descriptor of standard output.
const STDOUT: i32 = 1;

/// Of so many turns that weren't quiet one looks at the events, without a pause.
const LOOK: u64 = 1_024;

/// What a thread does before a turn.
#[derive(Clone, Copy)]
enum Rest {
    /// It begins at once.
    Go,
    /// It looks at the events, without a pause.
    Look,
    /// It pauses.
    Pause,
}

/// What a thread does before a turn, after one that was quiet or not; `busy` counts those before it that weren't.
fn rest_before(quiet: bool, busy: u64) -> Rest
    ensures { result ≡ rest_before quiet busy }
{
    if quiet {
        Rest::Pause
    } else if busy % LOOK == LOOK - 1 {
        Rest::Look
    } else {
        Rest::Go
    }
}

/// Whether the events tell that nobody reads standard output any more.
fn tells_unread(events: &Events) -> bool
    ensures { TellUnread (items events.now) result }
{
    events
        .iter()
        .any(|event| event.token() == OUTPUT && event.is_write_closed())
}

/// A waiter that, after a quiet turn, pauses until a datagram waits at a link's socket, and about a millisecond at most.
///
/// A turn that wasn't quiet is followed by the next at once. Where several threads pause, one of them watches the
/// socket, and the others pause for the whole millisecond.
///
/// It watches standard output too. Where that is a pipe, a terminal or a socket whose other end was closed, the waiter
/// notes it at the link's socket, and the link fails from then on: so a node ends soon after its parent did. A file
/// has no other end.
#[derive(Drop)]
pub struct SocketWaiter<'a, R: Net + Clock> {
    rt: R,
    alloc: Global,
    socket: &'a LinkSocket,
    watch: Mutex<Option<Watch>>,
    busy: AtomicU64,
}

/// A watch of one socket.
#[derive(Drop)]
struct Watch {
    poll: Poll,
    events: Events,
}

impl<'a, R: Net + Clock> SocketWaiter<'a, R> {
    /// The waiter that watches this socket, once there is one.
    pub fn new(rt: R, alloc: Global, socket: &'a LinkSocket) -> SocketWaiter<'a, R> {
        SocketWaiter {
            rt,
            alloc,
            socket,
            watch: Mutex::new(None),
            busy: AtomicU64::new(0),
        }
    }

    /// Waits until a datagram waits, and for one pause at most. An error where another thread watches, or the system
    /// can't.
    fn wait(&self, pause: u64) -> io::Result<()> {
        let Some(mut watch) = self.watch.try_lock() else {
            return Err(io::Error::from(ErrorKind::WouldBlock));
        };
        if watch.is_none() {
            *watch = Some(self.begin()?);
        }
        match &mut *watch {
            Some(Watch { poll, events }) => {
                poll.poll(events, Some(Duration::from_millis(pause)))?;
                if tells_unread(events) {
                    self.socket.orphan();
                }
                Ok(())
            }
            None => Ok(()),
        }
    }

    /// Begins to watch the socket.
    fn begin(&self) -> io::Result<Watch> {
        let Some(socket) = self.socket.get() else {
            return Err(io::Error::from(ErrorKind::NotConnected));
        };
        let events = Events::with_capacity(self.alloc, 2)?;
        let poll = Poll::new(&self.rt)?;
        let socket = socket.as_raw_fd();
        poll.registry()
            .register(&mut SourceFd(&socket), Token(0), Interest::READABLE)?;
        // The system refuses to watch a file.
        let _ = poll
            .registry()
            .register(&mut SourceFd(&STDOUT), OUTPUT, Interest::READABLE);
        Ok(Watch { poll, events })
    }
}

impl<R: Net + Clock> Waiter for SocketWaiter<'_, R> {
    /// Pauses after a quiet turn.
    fn before_turn(&self, _thread: u16, quiet: bool) {
        let busy = if quiet {
            0
        } else {
            self.busy.fetch_add(1, Ordering::SeqCst)
        };
        match rest_before(quiet, busy) {
            Rest::Go => {}
            Rest::Look => {
                let _ = self.wait(0);
            }
            Rest::Pause => {
                if self.wait(PAUSE).is_err() {
                    thread::sleep(&self.rt, Duration::from_millis(PAUSE));
                }
            }
        }
    }
}
