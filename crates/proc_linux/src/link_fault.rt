//! Why a link failed.

ghost use Rattle.std.specs.Prelude.{◌≡◌};
ghost use Rattle.std.specs.IoError.{error_kind, raw_os_error};
ghost use Rattle.proc_linux.specs.Faults.{bind_fault, call_fault};

use std::error::Error;
use std::io::ErrorKind;
use std::net::SocketAddr;
use std::{fmt, io};

/// Why a link failed, for a person.
#[derive(Clone, Copy, Debug, Drop)]
pub enum LinkFault {
    /// There aren't as many hosts as nodes, or a node has no port.
    NoAddress,
    /// Nobody reads standard output any more.
    Unread,
    /// The address couldn't be bound, by the system's error of this number.
    Bind(SocketAddr, i32),
    /// Another call of the system failed, by the error of this number; 0 where it told none.
    Other(i32),
}

impl fmt::Display for LinkFault {
    fn fmt<W: fmt::Write>(&self, f: &mut fmt::Formatter<W>) -> fmt::Result {
        match *self {
            LinkFault::NoAddress => write!(f, "a node has no host or no port"),
            LinkFault::Unread => write!(f, "nobody reads standard output any more"),
            LinkFault::Bind(address, code) => write!(f, "{address} can't be bound: error {code}"),
            LinkFault::Other(code) => write!(f, "the socket failed: error {code}"),
        }
    }
}

impl Error for LinkFault {}

impl LinkFault {
    /// Why the socket couldn't be bound to its own address, if it has one.
    pub(crate) fn of_bind(own: Option<SocketAddr>, error: &io::Error) -> LinkFault
        ensures { result ≡ bind_fault own (raw_os_error error.now) }
    {
        match (own, error.raw_os_error()) {
            (Some(address), Some(code)) => LinkFault::Bind(address, code),
            (_, Some(code)) => LinkFault::Other(code),
            _ => LinkFault::NoAddress,
        }
    }

    /// Why a datagram couldn't be sent or received.
    pub(crate) fn of_call(error: &io::Error) -> LinkFault
        ensures { result ≡ call_fault (error_kind error.now) (raw_os_error error.now) }
    {
        match error.raw_os_error() {
            Some(code) => LinkFault::Other(code),
            None if error.kind() == ErrorKind::BrokenPipe => LinkFault::Unread,
            None => LinkFault::Other(0),
        }
    }
}
