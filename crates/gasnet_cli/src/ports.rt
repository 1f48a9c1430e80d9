//! The ports of this host.

use cli_report::Ports;
use std::net::{IpAddr, Ipv4Addr, Net, SocketAddr, UdpSocket};
use std::rt::Clock;
use std::time::{SystemTime, UNIX_EPOCH};

/// The ports of all addresses of this host. Which are free isn't told.
#[derive(Drop)]
pub struct SystemPorts<'a, R> {
    rt: &'a R,
}

impl<'a, R: Net + Clock> SystemPorts<'a, R> {
    /// Those of this handle.
    pub fn new(rt: &'a R) -> SystemPorts<'a, R> {
        SystemPorts { rt }
    }

    /// The microseconds of the present second.
    fn micros(&self) -> Option<u32> {
        let since = SystemTime::now(self.rt).ok()?.duration_since(UNIX_EPOCH);
        Some(since.ok()?.subsec_micros())
    }
}

impl<R: Net + Clock> Ports for SystemPorts<'_, R> {
    type Held = UdpSocket;

    ghost holds = { λ _ _ _. Unit {0} };

    fn hold(&self, port: u16) -> Option<UdpSocket> {
        let any = SocketAddr::new(IpAddr::V4(Ipv4Addr::UNSPECIFIED), port);
        UdpSocket::bind(self.rt, any).ok()
    }

    fn number(&self) -> u32 {
        self.micros().unwrap_or(0)
    }
}
