//! The ports of a job's nodes.

ghost use Rattle.std.specs.Prelude.{◌≡◌};
ghost use Rattle.cli_commands.specs.Ports.{has_ports};

/// How many ports a host has.
const PORTS: u32 = 65_536;

/// Whether each of so many nodes has its port, where rank 0 has this one.
pub fn has_ports(port: u16, nodes: u16) -> bool
    ensures { result ≡ has_ports port nodes }
{
    u32::from(port) + u32::from(nodes) <= PORTS
}
