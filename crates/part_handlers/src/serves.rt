//! Which messages a handler may run for.

ghost use Rattle.std.specs.Prelude.{◌≡◌};
ghost use Rattle.part_handlers.specs.Registered.{only, serves};

use crate::rules::Role;

/// Which messages a handler may run for.
///
/// What it may do while it runs is ruled by the message, not by this: a handler that may run for both sends a reply
/// where it runs for a request, and none where it runs for a reply.
#[derive(Clone, Copy, PartialEq, Eq, Debug)]
pub enum Serves {
    /// Requests alone.
    Requests,
    /// Replies alone.
    Replies,
    /// Requests and replies, as an entry of GASNet's own table, which doesn't say which.
    Both,
}

impl Serves {
    /// Messages of this role alone.
    pub fn only(role: Role) -> Serves
        ensures { result ≡ only role }
    {
        match role {
            Role::Request => Serves::Requests,
            Role::Reply => Serves::Replies,
        }
    }

    /// Whether messages of this role are among them.
    pub fn includes(self, role: Role) -> bool
        ensures { result ≡ serves self role }
    {
        match (self, role) {
            (Serves::Both, _)
            | (Serves::Requests, Role::Request)
            | (Serves::Replies, Role::Reply) => true,
            (Serves::Requests, Role::Reply) | (Serves::Replies, Role::Request) => false,
        }
    }
}
