//! Where a station receives.

ghost use Rattle.std.specs.Prelude.{◌≡◌, IfOk, true};
ghost use Rattle.proc_runner.specs.Asked.{AsksFor};

use base_io::{Link, MAX_DATAGRAM, Received};
use std::alloc::{AllocError, Global};
use std::marker::Model;

// The bytes of a receive buffer, one more than the longest datagram has.
const ROOM: usize = MAX_DATAGRAM + 1;

// What a link gave as it was asked.
pub enum Asked {
    // No datagram.
    Nothing,
    // A datagram, in an allocation of its own size.
    Datagram(Vec<u8>),
    // It failed.
    Fault,
}

// The buffer that the link writes into, and room for the copy of one datagram, unless one has taken it. Contracts see
// whether the room is there.
#[derive(Drop)]
pub struct Inbox {
    buffer: Vec<u8>,
    room: Option<Vec<u8>>,
}

impl Model for Inbox {
    ghost use Rattle.std.specs.Prelude.{Bool, ◌≡◌, ◌≤◌, [], is_some, vec_len, vec_capacity};
    ghost use Rattle.std.specs.Option.{ForSome};
    ghost use Rattle.proc_runner.specs.Facts.{receive_limit};

    ghost Value = { Bool };

    ghost view = { λ i. is_some i.room };

    ghost invariant = { λ i. (vec_len i.buffer ≡ receive_limit)
        × ForSome i.room (λ room. (room.items ≡ []) × (receive_limit ≤ vec_capacity room)) };
}

impl Inbox {
    // An inbox, with no room yet.
    pub fn new(alloc: Global) -> Result<Inbox, AllocError> {
        Ok(Inbox {
            buffer: vec![in alloc; 0u8; ROOM]?,
            room: None,
        })
    }

    // Takes room for one datagram, where it is needed and there is none.
    pub fn make_room(&mut self, alloc: Global, polls: bool) -> Result<(), AllocError>
        ensures { IfOk result (λ _. polls ≡ true → self.new ≡ true) }
    {
        if polls && self.room.is_none() {
            self.room = Some(Vec::with_capacity(alloc, ROOM)?);
        }
        Ok(())
    }

    // Asks the link for one datagram, for a thread that polls. The datagram takes of the room what it needs.
    pub fn ask<L: Link>(&mut self, link: &mut L, polls: bool) -> Asked
        requires { polls ≡ true → self.old ≡ true }
        ensures { AsksFor L.Link polls link.old result link.new }
    {
        if !polls {
            return Asked::Nothing;
        }
        match link.receive(self.buffer.as_mut_slice()) {
            Received::Got(n) => {
                let Some(mut bytes) = self.room.take() else {
                    unreachable!()
                };
                let Ok(()) = bytes.extend_from_slice(&self.buffer[..n]) else {
                    unreachable!()
                };
                bytes.shrink_to_fit();
                Asked::Datagram(bytes)
            }
            Received::Empty => Asked::Nothing,
            Received::Failed => Asked::Fault,
        }
    }
}
