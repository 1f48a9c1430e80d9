//! The requests of a pair of nodes: where each stands, and what became of it.

ghost use Rattle.std.specs.Prelude.{◌≡◌, ◌≤◌, ◌<◌, suc, ◌++◌, ◌∷◌, OnOk, length, [], IfSome};
ghost use Rattle.std.specs.Prelude.{slice_get};
ghost use Rattle.spec_node.specs.Record.{element_at};
ghost use Rattle.sim_world.specs.Exchanges.{leading_back, new_exchange, with_ran, with_returned};

use std::alloc::{AllocError, Global};
use std::marker::Model;

/// A request that was sent. Its message stands in its slot at its node until it is back, and the
/// reply in the slot of the same number at the other node.
#[derive(Clone, Copy)]
pub struct Exchange {
    /// The slot of its pair.
    pub slot: u16,
    /// Whether it ran.
    pub ran: bool,
    /// Whether its credit came back.
    pub back: bool,
}

/// The exchanges of an ordered pair of nodes: that of request 1 first.
#[derive(Drop)]
pub struct Exchanges {
    list: Vec<Exchange>,
    // The lowest number of a request that isn't back; where all are back, the number after the last.
    first_out: u64,
}

impl Model for Exchanges {
    ghost use Rattle.std.specs.Prelude.{◌≡◌, ◌-◌, suc, vec_len, vec_capacity};
    ghost use Rattle.sim_world.specs.ExchangesState.{ExchangesState};
    ghost use Rattle.sim_world.specs.Exchanges.{leading_back};

    ghost Value = { ExchangesState };

    ghost view = { λ e. record {
      list = e.list.items;
      room = vec_capacity e.list - vec_len e.list;
    } };

    ghost invariant = { λ e. e.first_out ≡ suc (leading_back e.list.items) };
}

impl Exchanges {
    /// No request.
    pub fn new(alloc: Global) -> Exchanges
        ensures { result.list ≡ [] }
    {
        Exchanges {
            list: Vec::new(alloc),
            first_out: 1,
        }
    }

    /// Makes room for one more.
    pub fn make_room(&mut self) -> Result<(), AllocError>
        ensures list { self.new.list ≡ self.old.list }
        ensures room { OnOk result (1 ≤ self.new.room) }
    {
        self.list.reserve(1)
    }

    /// Adds the next request, for which there is room.
    pub fn add(&mut self, slot: u16)
        requires { 1 ≤ self.old.room }
        ensures { self.new.list ≡ self.old.list ++ new_exchange slot ∷ [] }
    {
        self.list.push_reserved(Exchange {
            slot,
            ran: false,
            back: false,
        });
    }

    /// The exchange of the request with that number, counted from 1.
    pub fn get(&self, number: u64) -> Option<Exchange>
        ensures { result ≡ element_at self.now.list number }
    {
        let place = number.checked_sub(1)?;
        if place >= self.list.len() as u64 {
            return None;
        }
        Some(self.list[place as usize])
    }

    /// Records that the request with that number, which is there, ran.
    pub fn set_ran(&mut self, number: u64)
        requires first { 1 ≤ number }
        requires last { number ≤ length self.old.list }
        ensures { self.new.list ≡ with_ran self.old.list number }
    {
        self.list[(number - 1) as usize].ran = true;
    }

    /// Records that the request with that number, which is there, is back.
    pub fn set_back(&mut self, number: u64)
        requires first { 1 ≤ number }
        requires last { number ≤ length self.old.list }
        ensures { self.new.list ≡ with_returned self.old.list number }
    {
        self.list[(number - 1) as usize].back = true;
        self.first_out = first_out_from(&self.list, self.first_out);
    }

    /// The lowest number of a request that isn't back; where all are back, the number after the last.
    pub fn first_out(&self) -> u64
        ensures { result ≡ suc (leading_back self.now.list) }
    {
        self.first_out
    }

    /// How many requests there are.
    pub fn len(&self) -> usize
        ensures { result ≡ length self.now.list }
    {
        self.list.len()
    }
}

/// The lowest number of a request that isn't back, where no lower one than `known` is out. It looks
/// at none of those.
fn first_out_from(list: &[Exchange], known: u64) -> u64
    requires first { 1 ≤ known }
    requires last { known ≤ suc (leading_back list.now) }
    ensures { result ≡ suc (leading_back list.now) }
{
    for place in (known - 1) as usize..list.len() {
        if !list[place].back {
            return place as u64 + 1;
        }
    }
    (list.len() + 1) as u64
}
