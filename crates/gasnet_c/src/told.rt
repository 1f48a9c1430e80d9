//! What an export tells C of an event.

ghost use Rattle.std.specs.Prelude.{◌≡◌, option_copied};
ghost use Rattle.gasnet_c.specs.Codes.{asked_code, barrier_code, begun_code, answer_code, delivered_code};
ghost use Rattle.gasnet_c.specs.Codes.{notified_code, slot_told, region_code, synced_code, ticked_code};
ghost use Rattle.gasnet_c.specs.Codes.{end_code, end_node, start_code, step_code, told_at, value_of};
ghost use Rattle.gasnet_c.specs.Telling.{IsCopied, IsDead, IsNumber, IsSent, IsToldToC, IsToldStep};

use node_collectives::{EndAnswer, StartAnswer, StepAnswer};
use node_core::{Asked, Delivered, SlotRef};
use node_endpoint::Endpoint;
use node_rules::{Answer, Begun, Region, Ticked};
use part_barrier::{BarrierAnswer, Notified};
use part_transfers::Synced;

/// What an event was answered, and the datagram that it sends: `gasnet_c_told`.
#[repr(C)]
#[derive(Clone, Copy, Drop)]
pub struct Told {
    /// The answer, by number: those of `gasnet_c.h`.
    pub code: u32,
    /// The node that the datagram is for; of an answer to a reply the node that replied. Else 0.
    pub to: u16,
    /// The slot that the datagram stands in; of an answer to a reply the slot of the request that is back. Else 0.
    pub slot: u16,
    /// How many bytes the datagram has, which are the first of the caller's buffer; 0 where none is sent.
    pub len: u64,
    /// The handle of the transfer or of the region; 0 where the answer has none.
    pub value: u64,
}

/// A handle is dead.
pub const DEAD: u32 = 99;

/// What a dead handle tells.
pub fn dead() -> Told
    ensures { IsDead result }
{
    Told {
        code: DEAD,
        to: 0,
        slot: 0,
        len: 0,
        value: 0,
    }
}

/// What tells a number and a node; no datagram is sent.
fn number(code: u32, to: u16) -> Told
    ensures { IsNumber code to result }
{
    Told {
        code,
        to,
        slot: 0,
        len: 0,
        value: 0,
    }
}

/// What an operation tells that isn't asked, or a collective that isn't started: a part of it is bad.
pub fn bad() -> Told
    ensures { IsNumber 5 0 result }
{
    number(5, 0)
}

/// The number of a request's answer.
fn asked_code(asked: &Asked) -> u32
    ensures { result ≡ asked_code asked.now }
{
    match asked {
        Asked::Accepted { .. } => 1,
        Asked::Ran => 2,
        Asked::NotYet => 3,
        Asked::Exhausted => 4,
        _ => 5,
    }
}

/// The number of a delivery's answer.
fn delivered_code(delivered: &Delivered) -> u32
    ensures { result ≡ delivered_code delivered.now }
{
    match delivered {
        Delivered::Ran(_) => 12,
        Delivered::Notified(_, _) => 13,
        Delivered::Duplicate(_) => 14,
        Delivered::Stale => 15,
        Delivered::Returned { .. } => 16,
        Delivered::Late => 17,
        Delivered::Deferred(_) => 18,
        Delivered::Refused(_) => 19,
    }
}

/// The number of a tick's answer.
fn ticked_code(ticked: &Ticked) -> u32
    ensures { result ≡ ticked_code ticked.now }
{
    match ticked {
        Ticked::Nothing => 20,
        Ticked::Retransmission(_) => 21,
        Ticked::Notification(_) => 24,
        Ticked::Chunk(_) => 25,
    }
}

/// The number of the answer to a transfer's beginning.
fn begun_code(begun: &Begun) -> u32
    ensures { result ≡ begun_code begun.now }
{
    match begun {
        Begun::Handle(_) => 6,
        Begun::Done => 7,
        Begun::TooMany => 8,
        Begun::BadArg(_) => 5,
    }
}

/// The number of the answer to a synchronisation.
fn synced_code(synced: &Synced) -> u32
    ensures { result ≡ synced_code synced.now }
{
    match synced {
        Synced::Ok => 9,
        Synced::NotReady => 10,
        Synced::Exhausted(_) => 4,
        _ => 5,
    }
}

/// The number of an answer on access regions.
fn region_code(region: &Region) -> u32
    ensures { result ≡ region_code region.now }
{
    match region {
        Region::Handle(_) => 6,
        Region::Begun | Region::Done => 7,
        _ => 5,
    }
}

/// The number of the answer to a notify.
fn notified_code(notified: &Notified) -> u32
    ensures { result ≡ notified_code notified.now }
{
    match notified {
        Notified::Ok => 9,
        _ => 5,
    }
}

/// The number of the answer to a try.
fn barrier_code(barrier: &BarrierAnswer) -> u32
    ensures { result ≡ barrier_code barrier.now }
{
    match barrier {
        BarrierAnswer::Ok => 9,
        BarrierAnswer::NotReady => 10,
        BarrierAnswer::Mismatch => 11,
        BarrierAnswer::Exhausted(_) => 4,
        _ => 5,
    }
}

/// The number of an answer.
fn code_of(answer: &Answer) -> u32
    ensures { result ≡ answer_code answer.now }
{
    match answer {
        Answer::Asked(asked) => asked_code(asked),
        Answer::Begun(begun) | Answer::Started(begun) => begun_code(begun),
        Answer::Synced(synced) => synced_code(synced),
        Answer::Region(region) => region_code(region),
        Answer::Notified(notified) => notified_code(notified),
        Answer::Barrier(barrier) => barrier_code(barrier),
        Answer::Delivered(delivered) => delivered_code(delivered),
        Answer::Ticked(ticked) => ticked_code(ticked),
        Answer::Forbidden(_) => 22,
        _ => 23,
    }
}

/// The handle of an answer, or 0.
fn value_of(answer: &Answer) -> u64
    ensures { result ≡ value_of answer.now }
{
    match answer {
        Answer::Begun(Begun::Handle(handle))
        | Answer::Started(Begun::Handle(handle))
        | Answer::Region(Region::Handle(handle)) => handle.serial,
        _ => 0,
    }
}

/// The slot that an answer is about: that of the datagram that is sent, or of the request that is back.
fn place_of(answer: &Answer) -> Option<SlotRef>
    ensures { result ≡ slot_told answer.now }
{
    match answer {
        Answer::Delivered(Delivered::Returned { to, slot, .. }) => {
            Some(SlotRef::of_request(*to, *slot))
        }
        _ => answer.sends(),
    }
}

/// The node and the slot that are told of a place; zeros of none.
fn told_at(place: Option<SlotRef>) -> (u16, u16)
    ensures { result ≡ told_at place }
{
    match place {
        Some(at) => (at.peer, at.slot),
        None => (0, 0),
    }
}

/// Copies a datagram into the buffer where there is one and it fits, and tells how many bytes it has; 0 where not.
fn copied(found: Option<&[u8]>, buffer: &mut [u8]) -> u64
    ensures { IsCopied (option_copied found.entry) result buffer.new }
{
    let Some(bytes) = found else {
        return 0;
    };
    if bytes.len() > buffer.len() {
        return 0;
    }
    buffer[..bytes.len()].copy_from_slice(bytes);
    bytes.len() as u64
}

/// Copies the datagram that the answer sends into the buffer, where it fits, and tells how many bytes it has.
pub fn sent(endpoint: &Endpoint, place: Option<SlotRef>, buffer: &mut [u8]) -> u64
    ensures { IsSent endpoint.now place result buffer.new }
{
    match place {
        Some(at) => copied(endpoint.message(at), buffer),
        None => 0,
    }
}

/// What C is told of an answer. The datagram that it sends is copied into the buffer, where it fits.
pub fn tell(endpoint: &Endpoint, answer: &Answer, buffer: &mut [u8]) -> Told
    ensures { IsToldToC endpoint.now answer.now result buffer.new }
{
    let (to, slot) = told_at(place_of(answer));
    let len = sent(endpoint, answer.sends(), buffer);
    Told {
        code: code_of(answer),
        to,
        slot,
        len,
        value: value_of(answer),
    }
}

/// What C is told of the start of a collective.
pub fn tell_start(answer: &StartAnswer) -> Told
    ensures { IsNumber (start_code answer.now) 0 result }
{
    let code = match answer {
        StartAnswer::Started => 9,
        StartAnswer::Busy | StartAnswer::BadArg(_) => 5,
        StartAnswer::Exhausted => 4,
        StartAnswer::Forbidden(_) => 22,
        StartAnswer::LockBusy(_) => 18,
        StartAnswer::NoMemory => 23,
    };
    number(code, 0)
}

/// The number of the answer to a step of a collective.
fn step_code(answer: &StepAnswer) -> u32
    ensures { result ≡ step_code answer.now }
{
    match answer {
        StepAnswer::Sent(_) => 1,
        StepAnswer::Nothing => 20,
        StepAnswer::Forbidden(_) => 22,
        StepAnswer::NoMemory => 23,
    }
}

/// What C is told of a step of a collective, whose last call sends the datagram of this slot. It is copied into the
/// buffer, where it fits.
pub fn tell_step(
    endpoint: &Endpoint,
    answer: &StepAnswer,
    sends: Option<SlotRef>,
    buffer: &mut [u8],
) -> Told
    ensures { IsToldStep endpoint.now answer.now sends result buffer.new }
{
    let (to, slot) = told_at(sends);
    let len = sent(endpoint, sends, buffer);
    Told {
        code: step_code(answer),
        to,
        slot,
        len,
        value: 0,
    }
}

/// What C is told of a try to end a collective.
pub fn tell_end(answer: &EndAnswer) -> Told
    ensures { IsNumber (end_code answer.now) (end_node answer.now) result }
{
    match answer {
        EndAnswer::Ended => number(9, 0),
        EndAnswer::Mismatch(node) => number(11, *node),
        EndAnswer::NotReady => number(10, 0),
        EndAnswer::NotStarted | EndAnswer::BadArg(_) => number(5, 0),
        EndAnswer::Exhausted(node) => number(4, *node),
        EndAnswer::Forbidden(_) => number(22, 0),
        EndAnswer::NoMemory => number(23, 0),
    }
}
