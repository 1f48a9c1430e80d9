//! Kinds of calls, of implicit operations and of collectives, roles, and operations of remote atomics, as words of a
//! line. Reading and printing have these words from here.

ghost use Rattle.text_calls.specs.Forms.{Collective, Implicit, Kind, Operation, Role as RolePart};
ghost use Rattle.text_calls.specs.Forms.{part_at};
ghost use Rattle.text_calls.specs.Names.{named_at};
ghost use Rattle.base_text.specs.Found.{Finds};

use crate::names::{HasName, first_named};
use base_text::{Other, name_of, spaced};
use node_atomics::Op;
use part_collective_area::CollectiveKind;
use part_handlers::{CallKind, Role};
use part_transfers::ImplicitKinds;

/// The kinds of calls that have a word, in the order in which it is looked up.
const NAMED_KINDS: [CallKind; 8] = [
    CallKind::Request,
    CallKind::Reply,
    CallKind::Poll,
    CallKind::Transfer,
    CallKind::Sync,
    CallKind::Region,
    CallKind::Barrier,
    CallKind::Source,
];

/// The roles.
const ALL_ROLES: [Role; 2] = [Role::Request, Role::Reply];

/// The implicit operations.
const ALL_IMPLICIT: [ImplicitKinds; 3] = [
    ImplicitKinds::Puts,
    ImplicitKinds::Gets,
    ImplicitKinds::All,
];

/// The operations of remote atomics.
const ALL_OPS: [Op; 10] = [
    Op::Get,
    Op::Swap,
    Op::CompareSwap,
    Op::Add,
    Op::Sub,
    Op::And,
    Op::Or,
    Op::Xor,
    Op::Min,
    Op::Max,
];

/// The kinds of collectives.
const ALL_COLLECTIVES: [CollectiveKind; 9] = [
    CollectiveKind::Broadcast,
    CollectiveKind::Gather,
    CollectiveKind::AllGather,
    CollectiveKind::Sum,
    CollectiveKind::Min,
    CollectiveKind::Max,
    CollectiveKind::AllSum,
    CollectiveKind::AllMin,
    CollectiveKind::AllMax,
];

impl HasName for CallKind {
    ghost use Rattle.text_calls.specs.Kinds.{kind_word};

    ghost name_of = { kind_word };

    fn name(self) -> &'static [u8] {
        match self {
            CallKind::Request => b"request",
            CallKind::Reply => b"reply",
            CallKind::Poll => b"poll",
            CallKind::Transfer => b"transfer",
            CallKind::Sync => b"sync",
            CallKind::Region => b"region",
            CallKind::Barrier => b"barrier",
            CallKind::Source => b"source",
            CallKind::Lock | CallKind::Unlock | CallKind::Return => b"",
        }
    }
}

impl HasName for Role {
    ghost use Rattle.text_calls.specs.Kinds.{role_word};

    ghost name_of = { role_word };

    fn name(self) -> &'static [u8] {
        match self {
            Role::Request => b"request",
            Role::Reply => b"reply",
        }
    }
}

impl HasName for ImplicitKinds {
    ghost use Rattle.text_calls.specs.Kinds.{implicit_word};

    ghost name_of = { implicit_word };

    fn name(self) -> &'static [u8] {
        match self {
            ImplicitKinds::Puts => b"puts",
            ImplicitKinds::Gets => b"gets",
            ImplicitKinds::All => b"all",
        }
    }
}

impl HasName for Op {
    ghost use Rattle.text_calls.specs.Kinds.{op_word};

    ghost name_of = { op_word };

    fn name(self) -> &'static [u8] {
        match self {
            Op::Get => b"get",
            Op::Swap => b"swap",
            Op::CompareSwap => b"cas",
            Op::Add => b"add",
            Op::Sub => b"sub",
            Op::And => b"and",
            Op::Or => b"or",
            Op::Xor => b"xor",
            Op::Min => b"min",
            Op::Max => b"max",
        }
    }
}

impl HasName for CollectiveKind {
    ghost use Rattle.text_calls.specs.Kinds.{collective_word};

    ghost name_of = { collective_word };

    fn name(self) -> &'static [u8] {
        match self {
            CollectiveKind::Broadcast => b"broadcast",
            CollectiveKind::Gather => b"gather",
            CollectiveKind::AllGather => b"all-gather",
            CollectiveKind::Sum => b"sum",
            CollectiveKind::Min => b"min",
            CollectiveKind::Max => b"max",
            CollectiveKind::AllSum => b"all-sum",
            CollectiveKind::AllMin => b"all-min",
            CollectiveKind::AllMax => b"all-max",
        }
    }
}

/// Which of them the word behind a space names.
fn named_at<'a, N: HasName>(all: &[N], bytes: &'a [u8]) -> Result<(N, &'a [u8]), Other>
    ensures { Finds (λ x. (x.0, x.1.now)) result (named_at N.name_of all.now bytes.now) }
{
    let (word, rest) = name_of(spaced(bytes)?);
    let Some(named) = first_named(all, word) else {
        return Err(Other);
    };
    Ok((named, rest))
}

/// A kind of calls behind a space.
#[tactic(auto, unfolding(crate::specs::Forms::part_at, crate::specs::Forms::word_at))]
pub fn kind_at(bytes: &[u8]) -> Result<(CallKind, &[u8]), Other>
    ensures { Finds (λ x. (x.0, x.1.now)) result (part_at Kind bytes.now) }
{
    named_at(&NAMED_KINDS, bytes)
}

/// A role behind a space.
#[tactic(auto, unfolding(crate::specs::Forms::part_at, crate::specs::Forms::word_at))]
pub fn role_at(bytes: &[u8]) -> Result<(Role, &[u8]), Other>
    ensures { Finds (λ x. (x.0, x.1.now)) result (part_at RolePart bytes.now) }
{
    named_at(&ALL_ROLES, bytes)
}

/// A kind of implicit operations behind a space.
#[tactic(auto, unfolding(crate::specs::Forms::part_at, crate::specs::Forms::word_at))]
pub fn implicit_at(bytes: &[u8]) -> Result<(ImplicitKinds, &[u8]), Other>
    ensures { Finds (λ x. (x.0, x.1.now)) result (part_at Implicit bytes.now) }
{
    named_at(&ALL_IMPLICIT, bytes)
}

/// An operation of remote atomics behind a space.
#[tactic(auto, unfolding(crate::specs::Forms::part_at, crate::specs::Forms::word_at))]
pub fn op_at(bytes: &[u8]) -> Result<(Op, &[u8]), Other>
    ensures { Finds (λ x. (x.0, x.1.now)) result (part_at Operation bytes.now) }
{
    named_at(&ALL_OPS, bytes)
}

/// A kind of collective behind a space.
#[tactic(auto, unfolding(crate::specs::Forms::part_at, crate::specs::Forms::word_at))]
pub fn collective_kind_at(bytes: &[u8]) -> Result<(CollectiveKind, &[u8]), Other>
    ensures { Finds (λ x. (x.0, x.1.now)) result (part_at Collective bytes.now) }
{
    named_at(&ALL_COLLECTIVES, bytes)
}
