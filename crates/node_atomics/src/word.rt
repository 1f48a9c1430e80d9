//! Operations on words of 64 bits.

ghost use Rattle.std.specs.Prelude.{◌≡◌, ◌≤◌, ◌+◌, ◌++◌, length};
ghost use Rattle.std.specs.Int.{w64, to_be_bytes};
ghost use Rattle.node_atomics.specs.Words.{word_after, code_of, op_of};
ghost use Rattle.node_atomics.specs.BatchRequests.{spelled_op};

use arrayvec::ArrayVec;

/// What an operation makes of a word.
#[derive(Clone, Copy)]
pub enum Op {
    /// The word stays as it is.
    Get,
    /// It becomes `a`.
    Swap,
    /// It becomes `b` where it is `a`.
    CompareSwap,
    /// It rises by `a`, modulo 2^64.
    Add,
    /// It falls by `a`, modulo 2^64.
    Sub,
    /// Of its bits those stay that `a` has too.
    And,
    /// It gets the bits of `a` beside its own.
    Or,
    /// Those of its bits change that `a` has.
    Xor,
    /// It becomes `a` where that is smaller, unsigned.
    Min,
    /// It becomes `a` where that is greater, unsigned.
    Max,
}

/// An operation on the word at an offset of a segment.
#[derive(Clone, Copy)]
pub struct WordOp {
    /// What it does.
    pub op: Op,
    /// Where the first byte of the word stands.
    pub offset: u64,
    /// Its first operand.
    pub a: u64,
    /// Its second operand; only `CompareSwap` reads it.
    pub b: u64,
}

/// What stands where a list of operations has room.
impl Default for WordOp {
    fn default() -> WordOp {
        WordOp {
            op: Op::Get,
            offset: 0,
            a: 0,
            b: 0,
        }
    }
}

/// What an operation makes of a word that was `old`.
pub fn apply(op: Op, old: u64, a: u64, b: u64) -> u64
    ensures { result ≡ word_after op old a b }
{
    match op {
        Op::Get => old,
        Op::Swap => a,
        Op::CompareSwap => { if old == a { b } else { old } }
        Op::Add => old.wrapping_add(a),
        Op::Sub => old.wrapping_sub(a),
        Op::And => old & a,
        Op::Or => old | a,
        Op::Xor => old ^ a,
        Op::Min => old.min(a),
        Op::Max => old.max(a),
    }
}

impl Op {
    /// The number that stands for it in a message.
    pub(crate) fn code(self) -> u64
        ensures { result ≡ code_of self }
    {
        match self {
            Op::Get => 0,
            Op::Swap => 1,
            Op::CompareSwap => 2,
            Op::Add => 3,
            Op::Sub => 4,
            Op::And => 5,
            Op::Or => 6,
            Op::Xor => 7,
            Op::Min => 8,
            Op::Max => 9,
        }
    }

    /// The operation for which a number stands in a message, if any.
    pub fn of_code(code: u64) -> Option<Op>
        ensures { result ≡ op_of code }
    {
        match code {
            0 => Some(Op::Get),
            1 => Some(Op::Swap),
            2 => Some(Op::CompareSwap),
            3 => Some(Op::Add),
            4 => Some(Op::Sub),
            5 => Some(Op::And),
            6 => Some(Op::Or),
            7 => Some(Op::Xor),
            8 => Some(Op::Min),
            9 => Some(Op::Max),
            _ => None,
        }
    }
}

/// Puts the 32 bytes of an operation behind others: its number, the offset and the operands, big-endian.
pub(crate) fn spell(word: WordOp, bytes: &mut ArrayVec<u8, 2048>)
    requires room { length bytes.old.items + 32 ≤ 2048 }
    ensures spelled { bytes.new.items ≡ bytes.old.items ++ spelled_op word }
    ensures len { length bytes.new.items ≡ length bytes.old.items + 32 }
{
    push_number(word.op.code(), bytes);
    push_number(word.offset, bytes);
    push_number(word.a, bytes);
    push_number(word.b, bytes);
}

/// Puts a number's 8 bytes behind others, big-endian.
fn push_number(number: u64, bytes: &mut ArrayVec<u8, 2048>)
    requires room { length bytes.old.items + 8 ≤ 2048 }
    ensures pushed { bytes.new.items ≡ bytes.old.items ++ to_be_bytes w64 number }
    ensures len { length bytes.new.items ≡ length bytes.old.items + 8 }
{
    let _ = bytes.try_extend_from_slice(&number.to_be_bytes());
}
