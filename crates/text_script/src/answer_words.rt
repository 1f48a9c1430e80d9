//! The words of the parts of an answer.

ghost use Rattle.std.specs.Prelude.{◌≡◌, ◌≤◌, length};
ghost use Rattle.text_script.specs.AnswerWords.{bad_word, lock_fault_word, rule_word, refusal_word};

use node_core::Why;
use part_handlers::{Forbidden, LockFault, Which};

/// The word of the part of a call that is bad.
pub fn bad_word(part: Which) -> &'static [u8]
    ensures word { result.now ≡ bad_word part }
    ensures short { length result.now ≤ 20 }
{
    match part {
        Which::Node => b"node",
        Which::Handler => b"handler",
        Which::Count => b"count",
        Which::Payload => b"payload",
        Which::Source => b"source",
        Which::Offset => b"offset",
    }
}

/// The word of the rule that forbids a call.
pub fn rule_word(rule: Forbidden) -> &'static [u8]
    ensures word { result.now ≡ rule_word rule }
    ensures short { length result.now ≤ 20 }
{
    match rule {
        Forbidden::InHandler => b"in-handler",
        Forbidden::NoToken => b"no-token",
        Forbidden::SecondReply => b"second-reply",
        Forbidden::ReplyInReply => b"reply-in-reply",
        Forbidden::ReplyUnderLock => b"reply-under-lock",
        Forbidden::UnderLock => b"under-lock",
        Forbidden::LockHeldAtReturn => b"lock-held-at-return",
    }
}

/// The word of what is wrong with a call on a lock.
pub fn lock_fault_word(fault: LockFault) -> &'static [u8]
    ensures word { result.now ≡ lock_fault_word fault }
    ensures short { length result.now ≤ 20 }
{
    match fault {
        LockFault::BadIndex => b"bad-index",
        LockFault::NotListed => b"not-listed",
        LockFault::Recursive => b"recursive",
        LockFault::NotHeld => b"not-held",
        LockFault::OutOfOrder => b"out-of-order",
    }
}

/// The word of why bytes are refused.
pub fn refusal_word(reason: Why) -> &'static [u8]
    ensures word { result.now ≡ refusal_word reason }
    ensures short { length result.now ≤ 20 }
{
    match reason {
        Why::Bytes(_) => b"bytes",
        Why::Job => b"job",
        Why::Receiver => b"receiver",
        Why::Sender => b"sender",
        Why::Slot => b"slot",
        Why::Handler => b"handler",
        Why::Args => b"args",
        Why::Range => b"range",
    }
}
