//! The token that a handler has.

ghost use Rattle.std.specs.Prelude.{◌≡◌, ◌≢◌, ◌≤◌, None, length};
ghost use Rattle.std.specs.Result.{OnOk};
ghost use Rattle.part_handlers.specs.Locks.{without};
ghost use Rattle.part_handlers.specs.declared.lock_answer.Owner.TheVariants as owner;
ghost use Rattle.wire_message.specs.Content.{short_reply, medium_reply, long_reply};
ghost use Rattle.part_handlers.specs.declared.rules.Role.TheVariants as role;
ghost use Rattle.part_handlers.specs.declared.rules.CallKind.TheVariants as call;
ghost use Rattle.part_handlers.specs.Asked.{IsSmall, answer_of, asked_content};
ghost use Rattle.part_handlers.specs.Runs.{AreFree, IsReady, IsSpelled, refusal, reply_bytes};
ghost use Rattle.part_handlers.specs.Runs.{first_fault, reply_faults};
ghost use Rattle.part_handlers.specs.Tokens.{IsReadyToken, arrival_of, token_arrival, frame_of};
ghost use Rattle.part_handlers.specs.Tokens.{token_rule, noting, answer_with_token, token_after_reply, writing};
ghost use Rattle.part_handlers.specs.Tokens.{with_payload};
ghost use Rattle.part_handlers.specs.Tokens.{token_lock_answer, locking, token_unlock_answer, unlocking};
ghost use Rattle.wire_message.specs.declared.limits.TheConstants.{MAX_DATAGRAM};

use crate::log::Log;
use crate::message::{Incoming, Replied, Reply, Which, padded};
use crate::reply::{AskedReply, Load};
use crate::rules::{CallKind, Fault, Forbidden, Role, Violation, allowed};
use crate::table::Table;
use crate::{LockAnswer, Locks, Owner, UnlockAnswer};
use wire_message::{Address, MAX_PAYLOAD, Settings, spell};

/// What a handler may use while it runs for a message (GASNet 1.8.1, core API, active messages: its token, and the
/// calls that it may make).
///
/// A token is made before the handler runs and closed after it; no token can be let go otherwise.
pub struct Token<'a> {
    log: &'a mut Log,
    locks: &'a mut Locks,
    buffer: &'a mut [u8],
    settings: &'a Settings,
    table: &'a Table,
    listed: u64,
    message: Incoming<'a>,
    reply: Option<Reply>,
}

impl<'a> Token<'a> {
    /// A token for a handler of this message, with no reply sent. Bit k of `listed` says that the handler may take lock
    /// k. It takes no memory.
    ///
    /// No thread holds a listed lock, and the handler holds none. The message has at most 16 arguments. For a request
    /// the buffer has 8,296 bytes and, where `source` isn't `me`, the number is at least 1.
    pub fn new(
        settings: &'a Settings,
        table: &'a Table,
        locks: &'a mut Locks,
        log: &'a mut Log,
        listed: u64,
        message: Incoming<'a>,
        buffer: &'a mut [u8],
    ) -> Token<'a>
        requires ready { IsReady (arrival_of message) buffer.old }
        requires free { AreFree listed locks.old }
        ensures { result ≡ record {
          log = log.entry;
          locks = locks.entry;
          buffer = buffer.entry;
          settings = settings.entry;
          table = table.entry;
          listed = listed;
          message = message.entry;
          reply = None;
        } }
    {
        Token {
            log,
            locks,
            buffer,
            settings,
            table,
            listed,
            message,
            reply: None,
        }
    }

    /// Judges the handler's return, notes a violation where it is forbidden, frees the handler's locks, and gives the
    /// reply; None exactly where none was sent.
    ///
    /// The buffer is as it was: its first `len` bytes are what the reply call wrote, the reply's datagram; where
    /// `source` is `me` they are its payload alone.
    pub fn close(self) -> Option<Reply>
        ensures log { let log_left = self.exit.0.now in
            log_left ≡ (noting self.entry (refusal (token_rule self.entry call.Return))).log.now }
        ensures locks { let locks_left = self.exit.1.0.now in
            locks_left ≡ without owner.Handler self.entry.locks.now }
        ensures buffer { let buffer_left = self.exit.1.1.0.now in
            buffer_left ≡ self.entry.buffer.now }
        ensures value { result ≡ self.entry.reply }
    {
        let Token {
            log,
            locks,
            buffer: _,
            settings: _,
            table: _,
            listed: _,
            message,
            reply,
        } = self;
        let context = message.role.context();
        if let Err(forbidden) = allowed(context, locks, reply.is_some(), CallKind::Return) {
            log.log_violation(Violation {
                context,
                fault: Fault::Rule(forbidden),
            });
        }
        let _ = locks.release_all(Owner::Handler);
        reply
    }

    /// Whether the message is a request or a reply.
    pub fn role(&self) -> Role
        ensures { result ≡ (token_arrival self.now).role }
    {
        self.message.role
    }

    /// The node that sent the message.
    pub fn source(&self) -> u16
        ensures { result ≡ (token_arrival self.now).source }
    {
        self.message.source
    }

    /// The message's arguments.
    pub fn args(&self) -> &[i32]
        ensures { result.now ≡ (token_arrival self.now).args }
    {
        self.message.args
    }

    /// The payload of a Medium message, in bytes; empty for the others. It may be passed to a reply.
    pub fn payload(&self) -> &'a [u8]
        ensures { result.now ≡ (token_arrival self.now).payload }
    {
        self.message.payload
    }

    /// Where a Long message's payload stands in the segment: the first byte and the length; None for the others.
    pub fn place(&self) -> Option<(u64, u64)>
        ensures { result ≡ (token_arrival self.now).place }
    {
        self.message.place
    }

    /// Judges a call by the rule table, and notes a violation where it is forbidden; nothing else happens.
    pub fn attempt(&mut self, call: CallKind) -> Result<(), Forbidden>
        ensures judged { result ≡ token_rule self.old call }
        ensures noted { self.new ≡ noting self.old (refusal result) }
    {
        let context = self.message.role.context();
        let judged = allowed(context, self.locks, self.reply.is_some(), call);
        if let Err(forbidden) = judged {
            self.log.log_violation(Violation {
                context,
                fault: Fault::Rule(forbidden),
            });
        }
        judged
    }

    /// Takes a handler-safe lock for the handler (GASNet 1.8.1, core API, handler-safe locks).
    ///
    /// `Refused`, and a violation is noted, with `BadIndex` exactly where `lock` is 64 or more, then `NotListed` where
    /// the handler's entry doesn't list it, then `Recursive` where the handler holds it. Else `Taken`: as no thread
    /// holds a listed lock while the handler runs, the answer is never `Held`.
    pub fn lock(&mut self, lock: u8) -> LockAnswer
        requires { IsReadyToken self.old }
        ensures answer { result ≡ token_lock_answer self.old lock }
        ensures locked { self.new ≡ locking self.old lock }
        ensures never_held { result ≢ LockAnswer.Held }
        ensures ready { IsReadyToken self.new }
    {
        let answer = self.locks.lock(Owner::Handler, lock, self.listed);
        match answer {
            LockAnswer::Taken => {}
            LockAnswer::Held => {}
            LockAnswer::Refused(lock_fault) => self.log.log_violation(Violation {
                context: self.message.role.context(),
                fault: Fault::Lock(lock_fault),
            }),
        }
        answer
    }

    /// Gives a handler-safe lock of the handler back (GASNet 1.8.1, core API, handler-safe locks).
    ///
    /// `Refused`, and a violation is noted, with `BadIndex` exactly where `lock` is 64 or more, then `NotHeld` where
    /// the handler doesn't hold it, then `OutOfOrder` where it isn't the latest of the handler's locks. Else `Freed`.
    pub fn unlock(&mut self, lock: u8) -> UnlockAnswer
        requires { IsReadyToken self.old }
        ensures answer { result ≡ token_unlock_answer self.old lock }
        ensures unlocked { self.new ≡ unlocking self.old lock }
        ensures ready { IsReadyToken self.new }
    {
        let answer = self.locks.unlock(Owner::Handler, lock);
        match answer {
            UnlockAnswer::Freed => {}
            UnlockAnswer::Refused(lock_fault) => self.log.log_violation(Violation {
                context: self.message.role.context(),
                fault: Fault::Lock(lock_fault),
            }),
        }
        answer
    }

    /// Sends a Short reply to the requester (GASNet 1.8.1, core API, active messages).
    ///
    /// `Forbidden` where the rule table forbids it, and a violation is noted. Then `BadArg` with `Handler` where no
    /// handler of replies is registered for the index, or with `Count` where there are more than 16 arguments, the
    /// first in that order. Else the reply's bytes are written into the token's buffer.
    pub fn reply_short(&mut self, handler: u8, args: &[i32]) -> Replied
        requires { IsReadyToken self.old }
        ensures answer { result ≡ answer_with_token self.old (short_reply handler args.now) }
        ensures answered { self.new ≡ token_after_reply self.old (short_reply handler args.now) result }
        ensures spelled { result ≡ Replied.Sent
            → IsSpelled (frame_of self.old) (Some (short_reply handler args.now)) }
        ensures ready { IsReadyToken self.new }
    {
        self.reply(AskedReply {
            handler,
            args,
            load: Load::Nothing,
        })
    }

    /// Sends a Medium reply to the requester, whose handler sees the payload in a buffer (GASNet 1.8.1, core API,
    /// active messages).
    ///
    /// `Forbidden` where the rule table forbids it, and a violation is noted. Then `BadArg` with `Handler` where no
    /// handler of replies is registered for the index, with `Count` where there are more than 16 arguments, or with
    /// `Payload` where there are more than 8,192 bytes, the first in that order. Else the reply's bytes are written
    /// into the token's buffer.
    pub fn reply_medium(&mut self, handler: u8, args: &[i32], payload: &[u8]) -> Replied
        requires { IsReadyToken self.old }
        ensures answer { result ≡ answer_with_token self.old
            (medium_reply handler args.now payload.now) }
        ensures answered { self.new ≡ token_after_reply self.old
            (medium_reply handler args.now payload.now) result }
        ensures spelled { result ≡ Replied.Sent
            → IsSpelled (frame_of self.old) (Some (medium_reply handler args.now payload.now)) }
        ensures ready { IsReadyToken self.new }
    {
        self.reply(AskedReply {
            handler,
            args,
            load: Load::Medium(payload),
        })
    }

    /// Sends a Long reply to the requester, in whose segment the payload stands from the byte `offset` on before its
    /// handler runs (GASNet 1.8.1, core API, active messages).
    ///
    /// `Forbidden` where the rule table forbids it, and a violation is noted. Then `BadArg` with `Handler` where no
    /// handler of replies is registered for the index, with `Count` where there are more than 16 arguments, with
    /// `Payload` where there are more than 8,192 bytes, or with `Offset` where the payload's place passes the end of a
    /// segment of the settings' length, the first in that order. Else the reply's bytes are written into the token's
    /// buffer.
    pub fn reply_long(&mut self, handler: u8, args: &[i32], payload: &[u8], offset: u64) -> Replied
        requires { IsReadyToken self.old }
        ensures answer { result ≡ answer_with_token self.old
            (long_reply handler args.now offset payload.now) }
        ensures answered { self.new ≡ token_after_reply self.old
            (long_reply handler args.now offset payload.now) result }
        ensures spelled { result ≡ Replied.Sent → IsSpelled (frame_of self.old)
            (Some (long_reply handler args.now offset payload.now)) }
        ensures ready { IsReadyToken self.new }
    {
        self.reply(AskedReply {
            handler,
            args,
            load: Load::Long { payload, offset },
        })
    }

    /// Sends the reply, where neither the rule table nor a part of it is against it.
    fn reply(&mut self, asked: AskedReply<'_>) -> Replied
        requires { IsReadyToken self.old }
        ensures answer { result ≡ answer_with_token self.old (asked_content asked.entry) }
        ensures answered { self.new ≡ token_after_reply self.old (asked_content asked.entry) result }
        ensures spelled { result ≡ Replied.Sent
            → IsSpelled (frame_of self.old) (Some (asked_content asked.entry)) }
        ensures ready { IsReadyToken self.new }
    {
        if let Err(forbidden) = self.attempt_reply() {
            return Replied::Forbidden(forbidden);
        }
        if let Some(part) = self.wrong_part(&asked) {
            return Replied::BadArg(part);
        }
        let len = self.write(&asked);
        self.reply = Some(Reply {
            kind: asked.kind(),
            handler: asked.handler,
            count: asked.args.len() as u8,
            args: padded(asked.args),
            offset: asked.offset(),
            len,
        });
        Replied::Sent
    }

    /// Judges a reply, and notes a violation where it is forbidden. It is allowed at a request's token alone, once.
    fn attempt_reply(&mut self) -> Result<(), Forbidden>
        ensures judged { result ≡ token_rule self.old call.Reply }
        ensures noted { self.new ≡ noting self.old (refusal result) }
        ensures request { OnOk result ((token_arrival self.old).role ≡ role.Request) }
    {
        self.attempt(CallKind::Reply)
    }

    /// The first part of a reply that is wrong.
    fn wrong_part(&self, asked: &AskedReply<'_>) -> Option<Which>
        ensures answer { answer_of result ≡ first_fault
            (reply_faults self.now.settings.now self.now.table.now (asked_content asked.now)) }
        ensures small { result ≡ None → IsSmall (asked_content asked.now) }
    {
        if !self.table.has(Role::Reply, asked.handler) {
            return Some(Which::Handler);
        }
        if asked.args.len() > 16 {
            return Some(Which::Count);
        }
        if asked.payload().len() > MAX_PAYLOAD {
            return Some(Which::Payload);
        }
        if asked.passes_end(self.settings.segment()) {
            return Some(Which::Offset);
        }
        None
    }

    /// Writes the bytes of a reply into the buffer, and tells how many there are.
    fn write(&mut self, asked: &AskedReply<'_>) -> usize
        requires ready { IsReady (token_arrival self.old) self.old.buffer.now }
        requires request { (token_arrival self.old).role ≡ role.Request }
        requires small { IsSmall (asked_content asked.now) }
        ensures len { result ≡ length (reply_bytes self.old.settings.now (token_arrival self.old)
            (asked_content asked.now)) }
        ensures written { self.new ≡ writing self.old
            (reply_bytes self.old.settings.now (token_arrival self.old) (asked_content asked.now)) }
        ensures spelled { IsSpelled (frame_of self.old) (Some (asked_content asked.now)) }
        ensures room { length self.new.buffer.now ≡ MAX_DATAGRAM }
    {
        let Incoming {
            me,
            source,
            slot,
            number,
            ..
        } = self.message;
        if source == me {
            return put_prefix(asked.payload(), self.buffer);
        }
        let address = Address {
            version: self.settings.version(),
            job: self.settings.job(),
            from: me,
            to: source,
            slot,
            number,
        };
        spell(&asked.outgoing(address), self.buffer)
    }
}

/// Puts bytes at the beginning of a buffer that has room for them, and tells how many there are.
fn put_prefix(bytes: &[u8], buffer: &mut [u8]) -> usize
    requires { length bytes.now ≤ length buffer.old }
    ensures len { result ≡ length bytes.now }
    ensures written { buffer.new ≡ with_payload bytes.now buffer.old }
    ensures room { length buffer.new ≡ length buffer.old }
{
    buffer[..bytes.len()].copy_from_slice(bytes);
    bytes.len()
}
