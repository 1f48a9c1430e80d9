//! The steps of a collective: its messages to the other nodes.

ghost use Rattle.std.specs.Prelude.{◌≡◌, ◌<◌};
ghost use Rattle.node_core.specs.AskedFor.{payload_from};
ghost use Rattle.node_endpoint.specs.Sites.{IsThere};
ghost use Rattle.node_collectives.specs.Progress.{is_left};
ghost use Rattle.node_collectives.specs.CollectivesState.{IsSameNode, Stands, progress_of};
ghost use Rattle.node_collectives.specs.Starts.{CallsOne};
ghost use Rattle.node_collectives.specs.Steps.{Steps, after_ask, payload_for, step_call, step_told};

use crate::answers::StepAnswer;
use crate::calling::call_one;
use crate::collectives::Collectives;
use crate::starting::{HANDLER, header};
use node_core::{Asked, Payload};
use node_endpoint::Caller;
use node_rules::{Answer, Call};

impl Collectives {
    /// Sends the phase that is open to the first node that it wasn't sent to and that can be asked: asks each of these
    /// in rising order, until one accepts. The data goes along where that node's result uses it.
    ///
    /// - `Sent` names the node that accepted.
    /// - `Nothing`: no phase is open, it was sent to all others, or all of the rest were answered `NotYet` or
    ///   `Exhausted`.
    /// - `Forbidden`, `NoMemory`: so it is of a request; those before it have had their effect.
    ///
    /// The caller is at this node of a job with these settings, and the thread is one of its.
    pub fn step<K: Caller>(&mut self, caller: &mut K, thread: u16) -> StepAnswer
        requires settings { self.old.settings ≡ (K.site caller.old).settings }
        requires me { self.old.me ≡ (K.site caller.old).node }
        requires thread { thread < (K.site caller.old).settings.threads }
        ensures steps { Steps K.Caller thread self.old caller.old result self.new caller.new }
        ensures same_reference { K.lent caller.new ≡ K.lent caller.old }
        ensures same_site { K.site caller.new ≡ K.site caller.old }
        ensures same_node { IsSameNode self.old self.new }
        ensures stands { Stands self.old }
    {
        if !self.is_open() {
            return StepAnswer::Nothing;
        }
        for to in 0..self.nodes() {
            if self.is_left(to) {
                let told = self.ask(caller, thread, to);
                if let Some(answer) = self.note(to, &told) {
                    return answer;
                }
            }
        }
        StepAnswer::Nothing
    }

    /// Whether the phase wasn't sent to a node yet, which is another one.
    pub(crate) fn is_left(&self, to: u16) -> bool
        requires { to < self.now.area.nodes }
        ensures { result ≡ is_left self.now.me to (progress_of self.now) }
    {
        to != self.me && !self.sent[usize::from(to)]
    }

    /// Notes what came of asking a node. None where the step goes on to the next one.
    fn note(&mut self, to: u16, answer: &Option<Answer>) -> Option<StepAnswer>
        requires { to < self.old.area.nodes }
        ensures stop { result ≡ step_told to answer.now }
        ensures noted { self.new ≡ after_ask self.old to answer.now }
    {
        match answer {
            None => Some(StepAnswer::NoMemory),
            Some(Answer::Forbidden(forbidden)) => Some(StepAnswer::Forbidden(*forbidden)),
            Some(Answer::Asked(Asked::Accepted { .. })) => {
                self.sent[usize::from(to)] = true;
                Some(StepAnswer::Sent(to))
            }
            Some(Answer::Asked(Asked::Exhausted)) => {
                self.exhausted[usize::from(to)] = true;
                None
            }
            Some(_) => {
                self.exhausted[usize::from(to)] = false;
                None
            }
        }
    }

    /// The payload of the message to a node: the data at this offset, where that node's result uses it.
    fn payload(&self, to: u16, offset: u64) -> Payload<'_>
        ensures { payload_from result ≡ payload_for self.now to offset }
    {
        if self.shape.uses(self.me, to) {
            Payload::Own {
                offset,
                len: self.shape.len,
            }
        } else {
            Payload::Lent(&[])
        }
    }

    /// The request to a node.
    fn ask<K: Caller>(&self, caller: &mut K, thread: u16, to: u16) -> Option<Answer>
        requires there { IsThere (K.site caller.old) }
        requires thread { thread < (K.site caller.old).settings.threads }
        requires opened { self.now.ended < self.now.started }
        ensures { CallsOne K.Caller caller.old (step_call self.now thread to) result caller.new }
    {
        let stamp = self.ended + 1;
        let word = self.shape.word();
        let args = header(stamp, word);
        let offset = self.part(self.ended % 2, self.me) + 16;
        let call = Call::Long {
            to,
            handler: HANDLER,
            args: &args,
            payload: self.payload(to, offset),
            offset,
        };
        call_one(caller, thread, &call)
    }
}
