//! The call that asks a batch.

ghost use Rattle.std.specs.Prelude.{◌≡◌, ◌<◌, List, ℕ, Some};
ghost use Rattle.spec_node.specs.Behaviour.{Lent};
ghost use Rattle.node_endpoint.specs.ClientRules.{medium_asking, said_in};
ghost use Rattle.node_endpoint.specs.Called.{Requests, meant};
ghost use Rattle.node_endpoint.specs.Making.{MakesOne};
ghost use Rattle.node_endpoint.specs.Sites.{IsThere};
ghost use Rattle.node_atomics.specs.BatchRequests.{batch_handler};
ghost use Rattle.node_atomics.specs.Asking.{answer_of, batch_asking, batch_call, batch_of};

use crate::batch::Batch;
use crate::serving::BATCH_HANDLER;
use node_endpoint::{Call, Called, Caller, Payload};

impl Batch {
    /// A thread of the caller's node asks the batch of its target: a Medium request to handler 252. The batch was made
    /// with the settings of the caller's job.
    ///
    /// It is answered as a Medium request: `Accepted`, and the batch is on its way; `Ran`, where it is for the local
    /// node and was done in the call; or why not, as `NotYet` where all credits of the pair are out. `NoMemory` comes
    /// only from a caller that may lack memory.
    #[tactic(auto, using(crate::proofs::Spelling::batch_again))]
    pub fn ask<K: Caller>(&self, caller: &mut K, thread: u16) -> Called
        requires there { IsThere (K.site caller.old) }
        requires thread { thread < (K.site caller.old).settings.threads }
        requires settings { self.now.settings ≡ (K.site caller.old).settings }
        ensures made { MakesOne K.Caller caller.old (batch_call thread self.now)
            (answer_of result) caller.new }
        ensures said { (segment : List ℕ) → batch_of self.now.settings
            (said_in segment (batch_asking self.now.request)) ≡ Some self.now.request }
    {
        // That nothing is wrong with a batch in its settings is known where a field is read.
        let _ = &self.settings;
        let args = self.arguments();
        let payload = self.payload();
        let call = request(self.to(), &args, &payload);
        caller.call(thread, &call)
    }
}

/// The request of a batch, with these arguments and this payload.
fn request<'a>(to: u16, args: &'a [i32], payload: &'a [u8]) -> Call<'a>
    ensures { meant result ≡ Requests to (medium_asking batch_handler args.now (Lent payload.now)) }
{
    Call::Medium {
        to,
        handler: BATCH_HANDLER,
        args,
        payload: Payload::Lent(payload),
    }
}
