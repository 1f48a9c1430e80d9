//! The lines of the steps that end in turns.

ghost use Rattle.std.specs.Prelude.{◌≡◌, ◌∷◌, decimal};
ghost use Rattle.node_endpoint.specs.EndpointState.{ForItsRecord};
ghost use Rattle.base_io.specs.Buffered.{GathersAll, outbox};
ghost use Rattle.text_script.specs.AnswersTold.{sight_at};
ghost use Rattle.base_text.specs.LineTexts.{line_text};
ghost use Rattle.cli_check.specs.Recording.{text_of};
ghost use Rattle.cli_check.specs.StepLines.{script_words};
ghost use Rattle.cli_check.specs.StepsWritten.{CanTellStep, NamesWhatIsThere, TellsStep};

use base_io::{BufferedSink, MemorySink, Sink, Wrote};
use itoa::Buffer;
use law_traces::ScriptAnswer;
use node_endpoint::Endpoint;
use proc_machine::NodeMachine;
use text_script::{CollectiveAnswer, write_answer, write_collective, write_vis};

/// Which step's answer it is.
#[derive(Clone, Copy)]
pub struct StepAt {
    /// The rank of its node.
    pub rank: u16,
    /// Its thread.
    pub thread: u16,
}

/// Writes the line of the answer of a step of a thread, by its node's endpoint as it stands after it.
fn write_said<K: Sink>(
    thread: u64,
    answer: &ScriptAnswer,
    endpoint: &Endpoint,
    sink: &mut BufferedSink<K>,
) -> Wrote
    requires { NamesWhatIsThere endpoint.now answer.now }
    ensures { ForItsRecord endpoint.now (λ node.
        GathersAll (outbox K.taken K.faults sink.old) (outbox K.taken K.faults sink.new)
        (line_text (decimal thread ∷ script_words (sight_at endpoint.now node) answer.now))
        result) }
{
    match answer {
        ScriptAnswer::Call(answer) => write_answer(thread, answer, endpoint, sink),
        ScriptAnswer::Vis(vis) => write_vis(thread, vis, sink),
        ScriptAnswer::Start(answer) => {
            write_collective(thread, CollectiveAnswer::Start(*answer), sink)
        }
        ScriptAnswer::Step(answer) => {
            write_collective(thread, CollectiveAnswer::Step(*answer), sink)
        }
        ScriptAnswer::End(answer) => write_collective(thread, CollectiveAnswer::End(*answer), sink),
    }
}

/// Writes the line of the answer of a step, with the rank of its node before it.
fn write_step<K: Sink>(
    at: StepAt,
    answer: &ScriptAnswer,
    endpoint: &Endpoint,
    sink: &mut BufferedSink<K>,
) -> Wrote
    requires { NamesWhatIsThere endpoint.now answer.now }
    ensures { ForItsRecord endpoint.now (λ node.
        GathersAll (outbox K.taken K.faults sink.old) (outbox K.taken K.faults sink.new)
        (line_text (decimal at.rank ∷ decimal at.thread
        ∷ script_words (sight_at endpoint.now node) answer.now)) result) }
{
    let mut rank_text = Buffer::new();
    if let Wrote::Fault = sink.write_all(rank_text.format(at.rank).as_bytes()) {
        return Wrote::Fault;
    }
    if let Wrote::Fault = sink.write_all(b" ") {
        return Wrote::Fault;
    }
    write_said(u64::from(at.thread), answer, endpoint, sink)
}

/// Writes the line of the step that ended in the last turn of the node, if one did, and answers whether all of it went
/// in: memory didn't run out.
pub fn tell_step(
    at: StepAt,
    stepped: bool,
    node: &NodeMachine<'_>,
    text: &mut BufferedSink<MemorySink>,
) -> bool
    requires { CanTellStep stepped node.now }
    ensures { TellsStep at stepped node.now (text_of text.old) (text_of text.new) result }
{
    if !stepped {
        return true;
    }
    let answer = node.answer().unwrap();
    match write_step(at, &answer, node.endpoint(), text) {
        Wrote::Done => true,
        Wrote::Fault => false,
    }
}
