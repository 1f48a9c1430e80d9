//! What holds of the handlers and calls of a job's text.

ghost use Rattle.proc_script_laws.specs.Fitting.{BatchesAreServed, BatchesHold, CallsFit, CollectivesAreServed};
ghost use Rattle.proc_script_laws.specs.Fitting.{HandlersFit, JobsFit};

/// Carries what this crate proves of the handlers and calls of a job's text, for the check alone: it has no
/// code.
///
/// `handlers`: handlers whose words can be said in a text leave and say what fits. `jobs`: with settings that can be
/// said they make a fitting job. `calls`: what a call that can be said says and writes fits, where the cells of its
/// node are numbers of 32 bits. `batches`: where a job has atomics, its table has both handlers of batches, and they
/// run as `serve` of `node_atomics` does. `atomics`: so the laws of batches hold of its runs. `collectives`: where a job
/// has an area of collectives, its table has their handler, and it runs as `serve` of `part_collective_area` does.
pub fn fitting_law()
    // What a body leaves and says fits, where what it finds does.
    ensures handlers { HandlersFit }
    // The job of such settings and handlers is fitting.
    ensures jobs { JobsFit }
    // What a call says and writes fits, where the cells of its node do.
    ensures calls { CallsFit }
    // A job with atomics has the handlers of batches, and they serve batches.
    ensures batches { BatchesAreServed }
    // So the laws of batches hold of every run with its handlers.
    ensures atomics { BatchesHold }
    // A job with an area of collectives has their handler, and it serves collectives.
    ensures collectives { CollectivesAreServed }
{}
