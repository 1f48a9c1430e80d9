//! What holds of the traces of a job's nodes.

ghost use Rattle.proc_machine.specs.Laws.{AreTracesARun, NodesOpen, StatesReplay};

/// Carries what this crate proves of the traces of the nodes of a job that was read, for the check alone: it has no
/// code.
///
/// `run`: where a list of ranks reaches the prefix that has all entries of the traces, over the states for which the
/// nodes' machines stand, they are in its order a run of the world. `opens`: each node begins in the state for which
/// a new machine stands. `replays`: what a machine stands for after its trace is what the run leaves its node.
pub fn traces_law()
    // The entries, in that order, are a run.
    ensures run { AreTracesARun }
    // The nodes are those of new machines.
    ensures opens { NodesOpen }
    // A replay is that of the node's record and scripts.
    ensures replays { StatesReplay }
{}
