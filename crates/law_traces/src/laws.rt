//! What holds of every turn, and of every order of entries in which each can go.

ghost use Rattle.std.specs.Prelude.{◌≡◌, ℕ, List, map};
ghost use Rattle.node_rules.specs.EndpointLocal.{EndpointLocal};
ghost use Rattle.base_turns.specs.Prefixes.{Node as PrefixNode, GoesOn};
ghost use Rattle.base_turns.specs.Replay.{Steps};
ghost use Rattle.law_traces.specs.Actions.{Reading, OwnScripts};
ghost use Rattle.law_traces.specs.Order.{RankedMachine};
ghost use Rattle.law_traces.specs.Empty.{IsCalm, EmptyTurnsLeave};
ghost use Rattle.law_traces.specs.Laws.{IsOrderARun, IsMergeARun, AreStatesARun};
ghost use Rattle.law_traces.specs.Laws.{WaitingLeaves, TurnsComeFirst, TheySentStands};
ghost use Rattle.law_traces.specs.Merged.{Carries, with_machine_of};
ghost use Rattle.law_traces.specs.Scripts.{NodeJob};

/// Entries of the nodes' traces, in an order in which each can go, are a run of the world. `A` is
/// the type of the actions of scripts, each of which is read as a form.
pub fn run_law<A>()
    ensures run { (form : Reading EndpointLocal A) → IsOrderARun form }
{}

/// Where a list of nodes reaches the prefix that has all entries, the entries in its order are a run
/// of the world, and those of each node in it are the node's trace.
pub fn merge_law<A>()
    ensures run { (form : Reading EndpointLocal A) → IsMergeARun form }
{}

/// The same where the machines are states with more in them, of type `S`, of which is known what is
/// known of the machines.
pub fn states_law<A, S>()
    ensures run { (form : Reading EndpointLocal A)
        (become : RankedMachine EndpointLocal (OwnScripts A) → S) (steps : Steps S)
        → AreStatesARun form become steps }
{}

/// An order of the entries of machines is one of the machines that they become.
pub fn carrying_law<M, N>()
    ensures { (become : M → N) (first : Steps M) (second : Steps N) → Carries become first second
        → (nodes : List (PrefixNode M)) (list prefix to : List ℕ)
        → GoesOn second (map (with_machine_of become) nodes) prefix list to
        → GoesOn first nodes prefix list to }
{}

/// An empty turn leaves the machine as it was, where a try that waits leaves the record.
pub fn empty_law<O>()
    ensures { (job : NodeJob EndpointLocal O) → IsCalm job → EmptyTurnsLeave job }
{}

/// A try that neither ends nor begins its step leaves the scripts as they were.
pub fn waiting_law<A>()
    ensures { (form : Reading EndpointLocal A) → WaitingLeaves form }
{}

/// What the events of a turn send stands in its slots at the end of the turn: at most the first of
/// them is a delivery, and no other event takes a message from its slot.
pub fn outgoing_law<O>()
    ensures first { TurnsComeFirst O }
    ensures stands { TheySentStands }
{}
