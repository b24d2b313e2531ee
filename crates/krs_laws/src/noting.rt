//! That queues are their owners', that watches are set by right, and that records are called for by watches.
ghost use Rattle.krs_model.specs.{Sound.IsSound, State.State};
ghost use Rattle.krs_laws.specs.{Belonging.QueuesAreTheirClients, Noting.AllNotesAreByRight};
ghost use Rattle.krs_laws.specs.Noting.{AllNotesAreCalledFor, AllWatchesAreByRight, QueuesAreTheirOwners};

/// A queue is read, given a filter, closed and set to watch by its owner alone.
pub fn queues_are_their_owners()
    ensures { QueuesAreTheirOwners }
{}

/// In each history of a store that began empty, a queue is of the client that opened it, and that has not left since.
pub fn queues_are_their_clients()
    ensures { (start : State) → QueuesAreTheirClients start }
{}

/// Each watch was set, with its id, in a context that had VIEW on the key then, for a queue of its own client.
pub fn watches_are_set_by_right()
    ensures { (start : State) → IsSound start → AllWatchesAreByRight start }
{}

/// Each record that an ask posts to a queue tells of the key of a watch at that queue, and has its id. The watch stood
/// as the ask came.
pub fn records_are_called_for_by_watches()
    ensures { (start : State) → IsSound start → AllNotesAreCalledFor start }
{}

/// In each history of a store that began empty, each record that is posted to a queue is of a watch that was set in it:
/// in a context that had VIEW on the key then, by the client whose queue it was.
pub fn notes_are_by_right()
    ensures { (start : State) → AllNotesAreByRight start }
{}
