//! That what goes, goes by right.
ghost use Rattle.krs_model.specs.{Sound.IsSound, State.State};
ghost use Rattle.krs_laws.specs.Going.{AllAttachesByRight, AllQueuesAreByRight};

/// An attachment goes only by EXIT, EXEC, LEAVE or JOIN of a context of its own client, or as its key is invalidated,
/// by SEARCH. It comes only by HELLO, THREAD or FORK; by JOIN of a keyring that may be joined; or new, in the context
/// that asks or in its process.
pub fn attachments_change_by_right()
    ensures { (start : State) → IsSound start → AllAttachesByRight start }
{}

/// A queue comes by OPEN_QUEUE, has its filter by SET_FILTER, and ends by CLOSE_QUEUE or LEAVE: by each of these of its
/// own client alone. A watch ends with its queue or its key, or by WATCH of its queue's client.
pub fn queues_and_watches_end_by_right()
    ensures { (start : State) → IsSound start → AllQueuesAreByRight start }
{}
