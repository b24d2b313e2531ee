//! That nothing is left when all clients have left.
ghost use Rattle.krs_model.specs.{Sound.IsSound, State.State};
ghost use Rattle.krs_laws.specs.Emptied.{AreEmptiedByLeaving, AreEmptiedInTheEnd};

/// Once no client has a context or a queue, no key, process, uid or watch is left: the store is empty, but for the
/// numbers that come next and the clock. So it is, where it began empty, once each client that asked anything has left.
pub fn nothing_is_left_when_all_have_left()
    ensures emptied { (start : State) → IsSound start → AreEmptiedInTheEnd start }
    ensures left { (start : State) → AreEmptiedByLeaving start }
{}
