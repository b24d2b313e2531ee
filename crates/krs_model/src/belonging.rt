//! Whose contexts are, and that nothing is left of a client that has left.
ghost use Rattle.std.specs.Prelude.{◌≡◌};
ghost use Rattle.krs_types.specs.declared.{ask.Op.TheVariants.Leave, event.Event.Event};
ghost use Rattle.krs_model.specs.Belonging.{ContextsAreGreeted, HasNothing, ReadersAreGreeted};
ghost use Rattle.krs_model.specs.{State.State, Step.Step};

/// Once a client has left, no context and no queue is its: who comes next on its lane acts in none that was there
/// before.
pub fn nothing_is_left_of_a_client()
    ensures { (old new : State) (event : Event) → Step old event new → event.ask.op ≡ Leave
        → HasNothing event.lane new }
{}

/// Each context acts as a caller that its own client has named by HELLO, since it last left.
pub fn contexts_are_their_clients()
    ensures { ContextsAreGreeted }
{}

/// Whoever reads a key that a uid has to itself has said, since it last left, that it is that uid. So behind a guard
/// that lets each client name itself alone, no peer reads another's keys.
pub fn readers_have_named_themselves()
    ensures { ReadersAreGreeted }
{}
