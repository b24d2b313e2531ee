//! What rows say of a store: the function that computes them is the step of its histories, memory aside.
ghost use Rattle.std.specs.Prelude.{◌≡◌, List, ℕ};
ghost use Rattle.krs_types.specs.declared.{ask.Ask.Ask, event.Event.Event};
ghost use Rattle.krs_model.specs.{History.{event_of, IsLegal}, Sound.IsSound};
ghost use Rattle.krs_model.specs.{State.{starting_at, State}, Step.Step};
ghost use Rattle.krs_rows.specs.Answers.{answered, answers, HaveMemory, IsDue, replies};

/// From a sound store each ask may be answered as is computed; and it is answered so, and leads where it should, but
/// that ENOMEM may stand in place of an answer of an ask that takes memory: profile, out of memory.
pub fn each_ask_is_answered_as_computed()
    ensures may { (old : State) (lane moment : ℕ) (ask : Ask) → IsSound old
        → Step old (event_of lane moment ask (answered old lane moment ask).0) (answered old lane moment ask).1 }
    ensures must { (old new : State) (event : Event) → IsSound old → Step old event new → IsDue old event new }
{}

/// What rows say is a history of a store that began empty, and what is asked in it has no other replies in any history,
/// but for ENOMEM.
pub fn rows_are_the_histories()
    ensures legal { (serial : ℕ) (events : List Event) → answers (starting_at serial) events ≡ replies events
        → (end : State) × IsLegal (starting_at serial) events end }
    ensures alone { (serial : ℕ) (events : List Event) (end : State) → IsLegal (starting_at serial) events end
        → HaveMemory events → answers (starting_at serial) events ≡ replies events }
{}
