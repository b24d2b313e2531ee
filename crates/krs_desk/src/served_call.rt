//! A call as clauses see it, and which events a step on the turn adds.
use krs_store::Told;
use krs_types::Ask;
use std::marker::Brand;
use std::snapshot::Snapshot;

/// A call as clauses see it. It holds neither the ask nor the reply.
#[derive(Drop)]
pub(crate) struct ServedCall {
    pub lane: u32,
    pub moment: u64,
    pub ask: Snapshot<Ask>,
    pub told: Snapshot<Told>,
}

/// Which events a step adds to the history. Each call of a program picks them.
pub(crate) trait Added {
    ghost use Rattle.std.specs.Prelude.{List};
    ghost use Rattle.krs_types.specs.declared.event.Event.{Event};

    ghost events: { List Event };
}

impl Added for Brand {
    ghost use Rattle.std.specs.Prelude.{[]};

    ghost events = { [] };
}

/// The state of the store that a desk was opened with. Each call of a program picks it.
pub(crate) trait Opened {
    ghost use Rattle.krs_model.specs.State.{State};

    ghost opening: { State };
}

impl Opened for Brand {
    ghost use Rattle.krs_model.specs.State.{starting_at};

    ghost opening = { starting_at 3 };
}
