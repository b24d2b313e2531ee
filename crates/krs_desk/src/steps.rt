//! The rule of the table, and what each step on it tells.
ghost use Rattle.krs_desk.specs.{Parts.{given_sight, kept_sight}, Steps.answers_told};
ghost use Rattle.krs_desk.specs.Steps.{brings_told, checks_told, collects_told, glances_told, grabs_told, keeps_told};
ghost use Rattle.krs_desk.specs.Steps.{looks_told, opens_told, picks_told, posts_told, puts_told, takes_told};

use crate::board::Tells;
use crate::served_call::{Added, Opened};
use crate::slot::SlotValue;
use crate::token::Sight;
use atomic_table::{Join, Split, TableRule};
use krs_store::Store;
use std::marker::PhantomData;
use std::snapshot::Snapshot;

/// There is one history of all calls, from the state of the store that the desk was opened with.
pub struct OneOrder;

impl TableRule<SlotValue, Sight, Snapshot<Store>> for OneOrder {
    ghost use Rattle.krs_desk.specs.Rule.{first_sight, InOneOrder};

    ghost holds = { λ key. InOneOrder key.value };

    ghost first = { λ key. first_sight key.value };
}

// The turn is had, or found taken.
pub(crate) struct Takes;

impl Tells for Takes {
    ghost told = { takes_told };
}

// The turn is given back, and the history has one event more.
pub(crate) struct Puts<E> {
    event: PhantomData<E>,
}

impl<E: Added> Tells for Puts<E> {
    ghost told = { puts_told E.events };
}

// The turn is kept, and the history has one event more.
pub(crate) struct Keeps<E> {
    event: PhantomData<E>,
}

impl<E: Added> Tells for Keeps<E> {
    ghost told = { keeps_told E.events };
}

// A lane's call is posted.
pub(crate) struct Posts;

impl Tells for Posts {
    ghost told = { posts_told };
}

// A lane's reply is taken out of its cell, or none is there.
pub(crate) struct Collects;

impl Tells for Collects {
    ghost told = { collects_told };
}

// The holder looks at a cell: a call is posted there, or none is.
pub(crate) struct Glances;

impl Tells for Glances {
    ghost told = { glances_told };
}

// The holder takes up a posted call.
pub(crate) struct Grabs;

impl Tells for Grabs {
    ghost told = { grabs_told };
}

// The holder answers the call that it serves.
pub(crate) struct Answers;

impl Tells for Answers {
    ghost told = { answers_told };
}

// The turn is given back, and the history is as it was held.
pub(crate) struct Brings;

impl Tells for Brings {
    ghost told = { brings_told };
}

// A token's opening is the desk's.
pub(crate) struct Checks<O> {
    opening: PhantomData<O>,
}

impl<O: Opened> Tells for Checks<O> {
    ghost told = { checks_told O.opening };
}

// A token of two lanes sees the history so far.
pub(crate) struct Looks;

impl Tells for Looks {
    ghost told = { looks_told };
}

// A new seat gets its lane's slot.
pub(crate) struct Picks;

impl Tells for Picks {
    ghost told = { picks_told };
}

// All seats are dealt.
pub(crate) struct Opens;

impl Tells for Opens {
    ghost told = { opens_told };
}

// The opener deals a lane, a token of two lanes is split, and one of one lane gives it away.
pub(crate) struct Cut;

impl Split<Sight> for Cut {
    ghost left = { kept_sight };

    ghost right = { given_sight };
}

// Two tokens of one lane each become one of two lanes.
pub(crate) struct Glue;

impl Join<Sight> for Glue {
    ghost use Rattle.krs_model.specs.State.{starting_at};
    ghost use Rattle.krs_desk.specs.Parts.{both_sights, spent};

    ghost both = { both_sights };

    ghost spent = { spent (starting_at 3) };
}

// A token that stands for no lane takes over that of another.
pub(crate) struct Settle;

impl Join<Sight> for Settle {
    ghost use Rattle.krs_model.specs.State.{starting_at};
    ghost use Rattle.krs_desk.specs.Parts.{settled_sight, spent};

    ghost both = { settled_sight };

    ghost spent = { spent (starting_at 3) };
}
