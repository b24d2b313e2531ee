//! One step of the machine.
use krs_types::Ask;

/// What a seat does in one step.
#[derive(Drop)]
pub enum Kind {
    /// It has the turn, which was free.
    Take,

    /// It finds the turn out at another seat.
    TakeFound,

    /// It brings the store home and frees the turn, with one own call served (its moment and ask), or with none.
    Put(Option<(u64, Ask)>),

    /// It has one own call served (its moment and ask), and keeps the turn.
    Serve(u64, Ask),

    /// It has seen the first so many calls of the history.
    Load(usize),

    /// It posts a call in its cell, which was empty: its moment and ask.
    Post(u64, Ask),

    /// The holder of the turn, which serves no posted call, takes up the one in this lane's cell.
    Grab(u32),

    /// The holder answers the call that it took up: it is served by the store, and stands last in the history.
    Answer,

    /// It takes the reply of its call, which was answered, and has seen the first so many calls of the history, that
    /// one among them.
    Collect(usize),

    /// It finds no reply in its cell.
    CollectFound,

    /// The holder finds that no call is posted in this lane's cell.
    LookAt(u32),
}

/// One step of one lane's seat.
#[derive(Drop)]
pub struct WorldStep {
    pub lane: u32,
    pub kind: Kind,
}
