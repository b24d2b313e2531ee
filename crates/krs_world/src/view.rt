//! What a seat knows. These types but `Service` stand in contracts alone: no value of one is ever made.
use krs_store::Store;
use krs_types::{Ask, Event, Reply};
use std::collections::LinkedList;

/// What stands in a lane's cell: a call that was posted, with its moment and ask, until its reply is collected.
pub enum Cell {
    Empty,
    Posted(u64, Ask),
    /// The holder of the turn serves it.
    Serving(u64, Ask),
    Answered(u64, Ask, Reply),
}

/// A call that was posted, and what its lane had seen then.
pub struct Flight {
    pub moment: u64,
    pub ask: Ask,
    pub after: LinkedList<Event>,
}

/// A posted call that the holder of the turn is serving. The machine has one at most.
#[derive(Drop)]
pub struct Service {
    pub lane: u32,
    pub moment: u64,
    pub ask: Ask,
}

/// What a seat knows of one lane.
pub struct Part {
    pub lane: u32,

    /// The beginning of the history that it has seen.
    pub seen: LinkedList<Event>,

    /// The lane's calls whose replies the seat has, in order.
    pub mine: LinkedList<Event>,

    /// The whole history, while the seat has the turn.
    pub holding: Option<LinkedList<Event>>,

    /// The posted call that it serves, while it has the turn.
    pub serving: Option<Service>,

    /// Its own call that was posted and not collected yet.
    pub flight: Option<Flight>,

    /// The history as the seat last took the turn.
    pub base: LinkedList<Event>,

    /// How often it took the turn.
    pub taken: u64,

    /// How often it found the turn taken.
    pub found: u64,

    /// The lanes whose cells it answered, or found not posted, since it took the turn.
    pub checked: LinkedList<u32>,

    /// It answered its own cell, or found it answered.
    pub done: bool,
}

/// For which lanes a seat stands.
pub enum Standing {
    /// None: the seat was joined to another, or has dealt all seats.
    Spent,
    One(Part),
    /// Two lanes, while two seats meet.
    Two(Part, Part),

    /// The seats are still dealt: so many lanes have one.
    Opening(u32),
}

/// What a seat knows: the store as it was at the opening, and the lanes that the seat stands for.
pub struct View {
    pub opening: Store,
    pub stands: Standing,
}
