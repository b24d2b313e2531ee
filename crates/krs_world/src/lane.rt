//! What the machine keeps of a lane.
ghost use Rattle.std.specs.Prelude.{◌≡◌, cond, false, true};
ghost use Rattle.krs_world.specs.Kept.{IsIdle};

use krs_types::Ask;

/// What is kept of a lane's cell. The ask of a call stands here until the call is served, and the call in the list of
/// all calls from then on.
#[derive(Drop)]
pub(crate) enum Slot {
    Empty,
    Posted(u64, Ask),

    /// The machine has its moment and ask.
    Serving,

    /// It stands at this place of the list.
    Answered(usize),
}

impl Slot {
    ghost use Rattle.std.specs.Prelude.{◌≡◌};
    ghost use Rattle.krs_world.specs.Kept.{has_reply};

    /// Whether a reply stands in the cell.
    pub(crate) fn has_reply(&self) -> bool
        ensures { result ≡ has_reply self.now }
    {
        matches!(self, Slot::Answered(_))
    }
}

/// What a seat knows, by lengths of the history: `Part` says what of.
#[derive(Drop)]
pub(crate) struct Lane {
    /// Its number.
    pub lane: u32,

    /// How much of the history it has seen.
    pub seen: usize,

    /// How long the history was as it last took the turn.
    pub base: usize,

    /// It has the turn.
    pub holding: bool,

    /// How often it took the turn, and how often it found the turn taken.
    pub taken: u64,
    pub found: u64,

    /// What it had seen as it posted its call.
    pub after: usize,

    /// Its cell.
    pub slot: Slot,

    /// The lanes whose cells it answered, or found not posted, since it took the turn.
    pub checked: Vec<u32>,

    /// It answered its own cell, or found it answered.
    pub done: bool,
}

/// Whether there is a lane of this number, with nothing in its cell.
pub(crate) fn is_idle(lanes: &[Lane], lane: u32) -> bool
    ensures idle { result ≡ true → IsIdle lanes.now lane }
    ensures not { result ≡ false → ¬ IsIdle lanes.now lane }
{
    match lanes.get(lane as usize) {
        Some(seat) => matches!(seat.slot, Slot::Empty),
        None => false,
    }
}

/// Whether a lane is done after its seat looked at a cell: it was, or the cell is its own, and has a reply.
pub(crate) fn is_done(done: bool, own: bool, reply: bool) -> bool
    ensures { result ≡ cond (cond own reply false) true done }
{
    done || (own && reply)
}
