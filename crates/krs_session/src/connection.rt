// A connection as it is served.
ghost use Rattle.std.specs.Prelude.{[], ◌≡◌};
ghost use Rattle.krs_wire.specs.Frame.{Frames, rest};

use crate::lack::Lack;
use crate::{Keeper, Replies};
use krs_wire::Feed;
use std::alloc::Global;

/// Room for replies that wait, which a session takes as it begins, and to which it comes back behind longer ones: for
/// all that are held until they are written, and the longest payload behind them.
pub(crate) const REPLY_ROOM: usize = 98_368;

/// What a session keeps from piece to piece: the reading end, what it has told to be lacking, and room for replies that
/// wait.
pub(crate) struct Held {
    pub feed: Feed,
    pub lack: Lack,
    pub out: Replies,
}

impl Held {
    /// Nothing was read yet. What may be wanted later is taken now, as far as there is memory.
    pub(crate) fn new(alloc: Global) -> Held
        ensures nothing { result.feed ≡ rest [] }
        ensures empty { Frames [] [] result.feed }
    {
        let mut feed = Feed::new(alloc);
        feed.restock();
        let mut bytes = Vec::new(alloc);
        let _ = bytes.reserve(REPLY_ROOM);
        Held {
            feed,
            lack: Lack::new(),
            out: Replies { bytes, tag: None },
        }
    }

    /// The session ends, and lacks nothing any more.
    pub(crate) fn end<S, H, D: Keeper<S, H>>(self, desk: &D) {
        let Held {
            feed: _,
            lack,
            out: _,
        } = self;
        lack.end::<S, H, D>(desk);
    }
}

/// What stays the same over a session: the runtime of the desk's calls, the desk, the gate, and how many turns there
/// are at most.
#[derive(Drop)]
pub(crate) struct Setting<'a, H, D, G> {
    pub rt: &'a H,
    pub desk: &'a D,
    pub gate: &'a G,
    pub turns: u64,
}

/// A connection as it is served: where it writes, its seat and its clock, and what it holds. It owns none of them, so
/// `run` knows what becomes of each.
pub(crate) struct Connection<'a, H, W, S, D, C, G> {
    pub setting: &'a Setting<'a, H, D, G>,
    pub writer: &'a mut W,
    pub seat: &'a mut S,
    pub clock: &'a mut C,
    pub held: &'a mut Held,
}

impl<'a, H, W, S, D, C, G> Connection<'a, H, W, S, D, C, G> {
    pub(crate) fn new(
        setting: &'a Setting<'a, H, D, G>,
        writer: &'a mut W,
        seat: &'a mut S,
        clock: &'a mut C,
        held: &'a mut Held,
    ) -> Connection<'a, H, W, S, D, C, G>
        ensures setting { result.setting.now ≡ setting.now }
        ensures writer { (result.writer.ghost_name ≡ writer.entry.ghost_name) × (result.writer.now ≡ writer.old) }
        ensures seat { (result.seat.ghost_name ≡ seat.entry.ghost_name) × (result.seat.now ≡ seat.old) }
        ensures clock { (result.clock.ghost_name ≡ clock.entry.ghost_name) × (result.clock.now ≡ clock.old) }
        ensures held { (result.held.ghost_name ≡ held.entry.ghost_name) × (result.held.now ≡ held.old) }
    {
        Connection {
            setting,
            writer,
            seat,
            clock,
            held,
        }
    }
}
