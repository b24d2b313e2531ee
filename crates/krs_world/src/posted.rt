//! The steps of posted calls: a seat leaves its call in its cell, and the holder of the turn answers it.
ghost use Rattle.std.specs.Prelude.{IfErr, IfOk};
ghost use Rattle.krs_world.specs.World.{MovesBy, RefusedBy};
ghost use Rattle.krs_world.specs.declared.step.Kind.TheVariants.{Answer, Collect, CollectFound, Grab, LookAt, Post};

use crate::Service;
use crate::lane::{Slot, is_done, is_idle};
use crate::world::{World, copy_with_room, serve};
use krs_types::{Ask, Errno};
use std::mem;

impl World {
    /// The lane's seat leaves a call in its cell, where that is empty.
    pub(crate) fn post(&mut self, lane: u32, moment: u64, ask: Ask) -> bool
        ensures { MovesBy self.old lane (Post moment ask) result self.new }
    {
        if !is_idle(&self.lanes, lane) {
            return false;
        }
        let seat = &mut self.lanes[lane as usize];
        seat.after = seat.seen;
        seat.done = false;
        seat.slot = Slot::Posted(moment, ask);
        true
    }

    /// The lane's seat takes the reply out of its cell, where that is answered, and has seen the history up to this
    /// length, the call among it.
    pub(crate) fn collect(&mut self, lane: u32, seen: usize) -> bool
        ensures { MovesBy self.old lane (Collect seen) result self.new }
    {
        let at = lane as usize;
        let Some(seat) = self.lanes.get(at) else {
            return false;
        };
        let Slot::Answered(place) = seat.slot else {
            return false;
        };
        if seen <= place {
            return false;
        }
        if seen < seat.seen {
            return false;
        }
        if self.log.len() < seen {
            return false;
        }
        let seat = &mut self.lanes[at];
        seat.seen = seen;
        seat.done = false;
        seat.slot = Slot::Empty;
        true
    }

    /// Whether there is no reply in the lane's cell.
    pub(crate) fn collect_found(&self, lane: u32) -> bool
        ensures { MovesBy self.now lane CollectFound result self.now }
    {
        let Some(seat) = self.lanes.get(lane as usize) else {
            return false;
        };
        !matches!(&seat.slot, Slot::Answered(_))
    }

    /// The holder of the turn, which serves no call, takes up the one in this lane's cell.
    pub(crate) fn grab(&mut self, lane: u32, other: u32) -> bool
        ensures { MovesBy self.old lane (Grab other) result self.new }
    {
        let Some(holder) = self.out else {
            return false;
        };
        if lane != holder {
            return false;
        }
        let None = self.serving else {
            return false;
        };
        let at = other as usize;
        let Some(posted) = self.lanes.get(at) else {
            return false;
        };
        let Slot::Posted(..) = posted.slot else {
            return false;
        };
        let slot = &mut self.lanes[at].slot;
        let Slot::Posted(moment, ask) = mem::replace(slot, Slot::Serving) else {
            unreachable!()
        };
        self.serving = Some(Service {
            lane: other,
            moment,
            ask,
        });
        true
    }

    /// The holder has the store answer the call that it took up.
    pub(crate) fn answer(&mut self, lane: u32) -> Result<bool, Errno>
        ensures moved { IfOk result (λ done. MovesBy self.old lane Answer done self.new) }
        ensures refused { IfErr result (λ error. RefusedBy self.old lane Answer error self.new) }
    {
        let Some(holder) = self.out else {
            return Ok(false);
        };
        if holder != lane {
            return Ok(false);
        }
        let Some(call) = &self.serving else {
            return Ok(false);
        };
        let other = call.lane;
        let seat = &mut self.lanes[lane as usize];
        let Ok(()) = seat.checked.reserve(1) else {
            return Err(Errno::ENOMEM);
        };
        let Ok(copy) = copy_with_room(&mut self.log, &call.ask) else {
            return Err(Errno::ENOMEM);
        };
        seat.checked.push_reserved(other);
        seat.done = is_done(seat.done, other == lane, true);
        self.lanes[other as usize].slot = Slot::Answered(self.log.len());
        let Some(call) = self.serving.take() else {
            unreachable!()
        };
        serve(
            &mut self.store,
            &mut self.log,
            other,
            call.moment,
            call.ask,
            copy,
        );
        Ok(true)
    }

    /// The holder looks at this lane's cell, and finds no call posted there.
    pub(crate) fn look_at(&mut self, lane: u32, other: u32) -> Result<bool, Errno>
        ensures moved { IfOk result (λ done. MovesBy self.old lane (LookAt other) done self.new) }
        ensures refused { IfErr result (λ error. RefusedBy self.old lane (LookAt other) error self.new) }
    {
        let Some(holder) = self.out else {
            return Ok(false);
        };
        if holder != lane {
            return Ok(false);
        }
        let Some(posted) = self.lanes.get(other as usize) else {
            return Ok(false);
        };
        if let Slot::Posted(..) = posted.slot {
            return Ok(false);
        }
        let reply = posted.slot.has_reply();
        let seat = &mut self.lanes[lane as usize];
        let Ok(()) = seat.checked.push(other) else {
            return Err(Errno::ENOMEM);
        };
        seat.done = is_done(seat.done, other == lane, reply);
        Ok(true)
    }
}
