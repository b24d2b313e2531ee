//! The machine: it runs the steps, and a contract sees what every seat knows.
ghost use Rattle.std.specs.Prelude.{◌<◌, ◌≡◌, ◌≤◌, false, IfErr, IfOk, None, Some, true, vec_capacity, vec_len};
ghost use Rattle.krs_world.specs.{Kept.{MayPut, Serves}, World.{MovesBy, new_world, RefusedBy}};
ghost use Rattle.krs_world.specs.declared.step.Kind.TheVariants.{Load, Put, Serve, Take, TakeFound};

use crate::lane::{Lane, Slot, is_idle};
use crate::{Kind, Service, WorldStep};
use krs_store::Store;
use krs_types::{Ask, Errno, Event};
use std::alloc::{AllocError, Global};
use std::marker::Model;

/// Seats of lanes over one store, with the list of all calls. No store is copied, and no event: what a seat has seen
/// is a length of the list. An ask that is posted lies in its lane's slot, then in `serving`, then in the list.
#[derive(Drop)]
pub struct World {
    pub(crate) store: Store,
    pub(crate) out: Option<u32>,
    pub(crate) serving: Option<Service>,
    pub(crate) log: Vec<Event>,
    pub(crate) lanes: Vec<Lane>,
}

impl Model for World {
    ghost use Rattle.krs_world.specs.Kept.{IsKept, world_of};
    ghost use Rattle.krs_world.specs.World as world;

    ghost Value = { world.World };

    ghost view = { λ w. world_of w.store w.out w.serving w.log.items w.lanes.items };

    ghost invariant = { λ w. IsKept w.store w.out w.serving w.log.items w.lanes.items };
}

impl World {
    /// Seats of so many lanes, over a new store.
    pub fn new(alloc: Global, lanes: u32) -> Result<World, AllocError>
        requires { 1 ≤ lanes }
        ensures { IfOk result (λ w. w ≡ new_world lanes) }
    {
        let mut seats = Vec::with_capacity(alloc, lanes as usize)?;
        for lane in 0..lanes {
            seats.push_reserved(Lane {
                lane,
                seen: 0,
                base: 0,
                holding: false,
                taken: 0,
                found: 0,
                after: 0,
                slot: Slot::Empty,
                checked: Vec::new(alloc),
                done: false,
            });
        }
        Ok(World {
            store: Store::new(alloc),
            out: None,
            serving: None,
            log: Vec::new(alloc),
            lanes: seats,
        })
    }

    /// One step: true where it was made, false where it isn't possible. A put serves its ask by the store, and so do a
    /// serve and an answer; the reply is what the store answers, ENOMEM too. ENOSPC where the step would raise a number
    /// that is the greatest already; ENOMEM where there is no memory for the event of a call, or to keep that a lane's
    /// cell was looked at.
    pub fn step(&mut self, step: WorldStep) -> Result<bool, Errno>
        ensures moved { IfOk result (λ done. MovesBy self.old step.lane step.kind done self.new) }
        ensures refused { IfErr result (λ error. RefusedBy self.old step.lane step.kind error self.new) }
    {
        let lane = step.lane;
        match step.kind {
            Kind::Take => self.take(lane),
            Kind::TakeFound => self.take_found(lane),
            Kind::Put(Some((moment, ask))) => self.put(lane, moment, ask),
            Kind::Put(None) => Ok(self.put_none(lane)),
            Kind::Serve(moment, ask) => self.serve_own(lane, moment, ask),
            Kind::Load(seen) => Ok(self.load(lane, seen)),
            Kind::Post(moment, ask) => Ok(self.post(lane, moment, ask)),
            Kind::Grab(other) => Ok(self.grab(lane, other)),
            Kind::Answer => self.answer(lane),
            Kind::Collect(seen) => Ok(self.collect(lane, seen)),
            Kind::CollectFound => Ok(self.collect_found(lane)),
            Kind::LookAt(other) => self.look_at(lane, other),
        }
    }

    // The lane's seat has the turn, where it is free.
    fn take(&mut self, lane: u32) -> Result<bool, Errno>
        ensures moved { IfOk result (λ done. MovesBy self.old lane Take done self.new) }
        ensures refused { IfErr result (λ error. RefusedBy self.old lane Take error self.new) }
    {
        let None = self.out else {
            return Ok(false);
        };
        let at = lane as usize;
        let Some(seat) = self.lanes.get(at) else {
            return Ok(false);
        };
        let Some(taken) = seat.taken.checked_add(1) else {
            return Err(Errno::ENOSPC);
        };
        let seat = &mut self.lanes[at];
        seat.taken = taken;
        seat.holding = true;
        seat.base = self.log.len();
        seat.checked.clear();
        self.out = Some(lane);
        Ok(true)
    }

    // The lane's seat finds the turn out at another.
    fn take_found(&mut self, lane: u32) -> Result<bool, Errno>
        ensures moved { IfOk result (λ done. MovesBy self.old lane TakeFound done self.new) }
        ensures refused { IfErr result (λ error. RefusedBy self.old lane TakeFound error self.new) }
    {
        let Some(holder) = self.out else {
            return Ok(false);
        };
        if holder == lane {
            return Ok(false);
        }
        let at = lane as usize;
        let Some(seat) = self.lanes.get(at) else {
            return Ok(false);
        };
        let Some(found) = seat.found.checked_add(1) else {
            return Err(Errno::ENOSPC);
        };
        self.lanes[at].found = found;
        Ok(true)
    }

    // The holder brings the store home as it was.
    fn put_none(&mut self, lane: u32) -> bool
        ensures { MovesBy self.old lane (Put None) result self.new }
    {
        let Some(holder) = self.out else {
            return false;
        };
        if holder != lane {
            return false;
        }
        let None = self.serving else {
            return false;
        };
        let seat = &mut self.lanes[lane as usize];
        seat.seen = self.log.len();
        seat.holding = false;
        self.out = None;
        true
    }

    // The holder has its ask served, and brings the store home.
    fn put(&mut self, lane: u32, moment: u64, ask: Ask) -> Result<bool, Errno>
        ensures moved { IfOk result (λ done. MovesBy self.old lane (Put (Some (moment, ask))) done self.new) }
        ensures refused { IfErr result (λ error. RefusedBy self.old lane (Put (Some (moment, ask))) error self.new) }
    {
        if !may_put(self.out, &self.serving, &self.lanes, lane) {
            return Ok(false);
        }
        let Ok(copy) = copy_with_room(&mut self.log, &ask) else {
            return Err(Errno::ENOMEM);
        };
        serve(&mut self.store, &mut self.log, lane, moment, ask, copy);
        let seat = &mut self.lanes[lane as usize];
        seat.seen = self.log.len();
        seat.holding = false;
        self.out = None;
        Ok(true)
    }

    // The holder has its ask served, and keeps the turn.
    fn serve_own(&mut self, lane: u32, moment: u64, ask: Ask) -> Result<bool, Errno>
        ensures moved { IfOk result (λ done. MovesBy self.old lane (Serve moment ask) done self.new) }
        ensures refused { IfErr result (λ error. RefusedBy self.old lane (Serve moment ask) error self.new) }
    {
        if !may_put(self.out, &self.serving, &self.lanes, lane) {
            return Ok(false);
        }
        let Ok(copy) = copy_with_room(&mut self.log, &ask) else {
            return Err(Errno::ENOMEM);
        };
        serve(&mut self.store, &mut self.log, lane, moment, ask, copy);
        let seat = &mut self.lanes[lane as usize];
        seat.seen = self.log.len();
        Ok(true)
    }

    // The lane's seat has seen the history up to this length.
    fn load(&mut self, lane: u32, seen: usize) -> bool
        ensures { MovesBy self.old lane (Load seen) result self.new }
    {
        let at = lane as usize;
        let Some(seat) = self.lanes.get(at) else {
            return false;
        };
        if seen < seat.seen {
            return false;
        }
        if self.log.len() < seen {
            return false;
        }
        self.lanes[at].seen = seen;
        true
    }
}

/// Whether the lane has the turn, serves no posted call, and has none of its own in its cell.
fn may_put(out: Option<u32>, serving: &Option<Service>, lanes: &[Lane], lane: u32) -> bool
    ensures may { result ≡ true → MayPut out serving.now lanes.now lane }
    ensures not { result ≡ false → ¬ MayPut out serving.now lanes.now lane }
{
    let Some(holder) = out else {
        return false;
    };
    if holder != lane {
        return false;
    }
    let None = serving else {
        return false;
    };
    is_idle(lanes, lane)
}

/// A copy of an ask for the list, which then has room for its call.
pub(crate) fn copy_with_room(log: &mut Vec<Event>, ask: &Ask) -> Result<Ask, AllocError>
    ensures same { log.new.items ≡ log.old.items }
    ensures room { IfOk result (λ _. vec_len log.new < vec_capacity log.new) }
    ensures copy { IfOk result (λ copy. copy ≡ ask.now) }
{
    log.reserve(1)?;
    ask.copy(*log.allocator())
}

/// Has the store answer an ask, and appends the call to the list, which has room for it, with a copy of the ask.
pub(crate) fn serve(
    store: &mut Store,
    log: &mut Vec<Event>,
    lane: u32,
    moment: u64,
    ask: Ask,
    copy: Ask,
)
    requires room { vec_len log.old < vec_capacity log.old }
    requires copy { copy ≡ ask }
    ensures { Serves store.old log.old.items lane moment ask store.new log.new.items }
{
    let reply = store.apply(lane, moment, ask);
    log.push_reserved(Event {
        lane,
        moment,
        ask: copy,
        reply,
    });
}
