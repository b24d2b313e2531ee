ghost use Rattle.std.specs.Prelude.{[], ◌++◌, ◌<◌, ◌↔◌, ◌∷◌, ◌≡◌, IfErr, IfNone, IfSome, IsErr, IsSome, OnErr, OnOk};
ghost use Rattle.std.specs.Prelude.{vec_capacity, vec_len};
ghost use Rattle.krs_listen.specs.Accepting.{seat_count};

use crate::AwaitsEnd;
use crate::free_list::FreeList;
use std::alloc::Global;
use std::mem;
use std::sync::{Condvar, CondvarTimeouts, Mutex, Wait};
use std::time::{Clock, Duration};

/// The seats on which no connection is served.
#[derive(Drop)]
pub struct FreeSeats<S> {
    seats: Mutex<FreeList<S>>,
    returned: Condvar,
    /// How many there are, those in use among them.
    count: usize,
}

impl<S: Drop> FreeSeats<S> {
    /// All of these are free. The list keeps room for each of them.
    pub fn new(seats: Vec<S>) -> FreeSeats<S>
        ensures { seat_count result ≡ vec_len seats }
    {
        FreeSeats {
            count: seats.len(),
            seats: Mutex::new(FreeList::new(seats)),
            returned: Condvar::new(),
        }
    }

    /// A free seat, waited for where there is none.
    pub fn take<R: Wait>(&self, rt: &R) -> S {
        for _ in rt.forever() {
            let seats = self.seats.lock(rt);
            let mut seats = self
                .returned
                .wait_while(rt, seats, |seats| seats.is_none_free());
            if let Some(seat) = seats.free.pop() {
                return seat;
            }
        }
        unreachable!()
    }

    /// Gives a seat back that was taken, and wakes a thread that waits for one.
    pub fn give<R: Wait>(&self, rt: &R, seat: S) {
        let _ = put_back(&mut self.seats.lock(rt).free, seat);
        self.returned.notify_one();
    }

    /// All seats, once each has been given back. Nothing is free then.
    pub fn take_all<R: Wait>(&self, rt: &R, alloc: Global) -> Vec<S>
        ensures { vec_len result ≡ seat_count self.now }
    {
        let count = self.count;
        for _ in rt.forever() {
            let seats = self.seats.lock(rt);
            let mut seats = self
                .returned
                .wait_while(rt, seats, |seats| !seats.are_as_many(count));
            if let Some(all) = all_of(&mut seats.free, alloc, count) {
                return all;
            }
        }
        unreachable!()
    }
}

impl<S, R: Wait + Clock> AwaitsEnd<R> for FreeSeats<S> {
    /// Waits until a seat is given back, but no longer than that. The answer is whether a connection is still served,
    /// beside the seat that the caller holds.
    fn await_end(&self, rt: &R, longest: Duration) -> bool {
        let seats = self.seats.lock(rt);
        let before = seats.len();
        let (seats, _) = self
            .returned
            .wait_timeout_while(rt, seats, longest, |seats| seats.are_as_many(before));
        seats.is_any_in_use()
    }
}

/// Puts a seat into a list that keeps its room, which needs no memory. It comes back where there is no room.
fn put_back<S: Drop>(free: &mut Vec<S>, seat: S) -> Result<(), S>
    ensures ok { OnOk result (free.new.items ≡ free.old.items ++ seat ∷ []) }
    ensures back { IfErr result (λ back. back ≡ seat) }
    ensures kept { OnErr result (free.new ≡ free.old) }
    ensures full { IsErr result ↔ (¬ (vec_len free.old < vec_capacity free.old)) }
    ensures room { vec_capacity free.new ≡ vec_capacity free.old }
{
    if free.len() < free.capacity() {
        free.push_reserved(seat);
        return Ok(());
    }
    Err(seat)
}

/// What is in a list, where that are so many.
fn all_of<S: Drop>(free: &mut Vec<S>, alloc: Global, count: usize) -> Option<Vec<S>>
    ensures all { IfSome result (λ all. all.items ≡ free.old.items) }
    ensures many { IfSome result (λ all. vec_len all ≡ count) }
    ensures none { IfNone result (free.new ≡ free.old) }
    ensures when { IsSome result ↔ (vec_len free.old ≡ count) }
{
    if free.len() != count {
        return None;
    }
    Some(mem::replace(free, Vec::new(alloc)))
}
