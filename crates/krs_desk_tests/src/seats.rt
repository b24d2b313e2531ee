//! Desks that tests sit at.
ghost use Rattle.std.specs.Prelude.{All, IfSome};
ghost use Rattle.krs_desk.specs.Sitting.{IsIdleAt};

use krs_desk::{Desk, Seat};
use krs_store::Store;
use std::alloc::Global;

/// A desk of so many lanes and its seats. Where memory was refused it is tried again with the store that came back.
pub fn opened(alloc: Global, lanes: u32, store: Store) -> Option<(Desk, Vec<Seat>)>
    ensures { IfSome result (λ d. All (IsIdleAt d.0) d.1.items) }
{
    match Desk::open(alloc, lanes, store) {
        Ok(opened) => Some(opened),
        Err(refused) => match Desk::open(alloc, lanes, refused.store) {
            Ok(opened) => Some(opened),
            Err(_) => None,
        },
    }
}

/// A desk of one lane and its seat.
pub fn one_seat(alloc: Global, store: Store) -> Option<(Desk, Seat)>
    ensures { IfSome result (λ d. IsIdleAt d.0 d.1) }
{
    let (desk, mut seats) = opened(alloc, 1, store)?;
    let seat = seats.pop()?;
    Some((desk, seat))
}

/// A desk of two lanes and its seats.
pub fn two_seats(alloc: Global, store: Store) -> Option<(Desk, Seat, Seat)>
    ensures { IfSome result (λ d. IsIdleAt d.0 d.1 × IsIdleAt d.0 d.2) }
{
    let (desk, mut seats) = opened(alloc, 2, store)?;
    let second = seats.pop()?;
    let first = seats.pop()?;
    Some((desk, first, second))
}

/// The last of these seats, which are idle at the desk; the others stay.
fn next_seat(desk: &Desk, seats: &mut Vec<Seat>) -> Option<Seat>
    requires { All (IsIdleAt desk.now) seats.old.items }
    ensures seat { IfSome result (λ seat. IsIdleAt desk.now seat) }
    ensures rest { All (IsIdleAt desk.now) seats.new.items }
{
    let _desk = desk;
    seats.pop()
}

/// A desk of three lanes and its seats.
pub fn three_seats(alloc: Global, store: Store) -> Option<(Desk, Seat, Seat, Seat)>
    ensures { IfSome result (λ d. IsIdleAt d.0 d.1 × IsIdleAt d.0 d.2 × IsIdleAt d.0 d.3) }
{
    let (desk, mut seats) = opened(alloc, 3, store)?;
    let third = next_seat(&desk, &mut seats)?;
    let second = next_seat(&desk, &mut seats)?;
    let first = next_seat(&desk, &mut seats)?;
    Some((desk, first, second, third))
}
