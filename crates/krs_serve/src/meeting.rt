//! Seats that meet after their connections, and so learn that these stand in one history.
ghost use Rattle.std.specs.{Prelude.{◌≡◌, map, vec_len}, VecDeque.{deque_capacity, deque_len}};
ghost use Rattle.krs_model.specs.State.{starting_at};
ghost use Rattle.krs_desk.specs.Seen.{IsOneHistory};
ghost use Rattle.krs_listen.specs.Accepting.{seat_count};
ghost use Rattle.krs_serve.specs.OneDesk.{HaveOneHistory, MeetsEach, ServeInOneHistory};

use crate::connection::{meet_two, see_one_history};
use crate::{AtDesk, Sitting};
use krs_listen::FreeSeats;
use krs_session::{Sink, Source};
use std::alloc::Global;
use std::collections::VecDeque;
use std::sync::Wait;

/// The first meets each of the others, which stay in order.
fn meet_each<'d, N: AtDesk, R: Source, W: Sink>(
    first: Sitting<'d, N, R, W>,
    others: &mut VecDeque<Sitting<'d, N, R, W>>,
) -> Sitting<'d, N, R, W>
    requires { IsOneHistory first.seat.opening first.seat.part.seen }
    ensures met { MeetsEach first.entry.seat (map (λ s. s.seat) others.old.items) result.seat
        (map (λ s. s.seat) others.new.items) }
    ensures len { deque_len others.new ≡ deque_len others.old }
    ensures room { deque_capacity others.new ≡ deque_capacity others.old }
{
    let count = others.len();
    let mut first = first;
    'others: for _met in 0..count {
        let Some(other) = others.pop_front() else {
            unreachable!()
        };
        let (again, met) = meet_two(first, other);
        first = again;
        others.push_back_reserved(met);
    }
    first
}

/// Has the seats meet until each knows of one history that has the calls of all. The first meets the others twice: what
/// it has seen after the first round has all their calls, and what they have seen after the second begins with that and
/// has no others.
pub(crate) fn meet_all<'d, N: AtDesk, R: Source, W: Sink>(
    seats: Vec<Sitting<'d, N, R, W>>,
) -> Vec<Sitting<'d, N, R, W>>
    ensures len { vec_len result ≡ vec_len seats.entry }
    ensures met { HaveOneHistory (starting_at 3) (map (λ s. s.seat) seats.entry.items)
        (map (λ s. s.seat) result.items) }
    ensures history { ServeInOneHistory R.Source W.Sink 16777216 (map (λ s. s.seat) result.items) }
{
    let mut others = VecDeque::from(seats);
    let Some(first) = others.pop_front() else {
        return Vec::from(others);
    };
    see_one_history(&first);
    let once = meet_each(first, &mut others);
    let twice = meet_each(once, &mut others);
    others.push_front_reserved(twice);
    Vec::from(others)
}

/// All seats, once each has come back, and has met the others.
pub(crate) fn take_back<'d, N: AtDesk, S: Source, T: Sink, R: Wait>(
    rt: &R,
    alloc: Global,
    free: &FreeSeats<Sitting<'d, N, S, T>>,
) -> Vec<Sitting<'d, N, S, T>>
    ensures seats { vec_len result ≡ seat_count free.now }
    ensures one_history { ServeInOneHistory S.Source T.Sink 16777216 (map (λ s. s.seat) result.items) }
{
    let seats = free.take_all(rt, alloc);
    meet_all(seats)
}
