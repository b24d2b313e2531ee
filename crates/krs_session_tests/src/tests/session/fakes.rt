// Fakes of all that a session is handed. The ends count and the clock tells its answers; the desk tells nothing.
ghost use Rattle.std.specs.Prelude.{◌≡◌};

use krs_session::*;
use krs_types::{Answer, Ask, Body, Errno, Op, Reply};
use std::alloc::{AllocError, Global};
use std::cell::Cell;

/// What an end does once its bytes are given, or its room is full.
#[derive(Clone, Copy)]
pub(super) enum Then {
    GivesNone,
    Fails,
}

/// A reader that gives so many bytes in its next read and so many in each later one.
#[derive(Drop)]
pub(super) struct Pieces<'a> {
    pub left: &'a [u8],
    pub next: usize,
    pub later: usize,
    pub then: Then,
    reads: u64,
    empties: u64,
    failures: u64,
}

pub(super) fn reader_of<'a>(left: &'a [u8], next: usize, later: usize, then: Then) -> Pieces<'a>
    ensures reads { result.reads ≡ 0 }
    ensures empties { result.empties ≡ 0 }
    ensures failures { result.failures ≡ 0 }
{
    Pieces {
        left,
        next,
        later,
        then,
        reads: 0,
        empties: 0,
        failures: 0,
    }
}

impl<'a> Source for Pieces<'a> {
    ghost gave = { λ a bytes b. Unit {0} };

    ghost reads = { λ a. a.reads };

    ghost empties = { λ a. a.empties };

    ghost failures = { λ a. a.failures };

    ghost starts = { λ a. tt };

    ghost joins = { λ a b c xs ys p q. tt };

    fn read(&mut self, room: &mut [u8]) -> Result<usize, Failed> {
        if !room.is_empty() {
            self.reads += 1;
        }
        if self.left.is_empty() && matches!(self.then, Then::Fails) {
            self.failures += 1;
            return Err(Failed);
        }
        let count = self.left.len().min(self.next).min(room.len());
        let (front, rest) = self.left.split_at(count);
        room[..count].copy_from_slice(front);
        self.left = rest;
        self.next = self.later;
        if count == 0 && !room.is_empty() {
            self.empties += 1;
        }
        Ok(count)
    }
}

/// A writer that takes at most so many bytes at a time, and so many in all. It counts its calls, and keeps the length
/// of the longest piece.
#[derive(Drop)]
pub(super) struct Bites {
    pub text: Vec<u8>,
    pub most: usize,
    pub room: usize,
    pub then: Then,
    pub calls: u32,
    pub longest: usize,
    failures: u64,
}

pub(super) fn writer_of(alloc: Global, most: usize, room: usize, then: Then) -> Bites
    ensures failures { result.failures ≡ 0 }
{
    Bites {
        text: Vec::new(alloc),
        most,
        room,
        then,
        calls: 0,
        longest: 0,
        failures: 0,
    }
}

impl Sink for Bites {
    ghost took = { λ a bytes b. Unit {0} };

    ghost failures = { λ a. a.failures };

    ghost starts = { λ a. tt };

    ghost joins = { λ a b c xs ys p q. tt };

    fn write(&mut self, piece: &[u8]) -> Result<usize, Failed> {
        self.calls = self.calls.wrapping_add(1);
        self.longest = self.longest.max(piece.len());
        let count = piece.len().min(self.most).min(self.room);
        let fails = self.room == 0 && matches!(self.then, Then::Fails);
        let (front, _) = piece.split_at(count);
        if fails || self.text.extend_from_slice(front).is_err() {
            self.failures += 1;
            return Err(Failed);
        }
        self.room -= count;
        if count == 0 && !piece.is_empty() {
            self.failures += 1;
        }
        Ok(count)
    }
}

/// A clock that answers 100, 101 and so on.
#[derive(Drop)]
pub(super) struct Rising {
    pub at: u64,
}

impl Clock for Rising {
    ghost use Rattle.krs_session_tests.specs.Ticks.{Ticks, ticks_both, ticks_none};

    ghost ticked = { λ a moments b. Ticks a.at moments b.at };

    ghost starts = { λ a. ticks_none a.at };

    ghost joins = { λ a b c xs ys p q. ticks_both a.at b.at c.at xs ys p q };

    fn now(&mut self) -> u64 {
        let at = self.at;
        self.at = at.wrapping_add(1);
        at
    }
}

/// A clock that answers 100, 101 and so on where it is asked anew, and its last answer where it is asked again.
#[derive(Drop)]
pub(super) struct Anew {
    pub last: u64,
}

impl Clock for Anew {
    ghost ticked = { λ a moments b. Unit {0} };

    ghost starts = { λ a. tt };

    ghost joins = { λ a b c xs ys p q. tt };

    fn now(&mut self) -> u64 {
        self.last = self.last.wrapping_add(1);
        self.last
    }

    fn again(&mut self) -> u64 {
        self.last
    }
}

/// A gate that counts the asks which passed it at Asked and then at Answered, on its lane.
#[derive(Drop)]
pub(super) struct Watching {
    pub lane: u32,
    pub asked: Cell<u32>,
    pub answered: Cell<u32>,
    pub wrong: Cell<u32>,
}

pub(super) fn watches(lane: u32) -> Watching {
    Watching {
        lane,
        asked: Cell::new(0),
        answered: Cell::new(0),
        wrong: Cell::new(0),
    }
}

impl Gate for Watching {
    fn pass(&self, lane: u32, at: Point) {
        let asked = self.asked.get();
        let answered = self.answered.get();
        match at {
            Point::Asked if lane == self.lane && asked == answered => {
                self.asked.set(asked.wrapping_add(1));
            }
            Point::Answered if lane == self.lane && asked == answered.wrapping_add(1) => {
                self.answered.set(asked);
            }
            _ => self.wrong.set(1),
        }
    }
}

/// A desk that replies to HELLO, ADD, READ, EXEC and LEAVE as a new store would, and to CLEAR as if it had no memory.
#[derive(Drop)]
pub(super) struct Table;

/// How many asks a seat made, how many of them were LEAVE and how many were asked after it, and the last moment. A key
/// that is read has `s3` so often.
#[derive(Drop)]
pub(super) struct Chair {
    pub alloc: Global,
    pub lane: u32,
    pub times: usize,
    pub asked: u32,
    pub leaves: u32,
    pub late: u32,
    pub moment: u64,
}

pub(super) fn chair_of(alloc: Global, lane: u32, times: usize) -> Chair {
    Chair {
        alloc,
        lane,
        times,
        asked: 0,
        leaves: 0,
        late: 0,
        moment: 0,
    }
}

fn payload(alloc: Global, times: usize) -> Result<Body, AllocError> {
    let mut bytes = Vec::new(alloc);
    for _ in 0..times {
        bytes.extend_from_slice(b"s3")?;
    }
    bytes.truncate(262_140);
    Ok(Body::new(bytes))
}

impl<R> Keeper<Chair, R> for Table {
    ghost ready = { λ d s. Unit {0} };

    ghost lane_of = { λ s. s.lane };

    ghost leads = { λ s events t. Unit {0} };

    ghost rested = { λ s. Unit {0} };

    fn lane(&self, seat: &Chair) -> u32 {
        seat.lane
    }

    fn call(&self, _rt: &R, seat: &mut Chair, moment: u64, ask: Ask) -> Reply {
        seat.asked = seat.asked.wrapping_add(1);
        seat.moment = moment;
        if seat.leaves != 0 {
            seat.late = 1;
        }
        match &ask.op {
            Op::Hello(_) => Ok(Answer::Number(1)),
            Op::Add { .. } => Ok(Answer::Number(5)),
            Op::Read { .. } => match payload(seat.alloc, seat.times) {
                Ok(bytes) => Ok(Answer::Bytes(bytes)),
                Err(_) => Err(Errno::ENOMEM),
            },
            Op::Clear { .. } => Err(Errno::ENOMEM),
            Op::Exec => Ok(Answer::Nothing),
            Op::Leave => {
                seat.leaves = seat.leaves.wrapping_add(1);
                Ok(Answer::Nothing)
            }
            _ => Err(Errno::EINVAL),
        }
    }

    fn rest(&self, _seat: &mut Chair) {}

    fn is_short(&self) -> bool {
        false
    }

    fn tell_lack(&self, told: &mut u64, lack: u64) {
        *told = lack;
    }

    ghost starts = { λ s. tt };

    ghost joins = { λ s t u xs ys p q. tt };
}
