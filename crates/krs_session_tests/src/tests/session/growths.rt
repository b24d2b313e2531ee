//! What a desk and its sessions do where a growth is refused. A plain run refuses none; `tests/growths` runs each of
//! these with its first growth refused, then with its second, and so on.
ghost use Rattle.std.specs.Prelude.{◌≡◌, All, IfOk};
ghost use Rattle.krs_desk.specs.Sitting.{IsIdleAt};
ghost use Rattle.krs_session.specs.Over.{over_empties, over_failures, over_reads};

use super::fakes::{Pieces, Rising, Then, reader_of, watches, writer_of};
use super::memory::{converse, with_room};
use super::{ASKS, HELLO};
use crate::tests::serve::{Open, Still};
use krs_desk::{Desk, Seat};
use krs_desk_tests::{one_seat, two_seats};
use krs_serve::{Entry, OpenGate, run_sessions};
use krs_session::{Ended, Failed, Keeper, Over, Source, run};
use krs_store::Store;
use krs_store_asks::{Want, add, hello, is_wanted, leave, number_of, read};
use krs_types::{Answer, Ask, Errno, Op, Reply};
use std::alloc::{AllocError, Global};
use std::cell::Cell;
use std::sync::atomic::{AtomicU64, Ordering};
use std::test::*;

// The replies to HELLO, ADD and READ: where each found its memory, and where one of them found none. Without a context
// the others are ESRCH, and without a key READ is ENOKEY.
const REPLIES: [&[u8]; 4] = [
    &[
        8, 0, 0, 0, 0, 0, 0, 0, 1, 0, 0, 0, 8, 0, 0, 0, 0, 0, 0, 0, 5, 0, 0, 0, 6, 0, 0, 0, 0, 0,
        0, 0, 0x73, 0x33,
    ],
    &[
        4, 0, 0, 0, 12, 0, 0, 0, 4, 0, 0, 0, 3, 0, 0, 0, 4, 0, 0, 0, 3, 0, 0, 0,
    ],
    &[
        8, 0, 0, 0, 0, 0, 0, 0, 1, 0, 0, 0, 4, 0, 0, 0, 12, 0, 0, 0, 4, 0, 0, 0, 126, 0, 0, 0,
    ],
    &[
        8, 0, 0, 0, 0, 0, 0, 0, 1, 0, 0, 0, 8, 0, 0, 0, 0, 0, 0, 0, 5, 0, 0, 0, 4, 0, 0, 0, 12, 0,
        0, 0,
    ],
];

/// Whether this is what a session writes that ended so.
fn is_written(text: &[u8], ended: Ended) -> bool {
    for replies in &REPLIES {
        let is_right = match ended {
            Ended::Closed => *replies == text,
            Ended::Memory => replies.starts_with(text),
            _ => false,
        };
        if is_right {
            return true;
        }
    }
    false
}

// ENOMEM stands in the place of a reply, and the later ones are those of a store on which that ask did nothing; or the
// session ends for memory, and what it wrote begins the replies. LEAVE is asked last: the context is gone.
#[test]
fn a_session_tells_of_a_refused_growth_or_ends(rt: HostRuntime) -> Result<(), Fail> {
    let alloc = rt.alloc();
    let (desk, mut seat) = one_seat(alloc, Store::new(alloc)).ok_or("no desk")?;
    let gate = watches(0);
    let (text, ended) = converse(&rt, alloc, &ASKS, &desk, &mut seat, &gate);
    let has_passed = gate.asked.get() == gate.answered.get() && gate.wrong.get() == 0;
    assert!(rt; has_passed && is_written(&text, ended), "{text:?}");
    let Ok(mut store) = desk.close(seat) else {
        return Err(Fail::new("the turn is out"));
    };
    assert!(rt; is_wanted(&store.apply(0, 0, read(1, 5)), Want::Refused(Errno::ESRCH)));
    Ok(())
}

// However a session ended, for memory too, another seat has the turn at once.
#[test]
fn a_session_that_ended_has_left_the_turn_free(rt: HostRuntime) -> Result<(), Fail> {
    let alloc = rt.alloc();
    let (desk, mut first, mut second) = two_seats(alloc, Store::new(alloc)).ok_or("no desk")?;
    let mut reader = reader_of(&ASKS, 4096, 4096, Then::GivesNone);
    let mut writer = writer_of(alloc, 4096, 4096, Then::GivesNone);
    let _ended = run(
        &rt,
        alloc,
        &mut reader,
        &mut writer,
        &desk,
        &mut first,
        &mut Still,
        &OpenGate,
        99,
    );
    assert!(rt; desk.try_call(&mut second, 0, leave()).is_ok());
    Ok(())
}

/// The asks of two seats, by their place.
fn ask_at(alloc: Global, place: u8) -> Result<Ask, AllocError> {
    match place {
        0 | 2 => Ok(hello(alloc, 1000)),
        1 => add(alloc, b"user", b"alpha", b"s3", -4),
        3 => Ok(read(2, 5)),
        _ => Ok(read(1, 5)),
    }
}

/// The reply to the ask at a place, which is made again where it found no memory.
fn reply_at(alloc: Global, desk: &Desk, seat: &mut Seat, place: u8) -> Result<Reply, Fail>
    requires { IsIdleAt desk.now seat.old }
    ensures { IsIdleAt desk.now seat.new }
{
    let ask = match ask_at(alloc, place) {
        Ok(ask) => ask,
        Err(_) => ask_at(alloc, place)?,
    };
    let replied = match desk.try_call(seat, 0, ask) {
        Ok(Err(Errno::ENOMEM)) => desk.try_call(seat, 0, ask_at(alloc, place)?),
        replied => replied,
    };
    match replied {
        Ok(reply) => Ok(reply),
        Err(_) => Err(Fail::new("an ask came back")),
    }
}

// Every call by `try_call` on one thread: no ask comes back. What is done again after a refused growth, of `open` or of
// an ask, goes on as if none had been refused.
#[test]
fn one_thread_is_never_handed_an_ask_back(rt: HostRuntime) -> Result<(), Fail> {
    let alloc = rt.alloc();
    let (desk, mut first, mut second) = two_seats(alloc, Store::new(alloc)).ok_or("no desk")?;
    let context = number_of(&reply_at(alloc, &desk, &mut first, 0)?);
    let serial = number_of(&reply_at(alloc, &desk, &mut first, 1)?);
    desk.meet(&mut first, &mut second);
    let other = number_of(&reply_at(alloc, &desk, &mut second, 2)?);
    assert!(rt; (context, serial, other) == (1, 5, 2));
    let is_read = is_wanted(&reply_at(alloc, &desk, &mut second, 3)?, Want::Bytes(b"s3"));
    let gone = Want::Refused(Errno::ESRCH);
    assert!(rt; is_read && is_wanted(&reply_at(alloc, &desk, &mut second, 4)?, gone));
    Ok(())
}

/// A desk that counts the HELLOs and LEAVEs of each of two lanes. A seat is its lane.
#[derive(Drop)]
struct Counts {
    hellos: [AtomicU64; 2],
    leaves: [AtomicU64; 2],
}

/// Adds one to the count of a lane.
fn count(counts: &[AtomicU64; 2], lane: u32) {
    let [first, second] = counts;
    let _ = if lane == 0 { first } else { second }.fetch_add(1, Ordering::SeqCst);
}

impl<R> Keeper<u32, R> for Counts {
    ghost ready = { λ d s. Unit {0} };

    ghost lane_of = { λ s. s };

    ghost leads = { λ s events t. Unit {0} };

    ghost rested = { λ s. Unit {0} };

    fn lane(&self, seat: &u32) -> u32 {
        *seat
    }

    fn call(&self, _rt: &R, seat: &mut u32, _moment: u64, ask: Ask) -> Reply {
        match ask.op {
            Op::Hello(_) => count(&self.hellos, *seat),
            Op::Leave => count(&self.leaves, *seat),
            _ => {}
        }
        Ok(Answer::Nothing)
    }

    fn rest(&self, _seat: &mut u32) {}

    fn is_short(&self) -> bool {
        false
    }

    fn tell_lack(&self, told: &mut u64, lack: u64) {
        *told = lack;
    }

    ghost starts = { λ s. tt };

    ghost joins = { λ s t u xs ys p q. tt };
}

/// Two sessions of HELLO that write into room of their own.
fn two_sessions(
    alloc: Global,
) -> Result<Vec<Entry<Over<&'static [u8]>, Over<Vec<u8>>, Still>>, AllocError>
    ensures { IfOk result (λ list. All (λ entry. (over_reads entry.reader ≡ 0) × (over_empties entry.reader ≡ 0)
        × (over_failures entry.reader ≡ 0) × (over_failures entry.writer ≡ 0)) list.items) }
{
    let mut list = Vec::with_capacity(alloc, 2)?;
    'sessions: for _session in 0..2 {
        list.push(Entry {
            reader: Over::new(HELLO.as_slice()),
            writer: Over::new(with_room(alloc)),
            clock: Still,
        })?;
    }
    Ok(list)
}

// Where `run_sessions` finds no memory, each session that began has ended, with its LEAVE asked.
#[test]
fn sessions_that_began_leave(rt: HostRuntime) -> Result<(), Fail> {
    let alloc = rt.alloc();
    let Ok(list) = two_sessions(alloc) else {
        return Ok(());
    };
    let Ok(seats) = Vec::from_slice(alloc, &[0u32, 1]) else {
        return Ok(());
    };
    let desk = Counts {
        hellos: [AtomicU64::new(0), AtomicU64::new(0)],
        leaves: [AtomicU64::new(0), AtomicU64::new(0)],
    };
    if seats.len() != list.len() {
        return Err(Fail::new("not a seat for each"));
    }
    let ended = run_sessions(&rt, alloc, list, &desk, seats, &Open, 99);
    for (hellos, leaves) in desk.hellos.iter().zip(desk.leaves.iter()) {
        let (hellos, leaves) = (hellos.load(Ordering::SeqCst), leaves.load(Ordering::SeqCst));
        assert!(rt; leaves == 1 || (ended.is_err() && hellos == 0));
    }
    Ok(())
}

/// A desk that accepts all, and keeps how much its session has told to be lacking. A seat is its lane.
#[derive(Drop)]
struct Hears {
    told: Cell<u64>,
}

impl<R> Keeper<u32, R> for Hears {
    ghost ready = { λ d s. Unit {0} };

    ghost lane_of = { λ s. s };

    ghost leads = { λ s events t. Unit {0} };

    ghost rested = { λ s. Unit {0} };

    fn lane(&self, seat: &u32) -> u32 {
        *seat
    }

    fn call(&self, _rt: &R, _seat: &mut u32, _moment: u64, _ask: Ask) -> Reply {
        Ok(Answer::Nothing)
    }

    fn rest(&self, _seat: &mut u32) {}

    fn is_short(&self) -> bool {
        false
    }

    fn tell_lack(&self, told: &mut u64, lack: u64) {
        *told = lack;
        self.told.set(lack);
    }

    ghost starts = { λ s. tt };

    ghost joins = { λ s t u xs ys p q. tt };
}

/// A reader in pieces that notes the most which its session had told to be lacking as it came to read.
#[derive(Drop)]
struct Waits<'a> {
    pieces: Pieces<'a>,
    told: &'a Cell<u64>,
    lacked: u64,
}

impl<'a> Source for Waits<'a> {
    ghost gave = { λ a bytes b. Unit {0} };

    ghost reads = { λ a. a.pieces.reads };

    ghost empties = { λ a. a.pieces.empties };

    ghost failures = { λ a. a.pieces.failures };

    ghost starts = { λ a. tt };

    ghost joins = { λ a b c xs ys p q. tt };

    fn read(&mut self, room: &mut [u8]) -> Result<usize, Failed> {
        self.lacked = self.lacked.max(self.told.get());
        self.pieces.read(room)
    }
}

// What a session had not of its reserve, or let go of it, it has taken back before it waits to read again: one growth
// alone is refused.
#[test]
fn a_session_that_waits_lacks_nothing(rt: HostRuntime) {
    let alloc = rt.alloc();
    let desk = Hears { told: Cell::new(0) };
    let mut reader = Waits {
        pieces: reader_of(&ASKS, 24, 35, Then::GivesNone),
        told: &desk.told,
        lacked: 0,
    };
    let mut writer = Over::new(with_room(alloc));
    let mut seat = 0;
    let mut clock = Rising { at: 100 };
    let ended = run(
        &rt,
        alloc,
        &mut reader,
        &mut writer,
        &desk,
        &mut seat,
        &mut clock,
        &watches(0),
        99,
    );
    let lacked = reader.lacked;
    assert!(rt;
        lacked == 0 && desk.told.get() == 0,
        "{lacked} bytes, {ended:?}"
    );
}
