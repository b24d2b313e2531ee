//! Many sessions at once over memory. The daemon and its clients are tried by `tests/service`, on the built programs.
ghost use Rattle.std.specs.Prelude.{◌≡◌, All, IfOk};
ghost use Rattle.krs_session.specs.Over.{over_empties, over_failures, over_reads};

use krs_desk::Desk;
use krs_serve::{Entry, run_sessions};
use krs_session::{Clock, Ended, Failed, Gate, Over, Point, Sink};
use krs_store::Store;
use krs_wire::WireFault;
use std::alloc::{AllocError, Global};
use std::sync::atomic::{AtomicU64, Ordering};
use std::sync::{Mutex, Wait};
use std::test::*;
use std::thread::Threads;
use std::time::Duration;
use std::{thread, time};

// HELLO 1000 1000 without groups.
const HELLO: [u8; 24] = [
    0x14, 0, 0, 0, 1, 0, 0, 1, 0, 0, 0, 0, 0xe8, 3, 0, 0, 0xe8, 3, 0, 0, 0, 0, 0, 0,
];

// The first half of it.
const HALF_A_HELLO: [u8; 12] = [0x14, 0, 0, 0, 1, 0, 0, 1, 0, 0, 0, 0];

// HELLO, and the length 7 in the same piece.
const HELLO_AND_7: [u8; 28] = [
    0x14, 0, 0, 0, 1, 0, 0, 1, 0, 0, 0, 0, 0xe8, 3, 0, 0, 0xe8, 3, 0, 0, 0, 0, 0, 0, 7, 0, 0, 0,
];

// HELLO, and READ of 5 in context 1; the replies to a session that has context 1, and to one that has context 2.
const HELLO_AND_READ: [u8; 40] = [
    0x14, 0, 0, 0, 1, 0, 0, 1, 0, 0, 0, 0, 0xe8, 3, 0, 0, 0xe8, 3, 0, 0, 0, 0, 0, 0, //
    0x0c, 0, 0, 0, 1, 0, 0x0b, 0, 1, 0, 0, 0, 5, 0, 0, 0,
];

const CONTEXT_1_AND_ENOKEY: [u8; 20] = [
    8, 0, 0, 0, 0, 0, 0, 0, 1, 0, 0, 0, 4, 0, 0, 0, 0x7e, 0, 0, 0,
];

const CONTEXT_2_AND_ESRCH: [u8; 20] = [8, 0, 0, 0, 0, 0, 0, 0, 2, 0, 0, 0, 4, 0, 0, 0, 3, 0, 0, 0];

/// A writer into a text that others read once it is through.
#[derive(Drop)]
struct Noted<'a, R> {
    rt: &'a R,
    text: &'a Mutex<Vec<u8>>,
    failures: u64,
}

impl<'a, R: Wait> Sink for Noted<'a, R> {
    ghost took = { λ a bytes b. Unit {0} };

    ghost failures = { λ a. a.failures };

    ghost starts = { λ a. tt };

    ghost joins = { λ a b c xs ys p q. tt };

    fn write(&mut self, piece: &[u8]) -> Result<usize, Failed> {
        if self.text.lock(self.rt).extend_from_slice(piece).is_err() {
            self.failures += 1;
            return Err(Failed);
        }
        Ok(piece.len())
    }
}

/// A clock that stands still.
#[derive(Drop)]
pub(super) struct Still;

impl Clock for Still {
    ghost ticked = { λ a moments b. Unit {0} };

    ghost starts = { λ a. tt };

    ghost joins = { λ a b c xs ys p q. tt };

    fn now(&mut self) -> u64 {
        100
    }
}

/// A gate that holds nobody.
pub(super) struct Open;

impl Gate for Open {
    fn pass(&self, _lane: u32, _at: Point) {}
}

/// The number in a reply of 12 bytes, and 0 for any other text.
fn number_in(text: &[u8]) -> u32 {
    match text {
        [8, 0, 0, 0, 0, 0, 0, 0, a, b, c, d] => u32::from_le_bytes([*a, *b, *c, *d]),
        _ => 0,
    }
}

/// Whether the numbers in these texts are those from 1 to the count, each once.
fn are_each_once(alloc: Global, texts: &[Vec<u8>], count: u32) -> Result<bool, AllocError> {
    let mut numbers = Vec::new(alloc);
    for text in texts {
        let number = number_in(text);
        if number != 0 {
            numbers.push(number)?;
        }
    }
    numbers.sort_unstable();
    let mut wanted = 1u32;
    for number in numbers.iter() {
        if *number != wanted {
            return Ok(false);
        }
        wanted = wanted.saturating_add(1);
    }
    Ok(numbers.len() == count as usize)
}

/// An entry for each text. The sessions at even places are sent the first of these inputs, the others the second.
fn entries_of<'a, R: Wait>(
    rt: &'a R,
    alloc: Global,
    texts: &'a [Mutex<Vec<u8>>],
    inputs: [&'static [u8]; 2],
) -> Result<Vec<Entry<Over<&'static [u8]>, Noted<'a, R>, Still>>, AllocError>
    ensures { IfOk result (λ list. All (λ entry. (over_reads entry.reader ≡ 0) × (over_empties entry.reader ≡ 0)
        × (over_failures entry.reader ≡ 0) × (entry.writer.failures ≡ 0)) list.items) }
{
    let [mut input, mut other] = inputs;
    let mut list = Vec::new(alloc);
    'texts: for text in texts {
        let writer = Noted {
            rt,
            text,
            failures: 0,
        };
        list.push(Entry {
            reader: Over::new(input),
            writer,
            clock: Still,
        })?;
        (input, other) = (other, input);
    }
    Ok(list)
}

/// As many sessions at one desk, each in a thread of its own and of so many reads at most: how they ended, and what
/// each wrote.
fn serve_at_once<R: Threads + Wait + Sync, G: Gate + Sync>(
    rt: &R,
    alloc: Global,
    count: u32,
    inputs: [&'static [u8]; 2],
    gate: &G,
    turns: u64,
) -> Result<(Vec<Ended>, Vec<Vec<u8>>), Fail> {
    let mut texts = Vec::new(alloc);
    for _ in 0..count {
        texts.push(Mutex::new(Vec::new(alloc)))?;
    }
    let list = entries_of(rt, alloc, texts.as_slice(), inputs)?;
    let Ok((desk, seats)) = Desk::open(alloc, count, Store::new(alloc)) else {
        return Err(Fail::new("no desk"));
    };
    if seats.len() != list.len() {
        return Err(Fail::new("not a seat for each"));
    }
    let Ok(ends) = run_sessions(rt, alloc, list, &desk, seats, gate, turns) else {
        return Err(Fail::new("no memory"));
    };
    let mut written = Vec::new(alloc);
    for text in &texts {
        written.push(Vec::from_slice(alloc, text.lock(rt).as_slice())?)?;
    }
    Ok((ends, written))
}

/// Whether all were closed.
fn are_closed(ends: &[Ended]) -> bool {
    for ended in ends {
        if *ended != Ended::Closed {
            return false;
        }
    }
    true
}

/// Whether the texts at even places are there, and those at odd places if `odd` says so.
fn are_written(texts: &[Vec<u8>], odd: bool) -> bool {
    let (mut is_there, mut next) = (true, odd);
    for text in texts {
        if text.is_empty() == is_there {
            return false;
        }
        (is_there, next) = (next, is_there);
    }
    true
}

// Each session of 256 has a context of its own. Where every second one is cut in the middle of its frame, it writes
// nothing, and takes no context from others.
#[test]
fn sessions_run_at_once(rt: HostRuntime) -> Result<(), Fail> {
    let all = [HELLO.as_slice(), HELLO.as_slice()];
    let half = [HELLO.as_slice(), HALF_A_HELLO.as_slice()];
    for (count, inputs, greeted) in [(1, all, 1), (2, all, 2), (256, all, 256), (256, half, 128)] {
        let (ends, texts) = serve_at_once(&rt, rt.alloc(), count, inputs, &Open, 99)?;
        let is_right = ends.len() == count as usize
            && are_closed(&ends)
            && are_written(&texts, greeted == count)
            && are_each_once(rt.alloc(), &texts, greeted)?;
        assert!(rt; is_right, "{greeted} of {count}");
    }
    Ok(())
}

// How each session ended is told, and no other end: one at a fault of its stream, the other with its turns over.
#[test]
fn each_of_many_ends_is_told(rt: HostRuntime) -> Result<(), Fail> {
    let inputs = [HELLO_AND_7.as_slice(), HELLO.as_slice()];
    let (ends, texts) = serve_at_once(&rt, rt.alloc(), 4, inputs, &Open, 1)?;
    let (faulty, over) = (Ended::Wire(WireFault::BadLength), Ended::Turns);
    assert!(rt; ends.as_slice() == [faulty, over, faulty, over].as_slice());
    assert!(rt; are_written(&texts, true) && are_each_once(rt.alloc(), &texts, 4)?);
    Ok(())
}

/// A gate that holds lane 0 at its first ask until lane 1 has a reply, and lane 1 at its second until lane 0 has one,
/// each for ten seconds at most.
#[derive(Drop)]
struct Crossed<'a, R> {
    rt: &'a R,
    asked: [AtomicU64; 2],
    answered: [AtomicU64; 2],
    late: AtomicU64,
}

fn gate_of<'a, R>(rt: &'a R) -> Crossed<'a, R> {
    Crossed {
        rt,
        asked: [AtomicU64::new(0), AtomicU64::new(0)],
        answered: [AtomicU64::new(0), AtomicU64::new(0)],
        late: AtomicU64::new(0),
    }
}

impl<'a, R: time::Clock + Wait> Crossed<'a, R> {
    /// Waits until the other lane has a reply.
    fn wait_for(&self, replies: &AtomicU64) {
        for _ in 0..100_000 {
            if replies.load(Ordering::SeqCst) > 0 {
                return;
            }
            thread::sleep(self.rt, Duration::from_micros(100));
        }
        self.late.store(1, Ordering::SeqCst);
    }
}

impl<'a, R: time::Clock + Wait> Gate for Crossed<'a, R> {
    fn pass(&self, lane: u32, at: Point) {
        let ([asked_0, asked_1], [answered_0, answered_1]) = (&self.asked, &self.answered);
        match (lane, at) {
            (0, Point::Asked) => {
                if asked_0.fetch_add(1, Ordering::SeqCst) == 0 {
                    self.wait_for(answered_1);
                }
            }
            (0, Point::Answered) => {
                let _ = answered_0.fetch_add(1, Ordering::SeqCst);
            }
            (_, Point::Asked) => {
                if asked_1.fetch_add(1, Ordering::SeqCst) == 1 {
                    self.wait_for(answered_0);
                }
            }
            (_, Point::Answered) => {
                let _ = answered_1.fetch_add(1, Ordering::SeqCst);
            }
        }
    }
}

// Two sessions that can't be served one after the other: each needs a reply of the other's. Lane 1 has the first
// context, in which key 5 is none; it isn't lane 0's.
#[test]
fn sessions_are_served_side_by_side(rt: HostRuntime) -> Result<(), Fail> {
    let gate = gate_of(&rt);
    let inputs = [HELLO_AND_READ.as_slice(), HELLO_AND_READ.as_slice()];
    let (ends, texts) = serve_at_once(&rt, rt.alloc(), 2, inputs, &gate, 99)?;
    let is_right = match texts.as_slice() {
        [first, last] => {
            first.as_slice() == CONTEXT_2_AND_ESRCH.as_slice()
                && last.as_slice() == CONTEXT_1_AND_ENOKEY.as_slice()
        }
        _ => false,
    };
    assert!(rt; is_right && are_closed(&ends) && gate.late.load(Ordering::SeqCst) == 0);
    Ok(())
}
