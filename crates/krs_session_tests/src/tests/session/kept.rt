//! While a session waits, nobody waits for it: where it reads and writes, and once it has ended, the turn is free.
ghost use Rattle.std.specs.Prelude.{◌≡◌};

use super::fakes::{Then, reader_of, writer_of};
use super::{ASKS, BAD_LENGTH, HELLO, HELLO_AND_7, READ};
use crate::tests::serve::Still;
use krs_desk::{Desk, Helped, Seat};
use krs_desk_tests::three_seats;
use krs_serve::OpenGate;
use krs_session::*;
use krs_store::Store;
use std::alloc::{AllocError, Global};
use std::marker::Model;
use std::sync::Wait;
use std::test::*;

/// Another seat of the desk, which tries to have the turn, and counts how often that was out.
#[derive(Drop)]
struct Neighbour<'a> {
    desk: &'a Desk,
    seat: Seat,
    misses: u32,
}

impl<'a> Model for Neighbour<'a> {
    ghost use Rattle.std.specs.Prelude.{◌≡◌, ℕ};

    ghost Value = { ℕ };

    ghost view = { λ n. n.misses };

    ghost invariant = { λ n. n.seat.table ≡ n.desk.now };
}

impl<'a> Neighbour<'a> {
    fn look(&mut self) {
        if self.desk.help(&mut self.seat) == Helped::Busy {
            self.misses = self.misses.wrapping_add(1);
        }
    }
}

/// An end of a connection, at each use of which a neighbour looks.
#[derive(Drop)]
struct Beside<'a, E> {
    end: E,
    neighbour: Neighbour<'a>,
}

impl<'a, E: Source> Source for Beside<'a, E> {
    ghost gave = { λ a bytes b. Unit {0} };

    ghost reads = { λ a. E.reads a.end };

    ghost empties = { λ a. E.empties a.end };

    ghost failures = { λ a. E.failures a.end };

    ghost starts = { λ a. tt };

    ghost joins = { λ a b c xs ys p q. tt };

    fn read(&mut self, room: &mut [u8]) -> Result<usize, Failed> {
        self.neighbour.look();
        self.end.read(room)
    }
}

impl<'a, E: Sink> Sink for Beside<'a, E> {
    ghost took = { λ a bytes b. Unit {0} };

    ghost failures = { λ a. E.failures a.end };

    ghost starts = { λ a. tt };

    ghost joins = { λ a b c xs ys p q. tt };

    fn write(&mut self, piece: &[u8]) -> Result<usize, Failed> {
        self.neighbour.look();
        self.end.write(piece)
    }
}

/// What a session is sent, what its ends do, and how it ends.
#[derive(Clone, Copy)]
struct Way<'a> {
    name: &'a str,
    stream: &'a [u8],
    // How many bytes each read gives at most, and what the end of the stream is.
    reads: (usize, Then),
    // How many bytes all writes take, and what a write does then.
    writes: (usize, Then),
    turns: u64,
    ended: Ended,
}

/// How a session ended, and how often its neighbours found the turn out: at reads, and at writes and behind its end.
fn look_on<R: Wait>(rt: &R, alloc: Global, way: &Way<'_>) -> Result<(Ended, u32, u32), Fail> {
    let (desk, mut seat, second, third) = three_seats(alloc, Store::new(alloc)).ok_or("no desk")?;
    let mut stream = Vec::new(alloc);
    stream.extend_from_slice(way.stream)?;
    let shared = &desk;
    let (most, then) = way.reads;
    let mut reader = Beside {
        end: reader_of(&stream, most, most, then),
        neighbour: Neighbour {
            desk: shared,
            seat: second,
            misses: 0,
        },
    };
    let (room, then) = way.writes;
    let mut writer = Beside {
        end: writer_of(alloc, 1_000_000, room, then),
        neighbour: Neighbour {
            desk: shared,
            seat: third,
            misses: 0,
        },
    };
    let ended = run(
        rt,
        alloc,
        &mut reader,
        &mut writer,
        shared,
        &mut seat,
        &mut Still,
        &OpenGate,
        way.turns,
    );
    writer.neighbour.look();
    Ok((ended, reader.neighbour.misses, writer.neighbour.misses))
}

const ALL: (usize, Then) = (4096, Then::GivesNone);

const ROOM: (usize, Then) = (1_000_000, Then::GivesNone);

#[rattlefmt::skip]
const WAYS: [Way<'static>; 6] = [
    Way { name: "closed", stream: &ASKS, reads: ALL, writes: ROOM, turns: 99, ended: Ended::Closed },
    Way { name: "fault", stream: &HELLO_AND_7, reads: ALL, writes: ROOM, turns: 99, ended: BAD_LENGTH },
    Way { name: "read", stream: &ASKS, reads: (4096, Then::Fails), writes: ROOM, turns: 99, ended: Ended::Read },
    Way { name: "write", stream: &ASKS, reads: ALL, writes: (3, Then::Fails), turns: 99, ended: Ended::Write },
    Way { name: "turns", stream: &ASKS, reads: ALL, writes: ROOM, turns: 1, ended: Ended::Turns },
    Way { name: "bytes", stream: &ASKS, reads: (1, Then::GivesNone), writes: ROOM, turns: 99, ended: Ended::Closed },
];

#[test]
fn nobody_waits_for_a_session_that_waits_or_has_ended(rt: HostRuntime) -> Result<(), Fail> {
    for way in &WAYS {
        let seen = look_on(&rt, rt.alloc(), way)?;
        assert!(rt; seen == (way.ended, 0, 0), "{}", way.name);
    }
    Ok(())
}

/// HELLO, ADD of 2000 bytes, and 64 READs of them.
fn long_asks(alloc: Global) -> Result<Vec<u8>, AllocError> {
    let mut stream = Vec::new(alloc);
    stream.extend_from_slice(&HELLO)?;
    stream.extend_from_slice(&[0xed, 7, 0, 0, 1, 0, 6, 1, 1, 0, 0, 0, 4, 0])?;
    stream.extend_from_slice(b"user\x05\x00alpha\xd0\x07\x00\x00")?;
    for _ in 0..1000 {
        stream.extend_from_slice(b"s3")?;
    }
    stream.extend_from_slice(&[0xfc, 0xff, 0xff, 0xff])?;
    for _ in 0..64 {
        stream.extend_from_slice(&READ)?;
    }
    Ok(stream)
}

// The replies to one read are more than 64 KiB, and are written in between: whole, until a write fails, or none at all.
#[test]
fn nobody_waits_while_replies_are_written_in_between(rt: HostRuntime) -> Result<(), Fail> {
    let stream = long_asks(rt.alloc())?;
    for (room, ended) in [
        (1_000_000, Ended::Closed),
        (70_000, Ended::Write),
        (0, Ended::Write),
    ] {
        let way = Way {
            name: "long",
            stream: &stream,
            reads: ALL,
            writes: (room, Then::Fails),
            turns: 99,
            ended,
        };
        let seen = look_on(&rt, rt.alloc(), &way)?;
        assert!(rt; seen == (ended, 0, 0), "{room} bytes are taken");
    }
    Ok(())
}
