//! Which writes a session makes: the replies to what one read brought go out together.
use super::fakes::{Then, chair_of, watches};
use super::{ALL, ASKS, Case, READ, check, converse_in_pieces};
use krs_session::Ended;
use std::test::*;

// How many asks are whole in so many bytes of ASKS, and how many bytes their replies have.
fn whole_in(count: usize) -> (u32, usize) {
    if count < 24 {
        (0, 0)
    } else if count < 59 {
        (1, 12)
    } else if count < 75 {
        (2, 24)
    } else {
        (3, 34)
    }
}

const ONE: Case<'static> = Case {
    name: "two reads",
    stream: &ASKS,
    reads: ALL,
    writes: ALL,
    turns: 99,
    ended: Ended::Closed,
    asked: 4,
    written: 34,
    calls: 1,
};

#[test]
fn asks_in_any_two_pieces_are_answered_alike(rt: HostRuntime) {
    for first in 1..=ASKS.len() {
        let (whole, _) = whole_in(first);
        let case = Case {
            reads: (first, 75, Then::GivesNone),
            calls: if whole == 1 || whole == 2 { 2 } else { 1 },
            ..ONE
        };
        check(&rt, rt.alloc(), &case);
    }
}

// Each call takes three bytes, until one fails. What was read is asked, and nothing more is read or written.
#[test]
fn any_write_may_fail(rt: HostRuntime) {
    for calls in 1..=12u32 {
        let written = 3 * (calls as usize - 1);
        let case = Case {
            name: "all is read",
            writes: (3, written, Then::Fails),
            ended: Ended::Write,
            written,
            calls,
            ..ONE
        };
        check(&rt, rt.alloc(), &case);
        let case = Case {
            name: "HELLO is read first",
            reads: (24, 51, Then::GivesNone),
            asked: if written < 12 { 2 } else { 4 },
            ..case
        };
        check(&rt, rt.alloc(), &case);
    }
}

// A stream that ends is closed, wherever it is cut: the whole frames are answered.
#[test]
fn any_read_may_fail_or_be_the_last(rt: HostRuntime) {
    for count in 0..=ASKS.len() {
        let (whole, written) = whole_in(count);
        let rows = [
            ((1, 1, Then::Fails), Ended::Read, whole),
            ((4096, 4096, Then::Fails), Ended::Read, whole.min(1)),
            (ALL, Ended::Closed, whole.min(1)),
        ];
        for (reads, ended, calls) in rows {
            let case = Case {
                name: "cut",
                stream: ASKS.split_at(count).0,
                reads,
                ended,
                asked: whole.saturating_add(1),
                written,
                calls,
                ..ONE
            };
            check(&rt, rt.alloc(), &case);
        }
    }
}

// 40 replies of 10008 bytes to asks of one read: after every seventh there are 64 KiB.
#[test]
fn a_long_text_is_written_in_pieces(rt: HostRuntime) -> Result<(), Fail> {
    let alloc = rt.alloc();
    let mut stream = Vec::new(alloc);
    let mut wanted = Vec::new(alloc);
    for _ in 0..40 {
        stream.extend_from_slice(&READ)?;
        wanted.extend_from_slice(&[0x14, 0x27, 0, 0, 0, 0, 0, 0])?;
        for _ in 0..5000 {
            wanted.extend_from_slice(b"s3")?;
        }
    }
    for (most, calls) in [(1_000_000, 6), (10_000, 46)] {
        let case = Case {
            stream: &stream,
            writes: (most, 1_000_000, Then::GivesNone),
            asked: 41,
            calls,
            ..ONE
        };
        let mut seat = chair_of(alloc, 7, 5000);
        let gate = watches(7);
        let (writer, ended) = converse_in_pieces(&rt, alloc, &case, &mut seat, &gate);
        let is_right = (ended, seat.asked) == (case.ended, 41)
            && (writer.calls, writer.longest) == (calls, 70_056)
            && writer.text.as_slice() == wanted.as_slice();
        assert!(rt; is_right, "{calls} calls");
    }
    Ok(())
}
