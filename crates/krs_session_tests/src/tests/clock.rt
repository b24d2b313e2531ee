//! The daemon's clock, over system clocks that the tests set.
use krs_serve::{Latest, SystemClock};
use krs_session::Clock;
use std::cell::Cell;
use std::process::Abort;
use std::test::*;
use std::time::Duration;
use std::{io, time};

/// A wall clock and a steady one, in milliseconds, each of which may fail.
#[derive(Drop)]
struct Set {
    wall: Cell<Option<u64>>,
    steady: Cell<Option<u64>>,
}

/// What such a clock reads.
fn reading(millis: Option<u64>) -> io::Result<Duration> {
    match millis {
        Some(millis) => Ok(Duration::from_millis(millis)),
        None => Err(io::Error::other("no such clock")),
    }
}

impl time::Clock for Set {
    fn monotonic(&self) -> io::Result<Duration> {
        reading(self.steady.get())
    }

    fn since_1970(&self) -> io::Result<Duration> {
        reading(self.wall.get())
    }
}

/// What both clocks read, and the seconds that are answered.
type Row = (Option<u64>, Option<u64>, u64);

/// The first connection's clock.
#[rattlefmt::skip]
const FIRST: [Row; 12] = [
    (None, Some(4_000), 0),
    (Some(1_000_000_000), Some(5_000), 1_000_000),
    (Some(1_000_001_500), Some(6_500), 1_000_001),
    // Ten years ahead, and right again after three seconds.
    (Some(316_360_001_500), Some(6_500), 316_360_001),
    (Some(1_000_004_500), Some(9_500), 316_360_004),
    (Some(1_000_006_500), Some(11_500), 316_360_006),
    // An hour of sleep, in which the steady clock stood still.
    (Some(1_003_606_500), Some(11_500), 316_363_606),
    // Set back by an hour.
    (Some(1_000_007_500), Some(12_500), 316_363_607),
    (None, Some(13_000), 316_363_607),
    // The steady clock has no reading where it is wanted, which is no reading of 0.
    (Some(1_000_009_500), None, 316_363_607),
    (Some(1_000_019_500), None, 316_363_607),
    (Some(1_000_008_500), Some(13_500), 316_363_608),
];

/// That of one which comes afterwards.
#[rattlefmt::skip]
const SECOND: [Row; 2] = [
    (Some(1_000_008_500), Some(13_500), 316_363_608),
    (Some(1_000_010_500), Some(15_500), 316_363_610),
];

/// Those of connections of one answer each, one after the other.
#[rattlefmt::skip]
const SHORT: [Row; 4] = [
    (Some(1_000_000_000), Some(5_000), 1_000_000),
    (Some(1_000_010_000), Some(15_000), 1_000_010),
    // Set back by an hour.
    (Some(996_420_000), Some(25_000), 1_000_020),
    (Some(996_430_500), Some(35_500), 1_000_030),
];

fn check_rows(rt: &impl Abort, latest: &Latest, rows: &[Row]) {
    let set = Set {
        wall: Cell::new(None),
        steady: Cell::new(None),
    };
    let mut clock = SystemClock::new(&set, latest);
    for (wall, steady, wanted) in rows {
        set.wall.set(*wall);
        set.steady.set(*steady);
        assert_eq!(rt; clock.now(), *wanted, "at {wall:?}, {steady:?}");
    }
}

/// A connection for each row.
fn check_each(rt: &impl Abort, latest: &Latest, rows: &[Row]) {
    for row in rows {
        check_rows(rt, latest, &[*row]);
    }
}

#[test]
fn a_step_of_the_wall_clock_heals(rt: HostRuntime) {
    let latest = Latest::new();
    check_rows(&rt, &latest, &FIRST);
    check_rows(&rt, &latest, &SECOND);
}

#[test]
fn the_time_goes_on_where_no_connection_lasts(rt: HostRuntime) {
    let latest = Latest::new();
    check_each(&rt, &latest, &SHORT);
    let latest = Latest::new();
    check_rows(&rt, &latest, &FIRST);
    check_each(&rt, &latest, &SECOND);
}
