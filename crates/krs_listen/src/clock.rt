ghost use Rattle.std.specs.Prelude.{◌*◌, ◌+◌, ◌-◌, ◌/◌, ◌<◌, ◌^◌, ◌↔◌, ◌≡◌, ◌≤◌, ◌⊎◌, IfNone, IfSome, IsSome, IsTrue};
ghost use Rattle.std.specs.{Prelude.{min, None, Some}, Duration.as_nanos};
ghost use Rattle.krs_listen.specs.{Clock.last_of, Timeline.{after, begun, time_at}};

use crate::Timeline;
use std::sync::atomic::{AtomicU64, Ordering};
use std::time::{Clock, Duration};

/// What the clocks of one daemon have come to, so that no connection's stays behind another's.
#[derive(Drop)]
pub struct Latest {
    /// The latest answer.
    seconds: AtomicU64,
    /// By how many milliseconds the time was ahead of the steady clock where a connection began, at most. By this the
    /// time goes on after the wall clock was set back, also where no connection lasts.
    lead: AtomicU64,
}

impl Latest {
    /// No clock has answered yet.
    pub fn new() -> Latest {
        Latest {
            seconds: AtomicU64::new(0),
            lead: AtomicU64::new(0),
        }
    }

    /// The first answer of a clock, whose time is so many milliseconds as the steady clock reads so many.
    fn begin(&self, time: u64, steady: u64) -> u64
        ensures { time / 1000 ≤ result }
    {
        let lead = self.lead.load(Ordering::SeqCst);
        let time = time.max(steady.saturating_add(lead));
        let seconds = self.meet(time / 1000);
        let known = time.max(seconds.saturating_mul(1000));
        self.lead
            .fetch_max(known.saturating_sub(steady), Ordering::SeqCst);
        seconds
    }

    /// The answer of a clock that has come to so many seconds, which is made known.
    fn meet(&self, seconds: u64) -> u64
        ensures { seconds ≤ result }
    {
        let known = self.seconds.load(Ordering::SeqCst);
        if known >= seconds {
            return known;
        }
        let before = self.seconds.fetch_max(seconds, Ordering::SeqCst);
        before.max(seconds)
    }
}

/// What the wall clock and the steady one read, in milliseconds.
#[derive(Clone, Copy, Debug, PartialEq, Eq)]
struct Readings {
    wall: u64,
    steady: u64,
}

impl Readings {
    /// The reading of the wall clock with that of the steady one, where that has one.
    fn both(wall: u64, steady: Option<Duration>) -> Option<Readings>
        ensures some { IfSome steady (λ d. IfSome result
            (λ r. (r.wall ≡ wall) × (r.steady ≡ min (as_nanos d / 1_000_000) (2 ^ 64 - 1)))) }
        ensures only { IsSome steady ↔ IsSome result }
    {
        match steady {
            Some(steady) => Some(Readings {
                wall,
                steady: millis(steady),
            }),
            None => None,
        }
    }

    /// These with a later reading of the wall clock, before that has gone on by a second: the steady one isn't read
    /// again then, as it couldn't make a second's difference.
    fn with_wall(self, wall: u64) -> Option<Readings>
        ensures some { IfSome result (λ r. (r ≡ record self { wall = wall })
            × (self.wall ≤ wall) × (wall < self.wall + 1000)) }
        ensures none { IfNone result ((wall < self.wall) ⊎ (self.wall + 1000 ≤ wall)) }
    {
        if self.wall <= wall && wall - self.wall < 1000 {
            return Some(Readings { wall, ..self });
        }
        None
    }
}

/// The system's clock in whole seconds since 1970, as a `Timeline` has it: its last answer where the system has no
/// reading, and 0 where there was none. Profile, server's clock.
#[derive(Drop)]
pub struct DaemonClock<'r, R> {
    rt: &'r R,
    latest: &'r Latest,
    timeline: Option<Timeline>,
    /// The last readings of both clocks together.
    seen: Option<Readings>,
    last: u64,
}

impl<'r, R: Clock> DaemonClock<'r, R> {
    pub fn new(rt: &'r R, latest: &'r Latest) -> DaemonClock<'r, R>
        ensures { last_of result ≡ 0 }
    {
        DaemonClock {
            rt,
            latest,
            timeline: None,
            seen: None,
            last: 0,
        }
    }

    /// What it answers now. No contract tells what the system's clocks read, nor that they are read.
    pub fn now(&mut self) -> u64
        ensures kept { last_of self.new ≡ result }
        ensures rises { last_of self.old ≤ result }
    {
        let readings = self.readings();
        self.answer(readings)
    }

    /// Its last answer: the system isn't asked.
    pub fn again(&self) -> u64
        ensures { result ≡ last_of self.now }
    {
        self.last
    }

    /// What both clocks read: the steady one only where the wall clock has not gone on by less than a second since both
    /// were read.
    fn readings(&mut self) -> Option<Readings>
        ensures seen { IfSome result (λ r. (self.new.seen ≡ Some r)
            ⊎ ((self.new.seen ≡ self.old.seen) × IfSome self.old.seen (λ seen. (r ≡ record seen { wall = r.wall })
            × (seen.wall ≤ r.wall) × (r.wall < seen.wall + 1000)))) }
        ensures none { result ≡ None → self.new.seen ≡ self.old.seen }
        ensures timeline { self.new.timeline ≡ self.old.timeline }
        ensures last { self.new.last ≡ self.old.last }
    {
        let wall = millis(self.rt.since_1970().ok()?);
        if let Some(seen) = self.seen {
            if let Some(readings) = seen.with_wall(wall) {
                return Some(readings);
            }
        }
        let readings = Readings::both(wall, self.rt.monotonic().ok())?;
        self.seen = Some(readings);
        Some(readings)
    }

    /// What it answers to such readings: the time of its timeline, or a later one that another clock has come to.
    fn answer(&mut self, readings: Option<Readings>) -> u64
        ensures read { IfSome readings
            (λ r. time_at (begun self.old.timeline r.wall r.steady) r.wall r.steady / 1000 ≤ result) }
        ensures goes_on { IfSome readings (λ r. self.new.timeline ≡ Some (after
            (begun self.old.timeline r.wall r.steady) r.wall r.steady (min (result * 1000) (2 ^ 64 - 1)))) }
        ensures failed { readings ≡ None → (result ≡ self.old.last) × (self.new.timeline ≡ self.old.timeline) }
        ensures kept { self.new.last ≡ result }
        ensures rises { self.old.last ≤ result }
    {
        if let Some(Readings { wall, steady }) = readings {
            let (timeline, seconds) = match self.timeline {
                Some(timeline) => {
                    let seconds = timeline.time_at(wall, steady) / 1000;
                    (timeline, self.latest.meet(seconds))
                }
                None => {
                    let timeline = Timeline::starting(wall, steady);
                    let time = timeline.time_at(wall, steady);
                    (timeline, self.latest.begin(time, steady))
                }
            };
            self.last = self.last.max(seconds);
            let least = self.last.saturating_mul(1000);
            self.timeline = Some(timeline.after(wall, steady, least));
        }
        self.last
    }
}

/// The whole milliseconds of a duration.
fn millis(duration: Duration) -> u64
    ensures { result ≡ min (as_nanos duration / 1_000_000) (2 ^ 64 - 1) }
{
    u64::try_from(duration.as_millis()).unwrap_or(u64::MAX)
}
