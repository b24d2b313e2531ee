ghost use Rattle.std.specs.Prelude.{◌≡◌};
ghost use Rattle.krs_listen.specs.Timeline.{after, starting, time_at};

/// By how many milliseconds the clocks may come apart before they are compared anew.
const APART: u64 = 1000;

/// The daemon's time in milliseconds, by readings of two clocks: the wall clock, and a steady one that nobody sets. It
/// goes on by as much as the clock that has gone on more. So a step back of the wall clock costs nothing, sleep counts,
/// and after a step ahead the time goes on from there. Profile, server's clock.
#[derive(Clone, Copy, Debug)]
pub struct Timeline {
    time: u64,
    wall: u64,
    steady: u64,
}

impl Timeline {
    /// It begins with the wall clock.
    pub fn starting(wall: u64, steady: u64) -> Timeline
        ensures { result ≡ starting wall steady }
    {
        Timeline {
            time: wall,
            wall,
            steady,
        }
    }

    /// The time by new readings.
    pub fn time_at(&self, wall: u64, steady: u64) -> u64
        ensures { result ≡ time_at self.now wall steady }
    {
        let by_wall = wall.saturating_sub(self.wall);
        let by_steady = steady.saturating_sub(self.steady);
        self.time.saturating_add(by_wall.max(by_steady))
    }

    /// What comes after new readings, by which it is so late at least. The clocks are compared anew where they have
    /// come apart, or where it is later than they say.
    pub fn after(self, wall: u64, steady: u64, least: u64) -> Timeline
        ensures { result ≡ after self wall steady least }
    {
        let by_wall = wall.saturating_sub(self.wall);
        let by_steady = steady.saturating_sub(self.steady);
        let time = self.time_at(wall, steady);
        if by_wall.abs_diff(by_steady) <= APART && least <= time {
            return self;
        }
        Timeline {
            time: time.max(least),
            wall,
            steady,
        }
    }
}
