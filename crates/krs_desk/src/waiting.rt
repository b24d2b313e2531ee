//! A call waits: for the turn, and once it is posted for its answer.
//!
//! It pauses, and looks again. Only where somebody has the turn for long, as a thread whose processor was taken away,
//! it sleeps, by its lane's own bell. No wake is lost. A thread lies down first, and looks at its cell and at the turn
//! after that. Where it finds its call unanswered and the turn taken, that turn is still to be given back, and whoever
//! gives it back looks after that for threads that lie. It rings each whose call was answered, and one whose call is
//! still posted: that one gets up, and takes the turn or finds it taken again. By a bell that was rung since it lay
//! down no thread begins to sleep.
ghost use Rattle.std.specs.Prelude.{◌+◌, ◌<◌};

use crate::desk::Desk;
use crate::word::{ANSWERED, FREE, POSTED, TURN, cell_of};
use std::hint;
use std::sync::Wait;

/// So often a call that found the turn taken tries again before it is posted, where more calls of its seat follow, and
/// so often a posted call looks at its cell and the turn before it sleeps. The pauses between them have 5,116 spins,
/// each time.
pub(crate) const TRIES: u32 = 16;

/// So often at least where no more follow, with 124 spins, and not again while the turn is kept: who keeps it answers
/// posted calls before the next of its own.
pub(crate) const TRIES_ALONE: u32 = 5;

/// So long a call pauses after its first try. After each try it pauses twice as long. Mostly the turn is given back at
/// once; where it isn't, whoever has it can take it again for its next call: where the turn goes to another processor,
/// the memory of the store must follow. It never yields its processor, which the scheduler takes as leave to run the
/// others' whole slices first.
pub(crate) const FIRST_PAUSE: u32 = 4;

// So long it pauses at most.
const LONGEST_PAUSE: u32 = 512;

// So often a posted call looks at its own cell alone before that.
const LOOKS: u32 = 16;

/// Pauses, and tells how long to pause next.
pub(crate) fn pause(spins: u32) -> u32 {
    for _ in 0..spins {
        hint::spin_loop();
    }
    spins.saturating_mul(2).min(LONGEST_PAUSE)
}

impl Desk {
    // Whether nobody had the turn.
    pub(crate) fn is_free(&self) -> bool {
        self.table.peek(TURN) == FREE
    }

    // Whether the lane's call was answered.
    fn is_answered(&self, lane: u32) -> bool
        requires { lane + 1 < self.now.words }
    {
        self.table.peek(cell_of!(lane)) == ANSWERED
    }

    // Whether the turn was free, or the lane's call answered.
    fn is_worth_a_try(&self, lane: u32) -> bool
        requires { lane + 1 < self.now.words }
    {
        self.is_answered(lane) || self.is_free()
    }

    // Looks at the lane's cell alone for a while.
    fn wait_for_answer(&self, lane: u32)
        requires { lane + 1 < self.now.words }
    {
        for _ in 0..LOOKS {
            if self.is_answered(lane) {
                return;
            }
            hint::spin_loop();
        }
    }

    // Waits until the turn was free or the lane's call answered, or for a while.
    pub(crate) fn wait<R: Wait>(&self, rt: &R, lane: u32)
        requires { lane + 1 < self.now.words }
    {
        self.wait_for_answer(lane);
        let mut spins = FIRST_PAUSE;
        for _ in 0..TRIES {
            if self.is_worth_a_try(lane) {
                return;
            }
            spins = pause(spins);
        }
        self.sleep(rt, lane);
    }

    // Sleeps until the lane's bell is rung, unless the turn was free or the lane's call answered.
    fn sleep<R: Wait>(&self, rt: &R, lane: u32)
        requires { lane + 1 < self.now.words }
    {
        self.bells.lie_down(lane);
        if !self.is_worth_a_try(lane) {
            self.bells.sleep(rt, lane);
        }
        let _was_asleep = self.bells.get_up(lane);
    }

    // Wakes whom it may concern that calls were answered or the turn given back.
    #[inline]
    pub(crate) fn wake_if_asleep(&self) {
        if self.bells.is_any_asleep() {
            self.wake_some();
        }
    }

    // Wakes each thread whose call was answered, and one whose call is still posted, if there is one.
    #[inline(never)]
    fn wake_some(&self) {
        let lanes = (self.table.word_count() - 1) as u32;
        let mut is_one_called = false;
        for lane in 0..lanes {
            if !self.bells.is_asleep(lane) {
                continue;
            }
            match self.table.peek(cell_of!(lane)) {
                ANSWERED => {
                    self.bells.ring(lane);
                }
                POSTED if !is_one_called => is_one_called = self.bells.ring(lane),
                _ => {}
            }
        }
    }
}
