//! Which lanes' threads sleep, and how they are woken. Whether a turn is kept, calls are posted, and threads wait for
//! one.
use std::alloc::{AllocError, Global};
use std::sync::Wait;
use std::sync::atomic::{AtomicU64, Ordering};

// The lane's thread sleeps, or is about to.
const ASLEEP: u64 = 0;

// It doesn't sleep, or was woken.
const RUNG: u64 = 1;

/// A bell for each lane, by which its thread sleeps and nobody else does.
#[derive(Drop)]
pub(crate) struct Bells {
    // How many threads sleep, or are about to, and weren't rung. It is raised before a bell says so and lowered after,
    // so it is never too low.
    sleepers: AtomicU64,

    // How many calls are posted and not answered. It is raised before a call is posted and lowered after that is
    // answered, so it is never too low: where a turn finds it 0, each call that was posted before has its answer.
    posted: AtomicU64,

    // How many threads have posted a call, and wait until it is answered, behind which they have more.
    waiting: AtomicU64,

    // 1 while a turn is kept.
    keeping: AtomicU64,
    bells: Vec<AtomicU64>,
}

impl Bells {
    /// So many bells, and nobody sleeps.
    pub(crate) fn new(alloc: Global, lanes: usize) -> Result<Bells, AllocError> {
        let mut bells = Vec::with_capacity(alloc, lanes)?;
        for _ in 0..lanes {
            bells.push_reserved(AtomicU64::new(RUNG));
        }
        Ok(Bells {
            sleepers: AtomicU64::new(0),
            posted: AtomicU64::new(0),
            waiting: AtomicU64::new(0),
            keeping: AtomicU64::new(0),
            bells,
        })
    }

    /// Whether any thread is to be rung.
    #[inline]
    pub(crate) fn is_any_asleep(&self) -> bool {
        self.sleepers.load(Ordering::SeqCst) > 0
    }

    /// Whether any call is posted and not answered.
    #[inline]
    pub(crate) fn is_any_posted(&self) -> bool {
        self.posted.load(Ordering::SeqCst) > 0
    }

    /// One call more is about to be posted.
    pub(crate) fn begin_to_post(&self) {
        self.posted.fetch_add(1, Ordering::SeqCst);
    }

    /// One call that was posted is answered.
    pub(crate) fn tell_answered(&self) {
        self.posted.fetch_sub(1, Ordering::SeqCst);
    }

    /// Whether any thread waits that has more calls.
    #[inline]
    pub(crate) fn is_any_waiting(&self) -> bool {
        self.waiting.load(Ordering::SeqCst) > 0
    }

    /// From here on one such thread more waits.
    pub(crate) fn begin_to_wait(&self) {
        self.waiting.fetch_add(1, Ordering::SeqCst);
    }

    /// It waits no more.
    pub(crate) fn stop_waiting(&self) {
        self.waiting.fetch_sub(1, Ordering::SeqCst);
    }

    /// Whether a turn is kept.
    pub(crate) fn is_kept(&self) -> bool {
        self.keeping.load(Ordering::SeqCst) > 0
    }

    /// The thread that has the turn keeps it from here on.
    #[inline]
    pub(crate) fn begin_to_keep(&self) {
        self.keeping.store(1, Ordering::SeqCst);
    }

    /// It is about to give it back.
    #[inline]
    pub(crate) fn stop_keeping(&self) {
        self.keeping.store(0, Ordering::SeqCst);
    }

    /// Whether the lane's thread is to be rung.
    pub(crate) fn is_asleep(&self, lane: u32) -> bool {
        match self.bells.get(lane as usize) {
            Some(bell) => bell.load(Ordering::SeqCst) == ASLEEP,
            None => false,
        }
    }

    /// From here on the lane's thread is to be rung.
    pub(crate) fn lie_down(&self, lane: u32) {
        if let Some(bell) = self.bells.get(lane as usize) {
            self.sleepers.fetch_add(1, Ordering::SeqCst);
            bell.store(ASLEEP, Ordering::SeqCst);
        }
    }

    /// Sleeps until the bell is rung, if it wasn't since the thread lay down.
    pub(crate) fn sleep<R: Wait>(&self, rt: &R, lane: u32) {
        if let Some(bell) = self.bells.get(lane as usize) {
            bell.park(rt, ASLEEP as u32);
        }
    }

    /// From here on it isn't, if it still was. Tells whether it was.
    pub(crate) fn get_up(&self, lane: u32) -> bool {
        match self.bells.get(lane as usize) {
            Some(bell) => self.rouse(bell),
            None => false,
        }
    }

    /// Wakes the lane's thread, if it was to be rung. Tells whether it was.
    pub(crate) fn ring(&self, lane: u32) -> bool {
        let Some(bell) = self.bells.get(lane as usize) else {
            return false;
        };
        let was_asleep = self.rouse(bell);
        if was_asleep {
            bell.wake_one();
        }
        was_asleep
    }

    fn rouse(&self, bell: &AtomicU64) -> bool {
        if bell.swap(RUNG, Ordering::SeqCst) != ASLEEP {
            return false;
        }
        self.sleepers.fetch_sub(1, Ordering::SeqCst);
        true
    }
}
