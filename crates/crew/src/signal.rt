//! How one thread wakes others.

use std::sync::Wait;
use std::sync::atomic::{AtomicU64, Ordering};
use std::{hint, thread};

/// How long a worker looks for what it waits for, before it sleeps or goes on without it.
#[derive(Clone, Copy)]
pub struct WaitLimits {
    /// How many looks a worker takes with a pause between them.
    pub spins: u32,
    /// How many looks it takes after these that leave the processor to another thread in between, before it sleeps.
    pub yields: u32,
    /// This many looks for the workers with lower numbers, before it takes the first task of a phase. Workers take in
    /// the order of their numbers, as long as none of them is late, so that in each phase a worker gets the task of the
    /// same number, and what it works on stays near its processor.
    pub order_spins: u32,
}

/// A signal that threads wait for. A thread remembers its count, looks for work, and waits for a higher one if there
/// was none.
#[derive(Drop)]
pub(crate) struct Signal {
    count: AtomicU64,
    sleepers: AtomicU64,
}

impl Signal {
    /// A signal that was never raised.
    pub(crate) fn new() -> Signal {
        Signal {
            count: AtomicU64::new(0),
            sleepers: AtomicU64::new(0),
        }
    }

    /// How often it was raised.
    pub(crate) fn count(&self) -> u64 {
        self.count.load(Ordering::SeqCst)
    }

    /// Raises it, and wakes all that sleep.
    pub(crate) fn raise(&self) {
        self.count.fetch_add(1, Ordering::SeqCst);
        if self.sleepers.load(Ordering::SeqCst) > 0 {
            self.count.wake_all();
        }
    }

    /// Looks this often whether it was raised since its count was `seen`, with a pause behind each look. Gives whether
    /// it was.
    fn spin_past(&self, looks: u32, seen: u64) -> bool {
        for _ in 0..looks {
            if self.count() != seen {
                return true;
            }
            hint::spin_loop();
        }
        false
    }

    /// Whether the signal is raised within so many looks; leaves the processor to another thread behind each.
    fn yield_past(&self, looks: u32, seen: u64) -> bool {
        for _ in 0..looks {
            if self.count() != seen {
                return true;
            }
            thread::yield_now();
        }
        false
    }

    /// Sleeps until it was raised since its count was `seen`.
    fn sleep_past<R: Wait>(&self, rt: &R, seen: u64) {
        self.sleepers.fetch_add(1, Ordering::SeqCst);
        for _ in rt.forever() {
            if self.count() != seen {
                break;
            }
            self.count.park(rt, (seen % (1 << 32)) as u32);
        }
        self.sleepers.fetch_sub(1, Ordering::SeqCst);
    }

    /// Waits until it was raised since its count was `seen`.
    pub(crate) fn wait_past<R: Wait>(&self, rt: &R, limits: WaitLimits, seen: u64) {
        if self.spin_past(limits.spins, seen) || self.yield_past(limits.yields, seen) {
            return;
        }
        self.sleep_past(rt, seen);
    }
}
