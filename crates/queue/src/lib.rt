//! The requests that wait in a channel, by age, and whether it drains its writes. `request_log` has those that have
//! arrived, `bank_candidates` finds among them what each bank may do next.
#![tactic(auto)]

pub mod bank_candidates;
pub mod request_log;

ghost use Rattle.std.specs.Prelude.{◌≡◌, ◌+◌, ◌-◌, ◌^◌, ◌<◌, ◌≤◌, true, false, IfOk, length};
ghost use Rattle.queue.specs.View.{drains_by, is_draining, empty_queue, with_request, renumbered};

use crate::request_log::RequestLog;
use sim_base::message::{Access, Request};
use std::alloc::{AllocError, Global};
use std::marker::Model;

/// The highest number of places that a log may have.
const MOST_PLACES: usize = 65_534;

/// The requests that wait move to the front where more places are in use than twice as many and this number, so that a
/// log in which few wait stays short, and its places in the caches.
const SPARE_PLACES: usize = 2048;

/// Whether a queue with `writes` writes drains, given whether it drained before.
#[inline(always)]
fn drains(high: u32, low: u32, drain_decided: bool, writes: usize) -> bool
    ensures { result ≡ drains_by high low drain_decided writes }
{
    let high = high as usize;
    let low = low as usize;
    (0 < high && high <= writes) || (drain_decided && low < writes)
}

/// The requests that wait in a channel, by age.
#[derive(Drop)]
pub struct Queue {
    room: usize,
    /// Writes with which a drain begins; 0: none ever does.
    high: u32,
    /// Writes with which a drain ends.
    low: u32,
    /// Whether the channel drained its writes when that was last decided.
    drain_decided: bool,
    /// Whether the channel drains its writes with those that wait.
    drains: bool,
    /// How many requests wait.
    waiting_count: usize,
    /// How many of the requests that wait are writes.
    writes: usize,
    log: RequestLog,
}

impl Model for Queue {
    ghost use Rattle.queue.specs.View.{QueueView};
    ghost use Rattle.queue.specs.Kept.{view_of, AreKept};

    ghost Value = { QueueView };

    ghost view = { view_of };

    ghost invariant = { AreKept };
}

impl Queue {
    ghost use Rattle.std.specs.Prelude.{IfSome};
    ghost use Rattle.queue.specs.Log.{waiting_requests, served_at, activated_at, waits_at, eligible_column, is_eligible_at, marks_once_served};

    /// An empty queue in which `room` requests may wait, seldom more than `likely` of them, and which drains its writes
    /// from `high` of them down to `low`, and never if `high` is 0. Only this call allocates memory.
    #[tactic(auto, unfolding(crate::specs::Log::waiting))]
    pub fn with_room(
        alloc: Global,
        room: usize,
        likely: usize,
        high: u32,
        low: u32,
    ) -> Result<Self, AllocError>
        requires room { room < 2 ^ 16 - 1 }
        ensures { IfOk result (λ queue. queue ≡ empty_queue room high low) }
    {
        let places = room
            .saturating_mul(2)
            .saturating_add(SPARE_PLACES)
            .min(MOST_PLACES);
        Ok(Queue {
            room,
            high,
            low,
            drain_decided: false,
            drains: false,
            waiting_count: 0,
            writes: 0,
            log: RequestLog::with_places(alloc, places, likely)?,
        })
    }

    /// How many requests wait.
    #[inline(always)]
    pub fn len(&self) -> usize
        ensures value { result ≡ length (waiting_requests self.now.log) }
        ensures short { result < 2 ^ 16 - 1 }
    {
        self.waiting_count
    }

    /// The requests that have arrived, by age, some of which wait.
    #[inline(always)]
    pub fn log(&self) -> &RequestLog
        ensures { result.now ≡ record { places = self.now.places; log = self.now.log } }
    {
        &self.log
    }

    /// Makes places for `count` requests that arrive. Where too few places are left, or far more are in use than
    /// requests wait, the requests that wait move to the front; the call tells whether they did.
    #[inline(always)]
    pub fn make_room(&mut self, count: usize) -> bool
        requires { length (waiting_requests self.old.log) + count ≤ self.old.room }
        ensures places { length self.new.log + count ≤ self.new.places }
        ensures kept { result ≡ false → self.new ≡ self.old }
        ensures moved { result ≡ true → self.new ≡ renumbered self.old }
    {
        if count <= self.log.free() && self.log.len() <= self.waiting_count * 2 + SPARE_PLACES {
            return false;
        }
        self.log.renumber();
        true
    }

    /// Takes in a request that is younger than all that have arrived.
    #[inline(always)]
    pub fn arrive(&mut self, request: Request)
        requires room { length (waiting_requests self.old.log) < self.old.room }
        requires places { length self.old.log < self.old.places }
        ensures { self.new ≡ with_request self.old request }
    {
        self.log.arrive(request);
        self.waiting_count += 1;
        if Access::Write.is_access(request.access) {
            self.writes += 1;
            self.drains = drains(self.high, self.low, self.drain_decided, self.writes);
        }
    }

    /// Serves the request at a place, which no longer waits then. Returns the place of the next request for its line,
    /// if that was blocked by this one and may be served now.
    #[inline(always)]
    pub fn serve(&mut self, place: usize) -> Option<usize>
        requires within { place < length self.old.log }
        requires waits { waits_at self.old.log place ≡ true }
        ensures log { self.new ≡ record self.old { log = served_at self.old.log place } }
        ensures marks { eligible_column self.new.log ≡ marks_once_served self.old.log place result }
        ensures next { IfSome result (λ next. next < length self.new.log) }
        ensures newly { IfSome result (λ next. is_eligible_at self.old.log next ≡ false) }
    {
        let access = self.log.log()[place].request.access;
        let unblocked = self.log.serve(place);
        self.waiting_count -= 1;
        if Access::Write.is_access(access) {
            self.writes -= 1;
            self.drains = drains(self.high, self.low, self.drain_decided, self.writes);
        }
        unblocked
    }

    /// Notes that an ACT was issued in the name of the request at a place.
    #[inline(always)]
    pub fn activate(&mut self, place: usize)
        requires { place < length self.old.log }
        ensures { self.new ≡ record self.old { log = activated_at self.old.log place } }
    {
        self.log.activate(place);
    }

    /// The requests that wait, by age.
    pub fn waiting_requests(&self, alloc: Global) -> Result<Vec<Request>, AllocError>
        ensures { IfOk result (λ requests. requests.items ≡ waiting_requests self.now.log) }
    {
        self.log.waiting_requests(alloc)
    }

    /// Decides whether the queue drains with the requests that wait, as it does once in each cycle.
    #[inline(always)]
    pub fn decide_drain(&mut self)
        ensures value { self.new ≡ record self.old { drain_decided = is_draining self.old } }
        ensures same { is_draining self.new ≡ is_draining self.old }
    {
        self.drain_decided = self.drains;
    }

    /// Whether the queue drains its writes with the requests that wait; `decide_drain` does not change that.
    #[inline(always)]
    pub fn draining(&self) -> bool
        ensures { result ≡ is_draining self.now }
    {
        self.drains
    }

    /// The number of writes with which a drain begins; 0 where none ever does.
    #[inline(always)]
    pub fn high(&self) -> u32
        ensures { result ≡ self.now.high }
    {
        self.high
    }
}
