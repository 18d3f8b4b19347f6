//! Reads that wait for their reply.

ghost use Rattle.std.specs.Prelude.{[], ◌≡◌, ◌+◌, ◌∷◌, ◌++◌, ◌≤◌, ◌<◌, drop, length, IfOk, OnOk, IfSome, IsNone};
ghost use Rattle.core_window.specs.Outstanding.{IsByNumber};
ghost use Rattle.core_window.specs.Counting.{read_of, without_read, IsTakenOut};

use sim_base::message::Cycle;
use std::alloc::{AllocError, Global};

/// A Read that was issued and has no reply.
#[derive(Clone, Copy)]
pub struct OutstandingRead {
    /// The number of the entry.
    pub entry: u64,
    /// The cycle in which it was issued.
    pub issued: Cycle,
}

/// The Reads that wait for their reply, in the order of their numbers, behind places that are free.
#[derive(Drop)]
pub struct OutstandingReads {
    places: Vec<OutstandingRead>,
    /// How many places are free before the first Read that waits.
    free: usize,
    ghost within: { free ≤ length places.items },
}

/// Puts the last of the Reads back, where each of those from a place on was moved up by a place.
#[cold]
#[inline(never)]
fn put_back(places: &mut [OutstandingRead], first: usize, last: OutstandingRead)
    requires { first < length places.old }
    ensures { drop first places.new ≡ drop (first + 1) places.old ++ last ∷ [] }
{
    let len = places.len();
    places.copy_within(first + 1..len, first);
    places[len - 1] = last;
}

/// Takes the Read with this number out of those from a place on, if it is there: each Read before it moves up by a
/// place, and the first place becomes free. If it is not there, they stay as they were.
fn take_from(places: &mut [OutstandingRead], first: usize, entry: u64) -> Option<OutstandingRead>
    requires inside { first < length places.old }
    requires order { IsByNumber (drop first places.old) }
    ensures taken { result ≡ read_of entry (drop first places.old) }
    ensures some { IfSome result (λ _.
        drop (first + 1) places.new ≡ without_read entry (drop first places.old)) }
    ensures none { IsNone result
        → drop first places.new ≡ without_read entry (drop first places.old) }
{
    let mut held = places[first];
    let mut place = first + 1;
    'search: while held.entry != entry {
        if place == places.len() {
            put_back(places, first, held);
            return None;
        }
        let next = places[place];
        places[place] = held;
        held = next;
        place += 1;
    }
    Some(held)
}

impl OutstandingReads {
    ghost use Rattle.core_window.specs.Waiting.{waiting};

    /// No Read waits; there is room for this number of them.
    pub fn with_room(alloc: Global, room: usize) -> Result<OutstandingReads, AllocError>
        ensures { IfOk result (λ reads. waiting reads ≡ []) }
    {
        Ok(OutstandingReads {
            places: Vec::with_capacity(alloc, room.saturating_mul(2))?,
            free: 0,
        })
    }

    /// The Reads that wait for their replies.
    #[inline(always)]
    pub fn as_slice(&self) -> &[OutstandingRead]
        ensures { result.now ≡ waiting self.now }
    {
        &self.places[self.free..]
    }

    /// The first place that is not free becomes the first of all.
    #[inline(never)]
    fn close_up(&mut self)
        ensures { waiting self.new ≡ waiting self.old }
    {
        let len = self.places.len();
        let left = len - self.free;
        self.places.copy_within(self.free..len, 0);
        self.places.truncate(left);
        self.free = 0;
    }

    /// Adds a Read that waits for its reply, behind the others.
    pub fn push(&mut self, read: OutstandingRead) -> Result<(), AllocError>
        ensures { OnOk result (waiting self.new ≡ waiting self.old ++ read ∷ []) }
    {
        if self.places.len() == self.places.capacity() {
            self.close_up();
        }
        self.places.push(read)?;
        Ok(())
    }

    /// Takes out the Read with this number, if it waits.
    #[inline(always)]
    pub fn take(&mut self, entry: u64) -> Option<OutstandingRead>
        requires { IsByNumber (waiting self.old) }
        ensures { IsTakenOut entry (waiting self.old) result (waiting self.new) }
    {
        let first = self.free;
        if first == self.places.len() {
            return None;
        }
        let read = take_from(&mut self.places, first, entry)?;
        self.free = first + 1;
        Some(read)
    }
}
