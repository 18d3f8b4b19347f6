//! Traces.

ghost use Rattle.std.specs.Prelude.{◌≡◌, ◌^◌, ◌<◌, ◌≤◌, ◌↔◌, [], length, slice_get, IsTrue, IfOk, IfSome, IfNone};
ghost use Rattle.cpu_trace.specs.NextMemory.{IsPlainBetween, IsNextMemory};

use crate::entries::{Entries, MemoryEntry};
use sim_base::trace::Entry;
use std::alloc::{AllocError, Global};
use std::marker::Model;
use std::sync::Arc;

/// A core's trace: its entries, numbered from 0, of which there are at most 2^62. A run of Plain entries takes no more
/// room than one.
#[derive(Drop)]
pub struct Trace {
    entries: Arc<Entries>,
}

impl Model for Trace {
    ghost use Rattle.std.specs.Prelude.{List};
    ghost use Rattle.std.specs.Arc.{arc_value};
    ghost use Rattle.sim_base.specs.declared.trace.Entry.{Entry};

    ghost Value = { List Entry };

    ghost view = { λ t. arc_value t.entries };
}

impl Trace {
    pub(crate) fn new(alloc: Global, entries: Entries) -> Result<Trace, AllocError>
        ensures { IfOk result (λ trace. trace ≡ entries) }
    {
        let entries = Arc::new(alloc, entries)?;
        Ok(Trace { entries })
    }

    /// The trace with these entries, of which there are at most 2^62: for callers, such as tests, whose entries are not
    /// in a text.
    pub fn from_entries(alloc: Global, entries: &[Entry]) -> Result<Trace, AllocError>
        requires { length entries.now ≤ 2 ^ 62 }
        ensures { IfOk result (λ trace. trace ≡ entries.now) }
    {
        Trace::new(alloc, Entries::from_slice(alloc, entries)?)
    }

    /// How many entries there are.
    pub fn len(&self) -> u64
        ensures value { result ≡ length self.now }
        ensures limit { result ≤ 2 ^ 62 }
    {
        self.entries.len()
    }

    /// Whether there are no entries.
    pub fn is_empty(&self) -> bool
        ensures { IsTrue result ↔ (self.now ≡ []) }
    {
        self.len() == 0
    }

    /// The entry of a number.
    pub fn entry_at(&self, number: u64) -> Entry
        requires { number < length self.now }
        ensures { slice_get self.now number ≡ Some result }
    {
        self.entries.entry_at(number)
    }

    /// The first Read or Write entry from a number on. All entries before it, from that number on, are Plain; where
    /// there is none, all entries from that number on are.
    pub fn next_memory(&self, from: u64) -> Option<MemoryEntry>
        ensures found { IfSome result (IsNextMemory self.now from) }
        ensures none { IfNone result (IsPlainBetween self.now from (length self.now)) }
    {
        self.entries.next_memory(from)
    }

    /// The first Read or Write entry from a number on, as `next_memory` gives it. It is found at once if `before` is
    /// the number of Read and Write entries before it; otherwise it is searched for among all of them.
    pub fn next_memory_near(&self, from: u64, before: u64) -> Option<MemoryEntry>
        ensures found { IfSome result (IsNextMemory self.now from) }
        ensures none { IfNone result (IsPlainBetween self.now from (length self.now)) }
    {
        self.entries.next_memory_near(from, before)
    }

    /// An equal trace, which shares the entries.
    pub fn copy(&self) -> Result<Trace, AllocError>
        ensures { IfOk result (λ trace. trace ≡ self.now) }
    {
        let entries = self.entries.clone()?;
        Ok(Trace { entries })
    }
}
