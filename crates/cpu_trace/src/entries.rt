//! The entries of a trace, of which only the Read and Write ones take room.

ghost use Rattle.std.specs.Prelude.{◌≡◌, ◌+◌, ◌^◌, ◌<◌, ◌≤◌, true, [], ◌∷◌, ◌++◌, length, replicate, slice_get, IfOk, OnOk, OnErr, IfSome, IfNone};
ghost use Rattle.sim_base.specs.Windows.{is_memory};
ghost use Rattle.cpu_trace.specs.NextMemory.{IsPlainBetween, IsNextMemory};

use crate::stored::Stored;
use sim_base::trace::Entry;
use std::alloc::{AllocError, Global};
use std::marker::Model;

/// The largest number of entries that a trace has.
pub(crate) const MOST_ENTRIES: u64 = 1 << 62;

/// A Read or a Write entry, and its number in its trace, counted from 0.
#[derive(Clone, Copy)]
pub struct MemoryEntry {
    pub number: u64,
    pub entry: Entry,
}

/// The entries of a trace, at most 2^62.
#[derive(Drop)]
pub(crate) struct Entries {
    memory: Vec<Stored>,
    len: u64,
}

impl Model for Entries {
    ghost use Rattle.std.specs.Prelude.{◌^◌, ◌≤◌, List};
    ghost use Rattle.sim_base.specs.declared.trace.Entry.{Entry};

    ghost Value = { List Entry };

    ghost use Rattle.cpu_trace.specs.Entries.{entries_after, IsAscending};

    ghost view = { λ e. entries_after 0 e.memory.items e.len };

    ghost invariant = { λ e. IsAscending 0 e.memory.items e.len × (e.len ≤ 2 ^ 62) };
}

impl Entries {
    /// No entries.
    pub(crate) fn new(alloc: Global) -> Self
        ensures { result ≡ [] }
    {
        Entries {
            memory: Vec::new(alloc),
            len: 0,
        }
    }

    /// No entries, with room for `capacity` Read and Write ones. The only error is out of memory.
    pub(crate) fn with_capacity(alloc: Global, capacity: usize) -> Result<Self, AllocError>
        ensures { IfOk result (λ entries. entries ≡ []) }
    {
        Ok(Entries {
            memory: Vec::with_capacity(alloc, capacity)?,
            len: 0,
        })
    }

    /// How many entries there are.
    pub(crate) fn len(&self) -> u64
        ensures value { result ≡ length self.now }
        ensures limit { result ≤ 2 ^ 62 }
    {
        self.len
    }

    /// Adds a run of Plain entries, and then a Read or a Write.
    pub(crate) fn add(&mut self, plain: u64, entry: Entry) -> Result<(), AllocError>
        requires memory { is_memory entry ≡ true }
        requires room { length self.old + plain < 2 ^ 62 }
        ensures ok { OnOk result (self.new ≡ self.old
            ++ (replicate plain Entry.Plain ++ entry ∷ [])) }
        ensures err { OnErr result (self.new ≡ self.old) }
    {
        let number = self.len + plain;
        self.memory.push(Stored::new(number, entry))?;
        self.len = number + 1;
        Ok(())
    }

    /// Adds a run of Plain entries.
    fn add_plain(&mut self, plain: u64)
        requires { length self.old + plain ≤ 2 ^ 62 }
        ensures { self.new ≡ self.old ++ replicate plain Entry.Plain }
    {
        self.len += plain;
    }

    /// Adds other entries after these.
    pub(crate) fn append(&mut self, others: &Entries) -> Result<(), AllocError>
        requires { length self.old + length others.now ≤ 2 ^ 62 }
        ensures { OnOk result (self.new ≡ self.old ++ others.now) }
    {
        let mut next = 0;
        for stored in &others.memory {
            self.add(stored.number() - next, stored.entry())?;
            next = stored.number() + 1;
        }
        self.add_plain(others.len - next);
        Ok(())
    }

    /// These entries, one after another.
    pub(crate) fn from_slice(alloc: Global, entries: &[Entry]) -> Result<Self, AllocError>
        requires { length entries.now ≤ 2 ^ 62 }
        ensures { IfOk result (λ all. all ≡ entries.now) }
    {
        let mut all = Entries::new(alloc);
        for entry in entries {
            match entry {
                Entry::Plain => all.add_plain(1),
                Entry::Read(_) | Entry::Write(_) => all.add(0, *entry)?,
            }
        }
        Ok(all)
    }

    /// Where the first Read or Write entry from a number on is kept.
    fn next_stored(&self, from: u64) -> Option<&Stored>
        ensures found { IfSome result (λ stored. IsNextMemory self.now from stored.now) }
        ensures none { IfNone result (IsPlainBetween self.now from (length self.now)) }
    {
        let place = self.memory.partition_point(|stored| stored.number() < from);
        self.memory.get(place)
    }

    /// The first Read or Write entry from a number on.
    pub(crate) fn next_memory(&self, from: u64) -> Option<MemoryEntry>
        ensures found { IfSome result (IsNextMemory self.now from) }
        ensures none { IfNone result (IsPlainBetween self.now from (length self.now)) }
    {
        let stored = self.next_stored(from)?;
        Some(MemoryEntry {
            number: stored.number(),
            entry: stored.entry(),
        })
    }

    /// Where the first Read or Write entry from a number on is kept: at this place, or wherever it is found.
    fn next_stored_near(&self, from: u64, place: usize) -> Option<&Stored>
        ensures found { IfSome result (λ stored. IsNextMemory self.now from stored.now) }
        ensures none { IfNone result (IsPlainBetween self.now from (length self.now)) }
    {
        let is_behind = if place == 0 {
            true
        } else {
            match self.memory.get(place - 1) {
                Some(stored) => stored.number() < from,
                None => false,
            }
        };
        match self.memory.get(place) {
            Some(stored) if is_behind && from <= stored.number() => Some(stored),
            _ => self.next_stored(from),
        }
    }

    /// The first Read or Write entry from a number on. It is found at once if `before` of them stand before it.
    pub(crate) fn next_memory_near(&self, from: u64, before: u64) -> Option<MemoryEntry>
        ensures found { IfSome result (IsNextMemory self.now from) }
        ensures none { IfNone result (IsPlainBetween self.now from (length self.now)) }
    {
        let stored = self.next_stored_near(from, before as usize)?;
        Some(MemoryEntry {
            number: stored.number(),
            entry: stored.entry(),
        })
    }

    /// The entry of a number.
    pub(crate) fn entry_at(&self, number: u64) -> Entry
        requires { number < length self.now }
        ensures { slice_get self.now number ≡ Some result }
    {
        match self.next_memory(number) {
            Some(next) if next.number == number => next.entry,
            _ => Entry::Plain,
        }
    }
}
