//! How a Read or a Write entry is kept.

ghost use Rattle.std.specs.Prelude.{◌≡◌, ◌^◌, ◌<◌, true};
ghost use Rattle.sim_base.specs.Windows.{is_memory};

use crate::entries::MemoryEntry;
use sim_base::trace::Entry;
use std::marker::Model;

/// A Read or a Write entry and its number, in 16 bytes where a `MemoryEntry` takes 24.
#[derive(Drop)]
pub(crate) struct Stored {
    /// Twice the number, and one more for a Write.
    mark: u64,
    address: u64,
}

impl Model for Stored {
    ghost use Rattle.std.specs.Prelude.{◌/◌};
    ghost use Rattle.cpu_trace.specs.declared.entries.MemoryEntry.{MemoryEntry};
    ghost use Rattle.cpu_trace.specs.Marks.{marked_entry};

    ghost Value = { MemoryEntry };

    ghost view = { λ s. record { number = s.mark / 2; entry = marked_entry s.mark s.address } };
}

impl Stored {
    pub(crate) fn new(number: u64, entry: Entry) -> Self
        requires memory { is_memory entry ≡ true }
        requires room { number < 2 ^ 63 }
        ensures { result ≡ record { number = number; entry = entry } }
    {
        match entry {
            Entry::Read(address) => Stored {
                mark: 2 * number,
                address,
            },
            Entry::Write(address) => Stored {
                mark: 2 * number + 1,
                address,
            },
            Entry::Plain => unreachable!(),
        }
    }

    pub(crate) fn number(&self) -> u64
        ensures { result ≡ self.now.number }
    {
        self.mark / 2
    }

    pub(crate) fn entry(&self) -> Entry
        ensures { result ≡ self.now.entry }
    {
        if self.mark % 2 == 0 {
            Entry::Read(self.address)
        } else {
            Entry::Write(self.address)
        }
    }
}
