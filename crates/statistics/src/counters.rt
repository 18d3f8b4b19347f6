//! The counters of a unit: under which name each of its numbers stands in `stats.csv`, and what it may be. A core's are
//! listed by `cores::counters`, a channel's by `channels::counters`, in the order of their rows.

ghost use Rattle.std.specs.Prelude.{◌≤◌, length};

/// What the number of a counter may be.
#[derive(Clone, Copy)]
pub enum CounterKind {
    /// A count, of 64 bits.
    Count,
    /// A sum of counts, of 128 bits.
    Sum,
    /// A cycle, of 64 bits, or none.
    Cycle,
}

/// A counter of a unit.
#[derive(Clone, Copy)]
pub struct Counter {
    /// Its name in `stats.csv`.
    pub name: &'static [u8],
    pub kind: CounterKind,
    ghost short: { length name.now ≤ 32 },
}
