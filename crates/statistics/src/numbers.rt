//! How counters are listed, and their numbers taken from counts and made counts again.

ghost use Rattle.std.specs.Prelude.{◌≡◌, ◌≤◌, ◌<◌, ◌^◌, length, unwrap_or, Some, IfSome};
ghost use Rattle.statistics.specs.Counters.{counter_of, IsBelow};
ghost use Rattle.statistics.specs.declared.counters.CounterKind.TheVariants.{Count, Sum, Cycle};

use crate::counters::{Counter, CounterKind};
use sim_base::message::Cycle;

/// A counter whose numbers are counts.
pub fn count(name: &'static [u8]) -> Counter
    requires { length name.now ≤ 32 }
    ensures { counter_of result ≡ (name.now, Count) }
{
    Counter {
        name,
        kind: CounterKind::Count,
    }
}

/// A counter whose numbers are sums of counts.
pub(crate) fn sum(name: &'static [u8]) -> Counter
    requires { length name.now ≤ 32 }
    ensures { counter_of result ≡ (name.now, Sum) }
{
    Counter {
        name,
        kind: CounterKind::Sum,
    }
}

/// A counter whose numbers are cycles, or none.
pub(crate) fn cycle(name: &'static [u8]) -> Counter
    requires { length name.now ≤ 32 }
    ensures { counter_of result ≡ (name.now, Cycle) }
{
    Counter {
        name,
        kind: CounterKind::Cycle,
    }
}

/// A count as a counter's number.
pub(crate) fn wide(count: u64) -> Option<u128>
    ensures { result ≡ Some count }
{
    Some(u128::from(count))
}

/// A cycle that may be missing, as a counter's number.
pub(crate) fn wide_cycle(cycle: Option<Cycle>) -> Option<u128>
    ensures { result ≡ cycle }
{
    match cycle {
        Some(cycle) => Some(u128::from(cycle)),
        None => None,
    }
}

/// A count, from its counter's number.
pub(crate) fn narrow(number: Option<u128>) -> u64
    requires { IsBelow (2 ^ 64) number }
    ensures { result ≡ unwrap_or number 0 }
{
    match number {
        Some(count) => count as u64,
        None => 0,
    }
}

/// A cycle that may be missing, from its counter's number.
pub(crate) fn narrow_cycle(number: Option<u128>) -> Option<Cycle>
    requires { IfSome number (λ cycle. cycle < 2 ^ 64) }
    ensures { result ≡ number }
{
    match number {
        Some(cycle) => Some(cycle as u64),
        None => None,
    }
}
