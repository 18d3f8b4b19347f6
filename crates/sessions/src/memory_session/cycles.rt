//! The earliest of several cycles.

ghost use Rattle.std.specs.Prelude.{◌≡◌};
ghost use Rattle.sessions.specs.Earliest.{earlier_numbered};

use sim_base::message::Cycle;

/// The earlier of two cycles with a number, where the second one may not be there: the first of two that are equal.
pub(crate) fn earlier_numbered(
    first: Option<(Cycle, usize)>,
    cycle: Option<Cycle>,
    number: usize,
) -> Option<(Cycle, usize)>
    ensures { result ≡ earlier_numbered first cycle number }
{
    match (first, cycle) {
        (first, None) => first,
        (None, Some(cycle)) => Some((cycle, number)),
        (Some(first), Some(cycle)) if cycle < first.0 => Some((cycle, number)),
        (first, _) => first,
    }
}
