//! How far a run goes before it is looked at again: for about a tenth of a second.

ghost use Rattle.std.specs.Prelude.{◌≡◌, ◌/◌};
ghost use Rattle.std.specs.Duration.{as_nanos};
ghost use Rattle.progress.specs.Pace.{next_interval};

use sim_base::message::Cycle;
use std::time::Duration;

/// How many cycles a run goes on at first.
pub const FIRST_INTERVAL: Cycle = 2_000;

/// An interval that takes fewer milliseconds is doubled.
const SHORT: u128 = 50;

/// An interval that takes more milliseconds is cut.
const LONG: u128 = 200;

/// How many cycles come next after an interval that took this long: twice as many if it took less than a twentieth of a
/// second, half as many if it took more than a fifth, and at least one.
pub fn next_interval(interval: Cycle, took: Duration) -> Cycle
    ensures { result ≡ next_interval interval (as_nanos took / 1_000_000) }
{
    let millis = took.as_millis();
    if millis < SHORT {
        interval.saturating_mul(2).max(1)
    } else if millis > LONG {
        (interval / 2).max(1)
    } else {
        interval.max(1)
    }
}
