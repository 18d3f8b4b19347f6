//! How long units may run alone.

ghost use Rattle.std.specs.Prelude.{◌<◌, ◌≤◌, ◌-◌};
ghost use Rattle.sim_base.specs.Locality.{TravelsFor};
ghost use Rattle.units.specs.Spans.{EndsAt};

use links::latency::shortest;
use sim_base::config::Config;
use sim_base::message::Cycle;

/// The cycle before which a phase that begins in cycle `now` ends: after the shortest latency of the machine's links,
/// or at the limit, if that comes sooner. What a unit sends in a phase arrives after it.
#[inline(always)]
pub fn end_of_phase(config: &Config, now: Cycle, limit: Cycle) -> Cycle
    requires { now < limit }
    ensures ends { EndsAt config.now now limit result }
    ensures some { now < result }
    ensures within { result ≤ limit }
    ensures travels { TravelsFor config.now (result - now) }
{
    now + shortest(config).min(limit - now)
}
