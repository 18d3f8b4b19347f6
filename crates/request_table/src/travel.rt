//! When a request that was served was where.

ghost use Rattle.std.specs.Prelude.{◌≡◌, ◌+◌};
ghost use Rattle.request_table.specs.Requests.{replied_in, if_within};
ghost use Rattle.request_table.specs.Tables.{times_of};

use crate::served_requests::ServedRequest;
use crate::times::RequestTimes;
use sim_base::config::Config;
use sim_base::message::{Access, Cycle};

/// The cycle that is so many later, if it is one of the first `cycles`.
fn later(from: Cycle, wait: u64, cycles: Cycle) -> Option<Cycle>
    ensures { result ≡ if_within cycles (from + wait) }
{
    let cycle = from.checked_add(wait)?;
    if cycle < cycles { Some(cycle) } else { None }
}

/// When the reply to a served request comes to its core, if it has one and that is a cycle of a run of so many.
fn replied(config: &Config, cycles: Cycle, request: &ServedRequest) -> Option<Cycle>
    ensures { result ≡ replied_in config.now cycles
        request.now.access request.now.core request.now.channel request.now.served }
{
    match request.access {
        Access::Read => {
            let link = config.reply_link(request.core, request.channel);
            let wait = u64::from(config.timing.n_cl) + 4 + u64::from(config.latency(link));
            later(request.served, wait, cycles)
        }
        Access::Write => None,
    }
}

/// When a served request was where, in a run of so many cycles of a machine with this configuration.
pub(crate) fn times(config: &Config, cycles: Cycle, request: &ServedRequest) -> RequestTimes
    ensures { result ≡ times_of config.now cycles request.now }
{
    let link = config.request_link(request.core, request.channel);
    let issued = request
        .arrived
        .saturating_sub(u64::from(config.latency(link)));
    RequestTimes {
        core: request.core,
        entry: request.entry,
        access: request.access,
        channel: request.channel,
        issued,
        arrived: request.arrived,
        served: request.served,
        replied: replied(config, cycles, request),
        hit: request.hit,
    }
}
