//! How soon a message can arrive.

ghost use Rattle.std.specs.Prelude.{◌≡◌, ◌≤◌};
ghost use Rattle.sim_base.specs.Locality.{TravelsFor};
ghost use Rattle.links.specs.Latencies.{has_usual, least_own_of, least_of_kind, SomeLinkTakes};

use sim_base::config::Config;

/// No message travels longer.
const LONGEST: u32 = 1_000_000;

/// Whether some link of a kind has no latency of its own: fewer have one than there are links.
fn has_usual_link(config: &Config, kind: u64) -> bool
    ensures { result ≡ has_usual config.now kind }
{
    let own = config
        .overrides
        .as_slice()
        .iter()
        .filter(|o| o.link % 3 == kind)
        .count();
    own < usize::from(config.cores) * usize::from(config.channels)
}

/// The least latency of the links of a kind that have one of their own.
fn least_own_of(config: &Config, kind: u64) -> u32
    ensures { result ≡ least_own_of config.now kind }
{
    config
        .overrides
        .as_slice()
        .iter()
        .filter(|o| o.link % 3 == kind)
        .fold(LONGEST, |least, o| least.min(o.latency))
}

/// The least latency of the links of a kind, whose usual latency this is, those that have one of their own included. A
/// kind is the remainder of the numbers of its links by 3: 0 for requests, 1 for replies, 2 for credits.
pub fn least_of_kind(config: &Config, kind: u64, usual: u32) -> u32
    ensures { result ≡ least_of_kind config.now kind usual }
{
    let own = least_own_of(config, kind);
    if has_usual_link(config, kind) {
        own.min(usual)
    } else {
        own
    }
}

/// The least latency over all links, in cycles, those that have one of their own included: from 1 to 1,000,000.
pub fn shortest(config: &Config) -> u64
    ensures meets { TravelsFor config.now result }
    ensures attained { SomeLinkTakes config.now result }
    ensures positive { 1 ≤ result }
{
    let request = least_of_kind(config, 0, config.request_latency);
    let reply = least_of_kind(config, 1, config.reply_latency);
    let credit = least_of_kind(config, 2, config.credit_latency);
    u64::from(request.min(reply).min(credit))
}
