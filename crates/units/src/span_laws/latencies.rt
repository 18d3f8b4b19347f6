//! How far each kind of units may go beyond the cycle where the other stands.

ghost use Rattle.std.specs.Prelude.{◌≤◌};
ghost use Rattle.units.specs.SpanLaws.Sent.{RequestsTravelFor, AnswersTakeFor};
ghost use Rattle.units.specs.SpanLaws.Latencies.{RequestTakes, AnswerTakes};

use links::latency::least_of_kind;
use sim_base::config::Config;
use sim_base::message::Cycle;

/// The least latency over all links that carry requests, in cycles, links with a latency of their own included: so far
/// channels may go beyond the cycle where the cores stand.
pub fn least_request_latency(config: &Config) -> Cycle
    ensures meets { RequestsTravelFor config.now result }
    ensures attained { RequestTakes config.now result }
    ensures positive { 1 ≤ result }
{
    u64::from(least_of_kind(config, 0, config.request_latency))
}

/// The least number of cycles, over all links, from a command to the arrival of a credit or a reply that it causes: so
/// far cores may go beyond the cycle where the channels stand.
pub fn least_way_back(config: &Config) -> Cycle
    ensures meets { AnswersTakeFor config.now result }
    ensures attained { AnswerTakes config.now result }
    ensures positive { 1 ≤ result }
{
    let credit = u64::from(least_of_kind(config, 2, config.credit_latency));
    let reply = u64::from(config.timing.n_cl)
        + 4
        + u64::from(least_of_kind(config, 1, config.reply_latency));
    credit.min(reply)
}
