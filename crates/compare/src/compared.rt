//! What is compared.

ghost use Rattle.std.specs.Prelude.{◌≡◌, ◌^◌, ◌<◌, IfSome};
ghost use Rattle.compare.specs.Measures.{share_of_cycles, row_hits, data_bus, read_latency, queue_mean, drained, value_of, decimals_of, label_of};

use crate::quotients::{quotient, share};
use crate::sums::{
    ChannelCount, CoreCount, channel_cycles, channel_sum, core_sum, ever_drains, greatest_retired,
    least_retired, longest_queue,
};
use statistics::stats::Stats;

/// What is compared, a line for each.
#[derive(Clone, Copy)]
pub(crate) enum Measure {
    Cycles,
    /// The entries that all cores retired, by the cycle.
    Rate,
    LeastRate,
    GreatestRate,
    Reads,
    Writes,
    RowHits,
    DataBus,
    ReadLatency,
    QueueMean,
    QueueMax,
    RefreshDue,
    Drain,
    /// The core whose entries a cycle gained most.
    MostGained,
    MostLost,
}

/// The lines up to the one that p99 stands behind, in their order.
pub(crate) const FIRST_MEASURES: [Measure; 9] = [
    Measure::Cycles,
    Measure::Rate,
    Measure::LeastRate,
    Measure::GreatestRate,
    Measure::Reads,
    Measure::Writes,
    Measure::RowHits,
    Measure::DataBus,
    Measure::ReadLatency,
];

/// The lines behind it.
pub(crate) const LAST_MEASURES: [Measure; 6] = [
    Measure::QueueMean,
    Measure::QueueMax,
    Measure::RefreshDue,
    Measure::Drain,
    Measure::MostGained,
    Measure::MostLost,
];

/// How many decimals a value is shown with.
#[derive(Clone, Copy)]
pub(crate) enum Decimals {
    Zero,
    One,
    Three,
}

// The share of the cycles of all channels that is a count of theirs.
#[tactic(auto, unfolding(crate::specs::Measures::share_of_cycles))]
fn share_of_cycles(count: ChannelCount, run: &Stats) -> Option<u128>
    ensures value { result ≡ share_of_cycles count run.now }
    ensures small { IfSome result (λ value. value < 2 ^ 116) }
{
    share(channel_sum(count, &run.channels), channel_cycles(run))
}

#[tactic(auto, unfolding(crate::specs::Measures::row_hits))]
fn row_hits(run: &Stats) -> Option<u128>
    ensures value { result ≡ row_hits run.now }
    ensures small { IfSome result (λ value. value < 2 ^ 116) }
{
    share(
        channel_sum(ChannelCount::Hits, &run.channels),
        channel_sum(ChannelCount::Moves, &run.channels),
    )
}

// The cycles in which the data buses were taken, four for each RD and WR, as a share.
#[tactic(auto, unfolding(crate::specs::Measures::data_bus))]
fn data_bus(run: &Stats) -> Option<u128>
    ensures value { result ≡ data_bus run.now }
    ensures small { IfSome result (λ value. value < 2 ^ 116) }
{
    let moves = channel_sum(ChannelCount::Moves, &run.channels);
    share(moves.saturating_mul(4), channel_cycles(run))
}

#[tactic(auto, unfolding(crate::specs::Measures::read_latency))]
fn read_latency(run: &Stats) -> Option<u128>
    ensures value { result ≡ read_latency run.now }
    ensures small { IfSome result (λ value. value < 2 ^ 116) }
{
    quotient(
        core_sum(CoreCount::Latency, &run.cores),
        core_sum(CoreCount::Replies, &run.cores),
    )
}

#[tactic(auto, unfolding(crate::specs::Measures::queue_mean))]
fn queue_mean(run: &Stats) -> Option<u128>
    ensures value { result ≡ queue_mean run.now }
    ensures small { IfSome result (λ value. value < 2 ^ 116) }
{
    quotient(
        channel_sum(ChannelCount::Queued, &run.channels),
        channel_cycles(run),
    )
}

// There is no share where no channel ever drains its writes.
#[tactic(auto, unfolding(crate::specs::Measures::drained))]
fn drained(run: &Stats) -> Option<u128>
    ensures value { result ≡ drained run.now }
    ensures small { IfSome result (λ value. value < 2 ^ 116) }
{
    if ever_drains(&run.channels) {
        share_of_cycles(ChannelCount::Drained, run)
    } else {
        None
    }
}

/// What a run has of a measure, in billionths; of a core that changed most it has nothing alone.
#[tactic(auto, unfolding(crate::specs::Measures::value_of))]
pub(crate) fn value_of(measure: Measure, run: &Stats) -> Option<u128>
    ensures value { result ≡ value_of measure run.now }
    ensures small { IfSome result (λ value. value < 2 ^ 116) }
{
    let cycles = u128::from(run.cycles);
    match measure {
        Measure::Cycles => quotient(cycles, 1),
        Measure::Rate => quotient(core_sum(CoreCount::Retired, &run.cores), cycles),
        Measure::LeastRate => quotient(u128::from(least_retired(&run.cores)), cycles),
        Measure::GreatestRate => quotient(u128::from(greatest_retired(&run.cores)), cycles),
        Measure::Reads => quotient(channel_sum(ChannelCount::Rds, &run.channels), 1),
        Measure::Writes => quotient(channel_sum(ChannelCount::Wrs, &run.channels), 1),
        Measure::RowHits => row_hits(run),
        Measure::DataBus => data_bus(run),
        Measure::ReadLatency => read_latency(run),
        Measure::QueueMean => queue_mean(run),
        Measure::QueueMax => quotient(u128::from(longest_queue(&run.channels)), 1),
        Measure::RefreshDue => share_of_cycles(ChannelCount::Due, run),
        Measure::Drain => drained(run),
        Measure::MostGained | Measure::MostLost => None,
    }
}

/// How many decimals a measure is shown with.
pub(crate) fn decimals_of(measure: Measure) -> Decimals
    ensures { result ≡ decimals_of measure }
{
    match measure {
        Measure::Rate | Measure::LeastRate | Measure::GreatestRate | Measure::QueueMean => {
            Decimals::Three
        }
        Measure::RowHits
        | Measure::DataBus
        | Measure::ReadLatency
        | Measure::RefreshDue
        | Measure::Drain => Decimals::One,
        _ => Decimals::Zero,
    }
}

/// What stands before the line of a measure.
#[tactic(auto, unfolding(crate::specs::Measures::label_of))]
pub(crate) fn label_of(measure: Measure) -> &'static str
    ensures { result.now ≡ label_of measure }
{
    match measure {
        Measure::Cycles => "cycles",
        Measure::Rate => "entries/cycle",
        Measure::LeastRate => "entries/cycle least",
        Measure::GreatestRate => "entries/cycle greatest",
        Measure::Reads => "reads",
        Measure::Writes => "writes",
        Measure::RowHits => "row hits %",
        Measure::DataBus => "data bus %",
        Measure::ReadLatency => "read latency",
        Measure::QueueMean => "queue mean",
        Measure::QueueMax => "queue max",
        Measure::RefreshDue => "refresh due %",
        Measure::Drain => "drain %",
        Measure::MostGained => "core that gained most",
        Measure::MostLost => "core that lost most",
    }
}
