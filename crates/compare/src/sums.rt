//! Sums over the channels and the cores of a run, its least and its greatest.

ghost use Rattle.std.specs.Prelude.{◌≡◌, fold, max, min};
ghost use Rattle.compare.specs.Sums.{count_of_channel, channel_sum, count_of_core, core_sum, first_retired, least_retired, greatest_retired, longest_queue, ever_drains, channel_cycles};

use statistics::channels::ChannelStats;
use statistics::cores::CoreStats;
use statistics::stats::Stats;

/// What is counted of a channel.
#[derive(Clone, Copy)]
pub(crate) enum ChannelCount {
    Rds,
    Wrs,
    /// RDs and WRs.
    Moves,
    Hits,
    /// Requests in the queue, summed over the cycles.
    Queued,
    /// Cycles in which a refresh was due.
    Due,
    /// Cycles in which writes were drained.
    Drained,
}

/// What is counted of a core.
#[derive(Clone, Copy)]
pub(crate) enum CoreCount {
    Retired,
    Latency,
    Replies,
}

impl ChannelCount {
    fn of(self, channel: &ChannelStats) -> u128
        ensures { result ≡ count_of_channel self channel.now }
    {
        match self {
            ChannelCount::Rds => u128::from(channel.rd),
            ChannelCount::Wrs => u128::from(channel.wr),
            ChannelCount::Moves => u128::from(channel.rd) + u128::from(channel.wr),
            ChannelCount::Hits => u128::from(channel.hits),
            ChannelCount::Queued => channel.queued,
            ChannelCount::Due => u128::from(channel.refreshing),
            ChannelCount::Drained => u128::from(channel.draining.unwrap_or(0)),
        }
    }
}

impl CoreCount {
    fn of(self, core: &CoreStats) -> u128
        ensures { result ≡ count_of_core self core.now }
    {
        match self {
            CoreCount::Retired => u128::from(core.retired),
            CoreCount::Latency => core.read_latency,
            CoreCount::Replies => u128::from(core.replies),
        }
    }
}

/// A count of all channels.
#[tactic(auto, using(std::proofs::lemmas::List::Sums::sum_by_more))]
pub(crate) fn channel_sum(count: ChannelCount, channels: &[ChannelStats]) -> u128
    ensures { result ≡ channel_sum count channels.now }
{
    let mut sum = 0u128;
    for channel in channels {
        sum = sum.saturating_add(count.of(channel));
    }
    sum
}

/// A count of all cores.
#[tactic(auto, using(std::proofs::lemmas::List::Sums::sum_by_more))]
pub(crate) fn core_sum(count: CoreCount, cores: &[CoreStats]) -> u128
    ensures { result ≡ core_sum count cores.now }
{
    let mut sum = 0u128;
    for core in cores {
        sum = sum.saturating_add(count.of(core));
    }
    sum
}

fn first_retired(cores: &[CoreStats]) -> u64
    ensures { result ≡ first_retired cores.now }
{
    match cores.first() {
        Some(core) => core.retired,
        None => 0,
    }
}

/// The entries of the core that retired the fewest.
pub(crate) fn least_retired(cores: &[CoreStats]) -> u64
    ensures { result ≡ least_retired cores.now }
{
    cores.iter().fold(first_retired(cores), |least, core| least.min(core.retired))
}

/// The entries of the core that retired the most.
pub(crate) fn greatest_retired(cores: &[CoreStats]) -> u64
    ensures { result ≡ greatest_retired cores.now }
{
    cores.iter().fold(0, |most, core| most.max(core.retired))
}

/// The greatest length of a queue.
pub(crate) fn longest_queue(channels: &[ChannelStats]) -> u64
    ensures { result ≡ longest_queue channels.now }
{
    channels
        .iter()
        .fold(0, |most, channel| most.max(channel.queued_max))
}

/// Whether some channel drains its writes.
pub(crate) fn ever_drains(channels: &[ChannelStats]) -> bool
    ensures { result ≡ ever_drains channels.now }
{
    channels.iter().any(|channel| channel.draining.is_some())
}

/// The cycles of all channels.
pub(crate) fn channel_cycles(run: &Stats) -> u128
    ensures { result ≡ channel_cycles run.now }
{
    u128::from(run.cycles).saturating_mul(run.channels.len() as u128)
}
