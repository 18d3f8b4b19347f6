//! The channels of a run, each run alone over a span.

ghost use Rattle.laws.specs.Everywhere.{InEachRun, InEachCycle, InEachSpan};
ghost use Rattle.units.specs.SpanLaws.Channels.{RequestsFitSpans, ChannelsRunAlone, ChannelsStart, ChannelsMayRun, ChannelsGoOn, ChannelsEndAlike};

/// The requests of a run that come to a channel in a span are fit for it, and from them the channel alone does what
/// it does in the run.
pub fn requests_of_a_run_fit()
    ensures fit { InEachSpan RequestsFitSpans }
    ensures alone { InEachSpan ChannelsRunAlone }
{}

/// A channel that stands for its part of a run, from the first cycle on, may be run over a span with what arrives at
/// it there, and what it leaves is its part of the longer run.
pub fn channels_go_on()
    ensures start { InEachRun ChannelsStart }
    ensures may_run { InEachSpan ChannelsMayRun }
    ensures go_on { InEachSpan ChannelsGoOn }
    ensures end_alike { InEachCycle ChannelsEndAlike }
{}
