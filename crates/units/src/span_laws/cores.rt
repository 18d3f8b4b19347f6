//! The cores of a run, each run alone over a span.

ghost use Rattle.laws.specs.Everywhere.{InEachRun, InEachCycle, InEachSpan};
ghost use Rattle.units.specs.SpanLaws.Cores.{MessagesFitSpans, CoresRunAlone, CoresStart, CoresMayRun, CoresGoOn, CoresEndAlike};

/// The replies and credits of a run that come to a core in a span are fit for it, and from them the core alone does
/// what it does in the run.
pub fn messages_of_a_run_fit_cores()
    ensures fit { InEachSpan MessagesFitSpans }
    ensures alone { InEachSpan CoresRunAlone }
{}

/// A core that stands for its part of a run, from the first cycle on, may be run over a span with what arrives at it
/// there, and it then stands for its part of the longer run.
pub fn cores_go_on()
    ensures start { InEachRun CoresStart }
    ensures may_run { InEachSpan CoresMayRun }
    ensures go_on { InEachSpan CoresGoOn }
    ensures end_alike { InEachCycle CoresEndAlike }
{}
