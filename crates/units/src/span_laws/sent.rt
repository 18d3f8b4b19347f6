//! How long what is sent takes at least.

ghost use Rattle.sim_base.specs.declared.config.Config.{Config};
ghost use Rattle.laws.specs.Everywhere.{InEachSpan};
ghost use Rattle.units.specs.SpanLaws.Sent.{PhasesAreTurns, RequestsAreLate, AnswersAreLate};

/// What a core sends from a cycle on arrives no sooner than the least latency of a request after it; what a channel
/// sends, no sooner than the least time that a credit or a reply takes. Neither is less than the shortest latency of
/// all links.
pub fn sent_is_late()
    ensures phases { (s : Config) → PhasesAreTurns s }
    ensures requests { InEachSpan RequestsAreLate }
    ensures answers { InEachSpan AnswersAreLate }
{}
