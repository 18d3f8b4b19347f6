//! What arrives at the one kind of units, known from the other kind alone.

ghost use Rattle.laws.specs.Everywhere.{InEachSpan};
ghost use Rattle.units.specs.SpanLaws.Known.{RequestsAreKnown, AnswersAreKnown};

/// What arrives at a channel before a cycle is exactly what the cores sent up to the least latency of requests before
/// it. What arrives at a core before a cycle is exactly what the channels sent up to the least way back before it.
pub fn mail_is_known_from_others()
    ensures requests { InEachSpan RequestsAreKnown }
    ensures answers { InEachSpan AnswersAreKnown }
{}
