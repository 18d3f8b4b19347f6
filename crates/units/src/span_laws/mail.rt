//! The messages of a run that come to a unit, span by span.

ghost use Rattle.laws.specs.Everywhere.{InEachSpan};
ghost use Rattle.units.specs.SpanLaws.Mail.{MailIsSettled, MailIsKnown, SpansJoin, MailIsSent};

/// What arrives at a unit before a cycle is settled when the run has come to this cycle, and known earlier by as many
/// cycles as each message travels at least. What arrived before a span and what arrives in it make up what arrived by
/// its end. What arrives in a span is a part of the messages that were sent, by age.
pub fn mail_is_known()
    ensures settled { InEachSpan MailIsSettled }
    ensures known { InEachSpan MailIsKnown }
    ensures joined { InEachSpan SpansJoin }
    ensures sent { InEachSpan MailIsSent }
{}
