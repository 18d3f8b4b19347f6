//! What holds of the messages of a run.

ghost use Rattle.laws.specs.Everywhere.{InEachCycle};
ghost use Rattle.laws.specs.Links.{LinksCarryOneACycle};
ghost use Rattle.laws.specs.Messages.{RequestsAreSentOnce, RequestsFit, AnswersFit};
ghost use Rattle.laws.specs.Requests.{CommandsNameTheQueue, RequestsAreServedOnce, RepliesAnswerReads, ReadsAreAnsweredOnce};

/// At most one message arrives on a link in a cycle.
pub fn links_carry_one_a_cycle()
    ensures { InEachCycle LinksCarryOneACycle }
{}

/// Each message to a channel is the request of an entry that its core has issued, as the core's trace has it; each
/// message to a core is a reply or a credit of a channel; and no entry is requested twice.
pub fn messages_fit_their_links()
    ensures requests { InEachCycle RequestsFit }
    ensures answers { InEachCycle AnswersFit }
    ensures once { InEachCycle RequestsAreSentOnce }
{}

/// A command is issued on behalf of an entry only while the entry's request is in the channel's queue.
pub fn commands_name_the_queue()
    ensures { InEachCycle CommandsNameTheQueue }
{}

/// An entry is served by at most one column command, of one channel.
pub fn requests_are_served_once()
    ensures { InEachCycle RequestsAreServedOnce }
{}

/// Each reply is that of a Read that its core issued in an earlier cycle, and no two replies are those of one entry.
pub fn replies_answer_reads()
    ensures issued { InEachCycle RepliesAnswerReads }
    ensures once { InEachCycle ReadsAreAnsweredOnce }
{}
