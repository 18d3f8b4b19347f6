//! What arrives at a core, and what it changes.

ghost use Rattle.std.specs.Prelude.{◌≡◌, ◌+◌, ◌/◌, ◌%◌, ◌<◌, ◌^◌, [], ◌∷◌, length, IfSome, IsNone};
ghost use Rattle.core_window.specs.Arriving.{IsByAge, all_arriving, IsNextCredit, BeginsWithReply, IsNextReply, first_arrival};
ghost use Rattle.core_window.specs.Counting.{counted_reply, HasRoom, IsCreditedAt};
ghost use Rattle.core_window.specs.OneCycle.{more_credit, less_credit};

use sim_base::config::Config;
use sim_base::message::{Access, Cycle, LinkId, Message, Payload};
use statistics::cores::CoreStats;
use statistics::final_state::Credits;

/// A reply that comes: of which entry, and in which cycle.
#[derive(Clone, Copy)]
pub(crate) struct Reply {
    pub entry: u64,
    pub arrival: Cycle,
}

/// What arrives at a core: replies and credits, each by age.
#[derive(Clone, Copy)]
pub struct Arriving<'a> {
    pub replies: &'a [Message],
    pub credits: &'a [Message],
}

impl<'a> Arriving<'a> {
    /// Takes the next message by age, if there is one.
    #[inline(always)]
    pub(crate) fn next(&mut self) -> Option<&'a Message>
        requires { IsByAge self.old.credits.now }
        ensures some { IfSome result (λ m. all_arriving self.old ≡ m.now ∷ all_arriving self.new) }
        ensures none { IsNone result → all_arriving self.old ≡ [] }
        ensures by_age { IsByAge self.new.credits.now }
    {
        match (self.replies, self.credits) {
            ([reply, ..], [credit, later @ ..]) if credit.is_before(reply) => {
                self.credits = later;
                Some(credit)
            }
            ([reply, later @ ..], _) => {
                self.replies = later;
                Some(reply)
            }
            ([], [credit, later @ ..]) => {
                self.credits = later;
                Some(credit)
            }
            ([], []) => None,
        }
    }

    /// The first of the credits and those after it, if it is the next message by age.
    #[inline(always)]
    pub(crate) fn due_credit(&self) -> Option<(&'a Message, &'a [Message])>
        requires { IsByAge self.now.credits.now }
        ensures some { IfSome result (λ due. IsNextCredit self.now due.0.now due.1.now) }
        ensures none { IsNone result → BeginsWithReply self.now }
    {
        match (self.replies, self.credits) {
            ([reply, ..], [credit, later @ ..]) if credit.is_before(reply) => Some((credit, later)),
            ([_, ..], _) => None,
            ([], [credit, later @ ..]) => Some((credit, later)),
            ([], []) => None,
        }
    }

    /// Takes the first of the replies, if it is to another entry than `first`.
    #[inline(always)]
    pub(crate) fn next_other_reply(&mut self, first: u64) -> Option<Reply>
        ensures some { IfSome result (λ reply. IsNextReply first self.old reply self.new) }
        ensures none { IsNone result → self.new ≡ self.old }
    {
        match self.replies {
            [message, later @ ..] => match message.payload {
                Payload::Reply(entry) if entry != first => {
                    self.replies = later;
                    Some(Reply {
                        entry,
                        arrival: message.arrival,
                    })
                }
                _ => None,
            },
            [] => None,
        }
    }

    /// The cycle in which the next message arrives; where there is none, `until`.
    #[inline(always)]
    pub(crate) fn first_arrival(&self, until: Cycle) -> Cycle
        requires { IsByAge self.now.credits.now }
        ensures { result ≡ first_arrival until (all_arriving self.now) }
    {
        match (self.replies, self.credits) {
            ([reply, ..], [credit, ..]) => reply.arrival.min(credit.arrival),
            ([reply, ..], []) => reply.arrival,
            ([], [credit, ..]) => credit.arrival,
            ([], []) => until,
        }
    }
}

/// The channel of a link.
#[inline(always)]
pub fn channel_of(config: &Config, link: LinkId) -> u64
    ensures { result ≡ link / 3 % config.now.channels }
{
    (link / 3) & u64::from(config.channels - 1)
}

/// Adds a credit for an access.
pub fn add_credit(credits: &mut Credits, access: Access)
    ensures { HasRoom access credits.old → credits.new ≡ more_credit access credits.old }
{
    match access {
        Access::Read => credits.read = credits.read.saturating_add(1),
        Access::Write => credits.write = credits.write.saturating_add(1),
    }
}

/// Spends a credit for an access.
pub fn spend_credit(credits: &mut Credits, access: Access)
    ensures { credits.new ≡ less_credit access credits.old }
{
    match access {
        Access::Read => credits.read = credits.read.saturating_sub(1),
        Access::Write => credits.write = credits.write.saturating_sub(1),
    }
}

/// Adds a credit for an access at a channel.
pub fn add_credit_at(credits: &mut [Credits], channel: usize, access: Access)
    requires { channel < length credits.old }
    ensures { IsCreditedAt channel access credits.old credits.new }
{
    add_credit(&mut credits[channel], access);
}

/// Counts a reply, and how long it was waited for.
pub fn count_reply(stats: &mut CoreStats, waited: u64)
    requires count { stats.old.replies + 1 < 2 ^ 64 }
    requires sum { stats.old.read_latency + waited < 2 ^ 128 }
    ensures { stats.new ≡ counted_reply stats.old waited }
{
    stats.replies += 1;
    stats.read_latency += u128::from(waited);
}
