//! What a channel sends.

ghost use Rattle.std.specs.Prelude.{◌≡◌, ◌<◌, ◌^◌, ◌++◌, IfOk};
ghost use Rattle.sim_base.specs.History.{reply, credit, messages_of};
ghost use Rattle.sim_base.specs.Scheduling.{column_command};
ghost use Rattle.channel_step.specs.Latencies.{latencies_to, answer_latencies, KnowsLatencies};
ghost use Rattle.channel_step.specs.Runs.{with_command};

use command_table::list::CommandList;
use sim_base::command::{Command, IssuedCommand, Source};
use sim_base::config::Config;
use sim_base::message::{Access, ChannelId, CoreId, Cycle, Message, Payload, Request};
use std::alloc::{AllocError, Global};

/// How many cycles a reply travels to a core, and how many cycles a credit does.
#[derive(Clone, Copy)]
pub(crate) struct AnswerLatencies {
    pub reply: u32,
    pub credit: u32,
}

/// A channel that answers a request in a cycle, with the latencies of its links to each core, by number.
#[derive(Clone, Copy)]
pub(crate) struct AnsweringChannel<'a> {
    pub config: &'a Config,
    pub latencies: &'a [AnswerLatencies],
    pub channel: ChannelId,
    pub cycle: Cycle,
}

/// The latencies of a channel's links to a core.
fn latencies_to(config: &Config, channel: ChannelId, core: CoreId) -> AnswerLatencies
    ensures { result ≡ latencies_to config.now channel core }
{
    AnswerLatencies {
        reply: config.latency(config.reply_link(core, channel)),
        credit: config.latency(config.credit_link(core, channel)),
    }
}

/// The latencies of a channel's links to each core, by number.
pub(crate) fn answer_latencies(
    alloc: Global,
    config: &Config,
    channel: ChannelId,
) -> Result<Vec<AnswerLatencies>, AllocError>
    ensures { IfOk result (λ v. v.items ≡ answer_latencies config.now channel) }
{
    (0..config.cores)
        .map(move |core| latencies_to(config, channel, core))
        .collect(alloc)
}

/// The latencies of the channel's links to a core, also to one that the machine does not have.
#[inline(always)]
fn travel_to(sender: &AnsweringChannel<'_>, core: CoreId) -> AnswerLatencies
    requires latencies { KnowsLatencies sender.now }
    ensures { result ≡ latencies_to sender.now.config.now sender.now.channel core }
{
    if usize::from(core) < sender.latencies.len() {
        sender.latencies[usize::from(core)]
    } else {
        latencies_to(sender.config, sender.channel, core)
    }
}

/// The reply to a Read whose RD is issued in this cycle: it leaves with the last data, after nCL and 4 cycles of the
/// bus.
#[inline(always)]
#[tactic(auto, unfolding(sim_base::specs::History::reply))]
fn reply_to(sender: &AnsweringChannel<'_>, source: Source, travel: AnswerLatencies) -> Message
    requires early { sender.now.cycle < 2 ^ 62 }
    requires travel { travel ≡ latencies_to sender.now.config.now sender.now.channel source.core }
    ensures { result ≡ reply sender.now.config.now sender.now.channel sender.now.cycle source }
{
    let config = sender.config;
    let data = sender.cycle + u64::from(config.timing.n_cl) + 4;
    Message {
        link: config.reply_link(source.core, sender.channel),
        arrival: data + u64::from(travel.reply),
        payload: Payload::Reply(source.entry),
    }
}

/// The credit that goes back for a request whose RD or WR is issued in this cycle.
#[inline(always)]
#[tactic(auto, unfolding(sim_base::specs::History::credit))]
fn credit_for(
    sender: &AnsweringChannel<'_>,
    access: Access,
    source: Source,
    travel: AnswerLatencies,
) -> Message
    requires early { sender.now.cycle < 2 ^ 62 }
    requires travel { travel ≡ latencies_to sender.now.config.now sender.now.channel source.core }
    ensures { result ≡ credit sender.now.config.now sender.now.channel sender.now.cycle
        access source }
{
    Message {
        link: sender.config.credit_link(source.core, sender.channel),
        arrival: sender.cycle + u64::from(travel.credit),
        payload: Payload::Credit {
            access,
            entry: source.entry,
        },
    }
}

/// Sends what follows from the column command of a request that a channel issues in a cycle. On an error some of it may
/// be missing.
#[inline(always)]
#[tactic(auto, unfolding(sim_base::specs::History::messages_of))]
pub(crate) fn send(
    sender: &AnsweringChannel<'_>,
    request: &Request,
    messages: &mut Vec<Message>,
) -> Result<(), AllocError>
    requires early { sender.now.cycle < 2 ^ 62 }
    requires latencies { KnowsLatencies sender.now }
    ensures { IfOk result (λ u. messages.new.items ≡ messages.old.items
        ++ messages_of sender.now.config.now sender.now.channel sender.now.cycle
        (column_command request.now)) }
{
    let source = request.source();
    let travel = travel_to(sender, source.core);
    match request.access {
        Access::Read => {
            let reply = reply_to(sender, source, travel);
            let credit = credit_for(sender, Access::Read, source, travel);
            messages.reserve(2)?;
            messages.push_reserved(reply);
            messages.push_reserved(credit);
        }
        Access::Write => messages.push(credit_for(sender, Access::Write, source, travel))?,
    }
    Ok(())
}

/// Adds a command that a channel issues in a cycle to its commands, where they are kept. On an error it is not added.
#[inline(always)]
pub(crate) fn keep(
    channel: ChannelId,
    now: Cycle,
    command: Command,
    commands: &mut Option<CommandList>,
) -> Result<(), AllocError>
    ensures { IfOk result (λ u. commands.new ≡ with_command commands.old channel now command) }
{
    if let Some(list) = commands {
        list.push(IssuedCommand {
            cycle: now,
            channel,
            command,
        })?;
    }
    Ok(())
}
