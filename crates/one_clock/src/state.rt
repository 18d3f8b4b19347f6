//! What is kept of each core and of each channel.

ghost use Rattle.std.specs.Prelude.{◌≡◌, ◌++◌, filter, IfOk, OnOk};
ghost use Rattle.std.specs.Option.{option_to_list};
ghost use Rattle.sim_base.specs.History.{issued_at};
ghost use Rattle.plain_steps.specs.Plain.{is_passed_over, is_left_by};
ghost use Rattle.one_clock.specs.Pasts.{no_core_past, no_channel_past};
ghost use Rattle.one_clock.specs.Pasts.{core_past_after, channel_past_after, pending_after};

use crate::run_cycle::RunCycle;
use plain_steps::core_cycle::CoreMail;
use plain_steps::scheduling::ChannelStep;
use plain_steps::{mail, scheduling};
use sim_base::command::{Command, IssuedCommand};
use sim_base::history::CoreStep;
use sim_base::message::{ChannelId, CoreId, Message, Request};
use std::alloc::{AllocError, Global};
use std::marker::Model;

/// The past of a core: what it did in each cycle, what it sent, and what was sent to it, by age.
#[derive(Drop)]
pub struct CorePast {
    past_steps: Vec<CoreStep>,
    sent: Vec<Message>,
    inbox: Vec<Message>,
}

impl Model for CorePast {
    ghost use Rattle.plain_steps.specs.Plain.{CoreView};
    ghost use Rattle.one_clock.specs.Pasts.{core_past};

    ghost Value = { CoreView };

    ghost view = { λ p. core_past p.past_steps.items p.sent.items p.inbox.items };
}

impl CorePast {
    /// The past of no cycle.
    pub fn new(alloc: Global) -> Self
        ensures { result ≡ no_core_past }
    {
        CorePast {
            past_steps: Vec::new(alloc),
            sent: Vec::new(alloc),
            inbox: Vec::new(alloc),
        }
    }

    pub fn past_steps(&self) -> &[CoreStep]
        ensures { result.now ≡ self.now.past_steps }
    {
        &self.past_steps
    }

    pub fn inbox(&self) -> &[Message]
        ensures { result.now ≡ self.now.inbox }
    {
        &self.inbox
    }

    /// The messages of the core, which has this number.
    pub fn mail(&self, core: CoreId) -> CoreMail<'_>
        ensures core { result.core ≡ core }
        ensures inbox { result.inbox.now ≡ self.now.inbox }
        ensures sent { result.sent.now ≡ self.now.sent }
    {
        CoreMail {
            core,
            inbox: &self.inbox,
            sent: &self.sent,
        }
    }

    /// Adds a cycle: what the core did and sent in it, and what was sent to it.
    pub fn note(
        &mut self,
        step: CoreStep,
        requests: &[Message],
        arrivals: &[Message],
    ) -> Result<(), AllocError>
        ensures { OnOk result (self.new ≡ core_past_after self.old step requests.now arrivals.now) }
    {
        self.past_steps.push(step)?;
        self.sent.extend_from_slice(requests)?;
        mail::insert_all(&mut self.inbox, arrivals)
    }
}

/// The past of a channel: its commands, the requests that it is still to serve, by age, and whether it drained its
/// writes in the last cycle.
#[derive(Drop)]
pub struct ChannelPast {
    commands: Vec<IssuedCommand>,
    pending: Vec<Message>,
    draining: bool,
}

impl Model for ChannelPast {
    ghost use Rattle.plain_steps.specs.Plain.{ChannelView};
    ghost use Rattle.one_clock.specs.Pasts.{channel_past};

    ghost Value = { ChannelView };

    ghost view = { λ p. channel_past p.commands.items p.pending.items p.draining };
}

impl ChannelPast {
    /// The past of no cycle.
    pub fn new(alloc: Global) -> Self
        ensures { result ≡ no_channel_past }
    {
        ChannelPast {
            commands: Vec::new(alloc),
            pending: Vec::new(alloc),
            draining: false,
        }
    }

    pub fn commands(&self) -> &[IssuedCommand]
        ensures { result.now ≡ self.now.commands }
    {
        &self.commands
    }

    pub fn pending(&self) -> &[Message]
        ensures { result.now ≡ self.now.pending }
    {
        &self.pending
    }

    pub fn is_draining(&self) -> bool
        ensures { result ≡ self.now.draining }
    {
        self.draining
    }

    /// Adds a cycle: what the channel did in it, and what was sent to it.
    pub fn note(
        &mut self,
        cycle: &RunCycle<'_>,
        channel: ChannelId,
        step: ChannelStep,
        arrivals: &[Message],
    ) -> Result<(), AllocError>
        ensures { let now = cycle.now.number in
            OnOk result (self.new ≡ channel_past_after self.old channel now step arrivals.now) }
    {
        let command = step.command;
        push_command(
            &mut self.commands,
            issued_command(channel, cycle.number, command),
        )?;
        self.pending = pending_next(
            cycle.alloc,
            command,
            &self.pending,
            &self.commands,
            arrivals,
        )?;
        self.draining = step.draining;
        Ok(())
    }
}

pub fn issued_command(
    channel: ChannelId,
    now: u64,
    command: Option<Command>,
) -> Option<IssuedCommand>
    ensures { result ≡ issued_at channel now command }
{
    match command {
        None => None,
        Some(command) => Some(IssuedCommand {
            cycle: now,
            channel,
            command,
        }),
    }
}

pub fn push_command(
    commands: &mut Vec<IssuedCommand>,
    row: Option<IssuedCommand>,
) -> Result<(), AllocError>
    ensures { OnOk result (commands.new.items ≡ commands.old.items ++ option_to_list row) }
{
    if let Some(row) = row {
        commands.push(row)?;
    }
    Ok(())
}

fn is_request_passed_over(command: Option<Command>, request: Option<Request>) -> bool
    ensures { result ≡ is_passed_over command request }
{
    match (command, request) {
        (Some(command), Some(r)) => !scheduling::does_serve(r, command),
        _ => true,
    }
}

fn is_still_left(command: Option<Command>, m: Message) -> bool
    ensures { result ≡ is_left_by command m }
{
    is_request_passed_over(command, scheduling::request_of_payload(m.payload))
}

fn messages_left(
    alloc: Global,
    command: Option<Command>,
    pending: &[Message],
) -> Result<Vec<Message>, AllocError>
    ensures { IfOk result (λ v. v.items ≡ filter (is_left_by command) pending.now) }
{
    pending
        .iter()
        .copied()
        .filter(|m| is_still_left(command, *m))
        .collect(alloc)
}

/// The requests that are pending after a cycle, by what the channel issued in it and by what was sent to it.
fn pending_next(
    alloc: Global,
    command: Option<Command>,
    pending: &[Message],
    commands: &[IssuedCommand],
    came: &[Message],
) -> Result<Vec<Message>, AllocError>
    ensures { IfOk result (λ v. v.items ≡ pending_after command pending.now commands.now came.now) }
{
    let mut left = messages_left(alloc, command, pending)?;
    let more = scheduling::unserved(alloc, commands, came)?;
    mail::insert_all(&mut left, &more)?;
    Ok(left)
}
