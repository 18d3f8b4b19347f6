//! A channel as a session.

ghost use Rattle.std.specs.Prelude.{◌≡◌, ◌≢◌, ◌+◌, ◌-◌, ◌<◌, ◌≤◌, ◌^◌, nat_lt, nat_le, length, take_while, option_map, IfOk, IfErr, OnOk, OnErr};
ghost use Rattle.std.specs.List.{list_all};
ghost use Rattle.sim_base.specs.History.{is_before};
ghost use Rattle.sim_base.specs.Places.{place_of};
ghost use Rattle.sim_base.specs.Scheduling.{queue_room};
ghost use Rattle.sessions.specs.Sent.{message_of, is_unasked};
ghost use Rattle.sessions.specs.Ahead.{IsNextAct, first_arrival};
ghost use Rattle.sessions.specs.Addresses.{IsAddress};
ghost use Rattle.sessions.specs.Sessions.{core_of, IsSession, ForPasts, IsOpen, no_past, next_command_of, next_reply_of, statistics_of, waiting_of, with_request, with_command, with_reply, number_refusal, refusal, end_refusal, IsAnswer, HasTaken};
ghost use Rattle.sessions.specs.declared.channel_session.fault.SessionFault.TheVariants.{Memory};

use crate::channel_session::cycles::end_refusal;
use crate::channel_session::fault::SessionFault;
use crate::channel_session::held::{HeldCommands, HeldReplies};
use crate::channel_session::places::address_of;
use crate::channel_session::requests::{SentRequest, core_of, message_of};
use crate::channel_session::rows::remove_front;
use address_map::place_of;
use channel_step::channel::{Channel, queue_room};
use sim_base::command::IssuedCommand;
use sim_base::config::Config;
use sim_base::message::{ChannelId, Cycle, Message, earlier};
use sim_base::place::Place;
use statistics::channels::ChannelStats;
use std::alloc::{AllocError, Global};
use timing::gap_table::GapTable;

/// A channel that is sent requests, run up to a cycle, and gives its commands and replies one after the other. It keeps
/// nothing of its past but what is not taken yet: its contracts are about every past that it may have.
#[derive(Drop)]
pub struct Session {
    channel: Channel,
    config: Config,
    number: ChannelId,
    /// The cycle where it stands: this many are over.
    cycle: Cycle,
    /// For each core the first entry that may be asked for.
    firsts: Vec<u64>,
    /// What was sent and has not arrived, by arrival and then by link.
    coming: Vec<Message>,
    /// The commands that were issued, and how many were taken.
    commands: HeldCommands,
    /// The replies and credits that were sent and not taken.
    replies: HeldReplies,
    /// What the channel sends in a run: it is put behind the replies when the run ends.
    sent: Vec<Message>,
}

impl Session {
    /// The channel with a number, of a machine with this configuration, before its first cycle.
    ///
    /// # Errors
    ///
    /// - `NoSuchChannel`: the machine has no channel with this number.
    /// - `Memory`, where it has: memory was refused.
    pub fn open(alloc: Global, config: &Config, number: ChannelId) -> Result<Session, SessionFault>
        ensures answer { IsAnswer (number_refusal config.now number) result }
        ensures opened { IfOk result (λ session. IsSession session (no_past config.now number)) }
        ensures now { IfOk result (λ session. session.cycle ≡ 0) }
        ensures open { IfOk result IsOpen }
    {
        if u32::from(config.channels) <= number {
            return Err(SessionFault::NoSuchChannel);
        }
        Ok(Session::start(alloc, config, number)?)
    }

    /// A session of the channel with this number, whether the machine has one or not. The only error is out of memory.
    fn start(alloc: Global, config: &Config, number: ChannelId) -> Result<Session, AllocError>
        ensures opened { IfOk result (λ session. IsSession session (no_past config.now number)) }
        ensures now { IfOk result (λ session. session.cycle ≡ 0) }
    {
        let cores = usize::from(config.cores);
        let firsts = vec![in alloc; 0; cores]?;
        let copied = config.copy(alloc)?;
        let gaps = GapTable::of(config);
        Ok(Session {
            channel: Channel::start(alloc, config, &gaps, number)?,
            config: copied,
            number,
            cycle: 0,
            firsts,
            coming: Vec::new(alloc),
            commands: HeldCommands::new(alloc),
            replies: HeldReplies::new(alloc)?,
            sent: Vec::new(alloc),
        })
    }

    /// The cycle where the session stands, at most 2^62: this many are over.
    pub fn now(&self) -> Cycle
        ensures { result ≡ self.now.cycle }
    {
        self.cycle
    }

    /// The statistics of the cycles that are over.
    pub fn stats(&self) -> ChannelStats
        ensures { ForPasts self.now (λ past. result ≡ statistics_of past self.now.cycle) }
    {
        self.channel.stats()
    }

    /// Whether a message goes behind all that are on their way.
    fn is_last(&self, message: &Message) -> bool
        ensures { result ≡ list_all (λ n. is_before n message.now) self.now.coming.items }
    {
        self.coming.iter().all(|sent| sent.is_before(message))
    }

    /// Whether the entry of a request may be asked for.
    fn is_unasked(&self, request: &SentRequest) -> bool
        ensures { result ≡ is_unasked self.now.firsts.items request.now.core request.now.entry }
    {
        let core = usize::from(request.core);
        core < self.firsts.len() && self.firsts[core] <= request.entry && request.entry < u64::MAX
    }

    /// Whether there is no credit, where so many requests wait.
    fn has_no_credit(&self, waits: usize) -> bool
        ensures { result
            ≡ nat_le (queue_room self.now.config) (waits + length self.now.coming.items) }
    {
        queue_room(&self.config).saturating_sub(waits) <= self.coming.len()
    }

    /// Why a request is refused where so many requests wait, if it is. The place and the message are those of the
    /// request.
    fn refusal(
        &self,
        request: &SentRequest,
        place: Place,
        message: &Message,
        waits: usize,
    ) -> Option<SessionFault>
        requires place { place ≡ place_of self.now.config request.now.address }
        requires message { message.now ≡ message_of self.now.config self.now.number request.now }
        ensures { result ≡ refusal self.now waits request.now }
    {
        if self.config.cores <= request.core {
            Some(SessionFault::NoSuchCore)
        } else if place.channel != self.number {
            Some(SessionFault::OtherChannel)
        } else if request.arrival < self.cycle {
            Some(SessionFault::InThePast)
        } else if !self.is_last(message) {
            Some(SessionFault::OutOfOrder)
        } else if !self.is_unasked(request) {
            Some(SessionFault::EntryPassed)
        } else if self.has_no_credit(waits) {
            Some(SessionFault::NoCredit)
        } else {
            None
        }
    }

    /// Puts a request, carried by its message, behind those on their way: it was asked for then. The only error is out
    /// of memory.
    fn take(&mut self, request: &SentRequest, message: Message) -> Result<(), SessionFault>
        requires core { request.now.core < length self.old.firsts.items }
        requires entry { request.now.entry < 2 ^ 64 - 1 }
        requires message { message ≡ message_of self.old.config self.old.number request.now }
        ensures taken { OnOk result (HasTaken self.old self.new request.now) }
        ensures left { ForPasts self.old (λ past. OnErr result (IsSession self.new past)) }
        ensures memory { IfErr result (λ e. e ≡ Memory) }
        ensures now { self.new.cycle ≡ self.old.cycle }
    {
        let core = usize::from(request.core);
        self.coming.push(message)?;
        self.firsts[core] = request.entry + 1;
        Ok(())
    }

    /// Sends a request. Any refusal but `Memory` leaves the session as it was; that one leaves its past, and the cycle
    /// where it stands.
    ///
    /// # Errors
    ///
    /// The first of these that is so:
    /// - `NoSuchCore`: the machine has no core with its number.
    /// - `OtherChannel`: its address lies in another channel.
    /// - `InThePast`: it arrives in a cycle that is over.
    /// - `OutOfOrder`: one that is on its way arrives later, or in the same cycle on the same link or a higher one.
    /// - `EntryPassed`: its entry, or a later one of its core, was asked for already; or it is 2^64 - 1.
    /// - `NoCredit`: as many requests wait or are on their way as there are credits of all cores.
    /// - `Memory`: memory was refused.
    pub fn send(&mut self, request: &SentRequest) -> Result<(), SessionFault>
        ensures answer { ForPasts self.old (λ past.
            IsAnswer (refusal self.old (waiting_of past self.old.cycle) request.now) result) }
        ensures sent { ForPasts self.old (λ past.
            OnOk result (IsSession self.new (with_request past request.now))) }
        ensures left { ForPasts self.old (λ past. OnErr result (IsSession self.new past)) }
        ensures same { IfErr result (λ e. e ≢ Memory → self.new ≡ self.old) }
        ensures now { self.new.cycle ≡ self.old.cycle }
        ensures open { IsOpen self.old → IsOpen self.new }
    {
        let place = place_of(&self.config, request.address);
        self.send_to(request, place)
    }

    /// Sends a request to the place of its address, as `send` does: with the same errors, and what they leave.
    pub fn send_to(&mut self, request: &SentRequest, place: Place) -> Result<(), SessionFault>
        requires place { place ≡ place_of self.old.config request.now.address }
        ensures answer { ForPasts self.old (λ past.
            IsAnswer (refusal self.old (waiting_of past self.old.cycle) request.now) result) }
        ensures sent { ForPasts self.old (λ past.
            OnOk result (IsSession self.new (with_request past request.now))) }
        ensures left { ForPasts self.old (λ past. OnErr result (IsSession self.new past)) }
        ensures same { IfErr result (λ e. e ≢ Memory → self.new ≡ self.old) }
        ensures now { self.new.cycle ≡ self.old.cycle }
        ensures open { IsOpen self.old → IsOpen self.new }
    {
        let message = message_of(&self.config, self.number, request, place);
        let waits = self.channel.waiting_count();
        match self.refusal(request, place, &message, waits) {
            Some(fault) => Err(fault),
            None => self.take(request, message),
        }
    }

    /// How many of the messages on their way arrive before a cycle.
    fn due_count(&self, until: Cycle) -> usize
        ensures { result
            ≡ length (take_while (λ m. nat_lt m.arrival until) self.now.coming.items) }
    {
        self.coming
            .iter()
            .take_while(|message| message.arrival < until)
            .count()
    }

    /// Runs the channel up to a cycle that is not over, and no later than 2^62. The only error is out of memory.
    fn advance(&mut self, alloc: Global, until: Cycle) -> Result<(), AllocError>
        requires open { IsOpen self.old }
        requires span { self.old.cycle ≤ until }
        requires until { until ≤ 2 ^ 62 }
        ensures done { ForPasts self.old (λ past. OnOk result (IsSession self.new past)) }
        ensures now { OnOk result (self.new.cycle ≡ until) }
    {
        let due = self.due_count(until);
        self.commands.forget_taken(alloc)?;
        let mut commands = self.commands.hand_out(alloc);
        self.sent.clear();
        self.channel.run(
            &self.coming[..due],
            self.cycle..until,
            &mut commands,
            &mut self.sent,
        )?;
        self.commands.take_back(commands);
        self.replies.put(&self.sent)?;
        remove_front(&mut self.coming, due);
        self.cycle = until;
        Ok(())
    }

    /// Runs the channel over the cycles before `until`. Any refusal but `Memory` leaves the session as it was. After
    /// `Memory` it is not known what the session holds, and it can only be closed.
    ///
    /// # Errors
    ///
    /// The first of these that is so:
    /// - `EndPassed`: `until` is before the cycle where the session stands.
    /// - `EndTooLate`: `until` is after 2^62.
    /// - `Memory`: memory was refused.
    pub fn run(&mut self, alloc: Global, until: Cycle) -> Result<(), SessionFault>
        requires open { IsOpen self.old }
        ensures answer { IsAnswer (end_refusal self.old.cycle until) result }
        ensures done { ForPasts self.old (λ past. OnOk result (IsSession self.new past)) }
        ensures now { OnOk result (self.new.cycle ≡ until) }
        ensures same { IfErr result (λ e. e ≢ Memory → self.new ≡ self.old) }
        ensures open { OnOk result (IsOpen self.new) }
    {
        if let Some(fault) = end_refusal(self.cycle, until) {
            return Err(fault);
        }
        Ok(self.advance(alloc, until)?)
    }

    /// The next cycle from now on in which the channel acts, if nothing more is sent to it and there is one: it issues
    /// nothing before that cycle, and in it, it issues a command or a request that was sent arrives.
    pub fn next_act(&mut self) -> Option<Cycle>
        requires open { IsOpen self.old }
        ensures next { ForPasts self.old (λ past. IsNextAct past self.old.cycle result) }
        ensures same { self.new ≡ self.old }
    {
        let command = self.channel.next_act(self.cycle);
        earlier(command, first_arrival(&self.coming))
    }

    /// Where the line of 64 bytes at an address lies in the memory of the session's machine: its channel first of all.
    pub fn place_of(&self, address: u64) -> Place
        ensures { result ≡ place_of self.now.config address }
    {
        place_of(&self.config, address)
    }

    /// The least address of the line at a place, if the memory of the session's machine has that place.
    pub fn address_of(&self, place: &Place) -> Option<u64>
        ensures { IsAddress self.now.config place.now result }
    {
        address_of(&self.config, place)
    }

    /// The number of the core that a reply or a credit of this channel goes to: that of its link.
    pub fn core_of(&self, reply: &Message) -> u64
        ensures { result ≡ core_of self.now.config reply.now }
    {
        core_of(&self.config, reply)
    }

    /// The cycle of the command that `next_command` takes, if there is one.
    pub fn command_cycle(&self) -> Option<Cycle>
        ensures { ForPasts self.now (λ past.
            result ≡ option_map (λ command. command.cycle) (next_command_of past self.now.cycle)) }
    {
        match self.commands.first() {
            Some(command) => Some(command.cycle),
            None => None,
        }
    }

    /// The cycle in which the reply or credit that `next_reply` takes arrives, if there is one.
    pub fn reply_arrival(&self) -> Option<Cycle>
        ensures { ForPasts self.now (λ past.
            result ≡ option_map (λ reply. reply.arrival) (next_reply_of past self.now.cycle)) }
    {
        match self.replies.first() {
            Some(reply) => Some(reply.arrival),
            None => None,
        }
    }

    /// Takes out the first command that it holds, if there is one.
    fn pop_command(&mut self) -> Option<IssuedCommand>
        ensures next { ForPasts self.old (λ past. result ≡ next_command_of past self.old.cycle) }
        ensures taken { ForPasts self.old (λ past. IsSession self.new (with_command past result)) }
        ensures now { self.new.cycle ≡ self.old.cycle }
    {
        self.commands.take_next()
    }

    /// The next command of the cycles that are over, if there is one: the first that was not taken. It is taken then.
    pub fn next_command(&mut self) -> Option<IssuedCommand>
        ensures next { ForPasts self.old (λ past. result ≡ next_command_of past self.old.cycle) }
        ensures taken { ForPasts self.old (λ past. IsSession self.new (with_command past result)) }
        ensures now { self.new.cycle ≡ self.old.cycle }
        ensures open { IsOpen self.old → IsOpen self.new }
    {
        self.pop_command()
    }

    /// Takes out the first reply that it holds, if there is one.
    fn pop_reply(&mut self) -> Option<Message>
        ensures next { ForPasts self.old (λ past. result ≡ next_reply_of past self.old.cycle) }
        ensures taken { ForPasts self.old (λ past. IsSession self.new (with_reply past result)) }
        ensures now { self.new.cycle ≡ self.old.cycle }
    {
        self.replies.take_next()
    }

    /// The next reply with the data of a Read, or the next credit, that the channel sent in the cycles that are over,
    /// if there is one: the first that was not taken. It is taken then.
    pub fn next_reply(&mut self) -> Option<Message>
        ensures next { ForPasts self.old (λ past. result ≡ next_reply_of past self.old.cycle) }
        ensures taken { ForPasts self.old (λ past. IsSession self.new (with_reply past result)) }
        ensures now { self.new.cycle ≡ self.old.cycle }
        ensures open { IsOpen self.old → IsOpen self.new }
    {
        self.pop_reply()
    }
}

/// When the first of these messages arrives, if there is one.
fn first_arrival(coming: &[Message]) -> Option<Cycle>
    ensures { result ≡ first_arrival coming.now }
{
    match coming.first() {
        Some(message) => Some(message.arrival),
        None => None,
    }
}
