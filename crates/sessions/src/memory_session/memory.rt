//! All channels of a machine as a session.

ghost use Rattle.std.specs.Prelude.{◌≡◌, ◌≢◌, ◌<◌, length, None, IfOk, IfErr, OnOk, OnErr};
ghost use Rattle.sim_base.specs.Places.{place_of};
ghost use Rattle.sessions.specs.Addresses.{IsAddress};
ghost use Rattle.sessions.specs.Sessions.{core_of, end_refusal, IsAnswer};
ghost use Rattle.sessions.specs.declared.channel_session.fault.SessionFault.TheVariants.{Memory};
ghost use Rattle.sessions.specs.declared.channel_session.session.Session.{Session};
ghost use Rattle.sessions.specs.Memories.{Pasts, IsMemory, ForPasts, IsOpenMemory, no_pasts, AreNewChannels, memory_refusal, with_request_of, TakesCommand, TakesReply, IsFirstCommand, IsFirstReply, command_from, reply_from, IsNextCommand, IsNextReply, IsNextActOf, stats_of, EachMayRun, EachHasRun};

use crate::channel_session::cycles::end_refusal;
use crate::channel_session::fault::SessionFault;
use crate::channel_session::places::address_of;
use crate::channel_session::requests::{SentRequest, core_of};
use crate::channel_session::session::Session;
use crate::memory_session::cycles::earlier_numbered;
use sim_base::command::IssuedCommand;
use sim_base::config::Config;
use sim_base::message::{ChannelId, Cycle, Message, earlier};
use sim_base::place::Place;
use statistics::channels::ChannelStats;
use std::alloc::Global;

/// All channels of a machine, each of which is sent the requests for its addresses. Its contracts are about every past
/// that each channel may have.
#[derive(Drop)]
pub struct MemorySession {
    config: Config,
    /// The cycle where all channels stand: this many are over.
    cycle: Cycle,
    /// The channels, by number.
    sessions: Vec<Session>,
}

/// The channels of a machine with this configuration, before their first cycle. The only error is out of memory.
fn opened(alloc: Global, config: &Config) -> Result<Vec<Session>, SessionFault>
    ensures count { IfOk result (λ sessions. length sessions.items ≡ config.now.channels) }
    ensures each { IfOk result (AreNewChannels config.now) }
    ensures memory { IfErr result (λ e. e ≡ Memory) }
{
    let mut sessions = Vec::new(alloc);
    for number in 0..u32::from(config.channels) {
        sessions.push(Session::open(alloc, config, number)?)?;
    }
    Ok(sessions)
}

/// Runs channels up to a cycle that is not over, and no later than 2^62. The only error is out of memory.
fn run_all(alloc: Global, sessions: &mut [Session], until: Cycle) -> Result<(), SessionFault>
    requires may { EachMayRun until sessions.old }
    ensures count { length sessions.new ≡ length sessions.old }
    ensures done { OnOk result (EachHasRun until sessions.old sessions.new) }
    ensures memory { IfErr result (λ e. e ≡ Memory) }
{
    for session in sessions.iter_mut() {
        session.run(alloc, until)?;
    }
    Ok(())
}

impl MemorySession {
    /// The memory of a machine with this configuration, before its first cycle. The only error is out of memory.
    pub fn open(alloc: Global, config: &Config) -> Result<MemorySession, SessionFault>
        ensures opened { IfOk result (λ memory. IsMemory memory (no_pasts config.now)) }
        ensures now { IfOk result (λ memory. memory.cycle ≡ 0) }
        ensures config { IfOk result (λ memory. memory.config ≡ config.now) }
        ensures memory { IfErr result (λ e. e ≡ Memory) }
    {
        Ok(MemorySession {
            config: config.copy(alloc)?,
            cycle: 0,
            sessions: opened(alloc, config)?,
        })
    }

    /// The cycle where the memory stands, at most 2^62: this many are over.
    pub fn now(&self) -> Cycle
        ensures { result ≡ self.now.cycle }
    {
        self.cycle
    }

    /// Where the line of 64 bytes at an address lies.
    pub fn place_of(&self, address: u64) -> Place
        ensures place { result ≡ place_of self.now.config address }
        ensures channel { result.channel < self.now.config.channels }
    {
        address_map::place_of(&self.config, address)
    }

    /// The least address of the line at a place, if the memory has that place.
    pub fn address_of(&self, place: &Place) -> Option<u64>
        ensures { IsAddress self.now.config place.now result }
    {
        address_of(&self.config, place)
    }

    /// Sends a request to the channel of its address, and nothing to another one. A refusal leaves the pasts of all
    /// channels, and the cycle where they stand.
    ///
    /// # Errors
    ///
    /// Those of `Session::send` at that channel, in the same order: `NoSuchCore`, `InThePast`, `OutOfOrder`,
    /// `EntryPassed`, `NoCredit` and `Memory`; `OtherChannel` never comes.
    pub fn send(&mut self, request: &SentRequest) -> Result<(), SessionFault>
        requires open { IsOpenMemory self.old }
        ensures answer { (pasts : Pasts) (other : Session) → IsMemory self.old pasts
            → IsAnswer (memory_refusal self.old pasts other request.now) result }
        ensures sent { ForPasts self.old (λ pasts.
            OnOk result (IsMemory self.new (with_request_of self.old.config pasts request.now))) }
        ensures left { ForPasts self.old (λ pasts. OnErr result (IsMemory self.new pasts)) }
        ensures open { IsOpenMemory self.new }
        ensures now { self.new.cycle ≡ self.old.cycle }
        ensures config { self.new.config ≡ self.old.config }
    {
        let place = self.place_of(request.address);
        self.sessions[place.channel as usize].send_to(request, place)
    }

    /// Runs all channels up to a cycle that is not refused. The only error is out of memory.
    fn advance(&mut self, alloc: Global, until: Cycle) -> Result<(), SessionFault>
        requires open { IsOpenMemory self.old }
        requires passed { end_refusal self.old.cycle until ≡ None }
        ensures done { ForPasts self.old (λ pasts. OnOk result (IsMemory self.new pasts)) }
        ensures now { OnOk result (self.new.cycle ≡ until) }
        ensures memory { IfErr result (λ e. e ≡ Memory) }
        ensures config { self.new.config ≡ self.old.config }
    {
        run_all(alloc, &mut self.sessions, until)?;
        self.cycle = until;
        Ok(())
    }

    /// Runs all channels over the cycles before `until`. Any refusal but `Memory` leaves the memory as it was. After
    /// `Memory` it is not known what the channels hold, and they can only be closed.
    ///
    /// # Errors
    ///
    /// The first of these that is so:
    /// - `EndPassed`: `until` is before the cycle where the memory stands.
    /// - `EndTooLate`: `until` is after 2^62.
    /// - `Memory`: memory was refused to one of the channels.
    pub fn run(&mut self, alloc: Global, until: Cycle) -> Result<(), SessionFault>
        requires open { IsOpenMemory self.old }
        ensures answer { IsAnswer (end_refusal self.old.cycle until) result }
        ensures done { ForPasts self.old (λ pasts. OnOk result (IsMemory self.new pasts)) }
        ensures now { OnOk result (self.new.cycle ≡ until) }
        ensures same { IfErr result (λ e. e ≢ Memory → self.new ≡ self.old) }
        ensures open { OnOk result (IsOpenMemory self.new) }
        ensures config { self.new.config ≡ self.old.config }
    {
        match end_refusal(self.cycle, until) {
            Some(fault) => Err(fault),
            None => self.advance(alloc, until),
        }
    }

    /// The channel with the first command that was not taken, and its cycle.
    fn first_command(&self) -> Option<(Cycle, usize)>
        ensures { ForPasts self.now (λ pasts. IsFirstCommand self.now pasts result) }
    {
        let mut first = None;
        for (number, session) in self.sessions.iter().enumerate() {
            first = earlier_numbered(first, session.command_cycle(), number);
        }
        first
    }

    /// The channel with the first reply that was not taken, and when it arrives.
    fn first_reply(&self) -> Option<(Cycle, usize)>
        ensures { ForPasts self.now (λ pasts. IsFirstReply self.now pasts result) }
    {
        let mut first = None;
        for (number, session) in self.sessions.iter().enumerate() {
            first = earlier_numbered(first, session.reply_arrival(), number);
        }
        first
    }

    /// The next command of a channel that was not taken, if there is one. It is taken then.
    fn take_command(&mut self, number: usize) -> Option<(ChannelId, IssuedCommand)>
        requires open { IsOpenMemory self.old }
        requires inside { number < length self.old.sessions.items }
        ensures next { ForPasts self.old (λ pasts.
            result ≡ command_from pasts self.old.cycle number) }
        ensures taken { TakesCommand self.old self.new result }
        ensures open { IsOpenMemory self.new }
        ensures now { self.new.cycle ≡ self.old.cycle }
        ensures config { self.new.config ≡ self.old.config }
    {
        match self.sessions[number].next_command() {
            Some(command) => Some((number as ChannelId, command)),
            None => None,
        }
    }

    /// The next command of the cycles that are over, if there is one, with the number of its channel: the first that
    /// was not taken, by cycle and then by channel. It is taken then.
    pub fn next_command(&mut self) -> Option<(ChannelId, IssuedCommand)>
        requires open { IsOpenMemory self.old }
        ensures next { ForPasts self.old (λ pasts.
            IsNextCommand self.old.config.channels pasts self.old.cycle result) }
        ensures taken { TakesCommand self.old self.new result }
        ensures open { IsOpenMemory self.new }
        ensures now { self.new.cycle ≡ self.old.cycle }
        ensures config { self.new.config ≡ self.old.config }
    {
        match self.first_command() {
            Some((_, number)) => self.take_command(number),
            None => None,
        }
    }

    /// The next reply or credit of a channel that was not taken, if there is one. It is taken then.
    fn take_reply(&mut self, number: usize) -> Option<(ChannelId, Message)>
        requires open { IsOpenMemory self.old }
        requires inside { number < length self.old.sessions.items }
        ensures next { ForPasts self.old (λ pasts.
            result ≡ reply_from pasts self.old.cycle number) }
        ensures taken { TakesReply self.old self.new result }
        ensures open { IsOpenMemory self.new }
        ensures now { self.new.cycle ≡ self.old.cycle }
        ensures config { self.new.config ≡ self.old.config }
    {
        match self.sessions[number].next_reply() {
            Some(reply) => Some((number as ChannelId, reply)),
            None => None,
        }
    }

    /// The next reply or credit that was sent in the cycles that are over, if there is one, with the number of the
    /// channel that sent it: of the first of each channel that was not taken, the one that arrives first, and of these
    /// that of the lowest channel. It is taken then.
    pub fn next_reply(&mut self) -> Option<(ChannelId, Message)>
        requires open { IsOpenMemory self.old }
        ensures next { ForPasts self.old (λ pasts.
            IsNextReply self.old.config.channels pasts self.old.cycle result) }
        ensures taken { TakesReply self.old self.new result }
        ensures open { IsOpenMemory self.new }
        ensures now { self.new.cycle ≡ self.old.cycle }
        ensures config { self.new.config ≡ self.old.config }
    {
        match self.first_reply() {
            Some((_, number)) => self.take_reply(number),
            None => None,
        }
    }

    /// The number of the core that a reply or a credit goes to: that of its link.
    pub fn core_of(&self, reply: &Message) -> u64
        ensures { result ≡ core_of self.now.config reply.now }
    {
        core_of(&self.config, reply)
    }

    /// The next cycle from now on in which a channel acts, if nothing more is sent and there is one: none issues
    /// anything before that cycle, and in it, one issues a command or a request that was sent arrives.
    pub fn next_act(&mut self) -> Option<Cycle>
        requires open { IsOpenMemory self.old }
        ensures next { ForPasts self.old (λ pasts.
            IsNextActOf self.old.config.channels pasts self.old.cycle result) }
        ensures left { ForPasts self.old (λ pasts. IsMemory self.new pasts) }
        ensures open { IsOpenMemory self.new }
        ensures now { self.new.cycle ≡ self.old.cycle }
        ensures config { self.new.config ≡ self.old.config }
    {
        let mut first = None;
        for number in 0..self.sessions.len() {
            first = earlier(first, self.sessions[number].next_act());
        }
        first
    }

    /// The statistics of the cycles of a channel that are over, if there is that channel.
    pub fn stats(&self, number: ChannelId) -> Option<ChannelStats>
        ensures { ForPasts self.now (λ pasts.
            result ≡ stats_of self.now.config.channels pasts self.now.cycle number) }
    {
        match self.sessions.get(number as usize) {
            Some(session) => Some(session.stats()),
            None => None,
        }
    }
}
