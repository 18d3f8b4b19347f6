//! A channel that a program in C keeps.

ghost use Rattle.std.specs.Prelude.{◌≡◌, ◌≢◌, ℕ, None, Some, Err, true, option_map, IfOk, IfErr, OnOk, OnErr};
ghost use Rattle.sessions.specs.Ahead.{IsNextAct};
ghost use Rattle.sessions.specs.Sessions.{Past, IsSession, IsOpen, next_command_of, next_reply_of, statistics_of, waiting_of, with_request, with_command, with_reply, refusal, end_refusal};
ghost use Rattle.sessions.specs.declared.channel_session.session.Session.{Session};
ghost use Rattle.sessions.specs.declared.channel_session.fault.SessionFault.TheVariants.{Memory};
ghost use Rattle.dramsim_c.specs.CInterface.Channels.{IsWell, ForSession, HasPast, ForPasts, StandsAt, StandsAsBefore, IsClosed, IsNewSession, IsOpened, open_refusal, IsOpenedAs, IsAddressAnswer};
ghost use Rattle.dramsim_c.specs.CInterface.Kept.{IsOpenAnswer, IsCallAnswer};
ghost use Rattle.config_reader.specs.Document.{document_of};
ghost use Rattle.sim_base.specs.Places.{place_of};
ghost use Rattle.dramsim_c.specs.CInterface.Rows.{reply_row};
ghost use Rattle.dramsim_c.specs.declared.c_interface.fault.CallFault.TheVariants as call;

use crate::c_interface::boxes::boxed;
use crate::c_interface::fault::CallFault;
use crate::c_interface::handle::Handle;
use crate::c_interface::rows::ReplyRow;
use config_reader::read_config;
use sessions::channel_session::fault::SessionFault;
use sessions::channel_session::requests::SentRequest;
use sessions::channel_session::session::Session;
use sim_base::command::IssuedCommand;
use sim_base::message::{ChannelId, Cycle};
use sim_base::place::Place;
use statistics::channels::ChannelStats;
use std::alloc::Global;
use std::mem::replace;

/// A channel that a program in C keeps: it is closed, or it owns a session. C begins with one that is all zeros.
#[repr(C)]
#[derive(Drop)]
pub struct KeptChannel {
    is_open: bool,
    handle: Handle,
}

/// The session of the channel with a number, of the machine whose configuration a text states.
fn opened(alloc: Global, text: &[u8], number: ChannelId) -> Result<Box<Session>, CallFault>
    ensures opened { IfOk result (λ owner. IsNewSession text.now number owner.value) }
    ensures answer { IsOpenAnswer (open_refusal (document_of text.now) number) result }
{
    let config = match read_config(alloc, text) {
        Ok(config) => config,
        Err(fault) => return Err(CallFault::Configuration(fault)),
    };
    match Session::open(alloc, &config, number) {
        Ok(session) => boxed(alloc, session),
        Err(fault) => Err(CallFault::Session(fault)),
    }
}

/// The row of the next reply or credit of a session, if there is one. It is taken then.
fn reply_of(session: &mut Session) -> Option<ReplyRow>
    ensures next { (past : Past) → IsSession session.old past
        → result ≡ option_map (reply_row past.config) (next_reply_of past session.old.cycle) }
    ensures taken { (past : Past) → IsSession session.old past
        → IsSession session.new (with_reply past (next_reply_of past session.old.cycle)) }
    ensures now { session.new.cycle ≡ session.old.cycle }
    ensures open { IsOpen session.old → IsOpen session.new }
{
    match session.next_reply() {
        Some(reply) => Some(ReplyRow::of(session.core_of(&reply), &reply)),
        None => None,
    }
}

impl KeptChannel {
    /// Takes the session out, if the channel is open. The channel is closed then.
    fn take(&mut self, alloc: Global) -> Option<Box<Session>>
        requires well { IsWell self.old }
        ensures session { option_map (λ session. session.value) result ≡ self.old.handle.value }
        ensures well { IsWell self.new }
        ensures closed { IsClosed self.new }
        ensures same { IsClosed self.old → self.new ≡ self.old }
    {
        if !self.is_open {
            return None;
        }
        let handle = replace(&mut self.handle, Handle::closed(alloc));
        self.is_open = false;
        Some(handle.into_box())
    }

    /// Puts a session in.
    fn put(&mut self, session: Box<Session>)
        ensures session { self.new.handle.value ≡ Some session.value }
        ensures open { self.new.is_open ≡ true }
    {
        self.handle = Handle::of(session);
        self.is_open = true;
    }

    /// Opens a closed channel: the one with a number, of the machine whose configuration a text states, before its
    /// first cycle. A refusal leaves it closed. It is refused as `AlreadyOpen` where it is open, which leaves it as it
    /// was.
    pub fn open(&mut self, alloc: Global, text: &[u8], number: ChannelId) -> Result<(), CallFault>
        requires well { IsWell self.old }
        ensures well { IsWell self.new }
        ensures opened { OnOk result (IsOpened text.now number self.new) }
        ensures answer { IsClosed self.old → IsOpenedAs text.now number result }
        ensures already { self.old.is_open ≡ true → result ≡ Err call.AlreadyOpen }
        ensures same { OnErr result (self.new ≡ self.old) }
    {
        if self.is_open {
            return Err(CallFault::AlreadyOpen);
        }
        let session = opened(alloc, text, number)?;
        self.put(session);
        Ok(())
    }

    /// Sends a request. It is refused as the session refuses it, or as `Closed`; that leaves the channel with the past
    /// that it had.
    pub fn send(&mut self, alloc: Global, request: &SentRequest) -> Result<(), CallFault>
        requires well { IsWell self.old }
        ensures well { IsWell self.new }
        ensures answer { ForSession self.old (λ session past.
            IsCallAnswer (refusal session (waiting_of past session.cycle) request.now) result) }
        ensures sent { ForPasts self.old (λ past.
            OnOk result (HasPast self.new (with_request past request.now))) }
        ensures left { ForPasts self.old (λ past. OnErr result (HasPast self.new past)) }
        ensures now { StandsAsBefore self.old self.new }
        ensures closed { IsClosed self.old → result ≡ Err call.Closed }
    {
        let Some(session) = self.take(alloc) else {
            return Err(CallFault::Closed);
        };
        let mut session = session;
        let result = session.send(request);
        self.put(session);
        match result {
            Ok(()) => Ok(()),
            Err(fault) => Err(CallFault::Session(fault)),
        }
    }

    /// Runs the channel over the cycles before `until`. It is refused as `Session::run` refuses it, or as `Closed`. A
    /// refusal as `Closed`, `EndPassed` or `EndTooLate` leaves the channel with the past that it had; as `Memory` it
    /// closes it.
    pub fn run(&mut self, alloc: Global, until: Cycle) -> Result<(), CallFault>
        requires well { IsWell self.old }
        ensures well { IsWell self.new }
        ensures answer { ForSession self.old (λ session past.
            IsCallAnswer (end_refusal session.cycle until) result) }
        ensures done { ForPasts self.old (λ past. OnOk result (HasPast self.new past)) }
        ensures now { OnOk result (StandsAt self.new until) }
        ensures left { ForPasts self.old (λ past.
            IfErr result (λ e. e ≢ call.Session Memory → HasPast self.new past)) }
        ensures stays { (cycle : ℕ) → StandsAt self.old cycle
            → IfErr result (λ e. e ≢ call.Session Memory → StandsAt self.new cycle) }
        ensures lost { IfErr result (λ e. e ≡ call.Session Memory → IsClosed self.new) }
        ensures closed { IsClosed self.old → result ≡ Err call.Closed }
    {
        let Some(session) = self.take(alloc) else {
            return Err(CallFault::Closed);
        };
        let mut session = session;
        match session.run(alloc, until) {
            Ok(()) => {
                self.put(session);
                Ok(())
            }
            Err(SessionFault::Memory) => Err(CallFault::Session(SessionFault::Memory)),
            Err(fault) => {
                self.put(session);
                Err(CallFault::Session(fault))
            }
        }
    }

    /// The next command of the cycles that are over, if there is one: the first that was not taken. It is taken then. A
    /// closed channel has none.
    pub fn next_command(&mut self, alloc: Global) -> Option<IssuedCommand>
        requires well { IsWell self.old }
        ensures well { IsWell self.new }
        ensures next { ForSession self.old (λ session past.
            result ≡ next_command_of past session.cycle) }
        ensures taken { ForPasts self.old (λ past. HasPast self.new (with_command past result)) }
        ensures now { StandsAsBefore self.old self.new }
        ensures closed { IsClosed self.old → result ≡ None }
    {
        let Some(session) = self.take(alloc) else {
            return None;
        };
        let mut session = session;
        let command = session.next_command();
        self.put(session);
        command
    }

    /// The next reply or credit that the channel sent in the cycles that are over, if there is one: the first that was
    /// not taken. It is taken then. A closed channel has none.
    pub fn next_reply(&mut self, alloc: Global) -> Option<ReplyRow>
        requires well { IsWell self.old }
        ensures well { IsWell self.new }
        ensures next { ForSession self.old (λ session past.
            result ≡ option_map (reply_row past.config) (next_reply_of past session.cycle)) }
        ensures taken { ForSession self.old (λ session past.
            HasPast self.new (with_reply past (next_reply_of past session.cycle))) }
        ensures now { StandsAsBefore self.old self.new }
        ensures closed { IsClosed self.old → result ≡ None }
    {
        let Some(session) = self.take(alloc) else {
            return None;
        };
        let mut session = session;
        let reply = reply_of(&mut session);
        self.put(session);
        reply
    }

    /// The cycle where an open channel stands: this many are over. None where it is closed.
    pub fn now(&mut self, alloc: Global) -> Option<Cycle>
        requires well { IsWell self.old }
        ensures well { IsWell self.new }
        ensures now { result ≡ option_map (λ session. session.cycle) self.old.handle.value }
        ensures kept { self.new.handle.value ≡ self.old.handle.value }
        ensures closed { IsClosed self.old → result ≡ None }
    {
        let Some(session) = self.take(alloc) else {
            return None;
        };
        let now = session.now();
        self.put(session);
        Some(now)
    }

    /// The next cycle from now on in which an open channel acts, if nothing more is sent to it and there is one: it
    /// issues nothing before that cycle, and in it, it issues a command or a request that was sent arrives. A closed
    /// channel has none.
    pub fn next_act(&mut self, alloc: Global) -> Option<Cycle>
        requires well { IsWell self.old }
        ensures well { IsWell self.new }
        ensures next { ForSession self.old (λ session past.
            IsNextAct past session.cycle result) }
        ensures kept { self.new.handle.value ≡ self.old.handle.value }
        ensures closed { IsClosed self.old → result ≡ None }
    {
        let Some(session) = self.take(alloc) else {
            return None;
        };
        let mut session = session;
        let cycle = session.next_act();
        self.put(session);
        cycle
    }

    /// The least address of the line at a place in the memory of an open channel's machine. It is refused as `Closed`,
    /// or as `NoSuchPlace` where the memory has none.
    pub fn address_of(&mut self, alloc: Global, place: &Place) -> Result<u64, CallFault>
        requires well { IsWell self.old }
        ensures well { IsWell self.new }
        ensures address { ForSession self.old (λ session past.
            IsAddressAnswer past.config place.now result) }
        ensures kept { self.new.handle.value ≡ self.old.handle.value }
        ensures closed { IsClosed self.old → result ≡ Err call.Closed }
    {
        let Some(session) = self.take(alloc) else {
            return Err(CallFault::Closed);
        };
        let address = session.address_of(place);
        self.put(session);
        address.ok_or(CallFault::NoSuchPlace)
    }

    /// Where the line at an address lies in the memory of an open channel's machine. None where it is closed.
    pub fn place_of(&mut self, alloc: Global, address: u64) -> Option<Place>
        requires well { IsWell self.old }
        ensures well { IsWell self.new }
        ensures place { ForSession self.old (λ session past.
            result ≡ Some (place_of past.config address)) }
        ensures kept { self.new.handle.value ≡ self.old.handle.value }
        ensures closed { IsClosed self.old → result ≡ None }
    {
        let Some(session) = self.take(alloc) else {
            return None;
        };
        let place = session.place_of(address);
        self.put(session);
        Some(place)
    }

    /// The statistics of the cycles of an open channel that are over. None where it is closed.
    pub fn stats(&mut self, alloc: Global) -> Option<ChannelStats>
        requires well { IsWell self.old }
        ensures well { IsWell self.new }
        ensures stats { ForSession self.old (λ session past.
            result ≡ Some (statistics_of past session.cycle)) }
        ensures kept { self.new.handle.value ≡ self.old.handle.value }
        ensures closed { IsClosed self.old → result ≡ None }
    {
        let Some(session) = self.take(alloc) else {
            return None;
        };
        let stats = session.stats();
        self.put(session);
        Some(stats)
    }

    /// Closes the channel, whether it is open or not: all of its memory is freed.
    pub fn close(&mut self, alloc: Global)
        requires well { IsWell self.old }
        ensures well { IsWell self.new }
        ensures closed { IsClosed self.new }
    {
        drop(self.take(alloc));
    }
}
