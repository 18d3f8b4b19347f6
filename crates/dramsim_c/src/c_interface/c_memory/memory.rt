//! A memory that a program in C keeps.

ghost use Rattle.std.specs.Prelude.{◌≡◌, ◌≢◌, ℕ, None, Some, Err, true, option_map, IfOk, IfErr, OnOk, OnErr};
ghost use Rattle.config_reader.specs.Document.{document_of};
ghost use Rattle.sessions.specs.Sessions.{end_refusal};
ghost use Rattle.sessions.specs.declared.channel_session.session.Session.{Session};
ghost use Rattle.sessions.specs.declared.channel_session.fault.SessionFault.TheVariants.{Memory};
ghost use Rattle.sim_base.specs.Places.{place_of};
ghost use Rattle.sim_base.specs.declared.config.Config.{Config};
ghost use Rattle.sessions.specs.Memories.{Pasts, IsMemory, IsOpenMemory, memory_refusal, with_request_of, IsNextActOf, stats_of};
ghost use Rattle.sessions.specs.declared.memory_session.memory.MemorySession.{MemorySession};
ghost use Rattle.dramsim_c.specs.CInterface.Channels.{IsAddressAnswer};
ghost use Rattle.dramsim_c.specs.CInterface.Kept.{IsOpenAnswer, IsCallAnswer};
ghost use Rattle.dramsim_c.specs.declared.c_interface.fault.CallFault.TheVariants as call;
ghost use Rattle.dramsim_c.specs.CInterface.Memories.{IsWell, ForPasts, ForOpen, ForMemory, HasPasts, StandsAt, StandsAsBefore, IsOf, IsClosed, IsNewMemory, IsOpened, configuration_refusal, stats_answer, IsCommandRow, IsReplyRow, with_command_given, with_reply_given};

use crate::c_interface::boxes::boxed;
use crate::c_interface::c_memory::handle::Handle;
use crate::c_interface::fault::CallFault;
use crate::c_interface::rows::{CommandRow, ReplyRow};
use config_reader::read_config;
use sessions::channel_session::fault::SessionFault;
use sessions::channel_session::requests::SentRequest;
use sessions::memory_session::memory::MemorySession;
use sim_base::message::{ChannelId, Cycle};
use sim_base::place::Place;
use statistics::channels::ChannelStats;
use std::alloc::Global;
use std::mem::replace;

/// A memory that a program in C keeps: it is closed, or it owns the channels of a machine. C begins with one that is
/// all zeros.
#[repr(C)]
#[derive(Drop)]
pub struct KeptMemory {
    is_open: bool,
    handle: Handle,
}

/// The memory of the machine whose configuration a text states.
fn opened(alloc: Global, text: &[u8]) -> Result<Box<MemorySession>, CallFault>
    ensures opened { IfOk result (λ owner. IsNewMemory text.now owner.value) }
    ensures answer { IsOpenAnswer (configuration_refusal (document_of text.now)) result }
{
    let config = match read_config(alloc, text) {
        Ok(config) => config,
        Err(fault) => return Err(CallFault::Configuration(fault)),
    };
    match MemorySession::open(alloc, &config) {
        Ok(memory) => boxed(alloc, memory),
        Err(fault) => Err(CallFault::Session(fault)),
    }
}

/// The row of the next command of a memory, if there is one, with the number of its channel. It is taken then.
fn command_of(memory: &mut MemorySession) -> Option<(ChannelId, CommandRow)>
    requires open { IsOpenMemory memory.old }
    ensures next { (pasts : Pasts) → IsMemory memory.old pasts
        → IsCommandRow memory.old.config pasts memory.old.cycle result }
    ensures taken { (pasts : Pasts) → IsMemory memory.old pasts
        → IsMemory memory.new (with_command_given pasts memory.old.cycle result) }
    ensures open { IsOpenMemory memory.new }
    ensures now { memory.new.cycle ≡ memory.old.cycle }
    ensures config { memory.new.config ≡ memory.old.config }
{
    match memory.next_command() {
        Some((number, command)) => Some((number, CommandRow::of(&command))),
        None => None,
    }
}

/// The row of the next reply or credit of a memory, if there is one, with the number of the channel that sent it. It is
/// taken then.
fn reply_of(memory: &mut MemorySession) -> Option<(ChannelId, ReplyRow)>
    requires open { IsOpenMemory memory.old }
    ensures next { (pasts : Pasts) → IsMemory memory.old pasts
        → IsReplyRow memory.old.config pasts memory.old.cycle result }
    ensures taken { (pasts : Pasts) → IsMemory memory.old pasts
        → IsMemory memory.new (with_reply_given pasts memory.old.cycle result) }
    ensures open { IsOpenMemory memory.new }
    ensures now { memory.new.cycle ≡ memory.old.cycle }
    ensures config { memory.new.config ≡ memory.old.config }
{
    match memory.next_reply() {
        Some((number, reply)) => Some((number, ReplyRow::of(memory.core_of(&reply), &reply))),
        None => None,
    }
}

impl KeptMemory {
    /// Takes the memory out, if it is open. It is closed then.
    fn take(&mut self, alloc: Global) -> Option<Box<MemorySession>>
        requires well { IsWell self.old }
        ensures memory { option_map (λ memory. memory.value) result ≡ self.old.handle.value }
        ensures well { IsWell self.new }
        ensures closed { IsClosed self.new }
        ensures same { IsClosed self.old → self.new ≡ self.old }
    {
        if !self.is_open {
            return None;
        }
        let handle = replace(&mut self.handle, Handle::closed(alloc));
        self.is_open = false;
        Some(handle.into_box())
    }

    /// Puts a memory in.
    fn put(&mut self, memory: Box<MemorySession>)
        ensures memory { self.new.handle.value ≡ Some memory.value }
        ensures open { self.new.is_open ≡ true }
    {
        self.handle = Handle::of(memory);
        self.is_open = true;
    }

    /// Opens a closed memory: all channels of the machine whose configuration a text states, before their first cycle.
    /// A refusal leaves it closed. It is refused as `AlreadyOpen` where it is open, which leaves it as it was.
    pub fn open(&mut self, alloc: Global, text: &[u8]) -> Result<(), CallFault>
        requires well { IsWell self.old }
        ensures well { IsWell self.new }
        ensures opened { OnOk result (IsOpened text.now self.new) }
        ensures answer { IsClosed self.old
            → IsOpenAnswer (configuration_refusal (document_of text.now)) result }
        ensures already { self.old.is_open ≡ true → result ≡ Err call.AlreadyOpen }
        ensures same { OnErr result (self.new ≡ self.old) }
    {
        if self.is_open {
            return Err(CallFault::AlreadyOpen);
        }
        let memory = opened(alloc, text)?;
        self.put(memory);
        Ok(())
    }

    /// Sends a request to the channel of its address, and nothing to another one. It is refused as that channel refuses
    /// it, or as `Closed`; that leaves the memory with the pasts that it had.
    pub fn send(&mut self, alloc: Global, request: &SentRequest) -> Result<(), CallFault>
        requires well { IsWell self.old }
        ensures well { IsWell self.new }
        ensures answer { ForMemory self.old (λ m pasts. (other : Session) →
            IsCallAnswer (memory_refusal m pasts other request.now) result) }
        ensures sent { ForMemory self.old (λ m pasts.
            OnOk result (HasPasts self.new (with_request_of m.config pasts request.now))) }
        ensures left { ForPasts self.old (λ pasts. OnErr result (HasPasts self.new pasts)) }
        ensures now { StandsAsBefore self.old self.new }
        ensures config { (config : Config) → IsOf self.old config → IsOf self.new config }
        ensures closed { IsClosed self.old → result ≡ Err call.Closed }
    {
        let Some(memory) = self.take(alloc) else {
            return Err(CallFault::Closed);
        };
        let mut memory = memory;
        let result = memory.send(request);
        self.put(memory);
        match result {
            Ok(()) => Ok(()),
            Err(fault) => Err(CallFault::Session(fault)),
        }
    }

    /// Runs all channels over the cycles before `until`. It is refused as `MemorySession::run` refuses it, or as
    /// `Closed`. A refusal as `Closed`, `EndPassed` or `EndTooLate` leaves the memory with the pasts that it had; as
    /// `Memory` it closes it.
    pub fn run(&mut self, alloc: Global, until: Cycle) -> Result<(), CallFault>
        requires well { IsWell self.old }
        ensures well { IsWell self.new }
        ensures answer { ForOpen self.old (λ m. IsCallAnswer (end_refusal m.cycle until) result) }
        ensures done { ForPasts self.old (λ pasts. OnOk result (HasPasts self.new pasts)) }
        ensures now { OnOk result (StandsAt self.new until) }
        ensures config { (config : Config) → IsOf self.old config
            → result ≢ Err (call.Session Memory) → IsOf self.new config }
        ensures left { ForPasts self.old (λ pasts.
            IfErr result (λ e. e ≢ call.Session Memory → HasPasts self.new pasts)) }
        ensures stays { (cycle : ℕ) → StandsAt self.old cycle
            → IfErr result (λ e. e ≢ call.Session Memory → StandsAt self.new cycle) }
        ensures lost { IfErr result (λ e. e ≡ call.Session Memory → IsClosed self.new) }
        ensures closed { IsClosed self.old → result ≡ Err call.Closed }
    {
        let Some(memory) = self.take(alloc) else {
            return Err(CallFault::Closed);
        };
        let mut memory = memory;
        match memory.run(alloc, until) {
            Ok(()) => {
                self.put(memory);
                Ok(())
            }
            Err(SessionFault::Memory) => Err(CallFault::Session(SessionFault::Memory)),
            Err(fault) => {
                self.put(memory);
                Err(CallFault::Session(fault))
            }
        }
    }

    /// The row of the next command of the cycles that are over, if there is one, with the number of its channel: the
    /// first that was not taken, by cycle and then by channel. It is taken then. A closed memory has none.
    pub fn next_command(&mut self, alloc: Global) -> Option<(ChannelId, CommandRow)>
        requires well { IsWell self.old }
        ensures well { IsWell self.new }
        ensures next { ForMemory self.old (λ m pasts. IsCommandRow m.config pasts m.cycle result) }
        ensures taken { ForMemory self.old (λ m pasts.
            HasPasts self.new (with_command_given pasts m.cycle result)) }
        ensures now { StandsAsBefore self.old self.new }
        ensures config { (config : Config) → IsOf self.old config → IsOf self.new config }
        ensures closed { IsClosed self.old → result ≡ None }
    {
        let Some(memory) = self.take(alloc) else {
            return None;
        };
        let mut memory = memory;
        let command = command_of(&mut memory);
        self.put(memory);
        command
    }

    /// The row of the next reply or credit that was sent in the cycles that are over, if there is one, with the number
    /// of the channel that sent it: of the first of each channel that was not taken, the one that arrives first, and of
    /// these that of the lowest channel. It is taken then. A closed memory has none.
    pub fn next_reply(&mut self, alloc: Global) -> Option<(ChannelId, ReplyRow)>
        requires well { IsWell self.old }
        ensures well { IsWell self.new }
        ensures next { ForMemory self.old (λ m pasts. IsReplyRow m.config pasts m.cycle result) }
        ensures taken { ForMemory self.old (λ m pasts.
            HasPasts self.new (with_reply_given pasts m.cycle result)) }
        ensures now { StandsAsBefore self.old self.new }
        ensures config { (config : Config) → IsOf self.old config → IsOf self.new config }
        ensures closed { IsClosed self.old → result ≡ None }
    {
        let Some(memory) = self.take(alloc) else {
            return None;
        };
        let mut memory = memory;
        let reply = reply_of(&mut memory);
        self.put(memory);
        reply
    }

    /// The cycle where an open memory stands: this many are over. None where it is closed.
    pub fn now(&mut self, alloc: Global) -> Option<Cycle>
        requires well { IsWell self.old }
        ensures well { IsWell self.new }
        ensures now { result ≡ option_map (λ m. m.cycle) self.old.handle.value }
        ensures kept { self.new.handle.value ≡ self.old.handle.value }
        ensures closed { IsClosed self.old → result ≡ None }
    {
        let Some(memory) = self.take(alloc) else {
            return None;
        };
        let now = memory.now();
        self.put(memory);
        Some(now)
    }

    /// The next cycle from now on in which a channel of an open memory acts, if nothing more is sent and there is one:
    /// none issues anything before that cycle, and in it, one issues a command or a request that was sent arrives. A
    /// closed memory has none.
    pub fn next_act(&mut self, alloc: Global) -> Option<Cycle>
        requires well { IsWell self.old }
        ensures well { IsWell self.new }
        ensures next { ForMemory self.old (λ m pasts.
            IsNextActOf m.config.channels pasts m.cycle result) }
        ensures left { ForPasts self.old (λ pasts. HasPasts self.new pasts) }
        ensures now { StandsAsBefore self.old self.new }
        ensures config { (config : Config) → IsOf self.old config → IsOf self.new config }
        ensures closed { IsClosed self.old → result ≡ None }
    {
        let Some(memory) = self.take(alloc) else {
            return None;
        };
        let mut memory = memory;
        let cycle = memory.next_act();
        self.put(memory);
        cycle
    }

    /// The least address of the line at a place in an open memory. It is refused as `Closed`, or as `NoSuchPlace` where
    /// the memory has none.
    pub fn address_of(&mut self, alloc: Global, place: &Place) -> Result<u64, CallFault>
        requires well { IsWell self.old }
        ensures well { IsWell self.new }
        ensures address { ForOpen self.old (λ m. IsAddressAnswer m.config place.now result) }
        ensures kept { self.new.handle.value ≡ self.old.handle.value }
        ensures closed { IsClosed self.old → result ≡ Err call.Closed }
    {
        let Some(memory) = self.take(alloc) else {
            return Err(CallFault::Closed);
        };
        let address = memory.address_of(place);
        self.put(memory);
        address.ok_or(CallFault::NoSuchPlace)
    }

    /// Where the line at an address lies in an open memory. None where it is closed.
    pub fn place_of(&mut self, alloc: Global, address: u64) -> Option<Place>
        requires well { IsWell self.old }
        ensures well { IsWell self.new }
        ensures place { ForOpen self.old (λ m. result ≡ Some (place_of m.config address)) }
        ensures kept { self.new.handle.value ≡ self.old.handle.value }
        ensures closed { IsClosed self.old → result ≡ None }
    {
        let Some(memory) = self.take(alloc) else {
            return None;
        };
        let place = memory.place_of(address);
        self.put(memory);
        Some(place)
    }

    /// The statistics of the cycles of a channel that are over. They are refused as `Closed`, or as `NoSuchChannel`
    /// where the memory has no channel with this number.
    pub fn stats(&mut self, alloc: Global, number: ChannelId) -> Result<ChannelStats, CallFault>
        requires well { IsWell self.old }
        ensures well { IsWell self.new }
        ensures stats { ForMemory self.old (λ m pasts.
            result ≡ stats_answer (stats_of m.config.channels pasts m.cycle number)) }
        ensures kept { self.new.handle.value ≡ self.old.handle.value }
        ensures closed { IsClosed self.old → result ≡ Err call.Closed }
    {
        let Some(memory) = self.take(alloc) else {
            return Err(CallFault::Closed);
        };
        let stats = memory.stats(number);
        self.put(memory);
        stats.ok_or(CallFault::Session(SessionFault::NoSuchChannel))
    }

    /// Closes the memory, whether it is open or not: all that it holds is freed.
    pub fn close(&mut self, alloc: Global)
        requires well { IsWell self.old }
        ensures well { IsWell self.new }
        ensures closed { IsClosed self.new }
    {
        drop(self.take(alloc));
    }
}
