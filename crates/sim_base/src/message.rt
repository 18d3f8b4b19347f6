//! What travels on the links between cores and channels.

ghost use Rattle.std.specs.Prelude.{◌≡◌};
ghost use Rattle.sim_base.specs.Earlier.{earlier};

use crate::command::{Command, Source};
use crate::place::Place;
use std::fmt;

/// The number of a core.
pub type CoreId = u16;

/// The number of a channel.
pub type ChannelId = u32;

/// The number of a link: core c and channel k have the links 3(cK + k) for requests, that + 1 for replies and that + 2
/// for credits, where K is the number of channels.
pub type LinkId = u64;

/// A clock cycle, counted from 0.
pub type Cycle = u64;

/// The earlier of two cycles; if there is only one of them, that one.
#[inline(always)]
pub fn earlier(first: Option<Cycle>, second: Option<Cycle>) -> Option<Cycle>
    ensures { result ≡ earlier first second }
{
    match (first, second) {
        (Some(a), Some(b)) => Some(a.min(b)),
        (None, _) => second,
        (_, None) => first,
    }
}

/// A core or a channel.
#[derive(Clone, Copy, PartialEq, Eq)]
pub enum Unit {
    Core(CoreId),
    Channel(ChannelId),
}

impl fmt::Display for Unit {
    fn fmt<W: fmt::Write>(&self, f: &mut fmt::Formatter<W>) -> fmt::Result {
        match self {
            Unit::Core(core) => write!(f, "core {core}"),
            Unit::Channel(channel) => write!(f, "channel {channel}"),
        }
    }
}

impl fmt::Debug for Unit {
    fn fmt<W: fmt::Write>(&self, f: &mut fmt::Formatter<W>) -> fmt::Result {
        fmt::Display::fmt(self, f)
    }
}

/// What a request asks of the memory.
#[derive(Clone, Copy, PartialEq, Eq, Debug)]
pub enum Access {
    Read,
    Write,
}

impl Access {
    ghost use Rattle.std.specs.Prelude.{◌≡◌};
    ghost use Rattle.sim_base.specs.Access.{is_access};

    /// Whether another access is the same.
    #[inline(always)]
    pub fn is_access(self, other: Access) -> bool
        ensures { result ≡ is_access self other }
    {
        self == other
    }
}

/// A memory request.
#[derive(Clone, Copy, PartialEq, Eq, Debug)]
pub struct Request {
    pub core: CoreId,
    pub access: Access,
    pub entry: u64,
    pub address: u64,
    pub place: Place,
    pub arrival: Cycle,
    pub link: LinkId,
}

impl Request {
    ghost use Rattle.std.specs.Prelude.{◌≡◌};
    ghost use Rattle.sim_base.specs.Scheduling.{source_of, column_command, needed_at};

    /// The entry that it belongs to.
    #[inline]
    pub fn source(self) -> Source
        ensures { result ≡ source_of self }
    {
        Source {
            core: self.core,
            entry: self.entry,
        }
    }

    /// The command that moves its data: RD or WR.
    #[inline]
    pub fn column_command(self) -> Command
        ensures { result ≡ column_command self }
    {
        let bank = self.place.bank_id();
        let source = self.source();
        let row = self.place.row;
        let column = self.place.column;
        match self.access {
            Access::Read => Command::Rd {
                bank,
                row,
                column,
                source,
            },
            Access::Write => Command::Wr {
                bank,
                row,
                column,
                source,
            },
        }
    }

    /// The command that it needs next where this row of its bank is open, or none is: ACT opens its row, PRE closes
    /// another one.
    #[inline]
    pub fn needed_at(self, open_row: Option<u32>) -> Command
        ensures { result ≡ needed_at open_row self }
    {
        match open_row {
            None => Command::Act {
                bank: self.place.bank_id(),
                row: self.place.row,
                source: self.source(),
            },
            Some(row) => {
                if row == self.place.row {
                    self.column_command()
                } else {
                    Command::Pre {
                        bank: self.place.bank_id(),
                        source: self.source(),
                    }
                }
            }
        }
    }
}

/// What a message carries.
#[derive(Clone, Copy, PartialEq, Eq, Debug)]
pub enum Payload {
    Request(Request),
    Reply(u64),
    Credit { access: Access, entry: u64 },
}

impl Payload {
    ghost use Rattle.std.specs.Prelude.{◌≡◌};
    ghost use Rattle.sim_base.specs.Scheduling.{entry_in};

    /// The entry that the message is about.
    pub fn entry(self) -> u64
        ensures { result ≡ entry_in self }
    {
        match self {
            Payload::Request(request) => request.entry,
            Payload::Reply(entry) | Payload::Credit { entry, .. } => entry,
        }
    }
}

/// A message in flight.
#[derive(Clone, Copy, PartialEq, Eq, Debug)]
pub struct Message {
    pub link: LinkId,
    pub arrival: Cycle,
    pub payload: Payload,
}

impl Message {
    ghost use Rattle.std.specs.Prelude.{◌≡◌};
    ghost use Rattle.sim_base.specs.History.{is_before};

    /// Whether it goes before another one: it arrives sooner, or in the same cycle by a lower link.
    #[inline(always)]
    pub fn is_before(&self, other: &Message) -> bool
        ensures { result ≡ is_before self.now other.now }
    {
        self.arrival < other.arrival || (self.arrival == other.arrival && self.link < other.link)
    }
}
