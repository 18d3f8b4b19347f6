//! What C hands in and gets back, row by row.

ghost use Rattle.std.specs.Prelude.{◌≡◌};
ghost use Rattle.dramsim_c.specs.CInterface.Rows.{sent_access, sent_request, kind_number, row_in, column_in, bank_or_0, source_or_0, command_row, reply_kind, message_row, place_row, place_in, count_or_0, stats_row};

use sessions::channel_session::requests::SentRequest;
use sim_base::command::{Command, IssuedCommand, Kind, Source};
use sim_base::message::{Access, Message, Payload};
use sim_base::place::{BankId, Place};
use statistics::channels::ChannelStats;

/// A request as C states it: a Read or Write of the line of 64 bytes at an address, for an entry of a core, and the
/// cycle in which it arrives at the channel.
#[repr(C)]
#[derive(Clone, Copy)]
pub struct RequestRow {
    /// The address of a byte of the line.
    pub address: u64,
    /// The cycle in which the channel may first serve it: none that is over.
    pub arrival: u64,
    /// The entry's number in the trace of the core, below 2^64 - 1.
    pub entry: u64,
    /// The number of the core, below `cores` of the configuration.
    pub core: u16,
    /// It is a Write, and not a Read.
    pub is_write: bool,
}

/// What a row asks for.
fn sent_access(is_write: bool) -> Access
    ensures { result ≡ sent_access is_write }
{
    if is_write {
        Access::Write
    } else {
        Access::Read
    }
}

impl RequestRow {
    /// The request of a row.
    pub fn to_request(self) -> SentRequest
        ensures { result ≡ sent_request self }
    {
        SentRequest {
            core: self.core,
            entry: self.entry,
            access: sent_access(self.is_write),
            address: self.address,
            arrival: self.arrival,
        }
    }
}

/// A command as C gets it. A number that its kind has not is 0.
#[repr(C)]
#[derive(Clone, Copy)]
pub struct CommandRow {
    /// The cycle in which it was issued.
    pub cycle: u64,
    /// The entry that an ACT, RD, WR or PRE was issued for, of the trace of `core`.
    pub entry: u64,
    /// The row of an ACT, RD or WR.
    pub row: u32,
    /// The column of an RD or WR.
    pub column: u32,
    /// The rank of each command.
    pub rank: u32,
    /// The bank group, and the bank in it, of an ACT, RD, WR or PRE.
    pub group: u32,
    pub bank: u32,
    /// The core whose entry it is.
    pub core: u16,
    /// 0 to 5: ACT, RD, WR, PRE, PREA, REF.
    pub kind: u8,
}

/// The number of a kind of commands.
fn kind_number(kind: Kind) -> u8
    ensures { result ≡ kind_number kind }
{
    match kind {
        Kind::Act => 0,
        Kind::Rd => 1,
        Kind::Wr => 2,
        Kind::Pre => 3,
        Kind::Prea => 4,
        Kind::Ref => 5,
    }
}

/// The row that a command names; 0 where it names none.
fn row_in(command: Command) -> u32
    ensures { result ≡ row_in command }
{
    match command {
        Command::Act { row, .. } | Command::Rd { row, .. } | Command::Wr { row, .. } => row,
        Command::Pre { .. } | Command::Prea { .. } | Command::Ref { .. } => 0,
    }
}

/// The column that a command names; 0 where it names none.
fn column_in(command: Command) -> u32
    ensures { result ≡ column_in command }
{
    match command {
        Command::Rd { column, .. } | Command::Wr { column, .. } => column,
        Command::Act { .. } | Command::Pre { .. } | Command::Prea { .. } | Command::Ref { .. } => 0,
    }
}

/// The bank that a command of a rank names; its numbers are 0 where it names none.
fn bank_or_0(rank: u32, bank: Option<BankId>) -> BankId
    ensures { result ≡ bank_or_0 rank bank }
{
    match bank {
        Some(bank) => bank,
        None => BankId {
            rank,
            group: 0,
            bank: 0,
        },
    }
}

/// The entry that a command is issued for; its numbers are 0 where there is none.
fn source_or_0(source: Option<Source>) -> Source
    ensures { result ≡ source_or_0 source }
{
    match source {
        Some(source) => source,
        None => Source { core: 0, entry: 0 },
    }
}

impl CommandRow {
    /// The row of a command.
    pub fn of(issued: &IssuedCommand) -> CommandRow
        ensures { result ≡ command_row issued.now }
    {
        let command = issued.command;
        let bank = bank_or_0(command.rank(), command.bank());
        let source = source_or_0(command.source());
        CommandRow {
            cycle: issued.cycle,
            entry: source.entry,
            row: row_in(command),
            column: column_in(command),
            rank: command.rank(),
            group: bank.group,
            bank: bank.bank,
            core: source.core,
            kind: kind_number(command.kind()),
        }
    }
}

/// A reply with the data of a Read, or a credit that comes back, as C gets it.
#[repr(C)]
#[derive(Clone, Copy)]
pub struct ReplyRow {
    /// The cycle in which it arrives at the core.
    pub arrival: u64,
    /// The number of the entry that it is about, in the trace of the core.
    pub entry: u64,
    /// The number of the core that it goes to.
    pub core: u64,
    /// 0 for the data of a Read, 1 for the credit of a Read, 2 for that of a Write.
    pub kind: u8,
}

/// The number of what a message carries to a core.
fn reply_kind(payload: Payload) -> u8
    ensures { result ≡ reply_kind payload }
{
    match payload {
        Payload::Request(_) | Payload::Reply(_) => 0,
        Payload::Credit {
            access: Access::Read,
            ..
        } => 1,
        Payload::Credit {
            access: Access::Write,
            ..
        } => 2,
    }
}

impl ReplyRow {
    /// The row of a message to a core.
    pub fn of(core: u64, reply: &Message) -> ReplyRow
        ensures { result ≡ message_row core reply.now }
    {
        ReplyRow {
            arrival: reply.arrival,
            entry: reply.payload.entry(),
            core,
            kind: reply_kind(reply.payload),
        }
    }
}

/// Where a line lies, as C gets it, or states it to ask for its address. All numbers count from 0. The bounds are those
/// of the configuration: a memory has no place with a number that is not below its bound.
#[repr(C)]
#[derive(Clone, Copy)]
pub struct PlaceRow {
    /// The channel, below `channels`.
    pub channel: u32,
    /// The rank of the channel, below `ranks`.
    pub rank: u32,
    /// The bank group of the rank, below `groups`.
    pub group: u32,
    /// The bank of the bank group, below 4.
    pub bank: u32,
    /// The row of the bank, below `rows`.
    pub row: u32,
    /// The line of 64 bytes in the row, below `columns`.
    pub column: u32,
}

impl PlaceRow {
    /// The place of a row.
    pub fn to_place(self) -> Place
        ensures { result ≡ place_in self }
    {
        Place {
            channel: self.channel,
            rank: self.rank,
            group: self.group,
            bank: self.bank,
            row: self.row,
            column: self.column,
        }
    }

    /// The row of a place.
    pub fn of(place: Place) -> PlaceRow
        ensures { result ≡ place_row place }
    {
        PlaceRow {
            channel: place.channel,
            rank: place.rank,
            group: place.group,
            bank: place.bank,
            row: place.row,
            column: place.column,
        }
    }
}

/// The statistics of a channel, as C gets them, in cycles where nothing else is said.
#[repr(C)]
#[derive(Clone, Copy)]
pub struct StatsRow {
    /// ACTs, RDs, WRs, PREs, PREAs and REFs.
    pub act: u64,
    pub rd: u64,
    pub wr: u64,
    pub pre: u64,
    pub prea: u64,
    pub refs: u64,
    /// RDs and WRs for requests that no ACT was issued for.
    pub hits: u64,
    /// Requests in the queue, summed over the cycles: the low and the high 64 bits.
    pub queued_low: u64,
    pub queued_high: u64,
    /// The greatest length of the queue.
    pub queued_max: u64,
    /// Cycles in which the queue was empty.
    pub idle: u64,
    /// Cycles in which a refresh of some rank was due.
    pub refreshing: u64,
    /// Cycles of drains; 0 where the channel never drains.
    pub draining: u64,
}

/// A count, or 0 where there is none.
fn count_or_0(count: Option<u64>) -> u64
    ensures { result ≡ count_or_0 count }
{
    match count {
        Some(count) => count,
        None => 0,
    }
}

impl StatsRow {
    /// The row of a channel's statistics.
    pub fn of(stats: &ChannelStats) -> StatsRow
        ensures { result ≡ stats_row stats.now }
    {
        StatsRow {
            act: stats.act,
            rd: stats.rd,
            wr: stats.wr,
            pre: stats.pre,
            prea: stats.prea,
            refs: stats.refs,
            hits: stats.hits,
            queued_low: (stats.queued % (1 << 64)) as u64,
            queued_high: (stats.queued >> 64) as u64,
            queued_max: stats.queued_max,
            idle: stats.idle,
            refreshing: stats.refreshing,
            draining: count_or_0(stats.draining),
        }
    }
}

/// What is at fault in a table of commands, as C gets it: the first row at fault, counted from 1, and 0 for the header;
/// and the lowest rule that it breaks, from 1 to 21, and 0 where the row is none. Both are 0 where nothing is.
#[repr(C)]
#[derive(Clone, Copy)]
pub struct VerdictRow {
    pub row: u64,
    pub rule: u8,
}
