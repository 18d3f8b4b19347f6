//! What the records of a table mean.

ghost use Rattle.std.specs.Prelude.{◌≡◌, ◌+◌, ◌<◌, ◌==◌, IfSome, if◌then◌else◌};
ghost use Rattle.std.specs.Str.{bytes_eq};
ghost use Rattle.csv.specs.Records.{fields_of};
ghost use Rattle.rule_check.specs.Fields.{limits_of, column_count, text_at, operand, is_header, rank_is_named, operands_are_named, is_empty, rank_in, bank_in, source_in, act_in, access_in, pre_in, has_no_operands, whole_rank_in, command_in, row_in};
ghost use Rattle.rule_check.specs.Fields.{BankFits, CommandFits, RowFits};
ghost use Rattle.rule_check.specs.Numbers.{number_below};

use crate::limits::Limits;
use crate::numbers::{NUMBER_LIMIT, number_below, small_number};
use csv::ByteRecord;
use sim_base::command::{Command, IssuedCommand, Source};
use sim_base::config::Config;
use sim_base::message::Access;
use sim_base::place::BankId;

impl Limits {
    /// The limits of a configuration: the numbers of a row lie below them.
    pub fn of(config: &Config) -> Limits
        ensures { result ≡ limits_of config.now }
    {
        Limits {
            channels: config.channels,
            ranks: config.ranks,
            groups: config.groups,
            rows: config.rows,
            columns: config.columns,
            cores: config.cores,
        }
    }
}

/// The text of a field, counted from 0; the empty text where there is no such field.
#[tactic(auto, unfolding(crate::specs::Fields::text_at))]
pub fn text_at(fields: &ByteRecord, k: usize) -> &[u8]
    ensures { result.now ≡ text_at (fields_of fields.now) k }
{
    match fields.get(k) {
        Some(text) => text,
        None => b"",
    }
}

// The fields of a command after its rank, in their order.
const GROUP: usize = 0;

const BANK: usize = 1;

const ROW: usize = 2;

const COLUMN: usize = 3;

const CORE: usize = 4;

const ENTRY: usize = 5;

// The text of a field after cycle, channel, command and, where there is one, rank.
#[tactic(auto, unfolding(crate::specs::Fields::operand))]
fn operand(ranks: u32, fields: &ByteRecord, k: usize) -> &[u8]
    requires { k < 6 }
    ensures { result.now ≡ operand ranks (fields_of fields.now) k }
{
    if ranks > 1 {
        text_at(fields, k + 4)
    } else {
        text_at(fields, k + 3)
    }
}

fn is_word(text: &[u8], word: &[u8]) -> bool
    ensures { result ≡ bytes_eq text.now word.now }
{
    text == word
}

// Whether a field after that of the rank has this text.
fn is_named(ranks: u32, fields: &ByteRecord, k: usize, word: &[u8]) -> bool
    requires { k < 6 }
    ensures { result ≡ bytes_eq (operand ranks (fields_of fields.now) k) word.now }
{
    is_word(operand(ranks, fields, k), word)
}

// Whether a field after that of the rank is empty.
fn is_blank(ranks: u32, fields: &ByteRecord, k: usize) -> bool
    requires { k < 6 }
    ensures { result ≡ is_empty (operand ranks (fields_of fields.now) k) }
{
    operand(ranks, fields, k).is_empty()
}

// The number in a field after that of the rank, if it has one below a limit.
fn number_in(ranks: u32, fields: &ByteRecord, k: usize, limit: u32) -> Option<u32>
    requires { k < 6 }
    ensures value { result ≡ number_below limit (operand ranks (fields_of fields.now) k) }
    ensures below { IfSome result (λ n. n < limit) }
{
    small_number(limit, operand(ranks, fields, k))
}

fn column_count(ranks: u32) -> usize
    ensures { result ≡ column_count ranks }
{
    if ranks > 1 { 10 } else { 9 }
}

fn is_rank_named(ranks: u32, fields: &ByteRecord) -> bool
    ensures { result ≡ rank_is_named ranks (fields_of fields.now) }
{
    if ranks > 1 {
        is_word(text_at(fields, 3), b"rank")
    } else {
        true
    }
}

// Whether the columns after that of the rank have their names.
fn are_operands_named(ranks: u32, fields: &ByteRecord) -> bool
    ensures { result ≡ operands_are_named ranks (fields_of fields.now) }
{
    is_named(ranks, fields, GROUP, b"group")
        && is_named(ranks, fields, BANK, b"bank")
        && is_named(ranks, fields, ROW, b"row")
        && is_named(ranks, fields, COLUMN, b"column")
        && is_named(ranks, fields, CORE, b"core")
        && is_named(ranks, fields, ENTRY, b"entry")
}

/// Whether a record has the names of the columns of a table of so many ranks, and nothing else.
#[tactic(auto, unfolding(crate::specs::Fields::is_header))]
pub fn is_header(ranks: u32, fields: &ByteRecord) -> bool
    ensures { result ≡ is_header ranks (fields_of fields.now) }
{
    fields.len() == column_count(ranks)
        && is_word(text_at(fields, 0), b"cycle")
        && is_word(text_at(fields, 1), b"channel")
        && is_word(text_at(fields, 2), b"command")
        && is_rank_named(ranks, fields)
        && are_operands_named(ranks, fields)
}

#[tactic(auto, unfolding(crate::specs::Fields::rank_in))]
fn rank_in(limits: Limits, fields: &ByteRecord) -> Option<u32>
    ensures value { result ≡ rank_in limits (fields_of fields.now) }
    ensures fits { IfSome result (λ rank. rank < limits.ranks) }
{
    if limits.ranks > 1 {
        small_number(limits.ranks, text_at(fields, 3))
    } else {
        Some(0)
    }
}

#[tactic(auto, unfolding(crate::specs::Fields::bank_in))]
fn bank_in(limits: Limits, fields: &ByteRecord) -> Option<BankId>
    ensures value { result ≡ bank_in limits (fields_of fields.now) }
    ensures fits { IfSome result (BankFits limits) }
{
    let rank = rank_in(limits, fields);
    let group = number_in(limits.ranks, fields, GROUP, limits.groups);
    let bank = number_in(limits.ranks, fields, BANK, 4);
    match (rank, group, bank) {
        (Some(rank), Some(group), Some(bank)) => Some(BankId { rank, group, bank }),
        _ => None,
    }
}

#[tactic(auto, unfolding(crate::specs::Fields::source_in))]
fn source_in(limits: Limits, fields: &ByteRecord) -> Option<Source>
    ensures { result ≡ source_in limits (fields_of fields.now) }
{
    let core = number_in(limits.ranks, fields, CORE, u32::from(limits.cores));
    let entry = number_below(NUMBER_LIMIT, operand(limits.ranks, fields, ENTRY));
    match (core, entry) {
        (Some(core), Some(entry)) => Some(Source {
            core: core as u16,
            entry,
        }),
        _ => None,
    }
}

#[tactic(auto, unfolding(crate::specs::Fields::act_in))]
fn act_in(limits: Limits, fields: &ByteRecord) -> Option<Command>
    ensures value { result ≡ act_in limits (fields_of fields.now) }
    ensures fits { IfSome result (CommandFits limits) }
{
    let bank = bank_in(limits, fields);
    let row = number_in(limits.ranks, fields, ROW, limits.rows);
    let source = source_in(limits, fields);
    match (bank, row, source) {
        (Some(bank), Some(row), Some(source)) if is_blank(limits.ranks, fields, COLUMN) => {
            Some(Command::Act { bank, row, source })
        }
        _ => None,
    }
}

// The WR or the RD that a record writes.
#[tactic(auto, unfolding(crate::specs::Fields::rd_in, crate::specs::Fields::wr_in))]
fn access_in(limits: Limits, fields: &ByteRecord, access: Access) -> Option<Command>
    ensures value { result ≡ access_in limits (fields_of fields.now) access }
    ensures fits { IfSome result (CommandFits limits) }
{
    let bank = bank_in(limits, fields);
    let row = number_in(limits.ranks, fields, ROW, limits.rows);
    let column = number_in(limits.ranks, fields, COLUMN, limits.columns);
    let source = source_in(limits, fields);
    let (Some(bank), Some(row), Some(column), Some(source)) = (bank, row, column, source) else {
        return None;
    };
    match access {
        Access::Read => Some(Command::Rd {
            bank,
            row,
            column,
            source,
        }),
        Access::Write => Some(Command::Wr {
            bank,
            row,
            column,
            source,
        }),
    }
}

#[tactic(auto, unfolding(crate::specs::Fields::pre_in))]
fn pre_in(limits: Limits, fields: &ByteRecord) -> Option<Command>
    ensures value { result ≡ pre_in limits (fields_of fields.now) }
    ensures fits { IfSome result (CommandFits limits) }
{
    if !is_blank(limits.ranks, fields, ROW) || !is_blank(limits.ranks, fields, COLUMN) {
        return None;
    }
    match (bank_in(limits, fields), source_in(limits, fields)) {
        (Some(bank), Some(source)) => Some(Command::Pre { bank, source }),
        _ => None,
    }
}

#[tactic(auto, unfolding(crate::specs::Fields::has_no_operands))]
fn has_no_operands(ranks: u32, fields: &ByteRecord) -> bool
    ensures { result ≡ has_no_operands ranks (fields_of fields.now) }
{
    is_blank(ranks, fields, GROUP)
        && is_blank(ranks, fields, BANK)
        && is_blank(ranks, fields, ROW)
        && is_blank(ranks, fields, COLUMN)
        && is_blank(ranks, fields, CORE)
        && is_blank(ranks, fields, ENTRY)
}

// The REF or the PREA that a record writes.
#[tactic(auto, unfolding(crate::specs::Fields::prea_in, crate::specs::Fields::ref_in))]
fn whole_rank_in(limits: Limits, fields: &ByteRecord, refreshes: bool) -> Option<Command>
    ensures value { result ≡ whole_rank_in limits (fields_of fields.now) refreshes }
    ensures fits { IfSome result (CommandFits limits) }
{
    match rank_in(limits, fields) {
        Some(rank) if has_no_operands(limits.ranks, fields) => Some(if refreshes {
            Command::Ref { rank }
        } else {
            Command::Prea { rank }
        }),
        _ => None,
    }
}

// The command that a record writes, by its word.
#[tactic(auto, unfolding(crate::specs::Fields::command_in))]
fn command_in(limits: Limits, fields: &ByteRecord) -> Option<Command>
    ensures value { result ≡ command_in limits (fields_of fields.now) }
    ensures fits { IfSome result (CommandFits limits) }
{
    let word = text_at(fields, 2);
    if is_word(word, b"ACT") {
        act_in(limits, fields)
    } else if is_word(word, b"RD") {
        access_in(limits, fields, Access::Read)
    } else if is_word(word, b"WR") {
        access_in(limits, fields, Access::Write)
    } else if is_word(word, b"PRE") {
        pre_in(limits, fields)
    } else if is_word(word, b"PREA") {
        whole_rank_in(limits, fields, false)
    } else if is_word(word, b"REF") {
        whole_rank_in(limits, fields, true)
    } else {
        None
    }
}

/// The row that a record writes, if it is well-formed and its numbers are below the limits.
#[tactic(auto, unfolding(crate::specs::Fields::row_from, crate::specs::Fields::row_in))]
pub fn row_in(limits: Limits, fields: &ByteRecord) -> Option<IssuedCommand>
    ensures value { result ≡ row_in limits (fields_of fields.now) }
    ensures fits { IfSome result (RowFits limits) }
{
    if fields.len() != column_count(limits.ranks) {
        return None;
    }
    let cycle = number_below(NUMBER_LIMIT, text_at(fields, 0));
    let channel = small_number(u32::from(limits.channels), text_at(fields, 1));
    let command = command_in(limits, fields);
    match (cycle, channel, command) {
        (Some(cycle), Some(channel), Some(command)) => Some(IssuedCommand {
            cycle,
            channel,
            command,
        }),
        _ => None,
    }
}
