//! The banks of a run, a line for each that a command names.

ghost use Rattle.std.specs.Prelude.{◌≡◌, codes, true, IfOk, string_bytes};
ghost use Rattle.measures.specs.Banks.{channel_counts};
ghost use Rattle.show.specs.Rows.{bank_headings, bank_row, machine_in};
ghost use Rattle.show.specs.Banks.{bank_label, bank_line, banks_text, all_banks_text, IsBanksScreen};
ghost use Rattle.show.specs.Tables.{IsLayout};
ghost use Rattle.measures.specs.Texts.{PutsWords};

use crate::options::Options;
use crate::screen::put_screen;
use crate::table::TableLayout;
use command_table::list::CommandList;
use measures::bank_counts::channel_counts;
use measures::bank_counts::counts::BankCounts;
use measures::number::Number;
use measures::text_builder::TextBuilder;
use sim_base::config::Config;
use sim_base::place::BankId;
use statistics::stats::Stats;
use std::alloc::{AllocError, Global};

/// The headings of a bank's numbers.
static BANK_HEADINGS: [&str; 6] = ["act", "rd", "wr", "pre", "hits %", "conflicts"];

// The table of the banks, each of which has a line, however many there are.
fn table_of_banks() -> TableLayout<'static>
    ensures { IsLayout (codes "bank") bank_headings true result }
{
    TableLayout {
        label: "bank",
        headings: &BANK_HEADINGS[..],
        all: true,
    }
}

fn bank_row(counts: &BankCounts) -> [Number; 6]
    ensures { result ≡ bank_row counts.now }
{
    let moves = u128::from(counts.reads) + u128::from(counts.writes);
    [
        Number::count(counts.acts),
        Number::count(counts.reads),
        Number::count(counts.writes),
        Number::count(counts.precharges),
        Number::percent(u128::from(counts.hits), moves),
        Number::count(counts.conflicts),
    ]
}

// What stands before the numbers of a bank.
fn bank_label(alloc: Global, id: BankId) -> Result<String, AllocError>
    ensures { IfOk result (λ text. string_bytes text ≡ bank_label id) }
{
    let BankId { rank, group, bank } = id;
    format!(in alloc; "r{rank} g{group} b{bank}")
}

// Appends the line of a bank.
fn put_bank(alloc: Global, counts: &BankCounts, out: &mut TextBuilder)
    ensures { PutsWords (bank_line counts.now) out.old out.new }
{
    let label = bank_label(alloc, counts.bank);
    table_of_banks().put_row(alloc, label, &bank_row(counts), out);
}

// Appends the banks of a channel.
fn put_banks(alloc: Global, channel: usize, banks: &[BankCounts], out: &mut TextBuilder)
    ensures { PutsWords (banks_text channel banks.now) out.old out.new }
{
    let count = banks.len();
    write!(
        out,
        "\nBanks of channel {channel} ({count}): row hits in % of rd and wr\n"
    );
    table_of_banks().put_headings(out);
    for counts in banks {
        put_bank(alloc, counts, out);
    }
}

// Appends the banks of a channel, by its commands.
fn put_channel(alloc: Global, channel: usize, commands: &CommandList, out: &mut TextBuilder)
    ensures { PutsWords (banks_text channel (channel_counts channel commands.now)) out.old out.new }
{
    match channel_counts(alloc, channel, commands) {
        Ok(banks) => put_banks(alloc, channel, &banks, out),
        Err(AllocError) => out.refuse(),
    }
}

// Appends the banks of so many channels.
fn put_channels(alloc: Global, channels: usize, commands: &CommandList, out: &mut TextBuilder)
    ensures { PutsWords (all_banks_text commands.now channels) out.old out.new }
{
    for channel in 0..channels {
        put_channel(alloc, channel, commands, out);
    }
}

/// What a run did, as `show_text` shows it, and below that for each channel a line for each bank that one of its
/// commands names, by rank, group and bank: its ACTs, RDs and WRs; how often its row was closed, by its PREs and the
/// PREAs of its rank; the percentage of its RDs and WRs that were row hits, for whose request it had no ACT; and its
/// conflicts, which are its PREs, each issued for a request that needs another row than the open one. The banks are
/// never summarized. Only memory can be refused.
pub fn show_banks(
    alloc: Global,
    stats: &Stats,
    commands: &CommandList,
    options: Options,
    config: Option<&Config>,
) -> Result<String, AllocError>
    ensures { IfOk result (λ text. IsBanksScreen stats.now commands.now options
        (machine_in config.entry) (string_bytes text)) }
{
    let mut text = TextBuilder::new(alloc);
    put_screen(alloc, stats, options, config, &mut text);
    put_channels(alloc, stats.channels.len(), commands, &mut text);
    text.finish()
}
