//! The rows of a table that were found to keep every rule.

ghost use Rattle.std.specs.Prelude.{◌≡◌, ◌+◌, ◌*◌, ◌<◌, ◌++◌, ◌∷◌, [], List, All, IfOk, length};
ghost use Rattle.sim_base.specs.declared.command.IssuedCommand.{IssuedCommand};
ghost use Rattle.sim_base.specs.Rules.{rules};
ghost use Rattle.rule_check.specs.Fields.{limits_of, RowFits};
ghost use Rattle.rule_check.specs.Broken.{stands_wrongly, lowest_broken};
ghost use Rattle.sim_base.specs.History.{stands_before};
ghost use Rattle.rule_check.specs.Kept.{IsKept};
ghost use Rattle.rule_check.specs.Past.{IsPast, past_breaks, lowest_by};

use crate::rule_numbers::{LAST_RULE, ROW_ORDER};
use crate::state::{Channel, Past};
use crate::{broken, channel};
use sim_base::command::IssuedCommand;
use sim_base::config::Config;
use sim_base::rule::Rule;
use std::alloc::{AllocError, Global};

fn start_channels(alloc: Global, config: &Config) -> Result<Vec<Channel>, AllocError>
    ensures count { IfOk result (λ v. length v.items ≡ config.now.channels) }
    ensures kept { IfOk result (λ v. All (λ c. IsKept c config.now []) v.items) }
{
    let mut channels = Vec::new(alloc);
    for _channel in 0..config.channels {
        channels.push(channel::start(alloc, config)?)?;
    }
    Ok(channels)
}

/// What is kept of no rows.
pub(crate) fn start(alloc: Global, config: &Config) -> Result<Past, AllocError>
    ensures { IfOk result (λ past. IsPast past config.now []) }
{
    Ok(Past {
        last: None,
        channels: start_channels(alloc, config)?,
    })
}

/// Whether a row stands before another, by cycle and then by channel.
fn stands_before(a: IssuedCommand, b: IssuedCommand) -> bool
    ensures { result ≡ stands_before a b }
{
    a.cycle < b.cycle || (a.cycle == b.cycle && a.channel < b.channel)
}

fn stands_wrongly(last: Option<IssuedCommand>, row: IssuedCommand) -> bool
    ensures { result ≡ stands_wrongly last row }
{
    match last {
        None => false,
        Some(last) => !stands_before(last, row),
    }
}

// What is kept of the rows before one: the last of them, and those of its channel.
#[derive(Clone, Copy)]
struct Before<'a> {
    last: Option<IssuedCommand>,
    channel: &'a Channel,
}

fn breaks(
    config: &Config,
    table: &[Rule],
    before: &Before<'_>,
    row: IssuedCommand,
    number: u32,
) -> bool
    ensures { result ≡ past_breaks config.now table.now before.now.last before.now.channel.now
        row number }
{
    if number == ROW_ORDER {
        stands_wrongly(before.last, row)
    } else {
        broken::breaks(config, table, before.channel, row, number)
    }
}

fn lowest_by(config: &Config, table: &[Rule], before: &Before<'_>, row: IssuedCommand) -> Option<u8>
    ensures { result ≡ lowest_by config.now table.now before.now.last before.now.channel.now row }
{
    (1..LAST_RULE + 1).find(move |number| breaks(config, table, before, row, u32::from(*number)))
}

// Most rows break no rule, which takes only one pass to find out.
fn lowest_if_any(
    config: &Config,
    table: &[Rule],
    before: &Before<'_>,
    row: IssuedCommand,
) -> Option<u8>
    ensures { result ≡ lowest_by config.now table.now before.now.last before.now.channel.now row }
{
    if !stands_wrongly(before.last, row) && broken::keeps_each(config, table, before.channel, row) {
        None
    } else {
        lowest_by(config, table, before, row)
    }
}

/// The lowest rule that a row breaks after the rows that are kept, if it breaks one.
pub(crate) fn lowest_broken(
    past: &Past,
    config: &Config,
    table: &[Rule],
    row: IssuedCommand,
) -> Option<u8>
    requires fits { RowFits (limits_of config.now) row }
    requires table { table.now ≡ rules config.now.timing }
    requires stands { (rows : List IssuedCommand) × IsPast past.now config.now rows }
    ensures { (rows : List IssuedCommand) → IsPast past.now config.now rows
        → result ≡ lowest_broken config.now rows row }
{
    let channel = &past.channels[row.channel as usize];
    let last = past.last;
    lowest_if_any(config, table, &Before { last, channel }, row)
}

/// Keeps one more row.
pub(crate) fn note(past: &mut Past, config: &Config, row: IssuedCommand)
    requires fits { RowFits (limits_of config.now) row }
    requires stands { (rows : List IssuedCommand) × IsPast past.old config.now rows }
    ensures { (rows : List IssuedCommand) → IsPast past.old config.now rows
        → IsPast past.new config.now (rows ++ row ∷ []) }
{
    let number = row.channel as usize;
    channel::note(&mut past.channels[number], config, row);
    past.last = Some(row);
}
