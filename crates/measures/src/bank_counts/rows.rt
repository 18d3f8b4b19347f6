//! The commands of a channel, a rank or a bank, and those of a kind among them.

ghost use Rattle.std.specs.Prelude.{◌≡◌, ◌<◌, ◌^◌, IfOk};
ghost use Rattle.sim_base.specs.Counts.{issued_of_kind};
ghost use Rattle.sim_base.specs.Rules.{is_kind, kind_of};
ghost use Rattle.measures.specs.Banks.{is_of_channel, of_channel, names_bank, of_bank, is_of_rank, of_rank, is_used, used_banks};

use command_table::list::CommandList;
use sim_base::command::{IssuedCommand, Kind};
use sim_base::place::BankId;
use std::alloc::{AllocError, Global};

/// The banks that a channel may have: of 4 ranks of 4 groups.
const MOST_BANKS: u32 = 64;

// Whether a command is of a channel.
fn is_of_channel(channel: usize, issued: IssuedCommand) -> bool
    ensures { result ≡ is_of_channel channel issued }
{
    issued.channel as usize == channel
}

/// The commands of a channel.
pub(crate) fn of_channel(
    alloc: Global,
    channel: usize,
    commands: &CommandList,
) -> Result<Vec<IssuedCommand>, AllocError>
    ensures { IfOk result (λ rows. rows.items ≡ of_channel channel commands.now) }
{
    let mut rows = Vec::new(alloc);
    for place in 0..commands.len() {
        if let Some(row) = commands.get(place)
            && is_of_channel(channel, row)
        {
            rows.push(row)?;
        }
    }
    Ok(rows)
}

// Whether a command names a bank.
fn names_bank(bank: BankId, issued: IssuedCommand) -> bool
    ensures { result ≡ names_bank bank issued }
{
    match issued.command.bank() {
        Some(other) => bank.is_bank(other),
        None => false,
    }
}

fn is_of_rank(rank: u32, issued: IssuedCommand) -> bool
    ensures { result ≡ is_of_rank rank issued }
{
    issued.command.rank() == rank
}

/// The commands that name a bank.
#[tactic(auto, unfolding(crate::specs::Banks::of_bank))]
pub(crate) fn of_bank(
    alloc: Global,
    bank: BankId,
    commands: &[IssuedCommand],
) -> Result<Vec<IssuedCommand>, AllocError>
    ensures { IfOk result (λ rows. rows.items ≡ of_bank bank commands.now) }
{
    commands
        .iter()
        .filter(move |row| names_bank(bank, **row))
        .copied()
        .collect(alloc)
}

/// The commands that name a rank or a bank of it.
#[tactic(auto, unfolding(crate::specs::Banks::of_rank))]
pub(crate) fn of_rank(
    alloc: Global,
    rank: u32,
    commands: &[IssuedCommand],
) -> Result<Vec<IssuedCommand>, AllocError>
    ensures { IfOk result (λ rows. rows.items ≡ of_rank rank commands.now) }
{
    commands
        .iter()
        .filter(move |row| is_of_rank(rank, **row))
        .copied()
        .collect(alloc)
}

fn is_of_kind(kind: Kind, issued: IssuedCommand) -> bool
    ensures { result ≡ is_kind (kind_of issued.command) kind }
{
    issued.command.kind().is_kind(kind)
}

/// How many commands are of a kind.
#[tactic(auto, unfolding(sim_base::specs::Counts::issued_of_kind))]
pub(crate) fn count_of_kind(kind: Kind, commands: &[IssuedCommand]) -> u64
    ensures value { result ≡ issued_of_kind kind commands.now }
    ensures few { result < 2 ^ 63 }
{
    commands
        .iter()
        .filter(move |row| is_of_kind(kind, **row))
        .count() as u64
}

#[tactic(auto, unfolding(crate::specs::Banks::is_used))]
fn is_used(commands: &[IssuedCommand], bank: BankId) -> bool
    ensures { result ≡ is_used commands.now bank }
{
    commands.iter().any(move |row| names_bank(bank, *row))
}

/// The banks that commands of a channel name.
#[tactic(auto, unfolding(crate::specs::Banks::every_bank, crate::specs::Banks::used_banks))]
pub(crate) fn used_banks(
    alloc: Global,
    commands: &[IssuedCommand],
) -> Result<Vec<BankId>, AllocError>
    ensures { IfOk result (λ banks. banks.items ≡ used_banks commands.now) }
{
    (0..MOST_BANKS)
        .map(BankId::with_number)
        .filter(move |bank| is_used(commands, *bank))
        .collect(alloc)
}
