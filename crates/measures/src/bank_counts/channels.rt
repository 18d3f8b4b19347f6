//! The banks of a channel.

ghost use Rattle.std.specs.Prelude.{◌≡◌, IfOk};
ghost use Rattle.measures.specs.Banks.{counts_in, counts_of, channel_counts};

use crate::bank_counts::counts::BankCounts;
use crate::bank_counts::hits::hits;
use crate::bank_counts::rows::{count_of_kind, of_bank, of_channel, of_rank, used_banks};
use command_table::list::CommandList;
use sim_base::command::{IssuedCommand, Kind};
use sim_base::place::BankId;
use std::alloc::{AllocError, Global};

// What a bank did, over the commands of its channel.
#[tactic(auto, unfolding(crate::specs::Banks::counts_in))]
fn counts_in(
    alloc: Global,
    commands: &[IssuedCommand],
    bank: BankId,
) -> Result<BankCounts, AllocError>
    ensures { IfOk result (λ counts. counts ≡ counts_in commands.now bank) }
{
    let own = of_bank(alloc, bank, commands)?;
    let hits = hits(alloc, &own)?;
    let rank = of_rank(alloc, bank.rank, commands)?;
    let conflicts = count_of_kind(Kind::Pre, &own);
    Ok(BankCounts {
        bank,
        acts: count_of_kind(Kind::Act, &own),
        reads: count_of_kind(Kind::Rd, &own),
        writes: count_of_kind(Kind::Wr, &own),
        precharges: conflicts + count_of_kind(Kind::Prea, &rank),
        conflicts,
        hits,
    })
}

// What each bank of a channel did that a command names.
#[tactic(auto, unfolding(crate::specs::Banks::counts_of), using(std::proofs::lemmas::List::map_more))]
fn counts_of(alloc: Global, commands: &[IssuedCommand]) -> Result<Vec<BankCounts>, AllocError>
    ensures { IfOk result (λ counts. counts.items ≡ counts_of commands.now) }
{
    let banks = used_banks(alloc, commands)?;
    let mut counts = Vec::new(alloc);
    for bank in &banks {
        counts.push(counts_in(alloc, commands, *bank)?)?;
    }
    Ok(counts)
}

/// What each bank of a channel did that a command of the channel names, by rank, group and bank: ranks below 4, groups
/// and banks below 4 each. Row hits are those of the bank alone: RDs and WRs for whose request it had no ACT. The only
/// error is out of memory.
#[tactic(auto, unfolding(crate::specs::Banks::channel_counts))]
pub fn channel_counts(
    alloc: Global,
    channel: usize,
    commands: &CommandList,
) -> Result<Vec<BankCounts>, AllocError>
    ensures { IfOk result (λ counts. counts.items ≡ channel_counts channel commands.now) }
{
    let rows = of_channel(alloc, channel, commands)?;
    counts_of(alloc, &rows)
}
