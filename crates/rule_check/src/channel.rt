//! How one more row changes what is kept of a channel.

ghost use Rattle.std.specs.Prelude.{◌≡◌, ◌+◌, ◌*◌, ◌/◌, ◌%◌, ◌<◌, ◌≤◌, ◌^◌, max, ◌&&◌, ◌==◌, ◌++◌, ◌∷◌, [], List, Some, IfSome, IfOk, length};
ghost use Rattle.sim_base.specs.declared.config.Config.{Config};
ghost use Rattle.sim_base.specs.declared.command.IssuedCommand.{IssuedCommand};
ghost use Rattle.sim_base.specs.Rules.{bank_of};
ghost use Rattle.rule_check.specs.Numbers.{number_limit};
ghost use Rattle.rule_check.specs.Fields.{limits_of, RowFits};
ghost use Rattle.rule_check.specs.Kept.{activates, deadline_after, first_deadline, bank_after, group_after, rank_after, HasPlace, group_number, ChangesEach, IsKept};
ghost use Rattle.sim_base.specs.Places.{number_of_bank, bank_at};

use crate::latest;
use crate::state::{Bank, Channel, Group, NEW_BANK, NEW_GROUP, NEW_RANK, Rank};
use crate::window::window_after;
use sim_base::command::{Command, IssuedCommand, Kind, Relation};
use sim_base::config::Config;
use sim_base::place::BankId;
use sim_base::timing::Timing;
use std::alloc::{AllocError, Global};
use timing::rules::relation_to;

fn note_in_bank(state: &mut Bank, bank: BankId, command: Command, cycle: u64)
    ensures { state.new ≡ bank_after bank cycle command state.old }
{
    if matches!(
        relation_to(command, bank.rank, Some(bank)),
        Relation::SameBank
    ) {
        latest::note(&mut state.latest, command.kind(), cycle);
    }
    state.row = command.row_after(bank, state.row);
}

fn note_in_group(state: &mut Group, rank: u32, group: u32, command: Command, cycle: u64)
    ensures { state.new ≡ group_after rank group cycle command state.old }
{
    let bank = BankId {
        rank,
        group,
        bank: 0,
    };
    match relation_to(command, rank, Some(bank)) {
        Relation::SameBank | Relation::SameGroup => {
            latest::note(&mut state.within, command.kind(), cycle)
        }
        Relation::OtherGroup => latest::note(&mut state.across, command.kind(), cycle),
        Relation::OtherRank => {}
    }
}

fn activates(rank: u32, command: Command) -> bool
    ensures { result ≡ activates rank command }
{
    command.kind().is_kind(Kind::Act) && command.rank() == rank
}

fn deadline_after(interval: u32, deadline: u64) -> u64
    ensures { result ≡ deadline_after interval deadline }
{
    if deadline < (1 << 62) {
        deadline + u64::from(interval)
    } else {
        deadline
    }
}

fn note_in_rank(state: &mut Rank, t: &Timing, rank: u32, command: Command, cycle: u64)
    requires { cycle < number_limit }
    ensures { state.new ≡ rank_after t.now rank cycle command state.old }
{
    if command.rank() == rank {
        latest::note(&mut state.within, command.kind(), cycle);
    } else {
        latest::note(&mut state.across, command.kind(), cycle);
    }
    if activates(rank, command) {
        state.window = window_after(cycle + u64::from(t.n_faw), state.window);
    }
    if command.is_refresh_of(rank) {
        state.deadline = deadline_after(t.n_refi, state.deadline);
    }
}

pub(crate) fn group_number(bank: BankId) -> usize
    ensures { result ≡ group_number bank }
{
    bank.rank as usize * 4 + bank.group as usize
}

fn note_in_all_banks(banks: &mut [Bank], command: Command, cycle: u64)
    requires { length banks.old ≤ 64 }
    ensures each { ChangesEach (λ k. bank_after (bank_at k) cycle command) banks.old banks.new }
{
    for (k, state) in banks.iter_mut().enumerate() {
        note_in_bank(state, BankId::with_number(k as u32), command, cycle);
    }
}

fn note_in_own_bank(banks: &mut [Bank], bank: BankId, command: Command, cycle: u64)
    requires names { bank_of command ≡ Some bank }
    requires group { bank.group < 4 }
    requires bank { bank.bank < 4 }
    requires number { number_of_bank bank < length banks.old }
    ensures each { ChangesEach (λ k. bank_after (bank_at k) cycle command) banks.old banks.new }
{
    note_in_bank(&mut banks[bank.number()], bank, command, cycle);
}

// A command that names no bank may concern each of them.
fn note_in_banks(banks: &mut [Bank], command: Command, cycle: u64)
    requires few { length banks.old ≤ 64 }
    requires names { IfSome (bank_of command) (HasPlace banks.old) }
    ensures each { ChangesEach (λ k. bank_after (bank_at k) cycle command) banks.old banks.new }
{
    match command.bank() {
        Some(bank) => note_in_own_bank(banks, bank, command, cycle),
        None => note_in_all_banks(banks, command, cycle),
    }
}

fn note_in_groups(groups: &mut [Group], command: Command, cycle: u64)
    requires { length groups.old ≤ 16 }
    ensures each { ChangesEach (λ k. group_after (k / 4) (k % 4) cycle command)
        groups.old groups.new }
{
    for (k, state) in groups.iter_mut().enumerate() {
        let rank = k as u32 / 4;
        let group = k as u32 % 4;
        note_in_group(state, rank, group, command, cycle);
    }
}

fn note_in_ranks(t: &Timing, ranks: &mut [Rank], command: Command, cycle: u64)
    requires few { length ranks.old ≤ 4 }
    requires cycle { cycle < number_limit }
    ensures each { ChangesEach (λ k. rank_after t.now k cycle command) ranks.old ranks.new }
{
    for (k, state) in ranks.iter_mut().enumerate() {
        note_in_rank(state, t, k as u32, command, cycle);
    }
}

// The longest time from an ACT, a RD or a WR until its bank may be closed.
fn least_open(t: &Timing) -> u64
    ensures value { result ≡ max t.now.n_ras (max t.now.n_rtp (t.now.n_cwl + 4 + t.now.n_wr)) }
    ensures small { result < 2 ^ 34 }
{
    let write = u64::from(t.n_cwl) + 4 + u64::from(t.n_wr);
    u64::from(t.n_ras).max(u64::from(t.n_rtp).max(write))
}

fn first_deadline(config: &Config) -> u64
    ensures { result ≡ first_deadline config.now }
{
    let t = &config.timing;
    let open = least_open(t);
    let others = u64::from(config.ranks - 1) * (u64::from(t.n_rp) + 1);
    u64::from(t.n_refi) + (open + u64::from(t.n_rp) + others)
}

/// What is kept of no rows.
pub(crate) fn start(alloc: Global, config: &Config) -> Result<Channel, AllocError>
    ensures { IfOk result (λ channel. IsKept channel config.now []) }
{
    let ranks = config.ranks as usize;
    let rank = Rank {
        deadline: first_deadline(config),
        ..NEW_RANK
    };
    Ok(Channel {
        banks: vec![in alloc; NEW_BANK; 16 * ranks]?,
        groups: vec![in alloc; NEW_GROUP; 4 * ranks]?,
        ranks: vec![in alloc; rank; ranks]?,
    })
}

/// Notes a row of the channel.
pub(crate) fn note(channel: &mut Channel, config: &Config, row: IssuedCommand)
    requires fits { RowFits (limits_of config.now) row }
    requires ranks { length channel.old.ranks.items ≡ config.now.ranks }
    ensures { (history : List IssuedCommand) → IsKept channel.old config.now history
        → IsKept channel.new config.now (history ++ row ∷ []) }
{
    note_in_banks(&mut channel.banks, row.command, row.cycle);
    note_in_groups(&mut channel.groups, row.command, row.cycle);
    note_in_ranks(&config.timing, &mut channel.ranks, row.command, row.cycle);
}
