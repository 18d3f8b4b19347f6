//! What a channel keeps of the commands that were issued: columns with a word for each bank or for each group, and what
//! it keeps of each rank.

ghost use Rattle.std.specs.Prelude.{◌≡◌, ◌+◌, ◌*◌, ◌%◌, ◌^◌, ◌<◌, ◌≤◌, ℕ, max, IsTrue, IfSome, IfOk, length, replicate};
ghost use Rattle.sim_base.specs.Places.{is_bank, bank_at};
ghost use Rattle.sim_base.specs.declared.command.Relation.{Relation};
ghost use Rattle.sim_base.specs.Rules.{is_bound};
ghost use Rattle.bank_ready.specs.Ready.{held_until};
ghost use Rattle.bank_ready.specs.Words.{is_column_kind, is_own, rank_after_act, rank_raised, own_until, rank_until, unused_rank};
ghost use Rattle.bank_ready.specs.Words.{groups_rank_until, group_until, ranks_until, all_groups_until};
ghost use Rattle.bank_ready.specs.Raised.{AreRaised, AreAllRaised, IsRangeRaised, AreSameBefore, AreSameFrom};
ghost use Rattle.bank_ready.specs.Raised.{group_word_until, act_until, IsRankChanged};

use sim_base::command::{Kind, Relation};
use sim_base::message::Cycle;
use sim_base::place::BankId;
use std::alloc::{AllocError, Global};
use timing::gap_table::GapTable;

/// The last four ACTs of a rank, by the cycle from which on each no longer counts for the four-activate window; 0 for
/// each that there has not been.
#[derive(Clone, Copy)]
pub(crate) struct ActWindow {
    pub(crate) oldest: Cycle,
    pub(crate) second: Cycle,
    pub(crate) third: Cycle,
    pub(crate) last: Cycle,
}

/// A rank: the least cycle from which on each command of the whole rank is no longer held back, and its last four ACTs.
#[derive(Clone, Copy)]
pub(crate) struct RankState {
    pub(crate) prea: Cycle,
    pub(crate) refresh: Cycle,
    pub(crate) window: ActWindow,
}

/// A rank that has had no command.
fn unused_rank() -> RankState
    ensures { result ≡ unused_rank }
{
    RankState {
        prea: 0,
        refresh: 0,
        window: ActWindow {
            oldest: 0,
            second: 0,
            third: 0,
            last: 0,
        },
    }
}

/// Words that hold nothing back.
pub(crate) fn new_words(alloc: Global, count: usize) -> Result<Vec<Cycle>, AllocError>
    ensures { IfOk result (λ words. words.items ≡ replicate count 0) }
{
    vec![in alloc; 0; count]
}

/// The states of so many ranks, of which none has had a command.
pub(crate) fn unused_ranks(alloc: Global, count: usize) -> Result<Vec<RankState>, AllocError>
    ensures { IfOk result (λ ranks. ranks.items ≡ replicate count unused_rank) }
{
    vec![in alloc; unused_rank(); count]
}

/// A word for each bank of some ranks, and one for each group.
type BankAndGroupWords = (Vec<Cycle>, Vec<Cycle>);

/// A word for each bank of so many ranks, and one for each group, that hold nothing back.
fn bank_and_group_words(alloc: Global, ranks: usize) -> Result<BankAndGroupWords, AllocError>
    requires { ranks ≤ 4 }
    ensures { IfOk result (λ words. (words.0.items ≡ replicate (16 * ranks) 0)
        × (words.1.items ≡ replicate (4 * ranks) 0)) }
{
    let banks = new_words(alloc, 16 * ranks)?;
    let groups = new_words(alloc, 4 * ranks)?;
    Ok((banks, groups))
}

/// For ACTs, for RDs and for WRs: a word for each bank of so many ranks, and one for each group, that hold nothing
/// back.
pub(crate) fn act_rd_and_wr_words(
    alloc: Global,
    ranks: usize,
) -> Result<(BankAndGroupWords, BankAndGroupWords, BankAndGroupWords), AllocError>
    requires { ranks ≤ 4 }
    ensures act { IfOk result (λ words. (words.0.0.items ≡ replicate (16 * ranks) 0)
        × (words.0.1.items ≡ replicate (4 * ranks) 0)) }
    ensures rd { IfOk result (λ words. (words.1.0.items ≡ replicate (16 * ranks) 0)
        × (words.1.1.items ≡ replicate (4 * ranks) 0)) }
    ensures wr { IfOk result (λ words. (words.2.0.items ≡ replicate (16 * ranks) 0)
        × (words.2.1.items ≡ replicate (4 * ranks) 0)) }
{
    let act = bank_and_group_words(alloc, ranks)?;
    let rd = bank_and_group_words(alloc, ranks)?;
    let wr = bank_and_group_words(alloc, ranks)?;
    Ok((act, rd, wr))
}

/// From which cycle on a command no longer holds back a later one that a rule binds to it.
#[inline(always)]
#[tactic(auto, using(crate::proofs::Bounds::held_if_bound))]
pub(crate) fn bound_until(
    gaps: &GapTable,
    cycle: Cycle,
    earlier: Kind,
    later: Kind,
    relation: Relation,
) -> Cycle
    requires cycle { cycle < 2 ^ 62 }
    requires bound { IsTrue (is_bound gaps.now earlier later relation) }
    ensures { result ≡ held_until gaps.now cycle earlier later relation }
{
    cycle + gaps.gap(earlier, later, relation)
}

/// The number of a bank, if there is such a bank in a rank.
#[inline(always)]
#[tactic(auto, using(sim_base::proofs::Banks::number_names_bank, crate::proofs::Places::no_group, crate::proofs::Places::no_bank))]
pub(crate) fn own_number(bank: BankId) -> Option<usize>
    requires { bank.rank < 4 }
    ensures number { (k : ℕ) → is_own result k ≡ is_bank (bank_at k) bank }
    ensures inside { IfSome result (λ k. k < 16 * bank.rank + 16) }
{
    if bank.group < 4 && bank.bank < 4 {
        Some(bank.number())
    } else {
        None
    }
}

/// Raises a word to a cycle.
#[inline(always)]
fn raise_word(word: &mut Cycle, until: Cycle)
    ensures { word.new ≡ max word.old until }
{
    if *word < until {
        *word = until;
    }
}

/// Raises N words from a place on to a cycle.
#[inline(always)]
pub(crate) fn raise<const N: usize>(words: &mut [Cycle], first: usize, until: Cycle)
    requires inside { first + N ≤ length words.old }
    ensures raised { IsRangeRaised words.old words.new first N until }
    ensures below { AreSameBefore words.old words.new first }
    ensures above { AreSameFrom words.old words.new (first + N) }
{
    for place in 0..N {
        raise_word(&mut words[first + place], until);
    }
}

/// Raises the word of one bank to a cycle, if there is such a bank.
#[inline(always)]
pub(crate) fn raise_own(words: &mut [Cycle], own: Option<usize>, until: Cycle)
    requires { IfSome own (λ k. k < length words.old) }
    ensures { AreRaised words.old words.new (own_until own until) }
{
    if let Some(own) = own {
        raise_word(&mut words[own], until);
    }
}

/// Raises the words of the groups of a rank, that of one group to one cycle and the others to another.
#[inline(always)]
pub(crate) fn raise_groups(
    words: &mut [Cycle],
    rank: u32,
    group: u32,
    same_group: Cycle,
    other_group: Cycle,
)
    requires { 4 * rank + 4 ≤ length words.old }
    ensures { AreRaised words.old words.new (group_until rank group same_group other_group) }
{
    let first = 4 * rank as usize;
    for other in 0..4 {
        let until = if other == group {
            same_group
        } else {
            other_group
        };
        raise_word(&mut words[first + other as usize], until);
    }
}

/// Raises the words of all banks of a rank to a cycle.
#[inline(always)]
pub(crate) fn raise_rank(words: &mut [Cycle], rank: u32, until: Cycle)
    requires { 16 * rank + 16 ≤ length words.old }
    ensures { AreRaised words.old words.new (rank_until rank until) }
{
    raise::<16>(words, 16 * rank as usize, until);
}

/// Raises the words of all groups of a rank to a cycle.
#[inline(always)]
pub(crate) fn raise_rank_groups(words: &mut [Cycle], rank: u32, until: Cycle)
    requires { 4 * rank + 4 ≤ length words.old }
    ensures { AreRaised words.old words.new (groups_rank_until rank until) }
{
    raise::<4>(words, 4 * rank as usize, until);
}

/// Raises the words of all groups, those of one rank to one cycle and the others to another.
#[inline(always)]
pub(crate) fn raise_ranks(words: &mut [Cycle], rank: u32, same_rank: Cycle, other_rank: Cycle)
    requires { length words.old % 4 ≡ 0 }
    ensures { AreAllRaised words.old words.new (ranks_until rank same_rank other_rank) }
{
    for other in 0..words.len() / 4 {
        let until = if other == rank as usize {
            same_rank
        } else {
            other_rank
        };
        raise::<4>(words, 4 * other, until);
    }
}

/// Raises the words of all groups, that of the group of a bank to one cycle, those of the others of its rank to
/// another, and those of the other ranks to a third.
#[inline(always)]
pub(crate) fn raise_all_groups(
    words: &mut [Cycle],
    bank: BankId,
    same_group: Cycle,
    other_group: Cycle,
    other_rank: Cycle,
)
    requires inside { 4 * bank.rank + 4 ≤ length words.old }
    requires whole { length words.old % 4 ≡ 0 }
    ensures { AreAllRaised words.old words.new
        (all_groups_until bank same_group other_group other_rank) }
{
    if bank.group < 4 {
        let own = 4 * bank.rank as usize + bank.group as usize;
        let until = words[own].max(same_group);
        raise_ranks(words, bank.rank, other_group, other_rank);
        words[own] = until;
    } else {
        raise_ranks(words, bank.rank, other_group, other_rank);
    }
}

/// A column command that was issued to a bank in a cycle.
#[derive(Clone, Copy)]
pub(crate) struct ColumnCommand {
    pub(crate) kind: Kind,
    pub(crate) bank: BankId,
    pub(crate) cycle: Cycle,
}

/// Raises the words of the groups for a kind of column command after another one. Gives the least of the
/// cycles up to which that one holds them back: in its own group, in another group and in another rank.
#[inline(always)]
pub(crate) fn raise_column_words(
    gaps: &GapTable,
    words: &mut [Cycle],
    earlier: ColumnCommand,
    later: Kind,
) -> Cycle
    requires earlier { IsTrue (is_column_kind earlier.kind) }
    requires later { IsTrue (is_column_kind later) }
    requires cycle { earlier.cycle < 2 ^ 62 }
    requires inside { 4 * earlier.bank.rank + 4 ≤ length words.old }
    requires whole { length words.old % 4 ≡ 0 }
    ensures words { AreAllRaised words.old words.new
        (group_word_until gaps.now earlier.cycle earlier.kind later earlier.bank) }
    ensures least { (relation : Relation)
        → result ≤ held_until gaps.now earlier.cycle earlier.kind later relation }
{
    let ColumnCommand { kind, bank, cycle } = earlier;
    let same_group = bound_until(gaps, cycle, kind, later, Relation::SameGroup);
    let other_group = bound_until(gaps, cycle, kind, later, Relation::OtherGroup);
    let other_rank = bound_until(gaps, cycle, kind, later, Relation::OtherRank);
    raise_all_groups(words, bank, same_group, other_group, other_rank);
    same_group.min(other_group).min(other_rank)
}

/// Raises the words of the groups for ACTs after an ACT of a bank, and those of its rank to the end of a four-activate
/// window as well.
#[inline(always)]
#[tactic(auto, unfolding(sim_base::specs::Rules::is_bound), using(crate::proofs::Bounds::act_other_rank, crate::proofs::Places::act_raised))]
pub(crate) fn raise_acts(
    gaps: &GapTable,
    words: &mut [Cycle],
    bank: BankId,
    cycle: Cycle,
    end: Cycle,
)
    requires cycle { cycle < 2 ^ 62 }
    requires inside { 4 * bank.rank + 4 ≤ length words.old }
    ensures { AreRaised words.old words.new (act_until gaps.now cycle bank end) }
{
    let same_group = bound_until(gaps, cycle, Kind::Act, Kind::Act, Relation::SameGroup);
    let other_group = bound_until(gaps, cycle, Kind::Act, Kind::Act, Relation::OtherGroup);
    raise_groups(
        words,
        bank.rank,
        bank.group,
        same_group.max(end),
        other_group.max(end),
    );
}

/// From which cycle on a command in a rank no longer holds back a PREA of it; 0 where no rule binds them.
#[inline(always)]
#[tactic(auto, using(crate::proofs::Bounds::prea_bound, crate::proofs::Bounds::pre_to_prea, crate::proofs::Bounds::prea_to_prea))]
fn prea_until(gaps: &GapTable, cycle: Cycle, earlier: Kind) -> Cycle
    requires { cycle < 2 ^ 62 }
    ensures { result ≡ held_until gaps.now cycle earlier Kind.Prea Relation.SameBank }
{
    match earlier {
        Kind::Pre => 0,
        Kind::Prea => 0,
        _ => bound_until(gaps, cycle, earlier, Kind::Prea, Relation::SameBank),
    }
}

/// From which cycle on a command in a rank no longer holds back a REF of it; 0 where no rule binds them.
#[inline(always)]
#[tactic(auto, using(crate::proofs::Bounds::refresh_bound, crate::proofs::Bounds::act_to_refresh, crate::proofs::Bounds::rd_to_refresh, crate::proofs::Bounds::wr_to_refresh))]
fn refresh_until(gaps: &GapTable, cycle: Cycle, earlier: Kind) -> Cycle
    requires { cycle < 2 ^ 62 }
    ensures { result ≡ held_until gaps.now cycle earlier Kind.Ref Relation.SameBank }
{
    match earlier {
        Kind::Act => 0,
        Kind::Rd => 0,
        Kind::Wr => 0,
        _ => bound_until(gaps, cycle, earlier, Kind::Ref, Relation::SameBank),
    }
}

/// Raises the words of the commands of a whole rank, as far as a command of this kind in the rank holds them back.
#[inline(always)]
pub(crate) fn raise_rank_words(
    gaps: &GapTable,
    ranks: &mut [RankState],
    rank: u32,
    cycle: Cycle,
    earlier: Kind,
)
    requires cycle { cycle < 2 ^ 62 }
    requires inside { rank < length ranks.old }
    ensures { IsRankChanged ranks.old ranks.new rank (rank_raised gaps.now cycle earlier) }
{
    let state = &mut ranks[rank as usize];
    state.prea = state.prea.max(prea_until(gaps, cycle, earlier));
    state.refresh = state.refresh.max(refresh_until(gaps, cycle, earlier));
}

/// Notes an ACT in the words and the window of its rank; from `end` on it no longer counts for the window.
#[inline(always)]
pub(crate) fn note_act_in_rank(
    gaps: &GapTable,
    ranks: &mut [RankState],
    rank: u32,
    cycle: Cycle,
    end: Cycle,
)
    requires cycle { cycle < 2 ^ 62 }
    requires inside { rank < length ranks.old }
    ensures { IsRankChanged ranks.old ranks.new rank (rank_after_act gaps.now cycle end) }
{
    raise_rank_words(gaps, ranks, rank, cycle, Kind::Act);
    let window = &mut ranks[rank as usize].window;
    window.oldest = window.second;
    window.second = window.third;
    window.third = window.last;
    window.last = end;
}
