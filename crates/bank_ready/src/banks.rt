//! The banks of a channel, as far as they decide when a command may be issued.

ghost use Rattle.std.specs.Prelude.{◌≡◌, ◌+◌, ◌*◌, ◌^◌, ◌<◌, ◌≤◌, length};

use crate::words::{
    ColumnCommand, RankState, act_rd_and_wr_words, bound_until, new_words, note_act_in_rank,
    own_number, raise_acts, raise_column_words, raise_own, raise_rank, raise_rank_groups,
    raise_rank_words, unused_ranks,
};
use sim_base::command::{Command, Kind, Relation};
use sim_base::config::Config;
use sim_base::message::Cycle;
use sim_base::place::BankId;
use std::alloc::{AllocError, Global};
use timing::gap_table::GapTable;

/// The banks of a channel. It stands for the list of commands that were noted, each with its cycle.
#[derive(Drop)]
pub struct Banks {
    gaps: Box<GapTable>,
    /// The least cycle from which on each command of a bank is no longer held back, by the bank's number: for an ACT, a
    /// RD and a WR it is the later of the bank's own word and its group's, by the group's number among those of all
    /// ranks.
    act: Vec<Cycle>,
    act_groups: Vec<Cycle>,
    rd: Vec<Cycle>,
    rd_groups: Vec<Cycle>,
    wr: Vec<Cycle>,
    wr_groups: Vec<Cycle>,
    pre: Vec<Cycle>,
    /// A cycle before which no RD is allowed in any bank, and one before which no WR is.
    rd_floor: Cycle,
    wr_floor: Cycle,
    ranks: Vec<RankState>,
    ghost few: { length ranks.items ≤ 4 },
    ghost all_acts: { length act.items ≡ 16 * length ranks.items },
    ghost all_act_groups: { length act_groups.items ≡ 4 * length ranks.items },
    ghost all_rds: { length rd.items ≡ 16 * length ranks.items },
    ghost all_rd_groups: { length rd_groups.items ≡ 4 * length ranks.items },
    ghost all_wrs: { length wr.items ≡ 16 * length ranks.items },
    ghost all_wr_groups: { length wr_groups.items ≡ 4 * length ranks.items },
    ghost all_pres: { length pre.items ≡ 16 * length ranks.items },
}

impl Banks {
    ghost use Rattle.std.specs.Prelude.{ℕ, ◌≡◌, ◌+◌, ◌*◌, ◌^◌, ◌<◌, ◌≤◌, List, [], All, Some, IsTrue, IfOk};
    ghost use Rattle.sim_base.specs.declared.config.Config.{Config};
    ghost use Rattle.sim_base.specs.declared.command.Command.{Command};
    ghost use Rattle.sim_base.specs.declared.command.Kind.{Kind};
    ghost use Rattle.sim_base.specs.declared.command.IssuedCommand.{IssuedCommand};
    ghost use Rattle.sim_base.specs.declared.command.Source.{Source};
    ghost use Rattle.sim_base.specs.Rules.{kind_of, bank_of, rank_of};
    ghost use Rattle.bank_ready.specs.Words.{names_bank, names_rank, is_column_kind};
    ghost use Rattle.sim_base.specs.Places.{bank_at};
    ghost use Rattle.bank_ready.specs.Noted.{HasNoted};
    ghost use Rattle.bank_ready.specs.Stands.{rank_count, IsAllowedFrom, followed_by, StandsFor};

    /// Banks that were never used, with the distances of their configuration.
    pub fn new(alloc: Global, config: &Config, gaps: &GapTable) -> Result<Self, AllocError>
        requires { gaps.now ≡ config.now.timing }
        ensures stands { IfOk result (λ banks. StandsFor banks config.now []) }
        ensures ranks { IfOk result (λ banks. rank_count banks ≡ config.now.ranks) }
    {
        let count = config.ranks as usize;
        let gaps = Box::new(alloc, *gaps)?;
        let ranks = unused_ranks(alloc, count)?;
        let pre = new_words(alloc, 16 * count)?;
        let (act, rd, wr) = act_rd_and_wr_words(alloc, count)?;
        Ok(Banks {
            gaps,
            act: act.0,
            act_groups: act.1,
            rd: rd.0,
            rd_groups: rd.1,
            wr: wr.0,
            wr_groups: wr.1,
            pre,
            rd_floor: 0,
            wr_floor: 0,
            ranks,
        })
    }

    /// The least cycle from which on a command of this kind, which names the bank with this number, is no longer held
    /// back: by the distances to the commands before it and, for an ACT, by the four-activate window.
    #[inline(always)]
    pub fn earliest_in(&self, kind: Kind, bank: usize) -> Cycle
        requires kind { IsTrue (names_bank kind) }
        requires bank { bank < 16 * rank_count self.now }
        ensures least { (s : Config) (history : List IssuedCommand) (command : Command)
            → StandsFor self.now s history
            → kind_of command ≡ kind → bank_of command ≡ Some (bank_at bank)
            → IsAllowedFrom s history command result }
    {
        match kind {
            Kind::Act => self.act[bank].max(self.act_groups[bank / 4]),
            Kind::Rd => self.rd[bank].max(self.rd_groups[bank / 4]),
            Kind::Wr => self.wr[bank].max(self.wr_groups[bank / 4]),
            Kind::Pre => self.pre[bank],
            Kind::Prea | Kind::Ref => unreachable!(),
        }
    }

    /// A cycle before which no column command of this kind is allowed in any bank.
    #[inline(always)]
    pub fn column_floor(&self, kind: Kind) -> Cycle
        requires kind { IsTrue (is_column_kind kind) }
        ensures least { (s : Config) (history : List IssuedCommand) (command : Command) (cycle : ℕ)
            → StandsFor self.now s history → kind_of command ≡ kind
            → IsAllowedFrom s history command cycle → result ≤ cycle }
    {
        match kind {
            Kind::Rd => self.rd_floor,
            Kind::Wr => self.wr_floor,
            Kind::Act | Kind::Pre | Kind::Prea | Kind::Ref => unreachable!(),
        }
    }

    /// A cycle before which no ACT is allowed in any bank: where the four-activate window of the only rank has room for
    /// one more. Of several ranks, one has room nearly always, so that it is 0.
    #[inline(always)]
    pub fn act_floor(&self) -> Cycle
        ensures floor { (s : Config) (history : List IssuedCommand) (command : Command) (cycle : ℕ)
            → StandsFor self.now s history
            → kind_of command ≡ Kind.Act → rank_of command < rank_count self.now
            → IsAllowedFrom s history command cycle → result ≤ cycle }
    {
        match self.ranks.as_slice() {
            [rank] => rank.window.oldest,
            _ => 0,
        }
    }

    /// The least cycle from which on a PREA or a REF of a rank is no longer held back.
    #[inline(always)]
    pub fn earliest_all(&self, kind: Kind, rank: u32) -> Cycle
        requires kind { IsTrue (names_rank kind) }
        requires rank { rank < rank_count self.now }
        ensures least { (s : Config) (history : List IssuedCommand) (command : Command)
            → StandsFor self.now s history
            → kind_of command ≡ kind → rank_of command ≡ rank
            → IsAllowedFrom s history command result }
    {
        let state = &self.ranks[rank as usize];
        match kind {
            Kind::Prea => state.prea,
            Kind::Ref => state.refresh,
            Kind::Act | Kind::Rd | Kind::Wr | Kind::Pre => unreachable!(),
        }
    }

    /// Notes an ACT that is issued in a cycle later than those of all commands noted before: in its bank, in the words of
    /// ACTs of the groups of its rank and in those of the whole rank.
    #[inline(always)]
    #[tactic(auto, unfolding(sim_base::specs::Rules::is_bound))]
    pub fn note_act(&mut self, bank: BankId, cycle: Cycle)
        requires rank { bank.rank < rank_count self.old }
        requires cycle { cycle < 2 ^ 62 }
        ensures stands { (s : Config) (history : List IssuedCommand)
            → (channel row : ℕ) (source : Source)
            → StandsFor self.old s history → All (λ i. i.cycle < cycle) history
            → StandsFor self.new s
            (followed_by history channel cycle (Command.Act bank row source)) }
        ensures ranks { rank_count self.new ≡ rank_count self.old }
    {
        let gaps = &*self.gaps;
        let own = own_number(bank);
        let end = self.ranks[bank.rank as usize].window.second;
        let to_act = bound_until(gaps, cycle, Kind::Act, Kind::Act, Relation::SameBank);
        let to_rd = bound_until(gaps, cycle, Kind::Act, Kind::Rd, Relation::SameBank);
        let to_wr = bound_until(gaps, cycle, Kind::Act, Kind::Wr, Relation::SameBank);
        let to_pre = bound_until(gaps, cycle, Kind::Act, Kind::Pre, Relation::SameBank);
        raise_acts(gaps, &mut self.act_groups, bank, cycle, end);
        raise_own(&mut self.act, own, to_act);
        raise_own(&mut self.rd, own, to_rd);
        raise_own(&mut self.wr, own, to_wr);
        raise_own(&mut self.pre, own, to_pre);
        let last = cycle + u64::from(gaps.four_act_window());
        note_act_in_rank(gaps, &mut self.ranks, bank.rank, cycle, last);
    }

    /// Notes a column command, in its bank, in the words of column commands of the groups of each rank, in the floors
    /// of all banks, and in the words of the whole rank.
    #[inline(always)]
    fn note_column_command(&mut self, kind: Kind, bank: BankId, cycle: Cycle)
        requires kind { IsTrue (is_column_kind kind) }
        requires rank { bank.rank < rank_count self.old }
        requires cycle { cycle < 2 ^ 62 }
        ensures { (command : Command)
            → kind_of command ≡ kind → bank_of command ≡ Some bank
            → HasNoted self.old self.new cycle command }
    {
        let gaps = &*self.gaps;
        let own = own_number(bank);
        let to_pre = bound_until(gaps, cycle, kind, Kind::Pre, Relation::SameBank);
        let command = ColumnCommand { kind, bank, cycle };
        let to_rd = raise_column_words(gaps, &mut self.rd_groups, command, Kind::Rd);
        let to_wr = raise_column_words(gaps, &mut self.wr_groups, command, Kind::Wr);
        self.rd_floor = self.rd_floor.max(to_rd);
        self.wr_floor = self.wr_floor.max(to_wr);
        raise_own(&mut self.pre, own, to_pre);
        raise_rank_words(gaps, &mut self.ranks, bank.rank, cycle, kind);
    }

    /// Notes a RD that is issued in a cycle later than those of all commands noted before.
    #[inline(always)]
    pub fn note_rd(&mut self, bank: BankId, cycle: Cycle)
        requires rank { bank.rank < rank_count self.old }
        requires cycle { cycle < 2 ^ 62 }
        ensures stands { (s : Config) (history : List IssuedCommand)
            → (channel row column : ℕ) (source : Source)
            → StandsFor self.old s history → All (λ i. i.cycle < cycle) history
            → StandsFor self.new s
            (followed_by history channel cycle (Command.Rd bank row column source)) }
        ensures ranks { rank_count self.new ≡ rank_count self.old }
    {
        self.note_column_command(Kind::Rd, bank, cycle);
    }

    /// Notes a WR that is issued in a cycle later than those of all commands noted before.
    #[inline(always)]
    pub fn note_wr(&mut self, bank: BankId, cycle: Cycle)
        requires rank { bank.rank < rank_count self.old }
        requires cycle { cycle < 2 ^ 62 }
        ensures stands { (s : Config) (history : List IssuedCommand)
            → (channel row column : ℕ) (source : Source)
            → StandsFor self.old s history → All (λ i. i.cycle < cycle) history
            → StandsFor self.new s
            (followed_by history channel cycle (Command.Wr bank row column source)) }
        ensures ranks { rank_count self.new ≡ rank_count self.old }
    {
        self.note_column_command(Kind::Wr, bank, cycle);
    }

    /// Notes a PRE that is issued in a cycle later than those of all commands noted before: in its bank and in the words
    /// of its rank.
    #[inline(always)]
    #[tactic(auto, unfolding(sim_base::specs::Rules::is_bound))]
    pub fn note_pre(&mut self, bank: BankId, cycle: Cycle)
        requires rank { bank.rank < rank_count self.old }
        requires cycle { cycle < 2 ^ 62 }
        ensures stands { (s : Config) (history : List IssuedCommand) (channel : ℕ) (source : Source)
            → StandsFor self.old s history → All (λ i. i.cycle < cycle) history
            → StandsFor self.new s
            (followed_by history channel cycle (Command.Pre bank source)) }
        ensures ranks { rank_count self.new ≡ rank_count self.old }
    {
        let gaps = &*self.gaps;
        let own = own_number(bank);
        let to_act = bound_until(gaps, cycle, Kind::Pre, Kind::Act, Relation::SameBank);
        raise_own(&mut self.act, own, to_act);
        raise_rank_words(gaps, &mut self.ranks, bank.rank, cycle, Kind::Pre);
    }

    /// Notes a PREA, in the words of ACTs of the groups of its rank and in the words of the whole rank.
    #[inline(never)]
    #[tactic(auto, unfolding(sim_base::specs::Rules::is_bound))]
    fn note_prea(&mut self, rank: u32, cycle: Cycle)
        requires rank { rank < rank_count self.old }
        requires cycle { cycle < 2 ^ 62 }
        ensures { HasNoted self.old self.new cycle (Command.Prea rank) }
    {
        let gaps = &*self.gaps;
        let to_act = bound_until(gaps, cycle, Kind::Prea, Kind::Act, Relation::SameBank);
        raise_rank_groups(&mut self.act_groups, rank, to_act);
        raise_rank_words(gaps, &mut self.ranks, rank, cycle, Kind::Prea);
    }

    /// Notes a REF, in the words of ACTs of the groups of its rank, in the words of PREs of its banks and in the words
    /// of the whole rank.
    #[inline(never)]
    #[tactic(auto, unfolding(sim_base::specs::Rules::is_bound))]
    fn note_ref(&mut self, rank: u32, cycle: Cycle)
        requires rank { rank < rank_count self.old }
        requires cycle { cycle < 2 ^ 62 }
        ensures { HasNoted self.old self.new cycle (Command.Ref rank) }
    {
        let gaps = &*self.gaps;
        let to_act = bound_until(gaps, cycle, Kind::Ref, Kind::Act, Relation::SameBank);
        let to_pre = bound_until(gaps, cycle, Kind::Ref, Kind::Pre, Relation::SameBank);
        raise_rank_groups(&mut self.act_groups, rank, to_act);
        raise_rank(&mut self.pre, rank, to_pre);
        raise_rank_words(gaps, &mut self.ranks, rank, cycle, Kind::Ref);
    }

    /// Notes a command that is issued in a cycle later than those of all commands noted before.
    pub fn note(&mut self, command: Command, cycle: Cycle)
        requires rank { rank_of command < rank_count self.old }
        requires cycle { cycle < 2 ^ 62 }
        ensures stands { (s : Config) (history : List IssuedCommand) (channel : ℕ)
            → StandsFor self.old s history → All (λ i. i.cycle < cycle) history
            → StandsFor self.new s (followed_by history channel cycle command) }
        ensures ranks { rank_count self.new ≡ rank_count self.old }
    {
        match command {
            Command::Act { bank, .. } => self.note_act(bank, cycle),
            Command::Rd { bank, .. } => self.note_rd(bank, cycle),
            Command::Wr { bank, .. } => self.note_wr(bank, cycle),
            Command::Pre { bank, .. } => self.note_pre(bank, cycle),
            Command::Prea { rank } => self.note_prea(rank, cycle),
            Command::Ref { rank } => self.note_ref(rank, cycle),
        }
    }
}
