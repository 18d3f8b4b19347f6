//! A channel that is run alone over a span of cycles.

ghost use Rattle.std.specs.Prelude.{◌≡◌, true, false, ℕ, ◌+◌, ◌-◌, ◌*◌, ◌/◌, max, ◌<◌, ◌≤◌, ◌^◌, ◌==◌, take, take_while, List, [], length, Some, None, is_some, nat_le, IsTrue, IfOk, OnOk};
ghost use Rattle.sim_base.specs.Rules.{open_row};
ghost use Rattle.sim_base.specs.Scheduling.{choice, due, queue_room};
ghost use Rattle.sim_base.specs.declared.config.Config.{Config};
ghost use Rattle.sim_base.specs.declared.command.Command.{Command};
ghost use Rattle.sim_base.specs.declared.command.IssuedCommand.{IssuedCommand};
ghost use Rattle.sim_base.specs.declared.message.Message.{Message};
ghost use Rattle.bank_ready.specs.Refreshes.{lowest_owed};
ghost use Rattle.bank_ready.specs.Stands.{rank_count, StandsFor as BanksStandFor};
ghost use Rattle.queue.specs.Log.{waiting_requests};
ghost use Rattle.queue.specs.Stands.{bank_count, StandsFor as CandidatesStandFor};
ghost use Rattle.queue.specs.View.{QueueView, empty_queue, renumbered};
ghost use Rattle.channel_step.specs.FrFcfs.Choices.{HasPlace, command_of};
ghost use Rattle.channel_step.specs.declared.fr_fcfs.choice.Need.TheVariants as Needs;
ghost use Rattle.channel_step.specs.FrFcfs.Requests.{AreInBanks, OfSameBanks};
ghost use Rattle.channel_step.specs.FrFcfs.Cycles.{IsFirstCycle};
ghost use Rattle.statistics.specs.Channels.{ChannelFits};
ghost use Rattle.channel_step.specs.declared.next_command.NextCommand.TheVariants.{Known};
ghost use Rattle.channel_step.specs.Past.{Past, commands_after, waiting_after, stats_after, choice_after, with_step, with_mail};
ghost use Rattle.channel_step.specs.Channels.{KeepsServed, StandsFor, HasPast, ForPasts, StandForTheSame, PartsStand, StaysNext};
ghost use Rattle.channel_step.specs.Channels.{IsNextCommand, NextCommandIsFor, IsFound, NoneIsIssued, HasRank, HasBank, issues_in};
ghost use Rattle.channel_step.specs.Channels.{IsInCycle, ForCycles, IsInSomeCycle, StaysInCycle, IsNextBefore, idle_after};
ghost use Rattle.channel_step.specs.Channels.{CountsDrains, counted, after_cycle, skipped, counted_through};
ghost use Rattle.channel_step.specs.Readied.{IsChosen, ActsFor, IsDoing, HasCounted, ForCounted, IsReadied, IsReadiedInSomePast, HasReadied, ServesIn, ServesAfter};
ghost use Rattle.channel_step.specs.Readied.{request_of, opening_command, closing_command, column_command_at, command_for, rank_command};
ghost use Rattle.channel_step.specs.Fit.{IsFitAfter};
ghost use Rattle.channel_step.specs.Runs.{CanStep, CanRun, ForSpan, IssuesIfNext, HasAdvanced, IsDoneAfter, StandsAt, first_arrival_or, IsListed};

use crate::arriving::admit;
use crate::counting::draining_of;
use crate::fr_fcfs::accesses::accesses_that_go;
use crate::fr_fcfs::arrivals::{EarlierQueue, stays};
use crate::fr_fcfs::choice::{ChannelParts, Need, next};
use crate::fr_fcfs::needs::refresh_command;
use crate::next_command::NextCommand;
use crate::noting::{note_column_command, note_if_ref, note_served};
use crate::sending::{AnswerLatencies, AnsweringChannel, answer_latencies, keep, send};
use bank_ready::banks::Banks;
use bank_ready::refresh::Refresh;
use command_table::list::CommandList;
use queue::Queue;
use queue::bank_candidates::BankCandidates;
use request_table::served_requests::ServedRequest;
use sim_base::command::Command;
use sim_base::config::Config;
use sim_base::message::{ChannelId, Cycle, Message, Request};
use sim_base::place::BankId;
use statistics::channels::ChannelStats;
use std::alloc::{AllocError, Global};
use std::ops::Range;
use timing::gap_table::GapTable;

/// A channel, with all that it keeps of its past.
#[derive(Drop)]
pub struct Channel {
    config: Config,
    number: ChannelId,
    /// How long what the channel sends travels to each core.
    latencies: Vec<AnswerLatencies>,
    /// The cycle that it stands at: this many are over.
    cycle: Cycle,
    queue: Queue,
    banks: Banks,
    refresh: Refresh,
    stats: ChannelStats,
    bank_candidates: BankCandidates,
    /// What the channel issues next, if nothing arrives.
    next_command: NextCommand,
    /// The requests that the channel served, if they are kept.
    served: Option<Vec<ServedRequest>>,
}

/// How far a run of the channel has come: the last cycle that is over, and how many messages arrived up to it.
#[derive(Clone, Copy)]
struct Advance {
    arrived: usize,
    last: Cycle,
}

impl Advance {
    /// So many messages arrived, and the cycles up to this one are over.
    #[inline(always)]
    fn up_to(arrived: usize, last: Cycle) -> Advance
        ensures { result ≡ record { arrived = arrived; last = last } }
    {
        Advance { arrived, last }
    }
}

impl Channel {
    /// The channel with a number, of a machine with this configuration and its distances, before the first cycle.
    pub fn start(
        alloc: Global,
        config: &Config,
        gaps: &GapTable,
        number: ChannelId,
    ) -> Result<Channel, AllocError>
        requires { gaps.now ≡ config.now.timing }
        ensures { IfOk result (λ channel. StandsFor channel config.now number [] []) }
    {
        let latencies = answer_latencies(alloc, config, number)?;
        let (own, queue) = copy_and_queue(alloc, config)?;
        let (banks, bank_candidates) = banks_and_candidates(alloc, config, gaps)?;
        let mut stats = ChannelStats::new();
        stats.draining = draining_of(config, 0);
        Ok(Channel {
            config: own,
            number,
            latencies,
            cycle: 0,
            queue,
            banks,
            refresh: Refresh::new(config.timing.n_refi, config.ranks),
            stats,
            bank_candidates,
            next_command: NextCommand::Unknown,
            served: None,
        })
    }

    /// Keeps the requests that the channel serves, each with what is known of it then. The channel is before its first
    /// cycle.
    pub fn keep_served(&mut self, alloc: Global)
        ensures stands { (s : Config) (number : ℕ)
            → StandsFor self.old s number [] [] → StandsFor self.new s number [] [] }
        ensures kept { is_some self.new.served ≡ true }
    {
        self.served = Some(Vec::new(alloc));
    }

    /// The requests that the channel served, in the order of their commands, if they were kept.
    pub fn into_served(self) -> Option<Vec<ServedRequest>>
        ensures { ForPasts self (λ past. KeepsServed result (commands_after past) past.mail) }
    {
        self.served
    }

    /// The statistics of the cycles so far.
    pub fn stats(&self) -> ChannelStats
        ensures { ForPasts self.now (λ past. result ≡ stats_after past) }
    {
        self.stats
    }

    /// The requests that wait, by age.
    pub fn requests(&self, alloc: Global) -> Result<Vec<Request>, AllocError>
        ensures { ForPasts self.now (λ past.
            IfOk result (λ requests. requests.items ≡ waiting_after past)) }
    {
        self.queue.waiting_requests(alloc)
    }

    /// How many requests wait.
    pub fn waiting_count(&self) -> usize
        ensures { ForPasts self.now (λ past. result ≡ length (waiting_after past)) }
    {
        self.queue.len()
    }

    /// The cycle where the channel stands: how many cycles are over.
    pub fn now(&self) -> Cycle
        ensures { ForPasts self.now (λ past. result ≡ length past.steps) }
    {
        self.cycle
    }

    /// How many refreshes of a rank of the machine are due at the cycle where the channel stands.
    pub fn due(&self, rank: u32) -> u64
        requires { HasRank self.now rank }
        ensures { ForPasts self.now (λ past.
            result ≡ due past.config rank (commands_after past) (length past.steps)) }
    {
        self.refresh.due(self.cycle, rank)
    }

    /// The row that is open in a bank of the machine at the cycle where the channel stands, if one is.
    pub fn open_row(&self, bank: BankId) -> Option<u32>
        requires { HasBank self.now bank }
        ensures { ForPasts self.now (λ past. result ≡ open_row bank (commands_after past)) }
    {
        self.bank_candidates.open_row(bank)
    }

    /// The first cycle from `from` on, where the channel stands, in which it issues a command, if nothing arrives; None
    /// where there is none.
    pub fn next_act(&mut self, from: Cycle) -> Option<Cycle>
        requires { StandsAt self.old from }
        ensures same { self.new ≡ self.old }
        ensures first { ForPasts self.old (λ past. length past.steps ≡ from
            → IsFirstCycle (issues_in past from) from result) }
    {
        match self.find(from) {
            Some((cycle, _)) => Some(cycle),
            None => None,
        }
    }

    /// The first cycle with a command from `now` on, if nothing arrives, and what needs that command; None where there
    /// is none. It is looked for only if it is not known yet.
    #[inline(always)]
    fn find(&self, now: Cycle) -> Option<(Cycle, Need)>
        requires places { AreInBanks (rank_count self.now.banks) self.now.queue.log }
        requires banks { OfSameBanks self.now.bank_candidates self.now.banks }
        requires ranks { self.now.refresh.ranks ≤ rank_count self.now.banks }
        requires groups { self.now.config.groups ≤ 4 }
        ensures { (s : Config) (history : List IssuedCommand)
            → PartsStand self.now s history
            → IsNextCommand s history self.now.queue self.now.cycle self.now.next_command
            → self.now.cycle ≤ now → IsFound self.now s history now result }
    {
        match self.next_command {
            NextCommand::Known(None) => None,
            NextCommand::Known(Some((cycle, need))) if now <= cycle => Some((cycle, need)),
            _ => next(
                &ChannelParts {
                    queue: &self.queue,
                    bank_candidates: &self.bank_candidates,
                    banks: &self.banks,
                    refresh: &self.refresh,
                    groups: self.config.groups,
                },
                now,
            ),
        }
    }

    /// Whether it is known that the channel issues nothing before a cycle, if nothing arrives.
    #[inline(always)]
    fn waits_until(&self, end: Cycle) -> bool
        ensures { (s : Config) (history : List IssuedCommand) (queue : QueueView) (from : ℕ)
            → result ≡ true → IsNextCommand s history queue from self.now.next_command
            → NoneIsIssued s history queue from end }
    {
        match self.next_command {
            NextCommand::Known(found) => is_none_before(found, end),
            NextCommand::Unknown => false,
        }
    }

    /// The cycle of the next command that the channel issues, and what needs that command, if the cycle is before `end`
    /// and nothing arrives before it. Otherwise what was found is kept.
    fn look(&mut self, now: Cycle, end: Cycle) -> Option<(Cycle, Need)>
        requires { IsInSomeCycle self.old now }
        ensures same_queue { self.new.queue ≡ self.old.queue }
        ensures in_cycle { StaysInCycle self.old self.new }
        ensures next { ForCycles self.old (λ past. length past.steps ≡ now
            → IsNextBefore past self.old.queue.log end result) }
    {
        if self.waits_until(end) {
            return None;
        }
        let found = self.find(now);
        match found {
            Some((cycle, need)) if cycle < end => Some((cycle, need)),
            _ => {
                self.next_command = NextCommand::Known(found);
                None
            }
        }
    }

    /// Counts the command of a cycle that is counted already, which is a row hit or not. The cycle is then over, and what
    /// comes next is not known.
    #[inline(always)]
    fn count(&mut self, command: Command, hit: bool)
        requires cycle { self.old.cycle < 2 ^ 62 }
        requires fits { ChannelFits (counted self.old command hit) }
        ensures { self.new ≡ after_cycle self.old command hit }
    {
        self.next_command = NextCommand::Unknown;
        let stats = &mut self.stats;
        stats.add_command(command.kind(), hit);
        let cycle = &mut self.cycle;
        *cycle += 1;
    }

    /// Counts the cycles before `until`, in each of which the same is seen as in the next one, and nothing is issued.
    #[inline(always)]
    fn count_cycles(&mut self, refreshing: bool, until: Cycle)
        requires until { self.old.cycle < until }
        requires refreshing { refreshing ≡ is_some (lowest_owed self.old.refresh self.old.cycle) }
        requires drains { CountsDrains self.old }
        requires fits { ChannelFits (skipped self.old until) }
        ensures { self.new ≡ record self.old { stats = skipped self.old until } }
    {
        let cycles = until - self.cycle;
        let queued = self.queue.len();
        let draining = self.queue.draining();
        let stats = &mut self.stats;
        stats.add_cycles(cycles, queued, refreshing, draining);
    }

    /// Counts the cycles before `until`, in each of which the same is seen as in the next one, and nothing is issued.
    /// They are then over.
    fn skip(&mut self, refreshing: bool, until: Cycle)
        requires until { self.old.cycle < until }
        requires refreshing { refreshing ≡ is_some (lowest_owed self.old.refresh self.old.cycle) }
        requires drains { CountsDrains self.old }
        requires fits { ChannelFits (skipped self.old until) }
        ensures { self.new ≡ record self.old { cycle = until; stats = skipped self.old until } }
    {
        self.count_cycles(refreshing, until);
        let cycle = &mut self.cycle;
        *cycle = until;
    }

    /// Counts the cycles up to a cycle and that one too, in each of which the same is seen as in the next one. Those
    /// before it are then over.
    #[inline(always)]
    fn count_through(&mut self, refreshing: bool, cycle: Cycle)
        requires order { self.old.cycle ≤ cycle }
        requires early { cycle < 2 ^ 62 }
        requires refreshing { refreshing ≡ is_some (lowest_owed self.old.refresh self.old.cycle) }
        requires drains { CountsDrains self.old }
        requires fits { ChannelFits (skipped self.old (cycle + 1)) }
        ensures { self.new ≡ counted_through self.old cycle }
    {
        self.count_cycles(refreshing, cycle + 1);
        self.cycle = cycle;
    }

    /// The first cycle before `until` from which on a refresh is due, as long as no REF is issued; `until`, where there
    /// is none.
    #[tactic(auto, using(crate::proofs::Dues::due_from_next, crate::proofs::Dues::never_due))]
    fn due_from(&self, until: Cycle) -> Cycle
        requires { self.now.cycle ≤ until }
        ensures from_now { self.now.cycle ≤ result }
        ensures within { result ≤ until }
        ensures due { (cycle : ℕ) → self.now.cycle ≤ cycle → cycle < until
            → is_some (lowest_owed self.now.refresh cycle) ≡ nat_le result cycle }
    {
        if !self.refresh.is_due_by(until) {
            return until;
        }
        match self.refresh.next_due(self.cycle) {
            Some(due) => due.min(until),
            None => until,
        }
    }

    /// Whether a refresh of some rank is due in this cycle.
    #[inline(always)]
    fn refreshing(&self) -> bool
        ensures { result ≡ is_some (lowest_owed self.now.refresh self.now.cycle) }
    {
        self.refresh.is_due_by(self.cycle)
    }

    /// Decides whether the channel drains its writes in the next cycle, where nothing arrives in it.
    fn decide_drain(&mut self)
        ensures { ForPasts self.old (IsInCycle self.new) }
    {
        self.queue.decide_drain();
    }

    /// Counts the cycles from this one up to `until`, at most 2^62, in which nothing is issued, and nothing arrives
    /// except in the first, where a refresh is due in some of them. The channel is in the cycle `until` then.
    #[inline(never)]
    fn wait_for_refresh(&mut self, until: Cycle)
        requires in_cycle { IsInSomeCycle self.old self.old.cycle }
        requires span { self.old.cycle ≤ until }
        requires until { until ≤ 2 ^ 62 }
        ensures same_queue { self.new.queue ≡ self.old.queue }
        ensures in_cycle { ForCycles self.old (λ past.
            IsInCycle self.new (idle_after past (length past.steps) until)) }
    {
        if self.cycle == until {
            return;
        }
        let due = self.due_from(until);
        if self.cycle < due {
            self.skip(false, due);
        }
        if due < until {
            self.skip(true, until);
        }
    }

    /// Counts the cycles from this one up to `until`, at most 2^62, in which nothing is issued, and nothing arrives
    /// except in the first. The channel is in the cycle `until` then.
    #[inline(always)]
    fn wait(&mut self, until: Cycle)
        requires in_cycle { IsInSomeCycle self.old self.old.cycle }
        requires span { self.old.cycle ≤ until }
        requires until { until ≤ 2 ^ 62 }
        ensures same_queue { self.new.queue ≡ self.old.queue }
        ensures in_cycle { ForCycles self.old (λ past.
            IsInCycle self.new (idle_after past (length past.steps) until)) }
    {
        if self.refresh.is_due_by(until) {
            self.wait_for_refresh(until);
        } else if self.cycle < until {
            self.skip(false, until);
        }
    }

    /// Counts the cycles from this one up to `cycle`, before 2^62, and that one too, in which a request is served.
    /// Nothing is issued before it, nothing arrives except in the first, and no refresh is due in any of them. The
    /// channel is in that cycle then.
    #[inline(always)]
    fn pass(&mut self, cycle: Cycle)
        requires serves { ServesIn self.old cycle }
        requires early { cycle < 2 ^ 62 }
        ensures same_queue { self.new.queue ≡ self.old.queue }
        ensures counted { ForCycles self.old (λ past.
            ServesAfter past cycle
            → HasCounted self.new (idle_after past (length past.steps) cycle)) }
    {
        // no refresh is due where a request is served
        self.count_through(false, cycle);
    }

    /// Takes note of a command for which the channel is readied, and counts it. It is added to the commands, where they
    /// are kept.
    #[inline(always)]
    fn issue(
        &mut self,
        command: Command,
        hit: bool,
        commands: &mut Option<CommandList>,
    ) -> Result<(), AllocError>
        requires ready { IsReadiedInSomePast self.old command hit }
        requires early { self.old.cycle < 2 ^ 62 }
        ensures stands { (past : Past) → IsReadied self.old past command hit
            → HasPast self.new (with_step past (Some command)) }
        ensures commands { IfOk result (λ u. IsListed self.old command commands.old commands.new) }
    {
        let now = self.cycle;
        note_if_ref(&mut self.refresh, command, now);
        self.count(command, hit);
        keep(self.number, now, command, commands)
    }

    /// Readies the channel for what a rank needs that is to be refreshed: a PREA, where a row is open in the rank, and
    /// else its REF.
    #[inline(always)]
    fn ready_rank(&mut self, rank: u32) -> Command
        requires acts { ActsFor self.old (Needs.Refresh rank) }
        requires early { self.old.cycle < 2 ^ 62 }
        ensures command { ForCounted self.old (λ past. result ≡ rank_command past rank) }
        ensures readied { HasReadied self.old self.new result false }
    {
        let command = refresh_command(&self.bank_candidates, rank, self.config.groups);
        self.banks.note(command, self.cycle);
        if let Command::Prea { rank } = command {
            self.bank_candidates.closed_rank(rank);
        }
        command
    }

    /// Counts the cycle, and issues what a rank needs that is to be refreshed.
    #[inline(never)]
    fn refresh_rank(
        &mut self,
        rank: u32,
        commands: &mut Option<CommandList>,
    ) -> Result<(), AllocError>
        requires chosen { IsChosen self.old (Needs.Refresh rank) }
        requires early { self.old.cycle < 2 ^ 62 }
        ensures { ForCycles self.old (λ past. (messages : List Message)
            → IssuesIfNext result self.new past (rank_command past rank)
            commands.old commands.new messages messages) }
    {
        self.count_through(self.refreshing(), self.cycle);
        let command = self.ready_rank(rank);
        self.issue(command, false, commands)
    }

    /// Readies the channel for the ACT that the request at a place needs, in whose bank no row is open.
    #[inline(always)]
    fn open_bank(&mut self, place: usize) -> Command
        requires doing { IsDoing self.old place (opening_command self.old place) }
        requires early { self.old.cycle < 2 ^ 62 }
        ensures command { result ≡ opening_command self.old place }
        ensures readied { HasReadied self.old self.new result false }
    {
        let request = self.queue.log().log()[place].request;
        let bank = request.place.bank_id();
        let row = request.place.row;
        self.queue.activate(place);
        self.bank_candidates.opened(bank, row, self.queue.log());
        self.banks.note_act(bank, self.cycle);
        Command::Act {
            bank,
            row,
            source: request.source(),
        }
    }

    /// Readies the channel for the PRE that the request at a place needs, in whose bank another row is open.
    #[inline(always)]
    fn close_bank(&mut self, place: usize) -> Command
        requires doing { IsDoing self.old place (closing_command self.old place) }
        requires early { self.old.cycle < 2 ^ 62 }
        ensures command { result ≡ closing_command self.old place }
        ensures readied { HasReadied self.old self.new result false }
    {
        let request = self.queue.log().log()[place].request;
        let bank = request.place.bank_id();
        self.bank_candidates.closed(bank);
        self.banks.note_pre(bank, self.cycle);
        Command::Pre {
            bank,
            source: request.source(),
        }
    }

    /// Readies the channel for the column command of the request at a place, which then waits no more, and tells
    /// whether it is a row hit. On an error the request is not added to those that are kept.
    #[inline(always)]
    fn serve(&mut self, place: usize, request: &Request) -> Result<bool, AllocError>
        requires doing { IsDoing self.old place (column_command_at self.old place) }
        requires request { request.now ≡ request_of self.old place }
        requires early { self.old.cycle < 2 ^ 62 }
        ensures { ForCounted self.old (λ past.
            Some (column_command_at self.old place) ≡ choice_after past
            → IfOk result (IsReadied self.new past (column_command_at self.old place))) }
    {
        let unblocked = self.queue.serve(place);
        self.bank_candidates
            .on_service(place, unblocked, self.queue.log());
        let served = &self.queue.log().log()[place];
        let hit = !served.activated;
        note_served(
            &mut self.served,
            self.number,
            &served.request,
            hit,
            self.cycle,
        )?;
        note_column_command(&mut self.banks, request, self.cycle);
        Ok(hit)
    }

    /// Issues the column command of the request at a place, and sends what follows from it.
    #[inline(always)]
    fn issue_column_command(
        &mut self,
        place: usize,
        commands: &mut Option<CommandList>,
        messages: &mut Vec<Message>,
    ) -> Result<(), AllocError>
        requires doing { IsDoing self.old place (column_command_at self.old place) }
        requires early { self.old.cycle < 2 ^ 62 }
        ensures { ForCounted self.old (λ past.
            IssuesIfNext result self.new past (column_command_at self.old place)
            commands.old commands.new messages.old.items messages.new.items) }
    {
        let now = self.cycle;
        let request = self.queue.log().log()[place].request;
        let hit = self.serve(place, &request)?;
        self.issue(request.column_command(), hit, commands)?;
        let sender = AnsweringChannel {
            config: &self.config,
            latencies: &self.latencies,
            channel: self.number,
            cycle: now,
        };
        send(&sender, &request, messages)
    }

    /// Issues the ACT or the PRE that the request at a place needs, in a cycle that is counted: an ACT where no row of
    /// its bank is open, and else a PRE. On an error some of it may not be done.
    #[inline(always)]
    fn issue_row_command(
        &mut self,
        place: usize,
        commands: &mut Option<CommandList>,
    ) -> Result<(), AllocError>
        requires acts { ActsFor self.old (Needs.Row place) }
        requires early { self.old.cycle < 2 ^ 62 }
        ensures { ForCounted self.old (λ past. (command : Command) (messages : List Message)
            → command_for self.old past (Needs.Row place) ≡ Some command
            → IssuesIfNext result self.new past command
            commands.old commands.new messages messages) }
    {
        let bank = self.queue.log().log()[place].request.place.bank_id();
        match self.bank_candidates.open_row(bank) {
            None => {
                let command = self.open_bank(place);
                self.issue(command, false, commands)
            }
            Some(_) => {
                let command = self.close_bank(place);
                self.issue(command, false, commands)
            }
        }
    }

    /// Whether what was found is known to be still the next command, now that requests have arrived.
    #[inline(always)]
    fn keeps_found(&self, found: Option<(Cycle, Need)>, before: EarlierQueue) -> bool
        requires places { AreInBanks (rank_count self.now.banks) self.now.queue.log }
        requires banks { OfSameBanks self.now.bank_candidates self.now.banks }
        requires found { HasPlace (rank_count self.now.banks) self.now.queue.log found }
        ensures { IsTrue result → StaysNext self.now before (Known found) (Known found) }
    {
        match found {
            Some(next) => stays(
                &self.queue,
                &self.bank_candidates,
                &self.banks,
                before,
                next,
            ),
            None => false,
        }
    }

    /// Whether what is known of the next command is still so, now that requests have arrived.
    #[inline(always)]
    fn keeps(&self, before: EarlierQueue) -> bool
        requires places { AreInBanks (rank_count self.now.banks) self.now.queue.log }
        requires banks { OfSameBanks self.now.bank_candidates self.now.banks }
        requires next_command { NextCommandIsFor (rank_count self.now.banks)
            self.now.queue.log self.now.next_command }
        ensures { IsTrue result
            → StaysNext self.now before self.now.next_command self.now.next_command }
    {
        match self.next_command {
            NextCommand::Known(found) => self.keeps_found(found, before),
            NextCommand::Unknown => false,
        }
    }

    /// Forgets the command that was found, where one of the requests that have arrived may go before it.
    #[inline(always)]
    fn reconsider(&mut self, before: EarlierQueue)
        requires places { AreInBanks (rank_count self.old.banks) self.old.queue.log }
        requires banks { OfSameBanks self.old.bank_candidates self.old.banks }
        requires next_command { NextCommandIsFor (rank_count self.old.banks)
            self.old.queue.log self.old.next_command }
        ensures rest { self.new ≡ record self.old { next_command = self.new.next_command } }
        ensures next_command { StaysNext self.old before self.old.next_command self.new.next_command }
    {
        if !self.keeps(before) {
            self.next_command = NextCommand::Unknown;
        }
    }

    /// Looks for all candidates anew, since those that wait have moved to the front of the log, where none has its old
    /// place.
    #[inline(never)]
    fn renew(&mut self)
        ensures stands { (c : Channel)
            → self.old ≡ record c { queue = renumbered c.queue } → StandForTheSame c self.new }
        ensures queue { self.new.queue ≡ self.old.queue }
    {
        self.bank_candidates.renew(self.queue.log());
        self.next_command = NextCommand::Unknown;
    }

    /// Makes places for `count` requests that arrive.
    #[inline(always)]
    fn make_room(&mut self, count: usize)
        requires { length (waiting_requests self.old.queue.log) + count ≤ self.old.queue.room }
        ensures places { length self.new.queue.log + count ≤ self.new.queue.places }
        ensures room { length (waiting_requests self.new.queue.log) + count ≤ self.new.queue.room }
        ensures stands { StandForTheSame self.old self.new }
    {
        if self.queue.make_room(count) {
            self.renew();
        }
    }

    /// Takes in those of these messages that arrive in a cycle, and decides whether the channel drains its writes in
    /// it. Returns how many messages arrived.
    fn arrive(&mut self, inbox: &[Message], now: Cycle) -> usize
        requires { CanStep self.old inbox.now now }
        ensures some { result ≡ length (take_while (λ m. m.arrival == now) inbox.now) }
        ensures in_cycle { ForPasts self.old (λ past. (until : ℕ)
            → length past.steps ≡ now → now < until → IsFitAfter past inbox.now now until
            → IsInCycle self.new (with_mail past (take result inbox.now))) }
    {
        let due = due_count(inbox, now);
        if due == 0 {
            self.decide_drain();
            return 0;
        }
        self.make_room(due);
        let before = EarlierQueue {
            places: self.queue.log().len(),
            accesses: accesses_that_go(&self.queue, &self.bank_candidates),
        };
        admit(&mut self.queue, &inbox[..due]);
        self.bank_candidates
            .on_arrival(before.places, self.queue.log());
        self.reconsider(before);
        due
    }

    /// Goes on from the first of these cycles, where the channel stands, over the next cycle in which it issues a
    /// command, or up to the next cycle in which something arrives, if that comes first; and no further than the end of
    /// these cycles. What the channel issues, where that is kept, and what it sends is added to the commands and
    /// messages. On an error some of it may be missing.
    #[inline(always)]
    fn advance(
        &mut self,
        inbox: &[Message],
        cycles: Range<Cycle>,
        commands: &mut Option<CommandList>,
        messages: &mut Vec<Message>,
    ) -> Result<Advance, AllocError>
        requires can_run { CanRun self.old inbox.now cycles.start cycles.end }
        requires span { cycles.start < cycles.end }
        requires until { cycles.end ≤ 2 ^ 62 }
        ensures some { IfOk result (λ advance. advance.arrived ≤ length inbox.now) }
        ensures from_now { IfOk result (λ advance. cycles.start ≤ advance.last) }
        ensures within { IfOk result (λ advance. advance.last < cycles.end) }
        ensures done { ForSpan self.old inbox.now cycles.start cycles.end (λ past.
            IfOk result (λ advance. HasAdvanced self.new past inbox.now
            cycles.start (advance.last + 1) cycles.end advance.arrived
            commands.old commands.new messages.old.items messages.new.items)) }
    {
        let now = cycles.start;
        let arrived = self.arrive(inbox, now);
        let end = next_arrival(&inbox[arrived..], cycles.end);
        match self.look(now, end) {
            Some((cycle, Need::Column(place))) => {
                self.pass(cycle);
                self.issue_column_command(place as usize, commands, messages)?;
                Ok(Advance::up_to(arrived, cycle))
            }
            Some((cycle, Need::Row(place))) => {
                self.pass(cycle);
                self.issue_row_command(place as usize, commands)?;
                Ok(Advance::up_to(arrived, cycle))
            }
            Some((cycle, Need::Refresh(rank))) => {
                self.wait(cycle);
                self.refresh_rank(rank, commands)?;
                Ok(Advance::up_to(arrived, cycle))
            }
            None => {
                self.wait(end);
                Ok(Advance::up_to(arrived, end - 1))
            }
        }
    }

    /// Looks for the next command from a cycle on, where the channel stands, if nothing arrives.
    #[inline(never)]
    fn look_ahead(&mut self, from: Cycle)
        requires { StandsAt self.old from }
        ensures { ForPasts self.old (λ past. length past.steps ≡ from → HasPast self.new past) }
    {
        self.next_command = NextCommand::Known(self.find(from));
    }

    /// Looks for the next command, where it is not known, so that whoever asks when the channel acts, or runs it on,
    /// need not look again.
    #[inline(always)]
    fn set_next_command(&mut self, from: Cycle)
        requires { StandsAt self.old from }
        ensures { ForPasts self.old (λ past. length past.steps ≡ from → HasPast self.new past) }
    {
        if let NextCommand::Unknown = self.next_command {
            self.look_ahead(from);
        }
    }

    /// Runs the channel over these cycles, in which these messages arrive, by arrival and then by link. What it issues,
    /// where commands are kept, and sends is put behind what the commands and messages hold. The only error is out of
    /// memory; what the channel and the lists hold is then not known. The run goes from one cycle in which something
    /// arrives or is issued to the next, and skips those between.
    #[inline(never)]
    pub fn run(
        &mut self,
        inbox: &[Message],
        cycles: Range<Cycle>,
        commands: &mut Option<CommandList>,
        messages: &mut Vec<Message>,
    ) -> Result<(), AllocError>
        requires can_run { CanRun self.old inbox.now cycles.start cycles.end }
        requires span { cycles.start ≤ cycles.end }
        requires until { cycles.end ≤ 2 ^ 62 }
        ensures { ForSpan self.old inbox.now cycles.start cycles.end (λ past.
            OnOk result (IsDoneAfter self.new past inbox.now cycles.start cycles.end
            commands.old commands.new messages.old.items messages.new.items)) }
    {
        let mut arrived = 0;
        let mut now = cycles.start;
        let until = cycles.end;
        while now < until {
            let advance = self.advance(&inbox[arrived..], now..until, commands, messages)?;
            arrived += advance.arrived;
            now = advance.last + 1;
        }
        self.set_next_command(until);
        Ok(())
    }
}

/// How many requests may wait in a channel's queue: one for each credit of each core.
pub fn queue_room(config: &Config) -> usize
    ensures room { result ≡ queue_room config.now }
    ensures most { result ≤ 8192 }
{
    let credits = config.read_credits as usize + config.write_credits as usize;
    usize::from(config.cores) * credits
}

/// How many requests are likely to wait in a channel at once, where all cores may have `room` of them on their way:
/// twice its share of them, and all of them where there is no other channel. It is a matter of speed alone.
fn likely_requests(config: &Config, room: usize) -> usize
    requires { room ≤ 8192 }
    ensures { result ≡ 2 * room / max 2 config.now.channels }
{
    2 * room / usize::from(config.channels.max(2))
}

/// A copy of a configuration, and a channel's queue before its first request.
fn copy_and_queue(alloc: Global, config: &Config) -> Result<(Config, Queue), AllocError>
    ensures copy { IfOk result (λ parts. parts.0 ≡ config.now) }
    ensures queue { IfOk result (λ parts. parts.1
        ≡ empty_queue (queue_room config.now) config.now.write_high config.now.write_low) }
{
    let copy = config.copy(alloc)?;
    let room = queue_room(config);
    let likely = likely_requests(config, room);
    let queue = Queue::with_room(alloc, room, likely, config.write_high, config.write_low)?;
    Ok((copy, queue))
}

/// A channel's banks, which were never used, and the candidates of an empty log.
fn banks_and_candidates(
    alloc: Global,
    config: &Config,
    gaps: &GapTable,
) -> Result<(Banks, BankCandidates), AllocError>
    requires { gaps.now ≡ config.now.timing }
    ensures banks { IfOk result (λ parts. BanksStandFor parts.0 config.now []) }
    ensures count { IfOk result (λ parts. bank_count parts.1 ≡ 16 * config.now.ranks) }
    ensures candidates { IfOk result (λ parts. CandidatesStandFor parts.1 [] (λ bank. None)) }
{
    let banks = Banks::new(alloc, config, gaps)?;
    let candidates = BankCandidates::with_room(alloc, banks_of(config))?;
    Ok((banks, candidates))
}

/// How many banks a channel keeps words for: 16 in each rank, also where the rank has fewer.
fn banks_of(config: &Config) -> usize
    ensures banks { result ≡ 16 * config.now.ranks }
    ensures most { result ≤ 64 }
{
    16 * config.ranks as usize
}

/// Whether what was found is issued in no cycle before a given one.
#[inline(always)]
fn is_none_before(found: Option<(Cycle, Need)>, end: Cycle) -> bool
    ensures { (s : Config) (history : List IssuedCommand) (queue : QueueView) (from : ℕ)
        → result ≡ true → IsNextCommand s history queue from (Known found)
        → NoneIsIssued s history queue from end }
{
    match found {
        Some((cycle, _)) => end <= cycle,
        None => true,
    }
}

/// How many messages at the head of these arrive in a cycle.
fn due_count(inbox: &[Message], now: Cycle) -> usize
    ensures { result ≡ length (take_while (λ m. m.arrival == now) inbox.now) }
{
    inbox.iter().take_while(|m| m.arrival == now).count()
}

/// When the first of these messages arrives; `until`, where there is none.
fn next_arrival(inbox: &[Message], until: Cycle) -> Cycle
    ensures { result ≡ first_arrival_or inbox.now until }
{
    match inbox.first() {
        Some(message) => message.arrival,
        None => until,
    }
}
