//! First-ready first-come-first-served scheduling of one channel.

ghost use Rattle.std.specs.Prelude.{◌≡◌, ◌<◌, find, filter, count_by, take, IfOk};
ghost use Rattle.sim_base.specs.Access.{is_access};
ghost use Rattle.sim_base.specs.declared.message.Access.TheVariants as access;
ghost use Rattle.sim_base.specs.Scheduling.{request_in, is_source, serves, is_served, drains_with, asks_for_line};
ghost use Rattle.sim_base.specs.Scheduling.{first_of_lines, is_favoured, candidates, needed, is_row_hit, has_hit, is_withheld};
ghost use Rattle.sim_base.specs.Scheduling.{refreshes, due, lowest_due, refresh_command};
ghost use Rattle.plain_steps.specs.Plain.{queue_of, is_request_left, is_left};
ghost use Rattle.plain_steps.specs.Choices.{is_legal_in, ready_hit_in, ready_row_in, first_ready_in, if_legal_in, choice_in};
ghost use Rattle.plain_steps.specs.Choices.{drains_in, command_in};

use crate::channel_cycle::ChannelCycle;
use crate::rules;
use sim_base::command::{Command, IssuedCommand, Source};
use sim_base::config::Config;
use sim_base::message::{Access, Message, Payload, Request};
use sim_base::place::{BankId, Place, is_row};
use std::alloc::{AllocError, Global};

pub fn request_of_payload(payload: Payload) -> Option<Request>
    ensures { result ≡ request_in payload }
{
    match payload {
        Payload::Request(r) => Some(r),
        Payload::Reply(_) | Payload::Credit { .. } => None,
    }
}

fn is_from(r: Request, source: Source) -> bool
    ensures { result ≡ is_source r source }
{
    r.core == source.core && r.entry == source.entry
}

pub fn does_serve(r: Request, command: Command) -> bool
    ensures { result ≡ serves r command }
{
    match command {
        Command::Rd { source, .. } | Command::Wr { source, .. } => is_from(r, source),
        _ => false,
    }
}

#[tactic(auto, unfolding(sim_base::specs::Scheduling::is_served))]
fn is_request_served(history: &[IssuedCommand], r: Request) -> bool
    ensures { result ≡ is_served history.now r }
{
    history.iter().any(move |i| does_serve(r, i.command))
}

fn is_request_unserved(history: &[IssuedCommand], request: Option<Request>) -> bool
    ensures { result ≡ is_request_left history.now request }
{
    match request {
        Some(r) => !is_request_served(history, r),
        None => true,
    }
}

fn is_unserved(history: &[IssuedCommand], m: Message) -> bool
    ensures { result ≡ is_left history.now m }
{
    is_request_unserved(history, request_of_payload(m.payload))
}

/// The messages whose requests are not served yet.
pub fn unserved(
    alloc: Global,
    history: &[IssuedCommand],
    messages: &[Message],
) -> Result<Vec<Message>, AllocError>
    ensures { IfOk result (λ v. v.items ≡ filter (is_left history.now) messages.now) }
{
    messages
        .iter()
        .copied()
        .filter(|m| is_unserved(history, *m))
        .collect(alloc)
}

/// The requests among these messages that arrived before a cycle.
#[tactic(auto, unfolding(crate::specs::Plain::queue_of))]
pub fn queue(alloc: Global, pending: &[Message], until: u64) -> Result<Vec<Request>, AllocError>
    ensures { IfOk result (λ v. v.items ≡ queue_of pending.now until) }
{
    pending
        .iter()
        .filter_map(|m| request_of_payload(m.payload))
        .filter(move |r| r.arrival < until)
        .collect(alloc)
}

fn write_count(queue: &[Request]) -> usize
    ensures { result ≡ count_by (λ r. is_access access.Write r.access) queue.now }
{
    queue
        .iter()
        .filter(|r| Access::Write.is_access(r.access))
        .count()
}

fn drains_at(s: &Config, draining: bool, writes: usize) -> bool
    ensures { result ≡ drains_with s.now draining writes }
{
    let high = s.write_high as usize;
    let low = s.write_low as usize;
    (0 < high && high <= writes) || (draining && low < writes)
}

#[tactic(auto, unfolding(sim_base::specs::Scheduling::asks_for_line))]
fn is_line_asked(place: Place, requests: &[Request], count: usize) -> bool
    ensures { result ≡ asks_for_line place (take count requests.now) }
{
    requests
        .iter()
        .take(count)
        .any(move |q| q.place.is_line(place))
}

/// The requests with no older one for the same line.
#[tactic(auto, unfolding(sim_base::specs::Scheduling::first_of_lines))]
fn first_for_lines(alloc: Global, queue: &[Request]) -> Result<Vec<Request>, AllocError>
    ensures { IfOk result (λ v. v.items ≡ first_of_lines queue.now) }
{
    queue
        .iter()
        .enumerate()
        .filter(|(older, r)| !is_line_asked(r.place, queue, *older))
        .map(|(_, r)| *r)
        .collect(alloc)
}

fn is_favoured_request(draining: bool, r: Request) -> bool
    ensures { result ≡ is_favoured draining r }
{
    let favoured = if draining {
        Access::Write
    } else {
        Access::Read
    };
    favoured.is_access(r.access)
}

fn favoured_requests(
    alloc: Global,
    draining: bool,
    eligible: &[Request],
) -> Result<Vec<Request>, AllocError>
    ensures { IfOk result (λ v. v.items ≡ filter (is_favoured draining) eligible.now) }
{
    eligible
        .iter()
        .copied()
        .filter(move |r| is_favoured_request(draining, *r))
        .collect(alloc)
}

/// The requests that may be served next, by age.
#[tactic(auto, unfolding(sim_base::specs::Scheduling::favour, sim_base::specs::Scheduling::candidates))]
fn candidate_requests(
    alloc: Global,
    s: &Config,
    draining: bool,
    queue: &[Request],
) -> Result<Vec<Request>, AllocError>
    ensures { IfOk result (λ v. v.items ≡ candidates s.now draining queue.now) }
{
    let eligible = first_for_lines(alloc, queue)?;
    let favoured = favoured_requests(alloc, draining, &eligible)?;
    if 0 < s.write_high && 0 < favoured.len() {
        Ok(favoured)
    } else {
        Ok(eligible)
    }
}

/// The command that a request needs next.
#[tactic(auto, unfolding(sim_base::specs::Scheduling::needed))]
fn needed_command(history: &[IssuedCommand], r: Request) -> Command
    ensures { result ≡ needed history.now r }
{
    r.needed_at(rules::row_of_bank(r.place.bank_id(), history))
}

fn hits_row(r: Request, bank: BankId, open_row: Option<u32>) -> bool
    ensures { result ≡ is_row_hit r bank open_row }
{
    r.place.bank_id().is_bank(bank) && is_row(r.place.row, open_row)
}

fn is_hit_in(history: &[IssuedCommand], requests: &[Request], bank: BankId) -> bool
    ensures { result ≡ has_hit history.now requests.now bank }
{
    let open_row = rules::row_of_bank(bank, history);
    requests.iter().any(move |r| hits_row(*r, bank, open_row))
}

/// Whether a row hit among the requests keeps the command's bank from being closed.
#[tactic(auto, unfolding(sim_base::specs::Scheduling::is_withheld))]
fn is_command_withheld(history: &[IssuedCommand], requests: &[Request], command: Command) -> bool
    ensures { result ≡ is_withheld history.now requests.now command }
{
    match command {
        Command::Pre { bank, .. } => is_hit_in(history, requests, bank),
        _ => false,
    }
}

fn refresh_count(rank: u32, history: &[IssuedCommand]) -> usize
    ensures { result ≡ count_by (λ i. refreshes rank i.command) history.now }
{
    history
        .iter()
        .filter(move |i| i.command.is_refresh_of(rank))
        .count()
}

/// How many refreshes of a rank are due.
#[tactic(auto, unfolding(sim_base::specs::Scheduling::due))]
pub fn due_count(s: &Config, rank: u32, history: &[IssuedCommand], now: u64) -> u64
    ensures { result ≡ due s.now rank history.now now }
{
    if s.timing.n_refi == 0 {
        0
    } else {
        (now / u64::from(s.timing.n_refi)).saturating_sub(refresh_count(rank, history) as u64)
    }
}

/// The lowest rank with a refresh that is due.
#[tactic(auto, unfolding(sim_base::specs::Scheduling::lowest_due))]
pub fn lowest_rank_due(s: &Config, history: &[IssuedCommand], now: u64) -> Option<u32>
    ensures { result ≡ lowest_due s.now history.now now }
{
    (0..s.ranks).find(move |rank| 0 < due_count(s, *rank, history, now))
}

#[tactic(auto, unfolding(sim_base::specs::Scheduling::refresh_command))]
fn refresh_command_of(s: &Config, history: &[IssuedCommand], rank: u32) -> Command
    ensures { result ≡ refresh_command s.now history.now rank }
{
    if rules::has_open_bank_of_rank(s, history, rank) {
        Command::Prea { rank }
    } else {
        Command::Ref { rank }
    }
}

/// What a channel does in a cycle: its command, if there is one, and whether it drains its writes.
#[derive(Clone, Copy)]
pub struct ChannelStep {
    pub command: Option<Command>,
    pub draining: bool,
}

impl ChannelCycle<'_> {
    fn is_legal(&self, command: Command) -> bool
        ensures { result ≡ is_legal_in self.now command }
    {
        rules::is_legal_now(self.config, self.gaps, self.history, self.number, command)
    }

    /// Whether a row hit may be served now.
    #[tactic(auto, unfolding(sim_base::specs::Scheduling::ready_hit))]
    fn is_ready_hit(&self, r: Request) -> bool
        ensures { result ≡ ready_hit_in self.now r }
    {
        let command = needed_command(self.history, r);
        command.is_column() && self.is_legal(command)
    }

    /// Whether a row may be opened or closed for a request now.
    #[tactic(auto, unfolding(sim_base::specs::Scheduling::ready_row))]
    fn is_ready_row(&self, requests: &[Request], r: Request) -> bool
        ensures { result ≡ ready_row_in self.now requests.now r }
    {
        let command = needed_command(self.history, r);
        !command.is_column()
            && self.is_legal(command)
            && !is_command_withheld(self.history, requests, command)
    }

    fn first_hit(&self, requests: &[Request]) -> Option<Request>
        ensures { result ≡ find (ready_hit_in self.now) requests.now }
    {
        requests.iter().copied().find(|r| self.is_ready_hit(*r))
    }

    fn first_row(&self, requests: &[Request]) -> Option<Request>
        ensures { result ≡ find (ready_row_in self.now requests.now) requests.now }
    {
        requests
            .iter()
            .copied()
            .find(|r| self.is_ready_row(requests, *r))
    }

    /// The command of the first request that is ready: row hits first.
    #[tactic(auto, unfolding(sim_base::specs::Scheduling::first_ready))]
    fn first_ready_command(&self, requests: &[Request]) -> Option<Command>
        ensures { result ≡ first_ready_in self.now requests.now }
    {
        match self.first_hit(requests) {
            Some(r) => Some(needed_command(self.history, r)),
            None => match self.first_row(requests) {
                Some(r) => Some(needed_command(self.history, r)),
                None => None,
            },
        }
    }

    #[tactic(auto, unfolding(sim_base::specs::Scheduling::if_legal))]
    fn command_if_legal(&self, command: Command) -> Option<Command>
        ensures { result ≡ if_legal_in self.now command }
    {
        if self.is_legal(command) {
            Some(command)
        } else {
            None
        }
    }

    /// The command that the channel issues: a refresh where one is due, and otherwise for one of these requests.
    #[tactic(auto, unfolding(sim_base::specs::Scheduling::choice_between))]
    fn choice_of(&self, requests: &[Request], due: Option<u32>) -> Option<Command>
        ensures { result ≡ choice_in self.now requests.now due }
    {
        match due {
            Some(rank) => {
                self.command_if_legal(refresh_command_of(self.config, self.history, rank))
            }
            None => self.first_ready_command(requests),
        }
    }
}

/// What a channel does in a cycle, with these messages still pending, given whether it drained its writes in the
/// cycle before.
pub fn channel_step(
    alloc: Global,
    cycle: &ChannelCycle<'_>,
    pending: &[Message],
    drained: bool,
) -> Result<ChannelStep, AllocError>
    ensures draining { IfOk result (λ x. x.draining ≡ drains_in cycle.now drained pending.now) }
    ensures command { IfOk result (λ x. x.command ≡ command_in cycle.now x.draining pending.now) }
{
    let queue = queue(alloc, pending, cycle.number + 1)?;
    let draining = drains_at(cycle.config, drained, write_count(&queue));
    let requests = candidate_requests(alloc, cycle.config, draining, &queue)?;
    let due = lowest_rank_due(cycle.config, cycle.history, cycle.number);
    let command = cycle.choice_of(&requests, due);
    Ok(ChannelStep { command, draining })
}
