//! What a core does in a cycle.

ghost use Rattle.std.specs.Prelude.{◌≡◌, ◌+◌, ◌<◌, ◌≤◌, ◌^◌, length, count_by, slice_get, ◌++◌, IfOk, OnOk};
ghost use Rattle.std.specs.Option.{option_to_list};
ghost use Rattle.sim_base.specs.History.{request, request_of, retired_before, issued_before};
ghost use Rattle.sim_base.specs.Windows.{is_reply_to, is_replied, is_done, done_from, retires, is_request_for, is_credit};
ghost use Rattle.sim_base.specs.Windows.{credit_cap, is_credit_on, is_memory, is_memory_in, has_memory, meets_memory, step_with};
ghost use Rattle.plain_steps.specs.Issues.{request_of_entry, requests_issued, credits_held, is_memory_among};
ghost use Rattle.plain_steps.specs.Issues.{lacks_credit_for, cause_to_stop, stops_after, first_cause_to_stop, issue_count_of};
ghost use Rattle.plain_steps.specs.Issues.{HasSent, next_step_of, finishing_cycle};

use crate::core_cycle::{CoreMail, IssueStage, IssuedEntries};
use address_map::place_of;
use cpu_trace::trace::Trace;
use sim_base::command::Source;
use sim_base::config::Config;
use sim_base::history::CoreStep;
use sim_base::message::{Access, CoreId, Message, Payload, Request};
use sim_base::trace::{Entry, Stop};
use std::alloc::{AllocError, Global};

#[tactic(auto, unfolding(sim_base::specs::History::request))]
fn request_message(
    s: &Config,
    cycle: usize,
    source: Source,
    access: Access,
    address: u64,
) -> Message
    requires early { cycle < 2 ^ 41 }
    ensures { result ≡ request s.now source.core cycle source.entry access address }
{
    let Source { core, entry } = source;
    let place = place_of(s, address);
    let link = s.request_link(core, place.channel);
    let arrival = cycle as u64 + u64::from(s.latency(link));
    let payload = Payload::Request(Request {
        core,
        entry,
        access,
        address,
        place,
        arrival,
        link,
    });
    Message {
        link,
        arrival,
        payload,
    }
}

fn request_for(s: &Config, core: CoreId, cycle: usize, number: u64, entry: Entry) -> Option<Message>
    requires early { cycle < 2 ^ 41 }
    ensures { result ≡ request_of s.now core cycle number entry }
{
    let source = Source {
        core,
        entry: number,
    };
    match entry {
        Entry::Plain => None,
        Entry::Read(address) => Some(request_message(s, cycle, source, Access::Read, address)),
        Entry::Write(address) => Some(request_message(s, cycle, source, Access::Write, address)),
    }
}

/// How many entries were retired.
#[tactic(auto, unfolding(sim_base::specs::History::retired_before))]
pub fn retired_count(past_steps: &[CoreStep]) -> u64
    requires { length past_steps.now < 2 ^ 40 }
    ensures value { result ≡ retired_before past_steps.now }
    ensures small { result < 2 ^ 63 }
{
    let mut total = 0u64;
    for row in past_steps {
        total += u64::from(row.retired);
    }
    total
}

/// How many entries were issued.
#[tactic(auto, unfolding(sim_base::specs::History::issued_before))]
pub fn issued_count(past_steps: &[CoreStep]) -> u64
    requires { length past_steps.now < 2 ^ 40 }
    ensures value { result ≡ issued_before past_steps.now }
    ensures small { result < 2 ^ 63 }
{
    let mut total = 0u64;
    for row in past_steps {
        total += u64::from(row.issued);
    }
    total
}

/// The entry of a number, where there is one.
pub fn entry_of(trace: &Trace, number: u64) -> Option<Entry>
    ensures { result ≡ slice_get trace.now number }
{
    if number < trace.len() {
        Some(trace.entry_at(number))
    } else {
        None
    }
}

fn request_of_number(
    s: &Config,
    core: CoreId,
    trace: &Trace,
    cycle: usize,
    number: u64,
) -> Option<Message>
    requires early { cycle < 2 ^ 41 }
    ensures { result ≡ request_of_entry s.now core cycle trace.now number }
{
    match entry_of(trace, number) {
        Some(entry) => request_for(s, core, cycle, number, entry),
        None => None,
    }
}

fn push_some(sent: &mut Vec<Message>, message: Option<Message>) -> Result<(), AllocError>
    ensures { OnOk result (sent.new.items ≡ sent.old.items ++ option_to_list message) }
{
    if let Some(m) = message {
        sent.push(m)?;
    }
    Ok(())
}

/// The requests among entries that a core issues. The only error is out of memory.
#[tactic(auto, using(sim_base::proofs::Requested::requests_between_none))]
pub fn requests_of_entries(
    alloc: Global,
    s: &Config,
    core: CoreId,
    trace: &Trace,
    issued: &IssuedEntries,
) -> Result<Vec<Message>, AllocError>
    ensures { IfOk result (λ v. v.items ≡ requests_issued s.now core trace.now issued.now) }
{
    let mut sent = Vec::new(alloc);
    for k in 0..issued.count {
        let number = issued.first + u64::from(k);
        push_some(
            &mut sent,
            request_of_number(s, core, trace, issued.cycle, number),
        )?;
    }
    Ok(sent)
}

fn is_reply(entry: u64, payload: Payload) -> bool
    ensures { result ≡ is_reply_to entry payload }
{
    match payload {
        Payload::Reply(other) => entry == other,
        Payload::Request(_) | Payload::Credit { .. } => false,
    }
}

#[tactic(auto, unfolding(sim_base::specs::Windows::is_replied))]
fn has_reply(inbox: &[Message], now: usize, entry: u64) -> bool
    ensures { result ≡ is_replied inbox.now now entry }
{
    inbox.iter().any(move |m| is_reply(entry, m.payload) && m.arrival <= now as u64)
}

#[tactic(auto, unfolding(sim_base::specs::Windows::is_done))]
fn is_entry_done(trace: &Trace, inbox: &[Message], now: usize, entry: u64) -> bool
    ensures { result ≡ is_done trace.now inbox.now now entry }
{
    match entry_of(trace, entry) {
        Some(Entry::Read(_)) => has_reply(inbox, now, entry),
        Some(Entry::Write(_) | Entry::Plain) => true,
        None => false,
    }
}

#[tactic(auto, unfolding(sim_base::specs::Windows::done_from))]
fn done_count(trace: &Trace, inbox: &[Message], now: usize, n: u16, first: u64) -> u16
    requires { first + n < 2 ^ 64 }
    ensures value { result ≡ done_from trace.now inbox.now now n first }
    ensures small { result ≤ n }
{
    (first..first + u64::from(n))
        .take_while(move |entry| is_entry_done(trace, inbox, now, *entry))
        .count() as u16
}

/// How many entries retire in the next cycle.
#[tactic(auto, unfolding(sim_base::specs::Windows::retires))]
fn retire_count(s: &Config, trace: &Trace, past_steps: &[CoreStep], inbox: &[Message]) -> u16
    requires { length past_steps.now < 2 ^ 40 }
    ensures value { result ≡ retires s.now trace.now past_steps.now inbox.now }
{
    let first = retired_count(past_steps);
    let issued = issued_count(past_steps);
    let most = u64::from(s.width).min(issued.saturating_sub(first)) as u16;
    done_count(trace, inbox, past_steps.len(), most, first)
}

fn is_request(channel: u32, access: Access, payload: Payload) -> bool
    ensures { result ≡ is_request_for channel access payload }
{
    match payload {
        Payload::Request(r) => r.place.channel == channel && access.is_access(r.access),
        Payload::Reply(_) | Payload::Credit { .. } => false,
    }
}

fn is_credit_for(access: Access, payload: Payload) -> bool
    ensures { result ≡ is_credit access payload }
{
    match payload {
        Payload::Credit { access: other, .. } => access.is_access(other),
        Payload::Request(_) | Payload::Reply(_) => false,
    }
}

fn cap(s: &Config, access: Access) -> u32
    ensures { result ≡ credit_cap s.now access }
{
    match access {
        Access::Read => s.read_credits,
        Access::Write => s.write_credits,
    }
}

fn is_link_credit(link: u64, access: Access, until: usize, m: Message) -> bool
    ensures { result ≡ is_credit_on link access until m }
{
    m.link == link && is_credit_for(access, m.payload) && m.arrival < until as u64
}

fn credits_received(inbox: &[Message], link: u64, access: Access, until: usize) -> usize
    ensures value { result ≡ count_by (is_credit_on link access until) inbox.now }
    ensures small { result < 2 ^ 63 }
{
    inbox
        .iter()
        .filter(move |m| is_link_credit(link, access, until, **m))
        .count()
}

fn request_count(sent: &[Message], channel: u32, access: Access) -> usize
    ensures { result ≡ count_by (λ m. is_request_for channel access m.payload) sent.now }
{
    sent.iter()
        .filter(move |m| is_request(channel, access, m.payload))
        .count()
}

/// The credits that a core holds for a channel, to read or to write, those counted that arrived before a cycle.
#[tactic(auto, unfolding(sim_base::specs::Windows::held))]
pub fn held_count(
    s: &Config,
    mail: &CoreMail<'_>,
    channel: u32,
    access: Access,
    until: usize,
) -> usize
    ensures { result ≡ credits_held s.now mail.now channel access until }
{
    let link = s.credit_link(mail.core, channel);
    let received = cap(s, access) as usize + credits_received(mail.inbox, link, access, until);
    received.saturating_sub(request_count(mail.sent, channel, access))
}

fn is_memory_entry(entry: Entry) -> bool
    ensures { result ≡ is_memory entry }
{
    match entry {
        Entry::Plain => false,
        Entry::Read(_) | Entry::Write(_) => true,
    }
}

fn is_some_memory_entry(entry: Option<Entry>) -> bool
    ensures { result ≡ is_memory_in entry }
{
    match entry {
        Some(entry) => is_memory_entry(entry),
        None => false,
    }
}

fn is_memory_number(trace: &Trace, number: u64) -> bool
    ensures { result ≡ is_memory_in (slice_get trace.now number) }
{
    is_some_memory_entry(entry_of(trace, number))
}

fn has_memory_number(trace: &Trace, first: u64, m: u16) -> bool
    requires { first + m < 2 ^ 64 }
    ensures { result ≡ is_memory_among trace.now first m }
{
    (0..m).any(move |k| is_memory_number(trace, first + u64::from(k)))
}

#[tactic(auto, using(crate::proofs::Entries::has_memory_numbers))]
fn has_memory_entry(trace: &Trace, first: u64, m: u16) -> bool
    requires { first + m < 2 ^ 64 }
    ensures { result ≡ has_memory trace.now first m }
{
    has_memory_number(trace, first, m)
}

#[tactic(auto, unfolding(sim_base::specs::Windows::meets_memory))]
fn meets_memory_entry(trace: &Trace, first: u64, m: u16) -> bool
    requires { first + m < 2 ^ 64 }
    ensures { result ≡ meets_memory trace.now first m }
{
    is_memory_number(trace, first + u64::from(m)) && has_memory_entry(trace, first, m)
}

impl IssueStage<'_> {
    /// Whether an entry needs a credit that the core does not hold.
    #[tactic(auto, unfolding(sim_base::specs::Windows::lacks_credit))]
    fn is_out_of_credit(&self, entry: Option<Entry>) -> bool
        ensures { result ≡ lacks_credit_for self.now entry }
    {
        match entry {
            Some(Entry::Read(address)) => {
                let channel = place_of(self.config, address).channel;
                held_count(
                    self.config,
                    self.mail,
                    channel,
                    Access::Read,
                    self.cycle + 1,
                ) == 0
            }
            Some(Entry::Write(address)) => {
                let channel = place_of(self.config, address).channel;
                held_count(
                    self.config,
                    self.mail,
                    channel,
                    Access::Write,
                    self.cycle + 1,
                ) == 0
            }
            Some(Entry::Plain) | None => false,
        }
    }

    /// Why the core issues no further entry after m in this cycle.
    #[tactic(auto, unfolding(sim_base::specs::Windows::stop_after))]
    fn stop_cause(&self, m: u16) -> Option<Stop>
        ensures { result ≡ cause_to_stop self.now m }
    {
        let next = self.first + u64::from(m);
        let entry = entry_of(self.trace, next);
        if next == self.trace.len() {
            Some(Stop::End)
        } else if m == self.config.width {
            Some(Stop::Width)
        } else if next.saturating_sub(self.retired_by_end) == u64::from(self.config.window) {
            Some(Stop::Window)
        } else if meets_memory_entry(self.trace, self.first, m) {
            Some(Stop::Memory)
        } else if self.is_out_of_credit(entry) {
            Some(Stop::Credit)
        } else {
            None
        }
    }

    #[tactic(auto, unfolding(sim_base::specs::Windows::has_cause))]
    fn has_stop_cause(&self, m: u16) -> bool
        ensures { result ≡ stops_after self.now m }
    {
        self.stop_cause(m).is_some()
    }

    fn first_cause(&self) -> Option<u16>
        ensures { result ≡ first_cause_to_stop self.now }
    {
        (0..self.config.width + 1).find(|m| self.has_stop_cause(*m))
    }

    /// The least number of entries after which there is a cause to stop.
    #[tactic(auto, unfolding(sim_base::specs::Windows::first_stop))]
    fn issue_count(&self) -> u16
        ensures { result ≡ issue_count_of self.now }
    {
        self.first_cause().unwrap_or(self.config.width)
    }
}

fn step_from(retired: u16, m: u16, why: Option<Stop>) -> (CoreStep, Stop)
    ensures { result ≡ step_with retired m why }
{
    (CoreStep { retired, issued: m }, why.unwrap_or(Stop::Width))
}

/// What a core does in the cycle after these steps, in which it sent and was sent these messages, and why it stops.
#[tactic(auto, unfolding(sim_base::specs::Windows::step))]
pub fn core_step(
    s: &Config,
    trace: &Trace,
    past_steps: &[CoreStep],
    mail: &CoreMail<'_>,
) -> (CoreStep, Stop)
    requires few { length past_steps.now < 2 ^ 40 }
    requires sent { HasSent s.now trace.now past_steps.now mail.now }
    ensures { result ≡ next_step_of s.now trace.now past_steps.now mail.now }
{
    let retired = retire_count(s, trace, past_steps, mail.inbox);
    let stage = IssueStage {
        config: s,
        trace,
        mail,
        cycle: past_steps.len(),
        first: issued_count(past_steps),
        retired_by_end: retired_count(past_steps) + u64::from(retired),
    };
    let m = stage.issue_count();
    step_from(retired, m, stage.stop_cause(m))
}

/// The cycle, if the last of a core's entries retires in it: `retired_so_far` did before it, and `retired` do in it.
pub fn finish_now(entries: u64, now: u64, retired_so_far: u64, retired: u16) -> Option<u64>
    ensures finish { result ≡ finishing_cycle entries now retired_so_far retired }
{
    if retired_so_far < entries && entries - retired_so_far <= u64::from(retired) {
        Some(now)
    } else {
        None
    }
}
