//! The requests that have arrived at a channel, by age, each at a place that it keeps until the requests that wait are
//! moved to the front.

pub(crate) mod chains;
mod lines;
pub mod words;

ghost use Rattle.std.specs.Prelude.{◌≡◌, ◌^◌, ◌+◌, ◌-◌, ◌<◌, ◌≤◌, not, length, drop, slice_set, vec_capacity};
ghost use Rattle.std.specs.List.{prefix_len};
ghost use Rattle.queue.specs.Columns.{bank_number, tag_word, counter_of_row, waiting_items};

use crate::request_log::chains::{Chains, class_of};
use crate::request_log::lines::{counters, is_for, next_for_line};
use crate::request_log::words::{SERVED, bank_number, line_counter, row_counter, tag_word};
use sim_base::message::{Access, Request};
use sim_base::place::Place;
use std::alloc::{AllocError, Global};
use std::marker::Model;

/// A request that has arrived at a channel.
#[derive(Clone, Copy)]
pub struct Arrived {
    pub request: Request,
    /// Whether the request waits: its data has not been moved.
    pub waits: bool,
    /// Whether an ACT was issued in the name of the request.
    pub activated: bool,
}

/// There are counters of rows for at most this number of requests, so that the counters of a large queue take little
/// memory.
const ROOM_OF_ROWS: usize = 2048;

/// For how many lines the place of the request that arrived last is kept.
const RECENT: usize = 1024;

/// The counter of a request among the counters of rows, which go up to `mask`.
#[inline(always)]
fn row_counter_of(request: Request, mask: usize) -> usize
    ensures value { result ≡ counter_of_row mask request }
    ensures within { result ≤ mask }
{
    let bank = bank_number(request.place);
    row_counter(bank, request.access, request.place.row, mask)
}

/// The tag of a request that waits, which may be served or not.
#[inline(always)]
fn tag_of(eligible: bool, request: Request) -> u8
    ensures { result ≡ tag_word eligible request.access (bank_number request.place) }
{
    tag_word(eligible, request.access, bank_number(request.place) as u64)
}

/// Keeps at a number the place of the request that arrived last.
#[inline(always)]
fn set_recent(recent: &mut [u16], number: usize, place: usize)
    requires { place < 2 ^ 16 }
    ensures { number < length recent.old
        → recent.new ≡ slice_set recent.old number place }
{
    if number < recent.len() {
        recent[number] = place as u16;
    }
}

/// How many requests at the head of a log were served.
fn served_in_front(log: &[Arrived]) -> usize
    ensures served { result ≡ prefix_len (λ a. not a.waits) log.now }
    ensures within { result ≤ length log.now }
{
    log.iter().take_while(|arrived| !arrived.waits).count()
}

/// Takes out the first `count` items.
fn drop_first<T: Copy>(items: &mut Vec<T>, count: usize)
    requires { count ≤ length items.old.items }
    ensures items { items.new.items ≡ drop count items.old.items }
    ensures room { vec_capacity items.new ≡ vec_capacity items.old }
{
    let len = items.len();
    items.copy_within(count..len, 0);
    items.truncate(len - count);
}

/// Moves the tags of the requests that wait to the front, in their order.
fn keep_waiting(log: &[Arrived], tags: &mut Vec<u8>)
    requires { length tags.old.items ≡ length log.now }
    ensures items { tags.new.items ≡ waiting_items log.now tags.old.items }
    ensures room { vec_capacity tags.new ≡ vec_capacity tags.old }
{
    let mut to = 0;
    for from in 0..log.len() {
        if log[from].waits {
            tags[to] = tags[from];
            to += 1;
        }
    }
    tags.truncate(to);
}

/// The requests that have arrived at a channel, by age. A request that is served keeps its place, so that no other one
/// moves, until `renumber` moves those that wait to the front.
#[derive(Drop)]
pub struct RequestLog {
    /// How many requests there are places for.
    places: usize,
    log: Vec<Arrived>,
    /// For each request a byte that a search for a bank's requests looks for.
    tags: Vec<u8>,
    /// From each request to the next one of its bank and access.
    chains: Chains,
    /// How many requests wait that are blocked by an older one of their line.
    blocked: usize,
    /// How many requests that wait are for the lines of each counter. There are so many counters that few count two
    /// lines.
    lines: Vec<u16>,
    /// The highest counter by line.
    mask: usize,
    /// For some counters, by their number modulo `RECENT`, the place of the request that arrived last for a line of
    /// theirs, where no request has moved since.
    recent: Vec<u16>,
    /// How many requests that wait are for the rows of each counter, to write or to read.
    rows: Vec<u16>,
    /// The highest counter by row.
    row_mask: usize,
}

impl Model for RequestLog {
    ghost use Rattle.queue.specs.Log.{LogView};
    ghost use Rattle.queue.specs.RequestLogKept.{AreTagged};

    ghost Value = { LogView };

    ghost view = { λ l. record { places = l.places; log = l.log.items } };

    ghost invariant = { AreTagged };
}

impl RequestLog {
    ghost use Rattle.std.specs.Prelude.{true, false, [], IfOk, IfSome};
    ghost use Rattle.queue.specs.Log.{waiting, waiting_requests, with_arrival, served_at, activated_at, waits_at, eligible_column};
    ghost use Rattle.queue.specs.Log.{is_eligible_at, marks_once_served};
    ghost use Rattle.sim_base.specs.Scheduling.{asks_for_line};
    ghost use Rattle.queue.specs.Columns.{tag_column, NoneAsksForRow};
    ghost use Rattle.queue.specs.Chains.{IsNextAlike};

    /// A log with no requests, and with `places` places for them, of which seldom more than `likely` wait
    /// at a time. Only this call allocates memory.
    pub fn with_places(alloc: Global, places: usize, likely: usize) -> Result<Self, AllocError>
        requires { places < 2 ^ 16 - 1 }
        ensures { IfOk result (λ log. log ≡ record { places = places; log = [] }) }
    {
        let (lines, mask) = counters(alloc, likely)?;
        let recent = vec![in alloc; 0; RECENT]?;
        let (rows, row_mask) = counters(alloc, likely.min(ROOM_OF_ROWS))?;
        Ok(RequestLog {
            places,
            log: Vec::with_capacity(alloc, places)?,
            tags: Vec::with_capacity(alloc, places)?,
            chains: Chains::with_places(alloc, places)?,
            blocked: 0,
            lines,
            mask,
            recent,
            rows,
            row_mask,
        })
    }

    /// The requests that have arrived, by age.
    #[inline(always)]
    pub fn log(&self) -> &[Arrived]
        ensures log { result.now ≡ self.now.log }
        ensures short { length result.now < 2 ^ 16 - 1 }
    {
        &self.log
    }

    /// How many requests have arrived.
    #[inline(always)]
    pub fn len(&self) -> usize
        ensures value { result ≡ length self.now.log }
        ensures short { result < 2 ^ 16 - 1 }
    {
        self.log.len()
    }

    /// The tag of each request, by age, which says in one byte what a search for a bank asks for: of one that waits,
    /// bit 7 is 1 where it may be served, bit 6 where it is a write, and bits 0 to 5 have the number of its bank modulo
    /// 64; one that was served has 127.
    #[inline(always)]
    pub fn tags(&self) -> &[u8]
        ensures { result.now ≡ tag_column self.now.log }
    {
        &self.tags
    }

    /// The place of the next request, of those that wait and those that were served, that is of the same access as the
    /// request at a place and of its bank, or of one with the same number modulo 64; none, where there is none.
    #[inline(always)]
    pub(crate) fn next_alike(&self, place: usize) -> Option<usize>
        requires { place < length self.now.log }
        ensures { IsNextAlike self.now.log place result }
    {
        match self.chains.behind[place].checked_sub(1) {
            Some(next) => Some(usize::from(next)),
            None => None,
        }
    }

    /// Whether the request at a place waits, with no older one waiting for the same line.
    #[inline(always)]
    pub fn is_eligible(&self, place: usize) -> bool
        requires { place < length self.now.log }
        ensures { result ≡ is_eligible_at self.now.log place }
    {
        128 <= self.tags[place]
    }

    /// Whether some request that waits may ask for a row of a bank, to write or to read: false only where none does.
    #[inline(always)]
    pub fn may_ask(&self, bank: usize, access: Access, row: u32) -> bool
        ensures { result ≡ false → NoneAsksForRow bank access row self.now.log }
    {
        self.rows[row_counter(bank, access, row, self.row_mask)] != 0
    }

    /// Whether some request that waits may ask for the line of a place: false only where none does.
    #[inline(always)]
    fn may_ask_for_line(&self, place: Place) -> bool
        ensures { result ≡ false → asks_for_line place (waiting_requests self.now.log) ≡ false }
    {
        let bank = bank_number(place);
        self.lines[line_counter(place, self.mask)] != 0
            && (self.may_ask(bank, Access::Read, place.row)
                || self.may_ask(bank, Access::Write, place.row))
    }

    /// Whether the request that arrived last for the counter of a line waits, and for this line: true only where a
    /// request does.
    #[inline(always)]
    fn is_recent(&self, place: Place) -> bool
        ensures { result ≡ true → asks_for_line place (waiting_requests self.now.log) ≡ true }
    {
        let Some(last) = self.recent.get(line_counter(place, self.mask) % RECENT) else {
            return false;
        };
        let last = usize::from(*last);
        last < self.log.len() && is_for(place, self.log[last])
    }

    /// Whether a request that waits asks for the line of a place, by a search. The oldest that does may be served.
    #[inline(always)]
    fn is_line_found(&self, place: Place) -> bool
        ensures { result ≡ asks_for_line place (waiting_requests self.now.log) }
    {
        next_for_line(true, place, 0, &self.log, &self.tags).is_some()
    }

    /// Whether a request that waits asks for the line of a place.
    #[inline(always)]
    fn is_line_asked(&self, place: Place) -> bool
        ensures { result ≡ asks_for_line place (waiting_requests self.now.log) }
    {
        self.may_ask_for_line(place) && (self.is_recent(place) || self.is_line_found(place))
    }

    /// How many places are left.
    #[inline(always)]
    pub fn free(&self) -> usize
        ensures { length self.now.log + result ≡ self.now.places }
    {
        self.places - self.log.len()
    }

    /// Takes in a request that is younger than all that have arrived.
    #[inline(always)]
    pub fn arrive(&mut self, request: Request)
        requires { length self.old.log < self.old.places }
        ensures { self.new ≡ record self.old { log = with_arrival self.old.log request } }
    {
        let place = self.log.len();
        let asked = self.is_line_asked(request.place);
        let line = line_counter(request.place, self.mask);
        let alike = self.lines[line];
        self.tags.push_reserved(tag_of(!asked, request));
        self.chains.join(class_of(request));
        self.log.push_reserved(Arrived {
            request,
            waits: true,
            activated: false,
        });
        self.lines[line] = alike + 1;
        set_recent(&mut self.recent, line % RECENT, place);
        let row = row_counter_of(request, self.row_mask);
        let others = self.rows[row];
        self.rows[row] = others + 1;
        self.blocked += usize::from(asked);
    }

    /// Serves the request at a place, which no longer waits then. Returns the place of the next request for its line,
    /// if that was blocked by this one and may be served now.
    #[inline(always)]
    pub fn serve(&mut self, place: usize) -> Option<usize>
        requires within { place < length self.old.log }
        requires waits { waits_at self.old.log place ≡ true }
        ensures log { self.new ≡ record self.old { log = served_at self.old.log place } }
        ensures marks { eligible_column self.new.log ≡ marks_once_served self.old.log place result }
        ensures next { IfSome result (λ next. next < length self.new.log) }
        ensures newly { IfSome result (λ next. is_eligible_at self.old.log next ≡ false) }
    {
        let was_first = self.is_eligible(place);
        let request = self.log[place].request;
        self.log[place].waits = false;
        self.tags[place] = SERVED;
        let line = line_counter(request.place, self.mask);
        let alike = self.lines[line] - 1;
        self.lines[line] = alike;
        let row = row_counter_of(request, self.row_mask);
        let others = self.rows[row] - 1;
        self.rows[row] = others;
        if !was_first {
            self.blocked -= 1;
            return None;
        }
        if self.blocked == 0 || alike == 0 {
            return None;
        }
        let next = next_for_line(false, request.place, place + 1, &self.log, &self.tags)?;
        self.tags[next] = tag_of(true, self.log[next].request);
        self.blocked -= 1;
        Some(next)
    }

    /// Notes that an ACT was issued in the name of the request at a place.
    #[inline(always)]
    pub fn activate(&mut self, place: usize)
        requires { place < length self.old.log }
        ensures { self.new ≡ record self.old { log = activated_at self.old.log place } }
    {
        self.log[place].activated = true;
    }

    /// Moves the requests that wait to the front, in their order; the requests that were served lose their places.
    #[inline(never)]
    pub fn renumber(&mut self)
        ensures { self.new ≡ record self.old { log = waiting self.old.log } }
    {
        // most of those that were served stand before all that wait
        let served = served_in_front(&self.log);
        drop_first(&mut self.log, served);
        drop_first(&mut self.tags, served);
        keep_waiting(&self.log, &mut self.tags);
        self.log.retain(|arrived| arrived.waits);
        self.chains.renew(&self.log);
    }

    /// The requests that wait, by age.
    pub fn waiting_requests(&self, alloc: Global) -> Result<Vec<Request>, AllocError>
        ensures { IfOk result (λ requests. requests.items ≡ waiting_requests self.now.log) }
    {
        let mut requests = Vec::new(alloc);
        for arrived in &self.log {
            if arrived.waits {
                requests.push(arrived.request)?;
            }
        }
        Ok(requests)
    }
}
