//! Searches for the first request of a bank and an access.

ghost use Rattle.std.specs.Prelude.{◌≡◌, ◌+◌, ◌-◌, ◌<◌, ◌^◌, true, false, length, Some, IfSome};
ghost use Rattle.queue.specs.Candidates.{asks_at, asks_row, wants, HasFewBanks, NonePasses};
ghost use Rattle.queue.specs.Moves.{IsFirstFrom, IsFirstHit};

use crate::request_log::RequestLog;
use crate::request_log::words::{bank_number, tag_word};
use memchr::memchr;
use sim_base::message::{Access, Request};

/// Whether a request asks for a row, if one is given.
#[inline(always)]
fn asks_row(request: &Request, row: Option<u32>) -> bool
    ensures { result ≡ asks_row row request.now }
{
    match row {
        Some(row) => request.place.row == row,
        None => true,
    }
}

/// Whether a request is of a bank and an access, and asks for a row if one is given.
#[inline(always)]
fn is_wanted(request: &Request, bank: usize, access: Access, row: Option<u32>) -> bool
    ensures { result ≡ wants bank access row request.now }
{
    bank_number(request.place) == bank && request.access.is_access(access) && asks_row(request, row)
}

/// Whether some request that waits may be of a bank and an access, and ask for a row if one is given: false only where
/// no request that waits is and does.
#[inline(always)]
fn may_be_wanted(log: &RequestLog, bank: usize, access: Access, row: Option<u32>) -> bool
    ensures { result ≡ false → NonePasses (wants bank access row) log.now.log }
{
    match row {
        Some(row) => log.may_ask(bank, access, row),
        None => true,
    }
}

/// The first request from a place on that may be served, is of a bank and an access, and asks for a row if one is
/// given. Each such request has the tag that is searched for, and most others do not.
pub(crate) fn first_from(
    log: &RequestLog,
    from: usize,
    bank: usize,
    access: Access,
    row: Option<u32>,
) -> Option<usize>
    ensures first { IsFirstFrom (wants bank access row) log.now.log from result }
    ensures within { IfSome result (λ k. k < length log.now.log) }
{
    if !may_be_wanted(log, bank, access, row) {
        return None;
    }
    let arrived = log.log();
    let tags = log.tags();
    let tag = tag_word(true, access, bank as u64);
    let mut at = from;
    while at < tags.len() {
        let Some(next) = memchr(tag, &tags[at..]) else {
            return None;
        };
        at += next;
        if is_wanted(&arrived[at].request, bank, access, row) {
            return Some(at);
        }
        at += 1;
    }
    None
}

/// The first request behind a place that may be served, is of a bank and an access, and asks for a row if one is given;
/// the request at the place is of that bank and access, so that the search goes from each such request to the next. All
/// ask for the first 64 banks, of which the chains tell each from the others, so that a bank need not be compared.
#[inline(always)]
pub(crate) fn first_behind(
    log: &RequestLog,
    place: usize,
    bank: usize,
    access: Access,
    row: Option<u32>,
) -> Option<usize>
    requires { place < length log.now.log }
    ensures first { HasFewBanks log.now.log → asks_at bank access log.now.log place ≡ true
        → IsFirstFrom (wants bank access row) log.now.log (place + 1) result }
    ensures within { IfSome result (λ k. k < length log.now.log) }
{
    if !may_be_wanted(log, bank, access, row) {
        return None;
    }
    let mut alike = log.next_alike(place);
    while let Some(next) = alike {
        if log.is_eligible(next) && asks_row(&log.log()[next].request, row) {
            return Some(next);
        }
        alike = log.next_alike(next);
    }
    None
}

/// The first request of a bank, to write or to read, that may be served and asks for the open row, if one is open.
/// `oldest` is the first one that may be served, whatever row it asks for, if there is one: the result is this one or a
/// later one.
pub(crate) fn first_hit(
    log: &RequestLog,
    oldest: Option<usize>,
    bank: usize,
    access: Access,
    row: Option<u32>,
) -> Option<usize>
    ensures first { IsFirstHit log.now.log bank access row oldest result }
    ensures within { IfSome result (λ k. k < length log.now.log) }
{
    let (Some(row), Some(oldest)) = (row, oldest) else {
        return None;
    };
    let arrived = log.log();
    if oldest >= arrived.len() {
        return None;
    }
    if arrived[oldest].request.place.row == row {
        return Some(oldest);
    }
    first_behind(log, oldest, bank, access, Some(row))
}
