//! Which requests wait for a line, and counters of the requests for a line, or for a row.

ghost use Rattle.std.specs.Prelude.{◌≡◌, ◌<◌, ◌^◌, [], IfOk, length};
ghost use Rattle.queue.specs.Log.{is_for};
ghost use Rattle.queue.specs.Columns.{counter_of_line, counter_of_row, AreCounted};
ghost use Rattle.queue.specs.Lines.{IsFirstTagged};

use crate::request_log::Arrived;
use crate::request_log::words::{bank_number, tag_word};
use memchr::memchr2;
use sim_base::message::Access;
use sim_base::place::Place;
use std::alloc::{AllocError, Global};

/// Whether a request waits for the line of a place.
#[inline(always)]
pub(crate) fn is_for(place: Place, arrived: Arrived) -> bool
    ensures { result ≡ is_for place arrived }
{
    arrived.waits && arrived.request.place.is_line(place)
}

/// The place of the first request from a place on that waits for a line, of those that may be served if `eligible`, and
/// otherwise of those that may not. The search is for their tags, which most other requests do not have.
#[inline(never)]
pub(crate) fn next_for_line(
    eligible: bool,
    place: Place,
    from: usize,
    log: &[Arrived],
    tags: &[u8],
) -> Option<usize>
    requires { length tags.now ≡ length log.now }
    ensures { IsFirstTagged eligible place log.now tags.now from result }
{
    let bank = bank_number(place) as u64;
    let read = tag_word(eligible, Access::Read, bank);
    let write = tag_word(eligible, Access::Write, bank);
    let mut at = from;
    while at < tags.len() {
        let Some(next) = memchr2(read, write, &tags[at..]) else {
            return None;
        };
        at += next;
        if is_for(place, log[at]) {
            return Some(at);
        }
        at += 1;
    }
    None
}

/// There are 16 counters for each request that is likely to wait, or 4 above this number of requests.
const MANY: usize = 4_096;

/// Counters that count nothing, for `likely` requests at once, and the highest of them: a power of two of them, so that
/// few requests share one, and not more than that, so that they stay in the caches.
pub(crate) fn counters(alloc: Global, likely: usize) -> Result<(Vec<u16>, usize), AllocError>
    ensures masked { IfOk result (λ made. made.1 < length made.0.items) }
    ensures lines { IfOk result (λ made. AreCounted (counter_of_line made.1) made.0.items []) }
    ensures rows { IfOk result (λ made. AreCounted (counter_of_row made.1) made.0.items []) }
{
    let wanted = if likely <= MANY {
        likely * 16
    } else {
        likely.min(1 << 20) * 4
    };
    let mut mask = 255;
    while mask < wanted {
        mask = mask * 2 + 1;
    }
    Ok((vec![in alloc; 0; mask + 1]?, mask))
}
