//! The words of a request beside the log.

ghost use Rattle.std.specs.Prelude.{◌≡◌, ◌<◌, ◌≤◌, ◌^◌};
ghost use Rattle.queue.specs.Marks.{write_bit};
ghost use Rattle.sim_base.specs.Counts.{one_if};
ghost use Rattle.queue.specs.Columns.{bank_number, tag_word, line_counter, row_counter};

use sim_base::message::Access;
use sim_base::place::Place;

/// The tag of a request that was served: no request that may be served has it.
pub(crate) const SERVED: u8 = 127;

/// The number of the bank of a place, whose row has 32 bits.
#[inline(always)]
pub fn bank_number(place: Place) -> usize
    ensures number { result ≡ bank_number place }
    ensures row { place.row < 2 ^ 32 }
    ensures small { result < 2 ^ 40 }
{
    (place.rank as usize * 4 + place.group as usize) * 4 + place.bank as usize
}

/// 1 for a write, 0 for a read.
#[inline(always)]
pub(crate) fn write_bit(access: Access) -> usize
    ensures value { result ≡ write_bit access }
    ensures small { result < 2 }
{
    match access {
        Access::Read => 0,
        Access::Write => 1,
    }
}

/// A tag of these parts: bit 7 says whether a request may be served, bit 6 whether it writes, and bits 0 to 5 have the
/// number of its bank modulo 64.
#[inline(always)]
pub fn tag_word(eligible: bool, access: Access, bank: u64) -> u8
    ensures { result ≡ tag_word eligible access bank }
{
    let flags = u64::from(eligible) * 2 + write_bit(access) as u64;
    (flags * 64 + bank % 64) as u8
}

/// One of the counters up to `mask`, the same for all places of a line.
#[tactic(auto, unfolding(crate::specs::Columns::line_counter))]
#[inline(always)]
pub(crate) fn line_counter(place: Place, mask: usize) -> usize
    ensures value { result ≡ line_counter mask place }
    ensures within { result ≤ mask }
{
    let bank = bank_number(place) as u64;
    let line = (u64::from(place.row) * 128 + bank) * 1024 + u64::from(place.column);
    (line.wrapping_mul(11_400_714_819_323_198_485) >> 32) as usize & mask
}

/// One of the counters up to `mask`, the same for all requests for a row of a bank, to write or to read: the requests
/// to write have the counter behind the one of the requests to read.
#[tactic(auto, unfolding(crate::specs::Columns::row_counter))]
#[inline(always)]
pub(crate) fn row_counter(bank: usize, access: Access, row: u32, mask: usize) -> usize
    ensures value { result ≡ row_counter mask bank access row }
    ensures within { result ≤ mask }
{
    let row = (u64::from(row) * 128).wrapping_add(bank as u64);
    let counter = (row.wrapping_mul(11_400_714_819_323_198_485) >> 32) + write_bit(access) as u64;
    counter as usize & mask
}
