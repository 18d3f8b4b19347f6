//! The candidates of one bank.

ghost use Rattle.std.specs.Prelude.{◌≡◌, ◌<◌};
ghost use Rattle.sim_base.specs.Rules.{is_row};
ghost use Rattle.queue.specs.Candidates.{access_number};

use crate::request_log::words::write_bit;
use sim_base::message::Access;

/// The first requests of a bank that may be served, to read or to write: their places in the log.
#[derive(Clone, Copy)]
pub struct AccessCandidates {
    /// The first request that may be served.
    pub oldest: Option<usize>,
    /// The first request that may be served and asks for the row that is open in the bank.
    pub hit: Option<usize>,
}

/// The candidates of a bank, and the row that is open in it.
#[derive(Clone, Copy)]
pub struct CandidatesOfBank {
    pub row: Option<u32>,
    pub reads: AccessCandidates,
    pub writes: AccessCandidates,
}

/// The number of a bank and an access: twice the number of the bank, plus one for a write.
#[inline(always)]
pub(crate) fn access_number(bank: usize, access: Access) -> usize
    requires { bank < 64 }
    ensures { result ≡ access_number bank access }
{
    bank * 2 + write_bit(access)
}

/// Whether a row is the open one.
#[inline(always)]
pub(crate) fn is_open(open_row: Option<u32>, row: u32) -> bool
    ensures { result ≡ is_row row open_row }
{
    match open_row {
        Some(open_row) => row == open_row,
        None => false,
    }
}
