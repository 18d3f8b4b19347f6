//! What a bank did.

use sim_base::place::BankId;

/// A bank, and its commands in a run.
#[derive(Clone, Copy)]
pub struct BankCounts {
    pub bank: BankId,
    pub acts: u64,
    pub reads: u64,
    pub writes: u64,
    /// PREs of the bank, and PREAs of its rank.
    pub precharges: u64,
    /// PREs of the bank: each was issued for a request that needs another row than the open one.
    pub conflicts: u64,
    /// RDs and WRs of the bank for whose request it had no ACT.
    pub hits: u64,
}
