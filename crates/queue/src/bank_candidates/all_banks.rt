//! The candidates of all banks.

ghost use Rattle.std.specs.Prelude.{◌≡◌, ℕ, ◌*◌, ◌≤◌, length, replicate, slice_index_or, None, is_some, IfOk};
ghost use Rattle.queue.specs.Sets.{is_in};

use crate::bank_candidates::candidate_words::{CandidateWords, Departure};
use crate::bank_candidates::entry::{AccessCandidates, access_number, is_open};
use crate::bank_candidates::sets::BankSet;
use crate::request_log::RequestLog;
use crate::request_log::words::bank_number;
use sim_base::message::{Access, Request};
use sim_base::place::BankId;
use std::alloc::{AllocError, Global};

/// The rows of banks that are all closed.
fn closed_rows(alloc: Global, banks: usize) -> Result<Vec<Option<u32>>, AllocError>
    ensures { IfOk result (λ rows. rows.items ≡ replicate banks None) }
{
    vec![in alloc; None; banks]
}

/// Of each bank of a channel, by number, the first requests that may be served, to read and to write, and the row that
/// is open.
#[derive(Drop)]
pub struct BankCandidates {
    /// The row that is open in each bank.
    rows: Vec<Option<u32>>,
    /// The banks in which a row is open.
    open_banks: BankSet,
    candidate_words: CandidateWords,
    /// Of each bank and access, by number, how many requests that wait ask for it.
    counts: Vec<u16>,
    ghost few: { length rows.items ≤ 64 },
    ghost open_are: { (bank : ℕ) → is_in open_banks bank ≡ is_some (slice_index_or rows.items bank None) },
    ghost all_words: { length candidate_words.words.items ≡ 4 * length rows.items },
    ghost all_counts: { length counts.items ≡ 2 * length rows.items },
}

impl BankCandidates {
    ghost use Rattle.std.specs.Prelude.{ℕ, ◌≡◌, ◌<◌, ◌≤◌, ◌-◌, ◌^◌, not, true, [], List, length, take, drop, All, Option, None, Some, is_some, IfOk, IfSome};
    ghost use Rattle.sim_base.specs.Access.{is_access};
    ghost use Rattle.sim_base.specs.Rules.{open_row};
    ghost use Rattle.sim_base.specs.declared.command.IssuedCommand.{IssuedCommand};
    ghost use Rattle.queue.specs.declared.request_log.Arrived.{Arrived};
    ghost use Rattle.queue.specs.Log.{waiting};
    ghost use Rattle.queue.specs.Columns.{bank_number};
    ghost use Rattle.queue.specs.Candidates.{first_place, bank_asked_at, rows_after};
    ghost use Rattle.sim_base.specs.Places.{number_of_bank};
    ghost use Rattle.queue.specs.Served.{IsServed};
    ghost use Rattle.queue.specs.Sets.{is_in};
    ghost use Rattle.queue.specs.Stands.{bank_count, candidates_to, oldest_of_bank, row_of_bank};
    ghost use Rattle.queue.specs.Stands.{StandsFor, StandsUpTo, TakesInArrival, with_row, closed_in, IsBankOf};

    /// The candidates of an empty log, for `banks` banks, which are all closed. Only this call allocates memory.
    pub fn with_room(alloc: Global, banks: usize) -> Result<Self, AllocError>
        requires { banks ≤ 64 }
        ensures banks { IfOk result (λ candidates. bank_count candidates ≡ banks) }
        ensures stands { IfOk result (λ candidates. StandsFor candidates [] (λ bank. None)) }
    {
        Ok(BankCandidates {
            rows: closed_rows(alloc, banks)?,
            counts: vec![in alloc; 0; 2 * banks]?,
            open_banks: BankSet::none(),
            candidate_words: CandidateWords::with_room(alloc, banks)?,
        })
    }

    /// The candidates of a bank to write, or to read.
    #[inline(always)]
    pub fn of_access(&self, bank: usize, access: Access) -> AccessCandidates
        requires { bank < bank_count self.now }
        ensures { result ≡ candidates_to self.now bank access }
    {
        self.candidate_words.of_access(bank, access)
    }

    /// The first request of a bank that may be served, to read or to write, where there is one.
    #[inline(always)]
    pub fn first(&self, bank: usize) -> usize
        requires bank { bank < bank_count self.now }
        requires some { is_some (oldest_of_bank self.now bank) ≡ true }
        ensures { Some result ≡ oldest_of_bank self.now bank }
    {
        self.candidate_words.first(bank)
    }

    /// The banks in which a row is open.
    #[inline(always)]
    pub fn open_banks(&self) -> BankSet
        ensures { (bank : ℕ) → bank < bank_count self.now
            → is_in result bank ≡ is_some (row_of_bank self.now bank) }
    {
        self.open_banks
    }

    /// The row that is open in a bank, if one is.
    #[inline(always)]
    pub fn open_row(&self, bank: BankId) -> Option<u32>
        requires { IsBankOf self.now bank }
        ensures { (log : List Arrived) (history : List IssuedCommand)
            → StandsFor self.now log (rows_after history) → result ≡ open_row bank history }
    {
        self.rows[bank.number()]
    }

    /// The banks for which a request to write, or to read, may be served.
    #[inline(always)]
    pub fn banks_with_candidate(&self, access: Access) -> BankSet
        ensures within { (bank : ℕ) → is_in result bank ≡ true → bank < bank_count self.now }
        ensures each { (bank : ℕ) → bank < bank_count self.now
            → is_in result bank ≡ is_some (candidates_to self.now bank access).oldest }
    {
        self.candidate_words.banks(access, false)
    }

    /// The banks whose open row an eligible request to write, or to read, asks for.
    #[inline(always)]
    pub fn hit(&self, access: Access) -> BankSet
        ensures within { (bank : ℕ) → is_in result bank ≡ true → bank < bank_count self.now }
        ensures each { (bank : ℕ) → bank < bank_count self.now
            → is_in result bank ≡ is_some (candidates_to self.now bank access).hit }
    {
        self.candidate_words.banks(access, true)
    }

    /// Whether some request to write, or to read, may be served.
    #[inline(always)]
    pub fn has_access(&self, access: Access) -> bool
        ensures { (log : List Arrived) (open_rows : ℕ → Option ℕ)
            → StandsFor self.now log open_rows
            → result ≡ is_some (first_place (λ r. is_access access r.access) log) }
    {
        !self.banks_with_candidate(access).is_empty()
    }

    /// Takes note of a request at a place after all others, which may be served or not.
    #[inline(always)]
    fn join(&mut self, request: &Request, place: usize, eligible: bool)
        requires bank { bank_number request.now.place < bank_count self.old }
        requires short { place < 2 ^ 16 - 1 }
        ensures banks { bank_count self.new ≡ bank_count self.old }
        ensures stands { TakesInArrival self.old self.new request.now place eligible }
    {
        let bank = bank_number(request.place);
        let number = access_number(bank, request.access);
        self.counts[number] = self.counts[number].saturating_add(1);
        if eligible {
            let hit = is_open(self.rows[bank], request.place.row);
            self.candidate_words.join(bank, request.access, place, hit);
        }
    }

    /// Takes note of the requests of a log from a place on, which have just arrived.
    #[inline(always)]
    pub fn on_arrival(&mut self, from: usize, log: &RequestLog)
        requires banks { All (λ a. bank_number a.request.place < bank_count self.old) log.now.log }
        requires waits { All (λ a. a.waits ≡ true) (drop from log.now.log) }
        ensures banks { bank_count self.new ≡ bank_count self.old }
        ensures stands { (open_rows : ℕ → Option ℕ)
            → StandsFor self.old (take from log.now.log) open_rows
            → StandsFor self.new log.now.log open_rows }
    {
        let arrived = log.log();
        for place in from..arrived.len() {
            self.join(&arrived[place].request, place, log.is_eligible(place));
        }
    }

    /// Takes note of a request that has been served.
    #[inline(always)]
    fn leave(&mut self, place: usize, log: &RequestLog)
        requires place { place < length log.now.log }
        requires bank { bank_asked_at log.now.log place < bank_count self.old }
        ensures banks { bank_count self.new ≡ bank_count self.old }
        ensures stands { (earlier : List Arrived) (unblocked : Option ℕ) (open_rows : ℕ → Option ℕ)
            → IsServed earlier place unblocked log.now.log
            → StandsFor self.old earlier open_rows
            → StandsUpTo self.new log.now.log unblocked open_rows }
    {
        let request = &log.log()[place].request;
        let bank = bank_number(request.place);
        let access = request.access;
        let number = access_number(bank, access);
        let left = self.counts[number].saturating_sub(1);
        self.counts[number] = left;
        let departure = Departure {
            place,
            bank,
            access,
            empty: left == 0,
        };
        self.candidate_words.leave(log, departure, self.rows[bank]);
    }

    /// Takes note of a request that may be served now that another one has been served.
    #[inline(always)]
    fn unblock(&mut self, next: usize, log: &RequestLog)
        requires next { next < length log.now.log }
        requires bank { bank_asked_at log.now.log next < bank_count self.old }
        ensures banks { bank_count self.new ≡ bank_count self.old }
        ensures stands { (open_rows : ℕ → Option ℕ)
            → StandsUpTo self.old log.now.log (Some next) open_rows
            → StandsFor self.new log.now.log open_rows }
    {
        let request = &log.log()[next].request;
        let bank = bank_number(request.place);
        let hit = is_open(self.rows[bank], request.place.row);
        self.candidate_words
            .unblock(bank, request.access, next, hit);
    }

    /// Takes note of a request that was served, and of the request that may be served since then, if there is one.
    #[inline(always)]
    pub fn on_service(&mut self, place: usize, unblocked: Option<usize>, log: &RequestLog)
        requires place { place < length log.now.log }
        requires unblocked { IfSome unblocked (λ next. next < length log.now.log) }
        requires banks { All (λ a. bank_number a.request.place < bank_count self.old) log.now.log }
        ensures banks { bank_count self.new ≡ bank_count self.old }
        ensures stands { (earlier : List Arrived) (open_rows : ℕ → Option ℕ)
            → IsServed earlier place unblocked log.now.log
            → StandsFor self.old earlier open_rows → StandsFor self.new log.now.log open_rows }
    {
        self.leave(place, log);
        if let Some(next) = unblocked {
            self.unblock(next, log);
        }
    }

    /// Looks for all candidates anew, once those that wait have moved to the front of the log.
    pub fn renew(&mut self, log: &RequestLog)
        ensures banks { bank_count self.new ≡ bank_count self.old }
        ensures stands { (earlier : List Arrived) (open_rows : ℕ → Option ℕ)
            → log.now.log ≡ waiting earlier
            → StandsFor self.old earlier open_rows → StandsFor self.new log.now.log open_rows }
    {
        prove!(log.len() < 65_535);
        for bank in 0..self.rows.len() {
            let row = self.rows[bank];
            self.candidate_words.renew(log, bank, Access::Read, row);
            self.candidate_words.renew(log, bank, Access::Write, row);
        }
    }

    /// Takes note of a row that has been opened in a bank.
    #[inline(always)]
    pub fn opened(&mut self, bank: BankId, row: u32, log: &RequestLog)
        requires { number_of_bank bank < bank_count self.old }
        ensures banks { bank_count self.new ≡ bank_count self.old }
        ensures stands { (open_rows : ℕ → Option ℕ)
            → StandsFor self.old log.now.log open_rows
            → StandsFor self.new log.now.log (with_row (number_of_bank bank) (Some row) open_rows) }
    {
        prove!(log.len() < 65_535);
        let number = bank.number();
        self.rows[number] = Some(row);
        self.open_banks = self.open_banks.with(number);
        self.candidate_words.open(number, Access::Read, row, log);
        self.candidate_words.open(number, Access::Write, row, log);
    }

    /// Takes note of a bank, by its number, that has been closed.
    #[inline(always)]
    fn close(&mut self, number: usize)
        requires { number < bank_count self.old }
        ensures banks { bank_count self.new ≡ bank_count self.old }
        ensures stands { (log : List Arrived) (open_rows : ℕ → Option ℕ)
            → StandsFor self.old log open_rows
            → StandsFor self.new log (with_row number None open_rows) }
    {
        self.rows[number] = None;
        self.open_banks = self.open_banks.without(number);
        self.candidate_words.close(number);
    }

    /// Takes note of a bank that has been closed.
    #[inline(always)]
    pub fn closed(&mut self, bank: BankId)
        requires { number_of_bank bank < bank_count self.old }
        ensures banks { bank_count self.new ≡ bank_count self.old }
        ensures stands { (log : List Arrived) (open_rows : ℕ → Option ℕ)
            → StandsFor self.old log open_rows
            → StandsFor self.new log (with_row (number_of_bank bank) None open_rows) }
    {
        self.close(bank.number());
    }

    /// Takes note of a rank whose banks have all been closed.
    #[inline(never)]
    pub fn closed_rank(&mut self, rank: u32)
        ensures banks { bank_count self.new ≡ bank_count self.old }
        ensures stands { (log : List Arrived) (open_rows : ℕ → Option ℕ)
            → StandsFor self.old log open_rows
            → StandsFor self.new log (closed_in rank open_rows) }
    {
        for number in 0..self.rows.len() {
            if number / 16 == rank as usize {
                self.close(number);
            }
        }
    }
}
