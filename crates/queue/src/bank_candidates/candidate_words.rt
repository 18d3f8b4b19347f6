//! The words that hold the places of the candidates of all banks.

ghost use Rattle.std.specs.Prelude.{◌≡◌, ◌≢◌, ◌^◌, ◌-◌, ◌<◌, ◌≤◌, true, false, length, Some, is_some};
ghost use Rattle.sim_base.specs.Earlier.{earlier};
ghost use Rattle.queue.specs.Words.{candidate_of, word_of, IsShort, set_number, Agree};

use crate::bank_candidates::entry::AccessCandidates;
use crate::bank_candidates::search::{first_behind, first_from, first_hit};
use crate::bank_candidates::sets::BankSet;
use crate::request_log::RequestLog;
use crate::request_log::words::write_bit;
use sim_base::message::Access;
use std::alloc::{AllocError, Global};

/// The places of the candidates of all banks, as words: of each bank and access the first request that may be served, and the
/// first of these that asks for the open row.
#[derive(Drop)]
pub(crate) struct CandidateWords {
    /// Four words per bank: the oldest and the first hit of its reads, and of its writes. Each word is one more than a
    /// place, or 0 where there is none.
    words: Vec<u16>,
    /// For each of the four words of a bank, the banks whose word is not 0.
    sets: [BankSet; 4],
    ghost few: { length words.items ≤ 256 },
    ghost four: { length sets ≡ 4 },
    ghost agree: { Agree words.items sets },
}

/// The place that a word tells.
#[inline(always)]
fn candidate_of(word: u16) -> Option<usize>
    ensures candidate { result ≡ candidate_of word }
    ensures short { IsShort result }
{
    if word == 0 {
        None
    } else {
        Some(word as usize - 1)
    }
}

/// The first of the places that two words tell, at least one of which tells a place.
#[inline(always)]
fn first_of(read: u16, write: u16) -> usize
    requires { is_some (earlier (candidate_of read) (candidate_of write)) ≡ true }
    ensures { Some result ≡ earlier (candidate_of read) (candidate_of write) }
{
    read.wrapping_sub(1).min(write.wrapping_sub(1)) as usize
}

/// The word of a place.
#[inline(always)]
fn word_of(candidate: Option<usize>) -> u16
    requires { IsShort candidate }
    ensures { result ≡ word_of candidate }
{
    match candidate {
        Some(place) => place as u16 + 1,
        None => 0,
    }
}

/// Whether a word tells a place.
#[inline(always)]
fn tells(word: u16, place: usize) -> bool
    requires { place < 2 ^ 16 - 1 }
    ensures there { result ≡ true → candidate_of word ≡ Some place }
    ensures elsewhere { result ≡ false → candidate_of word ≢ Some place }
{
    word as usize == place + 1
}

/// The first of two places, of which one may not be there.
#[inline(always)]
fn earlier_of(candidate: Option<usize>, place: usize) -> Option<usize>
    requires candidate { IsShort candidate }
    requires place { place < 2 ^ 16 - 1 }
    ensures first { result ≡ earlier candidate (Some place) }
    ensures short { IsShort result }
{
    match candidate {
        Some(other) => Some(other.min(place)),
        None => Some(place),
    }
}

/// Which word of a bank, and which set.
#[inline(always)]
fn set_number(access: Access, hit: bool) -> usize
    ensures value { result ≡ set_number access hit }
    ensures few { result < 4 }
{
    2 * write_bit(access) + usize::from(hit)
}

/// What a bank has where none of its requests to write, or to read, may be served.
const NO_CANDIDATES: AccessCandidates = AccessCandidates {
    oldest: None,
    hit: None,
};

/// A request of a bank and an access that has been served.
#[derive(Clone, Copy)]
pub(crate) struct Departure {
    pub(crate) place: usize,
    pub(crate) bank: usize,
    pub(crate) access: Access,
    /// Whether it is known that no other request of the bank and the access waits.
    pub(crate) empty: bool,
}

impl CandidateWords {
    ghost use Rattle.std.specs.Prelude.{ℕ, ◌≡◌, ◌≢◌, ◌+◌, ◌*◌, ◌<◌, ◌≤◌, ◌^◌, ◌-◌, true, false, not, length, Option, Some, is_some, IfOk};
    ghost use Rattle.queue.specs.Sets.{is_in};
    ghost use Rattle.queue.specs.Candidates.{AreFirst, HasFewBanks};
    ghost use Rattle.queue.specs.Moves.{IsFirstFrom};
    ghost use Rattle.queue.specs.Changes.{HasWordsOf, candidate_at, candidates_at, first_at, HasNoCandidate};
    ghost use Rattle.queue.specs.Changes.{SameRoom, SameCandidate, SameOthers, SameOtherBanks};
    ghost use Rattle.queue.specs.Changes.{HasNewest, HasTakenIn, IsClosed};
    ghost use Rattle.queue.specs.Served.{HasDeparted, candidate_for, is_asked_like, wants_like};

    /// The places of the candidates of an empty log.
    pub(crate) fn with_room(alloc: Global, banks: usize) -> Result<Self, AllocError>
        requires { banks ≤ 64 }
        ensures room { IfOk result (λ places. length places.words.items ≡ 4 * banks) }
        ensures none { IfOk result HasNoCandidate }
    {
        Ok(CandidateWords {
            words: vec![in alloc; 0; 4 * banks]?,
            sets: [BankSet::none(); 4],
        })
    }

    /// A candidate of a bank to write, or to read: the first hit, or the oldest.
    #[inline(always)]
    pub(crate) fn candidate(&self, bank: usize, access: Access, hit: bool) -> Option<usize>
        requires { HasWordsOf self.now bank }
        ensures candidate { result ≡ candidate_at self.now bank access hit }
        ensures short { IsShort result }
    {
        candidate_of(self.words[4 * bank + set_number(access, hit)])
    }

    /// The candidates of a bank to write, or to read.
    #[inline(always)]
    pub(crate) fn of_access(&self, bank: usize, access: Access) -> AccessCandidates
        requires { HasWordsOf self.now bank }
        ensures candidates { result ≡ candidates_at self.now bank access }
        ensures oldest { IsShort result.oldest }
        ensures hit { IsShort result.hit }
    {
        AccessCandidates {
            oldest: self.candidate(bank, access, false),
            hit: self.candidate(bank, access, true),
        }
    }

    /// The first request of a bank that may be served, to read or to write, where there is one.
    #[inline(always)]
    pub(crate) fn first(&self, bank: usize) -> usize
        requires bank { HasWordsOf self.now bank }
        requires some { is_some (first_at self.now bank) ≡ true }
        ensures { Some result ≡ first_at self.now bank }
    {
        first_of(
            self.words[4 * bank + set_number(Access::Read, false)],
            self.words[4 * bank + set_number(Access::Write, false)],
        )
    }

    /// The banks with a candidate: the first hit or the oldest, to write or to read.
    #[inline(always)]
    pub(crate) fn banks(&self, access: Access, hit: bool) -> BankSet
        ensures { (bank : ℕ) → is_in result bank ≡ is_some (candidate_at self.now bank access hit) }
    {
        self.sets[set_number(access, hit)]
    }

    /// Writes a candidate of a bank.
    #[inline(always)]
    pub(crate) fn set(&mut self, bank: usize, access: Access, hit: bool, candidate: Option<usize>)
        requires bank { HasWordsOf self.old bank }
        requires short { IsShort candidate }
        ensures room { SameRoom self.old self.new }
        ensures same { candidate_at self.new bank access hit ≡ candidate }
        ensures beside { SameCandidate self.old self.new bank access (not hit) }
        ensures others { SameOthers self.old self.new bank access }
    {
        let number = set_number(access, hit);
        self.words[4 * bank + number] = word_of(candidate);
        let set = self.sets[number];
        self.sets[number] = if candidate.is_some() {
            set.with(bank)
        } else {
            set.without(bank)
        };
    }

    /// Writes both candidates of a bank to write, or to read.
    #[inline(always)]
    fn set_both(&mut self, bank: usize, access: Access, candidates: AccessCandidates)
        requires bank { HasWordsOf self.old bank }
        requires oldest { IsShort candidates.oldest }
        requires hit { IsShort candidates.hit }
        ensures room { SameRoom self.old self.new }
        ensures same { candidates_at self.new bank access ≡ candidates }
        ensures others { SameOthers self.old self.new bank access }
    {
        self.set(bank, access, false, candidates.oldest);
        self.set(bank, access, true, candidates.hit);
    }

    /// Takes note of a request after all others, which may be served and asks for the open row or not.
    #[inline(always)]
    pub(crate) fn join(&mut self, bank: usize, access: Access, place: usize, hit: bool)
        requires bank { HasWordsOf self.old bank }
        requires short { place < 2 ^ 16 - 1 }
        ensures room { SameRoom self.old self.new }
        ensures joined { HasNewest self.old self.new bank access place hit }
        ensures others { SameOthers self.old self.new bank access }
    {
        if self.candidate(bank, access, false).is_none() {
            self.set(bank, access, false, Some(place));
        }
        if hit && self.candidate(bank, access, true).is_none() {
            self.set(bank, access, true, Some(place));
        }
    }

    /// Takes note that no row is open in a bank.
    #[inline(always)]
    pub(crate) fn close(&mut self, bank: usize)
        requires { HasWordsOf self.old bank }
        ensures room { SameRoom self.old self.new }
        ensures own { IsClosed self.old self.new bank }
        ensures others { SameOtherBanks self.old self.new bank }
    {
        self.set(bank, Access::Read, true, None);
        self.set(bank, Access::Write, true, None);
    }

    /// Whether a candidate of a bank is the request at a place.
    #[inline(always)]
    pub(crate) fn is_at(&self, bank: usize, access: Access, hit: bool, place: usize) -> bool
        requires bank { HasWordsOf self.now bank }
        requires short { place < 2 ^ 16 - 1 }
        ensures there { result ≡ true → candidate_at self.now bank access hit ≡ Some place }
        ensures elsewhere { result ≡ false → candidate_at self.now bank access hit ≢ Some place }
    {
        tells(self.words[4 * bank + set_number(access, hit)], place)
    }

    /// Takes note of a row that is open in a bank, for its requests to write, or to read.
    #[inline(always)]
    pub(crate) fn open(&mut self, bank: usize, access: Access, row: u32, log: &RequestLog)
        requires bank { HasWordsOf self.old bank }
        requires log { length log.now.log < 2 ^ 16 - 1 }
        ensures room { SameRoom self.old self.new }
        ensures own { (old : Option ℕ) → HasFewBanks log.now.log
            → AreFirst log.now.log bank access old (candidates_at self.old bank access)
            → AreFirst log.now.log bank access (Some row) (candidates_at self.new bank access) }
        ensures others { SameOthers self.old self.new bank access }
    {
        let oldest = self.candidate(bank, access, false);
        let hit = first_hit(log, oldest, bank, access, Some(row));
        self.set(bank, access, true, hit);
    }

    /// Looks for the next candidate, behind the request that was served, if that was the candidate: the next one of its
    /// bank and access, and for a row if one is given.
    #[inline(always)]
    fn replace(&mut self, log: &RequestLog, departure: Departure, hit: bool, row: Option<u32>)
        requires bank { HasWordsOf self.old departure.bank }
        requires place { departure.place < length log.now.log }
        requires log { length log.now.log < 2 ^ 16 - 1 }
        ensures room { SameRoom self.old self.new }
        ensures kept { candidate_for self.old departure hit ≢ Some departure.place
            → SameCandidate self.old self.new departure.bank departure.access hit }
        ensures found { candidate_for self.old departure hit ≡ Some departure.place
            → HasFewBanks log.now.log → is_asked_like log.now.log departure ≡ true
            → IsFirstFrom (wants_like departure row) log.now.log (departure.place + 1)
            (candidate_for self.new departure hit) }
        ensures beside { SameCandidate self.old self.new departure.bank departure.access (not hit) }
        ensures others { SameOthers self.old self.new departure.bank departure.access }
    {
        let Departure {
            place,
            bank,
            access,
            ..
        } = departure;
        if self.is_at(bank, access, hit, place) {
            let next = first_behind(log, place, bank, access, row);
            self.set(bank, access, hit, next);
        }
    }

    /// Takes note of a request that has been served.
    #[inline(always)]
    pub(crate) fn leave(&mut self, log: &RequestLog, departure: Departure, row: Option<u32>)
        requires bank { HasWordsOf self.old departure.bank }
        requires place { departure.place < length log.now.log }
        requires log { length log.now.log < 2 ^ 16 - 1 }
        ensures room { SameRoom self.old self.new }
        ensures own { HasDeparted self.old self.new log.now.log departure row }
        ensures others { SameOthers self.old self.new departure.bank departure.access }
    {
        let Departure {
            place,
            bank,
            access,
            empty,
        } = departure;
        if empty {
            self.set_both(bank, access, NO_CANDIDATES);
            return;
        }
        if self.is_at(bank, access, false, place) && self.is_at(bank, access, true, place) {
            let oldest = first_behind(log, place, bank, access, None);
            let hit = first_hit(log, oldest, bank, access, row);
            self.set_both(bank, access, AccessCandidates { oldest, hit });
            return;
        }
        self.replace(log, departure, false, None);
        self.replace(log, departure, true, row);
    }

    /// Takes note of a request that may be served now, and asks for the open row or not.
    pub(crate) fn unblock(&mut self, bank: usize, access: Access, place: usize, hit: bool)
        requires bank { HasWordsOf self.old bank }
        requires short { place < 2 ^ 16 - 1 }
        ensures room { SameRoom self.old self.new }
        ensures taken { HasTakenIn self.old self.new bank access place hit }
        ensures others { SameOthers self.old self.new bank access }
    {
        let oldest = earlier_of(self.candidate(bank, access, false), place);
        self.set(bank, access, false, oldest);
        if hit {
            let first = earlier_of(self.candidate(bank, access, true), place);
            self.set(bank, access, true, first);
        }
    }

    /// Looks for the candidates of a bank to write, or to read, in the whole log.
    pub(crate) fn renew(&mut self, log: &RequestLog, bank: usize, access: Access, row: Option<u32>)
        requires bank { HasWordsOf self.old bank }
        requires log { length log.now.log < 2 ^ 16 - 1 }
        ensures room { SameRoom self.old self.new }
        ensures own { HasFewBanks log.now.log
            → AreFirst log.now.log bank access row (candidates_at self.new bank access) }
        ensures others { SameOthers self.old self.new bank access }
    {
        let oldest = first_from(log, 0, bank, access, None);
        let hit = first_hit(log, oldest, bank, access, row);
        self.set_both(bank, access, AccessCandidates { oldest, hit });
    }
}
