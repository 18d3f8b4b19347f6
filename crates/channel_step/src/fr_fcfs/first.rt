//! The offer that goes first of all banks.

ghost use Rattle.std.specs.Prelude.{◌≡◌, ◌<◌, ◌*◌, ◌-◌, ◌^◌, ℕ, true, ◌&&◌, List, Option, Some, IsTrue, length, is_some, IfSome};
ghost use Rattle.bank_ready.specs.Words.{names_bank, is_column_kind};
ghost use Rattle.bank_ready.specs.Stands.{rank_count};
ghost use Rattle.sim_base.specs.Earlier.{earlier};
ghost use Rattle.queue.specs.Sets.{is_in};
ghost use Rattle.queue.specs.Stands.{bank_count};
ghost use Rattle.channel_step.specs.FrFcfs.Requests.{AreInBanks, OfSameBanks, ForLogs};
ghost use Rattle.channel_step.specs.FrFcfs.Offers.{only, column_kind, if_allowed, oldest_of, hit_of, NeedsRow};
ghost use Rattle.channel_step.specs.FrFcfs.Offers.{hits_in, all_hits, hits_if, row_requests_in, all_row_requests, no_place};
ghost use Rattle.channel_step.specs.FrFcfs.Offers.{IsBestSoFar, StandsForNone, TakesHits, TakesRows, TakesRowsOf, IsFirstReady};
ghost use Rattle.channel_step.specs.FrFcfs.Offers.{ForCandidates};

use crate::fr_fcfs::accesses::Accesses;
use crate::fr_fcfs::offers::{Offer, improve, ready};
use bank_ready::banks::Banks;
use queue::Queue;
use queue::bank_candidates::{BankCandidates, BankSet};
use sim_base::command::Kind;
use sim_base::message::{Access, Cycle};

/// The kind of the column command for an access.
#[inline(always)]
fn column_kind(access: Access) -> Kind
    ensures kind { result ≡ column_kind access }
    ensures bank { IsTrue (names_bank result) }
    ensures column { IsTrue (is_column_kind result) }
{
    match access {
        Access::Read => Kind::Rd,
        Access::Write => Kind::Wr,
    }
}

/// The first of two places, if there is one.
#[inline(always)]
fn earlier(a: Option<usize>, b: Option<usize>) -> Option<usize>
    ensures { result ≡ earlier a b }
{
    match (a, b) {
        (Some(a), Some(b)) => Some(a.min(b)),
        (Some(a), None) => Some(a),
        (None, other) => other,
    }
}

/// A candidate, if its access goes.
#[inline(always)]
fn if_allowed(candidate: Option<usize>, allowed: bool) -> Option<usize>
    ensures { result ≡ if_allowed candidate allowed }
{
    if allowed { candidate } else { None }
}

/// These banks, if the access that is asked of them goes; otherwise none.
#[inline(always)]
fn banks_if(banks: BankSet, allowed: bool) -> BankSet
    ensures { (k : ℕ) → is_in result k ≡ (allowed && is_in banks k) }
{
    if allowed { banks } else { BankSet::none() }
}

/// The first request of a bank that may be served, of the accesses that go, where there is one.
#[inline(always)]
fn oldest(bank_candidates: &BankCandidates, bank: usize, accesses: Accesses) -> usize
    requires bank { bank < bank_count bank_candidates.now }
    requires some { is_some (oldest_of accesses bank_candidates.now bank) ≡ true }
    ensures { Some result ≡ oldest_of accesses bank_candidates.now bank }
{
    if accesses.reads && accesses.writes {
        return bank_candidates.first(bank);
    }
    let read = if_allowed(
        bank_candidates.of_access(bank, Access::Read).oldest,
        accesses.reads,
    );
    let write = if_allowed(
        bank_candidates.of_access(bank, Access::Write).oldest,
        accesses.writes,
    );
    match earlier(read, write) {
        Some(place) => place,
        None => unreachable!(),
    }
}

/// The banks for which a request of the accesses that go may be served.
#[inline(always)]
fn banks_with_candidate(bank_candidates: &BankCandidates, accesses: Accesses) -> BankSet
    ensures within { (bank : ℕ) → is_in result bank ≡ true → bank < bank_count bank_candidates.now }
    ensures each { (bank : ℕ) → bank < bank_count bank_candidates.now
        → is_in result bank ≡ is_some (oldest_of accesses bank_candidates.now bank) }
{
    let reads = banks_if(
        bank_candidates.banks_with_candidate(Access::Read),
        accesses.reads,
    );
    let writes = banks_if(
        bank_candidates.banks_with_candidate(Access::Write),
        accesses.writes,
    );
    reads.union(writes)
}

/// The banks whose open row a request of the accesses that go asks for.
#[inline(always)]
fn hit(bank_candidates: &BankCandidates, accesses: Accesses) -> BankSet
    ensures { (bank : ℕ) → bank < bank_count bank_candidates.now
        → is_in result bank ≡ is_some (hit_of accesses bank_candidates.now bank) }
{
    let reads = banks_if(bank_candidates.hit(Access::Read), accesses.reads);
    let writes = banks_if(bank_candidates.hit(Access::Write), accesses.writes);
    reads.union(writes)
}

/// What opens or closes rows from a cycle on, for the requests of the accesses that go: an ACT of closed banks, or a
/// PRE of open ones.
#[derive(Clone, Copy)]
struct RowCommands {
    kind: Kind,
    accesses: Accesses,
    now: Cycle,
}

/// The column commands of row hits from a cycle on: RDs, or WRs.
#[derive(Clone, Copy)]
struct ColumnCommands {
    access: Access,
    now: Cycle,
}

/// Takes what opens or closes the row of one more bank into the best offer so far. Some request of the accesses that go
/// asks for the bank, and none for its open row. The request is looked for only where the command may be issued soon
/// enough.
#[inline(always)]
fn with_row(
    best: &mut Offer,
    bank_candidates: &BankCandidates,
    banks: &Banks,
    bank: usize,
    commands: RowCommands,
)
    requires bank_candidates { bank < bank_count bank_candidates.now }
    requires banks { bank < 16 * rank_count banks.now }
    requires needed { NeedsRow commands bank_candidates.now bank }
    requires names_bank { IsTrue (names_bank commands.kind) }
    ensures { ForLogs banks.now bank_candidates.now (λ s history log.
        TakesRows log commands.now best.old best.new
        (row_requests_in s history log commands.accesses bank)) }
{
    let ready = ready(banks, bank, commands.kind);
    if best.cycle < ready {
        return;
    }
    let place = oldest(bank_candidates, bank, commands.accesses);
    improve(best, ready, false, place, commands.now);
}

/// Takes the row hit of one more bank into the best offer so far. It is looked for only where it may be issued soon
/// enough.
#[inline(always)]
fn with_hit(
    best: &mut Offer,
    bank_candidates: &BankCandidates,
    banks: &Banks,
    bank: usize,
    commands: ColumnCommands,
)
    requires bank_candidates { bank < bank_count bank_candidates.now }
    requires banks { bank < 16 * rank_count banks.now }
    ensures { ForLogs banks.now bank_candidates.now (λ s history log.
        TakesHits log commands.now best.old best.new
        (hits_in s history log (only commands.access) bank)) }
{
    let ready = ready(banks, bank, column_kind(commands.access));
    if best.cycle < ready {
        return;
    }
    if let Some(place) = bank_candidates.of_access(bank, commands.access).hit {
        improve(best, ready, true, place, commands.now);
    }
}

/// Takes what opens or closes rows into the best offer so far, in some banks, which requests of the accesses that go
/// ask for, but not for the open row. These banks were left out so far, beside others.
#[inline(always)]
fn with_rows_of(
    best: &mut Offer,
    bank_candidates: &BankCandidates,
    banks: &Banks,
    asked: BankSet,
    commands: RowCommands,
)
    requires same_banks { OfSameBanks bank_candidates.now banks.now }
    requires within { (bank : ℕ) → is_in asked bank ≡ true → bank < bank_count bank_candidates.now }
    requires needed { (bank : ℕ) → is_in asked bank ≡ true
        → NeedsRow commands bank_candidates.now bank }
    requires names_bank { IsTrue (names_bank commands.kind) }
    ensures { TakesRowsOf bank_candidates.now banks.now asked commands best.old best.new }
{
    let mut rest = asked;
    while let Some(bank) = rest.first() {
        with_row(best, bank_candidates, banks, bank, commands);
        rest = rest.without_first();
    }
}

/// Takes the ACTs of closed banks into the best offer so far. Requests of the accesses that go ask for these banks,
/// which were left out so far, beside others. The ACTs are left out where none may be issued by the cycle of the best
/// offer.
#[inline(always)]
fn with_acts(
    best: &mut Offer,
    bank_candidates: &BankCandidates,
    banks: &Banks,
    closed: BankSet,
    commands: RowCommands,
)
    requires same_banks { OfSameBanks bank_candidates.now banks.now }
    requires within { (bank : ℕ) → is_in closed bank ≡ true
        → bank < bank_count bank_candidates.now }
    requires needed { (bank : ℕ) → is_in closed bank ≡ true
        → NeedsRow commands bank_candidates.now bank }
    requires acts { commands.kind ≡ Kind.Act }
    ensures { TakesRowsOf bank_candidates.now banks.now closed commands best.old best.new }
{
    if best.cycle < banks.act_floor() {
        return;
    }
    with_rows_of(best, bank_candidates, banks, closed, commands);
}

/// Takes what opens or closes a row into the best offer so far, in all banks that are asked for. A row hit keeps its
/// bank from being closed.
#[inline(always)]
fn with_rows(
    best: &mut Offer,
    bank_candidates: &BankCandidates,
    accesses: Accesses,
    banks: &Banks,
    now: Cycle,
)
    requires { OfSameBanks bank_candidates.now banks.now }
    ensures { ForLogs banks.now bank_candidates.now (λ s history log. (hits : ℕ → Option ℕ)
        → IsBestSoFar (length log) now hits no_place best.old
        → IsBestSoFar (length log) now hits (all_row_requests s history log accesses) best.new) }
{
    let asked = banks_with_candidate(bank_candidates, accesses).minus(hit(
        bank_candidates,
        accesses,
    ));
    let closed = asked.minus(bank_candidates.open_banks());
    let opened = asked.minus(closed);
    let close = RowCommands {
        kind: Kind::Pre,
        accesses,
        now,
    };
    with_rows_of(best, bank_candidates, banks, opened, close);
    let activate = RowCommands {
        kind: Kind::Act,
        accesses,
        now,
    };
    with_acts(best, bank_candidates, banks, closed, activate);
}

/// Takes the row hits of one access into the best offer so far, in all banks.
#[inline(always)]
fn with_all_hits(
    best: &mut Offer,
    bank_candidates: &BankCandidates,
    banks: &Banks,
    commands: ColumnCommands,
)
    requires { OfSameBanks bank_candidates.now banks.now }
    ensures { ForLogs banks.now bank_candidates.now (λ s history log.
        TakesHits log commands.now best.old best.new
        (all_hits s history log (only commands.access))) }
{
    let mut rest = bank_candidates.hit(commands.access);
    while let Some(bank) = rest.first() {
        with_hit(best, bank_candidates, banks, bank, commands);
        rest = rest.without_first();
    }
}

/// Takes the row hits of one access into the best offer so far, if they go. They are left out where none may be issued
/// by the cycle of the best offer.
#[inline(always)]
fn with_hits(
    best: &mut Offer,
    bank_candidates: &BankCandidates,
    banks: &Banks,
    commands: ColumnCommands,
    goes: bool,
)
    requires { OfSameBanks bank_candidates.now banks.now }
    ensures { ForLogs banks.now bank_candidates.now (λ s history log.
        TakesHits log commands.now best.old best.new
        (hits_if goes s history log commands.access)) }
{
    if !goes {
        return;
    }
    if best.cycle < banks.column_floor(column_kind(commands.access)) {
        return;
    }
    with_all_hits(best, bank_candidates, banks, commands);
}

/// Takes the offers of all banks into the best one so far, which stands for none.
#[inline(always)]
fn with_banks(
    best: &mut Offer,
    bank_candidates: &BankCandidates,
    accesses: Accesses,
    banks: &Banks,
    now: Cycle,
)
    requires { OfSameBanks bank_candidates.now banks.now }
    ensures { ForLogs banks.now bank_candidates.now (λ s history log.
        StandsForNone (length log) now best.old → IsBestSoFar (length log) now
        (all_hits s history log accesses) (all_row_requests s history log accesses) best.new) }
{
    with_rows(best, bank_candidates, accesses, banks, now);
    let read = ColumnCommands {
        access: Access::Read,
        now,
    };
    with_hits(best, bank_candidates, banks, read, accesses.reads);
    let write = ColumnCommands {
        access: Access::Write,
        now,
    };
    with_hits(best, bank_candidates, banks, write, accesses.writes);
}

/// The offer that goes first of all banks, from now on, of the accesses that go.
#[inline(always)]
pub(crate) fn first_of(
    queue: &Queue,
    bank_candidates: &BankCandidates,
    accesses: Accesses,
    banks: &Banks,
    now: Cycle,
) -> Option<Offer>
    requires places { AreInBanks (rank_count banks.now) queue.now.log }
    requires banks { OfSameBanks bank_candidates.now banks.now }
    ensures within { IfSome result (λ o. o.place < length queue.now.log) }
    ensures short { IfSome result (λ o. o.place < 2 ^ 16 - 1) }
    ensures first { ForCandidates banks.now bank_candidates.now queue.now accesses (λ s history.
        IsFirstReady s history queue.now now result) }
{
    let room = queue.log().len();
    let mut best = Offer {
        cycle: Cycle::MAX,
        hit: false,
        place: room,
    };
    with_banks(&mut best, bank_candidates, accesses, banks, now);
    if best.place < room { Some(best) } else { None }
}
