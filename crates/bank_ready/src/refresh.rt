//! The refreshes that are due for the ranks of a channel.

ghost use Rattle.std.specs.Prelude.{◌≡◌, ◌↔◌, ◌+◌, ◌*◌, ◌<◌, ◌≤◌, ◌^◌, ◌++◌, ℕ, List, [], ◌∷◌, IsTrue, IsNone, IfSome, length, slice_index, is_some};
ghost use Rattle.std.specs.Int.{is_power_of_two};
ghost use Rattle.sim_base.specs.Keys.{Within};
ghost use Rattle.sim_base.specs.Scheduling.{due, lowest_due};
ghost use Rattle.sim_base.specs.declared.config.Config.{Config};
ghost use Rattle.sim_base.specs.declared.command.Command.TheVariants.{Ref};
ghost use Rattle.sim_base.specs.declared.command.IssuedCommand.{IssuedCommand};
ghost use Rattle.bank_ready.specs.Refreshes.{RefreshCounts, never_refreshed, refreshed, owed, lowest_owed};
ghost use Rattle.bank_ready.specs.Refreshes.{IsFirstDue, IsDueFrom, StandsFor};

use sim_base::message::Cycle;
use std::marker::Model;

/// Counts the refreshes of each rank of a channel.
#[derive(Drop)]
pub struct Refresh {
    /// Cycles from one refresh of a rank to the next; 0: there are none.
    refresh_interval: u32,
    ranks: u32,
    /// The refreshes that each rank has had.
    issued: [u64; 4],
    /// The last cycle in which no refresh is due, as long as none is issued; MAX: none is ever due.
    none_due_to: Cycle,
}

impl Model for Refresh {
    ghost use Rattle.bank_ready.specs.Refreshes.{RefreshCounts};
    ghost use Rattle.bank_ready.specs.Kept.{counts_of, AreKept};

    ghost Value = { RefreshCounts };

    ghost view = { counts_of };

    ghost invariant = { AreKept };
}

/// The least of some counts.
#[tactic(auto, using(crate::proofs::LeastCount::least_more))]
fn fewest(counts: &[u64]) -> u64
    requires { 0 < length counts.now }
    ensures least { (k : ℕ) → k < length counts.now → result ≤ slice_index counts.now k }
    ensures reached { (k : ℕ) × (k < length counts.now) × (slice_index counts.now k ≡ result) }
{
    let mut fewest = counts[0];
    for i in 1..counts.len() {
        fewest = fewest.min(counts[i]);
    }
    fewest
}

impl Refresh {
    /// The counts of a channel that has issued no command: a refresh of each of its ranks falls due after every
    /// `refresh_interval` cycles, and never if that is 0.
    pub fn new(refresh_interval: u32, ranks: u32) -> Self
        requires interval { refresh_interval ≤ 100000 }
        requires ranks_in { Within 1 4 ranks }
        requires ranks_power { IsTrue (is_power_of_two ranks) }
        ensures value { result ≡ never_refreshed refresh_interval ranks }
        ensures stands { (s : Config)
            → s.timing.n_refi ≡ refresh_interval → s.ranks ≡ ranks → StandsFor result s [] }
    {
        Refresh {
            refresh_interval,
            ranks,
            issued: [0; 4],
            none_due_to: if refresh_interval == 0 {
                Cycle::MAX
            } else {
                u64::from(refresh_interval) - 1
            },
        }
    }

    /// Refreshes of a rank that were issued.
    fn issued(&self, rank: u32) -> u64
        ensures { result ≡ slice_index self.now.issued rank }
    {
        self.issued.get(rank as usize).copied().unwrap_or(0)
    }

    /// Refreshes of a rank that are due in a cycle: the intervals that have ended, less those that were issued.
    fn owed(&self, now: Cycle, rank: u32) -> u64
        ensures { result ≡ owed self.now rank now }
    {
        let interval = u64::from(self.refresh_interval);
        if interval == 0 {
            0
        } else {
            (now / interval).saturating_sub(self.issued(rank))
        }
    }

    /// How many refreshes of a rank are due in cycle `now`.
    #[tactic(auto, using(crate::proofs::Due::due_from_owed))]
    pub fn due(&self, now: Cycle, rank: u32) -> u64
        requires { rank < self.now.ranks }
        ensures value { result ≡ owed self.now rank now }
        ensures stands { (s : Config) (history : List IssuedCommand)
            → StandsFor self.now s history → result ≡ due s rank history now }
    {
        self.owed(now, rank)
    }

    /// The first cycle from `now` on in which a refresh of some rank is due, as long as no other is issued; None where
    /// there are no refreshes.
    pub fn next_due(&self, now: Cycle) -> Option<Cycle>
        ensures none { IsNone result ↔ (self.now.interval ≡ 0) }
        ensures next { IfSome result (IsFirstDue (lowest_owed self.now) now) }
        ensures stands { (s : Config) (history : List IssuedCommand)
            → StandsFor self.now s history → IfSome result (IsFirstDue (lowest_due s history) now) }
    {
        if self.refresh_interval == 0 {
            return None;
        }
        Some(now.max(self.none_due_to + 1))
    }

    /// Whether a refresh of some rank is due in a cycle, or before it, as long as none is issued.
    #[inline(always)]
    pub fn is_due_by(&self, cycle: Cycle) -> bool
        ensures { result ≡ is_some (lowest_owed self.now cycle) }
    {
        self.none_due_to < cycle
    }

    /// The number of ranks.
    pub fn ranks(&self) -> u32
        ensures { result ≡ self.now.ranks }
    {
        self.ranks
    }

    /// The first cycle from `now` on in which a refresh of a rank is due, as long as no other of it is issued; None
    /// where there are no refreshes.
    pub fn first_due(&self, now: Cycle, rank: u32) -> Option<Cycle>
        requires { rank < self.now.ranks }
        ensures none { IsNone result ↔ (self.now.interval ≡ 0) }
        ensures value { IsDueFrom (owed self.now rank) now result }
        ensures stands { (s : Config) (history : List IssuedCommand)
            → StandsFor self.now s history → IsDueFrom (due s rank history) now result }
    {
        if self.refresh_interval == 0 {
            return None;
        }
        let first = (self.issued(rank) + 1) * u64::from(self.refresh_interval);
        Some(now.max(first))
    }

    /// Counts a refresh of a rank in cycle `now`. The counts then stand for the commands so far and this one.
    pub fn note_ref(&mut self, now: Cycle, rank: u32)
        requires rank { rank < self.old.ranks }
        requires now { now < 2 ^ 62 }
        requires due { 0 < owed self.old rank now }
        ensures value { self.new ≡ refreshed self.old rank }
        ensures stands { (s : Config) (history : List IssuedCommand) (i : IssuedCommand)
            → i.command ≡ Ref rank
            → StandsFor self.old s history → StandsFor self.new s (history ++ i ∷ []) }
    {
        self.issued[rank as usize] += 1;
        let fewest = fewest(&self.issued[..self.ranks as usize]);
        self.none_due_to = (fewest + 1) * u64::from(self.refresh_interval) - 1;
    }
}
