//! The served requests of several lists as one table.

ghost use Rattle.std.specs.Prelude.{◌≡◌, [], ◌∷◌, None, All, IfOk, IfSome, MatchOption};
ghost use Rattle.request_table.specs.Tables.{AreServedBetween, times_by_cycle};
ghost use Rattle.request_table.specs.Lefts.{IsNext, IsEarlier};

use crate::left::{Left, ServedList};
use crate::times::RequestTimes;
use crate::travel::times;
use sim_base::config::Config;
use sim_base::message::Cycle;
use std::alloc::{AllocError, Global};
use std::marker::Model;

/// The requests that the channels of a run served: by cycle, and those of a cycle by their list. Nothing is copied to
/// make it or to read it: each takes the 32 bytes in which its channel kept it.
#[derive(Drop)]
pub struct RequestTable {
    lists: Vec<ServedList>,
    config: Config,
    cycles: Cycle,
}

impl Model for RequestTable {
    ghost use Rattle.std.specs.Prelude.{List, All};
    ghost use Rattle.request_table.specs.Tables.{AreServedBetween, times_by_cycle};
    ghost use Rattle.request_table.specs.declared.times.RequestTimes.{RequestTimes as Row};

    ghost Value = { List Row };

    ghost view = { λ t. times_by_cycle t.config t.cycles t.lists.items };

    ghost invariant = { λ t. All (AreServedBetween 0 t.cycles) t.lists.items };
}

/// What is left to be read of a table, from its first request on.
#[derive(Drop)]
pub struct Rows<'a> {
    pub(crate) lefts: Vec<Left<'a>>,
    pub(crate) config: &'a Config,
    pub(crate) cycles: Cycle,
}

impl<'a> Model for Rows<'a> {
    ghost use Rattle.std.specs.Prelude.{List, All};
    ghost use Rattle.request_table.specs.Tables.{AreServedBetween, times_by_cycle};
    ghost use Rattle.request_table.specs.declared.times.RequestTimes.{RequestTimes as Row};

    ghost Value = { List Row };

    ghost view = { λ r. times_by_cycle r.config.now r.cycles r.lefts.items };

    ghost invariant = { λ r. All (AreServedBetween 0 r.cycles) r.lefts.items };
}

/// A list at its place, and the cycle in which it goes on.
#[derive(Clone, Copy)]
struct Next {
    place: usize,
    cycle: Cycle,
}

/// Of the list that was found so far and the one behind it, which goes on in this cycle, if it does, the one that goes
/// on earlier.
#[inline(always)]
fn earlier_list(found: Option<Next>, place: usize, cycle: Option<Cycle>) -> Option<Next>
    ensures { IsEarlier found place cycle result }
{
    match (found, cycle) {
        (Some(next), Some(cycle)) if cycle < next.cycle => Some(Next { place, cycle }),
        (None, Some(cycle)) => Some(Next { place, cycle }),
        (found, _) => found,
    }
}

/// The place of the list that goes on earliest, if one is left; of several in the same cycle, the first.
#[inline(always)]
fn earliest(lefts: &[Left<'_>]) -> Option<usize>
    ensures { MatchOption result (All (λ rows. rows ≡ []) lefts.now) (IsNext lefts.now) }
{
    let mut found = None;
    for place in 0..lefts.len() {
        found = earlier_list(found, place, lefts[place].cycle_of(0));
    }
    match found {
        Some(next) => Some(next.place),
        None => None,
    }
}

/// A copy of what is left of lists. The only error is out of memory.
fn lefts_copied<'a>(alloc: Global, lefts: &[Left<'a>]) -> Result<Vec<Left<'a>>, AllocError>
    ensures { IfOk result (λ found. found.items ≡ lefts.now) }
{
    lefts.iter().map(|left| left.copied()).collect(alloc)
}

/// What is left of lists from which nothing was read. The only error is out of memory.
fn lefts_of(alloc: Global, lists: &[ServedList]) -> Result<Vec<Left<'_>>, AllocError>
    ensures { IfOk result (λ lefts. lefts.items ≡ lists.now) }
{
    lists.iter().map(Left::of).collect(alloc)
}

impl<'a> Rows<'a> {
    /// What is left of lists of a run of so many cycles, to be read.
    pub(crate) fn of(lefts: Vec<Left<'a>>, config: &'a Config, cycles: Cycle) -> Self
        requires { All (AreServedBetween 0 cycles) lefts.items }
        ensures { result ≡ times_by_cycle config.now cycles lefts.entry.items }
    {
        Rows {
            lefts,
            config,
            cycles,
        }
    }

    /// A copy of what is left, to be read by itself. The only error is out of memory.
    pub fn copied(&self, alloc: Global) -> Result<Rows<'a>, AllocError>
        ensures { IfOk result (λ rows. rows ≡ self.now) }
    {
        let lefts = lefts_copied(alloc, &self.lefts)?;
        Ok(Rows::of(lefts, self.config, self.cycles))
    }

    /// Takes the next request, if one is left.
    #[inline(always)]
    pub fn next(&mut self) -> Option<RequestTimes>
        ensures some { IfSome result (λ row. self.old ≡ row ∷ self.new) }
        ensures none { result ≡ None → self.old ≡ [] }
        ensures over { self.old ≡ [] → self.new ≡ [] }
    {
        let place = earliest(&self.lefts)?;
        let request = self.lefts[place].take_first()?;
        Some(times(self.config, self.cycles, &request))
    }
}

impl RequestTable {
    /// The table of these lists of requests that were served in a run of so many cycles of a machine with this
    /// configuration. The only error is out of memory.
    pub fn of(
        alloc: Global,
        config: &Config,
        cycles: Cycle,
        lists: Vec<ServedList>,
    ) -> Result<Self, AllocError>
        requires { All (AreServedBetween 0 cycles) lists.items }
        ensures { IfOk result (λ table. table ≡ times_by_cycle config.now cycles lists.items) }
    {
        Ok(RequestTable {
            lists,
            config: config.copy(alloc)?,
            cycles,
        })
    }

    /// The table, to be read from its first request on. The only error is out of memory.
    pub fn rows(&self, alloc: Global) -> Result<Rows<'_>, AllocError>
        ensures { IfOk result (λ rows. rows ≡ self.now) }
    {
        let lefts = lefts_of(alloc, &self.lists)?;
        Ok(Rows::of(lefts, &self.config, self.cycles))
    }

    /// The requests in a list, as they are. The only error is out of memory.
    pub fn to_vec(&self, alloc: Global) -> Result<Vec<RequestTimes>, AllocError>
        ensures { IfOk result (λ rows. rows.items ≡ self.now) }
    {
        let mut left = self.rows(alloc)?;
        let mut rows = Vec::new(alloc);
        while let Some(row) = left.next() {
            rows.push(row)?;
        }
        Ok(rows)
    }
}
