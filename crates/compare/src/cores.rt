//! The core that gained most against the first run, and the one that lost most.

ghost use Rattle.std.specs.Prelude.{◌≡◌, ◌^◌, ◌<◌, IfSome};
ghost use Rattle.compare.specs.Quotients.{quotient};
ghost use Rattle.compare.specs.Cores.{amount, core_change, further, most};

use crate::changes::{Change, change_of};
use crate::quotients::quotient;
use statistics::cores::CoreStats;
use statistics::stats::Stats;

/// Which way the entries a cycle of a core have changed.
#[derive(Clone, Copy)]
pub(crate) enum Direction {
    Gained,
    Lost,
}

/// A core, and how much it gained or lost, in tenths of a percent; 0 where no core did.
#[derive(Clone, Copy)]
pub(crate) struct Extreme {
    pub(crate) core: usize,
    pub(crate) tenths: u128,
}

// How much a change is in a direction; 0 where it is the other one.
fn amount(direction: Direction, change: Option<Change>) -> u128
    ensures { result ≡ amount direction change }
{
    match (direction, change) {
        (Direction::Gained, Some(Change::Rise(tenths))) => tenths,
        (Direction::Lost, Some(Change::Fall(tenths))) => tenths,
        _ => 0,
    }
}

fn rate(core: &CoreStats, cycles: u64) -> Option<u128>
    ensures value { result ≡ quotient core.now.retired cycles }
    ensures small { IfSome result (λ value. value < 2 ^ 116) }
{
    quotient(u128::from(core.retired), u128::from(cycles))
}

// How the entries a cycle of a core have changed, where both runs have it.
fn core_change(base: &Stats, run: &Stats, core: usize) -> Option<Change>
    ensures { result ≡ core_change base.now run.now core }
{
    let (before, after) = (base.cores.get(core)?, run.cores.get(core)?);
    change_of(rate(before, base.cycles), rate(after, run.cycles))
}

// The core that changed more, the earlier one where both did alike.
fn further(best: Extreme, core: usize, tenths: u128) -> Extreme
    ensures { result ≡ further best core tenths }
{
    if best.tenths < tenths {
        Extreme { core, tenths }
    } else {
        best
    }
}

/// The core that changed most in a direction.
#[tactic(auto, using(crate::proofs::More::fold_below_more), unfolding(crate::specs::Cores::most))]
pub(crate) fn most(direction: Direction, base: &Stats, run: &Stats) -> Extreme
    ensures { result ≡ most direction base.now run.now }
{
    let mut best = Extreme { core: 0, tenths: 0 };
    for core in 0..base.cores.len() {
        best = further(best, core, amount(direction, core_change(base, run, core)));
    }
    best
}
