//! Percentiles by the nearest rank.

ghost use Rattle.std.specs.Prelude.{◌≡◌, ◌↔◌, ◌<◌, ◌≤◌, ◌+◌, ◌*◌, ◌/◌, [], None, IfSome, slice_get};
ghost use Rattle.std.specs.List.Sorted.{IsPermutation};
ghost use Rattle.measures.specs.Percentile.{at_rank, IsPercentile, IsSummary};

use std::marker::Model;

/// The least, the median and the greatest of some values; each none of no values.
#[derive(Clone, Copy)]
pub struct Summary {
    pub least: Option<u128>,
    pub median: Option<u128>,
    pub greatest: Option<u128>,
}

/// Values in ascending order.
#[derive(Drop)]
pub struct SortedValues {
    values: Vec<u64>,
}

impl Model for SortedValues {
    ghost use Rattle.std.specs.Prelude.{ℕ, List};
    ghost use Rattle.std.specs.List.Sorted.{IsNonDecreasing};

    ghost Value = { List ℕ };

    ghost view = { λ s. s.values.items };

    ghost invariant = { λ s. IsNonDecreasing s.values.items };
}

// The least rank with a share of so many values at or below it.
#[tactic(auto, using(crate::proofs::Ranks::share_fits, crate::proofs::Ranks::rank_fits))]
fn rank_of(percent: u64, count: usize) -> usize
    requires { percent ≤ 100 }
    ensures { result ≡ (percent * count + 99) / 100 }
{
    let share = u128::from(percent) * count as u128;
    ((share + 99) / 100) as usize
}

// The value of a rank, counted from 1.
fn at_rank(values: &[u64], rank: usize) -> Option<u64>
    ensures { result ≡ at_rank values.now rank }
{
    match rank {
        0 => None,
        _ => values.get(rank - 1).copied(),
    }
}

impl SortedValues {
    /// These values, in ascending order.
    pub fn of(values: Vec<u64>) -> SortedValues
        ensures { IsPermutation values.items result }
    {
        let mut values = values;
        values.sort_unstable();
        SortedValues { values }
    }

    /// The percentile by the nearest rank: the least of the values with at least `percent` per cent of them at or below
    /// it; 100 gives the greatest. None of no values.
    #[tactic(auto, using(crate::proofs::Ranks::rank_gives, crate::proofs::Ranks::rank_none))]
    pub fn percentile(&self, percent: u64) -> Option<u64>
        requires some { 0 < percent }
        requires whole { percent ≤ 100 }
        ensures none { (result ≡ None) ↔ (self.now ≡ []) }
        ensures exact { IfSome result (IsPercentile self.now percent) }
    {
        at_rank(&self.values, rank_of(percent, self.values.len()))
    }
}

fn value_at(values: &[u128], place: usize) -> Option<u128>
    ensures { result ≡ slice_get values.now place }
{
    values.get(place).copied()
}

impl Summary {
    /// The least, the median and the greatest of these values. The median of an even count is the lower of the two in
    /// the middle.
    pub fn of(values: Vec<u128>) -> Summary
        ensures { IsSummary values.items result }
    {
        let mut sorted = values;
        sorted.sort_unstable();
        let last = sorted.len().saturating_sub(1);
        Summary {
            least: value_at(&sorted, 0),
            median: value_at(&sorted, last / 2),
            greatest: value_at(&sorted, last),
        }
    }
}
