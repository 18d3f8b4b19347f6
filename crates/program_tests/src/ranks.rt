//! Percentiles by the nearest rank, from examples of textbooks.

use crate::expect::expect_at;
use measures::percentiles::SortedValues;
use std::alloc::Global;
use std::process::Abort;

// A share in percent, and the percentile.
type Rank = (u64, Option<u64>);

static OF_FIVE: [Rank; 7] = [
    (5, Some(15)),
    (20, Some(15)),
    (21, Some(20)),
    (30, Some(20)),
    (40, Some(20)),
    (50, Some(35)),
    (100, Some(50)),
];

static OF_TEN: [Rank; 5] = [
    (25, Some(7)),
    (50, Some(8)),
    (75, Some(15)),
    (99, Some(20)),
    (100, Some(20)),
];

// Asserts percentiles of some values, in any order.
fn assert_ranks(rt: &impl Abort, alloc: Global, values: &[u64], ranks: &[Rank]) {
    let values = Vec::from_slice(alloc, values).expect(rt, "memory");
    let sorted = SortedValues::of(values);
    for rank in ranks {
        let found = match rank.0 {
            1..=100 => sorted.percentile(rank.0),
            _ => None,
        };
        expect_at(rt, rank, &found, &rank.1);
    }
}

#[test]
fn nearest_ranks(rt: HostRuntime) {
    let alloc = rt.alloc();
    assert_ranks(&rt, alloc, &[40, 15, 50, 35, 20], &OF_FIVE);
    assert_ranks(&rt, alloc, &[8, 3, 20, 7, 13, 6, 16, 8, 15, 10], &OF_TEN);
    assert_ranks(&rt, alloc, &[], &[(50, None)]);
}
