//! Both kernels on columns of each length up to a maximum, with a different word at each place in turn, and at none.

ghost use Rattle.std.specs.Prelude.{◌≡◌, length};

use crate::expect::expect;
use std::alloc::Global;
use std::process::Abort;
use units::lane_scan::{first_below, least};

/// A column with the first word of a pair at one place, if the place is in it, and with the second elsewhere.
fn column(rt: &impl Abort, alloc: Global, len: usize, place: usize, pair: (u64, u64)) -> Vec<u64>
    ensures { length result.items ≡ len }
{
    let (there, elsewhere) = pair;
    let mut words = vec![in alloc; elsewhere; len].expect(rt, "memory");
    if place < len {
        words[place] = there;
    }
    words
}

const HIGH: u64 = 1 << 63;

/// A word and a greater one.
static WORDS: [(u64, u64); 4] = [
    (0, 1),
    (7, u64::MAX),
    (HIGH - 1, HIGH),
    (u64::MAX - 1, u64::MAX),
];

/// Of a column whose words are `more`, but for some that are `less`, of which `first` is the first, if it is in the
/// column.
fn check_words(rt: &impl Abort, words: &[u64], first: usize, (less, more): (u64, u64)) {
    let found = if first < words.len() {
        Some(first)
    } else {
        None
    };
    let others = if words.is_empty() { u64::MAX } else { more };
    let lowest = if found.is_some() { less } else { others };
    expect(
        rt,
        &(
            first_below(words, more),
            first_below(words, less),
            least(words),
        ),
        &(found, None, lowest),
    );
}

fn check(rt: &impl Abort, alloc: Global, len: usize, place: usize) {
    for (less, more) in &WORDS {
        let words = column(rt, alloc, len, place, (*less, *more));
        check_words(rt, &words, place, (*less, *more));
        let words = column(rt, alloc, len, place, (*more, *less));
        check_words(rt, &words, usize::from(place == 0), (*less, *more));
    }
}

#[test]
fn scans_columns(rt: HostRuntime) {
    for len in 0..71 {
        for place in 0..len + 1 {
            check(&rt, rt.alloc(), len, place);
        }
    }
}
