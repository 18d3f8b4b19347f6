//! Vectors of words, lane by lane.

ghost use Rattle.std.specs.Prelude.{◌≡◌, ◌+◌, ◌≤◌, min, length, map};
ghost use Rattle.std.specs.Simd.Lanes.{chunk, zip2, mask_l};
ghost use Rattle.units.specs.Scans.{is_below, least_of};

use std::simd::prelude::*;

/// N words of a column, from place `at` on.
pub(crate) fn load<const N: usize>(column: &[u64], at: usize) -> Simd<u64, N>
    requires { at + N ≤ length column.now }
    ensures { result ≡ chunk at N column.now }
{
    Simd::from_slice(&column[at..])
}

/// A bit for each word, which is set where the word is below a bound; the lowest bit is that of the first word.
pub(crate) fn below_bits<const N: usize>(words: Simd<u64, N>, bound: u64) -> u64
    requires { N ≤ 64 }
    ensures { result ≡ mask_l (map (is_below bound) words.entry) }
{
    words.simd_lt(Simd::splat(bound)).to_bitmask()
}

/// The lesser word of each lane.
pub(crate) fn lesser<const N: usize>(a: Simd<u64, N>, b: Simd<u64, N>) -> Simd<u64, N>
    ensures { result ≡ zip2 min a.entry b.entry }
{
    a.simd_min(b)
}

/// The least lane.
pub(crate) fn least_lane<const N: usize>(lanes: Simd<u64, N>) -> u64
    ensures { result ≡ least_of lanes.entry }
{
    let lanes = lanes.to_array();
    let mut least = u64::MAX;
    for word in lanes {
        least = least.min(word);
    }
    least
}
