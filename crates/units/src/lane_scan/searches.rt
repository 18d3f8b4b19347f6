//! The first word of a column that is below a bound, and the least word.

ghost use Rattle.std.specs.Prelude.{◌≡◌, ◌+◌, ◌≤◌, ◌<◌, nat_lt, length, take, position};
ghost use Rattle.std.specs.List.{position_or_len};
ghost use Rattle.std.specs.Simd.Lanes.{chunk};
ghost use Rattle.units.specs.Scans.{is_below, NoneBelow, least_of};

use crate::lane_scan::lanes::{below_bits, least_lane, lesser, load};
use std::simd::prelude::*;

/// How many words are tested at once.
const TESTED: usize = 16;

/// How many words a full vector has when the least are kept.
const LANES: usize = 8;

/// How many of N words from a place on come before the first that is below a bound.
fn others_in<const N: usize>(words: &[u64], at: usize, bound: u64) -> usize
    requires room { at + N ≤ length words.now }
    requires one_word { N ≤ 64 }
    ensures { result ≡ position_or_len (is_below bound) (chunk at N words.now) }
{
    let bits = below_bits::<N>(load(words, at), bound);
    if bits == 0 {
        N
    } else {
        bits.trailing_zeros() as usize
    }
}

/// Passes over words, N at a time, up to the first that is below a bound or to where fewer than N are left.
fn skip_others<const N: usize>(words: &[u64], bound: u64) -> usize
    requires some { 0 < N }
    requires one_word { N ≤ 64 }
    ensures stop { result ≤ length words.now }
    ensures none { NoneBelow bound words.now result }
{
    let mut at = 0;
    while N <= words.len() - at {
        let run = others_in::<N>(words, at, bound);
        if run < N {
            return at + run;
        }
        at += N;
    }
    at
}

/// The first place whose word is below a bound, if there is one.
pub fn first_below(words: &[u64], bound: u64) -> Option<usize>
    ensures { result ≡ position (λ word. nat_lt word bound) words.now }
{
    for place in skip_others::<TESTED>(words, bound)..words.len() {
        if words[place] < bound {
            return Some(place);
        }
    }
    None
}

/// Goes on over the words from a place on, N at a time, until fewer than N are left. Gives where that is, and the least
/// word so far.
fn least_from<const N: usize>(words: &[u64], from: usize, least: u64) -> (usize, u64)
    requires begun { from ≤ length words.now }
    requires so_far { least ≡ least_of (take from words.now) }
    requires some { 0 < N }
    requires few { N ≤ 64 }
    ensures stop { result.0 ≤ length words.now }
    ensures rest { length words.now < result.0 + N }
    ensures least { result.1 ≡ least_of (take result.0 words.now) }
{
    let mut lanes: Simd<u64, N> = Simd::splat(u64::MAX);
    let mut at = from;
    while N <= words.len() - at {
        lanes = lesser(lanes, load(words, at));
        at += N;
    }
    (at, least.min(least_lane(lanes)))
}

/// The least word, or the greatest possible word if there are none.
pub fn least(words: &[u64]) -> u64
    ensures { result ≡ least_of words.now }
{
    let (whole, least) = least_from::<LANES>(words, 0, u64::MAX);
    let (_, least) = least_from::<1>(words, whole, least);
    least
}
