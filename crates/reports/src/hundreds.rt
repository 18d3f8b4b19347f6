//! The cycles of rows. In a row the cycle often has all digits of that of the row before it, but for the last two.

ghost use Rattle.std.specs.Prelude.{◌≡◌, ◌≤◌, ◌<◌, ◌+◌, ◌-◌, ◌++◌, ◌∷◌, ◌/◌, ◌%◌, drop, decimal};
ghost use Rattle.reports.specs.Rows.{comma};

use crate::line::{Line, put_byte};
use itoa::write_digits;
use std::simd::prelude::*;

/// How many digits are kept of a cycle. A cycle of more than 18 digits is put without them.
const DIGITS: usize = 16;

/// A hundred cycles that have all digits but the last two in common, and these digits.
#[derive(Drop)]
pub(crate) struct Hundred {
    first: u64,
    digits: [u8; DIGITS],
    start: usize,
    ghost some: { 100 ≤ first },
    ghost few: { first < 1_000_000_000_000_000_000 },
    ghost whole: { first % 100 ≡ 0 },
    ghost within: { start ≤ 16 },
    ghost common: { drop start digits ≡ decimal (first / 100) },
}

// Puts the last two digits of a cycle, of which so many of its hundred are before it, before a place.
#[inline(always)]
fn put_two_digits(line: &mut Line, end: usize, past: u64)
    requires past { past < 100 }
    requires place { (3 ≤ end) × (end ≤ 256) }
    ensures { drop (end - 2) line.new
        ≡ (48 + past / 10) ∷ (48 + past % 10) ∷ drop end line.old }
{
    write_digits(100 + past, line, end);
}

// Puts digits at a place.
#[inline(always)]
fn put_all(line: &mut Line, place: usize, digits: &[u8; DIGITS])
    requires { place + 16 ≤ 256 }
    ensures { drop place line.new ≡ digits.now ++ drop (place + 16) line.old }
{
    let lanes: u8x16 = Simd::from_slice(digits);
    lanes.copy_to_slice(&mut line[place..]);
}

impl Hundred {
    // The hundred of cycles in which a cycle lies.
    fn of(cycle: u64) -> Hundred
        requires low { 100 ≤ cycle }
        requires high { cycle < 1_000_000_000_000_000_000 }
        ensures first { result.first ≤ cycle }
        ensures last { cycle < result.first + 100 }
    {
        let number = cycle / 100;
        let mut digits = [b'0'; DIGITS];
        let start = write_digits(number, &mut digits, DIGITS);
        Hundred {
            first: number * 100,
            digits,
            start,
        }
    }

    /// The hundred of cycles from 100 to 199, the first that is kept.
    pub(crate) fn new() -> Hundred {
        Hundred::of(100)
    }

    // Puts a cycle of this hundred before a place.
    #[inline(always)]
    fn put_one(&self, line: &mut Line, end: usize, cycle: u64) -> usize
        requires first { self.now.first ≤ cycle }
        requires last { cycle < self.now.first + 100 }
        requires place { (20 ≤ end) × (end ≤ 256) }
        ensures text { drop result line.new ≡ decimal cycle ++ drop end line.old }
        ensures low { end ≤ result + 20 }
        ensures high { result ≤ end }
    {
        put_two_digits(line, end, cycle - self.first);
        put_all(line, end - 18, &self.digits);
        end - 18 + self.start
    }

    // Puts a cycle before a place, and takes its digits.
    #[inline(never)]
    fn put_other(&mut self, line: &mut Line, end: usize, cycle: u64) -> usize
        requires { (20 ≤ end) × (end ≤ 256) }
        ensures text { drop result line.new ≡ decimal cycle ++ drop end line.old }
        ensures low { end ≤ result + 20 }
        ensures high { result ≤ end }
    {
        if cycle < 100 || cycle >= 1_000_000_000_000_000_000 {
            return write_digits(cycle, line, end);
        }
        *self = Hundred::of(cycle);
        self.put_one(line, end, cycle)
    }

    /// Puts a cycle before the other fields.
    #[inline(always)]
    pub(crate) fn put_cycle(&mut self, line: &mut Line, end: usize, cycle: u64) -> usize
        requires { (21 ≤ end) × (end ≤ 256) }
        ensures text { drop result line.new ≡ decimal cycle ++ comma ∷ drop end line.old }
        ensures low { end ≤ result + 21 }
        ensures high { result < end }
    {
        let start = put_byte(line, end, b',');
        if cycle.wrapping_sub(self.first) >= 100 {
            return self.put_other(line, start, cycle);
        }
        self.put_one(line, start, cycle)
    }
}
