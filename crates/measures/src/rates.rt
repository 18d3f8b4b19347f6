//! What rates and times of a run are quotients of. A screen and a page show these in forms of their own.

ghost use Rattle.std.specs.Prelude.{◌≡◌, ◌+◌, ◌-◌, ◌*◌, ◌^◌, min};

use statistics::channels::ChannelStats;

/// What is divided, and by what.
#[derive(Clone, Copy)]
pub struct Quotient {
    pub dividend: u128,
    pub divisor: u128,
}

/// A RD or WR moves 64 bytes, and a kHz is 1,000 cycles a second: a GB/s is so many of them in as many cycles as the
/// clock has kHz.
const MOVES_OF_A_GIGABYTE: u128 = 15_625;

/// The data that a channel moved in so many cycles, in GB/s.
pub fn data_rate(cycles: u64, channel: &ChannelStats, khz: u64) -> Quotient
    ensures dividend { result.dividend
        ≡ min ((channel.now.rd + channel.now.wr) * khz) (2 ^ 128 - 1) }
    ensures divisor { result.divisor ≡ 15625 * cycles }
{
    let moves = u128::from(channel.rd) + u128::from(channel.wr);
    Quotient {
        dividend: moves.saturating_mul(u128::from(khz)),
        divisor: MOVES_OF_A_GIGABYTE * u128::from(cycles),
    }
}

/// A quotient of cycles, in ns.
pub fn nanoseconds(cycles: u128, divisor: u64, khz: u64) -> Quotient
    ensures dividend { result.dividend ≡ min (cycles * 1000000) (2 ^ 128 - 1) }
    ensures divisor { result.divisor ≡ divisor * khz }
{
    Quotient {
        dividend: cycles.saturating_mul(1_000_000),
        divisor: u128::from(divisor) * u128::from(khz),
    }
}
