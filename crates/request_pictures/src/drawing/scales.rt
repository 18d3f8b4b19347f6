//! Shares, and the scales of axes.

ghost use Rattle.std.specs.Prelude.{◌≡◌, ◌<◌, ◌≤◌, ◌+◌, ◌-◌, ◌*◌, ◌/◌, ◌^◌, min};
ghost use Rattle.request_pictures.specs.Scales.{IsTickStep, IsAxisEnd};

/// `part` of `whole`, in units of which `whole` has `units`, rounded half up: 1000 for tenths of a percent. It is 0 for
/// a whole of 0, and saturates at 2^64 - 1.
pub fn share_of(part: u128, whole: u64, units: u64) -> u64
    ensures none { whole ≡ 0 → result ≡ 0 }
    ensures exact { 0 < whole → result ≡ min ((part * units + whole / 2) / whole) (2 ^ 64 - 1) }
{
    if whole == 0 {
        return 0;
    }
    let share = part
        .saturating_mul(u128::from(units))
        .saturating_add(u128::from(whole / 2))
        / u128::from(whole);
    u64::try_from(share).unwrap_or(u64::MAX)
}

/// The distance between ticks: the least of 1, 2 and 5 times a power of ten with which a span has at most `most` ticks,
/// not counting the first.
pub fn tick_step(span: u64, most: u64) -> u64
    requires { 0 < most }
    ensures some { 0 < result }
    ensures exact { IsTickStep span most result }
{
    let mut power = 1u64;
    'powers: for _place in 0..19u32 {
        if span / power <= most {
            return power;
        }
        if span / (2 * power) <= most {
            return 2 * power;
        }
        if span / (5 * power) <= most {
            return 5 * power;
        }
        power *= 10;
    }
    power
}

/// Where an axis for a value ends: the least multiple of the distance between its ticks that is not less than the value.
/// It saturates at 2^64 - 1.
pub fn axis_end(value: u64, most: u64) -> u64
    requires { 0 < most }
    ensures above { value ≤ result }
    ensures exact { IsAxisEnd value most result }
{
    let step = tick_step(value, most);
    value.div_ceil(step).saturating_mul(step)
}
