//! How a value has changed.

ghost use Rattle.std.specs.Prelude.{◌≡◌, ◌^◌, ◌<◌, IfSome};
ghost use Rattle.compare.specs.Changes.{tenths_of, change_between, change_of};

/// How much more or less a value is than the one that it is measured by, in tenths of a percent of that one.
#[derive(Clone, Copy)]
pub(crate) enum Change {
    Rise(u128),
    Fall(u128),
}

// A difference in tenths of a percent of its base, rounded half up.
fn tenths_of(difference: u128, base: u128) -> u128
    requires some { 0 < base }
    requires small { difference < 2 ^ 116 }
    requires few { base < 2 ^ 116 }
    ensures { result ≡ tenths_of difference base }
{
    (2_000 * difference + base) / (2 * base)
}

fn change_between(base: u128, value: u128) -> Option<Change>
    requires few { base < 2 ^ 116 }
    requires small { value < 2 ^ 116 }
    ensures { result ≡ change_between base value }
{
    if base == 0 {
        None
    } else if base <= value {
        Some(Change::Rise(tenths_of(value - base, base)))
    } else {
        Some(Change::Fall(tenths_of(base - value, base)))
    }
}

/// How a value has changed from its base; unknown where one of them is, or the base is 0.
pub(crate) fn change_of(base: Option<u128>, value: Option<u128>) -> Option<Change>
    requires few { IfSome base (λ base. base < 2 ^ 116) }
    requires small { IfSome value (λ value. value < 2 ^ 116) }
    ensures { result ≡ change_of base value }
{
    match (base, value) {
        (Some(base), Some(value)) => change_between(base, value),
        _ => None,
    }
}
