//! Numbers as a screen shows them: at most four digits that say something.

ghost use Rattle.std.specs.Prelude.{◌≡◌, ◌*◌, ◌^◌, ◌<◌, ◌≤◌, ◌++◌, Some, None, IfOk, IfSome, string_bytes};
ghost use Rattle.measures.specs.Number.{halves_of, number_text};
ghost use Rattle.measures.specs.Number.{most_decimals, limit_of, decimals_of, unit_of, digits_of, fits, least_power, power_of, tenths_text, hundredths_text, thousandths_text, digits_text, written};

use std::alloc::{AllocError, Global};

/// How a number is shown.
#[derive(Clone, Copy)]
pub enum NumberForm {
    /// With up to three decimals: `0.456`, `4.56`, `45.6`, `456`, `4567`, `45.7k`.
    Mean,
    /// With one decimal: `0.5`, `45.6`, `100.0`.
    Percent,
    /// With none as long as it is below ten thousand: `4567`, `45.7k`.
    Count,
}

impl NumberForm {
    fn most_decimals(self) -> u32
        ensures { result ≡ most_decimals self }
    {
        match self {
            NumberForm::Mean => 3,
            NumberForm::Percent => 1,
            NumberForm::Count => 0,
        }
    }

    // With the last digit at this power of ten, the digits of a number of this form are below this one.
    fn limit_of(self, power: u32) -> u128
        ensures { result ≡ limit_of self power }
    {
        match (self, power) {
            (_, 3) | (NumberForm::Percent, 2) => 10_000,
            _ => 1_000,
        }
    }
}

/// A number of a screen.
#[derive(Clone, Copy)]
pub struct Number {
    /// The number in halves of a thousandth, rounded down; none where there is nothing to divide by. Rounding it to
    /// thousandths or coarser therefore gives the same as rounding the exact number.
    pub halves: Option<u128>,
    pub form: NumberForm,
}

/// A greater sum counts as this one.
const GREATEST_SUM: u128 = 1 << 70;

/// The last digit of a number is at most this power of ten of thousandths.
const GREATEST_POWER: u32 = 21;

// How many decimals a number has whose last digit is this power of ten of thousandths, in its unit.
#[tactic(auto, unfolding(crate::specs::Number::decimals_of))]
fn decimals_of(power: u32) -> u32
    ensures { result ≡ decimals_of power }
{
    if power < 4 {
        3 - power
    } else {
        2 - (power - 4) % 3
    }
}

// The unit of such a number: from ten thousand on, each is a thousand times the one before it.
#[tactic(auto, unfolding(crate::specs::Number::unit_of))]
fn unit_of(power: u32) -> &'static str
    ensures { result.now ≡ unit_of power }
{
    match power {
        0..=3 => "",
        4..=6 => "k",
        7..=9 => "M",
        10..=12 => "G",
        13..=15 => "T",
        16..=18 => "P",
        _ => "E",
    }
}

// The digits of a number that is given in halves of a thousandth, rounded half up.
#[tactic(auto, unfolding(crate::specs::Number::digits_of), using(crate::proofs::Powers::power_fits, crate::proofs::Powers::power_some))]
fn digits_of(power: u32, halves: u128) -> u128
    requires { power ≤ 21 }
    ensures { result ≡ digits_of power halves }
{
    (halves / 10u128.pow(power)).div_ceil(2)
}

// Whether a number can be written with its last digit at this power of ten: with no more decimals than its form has,
// and with few digits.
#[tactic(auto, unfolding(crate::specs::Number::fits))]
fn fits(form: NumberForm, power: u32, halves: u128) -> bool
    requires { power ≤ 21 }
    ensures { result ≡ fits form power halves }
{
    (power > 3 || decimals_of(power) <= form.most_decimals())
        && digits_of(power, halves) < form.limit_of(power)
}

// The least power of ten at which the last digit of a number can be, if there is one.
#[tactic(auto, unfolding(crate::specs::Number::least_power))]
fn least_power(form: NumberForm, halves: u128) -> Option<u32>
    ensures place { result ≡ least_power form halves }
    ensures within { IfSome result (λ power. power < 21) }
{
    (0..GREATEST_POWER).find(move |power| fits(form, *power, halves))
}

// The least power of ten at which the last digit of a number can be, or the greatest power where there is none.
#[tactic(auto, unfolding(crate::specs::Number::power_of))]
fn power_of(form: NumberForm, halves: u128) -> u32
    ensures place { result ≡ power_of form halves }
    ensures within { result ≤ 21 }
{
    match least_power(form, halves) {
        Some(power) => power,
        None => GREATEST_POWER,
    }
}

/// A number of tenths with a unit behind it: 456 is `45.6`. The only error is out of memory.
pub fn tenths_text(alloc: Global, tenths: u128, unit: &str) -> Result<String, AllocError>
    ensures { IfOk result (λ text. string_bytes text ≡ tenths_text tenths ++ unit.now) }
{
    let (whole, tenth) = (tenths / 10, tenths % 10);
    format!(in alloc; "{whole}.{tenth}{unit}")
}

// A number of hundredths with a unit behind it: 456 is `4.56`.
fn hundredths_text(alloc: Global, hundredths: u128, unit: &str) -> Result<String, AllocError>
    ensures { IfOk result (λ text. string_bytes text ≡ hundredths_text hundredths ++ unit.now) }
{
    let (whole, tenth, last) = (hundredths / 100, hundredths / 10 % 10, hundredths % 10);
    format!(in alloc; "{whole}.{tenth}{last}{unit}")
}

/// A number of thousandths with a unit behind it: 456 is `0.456`. The only error is out of memory.
pub fn thousandths_text(alloc: Global, thousandths: u128, unit: &str) -> Result<String, AllocError>
    ensures { IfOk result (λ text. string_bytes text ≡ thousandths_text thousandths ++ unit.now) }
{
    let whole = thousandths / 1_000;
    let (tenth, hundredth, last) = (
        thousandths / 100 % 10,
        thousandths / 10 % 10,
        thousandths % 10,
    );
    format!(in alloc; "{whole}.{tenth}{hundredth}{last}{unit}")
}

// Digits with so many decimals, and a unit behind them.
fn digits_text(alloc: Global, decimals: u32, digits: u128, unit: &str) -> Result<String, AllocError>
    ensures { IfOk result (λ text. string_bytes text ≡ digits_text decimals digits ++ unit.now) }
{
    match decimals {
        0 => format!(in alloc; "{digits}{unit}"),
        1 => tenths_text(alloc, digits, unit),
        2 => hundredths_text(alloc, digits, unit),
        _ => thousandths_text(alloc, digits, unit),
    }
}

// A number that is given in halves of a thousandth.
#[tactic(auto, unfolding(crate::specs::Number::written))]
fn written(alloc: Global, form: NumberForm, halves: u128) -> Result<String, AllocError>
    ensures { IfOk result (λ text. string_bytes text ≡ written form halves) }
{
    let power = power_of(form, halves);
    let digits = digits_of(power, halves);
    digits_text(alloc, decimals_of(power), digits, unit_of(power))
}

impl Number {
    /// A count.
    pub fn count(count: u64) -> Number
        ensures { result ≡ record { halves = Some (2000 * count); form = NumberForm.Count } }
    {
        Number {
            halves: Some(2_000 * u128::from(count)),
            form: NumberForm::Count,
        }
    }

    /// A quotient; none where the divisor is 0. A dividend above 2^70 counts as 2^70.
    pub fn quotient(dividend: u128, divisor: u128, form: NumberForm) -> Number
        ensures { result ≡ record { halves = halves_of dividend divisor; form = form } }
    {
        let halves = 2_000 * dividend.min(GREATEST_SUM);
        Number {
            halves: halves.checked_div(divisor),
            form,
        }
    }

    /// The mean of a sum over a count; none for a count of 0. A sum above 2^70 counts as 2^70.
    pub fn mean(sum: u128, count: u64) -> Number
        ensures { result ≡ record { halves = halves_of sum count; form = NumberForm.Mean } }
    {
        Number::quotient(sum, u128::from(count), NumberForm::Mean)
    }

    /// What percentage of the whole a part is; none for a whole of 0.
    pub fn percent(part: u128, whole: u128) -> Number
        requires { part < 2 ^ 80 }
        ensures { result
            ≡ record { halves = halves_of (100 * part) whole; form = NumberForm.Percent } }
    {
        Number::quotient(100 * part, whole, NumberForm::Percent)
    }

    /// A number that is not there.
    pub fn absent() -> Number
        ensures { result ≡ record { halves = None; form = NumberForm.Count } }
    {
        Number {
            halves: None,
            form: NumberForm::Count,
        }
    }

    /// The number as a screen shows it; `-` for one that is not there. The only error is out of memory.
    pub fn text(self, alloc: Global) -> Result<String, AllocError>
        ensures { IfOk result (λ text. string_bytes text ≡ number_text self) }
    {
        match self.halves {
            Some(halves) => written(alloc, self.form, halves),
            None => String::from_str(alloc, "-"),
        }
    }
}
