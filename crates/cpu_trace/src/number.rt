//! Numbers of a trace.

ghost use Rattle.std.specs.Prelude.{◌≡◌, ◌+◌, ◌*◌, ◌<◌, ◌≤◌, length, option_and_then, IsTrue};
ghost use Rattle.sim_base.specs.TraceText.{numeral_of, is_hexadecimal, number_of};
ghost use Rattle.cpu_trace.specs.Numerals.{fitting};

use sim_base::fault::LineCause;

/// The number with one more digit at its end, where it is at most 2^64 - 1.
#[tactic(auto, unfolding(crate::specs::Numerals::fitting))]
#[inline(always)]
fn with_digit(number: Option<u64>, radix: u32, digit: u32) -> Option<u64>
    ensures { result ≡ option_and_then (λ n. fitting (n * radix + digit)) number }
{
    number?
        .checked_mul(u64::from(radix))?
        .checked_add(u64::from(digit))
}

/// The number that digits write. It is inlined, so that each radix has a loop of its own.
#[inline(always)]
fn read_numeral(radix: u32, digits: &[u8]) -> Result<u64, LineCause>
    requires lower { 2 ≤ radix }
    requires upper { radix ≤ 36 }
    ensures { result ≡ numeral_of radix digits.now }
{
    let mut number = Some(0);
    for byte in digits {
        let Some(digit) = char::from(*byte).to_digit(radix) else {
            return Err(LineCause::NotANumber);
        };
        number = with_digit(number, radix, digit);
    }
    if digits.is_empty() {
        return Err(LineCause::NotANumber);
    }
    number.ok_or(LineCause::TooLarge)
}

/// Whether a token begins with `0x` or `0X`.
#[tactic(auto, unfolding(sim_base::specs::TraceText::is_hexadecimal))]
fn is_hexadecimal(token: &[u8]) -> bool
    ensures value { result ≡ is_hexadecimal token.now }
    ensures long { IsTrue result → 2 ≤ length token.now }
{
    token.starts_with(b"0x") || token.starts_with(b"0X")
}

/// The number that a token writes, at most 2^64 - 1: decimal, or hexadecimal after `0x` or `0X`.
#[tactic(auto, using(std::proofs::lemmas::List::take_rest), unfolding(sim_base::specs::TraceText::number_of))]
pub fn read_number(token: &[u8]) -> Result<u64, LineCause>
    ensures { result ≡ number_of token.now }
{
    if is_hexadecimal(token) {
        read_numeral(16, &token[2..])
    } else {
        read_numeral(10, token)
    }
}
