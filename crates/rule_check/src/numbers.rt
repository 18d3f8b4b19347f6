//! Numbers in the fields of a table.

ghost use Rattle.std.specs.Prelude.{◌≡◌, ◌+◌, ◌-◌, ◌*◌, ◌<◌, ◌≤◌, ◌&&◌, min, IfSome};
ghost use Rattle.rule_check.specs.Numbers.{number_limit, capped_digit, digits_value, number_below};

/// Each number of a table is below this one.
pub const NUMBER_LIMIT: u64 = 1 << 62;

// The number with one more digit; the limit stands for every number not below it.
fn with_digit(number: u64, byte: u8) -> u64
    ensures { result ≡ capped_digit number byte }
{
    let digit = u64::from(byte.saturating_sub(b'0'));
    if number < NUMBER_LIMIT / 16 {
        number * 10 + digit
    } else if number < NUMBER_LIMIT / 4 {
        (number * 10 + digit).min(NUMBER_LIMIT)
    } else {
        NUMBER_LIMIT
    }
}

// The number that a text writes, if it has only digits; the limit stands for every number not below it.
fn digits_value(text: &[u8]) -> Option<u64>
    ensures { result ≡ digits_value text.now }
{
    let mut number = 0;
    for byte in text {
        if !byte.is_ascii_digit() {
            return None;
        }
        number = with_digit(number, *byte);
    }
    Some(number)
}

/// The number in a field, if it has one below a limit of at most 2^62. Leading zeros are allowed.
#[tactic(auto, using(crate::proofs::Digits::capped_value_is), unfolding(crate::specs::Numbers::number_below))]
pub fn number_below(limit: u64, text: &[u8]) -> Option<u64>
    requires { limit ≤ number_limit }
    ensures value { result ≡ number_below limit text.now }
    ensures below { IfSome result (λ n. n < limit) }
{
    match digits_value(text) {
        Some(value) if !text.is_empty() && value < limit => Some(value),
        _ => None,
    }
}

/// The number in a field, if it has one below a limit of 32 bits. Leading zeros are allowed.
pub fn small_number(limit: u32, text: &[u8]) -> Option<u32>
    ensures value { result ≡ number_below limit text.now }
    ensures below { IfSome result (λ n. n < limit) }
{
    match number_below(u64::from(limit), text) {
        Some(number) => Some(number as u32),
        None => None,
    }
}
