//! Numbers in the fields of a table.

ghost use Rattle.std.specs.Prelude.{◌≡◌, IsTrue};
ghost use Rattle.std.specs.Char.{is_ascii_digit};
ghost use Rattle.std.specs.List.{list_all};
ghost use Rattle.rule_check.specs.Numbers.{is_number};
ghost use Rattle.run_tables.specs.Numbers.{has_leading_zero, wide_value, number_written};

fn has_leading_zero(text: &[u8]) -> bool
    ensures { result ≡ has_leading_zero text.now }
{
    text.len() > 1 && text[0] == b'0'
}

// The number that digits write, if it has 128 bits.
fn wide_value(digits: &[u8]) -> Option<u128>
    requires { IsTrue (is_number digits.now) }
    ensures { result ≡ wide_value digits.now }
{
    match str::from_utf8(digits) {
        Ok(digits) => digits.parse().ok(),
        Err(_) => None,
    }
}

/// The number that a field writes, with no leading zero, if it has 128 bits.
pub(crate) fn number_in(text: &[u8]) -> Option<u128>
    ensures { result ≡ number_written text.now }
{
    if is_number(text) && !has_leading_zero(text) {
        wide_value(text)
    } else {
        None
    }
}

fn are_digits(text: &[u8]) -> bool
    ensures { result ≡ list_all is_ascii_digit text.now }
{
    text.iter().all(|byte| byte.is_ascii_digit())
}

fn is_number(text: &[u8]) -> bool
    ensures { result ≡ is_number text.now }
{
    !text.is_empty() && are_digits(text)
}
