//! Lines of the usual form, which are read in one pass: two numbers or three, a space between them, and a line feed. A
//! number has at most 19 decimal digits, or at most 16 hexadecimal ones after `0x`, so that it fits 64 bits.

ghost use Rattle.std.specs.Prelude.{◌≡◌, ◌^◌, ◌<◌, ◌≤◌, ◌∷◌, length, IfSome};
ghost use Rattle.std.specs.Char.{digit_value};
ghost use Rattle.cpu_trace.specs.Usual.{BeginsWithDigits, BeginsWithToken, BeginsWithLine};

use crate::line::Line;

/// The value of each byte as a digit: from 0 for `0` to 35 for `Z` and `z`, and 36 where it is none.
static DIGITS: [u8; 256] = [
    36, 36, 36, 36, 36, 36, 36, 36, 36, 36, 36, 36, 36, 36, 36, 36, 36, 36, 36, 36, 36, 36, 36, 36,
    36, 36, 36, 36, 36, 36, 36, 36, 36, 36, 36, 36, 36, 36, 36, 36, 36, 36, 36, 36, 36, 36, 36, 36,
    0, 1, 2, 3, 4, 5, 6, 7, 8, 9, 36, 36, 36, 36, 36, 36, 36, 10, 11, 12, 13, 14, 15, 16, 17, 18,
    19, 20, 21, 22, 23, 24, 25, 26, 27, 28, 29, 30, 31, 32, 33, 34, 35, 36, 36, 36, 36, 36, 36, 10,
    11, 12, 13, 14, 15, 16, 17, 18, 19, 20, 21, 22, 23, 24, 25, 26, 27, 28, 29, 30, 31, 32, 33, 34,
    35, 36, 36, 36, 36, 36, 36, 36, 36, 36, 36, 36, 36, 36, 36, 36, 36, 36, 36, 36, 36, 36, 36, 36,
    36, 36, 36, 36, 36, 36, 36, 36, 36, 36, 36, 36, 36, 36, 36, 36, 36, 36, 36, 36, 36, 36, 36, 36,
    36, 36, 36, 36, 36, 36, 36, 36, 36, 36, 36, 36, 36, 36, 36, 36, 36, 36, 36, 36, 36, 36, 36, 36,
    36, 36, 36, 36, 36, 36, 36, 36, 36, 36, 36, 36, 36, 36, 36, 36, 36, 36, 36, 36, 36, 36, 36, 36,
    36, 36, 36, 36, 36, 36, 36, 36, 36, 36, 36, 36, 36, 36, 36, 36, 36, 36, 36, 36, 36, 36, 36, 36,
    36, 36, 36, 36, 36, 36, 36, 36, 36, 36, 36, 36, 36, 36,
];

/// The value of a byte as a digit of a radix, if it is one.
#[inline(always)]
fn digit_of(radix: u64, byte: u8) -> Option<u64>
    ensures { IfSome result (λ digit. (digit_value byte < radix) × (digit ≡ digit_value byte)) }
{
    let digit = u64::from(DIGITS[usize::from(byte)]);
    if digit < radix { Some(digit) } else { None }
}

/// The number that the digits among the first `end` bytes of a text write, up to the first that is none, and what
/// follows them; none if no digit is read. It is inlined, so that each radix has a loop of its own.
#[inline(always)]
fn split_within(radix: u64, end: usize, text: &[u8]) -> Option<(u64, &[u8])>
    requires lower { 2 ≤ radix }
    requires upper { radix ≤ 36 }
    requires room { radix ^ end ≤ 2 ^ 64 }
    requires within { end ≤ length text.now }
    ensures { IfSome result (λ parts. BeginsWithDigits radix text.now parts.0 parts.1.now) }
{
    let mut number = 0;
    let mut len = 0;
    while len < end {
        let Some(digit) = digit_of(radix, text[len]) else {
            break;
        };
        number = number * radix + digit;
        len += 1;
    }
    if len == 0 {
        return None;
    }
    Some((number, &text[len..]))
}

/// The number that the digits at the start of a text write, of which no more than `most` are read, and what follows
/// them; none if no digit is read. Where the text is as long as that, how often the loop runs at most is known as it is
/// compiled.
#[inline(always)]
fn split_digits(radix: u64, most: usize, text: &[u8]) -> Option<(u64, &[u8])>
    requires lower { 2 ≤ radix }
    requires upper { radix ≤ 36 }
    requires room { radix ^ most ≤ 2 ^ 64 }
    ensures { IfSome result (λ parts. BeginsWithDigits radix text.now parts.0 parts.1.now) }
{
    if text.len() >= most {
        return split_within(radix, most, text);
    }
    split_within(radix, text.len(), text)
}

/// What follows this byte at the start of a text.
#[inline(always)]
fn behind(byte: u8, text: &[u8]) -> Option<&[u8]>
    ensures { IfSome result (λ rest. text.now ≡ byte ∷ rest.now) }
{
    let (first, rest) = text.split_first()?;
    if *first == byte { Some(rest) } else { None }
}

/// What follows `0x` at the start of a text.
#[inline(always)]
fn behind_mark(text: &[u8]) -> Option<&[u8]>
    ensures { IfSome result (λ rest. text.now ≡ 48 ∷ 120 ∷ rest.now) }
{
    behind(b'x', behind(b'0', text)?)
}

/// The number that the token at the start of a text writes, and what follows it.
#[inline(always)]
fn split_number(text: &[u8]) -> Option<(u64, &[u8])>
    ensures { IfSome result (λ parts. BeginsWithToken text.now parts.0 parts.1.now) }
{
    match behind_mark(text) {
        Some(digits) => split_digits(16, 16, digits),
        None => split_digits(10, 19, text),
    }
}

/// The numbers of the line at the start of a text, and what follows its line feed, if the line has the usual form.
/// None says nothing about the line: it is left to the general reader.
#[inline(always)]
pub(crate) fn split_usual_line(text: &[u8]) -> Option<(Line, &[u8])>
    ensures { IfSome result (λ parts. BeginsWithLine text.now parts.0 parts.1.now
        × (length parts.1.now < length text.now)) }
{
    let (plain, rest) = split_number(text)?;
    let (read, rest) = split_number(behind(b' ', rest)?)?;
    if let Some(rest) = behind(b'\n', rest) {
        let write = None;
        return Some((Line { plain, read, write }, rest));
    }
    let (write, rest) = split_number(behind(b' ', rest)?)?;
    let rest = behind(b'\n', rest)?;
    let write = Some(write);
    Some((Line { plain, read, write }, rest))
}
