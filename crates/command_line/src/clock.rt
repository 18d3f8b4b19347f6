//! The frequency of a clock, as words state it in MHz.

ghost use Rattle.std.specs.Prelude.{◌≡◌, ◌<◌, ◌≤◌, fold};
ghost use Rattle.command_line.specs.Clock.{with_point, with_digit, with_byte, read_on, in_range, clock_of};

/// The place of the next digit of a decimal number.
#[derive(Clone, Copy)]
enum DigitPlace {
    Whole,
    Tenth,
    Hundredth,
    Thousandth,
    /// There is none.
    End,
}

/// A decimal number as far as it is read, in thousandths.
#[derive(Clone, Copy)]
struct Reading {
    thousandths: u64,
    place: DigitPlace,
}

/// No clock has as many thousandths of a MHz.
const LIMIT: u64 = 1_000_000_000;

// A point stands behind whole digits alone.
fn with_point(read: Reading) -> Option<Reading>
    ensures { result ≡ with_point read }
{
    match read.place {
        DigitPlace::Whole => Some(Reading {
            thousandths: read.thousandths,
            place: DigitPlace::Tenth,
        }),
        _ => None,
    }
}

fn with_digit(read: Reading, digit: u64) -> Option<Reading>
    requires small { read.thousandths < 1000000000 }
    requires digit { digit ≤ 9 }
    ensures { result ≡ with_digit read digit }
{
    let sum = read.thousandths;
    let (thousandths, place) = match read.place {
        DigitPlace::Whole => (10 * sum + 1_000 * digit, DigitPlace::Whole),
        DigitPlace::Tenth => (sum + 100 * digit, DigitPlace::Hundredth),
        DigitPlace::Hundredth => (sum + 10 * digit, DigitPlace::Thousandth),
        DigitPlace::Thousandth => (sum + digit, DigitPlace::End),
        DigitPlace::End => return None,
    };
    Some(Reading { thousandths, place })
}

fn with_byte(read: Reading, byte: u8) -> Option<Reading>
    ensures { result ≡ with_byte read byte }
{
    if byte == b'.' {
        with_point(read)
    } else if b'0' <= byte && byte <= b'9' && read.thousandths < LIMIT {
        with_digit(read, u64::from(byte - b'0'))
    } else {
        None
    }
}

fn read_on(read: Option<Reading>, byte: &u8) -> Option<Reading>
    ensures { result ≡ read_on read byte.now }
{
    match read {
        Some(read) => with_byte(read, *byte),
        None => None,
    }
}

// A number of thousandths that is above 0 and below a million.
fn in_range(read: Option<Reading>) -> Option<u64>
    ensures { result ≡ in_range read }
{
    match read {
        Some(read) if 0 < read.thousandths && read.thousandths < LIMIT => Some(read.thousandths),
        _ => None,
    }
}

/// The frequency that a text states in MHz, in kHz: a decimal number with at most three places behind the point, above
/// 0 and below a million.
#[tactic(auto, unfolding(crate::specs::Clock::clock_of))]
pub fn read_clock(text: &str) -> Option<u64>
    ensures { result ≡ clock_of text.now }
{
    let start = Some(Reading {
        thousandths: 0,
        place: DigitPlace::Whole,
    });
    in_range(text.as_bytes().iter().fold(start, read_on))
}
