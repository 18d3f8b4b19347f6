//! The line, as it is written.

ghost use Rattle.std.specs.Prelude.{◌≡◌, IfOk, string_bytes};
ghost use Rattle.progress.specs.Line.{line_of};

use crate::figures::Figures;
use std::alloc::{AllocError, Global};
use std::fmt;

/// A number in groups of three digits: `4,200,000`.
#[derive(Clone, Copy)]
struct Grouped(u64);

/// What the groups of a number are worth.
static GROUPS: [u64; 7] = [
    1_000_000_000_000_000_000,
    1_000_000_000_000_000,
    1_000_000_000_000,
    1_000_000_000,
    1_000_000,
    1_000,
    1,
];

impl fmt::Display for Grouped {
    fn fmt<W: fmt::Write>(&self, f: &mut fmt::Formatter<W>) -> fmt::Result {
        let mut begun = false;
        for worth in &GROUPS {
            let group = self.0.checked_div(*worth).unwrap_or(0) % 1_000;
            if begun {
                write!(f, ",{group:03}")?;
            } else if group > 0 || *worth == 1 {
                write!(f, "{group}")?;
                begun = true;
            }
        }
        Ok(())
    }
}

/// A number with a letter for thousands, millions or more, and then one decimal: `950`, `1.2 M`.
#[derive(Clone, Copy)]
struct Rounded(u128);

impl fmt::Display for Rounded {
    fn fmt<W: fmt::Write>(&self, f: &mut fmt::Formatter<W>) -> fmt::Result {
        let (tenth, letter) = match self.0 {
            0..1_000 => return write!(f, "{}", self.0),
            1_000..1_000_000 => (100, 'k'),
            1_000_000..1_000_000_000 => (100_000, 'M'),
            _ => (100_000_000, 'G'),
        };
        let tenths = self.0 / tenth;
        write!(f, "{}.{} {letter}", tenths / 10, tenths % 10)
    }
}

/// A time in seconds: `0:12`, `1:02:03`.
#[derive(Clone, Copy)]
struct Clock(u128);

impl fmt::Display for Clock {
    fn fmt<W: fmt::Write>(&self, f: &mut fmt::Formatter<W>) -> fmt::Result {
        let (hours, minutes, seconds) = (self.0 / 3_600, self.0 / 60 % 60, self.0 % 60);
        if hours == 0 {
            write!(f, "{minutes}:{seconds:02}")
        } else {
            write!(f, "{hours}:{minutes:02}:{seconds:02}")
        }
    }
}

impl fmt::Display for Figures {
    fn fmt<W: fmt::Write>(&self, f: &mut fmt::Formatter<W>) -> fmt::Result {
        write!(f, "{} cycles", Grouped(self.cycles))?;
        if let Some(percent) = self.percent {
            write!(f, ", {percent} % of the traces")?;
        }
        if let Some(rate) = self.rate {
            write!(f, ", {} cycles/s", Rounded(rate))?;
        }
        if let Some(left) = self.left {
            write!(f, ", {} left", Clock(left))?;
        }
        Ok(())
    }
}

/// The text, cut or filled with spaces to 79 characters, after a carriage return: it replaces the line that stood
/// there. The only error is out of memory.
pub fn line_of(alloc: Global, text: &str) -> Result<String, AllocError>
    ensures { IfOk result (λ line. string_bytes line ≡ line_of text.now) }
{
    format!(in alloc; "\r{text:<79.79}")
}
