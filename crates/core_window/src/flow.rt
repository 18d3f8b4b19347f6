//! Cycles in which a core issues its width of Plain entries, one after the other.

ghost use Rattle.std.specs.Prelude.{◌+◌, ◌*◌, ◌<◌, ◌≤◌};
ghost use Rattle.core_window.specs.Work.{IsFlowOf};

use crate::outstanding::OutstandingRead;

/// In each of `cycles` cycles a core issues its width of Plain entries and retires `retired` entries.
#[derive(Clone, Copy)]
pub struct Flow {
    pub retired: u16,
    pub cycles: u64,
}

/// The numbers of a core by which entries go through its window: its width and its window, how many entries it issued
/// and retired, and how many of the next ones are Plain, except for the last of its trace.
#[derive(Clone, Copy)]
pub struct WindowNumbers {
    pub width: u16,
    pub window: u32,
    pub issued: u64,
    pub retired: u64,
    pub plain: u64,
}

/// How many cycles take no more than `entries` entries, where each takes `width` of them; at most `most`.
pub(crate) fn cycles_within(entries: u64, width: u16, most: u64) -> u64
    requires { 0 < width }
    ensures entries { result * width ≤ entries }
    ensures most { result ≤ most }
{
    if entries < u64::from(width) {
        0
    } else {
        (entries / u64::from(width)).min(most)
    }
}

/// The cycles, at most `most` of them, in which the core issues its width of Plain entries and does the same in each.
/// Where the core cannot do so in the next cycle, there are none.
pub fn flow_of(numbers: &WindowNumbers, outstanding: &[OutstandingRead], most: u64) -> Flow
    requires positive { 0 < numbers.now.width }
    requires order { numbers.now.retired ≤ numbers.now.issued }
    requires room { numbers.now.issued ≤ numbers.now.retired + numbers.now.window }
    ensures flow { IsFlowOf numbers.now outstanding.now result }
    ensures plain { result.cycles * numbers.now.width ≤ numbers.now.plain }
    ensures most { result.cycles ≤ most }
{
    let within = numbers.issued - numbers.retired;
    let Some(read) = outstanding.first() else {
        let entries = if within < u64::from(numbers.width) {
            0
        } else {
            numbers.plain
        };
        return Flow {
            retired: numbers.width,
            cycles: cycles_within(entries, numbers.width, most),
        };
    };
    let done = read.entry.saturating_sub(numbers.retired);
    if done == 0 {
        let room = u64::from(numbers.window) - within;
        Flow {
            retired: 0,
            cycles: cycles_within(numbers.plain.min(room), numbers.width, most),
        }
    } else {
        Flow {
            retired: numbers.width,
            cycles: cycles_within(numbers.plain.min(done), numbers.width, most),
        }
    }
}
