//! Writers that fail.

use crate::expect::expect_at;
use crate::page_runs::{ALONE, ONE_READ, WHOLE, list_of, stats_of};
use page::fault::PageFault;
use page::page::write_page;
use page::window::RunCommands;
use std::io;
use std::io::{ErrorKind, Write};

/// Takes `left` writes, of at most 1,000 bytes each. Then it takes no byte, or fails.
#[derive(Drop)]
struct Failing {
    left: u64,
    fails: bool,
}

impl Write for Failing {
    fn write(&mut self, buf: &[u8]) -> io::Result<usize> {
        if self.left > 0 {
            self.left -= 1;
            return Ok(buf.len().min(1_000));
        }
        if self.fails {
            return Err(io::Error::from(ErrorKind::BrokenPipe));
        }
        Ok(0)
    }

    fn flush(&mut self) -> io::Result<()> {
        Ok(())
    }
}

// How many writes are taken, whether the next one fails, and how the writing ends.
static ENDS: [(u64, bool, Result<(), PageFault>); 11] = [
    (0, false, Err(PageFault::Write)),
    (0, true, Err(PageFault::Write)),
    (1, false, Err(PageFault::Write)),
    (1, true, Err(PageFault::Write)),
    (2, false, Err(PageFault::Write)),
    (2, true, Err(PageFault::Write)),
    (5, false, Err(PageFault::Write)),
    (5, true, Err(PageFault::Write)),
    (9, false, Err(PageFault::Write)),
    (9, true, Err(PageFault::Write)),
    (u64::MAX, true, Ok(())),
];

#[test]
fn a_writer_that_fails_is_told(rt: HostRuntime) {
    let stats = stats_of(&rt, rt.alloc(), 1000);
    let commands = list_of(&rt, rt.alloc(), &ONE_READ);
    let run = RunCommands {
        stats: &stats,
        commands: &commands,
    };
    for (left, fails, want) in &ENDS {
        let mut writer = Failing {
            left: *left,
            fails: *fails,
        };
        let ended = write_page(rt.alloc(), &run, ALONE, WHOLE, &mut writer);
        expect_at(&rt, left, &ended, want);
    }
}
