//! Writers for tests.

use std::io;
use std::io::{ErrorKind, Write};

/// Takes one byte per call, of which each is to be the next one of a text. After `calls` calls it takes none, or fails.
#[derive(Clone, Copy)]
pub(crate) struct Slow<'x> {
    /// What has still to come of the text.
    pub(crate) rest: &'x [u8],
    /// Whether what came so far is the text's.
    pub(crate) is_right: bool,
    pub(crate) calls: usize,
    pub(crate) fails: bool,
}

impl<'x> Slow<'x> {
    pub(crate) fn new(text: &'x str, calls: usize, fails: bool) -> Self {
        Slow {
            rest: text.as_bytes(),
            is_right: true,
            calls,
            fails,
        }
    }
}

impl<'x> Write for Slow<'x> {
    fn write(&mut self, buf: &[u8]) -> io::Result<usize> {
        if self.calls == 0 && self.fails {
            return Err(io::Error::from(ErrorKind::BrokenPipe));
        }
        if self.calls == 0 || buf.is_empty() {
            return Ok(0);
        }
        self.calls -= 1;
        match self.rest.split_first() {
            Some((next, rest)) if *next == buf[0] => self.rest = rest,
            _ => self.is_right = false,
        }
        Ok(1)
    }

    fn flush(&mut self) -> io::Result<()> {
        Ok(())
    }
}
