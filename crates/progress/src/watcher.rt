//! Who watches a run and draws the line.

ghost use Rattle.std.specs.Prelude.{◌≡◌, None};

use crate::figures::Figures;
use crate::line::line_of;
use crate::pace::{FIRST_INTERVAL, next_interval};
use sim_base::message::Cycle;
use simulation::watch::{Stage, Watch};
use std::alloc::{AllocError, Global};
use std::io::Write;
use std::rt::Clock;
use std::time::Instant;

/// Nothing is drawn of a run until it has gone on for this many milliseconds.
const QUIET: u128 = 1_000;

/// How many milliseconds a line stands before it is redrawn.
const STANDS: u128 = 500;

/// When a run began, when it was looked at last, how far it went since, and when the line was drawn.
#[derive(Clone, Copy)]
struct Progress {
    begun: Instant,
    looked: Instant,
    interval: Cycle,
    drawn: Option<Instant>,
}

impl Progress {
    // A run that begins.
    fn begun(now: Instant) -> Progress {
        Progress {
            begun: now,
            looked: now,
            interval: FIRST_INTERVAL,
            drawn: None,
        }
    }

    // The progress once the run is looked at again.
    fn looked_at(self, now: Instant) -> Progress {
        let interval = next_interval(self.interval, now.duration_since(self.looked));
        Progress {
            looked: now,
            interval,
            ..self
        }
    }

    // Whether it is time to draw the line.
    fn is_due(&self) -> bool {
        match self.drawn {
            Some(drawn) => self.looked.duration_since(drawn).as_millis() >= STANDS,
            None => self.looked.duration_since(self.begun).as_millis() >= QUIET,
        }
    }
}

/// Draws how far a run is, on one line, twice a second from its first second on, and clears the line where the run has
/// ended. If the clock fails, no line is drawn; if the stream or memory refuses a line, nothing else changes.
#[derive(Drop)]
pub struct ProgressLine<'a, C: Clock, E: Write> {
    alloc: Global,
    clock: &'a C,
    errors: E,
    watches: bool,
    progress: Option<Progress>,
}

impl<'a, C: Clock, E: Write> ProgressLine<'a, C, E> {
    /// A line on this stream, by this clock. If the stream is not a terminal, no run is watched.
    pub fn new(alloc: Global, clock: &'a C, errors: E, is_terminal: bool) -> Self
        ensures watches { result.watches ≡ is_terminal }
        ensures begun { result.progress ≡ None }
    {
        ProgressLine {
            alloc,
            clock,
            errors,
            watches: is_terminal,
            progress: None,
        }
    }

    // The text in place of the line.
    fn draw(&mut self, text: &str) -> Result<(), AllocError> {
        let line = line_of(self.alloc, text)?;
        let _ = self.errors.write_all(line.as_bytes());
        let _ = self.errors.flush();
        Ok(())
    }

    fn draw_figures(&mut self, figures: Figures) -> Result<(), AllocError> {
        let text = figures.to_string(self.alloc)?;
        self.draw(text.as_str())
    }
}

impl<'a, C: Clock, E: Write> Watch for ProgressLine<'a, C, E> {
    fn watches(&self) -> bool {
        self.watches
    }

    fn next_interval(&mut self, stage: &Stage) -> Cycle {
        let Ok(now) = Instant::now(self.clock) else {
            return Cycle::MAX;
        };
        let mut progress = match self.progress {
            Some(progress) => progress.looked_at(now),
            None => Progress::begun(now),
        };
        if progress.is_due() {
            progress.drawn = Some(now);
            let figures = Figures::of(*stage, now.duration_since(progress.begun));
            let _ = self.draw_figures(figures);
        }
        self.progress = Some(progress);
        progress.interval
    }

    fn end(&mut self) {
        let is_drawn = match self.progress {
            Some(progress) => progress.drawn.is_some(),
            None => false,
        };
        self.progress = None;
        if is_drawn {
            let _ = self.draw("");
            let _ = self.errors.write_all(b"\r");
            let _ = self.errors.flush();
        }
    }
}
