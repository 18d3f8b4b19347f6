//! The stream that refusals are told on.

ghost use Rattle.std.specs.Prelude.{◌≡◌, ◌<◌, false, IsTrue, IfOk, IfErr, OnErr};
ghost use Rattle.std.specs.Io.{WritesAtMost};
ghost use Rattle.std.specs.IoError.{error_kind};
ghost use Rattle.refusal.specs.Streams.{has_refused, stream_of, Writes, StandsAsBefore, RefusesFor, StandsFor};

use std::io::{self, ErrorKind, Write};

/// A stream that refusals are told on. It keeps whether the stream has refused: it answered a write by an error other
/// than an interruption, or took none of its bytes.
#[derive(Drop)]
pub struct ErrorStream<E> {
    stream: E,
    has_refused: bool,
}

impl<E: Write> ErrorStream<E> {
    /// A stream that has refused nothing so far.
    pub fn new(stream: E) -> Self
        ensures stream { stream_of result ≡ stream }
        ensures refused { has_refused result ≡ false }
    {
        ErrorStream {
            stream,
            has_refused: false,
        }
    }

    /// The stream.
    pub fn stream(&self) -> &E
        ensures { result.now ≡ stream_of self.now }
    {
        &self.stream
    }

    /// Whether the stream has refused.
    pub fn has_refused(&self) -> bool
        ensures { result ≡ has_refused self.now }
    {
        self.has_refused
    }

    // Writes bytes, as many as the stream takes.
    fn write(&mut self, bytes: &[u8]) -> io::Result<usize>
        ensures bound { WritesAtMost result bytes.now }
        ensures bytes { Writes E.Write self.old self.new result bytes.now }
        ensures none { IfOk result (λ n. n ≡ 0 → IsTrue (has_refused self.new)) }
        ensures refused { IfErr result (λ e. RefusesFor (error_kind e) self.new) }
        ensures taken { IfOk result (λ n. 0 < n → StandsAsBefore self.old self.new) }
        ensures interrupted { IfErr result (λ e. StandsFor (error_kind e) self.old self.new) }
    {
        let answer = self.stream.write(bytes);
        match &answer {
            Ok(1..) => {}
            Err(error) if error.kind() == ErrorKind::Interrupted => {}
            _ => self.has_refused = true,
        }
        answer
    }

    /// Writes bytes, as many as the stream takes, again where a signal interrupts that. It has refused where it takes
    /// none.
    pub(crate) fn write_some(&mut self, bytes: &[u8]) -> io::Result<usize>
        ensures bound { WritesAtMost result bytes.now }
        ensures bytes { Writes E.Write self.old self.new result bytes.now }
        ensures none { IfOk result (λ n. n ≡ 0 → IsTrue (has_refused self.new)) }
        ensures refused { OnErr result (IsTrue (has_refused self.new)) }
        ensures taken { IfOk result (λ n. 0 < n → StandsAsBefore self.old self.new) }
    {
        for _ in 0..u64::MAX {
            match self.write(bytes) {
                Err(error) if error.kind() == ErrorKind::Interrupted => {}
                answer => return answer,
            }
        }
        self.has_refused = true;
        Err(io::Error::from(ErrorKind::Interrupted))
    }
}
