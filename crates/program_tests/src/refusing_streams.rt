//! What a stream is told that takes little at a time, is interrupted, and may refuse.

use crate::expect::expect_at;
use refusal::error_stream::ErrorStream;
use refusal::lines::write_lines;
use refusal::refusal::Refusal;
use sim_base::fault::Fault;
use std::io::{self, ErrorKind, Write};
use std::process::Abort;

/// A stream that takes at most five bytes at a time, refuses once it has as many bytes as it has room for, and before
/// each other answer is interrupted.
#[derive(Drop)]
struct SlowStream {
    taken: Vec<u8>,
    room: usize,
    is_interrupted: bool,
}

impl Write for SlowStream {
    fn write(&mut self, buf: &[u8]) -> io::Result<usize> {
        self.is_interrupted = !self.is_interrupted;
        if self.is_interrupted {
            return Err(io::Error::from(ErrorKind::Interrupted));
        }
        let room = self.room.saturating_sub(self.taken.len());
        if room == 0 {
            return Err(io::Error::from(ErrorKind::StorageFull));
        }
        let count = buf.len().min(room).min(5);
        self.taken.extend_from_slice(&buf[..count])?;
        Ok(count)
    }

    fn flush(&mut self) -> io::Result<()> {
        Ok(())
    }
}

// The room of a stream, whether it takes the whole of a refusal, and what it takes.
static TOLD: [(usize, bool, &str); 3] = [
    (100, true, "fault 13: read\n"),
    (7, false, "fault 1"),
    (0, false, ""),
];

fn assert_told(rt: &(impl Abort + AllocGlobal), room: usize, is_whole: bool, text: &str) {
    let mut errors = ErrorStream::new(SlowStream {
        taken: Vec::new(rt.alloc()),
        room,
        is_interrupted: false,
    });
    let answer = write_lines(&mut errors, &Refusal::from(Fault::Read));
    let told = str::from_utf8(&errors.stream().taken).unwrap_or("no text");
    expect_at(rt, &room, &(answer.is_ok(), told), &(is_whole, text));
    expect_at(rt, &room, &errors.has_refused(), &!is_whole);
}

#[test]
fn tells_as_far_as_a_stream_takes_it(rt: HostRuntime) {
    for (room, is_whole, text) in &TOLD {
        assert_told(&rt, *room, *is_whole, text);
    }
}
