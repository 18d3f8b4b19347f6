//! The streams of the program.

use refusal::error_stream::ErrorStream;

/// The stream that answers are printed to, and the one that refusals and warnings are told on.
#[derive(Drop)]
pub struct Streams<P, E> {
    pub output: P,
    pub errors: ErrorStream<E>,
}
