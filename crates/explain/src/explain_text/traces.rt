//! What is said of a trace that is refused.

use crate::explain_text::fragments::Fragment::{Foreign, Number, Words};
use crate::explain_text::lines::line_at;
use cpu_trace::number::read_number;
use measures::text_builder::TextBuilder;
use sim_base::fault::LineCause;
use std::alloc::{AllocError, Global};

/// The first bytes of a file that gzip wrote.
static GZIP: [u8; 2] = [0x1F, 0x8B];

/// The words of a line.
#[derive(Clone, Copy)]
struct LineWords<'a> {
    count: u64,
    /// The first one that is no number of at most 2^64 - 1.
    first_bad: Option<&'a [u8]>,
}

fn is_separator(byte: &u8) -> bool {
    matches!(byte, b' ' | b'\t' | b'\r')
}

fn words_of(line: &[u8]) -> LineWords<'_> {
    let mut count = 0u64;
    let mut first_bad = None;
    for word in line.split(is_separator) {
        if !word.is_empty() {
            count = count.saturating_add(1);
            if first_bad.is_none() && read_number(word).is_err() {
                first_bad = Some(word);
            }
        }
    }
    LineWords { count, first_bad }
}

// What is wrong with this word of a line with two or three.
fn put_word(text: &mut TextBuilder, word: &[u8]) {
    let form = match read_number(word) {
        Err(LineCause::TooLarge) => {
            "{} is above 2^64 - 1 = 18446744073709551615, the greatest number that may stand there\n"
        }
        _ => "'{}' is no number: decimal digits may stand there, or 0x and hexadecimal ones\n",
    };
    text.fill(form, &[Foreign(word)]);
}

// What is wrong with a line.
fn put_flaw(text: &mut TextBuilder, line: &[u8]) {
    let LineWords { count, first_bad } = words_of(line);
    let form = match (count, first_bad) {
        (2 | 3, Some(word)) => return put_word(text, word),
        (0 | 2 | 3, _) => "'COUNT READ' or 'COUNT READ WRITE' may stand there\n",
        (1, None) => "it has one number, where 'COUNT READ' or 'COUNT READ WRITE' may stand\n",
        (1, Some(_)) => "it has one word, where 'COUNT READ' or 'COUNT READ WRITE' may stand\n",
        (_, None) => "it has {} numbers, where 'COUNT READ' or 'COUNT READ WRITE' may stand\n",
        (_, Some(_)) => "it has {} words, where 'COUNT READ' or 'COUNT READ WRITE' may stand\n",
    };
    text.fill(form, &[Number(count)]);
}

// What stands on a line, if the line is there, and what is wrong with it.
fn put_line(text: &mut TextBuilder, line: Option<&[u8]>) {
    let Some(line) = line else {
        return put_flaw(text, b"");
    };
    text.fill("{}\n", &[Foreign(line.trim_ascii())]);
    put_flaw(text, line);
}

/// Says what stands on a line of a trace, counted from 1, and what is wrong with it, after the path and the line's
/// number. Of a compressed trace it says how to name it.
pub(crate) fn line_text(
    alloc: Global,
    path: &str,
    line: u64,
    trace: &[u8],
) -> Result<String, AllocError> {
    let mut text = TextBuilder::new(alloc);
    if trace.starts_with(&GZIP) {
        text.fill(
            "the trace is compressed by gzip: name <(zcat {}) in its place\n",
            &[Words(path)],
        );
    } else {
        put_line(&mut text, line_at(trace, line));
    }
    text.finish()
}
