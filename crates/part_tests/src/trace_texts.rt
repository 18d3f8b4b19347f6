//! Texts of traces whose entries and faults are known.

use crate::expect::expect;
use cpu_trace::number::read_number;
use cpu_trace::reader::{read_trace, read_trace_in_pieces};
use cpu_trace::trace::Trace;
use sim_base::fault::LineCause;
use sim_base::trace::Entry;
use std::alloc::Global;
use std::process::Abort;
use std::thread::Threads;

// Adds the entries of a trace, each with a semicolon behind it: all, or the first 17 of many and the last three.
fn push_entries(rt: &impl Abort, alloc: Global, trace: &Trace, text: &mut String) {
    for place in 0..20u64 {
        let behind = trace.len().saturating_sub(20);
        let number = if place < 17 {
            place
        } else {
            behind.saturating_add(place)
        };
        if number < trace.len() {
            let entry = format!(in alloc; "{:?};", trace.entry_at(number)).expect(rt, "memory");
            text.push_str(&entry).expect(rt, "memory");
        }
    }
}

// Adds the first twenty Read and Write entries of a trace, each behind its number.
fn push_memory(rt: &impl Abort, alloc: Global, trace: &Trace, text: &mut String) {
    let mut from = 0u64;
    for _ in 0..20 {
        if let Some(next) = trace.next_memory(from) {
            let entry = format!(in alloc; " {} {:?}", next.number, next.entry);
            text.push_str(&entry.expect(rt, "memory"))
                .expect(rt, "memory");
            from = next.number.saturating_add(1);
        }
    }
}

// What a trace has: its entries, how many there are, and which are no Plain ones.
fn described(rt: &impl Abort, alloc: Global, trace: &Trace) -> String {
    let none = if trace.is_empty() { "none" } else { "" };
    let mut text = String::from_str(alloc, none).expect(rt, "memory");
    push_entries(rt, alloc, trace, &mut text);
    let count = format!(in alloc; " {} entries:", trace.len()).expect(rt, "memory");
    text.push_str(&count).expect(rt, "memory");
    push_memory(rt, alloc, trace, &mut text);
    text
}

// What core 0's trace is, read in pieces of a size where one is given, or why it is refused.
fn said_of<R: Abort + Threads + Sync>(
    rt: &R,
    alloc: Global,
    text: &[u8],
    size: Option<usize>,
) -> String {
    let answer = match size {
        Some(size) => read_trace_in_pieces(rt, alloc, 0, text, size),
        None => read_trace(rt, alloc, 0, text),
    };
    match answer {
        Ok(trace) => described(rt, alloc, &trace),
        Err(fault) => fault.to_string(alloc).expect(rt, "memory"),
    }
}

// Asserts what core 0's trace is, read in pieces of each of these sizes.
fn assert_read<R: Abort + Threads + Sync>(
    rt: &R,
    alloc: Global,
    text: &[u8],
    sizes: &[Option<usize>],
    want: &str,
) {
    let begin = text.get(..30).unwrap_or(text);
    for size in sizes {
        let found = said_of(rt, alloc, text, *size);
        expect(rt, &(begin, size, found.as_str()), &(begin, size, want));
    }
}

// The usual size, and that with others.
const USUAL_SIZE: &[Option<usize>] = &[None];

const SIZES: &[Option<usize>] = &[None, Some(0), Some(1), Some(2), Some(3), Some(7), Some(15)];

// A trace of three lines, of which the second is blank and the last has no end.
const THREE_LINES: &[u8] = b"0\t0x40\r\n\n 1  128";

// The entries of the three lines.
const OF_THREE_LINES: &str = "Read(64);Plain;Read(128); 3 entries: 0 Read(64) 2 Read(128)";

const TWO_LINES: &str = "Read(1);Plain;Read(2);Write(3); 4 entries: 0 Read(1) 2 Read(2) 3 Write(3)";

static TEXTS: [(&[u8], &str); 26] = [
    (THREE_LINES, OF_THREE_LINES),
    (b" \t\r\n\r\n", "none 0 entries:"),
    (
        b"1 0X1f 007\n",
        "Plain;Read(31);Write(7); 3 entries: 1 Read(31) 2 Write(7)",
    ),
    // Bad lines.
    (b"3", "fault 5: trace 0 line 1 too-few"),
    (b"1 2 3 4", "fault 5: trace 0 line 1 too-many"),
    (b"1 x", "fault 5: trace 0 line 1 not-a-number"),
    (
        b"0 18446744073709551616",
        "fault 5: trace 0 line 1 too-large",
    ),
    (b"#x", "fault 5: trace 0 line 1 too-few"),
    (b"# a", "fault 5: trace 0 line 1 not-a-number"),
    (b"# a b c", "fault 5: trace 0 line 1 too-many"),
    (b"0 \xff", "fault 5: trace 0 line 1 not-a-number"),
    (b"\xef\xbb\xbf0 0", "fault 5: trace 0 line 1 not-a-number"),
    (
        b"\n0 0\r\n \n0 0x\n5",
        "fault 5: trace 0 line 4 not-a-number",
    ),
    // Runs that are too long together.
    (b"4611686018427387903 0\n0 0", "fault 6: trace 0 too long"),
    (b"4611686018427387902 0 0\n0 0", "fault 6: trace 0 too long"),
    (
        b"18446744073709551615 0\n18446744073709551615 0",
        "fault 6: trace 0 too long",
    ),
    (
        b"18446744073709551615 0\n18446744073709551615 0\n1",
        "fault 5: trace 0 line 3 too-few",
    ),
    // Texts that are cut at blank lines, at line ends of two bytes, and with no last line end.
    (b"0 1\n1 2 3", TWO_LINES),
    (b"0 1\n1 2 3\n", TWO_LINES),
    (b"0 1\r\n1 2 3\r\n", TWO_LINES),
    (b"\n0 1\n\n\n1 2 3\n\n", TWO_LINES),
    (b"\r\n0 1\r\n\r\n \t\r\n1 2 3", TWO_LINES),
    (b"\n\n1\n\n2\n", "fault 5: trace 0 line 3 too-few"),
    (b"0 1\n0 2\n0 3\n4", "fault 5: trace 0 line 4 too-few"),
    // Runs are counts: of 2^62 entries at most.
    (
        b"4000000000 0",
        "Plain;Plain;Plain;Plain;Plain;Plain;Plain;Plain;Plain;Plain;Plain;Plain;Plain;Plain;Plain;Plain;Plain;Plain;Plain;Read(0); 4000000001 entries: 4000000000 Read(0)",
    ),
    (
        b"4611686018427387903 0",
        "Plain;Plain;Plain;Plain;Plain;Plain;Plain;Plain;Plain;Plain;Plain;Plain;Plain;Plain;Plain;Plain;Plain;Plain;Plain;Read(0); 4611686018427387904 entries: 4611686018427387903 Read(0)",
    ),
];

// The prefixes of the three lines, by their lengths.
static BEGINNINGS: [&str; 17] = [
    "none 0 entries:",
    "fault 5: trace 0 line 1 too-few",
    "fault 5: trace 0 line 1 too-few",
    "Read(0); 1 entries: 0 Read(0)",
    "fault 5: trace 0 line 1 not-a-number",
    "Read(4); 1 entries: 0 Read(4)",
    "Read(64); 1 entries: 0 Read(64)",
    "Read(64); 1 entries: 0 Read(64)",
    "Read(64); 1 entries: 0 Read(64)",
    "Read(64); 1 entries: 0 Read(64)",
    "Read(64); 1 entries: 0 Read(64)",
    "fault 5: trace 0 line 3 too-few",
    "fault 5: trace 0 line 3 too-few",
    "fault 5: trace 0 line 3 too-few",
    "Read(64);Plain;Read(1); 3 entries: 0 Read(64) 2 Read(1)",
    "Read(64);Plain;Read(12); 3 entries: 0 Read(64) 2 Read(12)",
    "Read(64);Plain;Read(128); 3 entries: 0 Read(64) 2 Read(128)",
];

#[test]
fn texts_are_read_or_refused(rt: HostRuntime) {
    for (text, want) in &TEXTS {
        assert_read(&rt, rt.alloc(), text, SIZES, want);
    }
    expect(&rt, &THREE_LINES.len(), &16);
    for (len, want) in BEGINNINGS.iter().enumerate() {
        let cut = THREE_LINES.get(..len).unwrap_or(b"none");
        assert_read(&rt, rt.alloc(), cut, SIZES, want);
    }
}

// Asserts that the copy of a trace of the three lines has their entries.
fn assert_copied(rt: &impl Abort, alloc: Global, trace: &Trace) {
    let copy = trace.copy().expect(rt, "memory");
    let found = described(rt, alloc, &copy);
    expect(rt, &found.as_str(), &OF_THREE_LINES);
}

// Traces that are built rather than read have the same entries.
#[test]
fn entries_of_copies(rt: HostRuntime) {
    let alloc = rt.alloc();
    let entries = [Entry::Read(64), Entry::Plain, Entry::Read(128)];
    let made = Trace::from_entries(alloc, &entries).expect(&rt, "memory");
    assert_copied(&rt, alloc, &made);
    let read = read_trace(&rt, alloc, 0, THREE_LINES).expect(&rt, "a trace");
    assert_copied(&rt, alloc, &read);
}

// A text, many times another one, and what stands behind them.
fn repeated(rt: &impl Abort, first: Vec<u8>, many: &[u8], count: u32, last: &[u8]) -> Vec<u8> {
    let mut text = first;
    for _ in 0..count {
        text.extend_from_slice(many).expect(rt, "memory");
    }
    text.extend_from_slice(last).expect(rt, "memory");
    text
}

fn bytes_of(rt: &impl Abort, alloc: Global, text: &[u8]) -> Vec<u8> {
    Vec::from_slice(alloc, text).expect(rt, "memory")
}

// How a text begins, what then stands in it and how often, how it ends, and what it means.
type Long<'x> = (&'x [u8], &'x [u8], u32, &'x [u8], &'x str);

const LAST_LINE: &str = "Plain;Read(2);Write(3); 3 entries: 1 Read(2) 2 Write(3)";

const USUAL: &str =
    "Plain;Read(64);Write(128);Plain;Read(64);Write(128);Plain;Read(64);Write(128);Plain;Read(64);Write(128);Plain;Read(64);Write(128);Plain;Read(64);Plain;Read(64);Write(128); 60000 entries: 1 Read(64) 2 Write(128) 4 Read(64) 5 Write(128) 7 Read(64) 8 Write(128) 10 Read(64) 11 Write(128) 13 Read(64) 14 Write(128) 16 Read(64) 17 Write(128) 19 Read(64) 20 Write(128) 22 Read(64) 23 Write(128) 25 Read(64) 26 Write(128) 28 Read(64) 29 Write(128)";

// Texts of 1 MiB with a line that is nearly as long, and texts of 20,000 lines of 24 bytes, which have two pieces of
// the usual size.
static LONG_TEXTS: [Long<'static>; 6] = [
    (b"1", b" ", 1_048_570, b"2 3\r\n", LAST_LINE),
    (b"1 0x", b"0", 1_048_570, b"2 3", LAST_LINE),
    (
        b"\n1 ",
        b"9",
        1_048_570,
        b" 3",
        "fault 5: trace 0 line 2 too-large",
    ),
    (
        b"\n1 ",
        b"9",
        1_048_570,
        b"x 3",
        "fault 5: trace 0 line 2 not-a-number",
    ),
    (b"", b"1     64           128\r\n", 20_000, b"", USUAL),
    (
        b"",
        b"1     64           128\r\n",
        20_000,
        b"\n\n7",
        "fault 5: trace 0 line 20003 too-few",
    ),
];

#[test]
fn long_texts(rt: HostRuntime) {
    for (first, many, count, last, want) in &LONG_TEXTS {
        let first = bytes_of(&rt, rt.alloc(), first);
        let text = repeated(&rt, first, many, *count, last);
        assert_read(&rt, rt.alloc(), &text, USUAL_SIZE, want);
    }
}

static NUMBERS: [(&[u8], Result<u64, LineCause>); 10] = [
    (b"18446744073709551615", Ok(u64::MAX)),
    (b"0xFFFFffffFFFFffff", Ok(u64::MAX)),
    (b"0XaBcD", Ok(43981)),
    (b"18446744073709551616", Err(LineCause::TooLarge)),
    (b"0x10000000000000000", Err(LineCause::TooLarge)),
    (b"18446744073709551616a", Err(LineCause::NotANumber)),
    (b"0x", Err(LineCause::NotANumber)),
    (b"0X", Err(LineCause::NotANumber)),
    (b"1f", Err(LineCause::NotANumber)),
    (b"+1", Err(LineCause::NotANumber)),
];

// The first bytes of a token of ten thousand zeros, its last, and its number.
static LONG_NUMBERS: [(&[u8], &[u8], u64); 2] = [(b"", b"7", 7), (b"0X", b"fF", 255)];

#[test]
fn numbers_of_tokens(rt: HostRuntime) {
    for (token, want) in &NUMBERS {
        expect(&rt, &(token, read_number(token)), &(token, *want));
    }
    for (first, last, want) in &LONG_NUMBERS {
        let first = bytes_of(&rt, rt.alloc(), first);
        let token = repeated(&rt, first, b"0", 10_000, last);
        expect(&rt, &read_number(&token), &Ok(*want));
    }
}

// Core 0's trace of 100,000 lines, in pieces of 4096 bytes.
#[test]
fn entries_of_a_long_text(rt: HostRuntime) {
    let text = repeated(&rt, Vec::new(rt.alloc()), b"0 64\n", 100_000, b"");
    let trace = read_trace_in_pieces(&rt, rt.alloc(), 0, &text, 4096).expect(&rt, "a trace");
    let mut reads = 0u64;
    for number in 0..trace.len() {
        if trace.entry_at(number) == Entry::Read(64) {
            reads = reads.saturating_add(1);
        }
    }
    expect(
        &rt,
        &(trace.len(), trace.is_empty(), reads),
        &(100_000, false, 100_000),
    );
}

// Of 100,000 lines the lines 70,001 and 90,000 are bad.
#[test]
fn faults_of_a_long_text(rt: HostRuntime) {
    let text = repeated(&rt, Vec::new(rt.alloc()), b"0 64\n", 70_000, b"1 x\n");
    let text = repeated(&rt, text, b"0 64\n", 19_998, b"3\n");
    let text = repeated(&rt, text, b"0 64\n", 10_000, b"");
    let want = "fault 5: trace 0 line 70001 not-a-number";
    assert_read(&rt, rt.alloc(), &text, &[None, Some(4096)], want);
}
