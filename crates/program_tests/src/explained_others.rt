//! Why traces, numbers and tables are refused, and what to do where the host refuses.

use crate::explained::{Asked, Case};
use explain::TableKind;
use sim_base::fault::{Fault, LineCause};

/// A table of commands with what may be wrong in its rows.
const COMMANDS: &str =
    "cycle,channel,command,group,bank,row,column,core,entry\n0,0,REF,,,,,,\n\n1,0,ref,,,,,,\n2,0,\"A\u{7}CT\"\n3,0,REF,,,,,,0x4\n3,9,REF,,,,,,\n";

pub(crate) static OF_OTHERS: [Case; 30] = [
    (
        Asked::Line(LineCause::TooFew, "1 2\n\n 100 \r\n1 2\n"),
        "b.trace:3: 100\nit has one number, where 'COUNT READ' or 'COUNT READ WRITE' may stand\n",
    ),
    (
        Asked::Line(LineCause::TooFew, "\n\nhello"),
        "b.trace:3: hello\nit has one word, where 'COUNT READ' or 'COUNT READ WRITE' may stand\n",
    ),
    (
        Asked::Line(LineCause::TooMany, "\n\n1 2\t3 0X4\n"),
        "b.trace:3: 1 2 3 0X4\nit has 4 numbers, where 'COUNT READ' or 'COUNT READ WRITE' may stand\n",
    ),
    (
        Asked::Line(LineCause::TooMany, "\n\n# a trace of mine\n"),
        "b.trace:3: # a trace of mine\nit has 5 words, where 'COUNT READ' or 'COUNT READ WRITE' may stand\n",
    ),
    (
        Asked::Line(LineCause::NotANumber, "\n\n10 0x1f W\n"),
        "b.trace:3: 10 0x1f W\n'W' is no number: decimal digits may stand there, or 0x and hexadecimal ones\n",
    ),
    (
        Asked::Line(LineCause::NotANumber, "\n\n10 0x 18446744073709551616\n"),
        "b.trace:3: 10 0x 18446744073709551616\n'0x' is no number: decimal digits may stand there, or 0x and hexadecimal ones\n",
    ),
    (
        Asked::Line(LineCause::TooLarge, "\n\n10 18446744073709551616 W\n"),
        "b.trace:3: 10 18446744073709551616 W
18446744073709551616 is above 2^64 - 1 = 18446744073709551615, the greatest number that may stand there\n",
    ),
    (
        Asked::Line(LineCause::NotANumber, "\n\n\u{9b}1m ä\n"),
        "b.trace:3: \\u{9b}1m ä\n'\\u{9b}1m' is no number: decimal digits may stand there, or 0x and hexadecimal ones\n",
    ),
    (
        Asked::Line(LineCause::TooFew, "\n\n1 2\n"),
        "b.trace:3: 1 2\n'COUNT READ' or 'COUNT READ WRITE' may stand there\n",
    ),
    (
        Asked::Line(LineCause::TooFew, "1 2\n"),
        "b.trace:3: 'COUNT READ' or 'COUNT READ WRITE' may stand there\n",
    ),
    (
        Asked::FirstLine(b"\x1F\x8B\x08\x08\x00 2\n"),
        "b.trace:1: the trace is compressed by gzip: name <(zcat b.trace) in its place\n",
    ),
    (
        Asked::TooLong,
        "a.trace: its lines stand for more than 2^62 entries: 'COUNT READ' for COUNT + 1, 'COUNT READ WRITE' for COUNT + 2\n",
    ),
    (
        Asked::Numbers(Fault::TraceCount, Some(8), 4),
        "4 traces are named, and the configuration has 8 cores: name one for each core, the same file more than once if need be\n",
    ),
    (
        Asked::Numbers(Fault::TraceCount, Some(1), 0),
        "0 traces are named, and the configuration has 1 core: name one for each core, the same file more than once if need be\n",
    ),
    (
        Asked::Numbers(Fault::TraceCount, None, 1),
        "1 trace is named: name one for each core, the same file more than once if need be\n",
    ),
    (
        Asked::Numbers(Fault::Workers, Some(8), 8),
        "--workers 65, where 1 to 64 may stand\n",
    ),
    (
        Asked::Numbers(Fault::Cycles, Some(8), 8),
        "--cycles 1000000000001, where 0 to 1000000000000 may stand\n",
    ),
    (Asked::Numbers(Fault::Read, None, 0), ""),
    (
        Asked::Row(TableKind::Commands, 2, COMMANDS),
        "t.csv: row 2: 1,0,ref,,,,,,\n'ref' is no command: ACT, RD, WR, PRE, PREA or REF may stand there\n",
    ),
    (
        Asked::Row(TableKind::Commands, 3, COMMANDS),
        "t.csv: row 3: 2,0,A\\u{7}CT\nit has 3 fields, and the header has 9\n",
    ),
    (
        Asked::Row(TableKind::Commands, 4, COMMANDS),
        "t.csv: row 4: 3,0,REF,,,,,,0x4\n'0x4' is no number: decimal digits may stand there\n",
    ),
    (
        Asked::Row(TableKind::Commands, 5, COMMANDS),
        "t.csv: row 5: 3,9,REF,,,,,,
a field is missing that the command has, or stands there that it has not, or is out of its range in the configuration\n",
    ),
    (
        Asked::Row(TableKind::Commands, 6, COMMANDS),
        "t.csv: row 6 is missing\n",
    ),
    (
        Asked::Row(TableKind::Commands, 0, "0,0,REF,,,,,,\n"),
        "t.csv: row 0: 0,0,REF,,,,,,
the header must be cycle,channel,command,group,bank,row,column,core,entry, with rank before group where a channel has several ranks\n",
    ),
    (
        Asked::Row(TableKind::Statistics, 0, ",id,name,value\n"),
        "t.csv: row 0: ,id,name,value\nthe header must be scope,id,name,value\n",
    ),
    (
        Asked::Row(TableKind::Statistics, 0, ""),
        "t.csv: row 0 is missing\nthe header must be scope,id,name,value\n",
    ),
    (
        Asked::Row(
            TableKind::Statistics,
            1,
            "scope,id,name,value\nrun,0,cycle,5\n",
        ),
        "t.csv: row 1: run,0,cycle,5\na run writes another record there\n",
    ),
    (
        Asked::Host(Fault::Memory),
        "the host refused memory: a run takes less with a lower limit of --cycles, with fewer --workers, or with shorter traces\n",
    ),
    (
        Asked::Host(Fault::WorkerStart),
        "the host refused to start a thread: name fewer --workers; with --workers 1 none is started\n",
    ),
    (Asked::Host(Fault::Write), ""),
];
