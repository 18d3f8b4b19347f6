//! Tables of a few commands: to writers that take all, little or nothing, and in pieces.

use crate::expect::expect;
use crate::written::{Report, assert_report};
use command_table::table::CommandTable;
use fixtures::lists::list_of_two;
use sim_base::command::{Command, IssuedCommand, Source};
use sim_base::place::BankId;
use std::alloc::Global;
use std::process::Abort;

const FIRST: BankId = BankId {
    rank: 0,
    group: 0,
    bank: 0,
};

const OTHER_RANK: BankId = BankId {
    rank: 1,
    group: 0,
    bank: 0,
};

const ACT: IssuedCommand = IssuedCommand {
    cycle: 2,
    channel: 0,
    command: Command::Act {
        bank: FIRST,
        row: 0,
        source: Source { core: 0, entry: 0 },
    },
};

const RD: IssuedCommand = IssuedCommand {
    cycle: 5,
    channel: 0,
    command: Command::Rd {
        bank: FIRST,
        row: 0,
        column: 0,
        source: Source { core: 0, entry: 0 },
    },
};

// The commands of one read of the first line.
const OF_ONE_READ: [IssuedCommand; 2] = [ACT, RD];

const ONE_READ: &str = "cycle,channel,command,group,bank,row,column,core,entry
2,0,ACT,0,0,0,,0,0
5,0,RD,0,0,0,0,0,0
";

// Commands that leave fields empty.
const WITHOUT_FIELDS: [IssuedCommand; 3] = [
    IssuedCommand {
        cycle: 17,
        channel: 0,
        command: Command::Pre {
            bank: FIRST,
            source: Source { core: 0, entry: 1 },
        },
    },
    IssuedCommand {
        cycle: 100,
        channel: 0,
        command: Command::Prea { rank: 0 },
    },
    IssuedCommand {
        cycle: 103,
        channel: 0,
        command: Command::Ref { rank: 0 },
    },
];

const OF_RANKS: [IssuedCommand; 6] = [
    IssuedCommand {
        cycle: 2,
        channel: 0,
        command: Command::Act {
            bank: FIRST,
            row: 0,
            source: Source { core: 0, entry: 0 },
        },
    },
    IssuedCommand {
        cycle: 3,
        channel: 0,
        command: Command::Act {
            bank: OTHER_RANK,
            row: 0,
            source: Source { core: 0, entry: 1 },
        },
    },
    IssuedCommand {
        cycle: 5,
        channel: 0,
        command: Command::Rd {
            bank: FIRST,
            row: 0,
            column: 0,
            source: Source { core: 0, entry: 0 },
        },
    },
    IssuedCommand {
        cycle: 11,
        channel: 0,
        command: Command::Rd {
            bank: OTHER_RANK,
            row: 0,
            column: 0,
            source: Source { core: 0, entry: 1 },
        },
    },
    IssuedCommand {
        cycle: 104,
        channel: 0,
        command: Command::Prea { rank: 1 },
    },
    IssuedCommand {
        cycle: 107,
        channel: 0,
        command: Command::Ref { rank: 1 },
    },
];

// A number of ranks, commands, and their table.
type Case<'x> = (u32, &'x [IssuedCommand], &'x str);

static TABLES: [Case<'static>; 3] = [
    (1, &OF_ONE_READ, ONE_READ),
    (
        1,
        &WITHOUT_FIELDS,
        "cycle,channel,command,group,bank,row,column,core,entry
17,0,PRE,0,0,,,0,1
100,0,PREA,,,,,,
103,0,REF,,,,,,
",
    ),
    (
        2,
        &OF_RANKS,
        "cycle,channel,command,rank,group,bank,row,column,core,entry
2,0,ACT,0,0,0,0,,0,0
3,0,ACT,1,0,0,0,,0,1
5,0,RD,0,0,0,0,0,0,0
11,0,RD,1,0,0,0,0,0,1
104,0,PREA,1,,,,,,
107,0,REF,1,,,,,,
",
    ),
];

#[test]
fn writes_commands(rt: HostRuntime) {
    for (ranks, rows, want) in &TABLES {
        let table = CommandTable::of_rows(rt.alloc(), rows).expect(&rt, "memory");
        assert_report(&rt, rt.alloc(), Report::Commands(*ranks, &table), want);
    }
}

// Commands of two other channels, some of the cycles of that read.
const PREA: IssuedCommand = IssuedCommand {
    cycle: 2,
    channel: 1,
    command: Command::Prea { rank: 0 },
};

const REF: IssuedCommand = IssuedCommand {
    cycle: 3,
    channel: 1,
    command: Command::Ref { rank: 0 },
};

const LATER_PREA: IssuedCommand = IssuedCommand {
    cycle: 5,
    channel: 2,
    command: Command::Prea { rank: 1 },
};

const LATER_REF: IssuedCommand = IssuedCommand {
    cycle: 7,
    channel: 2,
    command: Command::Ref { rank: 1 },
};

// The commands of the three channels by cycle, and those of a cycle by their channel.
static OF_CHANNELS: [IssuedCommand; 6] = [ACT, PREA, REF, RD, LATER_PREA, LATER_REF];

// The commands of a piece, of which there are three at most.
type Three = [Option<IssuedCommand>; 3];

const NO_COMMAND: Three = [None, None, None];

// The pieces that end where a channel has given one command.
static BY_ONE: [Three; 5] = [
    [Some(ACT), Some(PREA), None],
    [Some(REF), None, None],
    [Some(RD), Some(LATER_PREA), None],
    [Some(LATER_REF), None, None],
    NO_COMMAND,
];

// The pieces that end where a channel has given two.
static BY_TWO: [Three; 3] = [
    [Some(ACT), Some(PREA), Some(REF)],
    [Some(RD), Some(LATER_PREA), Some(LATER_REF)],
    NO_COMMAND,
];

fn table_of_channels(rt: &impl Abort, alloc: Global) -> CommandTable {
    let first = list_of_two(alloc, ACT, RD).expect(rt, "memory");
    let second = list_of_two(alloc, PREA, REF).expect(rt, "memory");
    let third = list_of_two(alloc, LATER_PREA, LATER_REF).expect(rt, "memory");
    let lists = Vec::from_array(alloc, [first, second, third]);
    CommandTable::of(lists.expect(rt, "memory"))
}

// Asserts the commands of each piece, of which there are three at most.
fn assert_pieces(
    rt: &impl Abort,
    alloc: Global,
    table: &CommandTable,
    most: usize,
    want: &[Three],
) {
    let mut read = Vec::new(alloc);
    for piece in &table.pieces(alloc, most).expect(rt, "memory") {
        let mut rows = piece.copied(alloc).expect(rt, "memory");
        let three = [rows.next(), rows.next(), rows.next()];
        read.push(three).expect(rt, "memory");
    }
    expect(rt, &(most, read.as_slice()), &(most, want));
}

#[test]
fn cuts_a_table_into_pieces(rt: HostRuntime) {
    let table = table_of_channels(&rt, rt.alloc());
    let rows = table.to_vec(rt.alloc()).expect(&rt, "memory");
    expect(&rt, &rows.as_slice(), &OF_CHANNELS.as_slice());
    assert_pieces(&rt, rt.alloc(), &table, 0, &BY_ONE);
    assert_pieces(&rt, rt.alloc(), &table, 1, &BY_ONE);
    assert_pieces(&rt, rt.alloc(), &table, 2, &BY_TWO);
}
