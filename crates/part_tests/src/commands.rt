//! Commands of two channels, whose order in a table is known by hand.

use crate::expect::expect;
use command_table::list::CommandList;
use command_table::table::CommandTable;
use fixtures::lists::list_of_two;
use sim_base::command::{Command, IssuedCommand, Source};
use sim_base::place::BankId;
use std::alloc::Global;
use std::process::Abort;

const BANK: BankId = BankId {
    rank: 1,
    group: 2,
    bank: 3,
};

/// An entry that is kept in few bytes.
const SMALL: Source = Source { core: 4, entry: 5 };

/// The first entry that is not.
const LARGE: Source = Source {
    core: 4,
    entry: 1 << 32,
};

/// Two commands of the first channel, and two of the second.
const ACT: IssuedCommand = IssuedCommand {
    cycle: 3,
    channel: 0,
    command: Command::Act {
        bank: BANK,
        row: 6,
        source: SMALL,
    },
};

const RD: IssuedCommand = IssuedCommand {
    cycle: 9,
    channel: 0,
    command: Command::Rd {
        bank: BANK,
        row: 6,
        column: 7,
        source: LARGE,
    },
};

const PRE: IssuedCommand = IssuedCommand {
    cycle: 3,
    channel: 1,
    command: Command::Pre {
        bank: BANK,
        source: SMALL,
    },
};

const REF: IssuedCommand = IssuedCommand {
    cycle: 5,
    channel: 1,
    command: Command::Ref { rank: 1 },
};

/// The commands of two lists by cycle; of one cycle, the command of the first list comes first.
static ALL: [IssuedCommand; 4] = [ACT, PRE, REF, RD];

/// A list has two commands, and a list with nothing none.
fn assert_kept(rt: &impl Abort, alloc: Global, list: &CommandList) {
    let rows = list.to_vec(alloc).expect(rt, "memory");
    let none = CommandList::new(alloc);
    expect(
        rt,
        &(
            (list.len(), list.is_empty(), none.len(), none.is_empty()),
            (list.get(1), list.get(2)),
            rows.as_slice(),
        ),
        &((2, false, 0, true), (Some(RD), None), [ACT, RD].as_slice()),
    );
}

/// Asserts all commands of a table, and that it gives them one after the other.
fn assert_all(rt: &impl Abort, alloc: Global, table: &CommandTable, want: &[IssuedCommand]) {
    let all = table.to_vec(alloc).expect(rt, "memory");
    let mut rows = table.rows(alloc).expect(rt, "memory");
    let first = [rows.next(), rows.next()];
    expect(
        rt,
        &(all.as_slice(), first),
        &(want, [want.first().copied(), want.get(1).copied()]),
    );
}

/// Two commands of one cycle.
const REF_TOO: IssuedCommand = IssuedCommand { cycle: 3, ..REF };

#[test]
fn keeps_commands_by_cycle(rt: HostRuntime) {
    let alloc = rt.alloc();
    let first = list_of_two(alloc, ACT, RD).expect(&rt, "memory");
    assert_kept(&rt, alloc, &first);
    let second = list_of_two(alloc, PRE, REF).expect(&rt, "memory");
    let lists = Vec::from_array(alloc, [first, second]).expect(&rt, "memory");
    assert_all(&rt, alloc, &CommandTable::of(lists), &ALL);
    let rows = [PRE, REF_TOO];
    let table = CommandTable::of_rows(alloc, &rows).expect(&rt, "memory");
    assert_all(&rt, alloc, &table, &rows);
}
