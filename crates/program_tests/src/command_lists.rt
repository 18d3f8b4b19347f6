//! What is read of a table of commands.

use crate::expect::expect;
use run_tables::read_commands;
use sim_base::command::{Command, IssuedCommand, Source};
use sim_base::place::BankId;

const WITH_RANK: &str = "cycle,channel,command,rank,group,bank,row,column,core,entry
0,0,ACT,1,2,3,262143,,255,4611686018427387903
12,15,RD,3,0,1,7,1023,0,0
12,0,WR,0,3,0,0,0,1,9
30,0,PRE,0,1,2,,,3,4
31,0,PREA,3,,,,,,
4611686018427387903,1,REF,2,,,,,,
";

const WITHOUT_RANK: &str = "cycle,channel,command,group,bank,row,column,core,entry
5,1,ACT,1,2,6,,4,8
9,1,REF,,,,,,
";

// The commands of that table.
const ROWS: [IssuedCommand; 6] = [
    IssuedCommand {
        cycle: 0,
        channel: 0,
        command: Command::Act {
            bank: BankId {
                rank: 1,
                group: 2,
                bank: 3,
            },
            row: 262_143,
            source: Source {
                core: 255,
                entry: 4_611_686_018_427_387_903,
            },
        },
    },
    IssuedCommand {
        cycle: 12,
        channel: 15,
        command: Command::Rd {
            bank: BankId {
                rank: 3,
                group: 0,
                bank: 1,
            },
            row: 7,
            column: 1_023,
            source: Source { core: 0, entry: 0 },
        },
    },
    IssuedCommand {
        cycle: 12,
        channel: 0,
        command: Command::Wr {
            bank: BankId {
                rank: 0,
                group: 3,
                bank: 0,
            },
            row: 0,
            column: 0,
            source: Source { core: 1, entry: 9 },
        },
    },
    IssuedCommand {
        cycle: 30,
        channel: 0,
        command: Command::Pre {
            bank: BankId {
                rank: 0,
                group: 1,
                bank: 2,
            },
            source: Source { core: 3, entry: 4 },
        },
    },
    IssuedCommand {
        cycle: 31,
        channel: 0,
        command: Command::Prea { rank: 3 },
    },
    IssuedCommand {
        cycle: 4_611_686_018_427_387_903,
        channel: 1,
        command: Command::Ref { rank: 2 },
    },
];

// Those of the other.
const ROWS_WITHOUT_RANK: [IssuedCommand; 2] = [
    IssuedCommand {
        cycle: 5,
        channel: 1,
        command: Command::Act {
            bank: BankId {
                rank: 0,
                group: 1,
                bank: 2,
            },
            row: 6,
            source: Source { core: 4, entry: 8 },
        },
    },
    IssuedCommand {
        cycle: 9,
        channel: 1,
        command: Command::Ref { rank: 0 },
    },
];

// The two tables.
static READ: [(&str, &[IssuedCommand]); 2] = [
    (WITH_RANK, &ROWS),
    (WITHOUT_RANK, &ROWS_WITHOUT_RANK),
];

#[test]
fn each_kind_of_command(rt: HostRuntime) {
    for (table, want) in &READ {
        let list = read_commands(rt.alloc(), table.as_bytes()).expect(&rt, "a table");
        let rows = list.to_vec(rt.alloc()).expect(&rt, "memory");
        expect(&rt, &rows.as_slice(), want);
    }
}
