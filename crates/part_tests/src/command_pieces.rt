//! The table of commands put together by several threads.

ghost use Rattle.std.specs.Prelude.{IfOk};
ghost use Rattle.command_table.specs.Tables.{IsRising};

use crate::expect::expect;
use crate::slow::Slow;
use command_table::list::CommandList;
use command_table::table::CommandTable;
use reports::{TableThreads, write_commands_by};
use sim_base::command::{Command, IssuedCommand};
use sim_base::fault::Fault;
use std::alloc::{AllocError, Global};
use std::process::Abort;
use std::thread::Threads;

/// The caller alone puts a few commands together. 40,000 of one channel are 20 pieces, which is enough for threads:
/// each puts a piece together, and several rounds of pieces are written.
static COUNTS: [u64; 3] = [0, 3, 40_000];

/// Commands of `count` cycles, one in each.
fn list_of(alloc: Global, count: u64) -> Result<CommandList, AllocError>
    ensures { IfOk result IsRising }
{
    let mut list = CommandList::new(alloc);
    for cycle in 0..count {
        list.push(IssuedCommand {
            cycle,
            channel: 0,
            command: Command::Prea { rank: 0 },
        })?;
    }
    Ok(list)
}

fn table_of(rt: &impl Abort, alloc: Global, count: u64) -> CommandTable {
    let list = list_of(alloc, count).expect(rt, "memory");
    let lists = Vec::from_array(alloc, [list]).expect(rt, "memory");
    CommandTable::of(lists)
}

/// The text of that table.
fn text_of(rt: &impl Abort, alloc: Global, count: u64) -> String {
    let header = "cycle,channel,command,group,bank,row,column,core,entry\n";
    let mut text = String::from_str(alloc, header).expect(rt, "memory");
    for cycle in 0..count {
        let line = format!(in alloc; "{cycle},0,PREA,,,,,,\n").expect(rt, "memory");
        text.push_str(line.as_str()).expect(rt, "memory");
    }
    text
}

// Asserts what this many threads write, and that a writer that takes only one byte is reported.
fn assert_written<R: Threads + Sync + Abort>(
    rt: &R,
    alloc: Global,
    (table, want): (&CommandTable, &str),
    count: usize,
) {
    let threads = TableThreads { rt, alloc, count };
    let mut text = Vec::new(alloc);
    let ended = write_commands_by(&threads, 1, table, &mut text);
    let mut slow = Slow::new(want, 1, true);
    let failed = write_commands_by(&threads, 1, table, &mut slow);
    expect(
        rt,
        &(count, str::from_utf8(text.as_slice()), ended, failed),
        &(count, Ok(want), Ok(()), Err(Fault::Write)),
    );
}

#[test]
fn threads_write_commands(rt: HostRuntime) {
    for count in COUNTS {
        let table = table_of(&rt, rt.alloc(), count);
        let want = text_of(&rt, rt.alloc(), count);
        for threads in 0..5 {
            assert_written(&rt, rt.alloc(), (&table, want.as_str()), threads);
        }
    }
}
