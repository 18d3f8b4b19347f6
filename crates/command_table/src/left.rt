//! What is left to be read of a list of commands.

ghost use Rattle.std.specs.Prelude.{◌≡◌, ◌<◌, ◌≤◌, ◌++◌, [], Some, All, OnOk, MatchBool, ◌+◌, unwrap_or, length, take, drop, slice_get};
ghost use Rattle.command_table.specs.Lefts.{first_cycle, AllUpTo, AllAfter};
ghost use Rattle.command_table.specs.Lists.{stored_row, stored_rows};
ghost use Rattle.command_table.specs.Tables.{IsRising, all_rows, rows_up_to, rows_after};

use crate::list::CommandList;
use crate::stored::{StoredRow, StoredRows};
use sim_base::command::IssuedCommand;
use sim_base::message::Cycle;
use std::alloc::AllocError;
use std::marker::Model;

/// What is left of a list, at least one command, and the cycle of the first.
#[derive(Drop)]
pub(crate) struct Left<'a> {
    cycle: Cycle,
    rows: StoredRows<'a>,
}

impl<'a> Model for Left<'a> {
    ghost use Rattle.std.specs.Prelude.{◌≡◌, List, Some};
    ghost use Rattle.sim_base.specs.declared.command.IssuedCommand.{IssuedCommand as Row};
    ghost use Rattle.command_table.specs.Lefts.{first_cycle};
    ghost use Rattle.command_table.specs.Lists.{stored_rows};

    ghost Value = { List Row };

    ghost view = { λ l. stored_rows l.rows };

    ghost invariant = { λ l. first_cycle (stored_rows l.rows) ≡ Some l.cycle };
}

impl<'a> Left<'a> {
    /// These commands, if there are any.
    #[inline(always)]
    fn of_rows(rows: StoredRows<'a>) -> Option<Self>
        ensures { unwrap_or result [] ≡ stored_rows rows.entry }
    {
        if rows.len() == 0 {
            return None;
        }
        Some(Left {
            cycle: rows.at(0).row().cycle,
            rows,
        })
    }

    /// A list from which nothing was read, if it has a command.
    pub(crate) fn of(list: &'a CommandList) -> Option<Self>
        ensures { unwrap_or result [] ≡ list.now }
    {
        Left::of_rows(list.stored())
    }

    /// A copy of what is left.
    #[inline(always)]
    pub(crate) fn copied(&self) -> Left<'a>
        ensures { result ≡ self.now }
    {
        Left {
            cycle: self.cycle,
            rows: self.rows,
        }
    }

    /// The cycle of the first command that is left.
    #[inline(always)]
    pub(crate) fn cycle(&self) -> Cycle
        ensures { first_cycle self.now ≡ Some result }
    {
        self.cycle
    }

    /// The first command that is left.
    #[inline(always)]
    pub(crate) fn first(&self) -> StoredRow<'a>
        ensures { slice_get self.now 0 ≡ Some (stored_row result) }
    {
        self.rows.at(0)
    }

    /// Whether just one command is left.
    #[inline(always)]
    pub(crate) fn is_last(&self) -> bool
        ensures { MatchBool result (length self.now ≡ 1) (1 < length self.now) }
    {
        self.rows.len() == 1
    }

    /// Takes off the first of several commands.
    #[inline(always)]
    pub(crate) fn advance(&mut self)
        requires { 1 < length self.old }
        ensures { self.new ≡ drop 1 self.old }
    {
        match self.rows {
            StoredRows::Compact(rows) => {
                self.cycle = rows[1].row().cycle;
                self.rows = StoredRows::Compact(&rows[1..]);
            }
            StoredRows::Whole(rows) => self.advance_whole(rows),
        }
    }

    /// Takes off the first of these commands, which are stored as they are, as few are.
    #[inline(never)]
    fn advance_whole(&mut self, rows: &'a [IssuedCommand])
        requires { 1 < length rows.now }
        ensures { self.new ≡ drop 1 rows.now }
    {
        self.cycle = rows[1].cycle;
        self.rows = StoredRows::Whole(&rows[1..]);
    }

    /// How many commands are left.
    fn len(&self) -> usize
        ensures { result ≡ length self.now }
    {
        self.rows.len()
    }

    /// The command that has `count` of those that are left before it, if there is one.
    pub(crate) fn get(&self, count: usize) -> Option<IssuedCommand>
        ensures { result ≡ slice_get self.now count }
    {
        if count < self.len() {
            Some(self.rows.at(count).row())
        } else {
            None
        }
    }

    /// Whether the first `count` commands and the next one are up to a cycle. If not, none after the first `count` is.
    fn goes_up_to(&self, count: usize, cycle: Cycle) -> bool
        requires { IsRising self.now }
        ensures { MatchBool result
            (AllUpTo cycle (take (count + 1) self.now)) (AllAfter cycle (drop count self.now)) }
    {
        match self.get(count) {
            Some(row) => row.cycle <= cycle,
            None => false,
        }
    }

    /// How many of the commands are up to a cycle.
    fn count_up_to(&self, cycle: Cycle) -> usize
        requires { IsRising self.now }
        ensures within { result ≤ length self.now }
        ensures before { take result self.now ≡ rows_up_to cycle self.now }
        ensures behind { drop result self.now ≡ rows_after cycle self.now }
    {
        let mut low = 0;
        let mut high = self.len();
        while low < high {
            let middle = low + (high - low) / 2;
            if self.goes_up_to(middle, cycle) {
                low = middle + 1;
            } else {
                high = middle;
            }
        }
        low
    }

    /// The commands up to a cycle, if there are any.
    pub(crate) fn up_to(&self, cycle: Cycle) -> Option<Left<'a>>
        requires { IsRising self.now }
        ensures { unwrap_or result [] ≡ rows_up_to cycle self.now }
    {
        let count = self.count_up_to(cycle);
        Left::of_rows(self.rows.before(count))
    }

    /// The commands after a cycle, if there are any.
    pub(crate) fn after(&self, cycle: Cycle) -> Option<Left<'a>>
        requires { IsRising self.now }
        ensures { unwrap_or result [] ≡ rows_after cycle self.now }
    {
        let count = self.count_up_to(cycle);
        Left::of_rows(self.rows.behind(count))
    }
}

/// Adds what is left of a list, if anything is. The only error is out of memory.
pub(crate) fn add<'a>(lefts: &mut Vec<Left<'a>>, left: Option<Left<'a>>) -> Result<(), AllocError>
    ensures rows { OnOk result (all_rows lefts.new.items ≡ all_rows lefts.old.items
        ++ unwrap_or left.entry []) }
    ensures rising { OnOk result (IsRising (unwrap_or left.entry [])
        → All IsRising lefts.old.items → All IsRising lefts.new.items) }
{
    match left {
        Some(left) => Ok(lefts.push(left)?),
        None => Ok(()),
    }
}
