//! What is left to be read of a list of served requests.

ghost use Rattle.std.specs.Prelude.{◌≡◌, ◌≤◌, nat_le, length, take, drop, slice_get, option_map};
ghost use Rattle.request_table.specs.Tables.{IsInOrder, rows_up_to, rows_after};

use crate::served_requests::ServedRequest;
use sim_base::message::Cycle;
use std::marker::Model;

/// The requests that a channel served, in the order of their commands.
#[derive(Drop)]
pub struct ServedList {
    rows: Vec<ServedRequest>,
}

impl Model for ServedList {
    ghost use Rattle.std.specs.Prelude.{List};
    ghost use Rattle.request_table.specs.declared.served_requests.ServedRequest.{ServedRequest as Row};

    ghost Value = { List Row };

    ghost view = { λ l. l.rows.items };
}

impl ServedList {
    /// A list of these requests.
    pub fn of(rows: Vec<ServedRequest>) -> Self
        ensures { result ≡ rows.items }
    {
        ServedList { rows }
    }
}

/// What is left of a list.
#[derive(Drop)]
pub(crate) struct Left<'a> {
    rows: &'a [ServedRequest],
}

impl<'a> Model for Left<'a> {
    ghost use Rattle.std.specs.Prelude.{List};
    ghost use Rattle.request_table.specs.declared.served_requests.ServedRequest.{ServedRequest as Row};

    ghost Value = { List Row };

    ghost view = { λ l. l.rows.now };
}

impl<'a> Left<'a> {
    /// A list from which nothing was read.
    pub(crate) fn of(list: &'a ServedList) -> Self
        ensures { result ≡ list.now }
    {
        Left { rows: &list.rows }
    }

    /// A copy of what is left.
    pub(crate) fn copied(&self) -> Left<'a>
        ensures { result ≡ self.now }
    {
        Left { rows: self.rows }
    }

    /// The request that has `count` of those that are left before it, if there is one.
    #[inline(always)]
    pub(crate) fn get(&self, count: usize) -> Option<ServedRequest>
        ensures { result ≡ slice_get self.now count }
    {
        self.rows.get(count).copied()
    }

    /// The cycle in which the request was served that has `count` of those that are left before it, if there is one.
    #[inline(always)]
    pub(crate) fn cycle_of(&self, count: usize) -> Option<Cycle>
        ensures { result ≡ option_map (λ row. row.served) (slice_get self.now count) }
    {
        Some(self.rows.get(count)?.served)
    }

    /// Takes the first request that is left, if there is one.
    #[inline(always)]
    pub(crate) fn take_first(&mut self) -> Option<ServedRequest>
        ensures first { result ≡ slice_get self.old 0 }
        ensures rest { self.new ≡ drop 1 self.old }
    {
        let row = self.get(0)?;
        self.rows = &self.rows[1..];
        Some(row)
    }

    /// How many of the requests were served up to a cycle.
    fn count_up_to(&self, cycle: Cycle) -> usize
        requires { IsInOrder self.now }
        ensures within { result ≤ length self.now }
        ensures before { take result self.now ≡ rows_up_to cycle self.now }
        ensures behind { drop result self.now ≡ rows_after cycle self.now }
    {
        self.rows.partition_point(
            |row: &ServedRequest| -> bool
                ensures { result ≡ nat_le row.now.served cycle }
            { row.served <= cycle },
        )
    }

    /// The requests that were served up to a cycle.
    pub(crate) fn up_to(&self, cycle: Cycle) -> Left<'a>
        requires { IsInOrder self.now }
        ensures { result ≡ rows_up_to cycle self.now }
    {
        Left {
            rows: &self.rows[..self.count_up_to(cycle)],
        }
    }

    /// The requests that were served after a cycle.
    pub(crate) fn after(&self, cycle: Cycle) -> Left<'a>
        requires { IsInOrder self.now }
        ensures { result ≡ rows_after cycle self.now }
    {
        Left {
            rows: &self.rows[self.count_up_to(cycle)..],
        }
    }
}
