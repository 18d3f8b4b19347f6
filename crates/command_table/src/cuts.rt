//! A table in pieces, which can be read at the same time.

ghost use Rattle.std.specs.Prelude.{◌≡◌, ◌<◌, length, min, flat_map, All, IfOk, IfSome, MatchOption};
ghost use Rattle.command_table.specs.Tables.{IsRising, all_rows, rows_up_to, rows_after};

use crate::left::{Left, add};
use crate::table::{CommandTable, Rows};
use sim_base::message::Cycle;
use std::alloc::{AllocError, Global};

/// The earlier of two cycles, the second of which there may be.
fn earlier(cycle: Cycle, other: Option<Cycle>) -> Cycle
    ensures { MatchOption other (result ≡ cycle) (λ other. result ≡ min cycle other) }
{
    match other {
        Some(other) => cycle.min(other),
        None => cycle,
    }
}

/// The least cycle of the commands that have `count` others of their list before them, if a list has one.
fn cut_of(lefts: &[Left<'_>], count: usize) -> Option<Cycle>
    ensures { IfSome result (λ cycle. 0 < length (rows_up_to cycle (all_rows lefts.now))) }
{
    let mut least = None;
    for left in lefts {
        if let Some(row) = left.get(count) {
            least = Some(earlier(row.cycle, least));
        }
    }
    least
}

/// What is left of lists in two parts: up to a cycle, and after it.
#[derive(Drop)]
struct Parts<'a> {
    before: Vec<Left<'a>>,
    behind: Vec<Left<'a>>,
}

/// What is left of lists, up to a cycle and after it. The only error is out of memory.
fn parts_of<'a>(alloc: Global, lefts: &[Left<'a>], cycle: Cycle) -> Result<Parts<'a>, AllocError>
    requires { All IsRising lefts.now }
    ensures before { IfOk result (λ parts. all_rows parts.before.items
        ≡ rows_up_to cycle (all_rows lefts.now)) }
    ensures behind { IfOk result (λ parts. all_rows parts.behind.items
        ≡ rows_after cycle (all_rows lefts.now)) }
    ensures rising { IfOk result (λ parts. All IsRising parts.before.items
        × All IsRising parts.behind.items) }
{
    let mut before = Vec::with_capacity(alloc, lefts.len())?;
    let mut behind = Vec::with_capacity(alloc, lefts.len())?;
    for left in lefts {
        add(&mut before, left.up_to(cycle))?;
        add(&mut behind, left.after(cycle))?;
    }
    Ok(Parts { before, behind })
}

impl CommandTable {
    /// The table in pieces, which make up the table one after another: each ends where one of its lists has given
    /// `most` commands (one, for 0), including those of the same cycle, and the last, which may be empty, ends where
    /// the table does. The only error is out of memory.
    pub fn pieces(&self, alloc: Global, most: usize) -> Result<Vec<Rows<'_>>, AllocError>
        ensures { IfOk result (λ pieces. flat_map (λ piece. piece) pieces.items ≡ self.now) }
    {
        let count = most.max(1) - 1;
        let mut lefts = self.lefts(alloc)?;
        let mut pieces = Vec::new(alloc);
        while let Some(cycle) = cut_of(&lefts, count) {
            let Parts { before, behind } = parts_of(alloc, &lefts, cycle)?;
            lefts = behind;
            pieces.push(Rows::of(before))?;
        }
        pieces.push(Rows::of(lefts))?;
        Ok(pieces)
    }
}
