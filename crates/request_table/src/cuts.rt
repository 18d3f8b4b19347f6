//! A table in pieces, which can be read at the same time.

ghost use Rattle.std.specs.Prelude.{◌≡◌, ◌++◌, [], flat_map, map, unwrap_or, All, IfOk};
ghost use Rattle.request_table.specs.Tables.{IsInOrder, rows_up_to, rows_after};

use crate::left::Left;
use crate::table::{RequestTable, Rows};
use sim_base::message::Cycle;
use std::alloc::{AllocError, Global};

/// The least cycle of the requests that have `count` others of their list before them, if a list has one.
fn cut_of(lefts: &[Left<'_>], count: usize) -> Option<Cycle> {
    lefts.iter().filter_map(|left| left.cycle_of(count)).min()
}

/// What is left of lists, up to a cycle. The only error is out of memory.
fn lefts_up_to<'a>(
    alloc: Global,
    lefts: &[Left<'a>],
    cycle: Cycle,
) -> Result<Vec<Left<'a>>, AllocError>
    requires { All IsInOrder lefts.now }
    ensures { IfOk result (λ found. found.items ≡ map (rows_up_to cycle) lefts.now) }
{
    lefts.iter().map(|left| left.up_to(cycle)).collect(alloc)
}

/// What is left of lists, after a cycle. The only error is out of memory.
fn lefts_after<'a>(
    alloc: Global,
    lefts: &[Left<'a>],
    cycle: Cycle,
) -> Result<Vec<Left<'a>>, AllocError>
    requires { All IsInOrder lefts.now }
    ensures { IfOk result (λ found. found.items ≡ map (rows_after cycle) lefts.now) }
{
    lefts.iter().map(|left| left.after(cycle)).collect(alloc)
}

impl<'a> Rows<'a> {
    /// Takes the requests that were served up to the cycle in which one of the lists has given `most` more (one, for
    /// 0), including those of the same cycle, if a list has so many.
    fn take_piece(&mut self, alloc: Global, most: usize) -> Result<Option<Rows<'a>>, AllocError>
        ensures { IfOk result (λ piece. self.old ≡ unwrap_or piece [] ++ self.new) }
    {
        let Some(cycle) = cut_of(&self.lefts, most.max(1) - 1) else {
            return Ok(None);
        };
        let before = lefts_up_to(alloc, &self.lefts, cycle)?;
        self.lefts = lefts_after(alloc, &self.lefts, cycle)?;
        Ok(Some(Rows::of(before, self.config, self.cycles)))
    }
}

impl RequestTable {
    /// The table in pieces, which make up the table one after another: each ends where one of its lists has given
    /// `most` requests (one, for 0), including those of the same cycle, and the last, which may be empty, ends where
    /// the table does. The only error is out of memory.
    pub fn pieces(&self, alloc: Global, most: usize) -> Result<Vec<Rows<'_>>, AllocError>
        ensures { IfOk result (λ pieces. flat_map (λ piece. piece) pieces.items ≡ self.now) }
    {
        let mut left = self.rows(alloc)?;
        let mut pieces = Vec::new(alloc);
        for _ in 0..u64::MAX {
            let Some(piece) = left.take_piece(alloc, most)? else {
                break;
            };
            pieces.push(piece)?;
        }
        pieces.push(left)?;
        Ok(pieces)
    }
}
