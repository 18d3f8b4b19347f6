//! The commands of several lists as one table.

ghost use Rattle.std.specs.Prelude.{◌≡◌, ◌<◌, [], ◌∷◌, length, drop, slice_set, slice_index_or, None, All, IfOk, IfSome};
ghost use Rattle.command_table.specs.Tables.{IsRising, table_of};
ghost use Rattle.command_table.specs.Lists.{stored_row};
ghost use Rattle.command_table.specs.Lefts.{IsNext};

use crate::left::{Left, add};
use crate::list::CommandList;
use crate::stored::StoredRow;
use sim_base::command::IssuedCommand;
use std::alloc::{AllocError, Global};
use std::marker::Model;

/// The commands of several lists as one table: by cycle, and those of a cycle by their list. Nothing is copied to make
/// it or to read it.
#[derive(Drop)]
pub struct CommandTable {
    lists: Vec<CommandList>,
}

impl Model for CommandTable {
    ghost use Rattle.std.specs.Prelude.{List, All};
    ghost use Rattle.sim_base.specs.declared.command.IssuedCommand.{IssuedCommand as Row};
    ghost use Rattle.command_table.specs.Tables.{IsRising, table_of};

    ghost Value = { List Row };

    ghost view = { λ t. table_of t.lists.items };

    ghost invariant = { λ t. All IsRising t.lists.items };
}

/// What is left to be read of a table, from its first command on.
#[derive(Drop)]
pub struct Rows<'a> {
    lefts: Vec<Left<'a>>,
}

impl<'a> Model for Rows<'a> {
    ghost use Rattle.std.specs.Prelude.{List, All};
    ghost use Rattle.sim_base.specs.declared.command.IssuedCommand.{IssuedCommand as Row};
    ghost use Rattle.command_table.specs.Tables.{IsRising, table_of};

    ghost Value = { List Row };

    ghost view = { λ r. table_of r.lefts.items };

    ghost invariant = { λ r. All IsRising r.lefts.items };
}

/// The place of the list that goes on earliest, if one is left; of several in the same cycle, the first.
#[inline(always)]
fn earliest(lefts: &[Left<'_>]) -> Option<usize>
    ensures some { IfSome result (IsNext lefts.now) }
    ensures none { result ≡ None → lefts.now ≡ [] }
{
    let mut found = 0;
    let mut least = lefts.first()?.cycle();
    for place in 1..lefts.len() {
        let cycle = lefts[place].cycle();
        if cycle < least {
            found = place;
            least = cycle;
        }
    }
    Some(found)
}

/// Takes the first command of the list at a place; if it was the list's last, the list is removed.
#[inline(always)]
fn drop_first(lefts: &mut Vec<Left<'_>>, place: usize)
    requires place { place < length lefts.old.items }
    ensures table { table_of lefts.new.items
        ≡ table_of (slice_set lefts.old.items place
        (drop 1 (slice_index_or lefts.old.items place []))) }
    ensures rising { All IsRising lefts.old.items → All IsRising lefts.new.items }
{
    if lefts[place].is_last() {
        lefts.remove(place);
    } else {
        lefts[place].advance();
    }
}

/// A copy of what is left of lists. The only error is out of memory.
fn lefts_copied<'a>(alloc: Global, lefts: &[Left<'a>]) -> Result<Vec<Left<'a>>, AllocError>
    ensures { IfOk result (λ found. found.items ≡ lefts.now) }
{
    lefts.iter().map(|left| left.copied()).collect(alloc)
}

impl<'a> Rows<'a> {
    /// What is left of lists, to be read.
    pub(crate) fn of(lefts: Vec<Left<'a>>) -> Self
        requires { All IsRising lefts.items }
        ensures { result ≡ table_of lefts.entry.items }
    {
        Rows { lefts }
    }

    /// A copy of what is left, to be read by itself. The only error is out of memory.
    pub fn copied(&self, alloc: Global) -> Result<Rows<'a>, AllocError>
        ensures { IfOk result (λ rows. rows ≡ self.now) }
    {
        Ok(Rows::of(lefts_copied(alloc, &self.lefts)?))
    }

    /// Takes the next command as it is stored, if one is left.
    #[inline(always)]
    pub fn next_stored(&mut self) -> Option<StoredRow<'a>>
        ensures some { IfSome result (λ row. self.old ≡ stored_row row ∷ self.new) }
        ensures none { result ≡ None → self.old ≡ [] }
        ensures over { self.old ≡ [] → self.new ≡ [] }
    {
        let place = earliest(&self.lefts)?;
        let first = self.lefts[place].first();
        drop_first(&mut self.lefts, place);
        Some(first)
    }

    /// Takes the next command, if one is left.
    #[inline(always)]
    pub fn next(&mut self) -> Option<IssuedCommand>
        ensures some { IfSome result (λ row. self.old ≡ row ∷ self.new) }
        ensures none { result ≡ None → self.old ≡ [] }
        ensures over { self.old ≡ [] → self.new ≡ [] }
    {
        Some(self.next_stored()?.row())
    }
}

/// What is left of lists from which nothing was read. The only error is out of memory.
fn lefts_of<'a>(alloc: Global, lists: &'a [CommandList]) -> Result<Vec<Left<'a>>, AllocError>
    ensures table { IfOk result (λ lefts. table_of lefts.items ≡ table_of lists.now) }
    ensures rising { IfOk result (λ lefts. All IsRising lists.now → All IsRising lefts.items) }
{
    let mut lefts = Vec::with_capacity(alloc, lists.len())?;
    for list in lists {
        add(&mut lefts, Left::of(list))?;
    }
    Ok(lefts)
}

/// Rows in a list. The only error is out of memory.
fn list_of(alloc: Global, rows: &[IssuedCommand]) -> Result<CommandList, AllocError>
    ensures { IfOk result (λ list. list ≡ rows.now) }
{
    let mut list = CommandList::new(alloc);
    for row in rows {
        list.push(*row)?;
    }
    Ok(list)
}

impl CommandTable {
    /// The table of these lists, in each of which no command has an earlier cycle than one before it.
    pub fn of(lists: Vec<CommandList>) -> Self
        requires rising { All IsRising lists.items }
        ensures { result ≡ table_of lists.items }
    {
        CommandTable { lists }
    }

    /// The table with just these rows, none of which has an earlier cycle than one before it. The only error is out of
    /// memory.
    pub fn of_rows(alloc: Global, rows: &[IssuedCommand]) -> Result<Self, AllocError>
        requires rising { IsRising rows.now }
        ensures { IfOk result (λ table. table ≡ rows.now) }
    {
        let list = list_of(alloc, rows)?;
        Ok(CommandTable {
            lists: vec![in alloc; list]?,
        })
    }

    /// What is left of the lists before anything is read. The only error is out of memory.
    pub(crate) fn lefts(&self, alloc: Global) -> Result<Vec<Left<'_>>, AllocError>
        ensures table { IfOk result (λ lefts. table_of lefts.items ≡ self.now) }
        ensures rising { IfOk result (λ lefts. All IsRising lefts.items) }
    {
        lefts_of(alloc, &self.lists)
    }

    /// The table, to be read from its first command on. The only error is out of memory.
    pub fn rows(&self, alloc: Global) -> Result<Rows<'_>, AllocError>
        ensures { IfOk result (λ rows. rows ≡ self.now) }
    {
        Ok(Rows::of(self.lefts(alloc)?))
    }

    /// The commands in a list, as they are. The only error is out of memory.
    pub fn to_vec(&self, alloc: Global) -> Result<Vec<IssuedCommand>, AllocError>
        ensures { IfOk result (λ rows. rows.items ≡ self.now) }
    {
        let mut left = self.rows(alloc)?;
        let mut rows = Vec::new(alloc);
        while let Some(row) = left.next() {
            rows.push(row)?;
        }
        Ok(rows)
    }
}
