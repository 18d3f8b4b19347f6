//! Commands in the order in which they were put in.

ghost use Rattle.std.specs.Prelude.{◌≡◌, ◌++◌, ◌↔◌, [], ◌∷◌, length, slice_get, IsTrue, IfOk, OnOk, OnErr};
ghost use Rattle.command_table.specs.Lists.{rows_of, stored_rows};

use crate::compact::Compact;
use crate::stored::StoredRows;
use sim_base::command::IssuedCommand;
use std::alloc::{AllocError, Global};
use std::marker::Model;

/// How a list is stored.
#[derive(Drop)]
pub(crate) enum Storage {
    /// In few bytes.
    Compact(Vec<Compact>),
    /// Each command as it is.
    Whole(Vec<IssuedCommand>),
}

/// Commands in the order in which they were put in. Each takes 16 bytes, as long as the numbers of all are those of a
/// usual machine and trace (`Compact`); once one has a greater number, each takes 56.
#[derive(Drop)]
pub struct CommandList {
    kept: Storage,
}

impl Model for CommandList {
    ghost use Rattle.std.specs.Prelude.{List};
    ghost use Rattle.sim_base.specs.declared.command.IssuedCommand.{IssuedCommand as Row};
    ghost use Rattle.command_table.specs.Lists.{rows_of};

    ghost Value = { List Row };

    ghost view = { λ l. rows_of l.kept };
}

/// Rows that are kept in few bytes, as they are.
fn whole(alloc: Global, rows: &[Compact]) -> Result<Vec<IssuedCommand>, AllocError>
    ensures { IfOk result (λ found. found.items ≡ rows.now) }
{
    rows.iter().map(|row| row.row()).collect(alloc)
}

impl CommandList {
    /// A list of no commands.
    pub fn new(alloc: Global) -> Self
        ensures { result ≡ [] }
    {
        CommandList {
            kept: Storage::Compact(Vec::new(alloc)),
        }
    }

    /// A list of no commands, with room for so many whose numbers are those of a usual machine and trace, so that none
    /// of these is copied as the list grows. The only error is out of memory.
    pub fn with_room(alloc: Global, commands: usize) -> Result<Self, AllocError>
        ensures { IfOk result (λ list. list ≡ []) }
    {
        Ok(CommandList {
            kept: Storage::Compact(Vec::with_capacity(alloc, commands)?),
        })
    }

    /// How many commands there are.
    pub fn len(&self) -> usize
        ensures { result ≡ length self.now }
    {
        match &self.kept {
            Storage::Compact(rows) => rows.len(),
            Storage::Whole(rows) => rows.len(),
        }
    }

    /// Whether there are none.
    pub fn is_empty(&self) -> bool
        ensures { IsTrue result ↔ (self.now ≡ []) }
    {
        self.len() == 0
    }

    /// The commands, as they are stored.
    pub(crate) fn stored(&self) -> StoredRows<'_>
        ensures { stored_rows result ≡ self.now }
    {
        match &self.kept {
            Storage::Compact(rows) => StoredRows::Compact(rows),
            Storage::Whole(rows) => StoredRows::Whole(rows),
        }
    }

    /// The command at a place, if there is one.
    #[inline(always)]
    pub fn get(&self, place: usize) -> Option<IssuedCommand>
        ensures { result ≡ slice_get self.now place }
    {
        match &self.kept {
            Storage::Compact(rows) => Some(rows.get(place)?.row()),
            Storage::Whole(rows) => Some(*rows.get(place)?),
        }
    }

    /// Adds a command; from now on each is kept as it is.
    #[inline(never)]
    fn push_whole(&mut self, row: IssuedCommand) -> Result<(), AllocError>
        ensures ok { OnOk result (self.new ≡ self.old ++ row ∷ []) }
        ensures err { OnErr result (self.new ≡ self.old) }
    {
        match &mut self.kept {
            Storage::Whole(rows) => Ok(rows.push(row)?),
            Storage::Compact(rows) => {
                let mut all = whole(*rows.allocator(), rows)?;
                all.push(row)?;
                self.kept = Storage::Whole(all);
                Ok(())
            }
        }
    }

    /// Adds a command after the others. The only error is out of memory; the list is then unchanged.
    #[inline(always)]
    pub fn push(&mut self, row: IssuedCommand) -> Result<(), AllocError>
        ensures ok { OnOk result (self.new ≡ self.old ++ row ∷ []) }
        ensures err { OnErr result (self.new ≡ self.old) }
    {
        if let Storage::Compact(rows) = &mut self.kept
            && let Some(compact) = Compact::of(row)
        {
            return Ok(rows.push(compact)?);
        }
        self.push_whole(row)
    }

    /// The commands as they are. The only error is out of memory.
    pub fn to_vec(&self, alloc: Global) -> Result<Vec<IssuedCommand>, AllocError>
        ensures { IfOk result (λ rows. rows.items ≡ self.now) }
    {
        match &self.kept {
            Storage::Compact(rows) => whole(alloc, rows),
            Storage::Whole(rows) => Vec::from_slice(alloc, rows),
        }
    }
}
