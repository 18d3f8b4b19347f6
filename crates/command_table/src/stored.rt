//! Rows as a list stores them.

ghost use Rattle.std.specs.Prelude.{◌≡◌, ◌<◌, ◌≤◌, Some, length, take, drop, slice_get};
ghost use Rattle.command_table.specs.Lists.{stored_row, stored_rows};

use crate::compact::Compact;
use sim_base::command::IssuedCommand;

/// A row as a list stores it.
#[derive(Clone, Copy)]
pub enum StoredRow<'a> {
    /// In few bytes.
    Compact(&'a Compact),
    /// The command as it is.
    Whole(&'a IssuedCommand),
}

impl<'a> StoredRow<'a> {
    /// The command.
    #[inline(always)]
    pub(crate) fn row(self) -> IssuedCommand
        ensures { result ≡ stored_row self.entry }
    {
        match self {
            StoredRow::Compact(row) => row.row(),
            StoredRow::Whole(row) => *row,
        }
    }
}

/// Rows one after another, as a list stores them.
#[derive(Clone, Copy)]
pub(crate) enum StoredRows<'a> {
    /// In few bytes.
    Compact(&'a [Compact]),
    /// Each command as it is.
    Whole(&'a [IssuedCommand]),
}

impl<'a> StoredRows<'a> {
    /// How many rows there are.
    #[inline(always)]
    pub(crate) fn len(self) -> usize
        ensures { result ≡ length (stored_rows self.entry) }
    {
        match self {
            StoredRows::Compact(rows) => rows.len(),
            StoredRows::Whole(rows) => rows.len(),
        }
    }

    /// The row at a place.
    #[inline(always)]
    pub(crate) fn at(self, place: usize) -> StoredRow<'a>
        requires { place < length (stored_rows self) }
        ensures { slice_get (stored_rows self.entry) place ≡ Some (stored_row result) }
    {
        match self {
            StoredRows::Compact(rows) => StoredRow::Compact(&rows[place]),
            StoredRows::Whole(rows) => StoredRow::Whole(&rows[place]),
        }
    }

    /// The first `count` rows.
    pub(crate) fn before(self, count: usize) -> StoredRows<'a>
        requires { count ≤ length (stored_rows self) }
        ensures { stored_rows result ≡ take count (stored_rows self.entry) }
    {
        match self {
            StoredRows::Compact(rows) => StoredRows::Compact(&rows[..count]),
            StoredRows::Whole(rows) => StoredRows::Whole(&rows[..count]),
        }
    }

    /// The rows behind the first `count`.
    #[inline(always)]
    pub(crate) fn behind(self, count: usize) -> StoredRows<'a>
        requires { count ≤ length (stored_rows self) }
        ensures { stored_rows result ≡ drop count (stored_rows self.entry) }
    {
        match self {
            StoredRows::Compact(rows) => StoredRows::Compact(&rows[count..]),
            StoredRows::Whole(rows) => StoredRows::Whole(&rows[count..]),
        }
    }
}
