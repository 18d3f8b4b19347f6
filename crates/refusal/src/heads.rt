//! Where a reader should look: what a line about a file begins with.

ghost use Rattle.std.specs.Prelude.{IfOk};
ghost use Rattle.refusal.specs.Heads.{file_head, line_head, row_head};
ghost use Rattle.sim_base.specs.Texts.{IsText};

use std::alloc::{AllocError, Global};

/// The path of a file.
pub fn file_head(alloc: Global, path: &str) -> Result<String, AllocError>
    ensures head { IfOk result (IsText (file_head path.now)) }
{
    format!(in alloc; "{path}:")
}

/// The path of a file and the number of a line, counted from 1.
pub fn line_head(alloc: Global, path: &str, line: u64) -> Result<String, AllocError>
    ensures head { IfOk result (IsText (line_head path.now line)) }
{
    format!(in alloc; "{path}:{line}: ")
}

/// The path of a file and the number of a row, of which 0 is the header.
pub fn row_head(alloc: Global, path: &str, row: u64) -> Result<String, AllocError>
    ensures head { IfOk result (IsText (row_head path.now row)) }
{
    format!(in alloc; "{path}: row {row}")
}
