//! Why a table is refused.

ghost use Rattle.std.specs.Prelude.{◌≡◌, ℕ, false, IfOk};
ghost use Rattle.sim_base.specs.declared.fault.Fault.TheVariants.{CheckRow};
ghost use Rattle.refusal.specs.Heads.{row_head};
ghost use Rattle.explain.specs.Heads.{StartsBy, IsSilent};
ghost use Rattle.explain.specs.Silence.{is_of_table};

use crate::explain_text::table::{TableKind, row_text};
use crate::heads::behind;
use refusal::heads::row_head;
use sim_base::fault::Fault;
use std::alloc::{AllocError, Global};

// What is said of a row.
fn of_row(
    alloc: Global,
    kind: TableKind,
    path: &str,
    row: u64,
    table: &[u8],
) -> Result<String, AllocError>
    ensures { IfOk result (StartsBy (row_head path.now row)) }
{
    let head = row_head(alloc, path, row)?;
    behind(head, row_text(alloc, kind, row, table))
}

/// Explains a malformed row of a table, fault 15. `kind` is which table was to be read.
pub fn of_table(
    alloc: Global,
    fault: Fault,
    kind: TableKind,
    path: &str,
    table: &[u8],
) -> Result<String, AllocError>
    ensures silent { is_of_table fault ≡ false → IfOk result IsSilent }
    ensures row { (row : ℕ) → fault ≡ CheckRow row
        → IfOk result (StartsBy (row_head path.now row)) }
{
    match fault {
        Fault::CheckRow(row) => of_row(alloc, kind, path, row, table),
        _ => Ok(String::new(alloc)),
    }
}
