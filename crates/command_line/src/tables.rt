//! The tables of a run, as words name them.

ghost use Rattle.std.specs.Prelude.{◌≡◌, Some, fold, map, IfOk};
ghost use Rattle.command_line.specs.Tables.{no_tables, with_table, and_table, tables_of};

use statistics::tables::Tables;
use std::alloc::{AllocError, Global};

const NONE: Tables = Tables {
    commands: false,
    stats: false,
    last: false,
    requests: false,
};

// The tables with one more.
fn with_table(tables: Tables, name: &str) -> Option<Tables>
    ensures { result ≡ with_table tables name.now }
{
    match name {
        "commands" if !tables.commands => Some(Tables {
            commands: true,
            ..tables
        }),
        "stats" if !tables.stats => Some(Tables {
            stats: true,
            ..tables
        }),
        "final" if !tables.last => Some(Tables {
            last: true,
            ..tables
        }),
        "requests" if !tables.requests => Some(Tables {
            requests: true,
            ..tables
        }),
        _ => None,
    }
}

fn and_table(tables: Option<Tables>, name: &&str) -> Option<Tables>
    ensures { result ≡ and_table tables name.now.now }
{
    match tables {
        Some(tables) => with_table(tables, name),
        None => None,
    }
}

// The tables of these names.
fn tables_named(names: &[&str]) -> Option<Tables>
    ensures { result ≡ fold and_table (Some no_tables) (map (λ name. name.now) names.now) }
{
    names.iter().fold(Some(NONE), and_table)
}

/// The tables that a text lists: their names, joined by commas, each at most once. The only error is out of memory.
pub fn read_tables(alloc: Global, text: &str) -> Result<Option<Tables>, AllocError>
    ensures { IfOk result (λ tables. tables ≡ tables_of text.now) }
{
    let names: Vec<&str> = text.split(',').collect(alloc)?;
    Ok(tables_named(&names))
}
