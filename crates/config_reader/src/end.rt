//! What ends a run, in a document.

ghost use Rattle.std.specs.Prelude.{◌≡◌};
ghost use Rattle.toml.specs.Data.{as_str};
ghost use Rattle.toml.specs.View.{view, table_view};
ghost use Rattle.config_reader.specs.Document.Numbers.{end_named, end_of};

use crate::keys::value_at;
use sim_base::fault::Fault;
use sim_base::key::Key;
use toml::{Table, Value};

fn end_named(value: &Value) -> Result<bool, Fault>
    ensures { result ≡ end_named (as_str (view value.now)) }
{
    match value.as_str() {
        Some("limit") => Ok(false),
        Some("drained") => Ok(true),
        Some(_) => Err(Fault::ConfigRange(Key::End)),
        None => Err(Fault::ConfigKey(Key::End)),
    }
}

/// Whether the run ends as soon as all is done.
#[tactic(auto, unfolding(crate::specs::Document::Numbers::end_of))]
pub(super) fn read_end(table: &Table) -> Result<bool, Fault>
    ensures { result ≡ end_of (table_view table.now) }
{
    match value_at(table, Key::End) {
        Some(value) => end_named(value),
        None => Ok(false),
    }
}
