//! The numbers of a document.

ghost use Rattle.std.specs.Prelude.{◌≡◌};
ghost use Rattle.toml.specs.View.{table_view};
ghost use Rattle.config_reader.specs.Document.Numbers.{AreNumbers, numbers_of};

use crate::keys::number_at;
use sim_base::fault::Fault;
use sim_base::key::Key;
use sim_base::key_numbers::KeyNumbers;
use toml::Table;

/// Tests the numbers at these keys, one after the other.
#[tactic(auto, unfolding(crate::specs::Document::Numbers::numbers_of))]
pub(super) fn check_numbers(table: &Table, keys: &[Key]) -> Result<(), Fault>
    ensures { result ≡ numbers_of (table_view table.now) keys.now }
{
    for key in keys {
        number_at(table, *key)?;
    }
    Ok(())
}

/// The numbers of a table that is refused for none of them.
#[derive(Clone, Copy)]
pub(super) struct Numbers<'t> {
    pub table: &'t Table,
    pub ghost are_numbers: { AreNumbers (table_view table.now) },
}

impl KeyNumbers for Numbers<'_> {
    ghost use Rattle.config_reader.specs.Document.Numbers.{number_in};

    ghost number_of = { λ numbers. number_in (table_view numbers.table.now) };

    #[tactic(auto, unfolding(crate::specs::Document::Numbers::number_in))]
    fn number(&self, key: Key) -> u32 {
        number_at(self.table, key).unwrap_or(0)
    }
}
