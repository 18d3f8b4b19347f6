//! What the keys of a document say.

ghost use Rattle.sim_base.specs.Fields.{FieldsInOrder};
ghost use Rattle.sim_base.specs.Keys.{OverridesInRange};

use crate::end::read_end;
use crate::fields::read_fields;
use crate::keys::check_keys;
use crate::links::read_overrides;
use crate::numbers::{Numbers, check_numbers};
use crate::relations::{
    check_credits, check_distances, check_drain, check_links, check_ranks, check_refresh,
};
use sim_base::config::Config;
use sim_base::fault::Fault;
use sim_base::key::{Key, numbers_before_fields, numbers_behind_fields};
use sim_base::key_numbers::KeyNumbers;
use sim_base::overrides::{Override, Overrides};
use sim_base::place::{Field, FieldOrder};
use sim_base::timing::Timing;
use std::alloc::Global;
use toml::Table;

/// A configuration whose keys are right, but whose relations have not been tested yet.
#[derive(Drop)]
pub(super) struct Draft<'t> {
    numbers: Numbers<'t>,
    fields: Vec<Field>,
    overrides: Vec<Override>,
    ends_drained: bool,
    ghost fields_in_order: { FieldsInOrder fields.items },
    ghost overrides_in_range: { OverridesInRange overrides.items },
}

impl<'t> Draft<'t> {
    ghost use Rattle.std.specs.Prelude.{◌≡◌, ◌↔◌, Ok, IfOk, IfErr, IsOk};
    ghost use Rattle.toml.specs.View.{table_view};
    ghost use Rattle.sim_base.specs.Values.{IsRelated, values_of};
    ghost use Rattle.config_reader.specs.Document.{draft_values, keys_of};
    ghost use Rattle.config_reader.specs.Document.Relations.{relations_of};
    ghost use Rattle.sim_base.specs.Faults.{IsFaultOf};

    /// Tests the keys of a document one after the other, and reads what is no number; then refuses a key that no
    /// configuration has.
    #[tactic(auto, unfolding(crate::specs::Document::keys_of))]
    pub(super) fn read(alloc: Global, table: &'t Table) -> Result<Draft<'t>, Fault>
        ensures ok { IfOk result (λ d. keys_of (table_view table.now) ≡ Ok (draft_values d)) }
        ensures refused { IfErr result (IsFaultOf (keys_of (table_view table.now))) }
    {
        check_numbers(table, numbers_before_fields())?;
        let fields = read_fields(alloc, table)?;
        check_numbers(table, numbers_behind_fields())?;
        let ends_drained = read_end(table)?;
        let overrides = read_overrides(alloc, table)?;
        check_keys(table)?;
        Ok(Draft {
            numbers: Numbers { table },
            fields,
            overrides,
            ends_drained,
        })
    }

    /// Tests the relations by their numbers.
    #[tactic(auto, unfolding(crate::specs::Document::Relations::relations_of))]
    pub(super) fn check_relations(&self) -> Result<(), Fault>
        ensures value { result ≡ relations_of (draft_values self.now) }
        ensures related { IsOk result ↔ IsRelated (draft_values self.now) }
    {
        let timing = Timing::from_numbers(&self.numbers);
        let ranks = self.numbers.number(Key::Ranks);
        let cores = self.numbers.number(Key::Cores);
        let channels = self.numbers.number(Key::Channels);
        let read_credits = self.numbers.number(Key::ReadCredits);
        let write_credits = self.numbers.number(Key::WriteCredits);
        let write_high = self.numbers.number(Key::WriteHigh);
        let write_low = self.numbers.number(Key::WriteLow);
        check_distances(&timing)?;
        check_refresh(&timing, ranks)?;
        check_credits(cores, read_credits, write_credits)?;
        check_links(cores, channels, &self.overrides)?;
        check_ranks(ranks, &self.fields)?;
        check_drain(cores, write_credits, write_high, write_low)
    }

    /// The configuration.
    pub(super) fn into_config(self) -> Config
        requires { IsRelated (draft_values self) }
        ensures { values_of result ≡ draft_values self.entry }
    {
        let fields = FieldOrder::new(self.fields);
        let overrides = Overrides::new(self.overrides);
        Config::from_numbers(&self.numbers, fields, overrides, self.ends_drained)
    }
}
