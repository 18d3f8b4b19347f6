//! The links of a document that have a latency of their own.

ghost use Rattle.std.specs.Prelude.{◌≡◌, Ok, IfOk, IfErr};
ghost use Rattle.toml.specs.Data.{as_table};
ghost use Rattle.toml.specs.View.{view, array_view, table_view};
ghost use Rattle.sim_base.specs.Keys.{LatencyInRange, OverridesInRange};
ghost use Rattle.config_reader.specs.Document.Links.{override_of, override_from, overrides_in, overrides_of};
ghost use Rattle.sim_base.specs.Faults.{IsFaultOf};

use crate::keys::{integer_at, key_count, number_refused_as, value_at};
use sim_base::fault::Fault;
use sim_base::key::Key;
use sim_base::overrides::Override;
use std::alloc::Global;
use toml::value::Array;
use toml::{Table, Value};

/// The override that an item's table states.
#[tactic(auto, unfolding(crate::specs::Document::Links::override_of))]
fn override_at(table: &Table) -> Result<Override, Fault>
    ensures value { result ≡ override_of (table_view table.now) }
    ensures range { IfOk result (λ o. LatencyInRange o.latency) }
{
    let has_id = integer_at(table, Key::Id).is_some();
    let has_latency = integer_at(table, Key::Latency).is_some();
    if has_id && has_latency && key_count(table) == 2 {
        let link = number_refused_as(Key::Link, table, Key::Id)?;
        let latency = number_refused_as(Key::Link, table, Key::Latency)?;
        Ok(Override {
            link: u64::from(link),
            latency,
        })
    } else {
        Err(Fault::ConfigKey(Key::Link))
    }
}

/// The override that an item states.
fn override_in(value: &Value) -> Result<Override, Fault>
    ensures value { result ≡ override_from (as_table (view value.now)) }
    ensures range { IfOk result (λ o. LatencyInRange o.latency) }
{
    match value.as_table() {
        Some(table) => override_at(table),
        None => Err(Fault::ConfigKey(Key::Link)),
    }
}

/// The overrides that the items state, one after the other.
fn overrides_in(alloc: Global, array: &Array) -> Result<Vec<Override>, Fault>
    ensures ok { IfOk result (λ v. overrides_in (array_view array.now) ≡ Ok v.items) }
    ensures refused { IfErr result (IsFaultOf (overrides_in (array_view array.now))) }
    ensures range { IfOk result (λ v. OverridesInRange v.items) }
{
    let mut overrides = Vec::new(alloc);
    for value in array {
        let link = override_in(value)?;
        if overrides.push(link).is_err() {
            return Err(Fault::Memory);
        }
    }
    Ok(overrides)
}

/// The overrides of a document, which need not state any.
#[tactic(auto, unfolding(crate::specs::Document::Links::overrides_of))]
pub(super) fn read_overrides(alloc: Global, table: &Table) -> Result<Vec<Override>, Fault>
    ensures ok { IfOk result (λ v. overrides_of (table_view table.now) ≡ Ok v.items) }
    ensures refused { IfErr result (IsFaultOf (overrides_of (table_view table.now))) }
    ensures range { IfOk result (λ v. OverridesInRange v.items) }
{
    match value_at(table, Key::Link) {
        Some(value) => match value.as_array() {
            Some(array) => overrides_in(alloc, array),
            None => Err(Fault::ConfigKey(Key::Link)),
        },
        None => Ok(Vec::new(alloc)),
    }
}
