//! The order of an address's fields in a document.

ghost use Rattle.std.specs.Prelude.{◌≡◌, Some, Ok, IfOk, IfErr, IsTrue, is_some, option_map, count_by};
ghost use Rattle.std.specs.List.{list_all};
ghost use Rattle.toml.specs.Data.{as_str};
ghost use Rattle.toml.specs.View.{view, array_view, table_view};
ghost use Rattle.sim_base.specs.Fields.{is_field, FieldsInOrder};
ghost use Rattle.config_reader.specs.Document.Fields.{items_at, field_named, fields_named, are_texts, each_once, order_of, fields_of};
ghost use Rattle.sim_base.specs.Faults.{IsFaultOf};

use crate::keys::value_at;
use sim_base::fault::Fault;
use sim_base::key::Key;
use sim_base::place::Field;
use std::alloc::Global;
use toml::value::Array;
use toml::{Table, Value};

/// The field of a name.
fn field_of(name: &str) -> Result<Field, Fault>
    ensures { result ≡ field_named (Some name.now) }
{
    match name {
        "channel" => Ok(Field::Channel),
        "column" => Ok(Field::Column),
        "rank" => Ok(Field::Rank),
        "group" => Ok(Field::Group),
        "bank" => Ok(Field::Bank),
        "row" => Ok(Field::Row),
        _ => Err(Fault::ConfigRange(Key::Fields)),
    }
}

/// The field that a value names.
fn field_named(value: &Value) -> Result<Field, Fault>
    ensures { result ≡ field_named (as_str (view value.now)) }
{
    match value.as_str() {
        Some(name) => field_of(name),
        None => Err(Fault::ConfigRange(Key::Fields)),
    }
}

/// The fields that the items name.
fn fields_named(alloc: Global, array: &Array) -> Result<Vec<Field>, Fault>
    ensures ok { IfOk result (λ v. fields_named (array_view array.now) ≡ Ok v.items) }
    ensures refused { IfErr result (IsFaultOf (fields_named (array_view array.now))) }
{
    let mut fields = Vec::new(alloc);
    for value in array {
        let field = field_named(value)?;
        if fields.push(field).is_err() {
            return Err(Fault::Memory);
        }
    }
    Ok(fields)
}

fn has_texts(values: &[Value]) -> bool
    ensures { result ≡ list_all (λ v. is_some (as_str (view v))) values.now }
{
    values.iter().all(|value| value.is_str())
}

/// Whether each item is a text.
fn are_texts(array: &Array) -> bool
    ensures { result ≡ are_texts (array_view array.now) }
{
    has_texts(array)
}

fn is_field(field: Field, other: Field) -> bool
    ensures { result ≡ is_field field other }
{
    field == other
}

/// How often a field occurs in an order.
pub(super) fn count(order: &[Field], field: Field) -> usize
    ensures { result ≡ count_by (is_field field) order.now }
{
    order
        .iter()
        .filter(|other| is_field(field, **other))
        .count()
}

/// Whether each field occurs once in an order; only the rank may be left out.
fn each_once(order: &[Field]) -> bool
    ensures value { result ≡ each_once order.now }
    ensures in_order { IsTrue result → FieldsInOrder order.now }
{
    count(order, Field::Channel) == 1
        && count(order, Field::Column) == 1
        && count(order, Field::Rank) <= 1
        && count(order, Field::Group) == 1
        && count(order, Field::Bank) == 1
        && count(order, Field::Row) == 1
}

/// The order that the items state.
#[tactic(auto, unfolding(crate::specs::Document::Fields::order_of))]
fn order_in(alloc: Global, array: &Array) -> Result<Vec<Field>, Fault>
    ensures ok { IfOk result (λ v. order_of (array_view array.now) ≡ Ok v.items) }
    ensures refused { IfErr result (IsFaultOf (order_of (array_view array.now))) }
    ensures in_order { IfOk result (λ v. FieldsInOrder v.items) }
{
    let order = fields_named(alloc, array)?;
    if each_once(&order) {
        Ok(order)
    } else {
        Err(Fault::ConfigRange(Key::Fields))
    }
}

/// The array at a key, if the key holds one.
fn array_at(table: &Table, key: Key) -> Option<&Array>
    ensures { option_map (λ a. array_view a.now) result ≡ items_at (table_view table.now) key }
{
    match value_at(table, key) {
        Some(value) => value.as_array(),
        None => None,
    }
}

/// The order of the fields, low end first.
#[tactic(auto, unfolding(crate::specs::Document::Fields::fields_of))]
pub(super) fn read_fields(alloc: Global, table: &Table) -> Result<Vec<Field>, Fault>
    ensures ok { IfOk result (λ v. fields_of (table_view table.now) ≡ Ok v.items) }
    ensures refused { IfErr result (IsFaultOf (fields_of (table_view table.now))) }
    ensures in_order { IfOk result (λ v. FieldsInOrder v.items) }
{
    let Some(array) = array_at(table, Key::Fields) else {
        return Err(Fault::ConfigKey(Key::Fields));
    };
    if !are_texts(array) {
        return Err(Fault::ConfigKey(Key::Fields));
    }
    order_in(alloc, array)
}
