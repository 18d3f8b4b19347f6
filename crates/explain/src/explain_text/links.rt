//! What is said of the items of `link`.

use crate::explain_text::fragments::Fragment::{Number, Words};
use crate::explain_text::keys::{ITEM_KEYS, is_in_range, range_of};
use crate::explain_text::section::Section;
use measures::text_builder::TextBuilder;
use sim_base::key::Key;
use toml::value::Array;
use toml::{Table, Value};

/// The integer at a key of a table.
pub(crate) fn integer_at(table: &Table, name: &str) -> Option<i64> {
    match table.get(name) {
        Some(Value::Integer(number)) => Some(*number),
        _ => None,
    }
}

/// The items of `link`.
pub(crate) fn items_of(table: &Table) -> Option<&Array> {
    match table.get("link") {
        Some(Value::Array(items)) => Some(items),
        _ => None,
    }
}

/// The id of an item, if it has one.
pub(crate) fn id_of(value: &Value) -> Option<u64> {
    match value {
        Value::Table(item) => u64::try_from(integer_at(item, "id")?).ok(),
        _ => None,
    }
}

// Says what is wrong with an item that is a table, if something is.
fn put_table(text: &mut TextBuilder, item: &Section<'_>) {
    let id = integer_at(item.table, "id");
    let latency = integer_at(item.table, "latency");
    match (id, latency, item.unknown()) {
        (None, _, _) => item.put_key(text, Key::Id),
        (_, None, _) => item.put_key(text, Key::Latency),
        (_, _, Some(_)) => item.put_unknown(text),
        (Some(id), _, _) if !is_in_range(Key::Id, id) => item.put_range(text, Key::Id),
        (_, Some(latency), _) if !is_in_range(Key::Latency, latency) => {
            item.put_range(text, Key::Latency)
        }
        _ => {}
    }
}

fn put_item(text: &mut TextBuilder, path: &str, item: u64, value: &Value) {
    match value {
        Value::Table(table) => {
            let section = Section {
                path,
                item: Some(item),
                table,
                keys: &ITEM_KEYS,
            };
            put_table(text, &section);
        }
        _ => text.fill(
            " item {} of link is no table of id and latency\n",
            &[Number(item)],
        ),
    }
}

// Says what is wrong with the first item that is not right, in a text that is not begun.
fn put_items(text: &mut TextBuilder, path: &str, items: &Array) {
    let mut item = 0u64;
    for value in items {
        item = item.saturating_add(1);
        put_item(text, path, item, value);
        if text.is_begun() {
            return;
        }
    }
    let ranges = [Words(range_of(Key::Id)), Words(range_of(Key::Latency))];
    text.fill(
        " each item of link is a table of id, {}, and latency, {}\n",
        &ranges,
    );
}

/// Says what is wrong with `link`, or with the first of its items that is not right, after the path, in a text that is
/// not begun.
pub(crate) fn put_links(text: &mut TextBuilder, document: &Section<'_>) {
    match items_of(document.table) {
        Some(items) => put_items(text, document.path, items),
        None => document.put_key(text, Key::Link),
    }
}
