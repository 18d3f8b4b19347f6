//! A table of a configuration, and what is said of its keys.

use crate::explain_text::fragments::Fragment::{Entry, Foreign, Place, Words};
use crate::explain_text::keys::{is_known, range_of, type_of};
use crate::explain_text::nearest::nearest;
use measures::text_builder::TextBuilder;
use sim_base::key::Key;
use std::alloc::{AllocError, Global};
use toml::{Table, Value};

/// The table of a document, or of an item of `link`.
#[derive(Clone, Copy)]
pub(crate) struct Section<'a> {
    pub(crate) path: &'a str,
    /// Which item of `link` the table is, if it is one.
    pub(crate) item: Option<u64>,
    pub(crate) table: &'a Table,
    pub(crate) keys: &'static [Key],
}

impl<'a> Section<'a> {
    /// Says what is wrong with the type of a key's value, or that the key is missing, after the path.
    pub(crate) fn put_key(&self, text: &mut TextBuilder, key: Key) {
        match self.table.get(key.name()) {
            Some(value) => self.put_value(text, key, value, type_of(key)),
            None => self.put_missing(text, key),
        }
    }

    /// Says that the value of a key is out of its range, after the path.
    pub(crate) fn put_range(&self, text: &mut TextBuilder, key: Key) {
        match self.table.get(key.name()) {
            Some(value) => self.put_value(text, key, value, ""),
            None => self.put_absent(text, key),
        }
    }

    // What stands at a key, and what may stand there: what is of this type and in the range of the key.
    fn put_value(&self, text: &mut TextBuilder, key: Key, value: &'a Value, of_type: &'static str) {
        let fragments = [
            Place(self.item),
            Entry(key, value),
            Words(of_type),
            Words(range_of(key)),
        ];
        text.fill("{} {}, where {}{} may stand\n", &fragments);
    }

    // What may stand at a key that is not there.
    fn put_absent(&self, text: &mut TextBuilder, key: Key) {
        let fragments = [Place(self.item), Words(key.name()), Words(range_of(key))];
        text.fill("{} at {} {} may stand\n", &fragments);
    }

    fn put_missing(&self, text: &mut TextBuilder, key: Key) {
        let fragments = [
            Place(self.item),
            Words(key.name()),
            Words(type_of(key)),
            Words(range_of(key)),
        ];
        text.fill(
            "{} the key {} is missing; {}{} may stand there\n",
            &fragments,
        );
        self.put_instead(text, key);
    }

    // What stands in the document and may have been meant as the missing key, as a line after the path.
    fn put_instead(&self, text: &mut TextBuilder, key: Key) {
        if let Some(holder) = self.holder_of(key) {
            text.fill(
                "{}: it stands in the table {}, and must stand in none, so before the first line in brackets\n",
                &[Words(self.path), Foreign(holder.as_bytes())],
            );
            return;
        }
        match self.misspelt(text.alloc(), key) {
            Ok(Some(name)) => {
                text.fill("{}:", &[Words(self.path)]);
                self.put_meant(text, name, key.name());
            }
            Ok(None) => {}
            Err(_) => text.refuse(),
        }
    }

    // The name of a table of the document, or of an array of tables, that holds a key.
    fn holder_of(&self, key: Key) -> Option<&'a str> {
        if self.item.is_some() {
            return None;
        }
        for (name, value) in self.table.iter() {
            if holds(value, key) {
                return Some(name.as_str());
            }
        }
        None
    }

    // A name that is not known, and is near that of a key.
    fn misspelt(&self, alloc: Global, key: Key) -> Result<Option<&'a str>, AllocError> {
        for name in self.table.keys() {
            if !is_known(self.keys, name.as_str())
                && nearest(alloc, &[key], self.table, name.as_str())?.is_some()
            {
                return Ok(Some(name.as_str()));
            }
        }
        Ok(None)
    }

    /// The first name that no key of the table has.
    pub(crate) fn unknown(&self) -> Option<&'a str> {
        for name in self.table.keys() {
            if !is_known(self.keys, name.as_str()) {
                return Some(name.as_str());
            }
        }
        None
    }

    /// Says which name is not known, and which may be meant, after the path.
    pub(crate) fn put_unknown(&self, text: &mut TextBuilder) {
        let Some(name) = self.unknown() else {
            text.fill("{} a key is not known\n", &[Place(self.item)]);
            return;
        };
        match nearest(text.alloc(), self.keys, self.table, name) {
            Ok(Some(key)) => self.put_meant(text, name, key.name()),
            Ok(None) => text.fill(
                "{} the key {} is not known\n",
                &[Place(self.item), Foreign(name.as_bytes())],
            ),
            Err(_) => text.refuse(),
        }
    }

    // Says that a name is not known, and which one may be meant, after the path.
    fn put_meant(&self, text: &mut TextBuilder, name: &'a str, meant: &'static str) {
        let fragments = [Place(self.item), Foreign(name.as_bytes()), Words(meant)];
        text.fill("{} the key {} is not known: did you mean {}?\n", &fragments);
    }
}

// Whether a value is a table with a key, or an array with such a table.
fn holds(value: &Value, key: Key) -> bool {
    match value {
        Value::Table(table) => table.contains_key(key.name()),
        Value::Array(items) => has_table_with(items.as_slice(), key),
        _ => false,
    }
}

fn has_table_with(items: &[Value], key: Key) -> bool {
    for item in items {
        if let Value::Table(table) = item {
            if table.contains_key(key.name()) {
                return true;
            }
        }
    }
    false
}
