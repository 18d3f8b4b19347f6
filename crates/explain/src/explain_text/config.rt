//! What is said of a configuration that is refused.

use crate::explain_text::fragments::Fragment::{Foreign, Number, Words};
use crate::explain_text::lines::{Position, line_at};
use crate::explain_text::links::put_links;
use crate::explain_text::relations::put_relation;
use crate::explain_text::section::Section;
use measures::text_builder::TextBuilder;
use sim_base::fault::Fault;
use sim_base::key::{DOCUMENT_KEYS, Key};
use std::alloc::{AllocError, Global};
use toml::Table;

// What is wrong at a place of a document, and the line of that place.
fn put_place<'a>(text: &mut TextBuilder, document: &'a [u8], offset: usize, flaw: &'a str) {
    let Position { line, column } = Position::behind(document.get(..offset).unwrap_or(document));
    let fragments = [Number(line), Number(column), Words(flaw)];
    text.fill(" line {}, column {}: {}\n", &fragments);
    let words = line_at(document, line).unwrap_or(b"").trim_ascii();
    if !words.is_empty() {
        text.fill("{}\n", &[Foreign(words)]);
    }
}

// Why a document in UTF-8 is not TOML.
fn put_error(text: &mut TextBuilder, document: &str) {
    match toml::table_from_str(text.alloc(), document) {
        Ok(_) => text.push_str(" a configuration is a TOML document in UTF-8\n"),
        Err(error) => match error.span() {
            Some(span) => put_place(text, document.as_bytes(), span.start, error.message()),
            None => text.refuse(),
        },
    }
}

// Why a document is not TOML in UTF-8.
fn put_syntax(text: &mut TextBuilder, document: &[u8]) {
    match str::from_utf8(document) {
        Ok(document) => put_error(text, document),
        Err(error) => put_place(text, document, error.valid_up_to(), "this is no UTF-8"),
    }
}

// The table of a document; an empty one where the document is not TOML.
fn table_of(alloc: Global, document: &[u8]) -> Result<Table, AllocError> {
    let text = str::from_utf8(document).unwrap_or("");
    match toml::table_from_str(alloc, text) {
        Ok(table) => Ok(table),
        Err(error) if error.is_memory() => Err(AllocError),
        Err(_) => Ok(Table::new(alloc)),
    }
}

// What is wrong with a key, or with its range, or with a relation.
fn put_flaw(text: &mut TextBuilder, document: &Section<'_>, fault: Fault) {
    match fault {
        Fault::ConfigKey(Key::Unknown) => document.put_unknown(text),
        Fault::ConfigKey(Key::Link) | Fault::ConfigRange(Key::Link) => put_links(text, document),
        Fault::ConfigKey(key) => document.put_key(text, key),
        Fault::ConfigRange(key) => document.put_range(text, key),
        Fault::ConfigRelation(number) => put_relation(text, number, document.table),
        _ => {}
    }
}

/// Says why a document is refused, by its path and its fault, from 1 to 4, after the path and a colon.
pub(crate) fn config_text(
    alloc: Global,
    fault: Fault,
    path: &str,
    document: &[u8],
) -> Result<String, AllocError> {
    let mut text = TextBuilder::new(alloc);
    if fault == Fault::ConfigSyntax {
        put_syntax(&mut text, document);
        return text.finish();
    }
    match table_of(alloc, document) {
        Ok(table) => {
            let section = Section {
                path,
                item: None,
                table: &table,
                keys: &DOCUMENT_KEYS,
            };
            put_flaw(&mut text, &section, fault);
        }
        Err(_) => text.refuse(),
    }
    text.finish()
}
