//! The key that a name may be meant for.

use sim_base::key::Key;
use std::alloc::{AllocError, Global};
use strsim::osa_distance;
use toml::Table;

/// A longer name is not taken for a typing error.
const LONGEST: usize = 40;

fn lowered(alloc: Global, name: &str) -> Result<String, AllocError> {
    let mut text = String::from_str(alloc, name)?;
    text.make_ascii_lowercase();
    Ok(text)
}

// How many letters must be inserted, deleted, changed or exchanged with the next one, ignoring case.
fn edits(alloc: Global, from: &str, to: &str) -> Result<usize, AllocError> {
    let from = lowered(alloc, from)?;
    let to = lowered(alloc, to)?;
    osa_distance(alloc, from.as_str(), to.as_str())
}

/// The key that a name may be meant for: of those that the table does not have, the first one whose name is the
/// nearest, if it is near, which is at most one edit for three letters of the name.
pub(crate) fn nearest(
    alloc: Global,
    keys: &[Key],
    table: &Table,
    name: &str,
) -> Result<Option<Key>, AllocError> {
    let mut found = None;
    if name.len() > LONGEST {
        return Ok(found);
    }
    let mut below = name.len().max(3) / 3 + 1;
    for key in keys {
        if !table.contains_key(key.name()) {
            let edits = edits(alloc, name, key.name())?;
            if edits < below {
                below = edits;
                found = Some(*key);
            }
        }
    }
    Ok(found)
}
