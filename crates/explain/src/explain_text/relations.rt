//! What is said of a relation between the numbers of a configuration.

use crate::explain_text::fragments::Fragment::{Entry, Number};
use crate::explain_text::keys::key_named;
use crate::explain_text::links::{id_of, integer_at, items_of};
use measures::text_builder::TextBuilder;
use measures::text_builder::forms::Append;
use sim_base::key::{DOCUMENT_KEYS, Key};
use std::alloc::{AllocError, Global};
use toml::Table;
use toml::value::Array;

/// A relation between two sides.
#[derive(Clone, Copy)]
struct Relation {
    rule: &'static str,
    /// How the sides compare where it does not hold: what stands between two `%` is a key, or words.
    broken: &'static str,
}

static READ_TO_WRITE: Relation = Relation {
    rule: " nRTW + nCWL >= nCL + 4",
    broken: "nRTW% + %nCWL% is less than %nCL% + 4",
};

static COLUMNS_APART: Relation = Relation {
    rule: " nCCD_S >= 4",
    broken: "nCCD_S% is less than 4",
};

static COLUMNS: Relation = Relation {
    rule: " nCCD_L >= nCCD_S",
    broken: "nCCD_L% is less than %nCCD_S",
};

static ACTIVATES: Relation = Relation {
    rule: " nRRD_L >= nRRD_S",
    broken: "nRRD_L% is less than %nRRD_S",
};

static WRITE_TO_READ: Relation = Relation {
    rule: " nWTR_L >= nWTR_S",
    broken: "nWTR_L% is less than %nWTR_S",
};

static REFRESH: Relation = Relation {
    rule: " nREFI = 0 or nREFI >= max(nRAS, nRTP, nCWL + 4 + nWR) + nRP + (ranks - 1)(nRP + 1) + nRFC + 1",
    broken: "nREFI% is less than max(%nRAS%, %nRTP%, %nCWL% + 4 + %nWR%) + %nRP% + (%ranks% - 1)(%nRP% + 1) + %nRFC% + 1",
};

static CREDITS: Relation = Relation {
    rule: " cores * (read_credits + write_credits) <= 8192",
    broken: "cores% * (%read_credits% + %write_credits%) is greater than 8192",
};

static DRAIN: Relation = Relation {
    rule: " write_high = write_low = 0 or write_low < write_high",
    broken: "write_low% is not less than %write_high",
};

static WRITES: Relation = Relation {
    rule: " write_high <= cores * write_credits",
    broken: "write_high% is greater than %cores% * %write_credits",
};

// A relation between two sides, by its number.
fn relation_of(number: u8) -> Option<&'static Relation> {
    Some(match number {
        1 => &READ_TO_WRITE,
        2 => &COLUMNS_APART,
        3 => &COLUMNS,
        4 => &ACTIVATES,
        5 => &WRITE_TO_READ,
        6 => &REFRESH,
        7 => &CREDITS,
        11 => &DRAIN,
        12 => &WRITES,
        _ => return None,
    })
}

// The number that stands for a key where it is absent, if it may be and means one.
fn absent_number(name: &str) -> Option<u64> {
    let number = key_named(&DOCUMENT_KEYS, name)?.default_number()?;
    Some(u64::from(number))
}

// The number at a key; where it is absent, the number that it counts as, if there is one.
fn number_at(table: &Table, name: &str) -> Option<u64> {
    match integer_at(table, name) {
        Some(number) => u64::try_from(number).ok(),
        None => absent_number(name),
    }
}

// The number at a key that is there or counts as a number.
fn value_at(table: &Table, name: &str) -> u64 {
    number_at(table, name).unwrap_or(0)
}

fn sum_at(table: &Table, one: &str, other: &str) -> u64 {
    value_at(table, one).saturating_add(value_at(table, other))
}

fn times_cores(table: &Table, number: u64) -> u64 {
    number.saturating_mul(value_at(table, "cores"))
}

// The least nREFI above 0.
fn refresh_at(table: &Table) -> u64 {
    let open = value_at(table, "nRAS").max(value_at(table, "nRTP"));
    let written = sum_at(table, "nCWL", "nWR").saturating_add(4);
    let one = value_at(table, "nRP").saturating_add(1);
    let others = value_at(table, "ranks").saturating_sub(1);
    open.max(written)
        .saturating_add(one)
        .saturating_add(one.saturating_mul(others))
        .saturating_add(value_at(table, "nRFC"))
}

// What the left side of a relation comes to.
fn left_at(table: &Table, number: u8) -> u64 {
    match number {
        1 => sum_at(table, "nRTW", "nCWL"),
        2 => value_at(table, "nCCD_S"),
        3 => value_at(table, "nCCD_L"),
        4 => value_at(table, "nRRD_L"),
        5 => value_at(table, "nWTR_L"),
        6 => value_at(table, "nREFI"),
        7 => times_cores(table, sum_at(table, "read_credits", "write_credits")),
        11 => value_at(table, "write_low"),
        _ => value_at(table, "write_high"),
    }
}

// What the right side of a relation comes to.
fn right_at(table: &Table, number: u8) -> u64 {
    match number {
        1 => value_at(table, "nCL").saturating_add(4),
        2 => 4,
        3 => value_at(table, "nCCD_S"),
        4 => value_at(table, "nRRD_S"),
        5 => value_at(table, "nWTR_S"),
        6 => refresh_at(table),
        7 => 8_192,
        11 => value_at(table, "write_high"),
        _ => times_cores(table, value_at(table, "write_credits")),
    }
}

// Whether a relation does not hold between what its sides come to.
fn is_broken(number: u8, left: u64, right: u64) -> bool {
    match number {
        7 | 12 => left > right,
        11 => left >= right,
        _ => left < right,
    }
}

// Says how the sides of a relation compare, with numbers in place of the keys.
fn put_compared(text: &mut TextBuilder, broken: &str, table: &Table) {
    for word in broken.split('%') {
        match number_at(table, word) {
            Some(number) => Number(number).append_to(text),
            None => text.push_str(word),
        }
    }
}

// Says of a relation between two sides that it must hold, or how its sides compare where it does not, and what the
// right one comes to where that does not show it.
fn put_sides(text: &mut TextBuilder, number: u8, table: &Table) {
    let Some(relation) = relation_of(number) else {
        let fragments = [Number(u64::from(number))];
        text.fill(" relation {} does not hold\n", &fragments);
        return;
    };
    text.push_str(relation.rule);
    let right = right_at(table, number);
    if !is_broken(number, left_at(table, number), right) {
        text.push_str(" must hold\n");
        return;
    }
    text.push_str(" does not hold: ");
    put_compared(text, relation.broken, table);
    match number {
        6 => text.fill(", which is {}\n", &[Number(right)]),
        _ => text.push_str("\n"),
    }
}

// The first id of a link that is not there.
fn absent_link(items: Option<&Array>, links: u64) -> Option<u64> {
    for item in items? {
        if let Some(id) = id_of(item) {
            if id >= links {
                return Some(id);
            }
        }
    }
    None
}

// Relation 8: each link that has a latency of its own exists.
fn put_absent_link(text: &mut TextBuilder, table: &Table) {
    let links = times_cores(table, value_at(table, "channels")).saturating_mul(3);
    match absent_link(items_of(table), links) {
        Some(id) => text.fill(
            " link has the id {}, and there are the links 0 to {}: 3 for each pair of a core and a channel\n",
            &[Number(id), Number(links.saturating_sub(1))],
        ),
        None => text.push_str(" each id of link must be less than 3 * cores * channels\n"),
    }
}

// The first id that also occurs earlier.
fn repeated_id(alloc: Global, items: Option<&Array>) -> Result<Option<u64>, AllocError> {
    let Some(items) = items else {
        return Ok(None);
    };
    let mut seen: Vec<u64> = Vec::new(alloc);
    for item in items {
        if let Some(id) = id_of(item) {
            if seen.contains(&id) {
                return Ok(Some(id));
            }
            seen.push(id)?;
        }
    }
    Ok(None)
}

// Relation 9: no two latencies are for the same link.
fn put_repeated_link(text: &mut TextBuilder, table: &Table) {
    match repeated_id(text.alloc(), items_of(table)) {
        Ok(Some(id)) => text.fill(" two items of link have the id {}\n", &[Number(id)]),
        Ok(None) => text.push_str(" no two items of link may have the same id\n"),
        Err(_) => text.refuse(),
    }
}

// Relation 10: if there are several ranks, an address has a field for the rank.
fn put_rank(text: &mut TextBuilder, table: &Table) {
    text.push_str(" where ranks is above 1 fields must have \"rank\"");
    if let Some(fields) = table.get("fields") {
        text.fill(
            ": ranks = {}, {}",
            &[Number(value_at(table, "ranks")), Entry(Key::Fields, fields)],
        );
    }
    text.push_str("\n");
}

/// Says which relation does not hold, and with which numbers, after the path.
pub(crate) fn put_relation(text: &mut TextBuilder, number: u8, table: &Table) {
    match number {
        8 => put_absent_link(text, table),
        9 => put_repeated_link(text, table),
        10 => put_rank(text, table),
        _ => put_sides(text, number, table),
    }
}
