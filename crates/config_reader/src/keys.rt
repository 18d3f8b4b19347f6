//! One key of a document's table.

ghost use Rattle.std.specs.Prelude.{◌≡◌, IfOk, IsTrue, option_map, string_bytes};
ghost use Rattle.std.specs.BTreeMap.{keys};
ghost use Rattle.std.specs.Int.{is_power_of_two};
ghost use Rattle.std.specs.Option.{ForSome};
ghost use Rattle.std.specs.List.{list_all};
ghost use Rattle.toml.specs.View.{view, table_view};
ghost use Rattle.sim_base.specs.Keys.{AcceptedAt, Within};
ghost use Rattle.config_reader.specs.Document.Keys.{data_at, integer_at, in_range, number_from, as_power, number_refused_as, number_at, is_known, keys_are_known, known_of, count_of};

use sim_base::fault::Fault;
use sim_base::key::{Accepts, DOCUMENT_KEYS, Key};
use toml::{Table, Value};

/// What stands at a key.
pub(super) fn value_at(table: &Table, key: Key) -> Option<&Value>
    ensures { option_map (λ v. view v.now) result ≡ data_at (table_view table.now) key }
{
    table.get(key.name())
}

/// The integer at a key, if the key holds one.
pub(super) fn integer_at(table: &Table, key: Key) -> Option<i64>
    ensures { result ≡ integer_at (table_view table.now) key }
{
    match value_at(table, key) {
        Some(value) => value.as_integer(),
        None => None,
    }
}

/// A value that has to be an integer between two bounds.
fn in_range(key: Key, low: u32, high: u32, value: Option<i64>) -> Result<u32, Fault>
    ensures value { result ≡ in_range key low high value }
    ensures range { IfOk result (Within low high) }
{
    match value {
        Some(n) => match u32::try_from(n) {
            Ok(n) if low <= n && n <= high => Ok(n),
            _ => Err(Fault::ConfigRange(key)),
        },
        None => Err(Fault::ConfigKey(key)),
    }
}

/// The number at a key, from low up to high, or what stands for it where the key is absent.
fn number_from(
    named: Key,
    absent: Option<u32>,
    low: u32,
    high: u32,
    found: Option<&Value>,
) -> Result<u32, Fault>
    requires { ForSome absent (Within low high) }
    ensures value { result ≡ number_from absent named low high
        (option_map (λ v. view v.now) found.entry) }
    ensures range { IfOk result (Within low high) }
{
    match found {
        Some(value) => in_range(named, low, high, value.as_integer()),
        None => match absent {
            Some(number) => Ok(number),
            None => Err(Fault::ConfigKey(named)),
        },
    }
}

/// A number that has to be a power of two.
fn as_power(key: Key, n: u32) -> Result<u32, Fault>
    ensures value { result ≡ as_power key n }
    ensures same { IfOk result (λ m. m ≡ n) }
    ensures power { IfOk result (λ m. IsTrue (is_power_of_two m)) }
{
    if n.is_power_of_two() {
        Ok(n)
    } else {
        Err(Fault::ConfigRange(key))
    }
}

/// The number at a key, by what the key accepts. Where it is refused, the fault names this other key.
#[tactic(auto, unfolding(crate::specs::Document::Keys::number_refused_as))]
pub(super) fn number_refused_as(named: Key, table: &Table, key: Key) -> Result<u32, Fault>
    ensures value { result ≡ number_refused_as named (table_view table.now) key }
    ensures accepted { IfOk result (AcceptedAt key) }
{
    let absent = key.default_number();
    let found = value_at(table, key);
    match key.accepts() {
        Accepts::Integer(low, high) => number_from(named, absent, low, high, found),
        Accepts::PowerOfTwo(low, high) => {
            as_power(named, number_from(named, absent, low, high, found)?)
        }
        _ => Err(Fault::ConfigKey(named)),
    }
}

/// The number at a key, by what the key accepts.
pub(super) fn number_at(table: &Table, key: Key) -> Result<u32, Fault>
    ensures value { result ≡ number_at (table_view table.now) key }
    ensures accepted { IfOk result (AcceptedAt key) }
{
    number_refused_as(key, table, key)
}

/// Whether a document may have a key of this name.
#[tactic(auto, unfolding(crate::specs::Document::Keys::is_known))]
fn is_known(name: &str) -> bool
    ensures { result ≡ is_known name.now }
{
    DOCUMENT_KEYS.iter().any(|key| key.name() == name)
}

/// Whether a document may have each key of the table's map.
fn are_known(table: &Table) -> bool
    ensures { result ≡ list_all (λ k. is_known (string_bytes k)) (keys table.now) }
{
    table.keys().all(|key| is_known(key.as_str()))
}

/// Whether a document may have each key of the table.
fn has_known_keys(table: &Table) -> bool
    ensures { result ≡ keys_are_known (table_view table.now) }
{
    are_known(table)
}

/// Refuses a key that no configuration has.
#[tactic(auto, unfolding(crate::specs::Document::Keys::known_of))]
pub(super) fn check_keys(table: &Table) -> Result<(), Fault>
    ensures { result ≡ known_of (table_view table.now) }
{
    if has_known_keys(table) {
        Ok(())
    } else {
        Err(Fault::ConfigKey(Key::Unknown))
    }
}

/// How many keys a table has.
pub(super) fn key_count(table: &Table) -> usize
    ensures { result ≡ count_of (table_view table.now) }
{
    table.len()
}
