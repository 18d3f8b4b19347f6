//! The keys of a configuration, and what may stand at them.

ghost use Rattle.std.specs.Prelude.{◌≡◌, IfSome};
ghost use Rattle.sim_base.specs.Keys.{key_name};

use sim_base::key::{Accepts, KEYS, Key};

/// The keys of an item of `link`.
pub(crate) static ITEM_KEYS: [Key; 2] = [Key::Id, Key::Latency];

/// The key, of some keys, that has a name.
pub(crate) fn key_named(keys: &[Key], name: &str) -> Option<Key>
    ensures { IfSome result (λ key. key_name key ≡ name.now) }
{
    for key in keys {
        if key.name() == name {
            return Some(*key);
        }
    }
    None
}

/// Whether a name is that of one of some keys.
pub(crate) fn is_known(keys: &[Key], name: &str) -> bool {
    key_named(keys, name).is_some()
}

/// Whether a number is in the range of a key that is any integer of it.
pub(crate) fn is_in_range(key: Key, number: i64) -> bool {
    match key.accepts() {
        Accepts::Integer(least, most) => i64::from(least) <= number && number <= i64::from(most),
        _ => false,
    }
}

/// What may stand at a key.
pub(crate) fn range_of(key: Key) -> &'static str {
    KEYS[key as usize].words
}

/// The words before the range of a key that is any integer of it.
pub(crate) fn type_of(key: Key) -> &'static str {
    match key.accepts() {
        Accepts::Integer(..) => "an integer from ",
        _ => "",
    }
}
