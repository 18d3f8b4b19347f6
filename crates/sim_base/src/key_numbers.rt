//! The numbers of a configuration, by their keys.

ghost use Rattle.std.specs.Prelude.{◌≡◌, ℕ, IsTrue};
ghost use Rattle.sim_base.specs.declared.key.Key.{Key};
ghost use Rattle.sim_base.specs.Keys.{AcceptedAt, has_number};

use crate::key::Key;

/// A number for each key at which a document has one, each such that it may stand there.
pub trait KeyNumbers {
    /// Its numbers, by their keys.
    ghost number_of: { Self → Key → ℕ };

    /// The number at a key.
    fn number(&self, key: Key) -> u32
        requires { IsTrue (has_number key) }
        ensures value { result ≡ number_of self.now key }
        ensures accepted { AcceptedAt key result };
}
