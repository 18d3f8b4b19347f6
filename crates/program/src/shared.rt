//! Texts that several names share.

ghost use Rattle.std.specs.Prelude.{◌≡◌, IfOk};

use std::alloc::{AllocError, Global};
use std::marker::Model;
use std::sync::Arc;

/// The bytes of a file, which its copies share.
#[derive(Drop)]
pub(crate) struct SharedText {
    bytes: Arc<Vec<u8>>,
}

impl Model for SharedText {
    ghost use Rattle.std.specs.Prelude.{List, ℕ};
    ghost use Rattle.std.specs.Arc.{arc_value};

    ghost Value = { List ℕ };

    ghost view = { λ t. (arc_value t.bytes).items };
}

impl SharedText {
    /// A text of these bytes. The only error is out of memory.
    pub(crate) fn new(alloc: Global, bytes: Vec<u8>) -> Result<SharedText, AllocError>
        ensures { IfOk result (λ text. text ≡ bytes.items) }
    {
        match Arc::new(alloc, bytes) {
            Ok(bytes) => Ok(SharedText { bytes }),
            Err(_) => Err(AllocError),
        }
    }

    /// Another holder of this text, whose bytes are shared. The only error is out of memory.
    pub(crate) fn copy(&self) -> Result<SharedText, AllocError>
        ensures { IfOk result (λ text. text ≡ self.now) }
    {
        let bytes = self.bytes.clone()?;
        Ok(SharedText { bytes })
    }

    pub(crate) fn as_slice(&self) -> &[u8]
        ensures { result.now ≡ self.now }
    {
        self.bytes.as_slice()
    }
}
