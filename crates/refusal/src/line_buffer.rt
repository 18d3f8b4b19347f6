//! Lines in a room of a fixed size, which are put together without memory of the host's.

ghost use Rattle.std.specs.Prelude.{◌≡◌, ◌≤◌, ◌+◌, [], ◌++◌, length, decimal};

use itoa::Buffer;
use std::fmt::{InlineText, Write};
use std::marker::Model;

/// The greatest length of the lines of a refusal, in bytes.
pub(crate) const ROOM: usize = 256;

/// Lines of at most 256 bytes. A contract sees their text.
#[derive(Drop)]
pub struct LineBuffer {
    text: InlineText<ROOM>,
}

impl Model for LineBuffer {
    ghost use Rattle.std.specs.Prelude.{List, ℕ};
    ghost use Rattle.std.specs.Fmt.InlineText.{inline_text, IsIntact, IsOpen};

    ghost Value = { List ℕ };

    ghost view = { λ lines. inline_text lines.text };

    ghost invariant = { λ lines. IsIntact lines.text × IsOpen lines.text };
}

impl LineBuffer {
    /// No text.
    pub(crate) fn new() -> LineBuffer
        ensures { result ≡ [] }
    {
        LineBuffer {
            text: InlineText::new(),
        }
    }

    /// Appends words.
    pub(crate) fn push(&mut self, words: &str)
        requires room { length self.old + length words.now ≤ 256 }
        ensures text { self.new ≡ self.old ++ words.now }
        ensures len { length self.new ≡ length self.old + length words.now }
    {
        let Ok(()) = self.text.write_str(words) else {
            unreachable!()
        };
    }

    /// Appends words and a name.
    pub(crate) fn push_name(&mut self, words: &str, name: &str)
        requires room { length self.old + length words.now + length name.now ≤ 256 }
        ensures text { self.new ≡ self.old ++ words.now ++ name.now }
        ensures len { length self.new ≡ length self.old + length words.now + length name.now }
    {
        self.push(words);
        self.push(name);
    }

    /// Appends words and a number in decimal digits, of which there are at most 20.
    pub(crate) fn push_number(&mut self, words: &str, number: u64)
        requires room { length self.old + length words.now + 20 ≤ 256 }
        ensures text { self.new ≡ self.old ++ words.now ++ decimal number }
        ensures len { length self.new ≤ length self.old + length words.now + 20 }
    {
        let mut digits = Buffer::new();
        self.push(words);
        self.push(digits.format(number));
    }

    /// The text.
    pub fn as_bytes(&self) -> &[u8]
        ensures { result.now ≡ self.now }
    {
        self.text.as_str().as_bytes()
    }
}
