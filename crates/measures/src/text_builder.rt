//! Builds a text part by part, and keeps whether memory was refused for one of them: then there is no text in the end.

pub mod forms;

ghost use Rattle.std.specs.Prelude.{◌≡◌, ◌==◌, ◌||◌, not, List, ℕ, true, false, [], IfOk, length, string_bytes, string_len, encode_utf8};
ghost use Rattle.std.specs.Result.{OkIff};
ghost use Rattle.measures.specs.Texts.{PutsWords, PutsOutput, KeepsRefusal, GoesOnWithRoom, flush_right};

use std::alloc::{AllocError, Global};
use std::fmt::Display;

/// A text that grows. It keeps whether memory was refused for a part of it: then it comes to no end.
#[derive(Drop)]
pub struct TextBuilder {
    alloc: Global,
    text: String,
    was_refused: bool,
}

impl TextBuilder {
    /// No text yet, whose parts take their memory from here.
    pub fn new(alloc: Global) -> TextBuilder
        ensures alloc { result.alloc ≡ alloc }
        ensures refused { result.was_refused ≡ false }
        ensures empty { string_bytes result.text ≡ [] }
    {
        TextBuilder {
            alloc,
            text: String::new(alloc),
            was_refused: false,
        }
    }

    /// Where the memory of its parts comes from.
    pub fn alloc(&self) -> Global
        ensures { result ≡ self.now.alloc }
    {
        self.alloc
    }

    /// Whether it has a text, or would have one if memory were not refused.
    pub fn is_begun(&self) -> bool
        ensures { result ≡ (self.now.was_refused || not (string_len self.now.text == 0)) }
    {
        self.was_refused || !self.text.is_empty()
    }

    /// Keeps that memory was refused for a part.
    pub fn refuse(&mut self)
        ensures { self.new.was_refused ≡ true }
    {
        self.was_refused = true;
    }

    /// Appends words. No memory is refused where the text has room for them.
    pub fn push_str(&mut self, words: &str)
        ensures words { PutsWords words.now self.old self.new }
        ensures room { GoesOnWithRoom (length words.now) self.old self.new }
    {
        self.was_refused |= self.text.push_str(words).is_err();
    }

    /// Appends a character. No memory is refused where the text has room for it.
    pub fn push_char(&mut self, character: char)
        ensures words { PutsWords (encode_utf8 character) self.old self.new }
        ensures room { GoesOnWithRoom (length (encode_utf8 character)) self.old self.new }
    {
        self.was_refused |= self.text.push(character).is_err();
    }

    /// Appends what `write!` is given.
    pub fn write_fmt<D: Display + Drop>(&mut self, value: D)
        ensures output { PutsOutput (D.output value) self.old self.new }
        ensures kept { KeepsRefusal self.old self.new }
    {
        self.was_refused |= self.text.write(value).is_err();
    }

    /// Appends a text, unless memory was refused for it. No memory is refused where the text so far has room for it.
    pub fn push(&mut self, made: Result<String, AllocError>)
        ensures words { (words : List ℕ) → IfOk made (λ text. string_bytes text ≡ words)
            → PutsWords words self.old self.new }
        ensures room { IfOk made (λ text. GoesOnWithRoom (length (string_bytes text))
            self.old self.new) }
    {
        match made {
            Ok(words) => self.push_str(words.as_str()),
            Err(AllocError) => self.refuse(),
        }
    }

    /// Appends words, with blanks before them where they are shorter than the width. No memory is refused where the text
    /// has room for all of it.
    pub fn push_flush_right(&mut self, width: usize, words: &str)
        ensures words { PutsWords (flush_right width words.now) self.old self.new }
        ensures room { GoesOnWithRoom (length (flush_right width words.now)) self.old self.new }
    {
        for _ in words.len()..width {
            self.push_str(" ");
        }
        self.push_str(words);
    }

    /// The whole text if memory was refused for no part of it, and else `AllocError`.
    pub fn finish(self) -> Result<String, AllocError>
        ensures { OkIff result (self.was_refused ≡ false) self.text }
    {
        if self.was_refused {
            return Err(AllocError);
        }
        Ok(self.text)
    }
}
