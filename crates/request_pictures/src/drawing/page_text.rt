//! The text of a page in the making.

ghost use Rattle.std.specs.Prelude.{◌≡◌, true, false, [], length, string_bytes};
ghost use Rattle.std.specs.Result.{OkIff};
ghost use Rattle.measures.specs.Filled.{IsFilled};
ghost use Rattle.measures.specs.Texts.{GoesOnWithRoom, Grows, Puts, PutsWords};
ghost use Rattle.request_pictures.specs.Legends.{legend_text};
ghost use Rattle.request_pictures.specs.Pieces.{IsPieceText};

use crate::drawing::axes::{Quantity, put_cycle_ticks, put_value_ticks};
use crate::drawing::markup::{LegendEntry, Piece, put_legend};
use measures::text_builder::TextBuilder;
use std::alloc::{AllocError, Global};

/// The text of a page in the making. It keeps whether memory was refused for a part of it: then it comes to no end.
#[derive(Drop)]
pub struct Markup {
    text: TextBuilder,
}

impl Markup {
    /// No text yet.
    pub fn new(alloc: Global) -> Markup
        ensures going { result.text.was_refused ≡ false }
        ensures empty { string_bytes result.text.text ≡ [] }
    {
        Markup {
            text: TextBuilder::new(alloc),
        }
    }

    /// Keeps that memory was refused for a part.
    pub fn refuse(&mut self)
        ensures { self.new.text.was_refused ≡ true }
    {
        self.text.refuse();
    }

    /// Appends a form, with pieces in place of its `{}`, in turn.
    pub fn fill(&mut self, form: &str, pieces: &[Piece])
        ensures { Puts (IsFilled IsPieceText form.now pieces.now) self.old.text self.new.text }
    {
        self.text.fill(form, pieces);
    }

    /// Appends words, or markup. No memory is refused where the text has room for them.
    pub fn push_str(&mut self, words: &str)
        ensures words { PutsWords words.now self.old.text self.new.text }
        ensures room { GoesOnWithRoom (length words.now) self.old.text self.new.text }
    {
        self.text.push_str(words);
    }

    /// Appends a legend as a list.
    pub fn put_legend(&mut self, entries: &[LegendEntry])
        ensures { PutsWords (legend_text entries.now) self.old.text self.new.text }
    {
        put_legend(entries, &mut self.text);
    }

    /// Appends the ticks of an axis of cycles.
    pub fn put_cycle_ticks(&mut self, from: u64, span: u64)
        ensures { Grows self.old.text self.new.text }
    {
        put_cycle_ticks(from, span, &mut self.text);
    }

    /// Appends the ticks of an axis of values.
    pub fn put_value_ticks(&mut self, quantity: Quantity, top: u64)
        ensures { Grows self.old.text self.new.text }
    {
        put_value_ticks(quantity, top, &mut self.text);
    }

    /// The whole text if memory was refused for no part of it, and else `AllocError`.
    pub fn finish(self) -> Result<String, AllocError>
        ensures { OkIff result (self.text.was_refused ≡ false) self.text.text }
    {
        self.text.finish()
    }
}
