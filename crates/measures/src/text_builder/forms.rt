//! Forms, which have a `{}` for each piece that is filled in.

ghost use Rattle.std.specs.Prelude.{ℕ, List};
ghost use Rattle.measures.specs.Texts.{Puts};
ghost use Rattle.measures.specs.Filled.{FillsNext, IsFilled};

use crate::text_builder::TextBuilder;

/// What may stand in place of a `{}` of a form.
pub trait Append: Copy {
    /// Whether a value may append this text.
    ghost appends: { Self → List ℕ → Type 0 };

    /// Appends its text.
    fn append_to(self, out: &mut TextBuilder)
        ensures { Puts (appends self) out.old out.new };
}

impl TextBuilder {
    /// Appends a form, with pieces in place of its `{}`, in turn. A `{}` behind the last piece stays as it is, and
    /// pieces behind the last `{}` are left out.
    pub fn fill<P: Append>(&mut self, form: &str, pieces: &[P])
        ensures { Puts (IsFilled P.appends form.now pieces.now) self.old self.new }
    {
        let mut rest = form;
        for piece in pieces {
            rest = self.fill_next(rest, *piece);
        }
        self.push_str(rest);
    }

    // Appends what stands before the first `{}` of a form, and a piece; gives what stands behind it. Of a form without
    // one it appends nothing, and gives all.
    fn fill_next<'f, P: Append>(&mut self, form: &'f str, piece: P) -> &'f str
        ensures { Puts (FillsNext (P.appends piece) form.now result.now) self.old self.new }
    {
        match form.split_once("{}") {
            Some((words, rest)) => {
                self.push_str(words);
                piece.append_to(self);
                rest
            }
            None => form,
        }
    }
}
