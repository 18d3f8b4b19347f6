//! The law of the grammar of traces.

ghost use Rattle.std.specs.Prelude.{ℕ, List};
ghost use Rattle.sim_base.specs.declared.trace.Entry.{Entry};
ghost use Rattle.sim_base.specs.TraceGrammar.{IsReadInOneWay};

/// A text stands for just the entries that its lines have, one after another. So it stands for at most one list of
/// entries, and for none if and only if it has a bad line.
pub fn texts_are_read_in_one_way()
    ensures { (text : List ℕ) (entries : List Entry) → IsReadInOneWay text entries }
{}
