//! In which order the results of a phase come back.

use shards::job::Done;

/// An order in which the results of a phase come back. It may leave results out, repeat them, and bring in others.
pub trait Order {
    ghost use Rattle.std.specs.Prelude.{ℕ, List};
    ghost use Rattle.shards.specs.Jobs.{JobView};
    ghost use Rattle.reference.specs.Orders.{BringsNoneIn};

    // Which lists it may give for the results of the phase with a number. Each order says it: this default lets none
    // through.
    ghost may_give: { ℕ → List JobView → List JobView → Type 0 } = { λ _ _ _. ⊥ };

    /// The results of a phase in their order. A result that has the name of one of those passed in is one of them.
    /// Any others may stand among them: of other phases, and of other machines, also with the phase's number.
    fn arrange(&mut self, phase: u64, results: Vec<Done>) -> Vec<Done>
        ensures may { may_give phase results.items result.items }
        ensures given { BringsNoneIn results.items result.items };
}
