//! The rule of a board: what the queue holds, and what each pass of it knows.

ghost use Rattle.std.specs.Prelude.{◌≡◌, ◌≤◌, [], ◌∷◌, ◌++◌, length};
ghost use Rattle.atomic_table.specs.Seated.{TableId};
ghost use Rattle.crew.specs.Rule.{view_of, spent, no_table, Moment, IsSettled, WasInFront};

use crossbeam_queue::protocol::{Join, Lesson, Outcome, Protocol, Split};
use crossbeam_queue::{Pass, RuledArrayQueue};
use std::collections::LinkedList;
use std::marker::Brand;

/// What a pass knows: whether it may put (1 or 0), what it has put since the board was cleared last, and what it has
/// taken and not returned. No value of this type is ever made.
pub struct PassView<T> {
    pub may_put: u64,
    pub put: LinkedList<T>,
    pub taken: LinkedList<T>,
}

/// The rule of a board.
pub struct BoardRule;

/// The queue of a board.
pub type TaskQueue<T> = RuledArrayQueue<T, PassView<T>, BoardRule>;

/// What a seat has of the queue.
pub type BoardPass<T> = Pass<T, PassView<T>>;

impl<T> Protocol<T, PassView<T>> for BoardRule {
    ghost use Rattle.crew.specs.Rule.{Kept, view_of};

    ghost holds = { Kept };

    ghost first = { view_of 1 [] [] };
}

/// The next task is put.
pub struct Puts;

impl<T> Outcome<T, PassView<T>> for Puts {
    ghost then = { λ v x w. w ≡ view_of v.may_put (v.put ++ x ∷ []) v.taken };
}

impl<T> Lesson<T, PassView<T>> for Puts {
    ghost fact = { λ v items. length items ≤ length v.put };
}

/// The task in front is taken.
pub struct Takes;

impl<T> Outcome<T, PassView<T>> for Takes {
    ghost then = { λ v x w. (w ≡ view_of v.may_put v.put (v.taken ++ x ∷ [])) × WasInFront x v };
}

impl<T> Lesson<T, PassView<T>> for Takes {
    ghost fact = { λ v items. Moment items v };
}

/// No more was returned than was put; where it is equally many, it is exactly what was put.
pub struct Settles;

impl<T> Lesson<T, PassView<T>> for Settles {
    ghost fact = { λ v items. IsSettled v };
}

/// A pass that has nothing is made.
pub struct EmptyPass;

impl<T> Split<PassView<T>> for EmptyPass {
    ghost left = { λ v. v };

    ghost right = { λ v. spent };
}

/// What a pass took goes to a pass of its own, to be returned.
pub struct SplitTaken;

impl<T> Split<PassView<T>> for SplitTaken {
    ghost left = { λ v. view_of v.may_put v.put [] };

    ghost right = { λ v. view_of 0 [] v.taken };
}

/// What another pass took is returned.
pub struct Absorb;

impl<T> Join<PassView<T>> for Absorb {
    ghost both = { λ v w. view_of v.may_put v.put (v.taken ++ w.taken) };

    ghost spent = { spent };
}

/// All was returned, and the board is cleared.
pub struct Clear;

impl<T> Split<PassView<T>> for Clear {
    ghost left = { λ v. view_of v.may_put [] [] };

    ghost right = { λ v. spent };
}

/// The name of one board, as a type. The call that opens the board picks it.
pub trait BoardName {
    ghost use Rattle.atomic_table.specs.Seated.{TableId};

    ghost table: { TableId };
}

impl BoardName for Brand {
    ghost use Rattle.crew.specs.Rule.{no_table};

    ghost table = { no_table };
}
