//! What a thread returns to the caller.

ghost use Rattle.std.specs.Prelude.{◌≡◌, map};

use crate::rule::BoardName;
use crate::seats::TakeSeat;
use crate::work::DoneOf;

/// What came of tasks, and a seat of this board that took exactly these, in this order.
#[derive(Drop)]
pub(crate) struct Returned<T, D: DoneOf<T>, B: BoardName> {
    pub(crate) seat: TakeSeat<T, B>,
    pub(crate) results: Vec<D>,
    ghost same: { seat ≡ map D.task results.items },
}
