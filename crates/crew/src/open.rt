//! How a board is opened.

ghost use Rattle.std.specs.Prelude.{◌≡◌, ◌<◌, [], IfOk};
ghost use Rattle.crew.specs.Rule.{put_view};

use crate::rule::{BoardName, BoardPass, TaskQueue};
use crate::seats::{Board, PutSeat};
use std::alloc::{AllocError, Global};
use std::marker::{Model, PhantomData};

/// A board that has no name yet. To a contract it is its future name, and how many tasks it has room for.
#[derive(Drop)]
pub struct Blank<T: Drop> {
    queue: TaskQueue<T>,
    pass: BoardPass<T>,
}

impl<T: Drop> Model for Blank<T> {
    ghost use Rattle.std.specs.Prelude.{◌≡◌, []};
    ghost use Rattle.crossbeam_queue.specs.Passes.{IsPassOf, ruled_capacity};
    ghost use Rattle.crew.specs.Rule.{view_of, blank_view, BlankView};

    ghost Value = { BlankView };

    ghost view = { λ b. blank_view b.queue.table.shared.table_id (ruled_capacity b.queue) };

    ghost invariant = { λ b. IsPassOf b.queue b.pass × (b.pass.me.0.client ≡ view_of 1 [] []) };
}

impl<T: Drop> Blank<T> {
    /// A board with room for `room` tasks. The only error is out of memory.
    pub fn open(alloc: Global, room: usize) -> Result<Blank<T>, AllocError>
        requires { 0 < room }
        ensures { IfOk result (λ b. b.room ≡ room) }
    {
        let (queue, pass) = TaskQueue::ruled(alloc, room)?;
        Ok(Blank { queue, pass })
    }

    /// The board under its name, and the seat that puts. Nothing was put.
    pub fn named<B: BoardName>(self) -> (Board<T, B>, PutSeat<T, B>)
        requires { self.name ≡ B.table }
        ensures { (result.0 ≡ self.room) × (result.1 ≡ put_view [] []) }
    {
        let Blank { queue, pass } = self;
        let board = Board {
            queue,
            name: PhantomData,
        };
        let seat = PutSeat {
            pass,
            name: PhantomData,
        };
        (board, seat)
    }
}
