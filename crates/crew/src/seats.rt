//! A board of tasks, and the seats at it.

ghost use Rattle.std.specs.Prelude.{◌≡◌, ◌+◌, ◌≤◌, [], ◌∷◌, ◌++◌, length, IfSome, IfNone, OnOk, OnErr, IfErr, IsPermutation};
ghost use Rattle.crew.specs.Rule.{put_view, with_put};

use crate::rule::{
    Absorb, BoardName, BoardPass, Clear, EmptyPass, Puts, Settles, SplitTaken, Takes, TaskQueue,
};
use std::marker::{Model, PhantomData};
use std::sync::Wait;

/// The seat that puts. To a contract it is what it has put since the board was cleared last, and what was returned.
#[derive(Drop)]
pub struct PutSeat<T, B: BoardName> {
    pub(crate) pass: BoardPass<T>,
    pub(crate) name: PhantomData<B>,
}

impl<T, B: BoardName> Model for PutSeat<T, B> {
    ghost use Rattle.std.specs.Prelude.{◌≡◌};
    ghost use Rattle.crew.specs.Rule.{PutView, put_view, IsPassAt};

    ghost Value = { PutView T };

    ghost view = { λ s. put_view s.pass.me.0.client.put s.pass.me.0.client.taken };

    ghost invariant = { λ s. IsPassAt B.table s.pass × (s.pass.me.0.client.may_put ≡ 1) };
}

/// A seat that takes. To a contract it is what it has taken.
#[derive(Drop)]
pub struct TakeSeat<T, B: BoardName> {
    pub(crate) pass: BoardPass<T>,
    pub(crate) name: PhantomData<B>,
}

impl<T, B: BoardName> Model for TakeSeat<T, B> {
    ghost use Rattle.std.specs.Prelude.{List};
    ghost use Rattle.crew.specs.Rule.{OnlyTakes, IsPassAt};

    ghost Value = { List T };

    ghost view = { λ s. s.pass.me.0.client.taken };

    ghost invariant = { λ s. IsPassAt B.table s.pass × OnlyTakes s.pass.me.0.client };
}

/// The tasks that were put and that no seat has taken yet. To a contract it is how many it has room for.
#[derive(Drop)]
pub struct Board<T: Drop, B: BoardName> {
    pub(crate) queue: TaskQueue<T>,
    pub(crate) name: PhantomData<B>,
}

impl<T: Drop, B: BoardName> Model for Board<T, B> {
    ghost use Rattle.std.specs.Prelude.{◌≡◌, ℕ};
    ghost use Rattle.crossbeam_queue.specs.Passes.{ruled_capacity};

    ghost Value = { ℕ };

    ghost view = { λ b. ruled_capacity b.queue };

    ghost invariant = { λ b. b.queue.table.shared.table_id ≡ B.table };
}

impl<T: Drop, B: BoardName> Board<T, B> {
    /// How many tasks it has room for.
    pub fn room(&self) -> usize
        ensures { result ≡ self.now }
    {
        self.queue.capacity()
    }

    /// Puts a task. It comes back only if the board is full; the seat then knows what it knew before.
    pub fn put<R: Wait>(&self, rt: &R, seat: &mut PutSeat<T, B>, task: T) -> Result<(), T>
        ensures put { OnOk result (seat.new ≡ with_put seat.old task) }
        ensures back { IfErr result (λ t. t ≡ task) }
        ensures same { OnErr result (seat.new ≡ seat.old) }
        ensures full { OnErr result (self.now ≤ length seat.old.put) }
    {
        self.queue.push_as::<Puts, R>(rt, &mut seat.pass, task)
    }

    /// Takes a task, where it finds one; the seat then knows that it took it.
    pub fn take<R: Wait>(&self, rt: &R, seat: &mut TakeSeat<T, B>) -> Option<T>
        ensures taken { IfSome result (λ t. seat.new ≡ seat.old ++ t ∷ []) }
        ensures same { IfNone result (seat.new ≡ seat.old) }
    {
        self.queue.pop_as::<Takes, R>(rt, &mut seat.pass)
    }

    /// A seat that takes, and has taken nothing.
    pub fn new_take_seat(&self, seat: &mut PutSeat<T, B>) -> TakeSeat<T, B>
        ensures { (result ≡ []) × (seat.new ≡ seat.old) }
    {
        let pass = self.queue.another::<EmptyPass>(&mut seat.pass);
        TakeSeat {
            pass,
            name: PhantomData,
        }
    }

    /// Moves what a seat took to a seat of its own, to be returned.
    pub fn split_taken(&self, seat: &mut TakeSeat<T, B>) -> TakeSeat<T, B>
        ensures { (result ≡ seat.old) × (seat.new ≡ []) }
    {
        let pass = self.queue.another::<SplitTaken>(&mut seat.pass);
        TakeSeat {
            pass,
            name: PhantomData,
        }
    }

    /// What a seat took is returned.
    pub fn absorb(&self, seat: &mut PutSeat<T, B>, theirs: TakeSeat<T, B>)
        ensures { seat.new ≡ put_view seat.old.put (seat.old.returned ++ theirs) }
    {
        self.queue.absorb::<Absorb>(&mut seat.pass, theirs.pass);
    }

    /// How many of the tasks that were put have not been returned, where `put` tasks were put and `returned` were
    /// returned. It is 0 if and only if what was returned is what was put, each task once.
    pub fn missing(&self, seat: &mut PutSeat<T, B>, put: usize, returned: usize) -> usize
        requires { (put ≡ length seat.old.put) × (returned ≡ length seat.old.returned) }
        ensures same { seat.new ≡ seat.old }
        ensures count { result + returned ≡ put }
        ensures whole { result ≡ 0 → IsPermutation seat.old.put seat.old.returned }
        ensures not_whole { IsPermutation seat.old.put seat.old.returned → result ≡ 0 }
    {
        self.queue.learn_as::<Settles>(&mut seat.pass);
        put - returned
    }

    /// Forgets what was put, where all of it was returned.
    pub fn clear(&self, seat: &mut PutSeat<T, B>)
        requires { IsPermutation seat.old.put seat.old.returned }
        ensures { seat.new ≡ put_view [] [] }
    {
        let _ = self.queue.another::<Clear>(&mut seat.pass);
    }
}
