//! A drain that begins with three writes and ends with one.

ghost use Rattle.std.specs.Prelude.{◌≡◌};
ghost use Rattle.sim_base.specs.declared.message.Access.TheVariants.{Write};

use crate::expect::expect;
use queue::Queue;
use sim_base::message::{Access, Request};
use sim_base::place::Place;
use std::test::Fail;

fn write(entry: u64) -> Request
    ensures { result.access ≡ Write }
{
    Request {
        core: 0,
        entry,
        access: Access::Write,
        address: 0,
        place: Place {
            channel: 0,
            rank: 0,
            group: 0,
            bank: 0,
            row: 0,
            column: 0,
        },
        arrival: 0,
        link: 0,
    }
}

#[test]
#[tactic(auto, unfolding(queue::specs::Log::waiting))]
fn drains_from_three_writes_down_to_one(rt: HostRuntime) -> Result<(), Fail> {
    let mut queue = Queue::with_room(rt.alloc(), 8, 8, 3, 1)?;
    queue.arrive(write(0));
    queue.arrive(write(1));
    queue.decide_drain();
    let of_two = queue.draining();
    queue.arrive(write(2));
    queue.decide_drain();
    let of_three = queue.draining();
    let _ = queue.serve(0);
    queue.decide_drain();
    let then_of_two = queue.draining();
    let _ = queue.serve(1);
    queue.arrive(write(3));
    queue.decide_drain();
    let of_two_still = queue.draining();
    let _ = queue.serve(2);
    queue.decide_drain();
    let of_one = queue.draining();
    queue.arrive(write(4));
    queue.decide_drain();
    expect(
        &rt,
        &[
            of_two,
            of_three,
            then_of_two,
            of_two_still,
            of_one,
            queue.draining(),
        ],
        &[false, true, true, true, false, false],
    );
    Ok(())
}
