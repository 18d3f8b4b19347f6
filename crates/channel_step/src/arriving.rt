//! Requests that arrive at a channel.

ghost use Rattle.std.specs.Prelude.{◌≡◌, ◌+◌, ◌<◌, ◌≤◌, [], ◌∷◌, length};
ghost use Rattle.queue.specs.Log.{waiting_requests};
ghost use Rattle.channel_step.specs.Past.{carried_requests};
ghost use Rattle.channel_step.specs.Queued.{joined_with, with_arrivals};

use queue::Queue;
use sim_base::message::{Message, Payload};

/// Takes in the request that a message carries, if it carries one.
#[inline(always)]
fn join(queue: &mut Queue, message: &Message)
    requires room { length (waiting_requests queue.old.log) < queue.old.room }
    requires places { length queue.old.log < queue.old.places }
    ensures { queue.new ≡ joined_with queue.old (carried_requests (message.now ∷ [])) }
{
    if let Payload::Request(request) = message.payload {
        queue.arrive(request);
    }
}

/// Takes in the requests that arrive in a cycle, and decides whether the channel drains its writes in it.
#[inline(never)]
#[tactic(auto, using(crate::proofs::Waits::joined_none, crate::proofs::Waits::joined_more, crate::proofs::Waits::joined_room, crate::proofs::Waits::joined_places))]
pub(crate) fn admit(queue: &mut Queue, new: &[Message])
    requires room { length (waiting_requests queue.old.log) + length new.now ≤ queue.old.room }
    requires places { length queue.old.log + length new.now ≤ queue.old.places }
    ensures { queue.new ≡ with_arrivals queue.old (carried_requests new.now) }
{
    for message in new {
        join(queue, message);
    }
    queue.decide_drain();
}
