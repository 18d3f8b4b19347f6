//! A request as it is sent to a session, the message that carries it, and the core that an answer goes to.

ghost use Rattle.std.specs.Prelude.{◌≡◌};
ghost use Rattle.sim_base.specs.Places.{place_of};
ghost use Rattle.sessions.specs.Sent.{request_of, message_of};
ghost use Rattle.sessions.specs.Sessions.{core_of};

use sim_base::config::Config;
use sim_base::message::{Access, ChannelId, CoreId, Cycle, Message, Payload, Request};
use sim_base::place::Place;

/// A request as it is sent: an access to the line of 64 bytes at an address, for an entry of a core's trace, and
/// the cycle in which it arrives at the channel.
#[derive(Clone, Copy)]
pub struct SentRequest {
    pub core: CoreId,
    /// The entry's number in the trace, below 2^64 - 1.
    pub entry: u64,
    pub access: Access,
    /// The address of a byte of the line.
    pub address: u64,
    /// The cycle in which the channel may first serve it.
    pub arrival: Cycle,
}

/// The request with its place and link.
fn request_of(config: &Config, number: ChannelId, sent: &SentRequest, place: Place) -> Request
    requires { place ≡ place_of config.now sent.now.address }
    ensures { result ≡ request_of config.now number sent.now }
{
    Request {
        core: sent.core,
        access: sent.access,
        entry: sent.entry,
        address: sent.address,
        place,
        arrival: sent.arrival,
        link: config.request_link(sent.core, number),
    }
}

/// The message that carries a request to the channel with a number, on the link of its core. The place is that of its
/// address.
pub(crate) fn message_of(
    config: &Config,
    number: ChannelId,
    sent: &SentRequest,
    place: Place,
) -> Message
    requires { place ≡ place_of config.now sent.now.address }
    ensures { result ≡ message_of config.now number sent.now }
{
    let request = request_of(config, number, sent, place);
    Message {
        link: request.link,
        arrival: request.arrival,
        payload: Payload::Request(request),
    }
}

/// The number of the core that a reply or a credit goes to, in a machine with this configuration: that of its link.
pub(crate) fn core_of(config: &Config, reply: &Message) -> u64
    ensures { result ≡ core_of config.now reply.now }
{
    reply.link / 3 / u64::from(config.channels)
}
