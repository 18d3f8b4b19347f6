//! When the requests of a run were where, from their core to their channel and back.

use sim_base::message::{Access, ChannelId, CoreId, Cycle};

/// A request of a run that was served, and when it was where, in cycles: a row of `requests.csv`.
#[derive(Clone, Copy, PartialEq, Eq, Debug)]
pub struct RequestTimes {
    pub core: CoreId,
    /// The entry of its core's trace.
    pub entry: u64,
    pub access: Access,
    pub channel: ChannelId,
    /// The cycle in which the core issued the entry.
    pub issued: Cycle,
    /// The cycle in which the request came to its channel.
    pub arrived: Cycle,
    /// The cycle of its RD or WR.
    pub served: Cycle,
    /// The cycle in which the reply came to the core, if that is a cycle of the run. A write has no reply.
    pub replied: Option<Cycle>,
    /// Whether no ACT was issued in its name: a row hit.
    pub hit: bool,
}
