//! Requests that a channel served, with what is known of each when it is served.

use sim_base::message::{Access, ChannelId, CoreId, Cycle};
use std::mem::size_of;

/// A request that a channel served: whose it is, when it came to the channel, and when and how it was served. It takes
/// 32 bytes.
#[derive(Clone, Copy)]
pub struct ServedRequest {
    /// The entry of its core's trace.
    pub entry: u64,
    /// The cycle in which it came to its channel.
    pub arrived: Cycle,
    /// The cycle of its RD or WR.
    pub served: Cycle,
    pub channel: ChannelId,
    pub core: CoreId,
    pub access: Access,
    /// Whether no ACT was issued in its name.
    pub hit: bool,
}

const _: () = prove!(size_of::<ServedRequest>() == 32);
