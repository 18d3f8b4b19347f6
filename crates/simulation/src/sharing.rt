//! How many workers run a machine, and when it is shared out among them.

ghost use Rattle.std.specs.Prelude.{◌≡◌};
ghost use Rattle.simulation.specs.Sharing.{full_sharing, usual_sharing};

use sim_base::message::Cycle;

/// When several workers share a machine out: it is split into shards, and in each phase each shard is a job that a
/// worker takes. Where the machine is not shared out, and with one worker always, the caller runs the machine in place.
/// What a run does is the same for every value.
#[derive(Clone, Copy)]
pub struct Sharing {
    /// A machine is shared out that has at least this many units, cores and channels.
    pub units: usize,
    /// A machine is shared out while at least this many messages are in flight. They are counted at the beginning of
    /// each lap: where there are fewer, the caller runs the machine alone up to the next one.
    pub messages: usize,
    /// How many cycles the first lap has; 0 is taken as 1. Each lap that is shared out has twice as many as the last
    /// such lap. A lap that is not shared out has as many cycles as the first, and twice as many as the lap before
    /// where that was not shared out either: so the workers soon go on where, in a refresh, little was in flight for a
    /// while. Each interval that a watcher asks for begins with a first lap.
    pub first_lap: Cycle,
    /// How many shards there are for each worker; 0 is taken as 1. There are never more than 64 in all, nor more than
    /// units.
    pub shards: usize,
}

impl Sharing {
    /// Each machine is shared out from the first cycle of a run to its end, in one lap.
    pub fn always() -> Sharing
        ensures { result ≡ full_sharing }
    {
        Sharing {
            units: 0,
            messages: 0,
            first_lap: Cycle::MAX,
            ..Sharing::default()
        }
    }
}

impl Default for Sharing {
    /// A machine is shared out where that is worth its cost. With 16 units or fewer the caller alone takes less time
    /// than waking other threads does, and also where fewer than 96 messages are in flight: that is about what is sent
    /// in a phase, and less than four workers need to make up for their waits. Each worker has two shards: one of
    /// channels, and one of cores, which have less to do and fill what is left of a phase.
    fn default() -> Sharing
        ensures { result ≡ usual_sharing }
    {
        Sharing {
            units: 17,
            messages: 96,
            first_lap: 4_096,
            shards: 2,
        }
    }
}

/// How many workers run a machine, and when they share it out.
#[derive(Clone, Copy)]
pub struct Workers {
    /// How many workers there are, 1 to 64, with the caller.
    pub count: u64,
    pub sharing: Sharing,
}
