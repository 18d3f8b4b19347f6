//! What the rows of the table of requests add up to.

ghost use Rattle.std.specs.Prelude.{ℕ, ◌<◌, List};
ghost use Rattle.sim_base.specs.declared.config.Config.{Config};
ghost use Rattle.sim_base.specs.declared.trace.Entry.{Entry};
ghost use Rattle.laws.specs.Totals.{CoreAddsUp, ChannelAddsUp};

/// Over the rows of a core, the cycles from issue to reply add up to its read latency, and there are as many replies as
/// it had. Over those of a channel, there are as many reads, writes and hits as it counts.
pub fn requests_add_up()
    ensures cores { (s : Config) (traces : List (List Entry)) (n core : ℕ) → core < s.cores
        → CoreAddsUp s traces n core }
    ensures channels { (s : Config) (traces : List (List Entry)) (n channel : ℕ)
        → channel < s.channels
        → ChannelAddsUp s traces n channel }
{}
