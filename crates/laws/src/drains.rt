//! When a channel drains its writes.

ghost use Rattle.sim_base.specs.declared.config.Config.{Config};
ghost use Rattle.laws.specs.Drains.{DrainsFollowWrites};

/// A channel drains its writes in a cycle exactly if in that cycle or one before it there were `write_high` writes or
/// more in its queue, and in each cycle from then on more than `write_low`.
pub fn drains_follow_writes()
    ensures { (s : Config) → DrainsFollowWrites s }
{}
