//! What the requests that a channel served add up to.

ghost use Rattle.std.specs.Prelude.{ℕ, List};
ghost use Rattle.sim_base.specs.declared.command.IssuedCommand.{IssuedCommand};
ghost use Rattle.sim_base.specs.declared.command.Source.{Source};
ghost use Rattle.laws.specs.Served.{AreCounted};

/// The requests that a channel served are as many reads and writes, and as many hits, as its statistics count, whenever
/// they came to it.
pub fn served_requests_are_counted()
    ensures { (arrivals : Source → ℕ) (history : List IssuedCommand) → AreCounted arrivals history }
{}
