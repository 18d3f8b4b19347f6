//! When requests were where, by what their channels keep of them.

ghost use Rattle.std.specs.Prelude.{List};
ghost use Rattle.sim_base.specs.declared.config.Config.{Config};
ghost use Rattle.sim_base.specs.MachineStep.{MachineStep};
ghost use Rattle.laws.specs.Timed.{AreTimed};

/// What the channels of a run keep of the requests that they served tells the times of each.
pub fn requests_are_timed()
    ensures { (s : Config) (history : List MachineStep) → AreTimed s history }
{}
