//! What holds of the refreshes of a run.

ghost use Rattle.laws.specs.Everywhere.{InEachCycle};
ghost use Rattle.laws.specs.Refreshes.{RefreshesAreInTime, RefreshesAreNotEarly, RefreshesAreWanted};

/// The m-th REF of each rank stands at cycle `m * nREFI + refresh_slack` or earlier, if the run lasts that long, and
/// not before cycle `m * nREFI`; where nREFI is 0, there is none.
pub fn refreshes_are_in_time()
    ensures in_time { InEachCycle RefreshesAreInTime }
    ensures not_early { InEachCycle RefreshesAreNotEarly }
    ensures wanted { InEachCycle RefreshesAreWanted }
{}
