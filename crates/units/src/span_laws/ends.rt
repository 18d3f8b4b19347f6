//! The end of a run.

ghost use Rattle.std.specs.Prelude.{ℕ};
ghost use Rattle.laws.specs.Everywhere.{InEachRun, InEachCycle, InEachSpan};
ghost use Rattle.units.specs.SpanLaws.Ends.{RunsStayOver, OverIsSeen, CyclesAreCounted, RetiresByWidth, FlightStays, LastsForTrace, LastsForFlight};

/// A run that is over stays over, so that to know how many cycles it has, it is enough to look at the last of them
/// and at the cycle after it. Whether it is over can be seen from what its units and links have left.
pub fn runs_stay_over()
    ensures stay { InEachSpan RunsStayOver }
    ensures seen { InEachCycle OverIsSeen }
    ensures counted { InEachRun (λ s traces. (limit n : ℕ) → CyclesAreCounted s traces limit n) }
{}

/// How long a run is certainly not over: a core retires no more than its width in a cycle, which gives the least
/// number of cycles that its trace takes; and what is in flight stays so up to its arrival.
pub fn runs_last()
    ensures retire { InEachSpan RetiresByWidth }
    ensures flight { InEachSpan FlightStays }
    ensures for_trace { InEachSpan LastsForTrace }
    ensures for_flight { InEachSpan LastsForFlight }
{}
