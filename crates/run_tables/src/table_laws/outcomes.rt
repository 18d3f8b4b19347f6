//! What holds of the outcome of each run.

ghost use Rattle.std.specs.Prelude.{ℕ, List};
ghost use Rattle.sim_base.specs.declared.config.Config.{Config};
ghost use Rattle.sim_base.specs.declared.trace.Entry.{Entry};
ghost use Rattle.statistics.specs.Outcomes.{outcome_of};
ghost use Rattle.statistics.specs.declared.tables.Tables.{Tables};
ghost use Rattle.run_tables.specs.TableLaws.Outcomes.{OwnsDataBus, IsRefreshed, HasBoundedQueues, HoldsFewCredits, KeepsCreditsUntil};

/// In a run no cycle of a channel's data bus belongs to two commands. Where ranks are refreshed, the m-th REF of each
/// stands at cycle `m * nREFI` plus the slack or earlier, if the run lasts that long. No queue was ever longer than
/// `cores * (read_credits + write_credits)`, or is left so. No core is left with more credits than it began with; and
/// at no cycle had it sent more requests than its credits and those that came back allow.
pub fn outcomes_keep_the_laws()
    ensures data_bus { (s : Config) (traces : List (List Entry)) (n : ℕ)
        → OwnsDataBus s traces n }
    ensures refreshed { (s : Config) (traces : List (List Entry)) (n : ℕ)
        → IsRefreshed s traces n }
    ensures bounded { (tables : Tables) (s : Config) (traces : List (List Entry)) (n : ℕ)
        → HasBoundedQueues s (outcome_of tables s traces n) }
    ensures held { (tables : Tables) (s : Config) (traces : List (List Entry)) (n : ℕ)
        → HoldsFewCredits s (outcome_of tables s traces n) }
    ensures credits { (s : Config) (traces : List (List Entry)) (n : ℕ)
        → KeepsCreditsUntil s traces n }
{}
