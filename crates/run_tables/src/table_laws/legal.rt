//! The verdict on the table of a run.

ghost use Rattle.std.specs.Prelude.{◌≡◌, ℕ, ◌≤◌, ◌^◌, List, Ok};
ghost use Rattle.sim_base.specs.declared.config.Config.{Config};
ghost use Rattle.sim_base.specs.declared.trace.Entry.{Entry};
ghost use Rattle.sim_base.specs.History.{commands};
ghost use Rattle.sim_base.specs.Machine.{run};
ghost use Rattle.reports.specs.Commands.{commands_text};
ghost use Rattle.rule_check.specs.Verdict.{records_of, verdict};
ghost use Rattle.rule_check.specs.declared.verdict.Verdict.TheVariants.{Legal};
ghost use Rattle.run_tables.specs.TableLaws.Written.{AreShort};

/// `check` finds the text of a run's table of commands legal, under the same configuration.
pub fn tables_of_runs_are_legal()
    ensures { (s : Config) (traces : List (List Entry)) (n : ℕ) → n ≤ 2 ^ 62
        → AreShort traces
        → verdict s (records_of (commands_text s.ranks (commands (run s traces n)))) ≡ Ok Legal }
{}
