//! The table of a run keeps the rules, as `check` counts them.

ghost use Rattle.std.specs.Prelude.{ℕ, ◌≤◌, ◌^◌, List, All};
ghost use Rattle.sim_base.specs.declared.config.Config.{Config};
ghost use Rattle.sim_base.specs.declared.trace.Entry.{Entry};
ghost use Rattle.sim_base.specs.History.{commands};
ghost use Rattle.sim_base.specs.Machine.{run};
ghost use Rattle.rule_check.specs.Verdict.{KeepsRules};
ghost use Rattle.run_tables.specs.TableLaws.Written.{RowIsOf, AreShort};

/// The commands of a run are of the configuration, and in cycles below the limit of numbers.
pub fn commands_are_in_range()
    ensures { (s : Config) (traces : List (List Entry)) (n : ℕ) → n ≤ 2 ^ 62
        → AreShort traces → All (RowIsOf s) (commands (run s traces n)) }
{}

/// The table of a run keeps every rule.
pub fn tables_keep_every_rule()
    ensures { (s : Config) (traces : List (List Entry)) (n : ℕ)
        → KeepsRules s (commands (run s traces n)) }
{}
