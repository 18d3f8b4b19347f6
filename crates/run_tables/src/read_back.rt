//! Laws of tables that are read. Each is a public function with an empty body, whose contract is the law.

ghost use Rattle.std.specs.Prelude.{◌≡◌, ◌≤◌, ◌^◌, ℕ, IsTrue, List, ◌∷◌, map, All, Some};
ghost use Rattle.sim_base.specs.declared.config.Config.{Config};
ghost use Rattle.sim_base.specs.declared.command.IssuedCommand.{IssuedCommand};
ghost use Rattle.sim_base.specs.declared.trace.Entry.{Entry};
ghost use Rattle.sim_base.specs.History.{commands};
ghost use Rattle.sim_base.specs.Machine.{run};
ghost use Rattle.command_table.specs.Tables.{IsRising};
ghost use Rattle.rule_check.specs.Fields.{limits_of, is_header, row_in};
ghost use Rattle.run_tables.specs.TableLaws.Written.{RowIsOf, AreShort};
ghost use Rattle.statistics.specs.Runs.{stats_of};
ghost use Rattle.statistics.specs.Values.{RunStats};
ghost use Rattle.request_table.specs.Requests.{requests_of};
ghost use Rattle.request_table.specs.declared.times.RequestTimes.{RequestTimes};
ghost use Rattle.run_tables.specs.Commands.{IsCommandTable, CommandsComeBack};
ghost use Rattle.run_tables.specs.Requests.{RequestFits, IsInOrder, RequestsComeBack};
ghost use Rattle.run_tables.specs.Stats.{StatsFit, StatsComeBack};

/// A table of commands in cycles that do not fall is read as it was written, under each configuration that has its
/// rows; the table of commands of a run is read as it was written. Records that are well-formed under a configuration
/// are the same rows under none.
pub fn commands_are_read_back()
    ensures written { (s : Config) (rows : List IssuedCommand) → All (RowIsOf s) rows
        → IsRising rows → CommandsComeBack s.ranks rows }
    ensures run { (s : Config) (traces : List (List Entry)) (n : ℕ) → n ≤ 2 ^ 62
        → AreShort traces → CommandsComeBack s.ranks (commands (run s traces n)) }
    ensures well_formed { (s : Config) (header : List (List ℕ)) (others : List (List (List ℕ)))
        (rows : List IssuedCommand) → IsTrue (is_header s.ranks header)
        → map (row_in (limits_of s)) others ≡ map Some rows → IsRising rows
        → IsCommandTable (header ∷ others) rows }
{}

/// A table of statistics in their ranges, of one core and one channel or more, is read as it was written; the table of
/// statistics of a run is read as it was written.
pub fn stats_are_read_back()
    ensures written { (stats : RunStats) → StatsFit stats → StatsComeBack stats }
    ensures run { (s : Config) (traces : List (List Entry)) (n : ℕ) → n ≤ 2 ^ 62
        → AreShort traces → StatsComeBack (stats_of s traces (run s traces n)) }
{}

/// A table of requests in their ranges and in order is read as it was written; the table of requests of a run is read
/// as it was written.
pub fn requests_are_read_back()
    ensures written { (rows : List RequestTimes) → All RequestFits rows → IsInOrder rows
        → RequestsComeBack rows }
    ensures run { (s : Config) (traces : List (List Entry)) (n : ℕ) → n ≤ 2 ^ 62
        → AreShort traces → RequestsComeBack (requests_of s (run s traces n)) }
{}
