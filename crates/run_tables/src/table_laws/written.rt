//! A table of commands, as it is written and read.

ghost use Rattle.std.specs.Prelude.{◌≡◌, IsTrue, List, ◌∷◌, map, All, Some, Ok};
ghost use Rattle.csv.specs.Reading.{strip_bom};
ghost use Rattle.sim_base.specs.declared.config.Config.{Config};
ghost use Rattle.sim_base.specs.declared.command.IssuedCommand.{IssuedCommand};
ghost use Rattle.reports.specs.Commands.{header, command_fields, commands_text};
ghost use Rattle.rule_check.specs.Fields.{limits_of, is_header, row_in};
ghost use Rattle.rule_check.specs.Verdict.{records_of, verdict, KeepsRules};
ghost use Rattle.rule_check.specs.declared.verdict.Verdict.TheVariants.{Legal};
ghost use Rattle.run_tables.specs.TableLaws.Written.{RowIsOf};

/// A table of commands is read back as it was written: no byte order mark is seen in it, its records are the header and
/// the fields of each row, the header is the right one, the fields of a row of the configuration give that row again,
/// and a table of rows that keep every rule is legal.
pub fn tables_are_read_back()
    ensures unmarked { (s : Config) (rows : List IssuedCommand)
        → strip_bom (commands_text s.ranks rows) ≡ commands_text s.ranks rows }
    ensures records { (s : Config) (rows : List IssuedCommand)
        → records_of (commands_text s.ranks rows)
        ≡ header s.ranks ∷ map (command_fields s.ranks) rows }
    ensures header { (s : Config) → IsTrue (is_header s.ranks (header s.ranks)) }
    ensures rows { (s : Config) (rows : List IssuedCommand) → All (RowIsOf s) rows
        → map (row_in (limits_of s)) (map (command_fields s.ranks) rows) ≡ map Some rows }
    ensures legal { (s : Config) (rows : List IssuedCommand) → All (RowIsOf s) rows
        → KeepsRules s rows → verdict s (records_of (commands_text s.ranks rows)) ≡ Ok Legal }
{}
