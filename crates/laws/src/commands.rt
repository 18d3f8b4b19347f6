//! What holds of the commands of a run.

ghost use Rattle.laws.specs.Everywhere.{InEachCycle};
ghost use Rattle.laws.specs.Commands.{CommandsAreLegal, HistoriesAreLegal, CyclesAscend};
ghost use Rattle.laws.specs.Tables.{TablesAreOrdered, TablesAreLegal, TablesAreRefreshed};
ghost use Rattle.laws.specs.DataBus.{BurstsDoNotOverlap};

/// Each command of a run keeps the rules of DDR4 over the commands of its channel before it, and a channel issues at
/// most one in a cycle.
pub fn commands_are_legal()
    ensures in_each_cycle { InEachCycle CommandsAreLegal }
    ensures one_by_one { InEachCycle HistoriesAreLegal }
    ensures ascending { InEachCycle CyclesAscend }
{}

/// The table of all commands of a run is in order, by cycle and then by channel: each row keeps the rules over the rows
/// of its channel before it, and none comes while a refresh is overdue.
pub fn tables_keep_the_rules()
    ensures ordered { InEachCycle TablesAreOrdered }
    ensures legal { InEachCycle TablesAreLegal }
    ensures refreshed { InEachCycle TablesAreRefreshed }
{}

/// No cycle of a channel's data bus belongs to two commands.
pub fn bursts_do_not_overlap()
    ensures { InEachCycle BurstsDoNotOverlap }
{}
