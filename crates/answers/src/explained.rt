//! What files hold, read as the other crates do, with a refusal that is explained by their texts.

ghost use Rattle.std.specs.Prelude.{◌≡◌, Ok, IfOk, IfErr};
ghost use Rattle.answers.specs.Answers.{stats_table};
ghost use Rattle.answers.specs.Inputs.{IsConfigRefusal, IsVerdictRefusal};
ghost use Rattle.answers.specs.Refused.{IsStatsRefusal};
ghost use Rattle.config_reader.specs.Document.{document_of};
ghost use Rattle.rule_check.specs.Verdict.{records_of, verdict};
ghost use Rattle.run_tables.specs.Commands.{IsCommandTable, HoldsCommands};
ghost use Rattle.run_tables.specs.Records.{IsRefusedFor};
ghost use Rattle.sim_base.specs.Values.{values_of};

use command_table::list::CommandList;
use config_reader::read_config;
use explain::{TableKind, of_config, of_table};
use refusal::reason::Reason;
use rule_check::{Verdict, check};
use run_tables::{read_commands, read_stats};
use sim_base::config::Config;
use statistics::stats::Stats;
use std::alloc::Global;

/// A configuration.
pub(crate) fn configuration_of(alloc: Global, path: &str, document: &[u8]) -> Result<Config, Reason>
    ensures ok { IfOk result (λ config. document_of document.now ≡ Ok (values_of config)) }
    ensures refused { IfErr result (IsConfigRefusal document.now) }
{
    match read_config(alloc, document) {
        Ok(config) => Ok(config),
        Err(fault) => Err(Reason::explained(fault, of_config(alloc, fault, path, document))),
    }
}

/// The verdict on a table of commands.
pub(crate) fn verdict_of(
    alloc: Global,
    config: &Config,
    path: &str,
    table: &[u8],
) -> Result<Verdict, Reason>
    ensures ok { IfOk result (λ found. verdict config.now (records_of table.now) ≡ Ok found) }
    ensures refused { IfErr result (IsVerdictRefusal config.now table.now) }
{
    match check(alloc, config, table) {
        Ok(found) => Ok(found),
        Err(fault) => Err(Reason::explained(
            fault,
            of_table(alloc, fault, TableKind::Commands, path, table),
        )),
    }
}

/// The statistics of a run.
pub(crate) fn statistics_of(alloc: Global, path: &str, table: &[u8]) -> Result<Stats, Reason>
    ensures read { IfOk result (λ stats. records_of table.now ≡ stats_table stats) }
    ensures refused { IfErr result (IsStatsRefusal table.now) }
{
    match read_stats(alloc, table) {
        Ok(stats) => Ok(stats),
        Err(fault) => Err(Reason::explained(
            fault,
            of_table(alloc, fault, TableKind::Statistics, path, table),
        )),
    }
}

/// The commands of a run.
pub(crate) fn commands_of(alloc: Global, path: &str, table: &[u8]) -> Result<CommandList, Reason>
    ensures read { IfOk result (λ rows. IsCommandTable (records_of table.now) rows) }
    ensures refused { IfErr result (IsRefusedFor HoldsCommands (records_of table.now)) }
{
    match read_commands(alloc, table) {
        Ok(rows) => Ok(rows),
        Err(fault) => Err(Reason::explained(
            fault,
            of_table(alloc, fault, TableKind::Commands, path, table),
        )),
    }
}
