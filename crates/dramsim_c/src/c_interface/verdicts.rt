//! The verdict on a table of commands.

ghost use Rattle.rule_check.specs.Verdict.{records_of, verdict};
ghost use Rattle.dramsim_c.specs.CInterface.Verdicts.{IsVerdictAnswer, IsCheckAnswer};

use crate::c_interface::fault::CallFault;
use crate::c_interface::rows::VerdictRow;
use config_reader::read_config;
use rule_check::{Verdict, check};
use sim_base::config::Config;
use sim_base::fault::Fault;
use std::alloc::Global;

/// Judges a table under a configuration, and writes what is at fault.
fn judge(
    alloc: Global,
    config: &Config,
    table: &[u8],
    row: &mut VerdictRow,
) -> Result<(), CallFault>
    ensures { IsVerdictAnswer (verdict config.now (records_of table.now)) row.old row.new result }
{
    match check(alloc, config, table) {
        Ok(Verdict::Legal) => {
            *row = VerdictRow { row: 0, rule: 0 };
            Ok(())
        }
        Ok(Verdict::Broken { row: number, rule }) => {
            *row = VerdictRow { row: number, rule };
            Err(CallFault::BreaksRule)
        }
        Err(Fault::CheckRow(number)) => {
            *row = VerdictRow {
                row: number,
                rule: 0,
            };
            Err(CallFault::Malformed)
        }
        Err(_) => Err(CallFault::Configuration(Fault::Memory)),
    }
}

/// Judges a table of commands under the configuration that a text states, as `dramsim check` does: legal, or refused as
/// `BreaksRule` or `Malformed`, with the row at fault and the lowest rule that it breaks. It is refused as
/// `Configuration`, which leaves the row as it was, where the configuration or memory is refused.
pub fn check_commands(
    alloc: Global,
    text: &[u8],
    table: &[u8],
    row: &mut VerdictRow,
) -> Result<(), CallFault>
    ensures { IsCheckAnswer text.now table.now row.old row.new result }
{
    match read_config(alloc, text) {
        Ok(config) => judge(alloc, &config, table, row),
        Err(fault) => Err(CallFault::Configuration(fault)),
    }
}
