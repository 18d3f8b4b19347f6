//! The requests that a run served.

ghost use Rattle.std.specs.Prelude.{◌≡◌, ◌++◌, IfOk, OnOk, IfSome};
ghost use Rattle.std.specs.Option.{option_to_list};
ghost use Rattle.statistics.specs.Outcomes.{if_asked};
ghost use Rattle.one_clock.specs.Cycles.{cores_before, channels_before};
ghost use Rattle.one_clock.specs.Cycles.{arrival_in, is_hit_in, request_for, request_of_row, requests_of_rows, requests_before};
ghost use Rattle.one_clock.specs.Held.{HoldsBefore};

use crate::counting::cycle_of_issue;
use crate::machine::PlainMachine;
use crate::run_cycle::RunCycle;
use crate::state::{ChannelPast, CorePast};
use plain_steps::hits::is_command_hit;
use request_table::left::ServedList;
use request_table::served_requests::ServedRequest;
use request_table::table::RequestTable;
use sim_base::command::{Command, IssuedCommand, Source};
use sim_base::message::{Access, ChannelId};
use std::alloc::AllocError;

/// The cycle in which the request of an entry reaches a channel; None where there is no such core.
fn arrival(
    cycle: &RunCycle<'_>,
    cores: &[CorePast],
    channel: ChannelId,
    source: Source,
) -> Option<u64>
    requires cores { cores.now ≡ cores_before cycle.now }
    ensures { IfSome result (λ arrived. arrived ≡ arrival_in cycle.now channel source) }
{
    if usize::from(source.core) >= cores.len() {
        return None;
    }
    let past = &cores[usize::from(source.core)];
    let link = cycle.config.request_link(source.core, channel);
    let travels = u64::from(cycle.config.latency(link));
    cycle_of_issue(past.past_steps(), source.entry).checked_add(travels)
}

/// Whether a command moves data for a request of its channel that no ACT was issued for; None where there is no such
/// channel.
fn hits(cycle: &RunCycle<'_>, channels: &[ChannelPast], row: &IssuedCommand) -> Option<bool>
    requires channels { channels.now ≡ channels_before cycle.now }
    ensures { IfSome result (λ hit. hit ≡ is_hit_in cycle.now row.now) }
{
    if row.channel as usize >= channels.len() {
        return None;
    }
    let past = &channels[row.channel as usize];
    Some(is_command_hit(past.commands(), row.command))
}

impl PlainMachine {
    /// The request of an entry that a command serves; None where there is no such core or channel.
    fn request(
        &self,
        cycle: &RunCycle<'_>,
        row: &IssuedCommand,
        source: Source,
        access: Access,
    ) -> Option<ServedRequest>
        requires machine { HoldsBefore cycle.now self.now }
        ensures { IfSome result (λ request. request ≡ request_for cycle.now row.now access source) }
    {
        let arrived = arrival(cycle, &self.cores, row.channel, source)?;
        let hit = hits(cycle, &self.channels, row)?;
        Some(ServedRequest {
            entry: source.entry,
            arrived,
            served: row.cycle,
            channel: row.channel,
            core: source.core,
            access,
            hit,
        })
    }

    /// Adds the request that a command of the run serves, if it serves one. One of a core or channel that the machine
    /// does not have, as no run has it, is refused.
    fn add_served(
        &self,
        cycle: &RunCycle<'_>,
        row: &IssuedCommand,
        rows: &mut Vec<ServedRequest>,
    ) -> Result<(), AllocError>
        requires machine { HoldsBefore cycle.now self.now }
        ensures { OnOk result (rows.new.items ≡ rows.old.items
            ++ option_to_list (request_of_row cycle.now row.now)) }
    {
        let request = match row.command {
            Command::Rd { source, .. } => self.request(cycle, row, source, Access::Read),
            Command::Wr { source, .. } => self.request(cycle, row, source, Access::Write),
            Command::Act { .. }
            | Command::Pre { .. }
            | Command::Prea { .. }
            | Command::Ref { .. } => {
                return Ok(());
            }
        };
        let Some(request) = request else {
            return Err(AllocError);
        };
        rows.push(request)?;
        Ok(())
    }

    /// The requests that the commands of the run serve, in their order.
    fn all_served(&self, cycle: &RunCycle<'_>) -> Result<Vec<ServedRequest>, AllocError>
        requires machine { HoldsBefore cycle.now self.now }
        ensures { IfOk result (λ v. v.items ≡ requests_of_rows cycle.now self.now.commands.items) }
    {
        let mut rows = Vec::new(cycle.alloc);
        for row in &self.commands {
            self.add_served(cycle, row, &mut rows)?;
        }
        Ok(rows)
    }

    /// The table of the requests that were served before this cycle. The only error is out of memory.
    fn request_table(&self, cycle: &RunCycle<'_>) -> Result<RequestTable, AllocError>
        requires machine { HoldsBefore cycle.now self.now }
        ensures { IfOk result (λ table. table ≡ requests_before cycle.now) }
    {
        let list = ServedList::of(self.all_served(cycle)?);
        let lists = vec![in cycle.alloc; list]?;
        RequestTable::of(cycle.alloc, cycle.config, cycle.number, lists)
    }

    /// The table of the requests that were served before this cycle, if it is asked for. The only error is out of
    /// memory.
    pub(crate) fn requests_if_asked(
        &self,
        cycle: &RunCycle<'_>,
        asked: bool,
    ) -> Result<Option<RequestTable>, AllocError>
        requires machine { HoldsBefore cycle.now self.now }
        ensures { IfOk result (λ table. table ≡ if_asked asked (requests_before cycle.now)) }
    {
        if asked {
            Ok(Some(self.request_table(cycle)?))
        } else {
            Ok(None)
        }
    }
}
