//! What a channel notes of a command that it issues.

ghost use Rattle.std.specs.Prelude.{◌≡◌, ◌<◌, ◌^◌, ◌++◌, ℕ, List, [], ◌∷◌, All, OnOk};
ghost use Rattle.sim_base.specs.declared.config.Config.{Config};
ghost use Rattle.sim_base.specs.declared.command.IssuedCommand.{IssuedCommand};
ghost use Rattle.sim_base.specs.Scheduling.{column_command};
ghost use Rattle.bank_ready.specs.Refreshes.{StandsFor as RefreshesStandFor};
ghost use Rattle.bank_ready.specs.Stands.{rank_count, followed_by, StandsFor as BanksStandFor};
ghost use Rattle.channel_step.specs.Owed.{RefIsOwed};
ghost use Rattle.channel_step.specs.Runs.{with_more};
ghost use Rattle.channel_step.specs.Queued.{kept_rows, served_now};

use bank_ready::banks::Banks;
use bank_ready::refresh::Refresh;
use request_table::served_requests::ServedRequest;
use sim_base::command::Command;
use sim_base::message::{Access, ChannelId, Cycle, Request};
use std::alloc::AllocError;

/// Counts a command, where it is a REF, which is due then.
#[inline(always)]
#[tactic(auto, using(crate::proofs::Chosen::no_refresh, bank_ready::proofs::Due::stands_without_refresh))]
pub(crate) fn note_if_ref(refresh: &mut Refresh, command: Command, now: Cycle)
    requires now { now < 2 ^ 62 }
    requires due { RefIsOwed refresh.old now command }
    ensures { (s : Config) (history : List IssuedCommand) (i : IssuedCommand) → i.command ≡ command
        → RefreshesStandFor refresh.old s history
        → RefreshesStandFor refresh.new s (history ++ i ∷ []) }
{
    if let Command::Ref { rank } = command {
        refresh.note_ref(now, rank);
    }
}

/// Notes the column command of a request, which is issued in a cycle later than those of all commands noted before.
#[inline(always)]
pub(crate) fn note_column_command(banks: &mut Banks, request: &Request, now: Cycle)
    requires rank { request.now.place.rank < rank_count banks.old }
    requires now { now < 2 ^ 62 }
    ensures stands { (s : Config) (history : List IssuedCommand) (channel : ℕ)
        → BanksStandFor banks.old s history → All (λ i. i.cycle < now) history
        → BanksStandFor banks.new s
        (followed_by history channel now (column_command request.now)) }
    ensures ranks { rank_count banks.new ≡ rank_count banks.old }
{
    let bank = request.place.bank_id();
    match request.access {
        Access::Read => banks.note_rd(bank, now),
        Access::Write => banks.note_wr(bank, now),
    }
}

/// Adds the request whose column command a channel issues in a cycle to those that were served, where these are kept.
/// On an error it is not added.
#[inline(always)]
pub(crate) fn note_served(
    kept: &mut Option<Vec<ServedRequest>>,
    channel: ChannelId,
    request: &Request,
    hit: bool,
    now: Cycle,
) -> Result<(), AllocError>
    ensures { OnOk result (kept_rows kept.new
        ≡ with_more (kept_rows kept.old) (served_now channel now request.now hit ∷ [])) }
{
    if let Some(rows) = kept {
        rows.push(ServedRequest {
            entry: request.entry,
            arrived: request.arrival,
            served: now,
            channel,
            core: request.core,
            access: request.access,
            hit,
        })?;
    }
    Ok(())
}
