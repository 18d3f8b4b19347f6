//! The tables of all commands and of all requests of a machine.

ghost use Rattle.std.specs.Prelude.{◌≡◌, ◌<◌, ◌++◌, ℕ, List, [], ◌∷◌, length, is_some, IfOk, IfSome, OnOk};
ghost use Rattle.sim_base.specs.declared.message.Unit.TheVariants as unit;
ghost use Rattle.request_table.specs.declared.served_requests.ServedRequest.{ServedRequest};
ghost use Rattle.sim_base.specs.declared.command.IssuedCommand.{IssuedCommand};
ghost use Rattle.units.specs.Kept.{AreHeld, served_by_channel, command_lists, served_lists, command_table_if, request_table_if};
ghost use Rattle.units.specs.Runs.{HasChannelAt, commands_at};
ghost use Rattle.units.specs.Units.{unit_count};
ghost use Rattle.units.specs.Parts.{IsPart, StandAt};
ghost use Rattle.units.specs.declared.machine.Machine.{Machine};

use crate::machine::Machine;
use crate::part::UnitState;
use channel_step::channel::Channel;
use command_table::list::CommandList;
use command_table::table::CommandTable;
use request_table::left::ServedList;
use request_table::table::RequestTable;
use sim_base::message::Cycle;
use statistics::tables::Tables;
use std::alloc::{AllocError, Global};

/// What the channels of a machine kept, by number: the commands of each, and the requests that it served, where a
/// table is asked for.
#[derive(Drop)]
struct KeptLists {
    commands: Option<Vec<CommandList>>,
    served: Option<Vec<ServedList>>,
}

/// No lists, where some are asked for.
fn lists_if<T: Drop>(alloc: Global, asked: bool) -> Option<Vec<T>>
    ensures asked { is_some result ≡ asked }
    ensures held { AreHeld result [] }
{
    if asked { Some(Vec::new(alloc)) } else { None }
}

/// Adds the list of a channel to those of the channels before it, where they are asked for. A channel that kept none
/// is refused as if there was no memory to keep it.
fn add<T: Drop>(lists: &mut Option<Vec<T>>, list: Option<T>) -> Result<(), AllocError>
    ensures asked { OnOk result (is_some lists.new ≡ is_some lists.old) }
    ensures held { (rows : List T) (row : T) → AreHeld lists.old rows
        → IfSome list (λ own. own ≡ row) → OnOk result (AreHeld lists.new (rows ++ row ∷ [])) }
{
    match lists {
        None => Ok(()),
        Some(lists) => match list {
            Some(list) => Ok(lists.push(list)?),
            None => Err(AllocError),
        },
    }
}

/// The requests that a channel served, as a list, if they were kept.
fn list_of(channel: Channel) -> Option<ServedList>
    ensures { (machine : Machine) (number now : ℕ) → number < machine.config.channels
        → HasChannelAt machine number now channel
        → IfSome result (λ list. list ≡ served_by_channel machine now number) }
{
    Some(ServedList::of(channel.into_served()?))
}

/// Adds what a unit kept to what the units before it kept, if it is a channel. The unit is gone.
fn add_part(kept: &mut KeptLists, part: UnitState) -> Result<(), AllocError>
    ensures commands_asked { OnOk result (is_some kept.new.commands ≡ is_some kept.old.commands) }
    ensures served_asked { OnOk result (is_some kept.new.served ≡ is_some kept.old.served) }
    ensures core { (machine : Machine) (core now : ℕ) → IsPart machine (unit.Core core) now part
        → OnOk result (kept.new ≡ kept.old) }
    ensures commands { (machine : Machine) (channel now : ℕ) (rows : List (List IssuedCommand))
        → IsPart machine (unit.Channel channel) now part → AreHeld kept.old.commands rows
        → OnOk result (AreHeld kept.new.commands (rows ++ commands_at machine now channel ∷ [])) }
    ensures served { (machine : Machine) (channel now : ℕ) (rows : List (List ServedRequest))
        → channel < machine.config.channels → IsPart machine (unit.Channel channel) now part
        → AreHeld kept.old.served rows
        → OnOk result
        (AreHeld kept.new.served (rows ++ served_by_channel machine now channel ∷ [])) }
{
    match part {
        UnitState::Core(_) => Ok(()),
        UnitState::Channel(channel, commands) => {
            add(&mut kept.served, list_of(Box::into_inner(channel)))?;
            add(&mut kept.commands, commands)
        }
    }
}

/// What each channel kept, by number, where these tables are asked for. A channel that did not keep what is asked for
/// is refused as if there was no memory to keep it.
fn kept_by_channel(
    alloc: Global,
    machine: &Machine,
    now: Cycle,
    parts: Vec<UnitState>,
    tables: Tables,
) -> Result<KeptLists, AllocError>
    requires count { length parts.items ≡ unit_count machine.now.config }
    requires stand { StandAt machine.now now parts.items }
    ensures commands_asked { IfOk result (λ kept. is_some kept.commands ≡ tables.commands) }
    ensures served_asked { IfOk result (λ kept. is_some kept.served ≡ tables.requests) }
    ensures commands { IfOk result (λ kept. AreHeld kept.commands (command_lists machine.now now)) }
    ensures served { IfOk result (λ kept. AreHeld kept.served (served_lists machine.now now)) }
{
    let mut kept = KeptLists {
        commands: lists_if(alloc, tables.commands),
        served: lists_if(alloc, tables.requests),
    };
    for part in parts {
        add_part(&mut kept, part)?;
    }
    Ok(kept)
}

/// The commands of all channels, by cycle and then by channel, if they were kept. They stay where they are: no list
/// is copied, and none is sorted.
fn command_table(
    machine: &Machine,
    now: Cycle,
    lists: Option<Vec<CommandList>>,
) -> Option<CommandTable>
    requires { AreHeld lists (command_lists machine.now now) }
    ensures { result ≡ command_table_if (is_some lists) machine.now now }
{
    Some(CommandTable::of(lists?))
}

/// The requests of all channels, by the cycle of their command and then by channel, if they were kept. The requests
/// stay where they are: no list is copied. The only error is out of memory.
fn request_table(
    alloc: Global,
    machine: &Machine,
    now: Cycle,
    lists: Option<Vec<ServedList>>,
) -> Result<Option<RequestTable>, AllocError>
    requires { AreHeld lists (served_lists machine.now now) }
    ensures { IfOk result (λ table. table ≡ request_table_if (is_some lists) machine.now now) }
{
    match lists {
        Some(lists) => Ok(Some(RequestTable::of(alloc, &machine.config, now, lists)?)),
        None => Ok(None),
    }
}

/// The tables of all commands and of all requests of a machine, where they are asked for.
pub(crate) fn tables_of(
    alloc: Global,
    machine: &Machine,
    now: Cycle,
    parts: Vec<UnitState>,
    tables: Tables,
) -> Result<(Option<CommandTable>, Option<RequestTable>), AllocError>
    requires count { length parts.items ≡ unit_count machine.now.config }
    requires stand { StandAt machine.now now parts.items }
    ensures commands { IfOk result (λ made. made.0
        ≡ command_table_if tables.commands machine.now now) }
    ensures requests { IfOk result (λ made. made.1
        ≡ request_table_if tables.requests machine.now now) }
{
    let KeptLists { commands, served } = kept_by_channel(alloc, machine, now, parts, tables)?;
    let requests = request_table(alloc, machine, now, served)?;
    Ok((command_table(machine, now, commands), requests))
}
