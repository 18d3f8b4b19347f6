//! A channel of the simulator, and a memory of all channels, for programs in C: what `dramsim.h` declares.
#![tactic(auto)]

ghost use Rattle.std.specs.Prelude.{◌≡◌, ◌≢◌, ◌⊎◌, ℕ, true, false, None, Some, if◌then◌else◌, length, option_map, is_some};
ghost use Rattle.config_reader.specs.Document.{document_of};
ghost use Rattle.sessions.specs.Addresses.{is_place, IsAddressOf};
ghost use Rattle.sessions.specs.Ahead.{IsNextAct};
ghost use Rattle.sessions.specs.Sessions.{next_command_of, next_reply_of, statistics_of, waiting_of, with_request, with_command, with_reply, refusal, end_refusal};
ghost use Rattle.sim_base.specs.Places.{place_of};
ghost use Rattle.dramsim_c.specs.CInterface.Channels.{open_refusal, IsWell, ForOpen, ForSession, HasPast, ForPasts, StandsAt, StandsAsBefore, IsClosed, IsOpened};
ghost use Rattle.dramsim_c.specs.CInterface.Rows.{sent_request, command_row, reply_row, place_row, place_in, stats_row};
ghost use Rattle.dramsim_c.specs.CInterface.Statuses.{IsStatus, open_status, text_status, IsJudgedAs};
ghost use Rattle.dramsim_c.specs.CInterface.Texts.{fault_text, written_over};

pub mod c_interface;
pub mod memory;

use crate::c_interface::channel::KeptChannel;
use crate::c_interface::fault::{fault_number, status};
use crate::c_interface::rows::{CommandRow, PlaceRow, ReplyRow, RequestRow, StatsRow, VerdictRow};
use crate::c_interface::texts::write_fault;
use crate::c_interface::verdicts::check_commands;
use std::alloc::Global;

/// Opens a closed channel: the one with a number, of the machine whose configuration a text states, before its first
/// cycle. Any other status than 0 leaves it as it was.
///
/// Status: 3 where it is open already; else 4 where the configuration is refused; else 5 where the machine has no
/// channel with this number; else 0. It may be 1 in place of 0, 4 or 5, where memory is refused.
#[unsafe(no_mangle)]
pub extern "C" fn dramsim_open(
    alloc: Global,
    text: &[u8],
    number: u32,
    channel: &mut KeptChannel,
) -> u32
    requires well { IsWell channel.old }
    ensures well { IsWell channel.new }
    ensures opened { result ≡ 0 → IsOpened text.now number channel.new }
    ensures status { IsClosed channel.old → (result ≡ 1)
        ⊎ (result ≡ open_status (open_refusal (document_of text.now) number)) }
    ensures already { channel.old.is_open ≡ true → result ≡ 3 }
    ensures same { result ≢ 0 → channel.new ≡ channel.old }
{
    status(channel.open(alloc, text, number))
}

/// Sends a request to an open channel. Any other status than 0 leaves its past as it was.
///
/// Status: 2 where the channel is closed; else the first of these that is so:
/// - 6: the machine has no core with its number.
/// - 7: its address lies in another channel.
/// - 8: it arrives in a cycle that is over.
/// - 9: one that is on its way arrives later, or in the same cycle from the same core or a higher one.
/// - 10: its entry, or a later one of its core, was asked for already; or it is 2^64 - 1.
/// - 11: as many requests wait or are on their way as there are credits of all cores.
/// - 1: memory was refused.
/// - 0: it was sent.
#[unsafe(no_mangle)]
pub extern "C" fn dramsim_send(
    alloc: Global,
    channel: &mut KeptChannel,
    request: &RequestRow,
) -> u32
    requires well { IsWell channel.old }
    ensures well { IsWell channel.new }
    ensures status { ForSession channel.old (λ session past. IsStatus
        (refusal session (waiting_of past session.cycle) (sent_request request.now)) result) }
    ensures sent { ForPasts channel.old (λ past.
        result ≡ 0 → HasPast channel.new (with_request past (sent_request request.now))) }
    ensures left { ForPasts channel.old (λ past. result ≢ 0 → HasPast channel.new past) }
    ensures now { StandsAsBefore channel.old channel.new }
    ensures closed { IsClosed channel.old → result ≡ 2 }
{
    status(channel.send(alloc, &request.to_request()))
}

/// Runs an open channel over the cycles before `until`. Status 1 closes it; any other than 0 leaves its past as it was.
///
/// Status: 2 where the channel is closed; else 12 where `until` is before the cycle where it stands; else 13 where
/// `until` is after 2^62; else 1 where memory is refused; else 0.
#[unsafe(no_mangle)]
pub extern "C" fn dramsim_run(alloc: Global, channel: &mut KeptChannel, until: u64) -> u32
    requires well { IsWell channel.old }
    ensures well { IsWell channel.new }
    ensures status { ForSession channel.old (λ session past.
        IsStatus (end_refusal session.cycle until) result) }
    ensures done { ForPasts channel.old (λ past. result ≡ 0 → HasPast channel.new past) }
    ensures now { result ≡ 0 → StandsAt channel.new until }
    ensures left { ForPasts channel.old (λ past. result ≢ 1 → HasPast channel.new past) }
    ensures stays { (cycle : ℕ) → StandsAt channel.old cycle → result ≢ 0 → result ≢ 1
        → StandsAt channel.new cycle }
    ensures lost { result ≡ 1 → IsClosed channel.new }
    ensures closed { IsClosed channel.old → result ≡ 2 }
{
    status(channel.run(alloc, until))
}

/// The next command of the cycles that are over, if there is one: the first that was not taken. It is taken then. False
/// where there is none, or the channel is closed: the row is left as it was then.
#[unsafe(no_mangle)]
pub extern "C" fn dramsim_next_command(
    alloc: Global,
    channel: &mut KeptChannel,
    row: &mut CommandRow,
) -> bool
    requires well { IsWell channel.old }
    ensures well { IsWell channel.new }
    ensures found { ForSession channel.old (λ session past.
        result ≡ is_some (next_command_of past session.cycle)) }
    ensures row { ForSession channel.old (λ session past. result ≡ true
        → Some row.new ≡ option_map command_row (next_command_of past session.cycle)) }
    ensures taken { ForSession channel.old (λ session past.
        HasPast channel.new (with_command past (next_command_of past session.cycle))) }
    ensures now { StandsAsBefore channel.old channel.new }
    ensures none { result ≡ false → row.new ≡ row.old }
    ensures closed { IsClosed channel.old → result ≡ false }
{
    match channel.next_command(alloc) {
        Some(command) => {
            *row = CommandRow::of(&command);
            true
        }
        None => false,
    }
}

/// The next reply or credit that was sent in the cycles that are over, if there is one: the first that was not taken.
/// It is taken then. False where there is none, or the channel is closed: the row is left as it was then.
#[unsafe(no_mangle)]
pub extern "C" fn dramsim_next_reply(
    alloc: Global,
    channel: &mut KeptChannel,
    row: &mut ReplyRow,
) -> bool
    requires well { IsWell channel.old }
    ensures well { IsWell channel.new }
    ensures found { ForSession channel.old (λ session past.
        result ≡ is_some (next_reply_of past session.cycle)) }
    ensures row { ForSession channel.old (λ session past. result ≡ true
        → Some row.new ≡ option_map (reply_row past.config) (next_reply_of past session.cycle)) }
    ensures taken { ForSession channel.old (λ session past.
        HasPast channel.new (with_reply past (next_reply_of past session.cycle))) }
    ensures now { StandsAsBefore channel.old channel.new }
    ensures none { result ≡ false → row.new ≡ row.old }
    ensures closed { IsClosed channel.old → result ≡ false }
{
    match channel.next_reply(alloc) {
        Some(reply) => {
            *row = reply;
            true
        }
        None => false,
    }
}

/// The cycle where an open channel stands: this many are over. It is 0 where the channel is closed.
#[unsafe(no_mangle)]
pub extern "C" fn dramsim_now(alloc: Global, channel: &mut KeptChannel) -> u64
    requires well { IsWell channel.old }
    ensures well { IsWell channel.new }
    ensures now { ForOpen channel.old (λ session. result ≡ session.cycle) }
    ensures kept { channel.new.handle.value ≡ channel.old.handle.value }
    ensures closed { IsClosed channel.old → result ≡ 0 }
{
    match channel.now(alloc) {
        Some(now) => now,
        None => 0,
    }
}

/// Where the line at an address lies in the memory of an open channel's machine. False where it is closed: the row is
/// left as it was then.
#[unsafe(no_mangle)]
pub extern "C" fn dramsim_place(
    alloc: Global,
    channel: &mut KeptChannel,
    address: u64,
    row: &mut PlaceRow,
) -> bool
    requires well { IsWell channel.old }
    ensures well { IsWell channel.new }
    ensures row { ForSession channel.old (λ session past.
        row.new ≡ place_row (place_of past.config address)) }
    ensures found { ForOpen channel.old (λ session. result ≡ true) }
    ensures kept { channel.new.handle.value ≡ channel.old.handle.value }
    ensures none { result ≡ false → row.new ≡ row.old }
    ensures closed { IsClosed channel.old → result ≡ false }
{
    match channel.place_of(alloc, address) {
        Some(place) => {
            *row = PlaceRow::of(place);
            true
        }
        None => false,
    }
}

/// The next cycle from now on in which an open channel acts, if nothing more is sent to it and there is one: it issues
/// nothing before that cycle, and in it, it issues a command or a request that was sent arrives. False where there is
/// none, or the channel is closed: the cycle is left as it was then.
#[unsafe(no_mangle)]
pub extern "C" fn dramsim_next_act(
    alloc: Global,
    channel: &mut KeptChannel,
    cycle: &mut u64,
) -> bool
    requires well { IsWell channel.old }
    ensures well { IsWell channel.new }
    ensures some { ForSession channel.old (λ session past.
        result ≡ true → IsNextAct past session.cycle (Some cycle.new)) }
    ensures never { ForSession channel.old (λ session past.
        result ≡ false → IsNextAct past session.cycle None) }
    ensures kept { channel.new.handle.value ≡ channel.old.handle.value }
    ensures none { result ≡ false → cycle.new ≡ cycle.old }
    ensures closed { IsClosed channel.old → result ≡ false }
{
    match channel.next_act(alloc) {
        Some(next) => {
            *cycle = next;
            true
        }
        None => false,
    }
}

/// The least address of the line at a place in the memory of an open channel's machine. Any other status than 0 leaves
/// the address as it was.
///
/// Status: 2 where the channel is closed; else 14 where the memory has no such place; else 0.
#[unsafe(no_mangle)]
pub extern "C" fn dramsim_address(
    alloc: Global,
    channel: &mut KeptChannel,
    place: &PlaceRow,
    address: &mut u64,
) -> u32
    requires well { IsWell channel.old }
    ensures well { IsWell channel.new }
    ensures address { ForSession channel.old (λ session past.
        result ≡ 0 → IsAddressOf past.config (place_in place.now) address.new) }
    ensures status { ForSession channel.old (λ session past.
        result ≡ (if is_place past.config (place_in place.now) then 0 else 14)) }
    ensures kept { channel.new.handle.value ≡ channel.old.handle.value }
    ensures same { result ≢ 0 → address.new ≡ address.old }
    ensures closed { IsClosed channel.old → result ≡ 2 }
{
    match channel.address_of(alloc, &place.to_place()) {
        Ok(found) => {
            *address = found;
            0
        }
        Err(fault) => fault_number(fault),
    }
}

/// The statistics of the cycles of an open channel that are over. False where it is closed: the row is left as it was
/// then.
#[unsafe(no_mangle)]
pub extern "C" fn dramsim_stats(
    alloc: Global,
    channel: &mut KeptChannel,
    row: &mut StatsRow,
) -> bool
    requires well { IsWell channel.old }
    ensures well { IsWell channel.new }
    ensures row { ForSession channel.old (λ session past.
        row.new ≡ stats_row (statistics_of past session.cycle)) }
    ensures found { ForOpen channel.old (λ session. result ≡ true) }
    ensures kept { channel.new.handle.value ≡ channel.old.handle.value }
    ensures none { result ≡ false → row.new ≡ row.old }
    ensures closed { IsClosed channel.old → result ≡ false }
{
    match channel.stats(alloc) {
        Some(stats) => {
            *row = StatsRow::of(&stats);
            true
        }
        None => false,
    }
}

/// Closes a channel, whether it is open or not: all of its memory is freed.
#[unsafe(no_mangle)]
pub extern "C" fn dramsim_close(alloc: Global, channel: &mut KeptChannel)
    requires well { IsWell channel.old }
    ensures well { IsWell channel.new }
    ensures closed { IsClosed channel.new }
{
    channel.close(alloc);
}

/// Writes the line for which the program refuses a configuration, without its end, to the front of memory, and its
/// length; 0 where the configuration is not refused. Any other status than 0 leaves the memory as it was.
///
/// Status: 15 where the line is longer than the memory, and its length is written then; else 0. It may be 1 in place of
/// either, where memory is refused to the call; nothing is written then.
#[unsafe(no_mangle)]
pub extern "C" fn dramsim_fault_text(
    alloc: Global,
    text: &[u8],
    into: &mut [u8],
    wanted: &mut usize,
) -> u32
    ensures status { (result ≡ 1)
        ⊎ (result ≡ text_status (fault_text (document_of text.now)) (length into.old)) }
    ensures written { result ≡ 0
        → into.new ≡ written_over (fault_text (document_of text.now)) into.old }
    ensures wanted { result ≢ 1 → wanted.new ≡ length (fault_text (document_of text.now)) }
    ensures kept { result ≡ 1 → wanted.new ≡ wanted.old }
    ensures same { result ≢ 0 → into.new ≡ into.old }
{
    status(write_fault(alloc, text, into, wanted))
}

/// Judges a table of commands under the configuration that a text states, as `dramsim check` does, and writes what is
/// at fault. The statuses 1 and 4 leave the row as it was.
///
/// Status: 4 where the configuration is refused; else 17 where the table has no header; else as the first row at fault
/// decides, 17 where it is none and 16 where it breaks a rule; else 0. It may be 1 in place of any, where memory is
/// refused.
#[unsafe(no_mangle)]
pub extern "C" fn dramsim_check(
    alloc: Global,
    text: &[u8],
    table: &[u8],
    row: &mut VerdictRow,
) -> u32
    ensures judged { IsJudgedAs text.now table.now row.old row.new result }
{
    status(check_commands(alloc, text, table, row))
}
