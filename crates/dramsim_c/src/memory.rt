//! A memory of all channels by one handle.

ghost use Rattle.std.specs.Prelude.{◌≡◌, ◌≢◌, ◌⊎◌, ℕ, true, false, None, Some, nat_lt, if◌then◌else◌, option_map};
ghost use Rattle.config_reader.specs.Document.{document_of};
ghost use Rattle.sessions.specs.Addresses.{is_place, IsAddressOf};
ghost use Rattle.sessions.specs.Sessions.{end_refusal};
ghost use Rattle.sessions.specs.declared.channel_session.session.Session.{Session};
ghost use Rattle.sim_base.specs.Places.{place_of};
ghost use Rattle.sim_base.specs.declared.config.Config.{Config};
ghost use Rattle.sessions.specs.Memories.{memory_refusal, with_request_of, IsNextCommand, IsNextReply, IsNextActOf, stats_of};
ghost use Rattle.dramsim_c.specs.CInterface.Rows.{sent_request, place_row, place_in, stats_row};
ghost use Rattle.dramsim_c.specs.CInterface.Statuses.{IsStatus, open_status};
ghost use Rattle.dramsim_c.specs.CInterface.Memories.{IsWell, ForPasts, ForOpen, ForMemory, HasPasts, StandsAt, StandsAsBefore, IsOf, IsClosed, IsOpened, configuration_refusal, IsCommandRowAt, IsReplyRowAt, with_command_at, with_reply_at};

use crate::c_interface::c_memory::memory::KeptMemory;
use crate::c_interface::fault::{fault_number, status};
use crate::c_interface::rows::{CommandRow, PlaceRow, ReplyRow, RequestRow, StatsRow};
use std::alloc::Global;

/// Opens a closed memory: all channels of the machine whose configuration a text states, before their first cycle. Any
/// other status than 0 leaves it as it was.
///
/// Status: 3 where it is open already; else 4 where the configuration is refused; else 0. It may be 1 in place of 0 or
/// 4, where memory is refused.
#[unsafe(no_mangle)]
pub extern "C" fn dramsim_memory_open(alloc: Global, text: &[u8], memory: &mut KeptMemory) -> u32
    requires well { IsWell memory.old }
    ensures well { IsWell memory.new }
    ensures opened { result ≡ 0 → IsOpened text.now memory.new }
    ensures status { IsClosed memory.old → (result ≡ 1)
        ⊎ (result ≡ open_status (configuration_refusal (document_of text.now))) }
    ensures already { memory.old.is_open ≡ true → result ≡ 3 }
    ensures same { result ≢ 0 → memory.new ≡ memory.old }
{
    status(memory.open(alloc, text))
}

/// Sends a request to the channel of its address in an open memory. Any other status than 0 leaves the pasts as they
/// were.
///
/// Status: 2 where the memory is closed; else that of `dramsim_send` to that channel, in the same order: 6, 8, 9, 10,
/// 11, 1 or 0, and never 7.
#[unsafe(no_mangle)]
pub extern "C" fn dramsim_memory_send(
    alloc: Global,
    memory: &mut KeptMemory,
    request: &RequestRow,
) -> u32
    requires well { IsWell memory.old }
    ensures well { IsWell memory.new }
    ensures status { ForMemory memory.old (λ m pasts. (other : Session) →
        IsStatus (memory_refusal m pasts other (sent_request request.now)) result) }
    ensures sent { ForMemory memory.old (λ m pasts. result ≡ 0
        → HasPasts memory.new (with_request_of m.config pasts (sent_request request.now))) }
    ensures left { ForPasts memory.old (λ pasts. result ≢ 0 → HasPasts memory.new pasts) }
    ensures now { StandsAsBefore memory.old memory.new }
    ensures config { (config : Config) → IsOf memory.old config → IsOf memory.new config }
    ensures closed { IsClosed memory.old → result ≡ 2 }
{
    status(memory.send(alloc, &request.to_request()))
}

/// Runs all channels of an open memory over the cycles before `until`. Status 1 closes it; any other than 0 leaves the
/// pasts as they were.
///
/// Status: 2 where the memory is closed; else 12 where `until` is before the cycle where it stands; else 13 where
/// `until` is after 2^62; else 1 where memory is refused; else 0.
#[unsafe(no_mangle)]
pub extern "C" fn dramsim_memory_run(alloc: Global, memory: &mut KeptMemory, until: u64) -> u32
    requires well { IsWell memory.old }
    ensures well { IsWell memory.new }
    ensures status { ForOpen memory.old (λ m. IsStatus (end_refusal m.cycle until) result) }
    ensures done { ForPasts memory.old (λ pasts. result ≡ 0 → HasPasts memory.new pasts) }
    ensures now { result ≡ 0 → StandsAt memory.new until }
    ensures left { ForPasts memory.old (λ pasts. result ≢ 1 → HasPasts memory.new pasts) }
    ensures stays { (cycle : ℕ) → StandsAt memory.old cycle → result ≢ 0 → result ≢ 1
        → StandsAt memory.new cycle }
    ensures config { (config : Config) → IsOf memory.old config → result ≢ 1
        → IsOf memory.new config }
    ensures lost { result ≡ 1 → IsClosed memory.new }
    ensures closed { IsClosed memory.old → result ≡ 2 }
{
    status(memory.run(alloc, until))
}

/// The next command of the cycles that are over, if there is one, and the number of its channel: the first that was not
/// taken, by cycle and then by channel. It is taken then. False where there is none, or the memory is closed: the
/// number and the row are left as they were then.
#[unsafe(no_mangle)]
pub extern "C" fn dramsim_memory_next_command(
    alloc: Global,
    memory: &mut KeptMemory,
    channel: &mut u32,
    row: &mut CommandRow,
) -> bool
    requires well { IsWell memory.old }
    ensures well { IsWell memory.new }
    ensures row { ForMemory memory.old (λ m pasts.
        result ≡ true → IsCommandRowAt m.config pasts m.cycle channel.new row.new) }
    ensures never { ForMemory memory.old (λ m pasts.
        result ≡ false → IsNextCommand m.config.channels pasts m.cycle None) }
    ensures taken { ForMemory memory.old (λ m pasts.
        result ≡ true → HasPasts memory.new (with_command_at pasts m.cycle channel.new)) }
    ensures left { ForPasts memory.old (λ pasts. result ≡ false → HasPasts memory.new pasts) }
    ensures now { StandsAsBefore memory.old memory.new }
    ensures config { (config : Config) → IsOf memory.old config → IsOf memory.new config }
    ensures none { result ≡ false → row.new ≡ row.old }
    ensures unnamed { result ≡ false → channel.new ≡ channel.old }
    ensures closed { IsClosed memory.old → result ≡ false }
{
    match memory.next_command(alloc) {
        Some((number, command)) => {
            *channel = number;
            *row = command;
            true
        }
        None => false,
    }
}

/// The next reply or credit that was sent in the cycles that are over, if there is one, and the number of the channel
/// that sent it: of the first of each channel that was not taken, the one that arrives first, and of these that of the
/// lowest channel. It is taken then. False where there is none, or the memory is closed: the number and the row are
/// left as they were then.
#[unsafe(no_mangle)]
pub extern "C" fn dramsim_memory_next_reply(
    alloc: Global,
    memory: &mut KeptMemory,
    channel: &mut u32,
    row: &mut ReplyRow,
) -> bool
    requires well { IsWell memory.old }
    ensures well { IsWell memory.new }
    ensures row { ForMemory memory.old (λ m pasts.
        result ≡ true → IsReplyRowAt m.config pasts m.cycle channel.new row.new) }
    ensures never { ForMemory memory.old (λ m pasts.
        result ≡ false → IsNextReply m.config.channels pasts m.cycle None) }
    ensures taken { ForMemory memory.old (λ m pasts.
        result ≡ true → HasPasts memory.new (with_reply_at pasts m.cycle channel.new)) }
    ensures left { ForPasts memory.old (λ pasts. result ≡ false → HasPasts memory.new pasts) }
    ensures now { StandsAsBefore memory.old memory.new }
    ensures config { (config : Config) → IsOf memory.old config → IsOf memory.new config }
    ensures none { result ≡ false → row.new ≡ row.old }
    ensures unnamed { result ≡ false → channel.new ≡ channel.old }
    ensures closed { IsClosed memory.old → result ≡ false }
{
    match memory.next_reply(alloc) {
        Some((number, reply)) => {
            *channel = number;
            *row = reply;
            true
        }
        None => false,
    }
}

/// The next cycle from now on in which a channel of an open memory acts, if nothing more is sent and there is one: none
/// issues anything before that cycle, and in it, one issues a command or a request that was sent arrives. False where
/// there is none, or the memory is closed: the cycle is left as it was then.
#[unsafe(no_mangle)]
pub extern "C" fn dramsim_memory_next_act(
    alloc: Global,
    memory: &mut KeptMemory,
    cycle: &mut u64,
) -> bool
    requires well { IsWell memory.old }
    ensures well { IsWell memory.new }
    ensures some { ForMemory memory.old (λ m pasts.
        result ≡ true → IsNextActOf m.config.channels pasts m.cycle (Some cycle.new)) }
    ensures never { ForMemory memory.old (λ m pasts.
        result ≡ false → IsNextActOf m.config.channels pasts m.cycle None) }
    ensures left { ForPasts memory.old (λ pasts. HasPasts memory.new pasts) }
    ensures now { StandsAsBefore memory.old memory.new }
    ensures config { (config : Config) → IsOf memory.old config → IsOf memory.new config }
    ensures none { result ≡ false → cycle.new ≡ cycle.old }
    ensures closed { IsClosed memory.old → result ≡ false }
{
    match memory.next_act(alloc) {
        Some(next) => {
            *cycle = next;
            true
        }
        None => false,
    }
}

/// The cycle where an open memory stands: this many are over. It is 0 where the memory is closed.
#[unsafe(no_mangle)]
pub extern "C" fn dramsim_memory_now(alloc: Global, memory: &mut KeptMemory) -> u64
    requires well { IsWell memory.old }
    ensures well { IsWell memory.new }
    ensures now { ForOpen memory.old (λ m. result ≡ m.cycle) }
    ensures kept { memory.new.handle.value ≡ memory.old.handle.value }
    ensures closed { IsClosed memory.old → result ≡ 0 }
{
    match memory.now(alloc) {
        Some(now) => now,
        None => 0,
    }
}

/// Where the line at an address lies in an open memory. False where it is closed: the row is left as it was then.
#[unsafe(no_mangle)]
pub extern "C" fn dramsim_memory_place(
    alloc: Global,
    memory: &mut KeptMemory,
    address: u64,
    row: &mut PlaceRow,
) -> bool
    requires well { IsWell memory.old }
    ensures well { IsWell memory.new }
    ensures row { ForOpen memory.old (λ m. row.new ≡ place_row (place_of m.config address)) }
    ensures found { ForOpen memory.old (λ m. result ≡ true) }
    ensures kept { memory.new.handle.value ≡ memory.old.handle.value }
    ensures none { result ≡ false → row.new ≡ row.old }
    ensures closed { IsClosed memory.old → result ≡ false }
{
    match memory.place_of(alloc, address) {
        Some(place) => {
            *row = PlaceRow::of(place);
            true
        }
        None => false,
    }
}

/// The least address of the line at a place in an open memory. Any other status than 0 leaves the address as it was.
///
/// Status: 2 where the memory is closed; else 14 where it has no such place; else 0.
#[unsafe(no_mangle)]
pub extern "C" fn dramsim_memory_address(
    alloc: Global,
    memory: &mut KeptMemory,
    place: &PlaceRow,
    address: &mut u64,
) -> u32
    requires well { IsWell memory.old }
    ensures well { IsWell memory.new }
    ensures address { ForOpen memory.old (λ m.
        result ≡ 0 → IsAddressOf m.config (place_in place.now) address.new) }
    ensures status { ForOpen memory.old (λ m.
        result ≡ (if is_place m.config (place_in place.now) then 0 else 14)) }
    ensures kept { memory.new.handle.value ≡ memory.old.handle.value }
    ensures same { result ≢ 0 → address.new ≡ address.old }
    ensures closed { IsClosed memory.old → result ≡ 2 }
{
    match memory.address_of(alloc, &place.to_place()) {
        Ok(found) => {
            *address = found;
            0
        }
        Err(fault) => fault_number(fault),
    }
}

/// The statistics of the cycles of a channel of an open memory that are over. Any other status than 0 leaves the row as
/// it was.
///
/// Status: 2 where the memory is closed; else 5 where it has no channel with this number; else 0.
#[unsafe(no_mangle)]
pub extern "C" fn dramsim_memory_stats(
    alloc: Global,
    memory: &mut KeptMemory,
    channel: u32,
    row: &mut StatsRow,
) -> u32
    requires well { IsWell memory.old }
    ensures well { IsWell memory.new }
    ensures row { ForMemory memory.old (λ m pasts.
        result ≡ 0
        → Some row.new ≡ option_map stats_row (stats_of m.config.channels pasts m.cycle channel)) }
    ensures status { ForMemory memory.old (λ m pasts.
        result ≡ (if nat_lt channel m.config.channels then 0 else 5)) }
    ensures kept { memory.new.handle.value ≡ memory.old.handle.value }
    ensures same { result ≢ 0 → row.new ≡ row.old }
    ensures closed { IsClosed memory.old → result ≡ 2 }
{
    match memory.stats(alloc, channel) {
        Ok(stats) => {
            *row = StatsRow::of(&stats);
            0
        }
        Err(fault) => fault_number(fault),
    }
}

/// Closes a memory, whether it is open or not: all that it holds is freed.
#[unsafe(no_mangle)]
pub extern "C" fn dramsim_memory_close(alloc: Global, memory: &mut KeptMemory)
    requires well { IsWell memory.old }
    ensures well { IsWell memory.new }
    ensures closed { IsClosed memory.new }
{
    memory.close(alloc);
}
