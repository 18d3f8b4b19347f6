//! Wake words, lowered to the arrivals of what is sent.

ghost use Rattle.std.specs.Prelude.{◌≡◌, ℕ, ◌≤◌, ◌<◌, ◌+◌, ◌^◌, ◌/◌, ◌%◌, length, IfSome, IfNone, OnOk};
ghost use Rattle.std.specs.List.Sorted.{IsPermutation};
ghost use Rattle.links.specs.InFlight.{with_sent};
ghost use Rattle.links.specs.Buffers.{buffer_of};
ghost use Rattle.units.specs.Units.{unit_count};
ghost use Rattle.sim_base.specs.declared.config.Config.{Config};
ghost use Rattle.units.specs.GoingOn.{IsReceiver, HasNoReceiver, IsCountOf};
ghost use Rattle.units.specs.Wakes.{AreEarly, AreLowered, NoneIsLater, IsNoLaterAt, IsNoneSooner};

use core_window::receive::channel_of;
use links::flight::Links;
use sim_base::config::Config;
use sim_base::message::{Cycle, LinkId, Message};
use std::alloc::AllocError;

/// How many bits the number of a channel takes: there is a power of two of channels.
fn channel_bits(config: &Config) -> u32
    ensures channels { config.now.channels ≡ 2 ^ result }
    ensures few { result < 32 }
{
    config.channels.ilog2()
}

/// The core of a link.
fn core_of(config: &Config, link: LinkId) -> u64
    ensures { result ≡ link / 3 / config.now.channels }
{
    (link / 3) >> channel_bits(config)
}

/// The place of the unit that a link leads to, if the machine has it.
pub fn receiver_place(config: &Config, link: LinkId) -> Option<usize>
    ensures some { IfSome result (IsReceiver config.now link) }
    ensures none { IfNone result (HasNoReceiver config.now link) }
{
    let cores = u64::from(config.cores);
    if link % 3 == 0 {
        return Some((cores + channel_of(config, link)) as usize);
    }
    let core = core_of(config, link);
    if core < cores {
        Some(core as usize)
    } else {
        None
    }
}

/// How many cores a machine has, and how many channels.
#[derive(Clone, Copy)]
struct UnitCounts {
    cores: u16,
    channels: u16,
}

/// How many units of each kind a machine has.
fn counts_of(config: &Config) -> UnitCounts
    ensures { IsCountOf config.now result }
{
    UnitCounts {
        cores: config.cores,
        channels: config.channels,
    }
}

/// The place of the unit whose messages stand in a buffer of the links, if the machine has it. The counts are handed
/// over as numbers, so that they are read once for many messages.
#[inline(always)]
fn place_of_buffer(counts: UnitCounts, buffer: usize) -> Option<usize>
    ensures some { (s : Config) (link : ℕ) → IsCountOf s counts
        → buffer ≡ buffer_of s.channels link → IfSome result (IsReceiver s link) }
    ensures none { (s : Config) (link : ℕ) → IsCountOf s counts
        → buffer ≡ buffer_of s.channels link → IfNone result (HasNoReceiver s link) }
{
    let channels = usize::from(counts.channels);
    let cores = usize::from(counts.cores);
    if buffer < channels {
        return Some(cores + buffer);
    }
    let core = (buffer - channels) / 2;
    if core < cores { Some(core) } else { None }
}

/// Lowers the word of the unit at `place` to an arrival, where `words` are those of units at places from `first` on.
#[inline(always)]
fn lower(first: usize, words: &mut [Cycle], place: Option<usize>, arrival: Cycle)
    ensures count { length words.new ≡ length words.old }
    ensures less { NoneIsLater words.old words.new }
    ensures arrival { IfSome place (IsNoLaterAt first arrival words.new) }
    ensures since { IsNoneSooner words.old words.new arrival }
{
    if let Some(place) = place {
        // a place before `first` has an index past all words
        let index = place.wrapping_sub(first);
        if index < words.len() {
            words[index] = words[index].min(arrival);
        }
    }
}

/// Takes messages up one after the other, and lowers the word of the unit that each goes to, where it may be the next
/// one that arrives in its buffer. So all words are lowered, where none was later than what was in flight to its unit.
fn take_up_each(
    config: &Config,
    links: &mut Links,
    first: usize,
    words: &mut [Cycle],
    sent: &[Message],
) -> Result<(), AllocError>
    requires within { first + length words.old ≤ unit_count config.now }
    requires channels { links.old.channels ≡ config.now.channels }
    ensures lowered { OnOk result (AreEarly config.now first words.old links.old
        → AreLowered config.now first sent.now words.old words.new) }
    ensures links { OnOk result (links.new ≡ with_sent links.old sent.now) }
{
    let counts = counts_of(config);
    for message in sent {
        if let Some(buffer) = links.put(message)? {
            let place = place_of_buffer(counts, buffer);
            lower(first, words, place, message.arrival);
        }
    }
    Ok(())
}

/// Takes up what was sent, which may change places, and lowers the words of units at places from `first` on to the
/// arrivals of what was sent to them, where no word was later than what was in flight to its unit. The only error is
/// out of memory, and some messages may be taken up by then.
#[inline(always)]
pub fn take_up(
    config: &Config,
    links: &mut Links,
    first: usize,
    words: &mut [Cycle],
    sent: &mut [Message],
) -> Result<(), AllocError>
    requires within { first + length words.old ≤ unit_count config.now }
    requires channels { links.old.channels ≡ config.now.channels }
    ensures same { IsPermutation sent.old sent.new }
    ensures lowered { OnOk result (AreEarly config.now first words.old links.old
        → AreLowered config.now first sent.old words.old words.new) }
    ensures links { OnOk result (links.new ≡ with_sent links.old sent.old) }
{
    links.put_in_order(sent)?;
    take_up_each(config, links, first, words, sent)
}
