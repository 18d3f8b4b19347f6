//! The places of a memory, and their addresses.

ghost use Rattle.std.specs.Prelude.{◌≡◌};
ghost use Rattle.sessions.specs.Addresses.{is_place, IsAddress};

use sim_base::config::Config;
use sim_base::place::Place;

/// Whether a memory has a place: each of its fields is below its size.
fn is_place(config: &Config, place: &Place) -> bool
    ensures { result ≡ is_place config.now place.now }
{
    place.channel < u32::from(config.channels)
        && place.rank < config.ranks
        && place.group < config.groups
        && place.bank < 4
        && place.row < config.rows
        && place.column < config.columns
}

/// The least address of the line at a place, if the memory of a machine with this configuration has that place.
pub fn address_of(config: &Config, place: &Place) -> Option<u64>
    ensures { IsAddress config.now place.now result }
{
    if is_place(config, place) {
        Some(address_map::address_of(config, place))
    } else {
        None
    }
}
