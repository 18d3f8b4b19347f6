//! Where an address lies in memory, and which address lies at a place.
#![tactic(auto)]

ghost use Rattle.std.specs.Prelude.{◌≡◌, ◌<◌, ◌≤◌, ℕ};
ghost use Rattle.sim_base.specs.Places.{field_size, place_of};
ghost use Rattle.sim_base.specs.PlaceRange.{PlaceInRange};
ghost use Rattle.address_map.specs.Digits.{value_of, with_value};

pub mod digits;

use sim_base::config::Config;
use sim_base::place::{Field, Place};

/// How many values a field has.
fn size_of_field(config: &Config, field: Field) -> u32
    ensures value { result ≡ field_size config.now field }
    ensures positive { 0 < result }
{
    match field {
        Field::Channel => u32::from(config.channels),
        Field::Column => config.columns,
        Field::Rank => config.ranks,
        Field::Group => config.groups,
        Field::Bank => 4,
        Field::Row => config.rows,
    }
}

fn value_of_field(place: &Place, field: Field) -> u32
    ensures { result ≡ value_of place.now field }
{
    match field {
        Field::Channel => place.channel,
        Field::Column => place.column,
        Field::Rank => place.rank,
        Field::Group => place.group,
        Field::Bank => place.bank,
        Field::Row => place.row,
    }
}

fn set_field(place: &mut Place, field: Field, value: u32)
    ensures { place.new ≡ with_value place.old field value }
{
    match field {
        Field::Channel => place.channel = value,
        Field::Column => place.column = value,
        Field::Rank => place.rank = value,
        Field::Group => place.group = value,
        Field::Bank => place.bank = value,
        Field::Row => place.row = value,
    }
}

/// Where an address lies: the number of its line of 64 bytes, field by field from the low end in the configured order.
/// What lies above the last field is left out.
pub fn place_of(config: &Config, address: u64) -> Place
    ensures value { result ≡ place_of config.now address }
    ensures range { PlaceInRange config.now result }
    ensures channel { result.channel < config.now.channels }
{
    let mut place = Place {
        channel: 0,
        rank: 0,
        group: 0,
        bank: 0,
        row: 0,
        column: 0,
    };
    let mut number = address / 64;
    for field in config.fields.as_slice() {
        let size = u64::from(size_of_field(config, *field));
        set_field(&mut place, *field, (number % size) as u32);
        number /= size;
    }
    place
}

/// The least address that lies at a place: the first byte of its line, with nothing above the last field.
pub fn address_of(config: &Config, place: &Place) -> u64
    requires { PlaceInRange config.now place.now }
    ensures same { place_of config.now result ≡ place.now }
    ensures least { (a : ℕ) → place_of config.now a ≡ place.now → result ≤ a }
{
    let mut address = 0;
    let mut scale = 64;
    for field in config.fields.as_slice() {
        address += scale * u64::from(value_of_field(place, *field));
        scale *= u64::from(size_of_field(config, *field));
    }
    address
}
