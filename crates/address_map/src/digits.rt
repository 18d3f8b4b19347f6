//! Where an address lies, by shifts and masks: each field of an address has a power of two of values.

ghost use Rattle.std.specs.Prelude.{◌≡◌, ◌^◌, ◌<◌};
ghost use Rattle.sim_base.specs.Fields.{is_field};
ghost use Rattle.sim_base.specs.Places.{field_size};

use crate::size_of_field;
use sim_base::config::Config;
use sim_base::place::{Field, Place};

/// Where a field stands in the number of a line: above `shift` bits, and under a mask. A mask of 0 selects nothing.
#[derive(Clone, Copy)]
pub struct Digit {
    pub shift: u32,
    pub mask: u32,
    pub ghost within: { shift < 64 },
}

/// Where each field of an address stands in the number of its line.
#[derive(Clone, Copy)]
pub struct Digits {
    pub channel: Digit,
    pub rank: Digit,
    pub group: Digit,
    pub bank: Digit,
    pub row: Digit,
    pub column: Digit,
}

/// Whether two fields are the same.
fn is_field(one: Field, other: Field) -> bool
    ensures { result ≡ is_field one other }
{
    match (one, other) {
        (Field::Channel, Field::Channel) => true,
        (Field::Column, Field::Column) => true,
        (Field::Rank, Field::Rank) => true,
        (Field::Group, Field::Group) => true,
        (Field::Bank, Field::Bank) => true,
        (Field::Row, Field::Row) => true,
        _ => false,
    }
}

/// How many bits the values of a field take.
fn width_of_field(config: &Config, field: Field) -> u32
    ensures { field_size config.now field ≡ 2 ^ result }
{
    size_of_field(config, field).ilog2()
}

impl Digit {
    ghost use Rattle.address_map.specs.Shifts.{digit_by, IsDigit};

    /// Where a field stands: above the fields before it.
    fn of_field(config: &Config, field: Field) -> Digit
        ensures { IsDigit config.now field result }
    {
        let mut shift = 0;
        for other in config.fields.as_slice() {
            let width = width_of_field(config, *other);
            if is_field(field, *other) {
                return Digit {
                    shift,
                    mask: (1 << width) - 1,
                };
            }
            shift += width;
        }
        Digit { shift: 0, mask: 0 }
    }

    /// What stands there in the number of a line.
    fn value_in(self, line: u64) -> u32
        ensures { result ≡ digit_by self line }
    {
        ((line >> self.shift) & u64::from(self.mask)) as u32
    }
}

impl Digits {
    ghost use Rattle.sim_base.specs.declared.config.Config.{Config};
    ghost use Rattle.sim_base.specs.Places.{place_of};
    ghost use Rattle.address_map.specs.Shifts.{IsDigits};

    /// Where the fields stand in the order of a configuration.
    pub fn of_config(config: &Config) -> Digits
        ensures { IsDigits config.now result }
    {
        Digits {
            channel: Digit::of_field(config, Field::Channel),
            rank: Digit::of_field(config, Field::Rank),
            group: Digit::of_field(config, Field::Group),
            bank: Digit::of_field(config, Field::Bank),
            row: Digit::of_field(config, Field::Row),
            column: Digit::of_field(config, Field::Column),
        }
    }

    /// Where an address lies, as `place_of` gives it for the configuration whose fields stand like this.
    pub fn place_of(&self, address: u64) -> Place
        ensures value { (s : Config) → IsDigits s self.now → result ≡ place_of s address }
        ensures channel { (s : Config) → IsDigits s self.now → result.channel < s.channels }
    {
        let line = address / 64;
        Place {
            channel: self.channel.value_in(line),
            rank: self.rank.value_in(line),
            group: self.group.value_in(line),
            bank: self.bank.value_in(line),
            row: self.row.value_in(line),
            column: self.column.value_in(line),
        }
    }
}
