//! The place of the address of an entry.

ghost use Rattle.sim_base.specs.declared.config.Config.{Config};
ghost use Rattle.address_map.specs.Shifts.{IsDigits};
ghost use Rattle.core_window.specs.Ahead.{IsPlaced};

use address_map::digits::Digits;
use sim_base::place::Place;
use sim_base::trace::Entry;

/// The place of the address of a Read or a Write; for a Plain entry, which has no address, the place of address 0.
pub fn address_place(digits: &Digits, entry: Entry) -> Place
    ensures { (s : Config) → IsDigits s digits.now → IsPlaced s entry result }
{
    let address = match entry {
        Entry::Read(address) | Entry::Write(address) => address,
        Entry::Plain => 0,
    };
    digits.place_of(address)
}
