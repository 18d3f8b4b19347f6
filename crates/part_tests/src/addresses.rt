//! Places and addresses of one memory: two groups of four banks, with 65536 rows of 128 lines each.

use crate::expect::expect;
use address_map::{address_of, place_of};
use fixtures::small::small;
use sim_base::place::Place;

static LAST: Place = Place {
    channel: 0,
    rank: 0,
    group: 1,
    bank: 3,
    row: 65535,
    column: 127,
};

static NEXT_GROUP: Place = Place {
    channel: 0,
    rank: 0,
    group: 1,
    bank: 0,
    row: 0,
    column: 0,
};

/// The last address is of the last line, and groups follow the columns.
#[test]
fn places_of_addresses(rt: HostRuntime) {
    let config = small(rt.alloc(), &[], "").expect(&rt, "a machine");
    let found = place_of(&config, 8192);
    let last = place_of(&config, 18446744073709551615);
    expect(
        &rt,
        &(last, found, address_of(&config, &found)),
        &(LAST, NEXT_GROUP, 8192),
    );
}
