//! Distances of one profile, added up by hand from its numbers.

use crate::expect::expect;
use fixtures::small::{TWO_RANKS, small};
use sim_base::command::{Command, Kind, Relation, Source};
use sim_base::place::BankId;
use std::alloc::Global;
use std::process::Abort;
use timing::gap_table::GapTable;
use timing::rules::relation;

// An earlier command, a later one and how their banks relate; the distance that a rule asks for, or none where no rule
// binds them.
type Case = (Kind, Kind, Relation, Option<u64>);

// Asserts that a machine with these changes has these distances. Where no rule binds, the distance is 0.
fn assert_distances(rt: &impl Abort, alloc: Global, changes: &[&str], cases: &[Case]) {
    let config = small(alloc, changes, "").expect(rt, "a machine");
    let table = GapTable::of(&config);
    for case in cases {
        let (earlier, later, relation, want) = *case;
        let gap = table.gap(earlier, later, relation);
        let binds = table.binds(earlier, later, relation);
        expect(
            rt,
            &(case, gap, binds),
            &(case, want.unwrap_or(0), want.is_some()),
        );
    }
}

// No rule binds an ACT to a REF; an RD in another bank does not bind a PRE.
static IN_A_RANK: [Case; 11] = [
    (Kind::Act, Kind::Rd, Relation::SameBank, Some(3)),
    (Kind::Wr, Kind::Rd, Relation::SameGroup, Some(9)),
    (Kind::Wr, Kind::Rd, Relation::OtherGroup, Some(8)),
    (Kind::Rd, Kind::Wr, Relation::OtherGroup, Some(7)),
    (Kind::Act, Kind::Act, Relation::SameBank, Some(11)),
    (Kind::Act, Kind::Act, Relation::SameGroup, Some(3)),
    (Kind::Act, Kind::Act, Relation::OtherGroup, Some(2)),
    (Kind::Pre, Kind::Ref, Relation::SameBank, Some(3)),
    (Kind::Ref, Kind::Act, Relation::SameBank, Some(20)),
    (Kind::Act, Kind::Ref, Relation::SameBank, None),
    (Kind::Rd, Kind::Pre, Relation::SameGroup, None),
];

static BETWEEN_RANKS: [Case; 4] = [
    (Kind::Rd, Kind::Rd, Relation::OtherRank, Some(6)),
    (Kind::Rd, Kind::Wr, Relation::OtherRank, Some(7)),
    (Kind::Wr, Kind::Rd, Relation::OtherRank, Some(5)),
    (Kind::Act, Kind::Act, Relation::OtherRank, None),
];

// A precharge of a whole rank speaks of each of its banks.
fn assert_rank_precharged(rt: &impl Abort) {
    let source = Source { core: 0, entry: 0 };
    let bank = BankId {
        rank: 0,
        group: 1,
        bank: 2,
    };
    let act = Command::Act {
        bank,
        row: 0,
        source,
    };
    let own = relation(act, Command::Prea { rank: 0 });
    let other = relation(act, Command::Prea { rank: 1 });
    expect(
        rt,
        &(own, other),
        &(Relation::SameBank, Relation::OtherRank),
    );
}

#[test]
fn distances_of_commands(rt: HostRuntime) {
    assert_distances(&rt, rt.alloc(), &[], &IN_A_RANK);
    assert_distances(&rt, rt.alloc(), &[TWO_RANKS], &BETWEEN_RANKS);
    assert_rank_precharged(&rt);
}
