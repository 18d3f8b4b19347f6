//! All distances between commands, each found by one look-up without a test.

ghost use Rattle.std.specs.Prelude.{◌≡◌, ◌≤◌};
ghost use Rattle.sim_base.specs.Rules.{gap, is_bound};
ghost use Rattle.timing.specs.Holds.{holds_between, holds_after, hold_table, place_of_kind, place_of_relation};

use crate::rules::{greatest_distance, is_pair_bound};
use sim_base::command::{Kind, Relation};
use sim_base::config::Config;
use sim_base::timing::Timing;
use std::marker::Model;

/// How far a kind of command holds another back, by the relation of their banks: the distances, 0 where no rule binds
/// the two, and which of them a rule does bind.
#[derive(Clone, Copy)]
struct HoldsBetween {
    cycles: [u64; 4],
    bound: [bool; 4],
}

/// How far a kind of command holds each other kind back.
#[derive(Clone, Copy)]
struct HoldsAfter {
    by_kind: [HoldsBetween; 6],
}

/// How far each kind of command holds each other kind back. It stands for the distances that it was made from.
#[derive(Clone, Copy)]
pub struct GapTable {
    timing: Timing,
    after: [HoldsAfter; 6],
}

impl Model for GapTable {
    ghost use Rattle.std.specs.Prelude.{◌≡◌};
    ghost use Rattle.sim_base.specs.declared.timing.Timing.{Timing};
    ghost use Rattle.sim_base.specs.Keys.{TimingInRange};
    ghost use Rattle.timing.specs.Holds.{hold_table};

    ghost Value = { Timing };

    ghost view = { λ g. g.timing };

    ghost invariant = { λ g. (g.after ≡ hold_table g.timing) × TimingInRange g.timing };

    ghost inverse = { λ t. record { timing = t; after = hold_table t } };
}

fn holds_of_kinds(timing: &Timing, earlier: Kind, later: Kind) -> HoldsBetween
    ensures { result ≡ holds_between timing.now earlier later }
{
    HoldsBetween {
        cycles: [
            greatest_distance(timing, earlier, later, Relation::SameBank),
            greatest_distance(timing, earlier, later, Relation::SameGroup),
            greatest_distance(timing, earlier, later, Relation::OtherGroup),
            greatest_distance(timing, earlier, later, Relation::OtherRank),
        ],
        bound: [
            is_pair_bound(timing, earlier, later, Relation::SameBank),
            is_pair_bound(timing, earlier, later, Relation::SameGroup),
            is_pair_bound(timing, earlier, later, Relation::OtherGroup),
            is_pair_bound(timing, earlier, later, Relation::OtherRank),
        ],
    }
}

fn holds_of_kind(timing: &Timing, earlier: Kind) -> HoldsAfter
    ensures { result ≡ holds_after timing.now earlier }
{
    HoldsAfter {
        by_kind: [
            holds_of_kinds(timing, earlier, Kind::Act),
            holds_of_kinds(timing, earlier, Kind::Rd),
            holds_of_kinds(timing, earlier, Kind::Wr),
            holds_of_kinds(timing, earlier, Kind::Pre),
            holds_of_kinds(timing, earlier, Kind::Prea),
            holds_of_kinds(timing, earlier, Kind::Ref),
        ],
    }
}

#[tactic(auto, unfolding(crate::specs::Holds::hold_table))]
fn all_holds(timing: &Timing) -> [HoldsAfter; 6]
    ensures { result ≡ hold_table timing.now }
{
    [
        holds_of_kind(timing, Kind::Act),
        holds_of_kind(timing, Kind::Rd),
        holds_of_kind(timing, Kind::Wr),
        holds_of_kind(timing, Kind::Pre),
        holds_of_kind(timing, Kind::Prea),
        holds_of_kind(timing, Kind::Ref),
    ]
}

#[inline(always)]
fn index_of_kind(kind: Kind) -> usize
    ensures value { result ≡ place_of_kind kind }
    ensures inside { result ≤ 5 }
{
    kind as usize
}

#[inline(always)]
fn index_of_relation(relation: Relation) -> usize
    ensures value { result ≡ place_of_relation relation }
    ensures inside { result ≤ 3 }
{
    relation as usize
}

impl GapTable {
    ghost use Rattle.sim_base.specs.Keys.{TimingInRange};

    /// The table of the distances of a configuration.
    pub fn of(config: &Config) -> Self
        ensures { result ≡ config.now.timing }
    {
        GapTable {
            timing: config.timing,
            after: all_holds(&config.timing),
        }
    }

    /// How far a kind of command holds another back.
    #[inline(always)]
    fn between(&self, earlier: Kind, later: Kind) -> &HoldsBetween
        ensures holds { result.now ≡ holds_between self.now earlier later }
        ensures in_range { TimingInRange self.now }
    {
        let after = &self.after[index_of_kind(earlier)];
        &after.by_kind[index_of_kind(later)]
    }

    /// The least distance of two such commands in cycles, from 0 to 200,004; 0 where no rule binds them.
    #[inline(always)]
    pub fn gap(&self, earlier: Kind, later: Kind, relation: Relation) -> u64
        ensures value { result ≡ gap self.now earlier later relation }
        ensures range { result ≤ 200004 }
    {
        self.between(earlier, later).cycles[index_of_relation(relation)]
    }

    /// Whether a rule binds two such commands, so that the earlier one holds the later one back.
    pub fn binds(&self, earlier: Kind, later: Kind, relation: Relation) -> bool
        ensures { result ≡ is_bound self.now earlier later relation }
    {
        self.between(earlier, later).bound[index_of_relation(relation)]
    }

    /// The cycles in which a rank accepts at most four ACTs, from 1 to 100,000.
    #[inline(always)]
    pub fn four_act_window(&self) -> u32
        ensures value { result ≡ self.now.n_faw }
        ensures range { (1 ≤ result) × (result ≤ 100000) }
    {
        self.timing.n_faw
    }
}
