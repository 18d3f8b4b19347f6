//! The rules between two commands, as a table.

ghost use Rattle.std.specs.Prelude.{◌≡◌, ◌+◌, ◌==◌, ◌&&◌};
ghost use Rattle.sim_base.specs.Rules.{rule, rules, covers, binds, is_bound, gap};
ghost use Rattle.sim_base.specs.Rules.{relation_in_rank, relation_of};
ghost use Rattle.timing.specs.Relation.{relation_to};

use sim_base::command::{Command, Kind, Relation};
use sim_base::place::BankId;
use sim_base::rule::{Rule, Scope};
use sim_base::timing::Timing;

fn relation_of_banks(earlier: Option<BankId>, later: Option<BankId>) -> Relation
    ensures { result ≡ relation_in_rank earlier later }
{
    match (earlier, later) {
        (Some(a), Some(b)) => {
            if a.group != b.group {
                Relation::OtherGroup
            } else if a.bank != b.bank {
                Relation::SameGroup
            } else {
                Relation::SameBank
            }
        }
        _ => Relation::SameBank,
    }
}

/// How the banks of a command relate to those of a later one in a rank, which names this bank, if it names one. A
/// command that names no bank applies to each bank of its rank.
pub fn relation_to(earlier: Command, rank: u32, bank: Option<BankId>) -> Relation
    ensures { result ≡ relation_to earlier rank bank }
{
    if earlier.rank() == rank {
        relation_of_banks(earlier.bank(), bank)
    } else {
        Relation::OtherRank
    }
}

/// How the banks of two commands relate.
pub fn relation(earlier: Command, later: Command) -> Relation
    ensures { result ≡ relation_of earlier later }
{
    relation_to(earlier, later.rank(), later.bank())
}

fn make_rule(number: u32, earlier: Kind, later: Kind, scope: Scope, cycles: u32) -> Rule
    ensures { result ≡ rule number earlier later scope cycles }
{
    make_sum(number, earlier, later, scope, u64::from(cycles))
}

/// A rule whose distance is a sum.
fn make_sum(number: u32, earlier: Kind, later: Kind, scope: Scope, cycles: u64) -> Rule
    ensures { result ≡ rule number earlier later scope cycles }
{
    Rule {
        number,
        earlier,
        later,
        scope,
        cycles,
    }
}

/// The rules between two commands, each with its number and its distance in cycles. Where several bind two commands,
/// the greatest distance holds.
pub fn rules(timing: &Timing) -> [Rule; 30]
    ensures { result ≡ rules timing.now }
{
    use Kind::{Act, Pre, Prea, Rd, Ref, Wr};
    use Scope::{AcrossGroups, AcrossRanks, InBank, InGroup, InRank};
    let write_end = u64::from(timing.n_cwl) + 4;
    let ranks = 4 + u64::from(timing.n_rtrs);
    [
        make_rule(3, Act, Rd, InBank, timing.n_rcd),
        make_rule(3, Act, Wr, InBank, timing.n_rcd),
        make_rule(4, Act, Pre, InBank, timing.n_ras),
        make_rule(4, Act, Prea, InRank, timing.n_ras),
        make_rule(5, Act, Act, InBank, timing.n_rc),
        make_rule(6, Pre, Act, InBank, timing.n_rp),
        make_rule(6, Prea, Act, InRank, timing.n_rp),
        make_rule(6, Pre, Ref, InRank, timing.n_rp),
        make_rule(6, Prea, Ref, InRank, timing.n_rp),
        make_rule(7, Rd, Pre, InBank, timing.n_rtp),
        make_rule(7, Rd, Prea, InRank, timing.n_rtp),
        make_sum(8, Wr, Pre, InBank, write_end + u64::from(timing.n_wr)),
        make_sum(8, Wr, Prea, InRank, write_end + u64::from(timing.n_wr)),
        make_rule(9, Act, Act, InGroup, timing.n_rrd_l),
        make_rule(10, Act, Act, AcrossGroups, timing.n_rrd_s),
        make_rule(11, Rd, Rd, InGroup, timing.n_ccd_l),
        make_rule(11, Wr, Wr, InGroup, timing.n_ccd_l),
        make_rule(12, Rd, Rd, AcrossGroups, timing.n_ccd_s),
        make_rule(12, Wr, Wr, AcrossGroups, timing.n_ccd_s),
        make_sum(13, Wr, Rd, InGroup, write_end + u64::from(timing.n_wtr_l)),
        make_sum(
            14,
            Wr,
            Rd,
            AcrossGroups,
            write_end + u64::from(timing.n_wtr_s),
        ),
        make_rule(15, Rd, Wr, InRank, timing.n_rtw),
        make_rule(17, Ref, Act, InRank, timing.n_rfc),
        make_rule(17, Ref, Pre, InRank, timing.n_rfc),
        make_rule(17, Ref, Prea, InRank, timing.n_rfc),
        make_rule(17, Ref, Ref, InRank, timing.n_rfc),
        make_sum(19, Rd, Rd, AcrossRanks, ranks),
        make_sum(19, Wr, Wr, AcrossRanks, ranks),
        make_sum(
            20,
            Rd,
            Wr,
            AcrossRanks,
            (u64::from(timing.n_cl) + ranks).saturating_sub(u64::from(timing.n_cwl)),
        ),
        make_sum(
            21,
            Wr,
            Rd,
            AcrossRanks,
            (write_end + u64::from(timing.n_rtrs)).saturating_sub(u64::from(timing.n_cl)),
        ),
    ]
}

fn is_covered(scope: Scope, relation: Relation) -> bool
    ensures { result ≡ covers scope relation }
{
    match (scope, relation) {
        (Scope::InBank, Relation::SameBank) => true,
        (Scope::InGroup, Relation::SameBank | Relation::SameGroup) => true,
        (Scope::AcrossGroups, Relation::OtherGroup) => true,
        (Scope::InRank, Relation::SameBank | Relation::SameGroup | Relation::OtherGroup) => true,
        (Scope::AcrossRanks, Relation::OtherRank) => true,
        _ => false,
    }
}

fn does_bind(rule: &Rule, earlier: Kind, later: Kind, relation: Relation) -> bool
    ensures { result ≡ binds rule.now earlier later relation }
{
    rule.earlier.is_kind(earlier) && rule.later.is_kind(later) && is_covered(rule.scope, relation)
}

/// Whether a rule binds two such commands.
#[tactic(auto, unfolding(sim_base::specs::Rules::is_bound))]
pub(crate) fn is_pair_bound(timing: &Timing, earlier: Kind, later: Kind, relation: Relation) -> bool
    ensures { result ≡ is_bound timing.now earlier later relation }
{
    rules(timing)
        .iter()
        .any(|r| does_bind(r, earlier, later, relation))
}

/// The greatest distance of the rules that bind two such commands in cycles; 0 where none does.
#[tactic(auto, unfolding(sim_base::specs::Rules::gap))]
pub(crate) fn greatest_distance(
    timing: &Timing,
    earlier: Kind,
    later: Kind,
    relation: Relation,
) -> u64
    ensures { result ≡ gap timing.now earlier later relation }
{
    rules(timing)
        .iter()
        .filter(|r| does_bind(r, earlier, later, relation))
        .map(|r| r.cycles)
        .fold(0, |most, cycles| most.max(cycles))
}
