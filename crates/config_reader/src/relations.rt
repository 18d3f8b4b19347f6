//! What must hold between the numbers of a document.

ghost use Rattle.std.specs.Prelude.{◌≡◌, ◌↔◌, ◌*◌, ◌≤◌, ◌==◌, ◌<◌, All, IsOk, IsTrue, nat_lt};
ghost use Rattle.std.specs.List.{list_all, list_any};
ghost use Rattle.sim_base.specs.Keys.{TimingInRange, AcceptedAt};
ghost use Rattle.sim_base.specs.declared.key.Key.TheVariants as key;
ghost use Rattle.sim_base.specs.Relations.{refresh_slack_of, DistancesFit, RefreshFits, CreditsFit, LinksDiffer, RanksHaveField, DrainFits};
ghost use Rattle.config_reader.specs.Document.Relations.{LinksFit, relation, distances_of, refresh_of, credits_of, links_differ, links_of, ranks_of, drain_fits_of};

use crate::fields::count;
use sim_base::fault::Fault;
use sim_base::overrides::Override;
use sim_base::place::Field;
use sim_base::timing::Timing;

/// Refuses a relation that does not hold, by its number.
fn relation(number: u8, holds: bool) -> Result<(), Fault>
    ensures { result ≡ relation number holds }
{
    if holds {
        Ok(())
    } else {
        Err(Fault::ConfigRelation(number))
    }
}

/// Relations 1 to 5.
#[tactic(auto, unfolding(crate::specs::Document::Relations::distances_of))]
pub(super) fn check_distances(timing: &Timing) -> Result<(), Fault>
    requires { TimingInRange timing.now }
    ensures value { result ≡ distances_of timing.now }
    ensures fit { IsOk result ↔ DistancesFit timing.now }
{
    relation(1, timing.n_rtw + timing.n_cwl >= timing.n_cl + 4)?;
    relation(2, timing.n_ccd_s >= 4)?;
    relation(3, timing.n_ccd_l >= timing.n_ccd_s)?;
    relation(4, timing.n_rrd_l >= timing.n_rrd_s)?;
    relation(5, timing.n_wtr_l >= timing.n_wtr_s)
}

/// How late a rank's refresh may be, in cycles.
fn refresh_slack(timing: &Timing, ranks: u32) -> u32
    requires timing { TimingInRange timing.now }
    requires ranks { AcceptedAt key.Ranks ranks }
    ensures value { result ≡ refresh_slack_of timing.now ranks }
    ensures small { result ≤ 1000000 }
{
    let closing = timing
        .n_ras
        .max(timing.n_rtp.max(timing.n_cwl + 4 + timing.n_wr))
        + timing.n_rp;
    closing + (ranks - 1) * (timing.n_rp + 1)
}

/// Relation 6.
#[tactic(auto, unfolding(crate::specs::Document::Relations::refresh_of))]
pub(super) fn check_refresh(timing: &Timing, ranks: u32) -> Result<(), Fault>
    requires timing { TimingInRange timing.now }
    requires ranks { AcceptedAt key.Ranks ranks }
    ensures value { result ≡ refresh_of timing.now ranks }
    ensures fit { IsOk result ↔ RefreshFits timing.now ranks }
{
    relation(
        6,
        timing.n_refi == 0 || timing.n_refi >= refresh_slack(timing, ranks) + timing.n_rfc + 1,
    )
}

/// Relation 7.
#[tactic(auto, unfolding(crate::specs::Document::Relations::credits_of))]
pub(super) fn check_credits(cores: u32, read_credits: u32, write_credits: u32) -> Result<(), Fault>
    requires cores { AcceptedAt key.Cores cores }
    requires reads { AcceptedAt key.ReadCredits read_credits }
    requires writes { AcceptedAt key.WriteCredits write_credits }
    ensures value { result ≡ credits_of cores read_credits write_credits }
    ensures fit { IsOk result ↔ CreditsFit cores read_credits write_credits }
{
    relation(7, cores * (read_credits + write_credits) <= 8192)
}

/// Whether each override is for a link below a bound.
#[tactic(auto, using(crate::proofs::LinkTests::links_exist))]
fn are_below(overrides: &[Override], bound: u64) -> bool
    ensures value { result ≡ list_all (λ o. nat_lt o.link bound) overrides.now }
    ensures below { IsTrue result ↔ All (λ o. o.link < bound) overrides.now }
{
    overrides.iter().all(|o| o.link < bound)
}

/// Whether some override is for this link.
fn has_link(overrides: &[Override], link: u64) -> bool
    ensures { result ≡ list_any (λ o. o.link == link) overrides.now }
{
    overrides.iter().any(|o| o.link == link)
}

/// Whether each override is for a different link from those after it.
fn differ_from_later(overrides: &[Override]) -> bool
    ensures { result ≡ links_differ overrides.now }
{
    let mut rest = overrides;
    while let [first, others @ ..] = rest {
        if has_link(others, first.link) {
            return false;
        }
        rest = others;
    }
    true
}

/// Whether no two overrides are for the same link.
#[tactic(auto, using(crate::proofs::LinkTests::links_apart))]
fn links_differ(overrides: &[Override]) -> bool
    ensures value { result ≡ links_differ overrides.now }
    ensures differ { IsTrue result ↔ LinksDiffer overrides.now }
{
    differ_from_later(overrides)
}

/// Relations 8 and 9.
#[tactic(auto, unfolding(crate::specs::Document::Relations::links_of))]
pub(super) fn check_links(cores: u32, channels: u32, overrides: &[Override]) -> Result<(), Fault>
    requires cores { AcceptedAt key.Cores cores }
    requires channels { AcceptedAt key.Channels channels }
    ensures value { result ≡ links_of cores channels overrides.now }
    ensures fit { IsOk result ↔ LinksFit cores channels overrides.now }
{
    let links = 3 * u64::from(cores) * u64::from(channels);
    relation(8, are_below(overrides, links))?;
    relation(9, links_differ(overrides))
}

/// Relation 10.
#[tactic(auto, unfolding(crate::specs::Document::Relations::ranks_of))]
pub(super) fn check_ranks(ranks: u32, fields: &[Field]) -> Result<(), Fault>
    requires { AcceptedAt key.Ranks ranks }
    ensures value { result ≡ ranks_of ranks fields.now }
    ensures have_field { IsOk result ↔ RanksHaveField ranks fields.now }
{
    relation(10, ranks == 1 || count(fields, Field::Rank) == 1)
}

/// Relations 11 and 12.
#[tactic(auto, unfolding(crate::specs::Document::Relations::drain_fits_of))]
pub(super) fn check_drain(
    cores: u32,
    write_credits: u32,
    write_high: u32,
    write_low: u32,
) -> Result<(), Fault>
    requires cores { AcceptedAt key.Cores cores }
    requires credits { AcceptedAt key.WriteCredits write_credits }
    requires high { AcceptedAt key.WriteHigh write_high }
    requires low { AcceptedAt key.WriteLow write_low }
    ensures value { result ≡ drain_fits_of cores write_credits write_high write_low }
    ensures fits { IsOk result ↔ DrainFits cores write_credits write_high write_low }
{
    relation(11, write_high + write_low == 0 || write_low < write_high)?;
    relation(12, write_high <= cores * write_credits)
}
