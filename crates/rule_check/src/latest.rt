//! The latest command of each kind.

ghost use Rattle.std.specs.Prelude.{◌≡◌};
ghost use Rattle.rule_check.specs.Kept.{later_cycle, latest_of, noted, is_ahead};

use sim_base::command::Kind;

/// The latest cycle of a command of each kind, if there was one.
#[derive(Clone, Copy)]
pub(crate) struct Latest {
    pub(crate) act: Option<u64>,
    pub(crate) rd: Option<u64>,
    pub(crate) wr: Option<u64>,
    pub(crate) pre: Option<u64>,
    pub(crate) prea: Option<u64>,
    pub(crate) refresh: Option<u64>,
}

/// No command so far.
pub(crate) const NOTHING: Latest = Latest {
    act: None,
    rd: None,
    wr: None,
    pre: None,
    prea: None,
    refresh: None,
};

fn later_cycle(latest: Option<u64>, cycle: u64) -> Option<u64>
    ensures { result ≡ later_cycle latest cycle }
{
    match latest {
        None => Some(cycle),
        Some(other) => Some(other.max(cycle)),
    }
}

/// The latest command of a kind.
pub(crate) fn latest_of(latest: &Latest, kind: Kind) -> Option<u64>
    ensures { result ≡ latest_of latest.now kind }
{
    match kind {
        Kind::Act => latest.act,
        Kind::Rd => latest.rd,
        Kind::Wr => latest.wr,
        Kind::Pre => latest.pre,
        Kind::Prea => latest.prea,
        Kind::Ref => latest.refresh,
    }
}

/// Notes one more command.
pub(crate) fn note(latest: &mut Latest, kind: Kind, cycle: u64)
    ensures { latest.new ≡ noted kind cycle latest.old }
{
    match kind {
        Kind::Act => latest.act = later_cycle(latest.act, cycle),
        Kind::Rd => latest.rd = later_cycle(latest.rd, cycle),
        Kind::Wr => latest.wr = later_cycle(latest.wr, cycle),
        Kind::Pre => latest.pre = later_cycle(latest.pre, cycle),
        Kind::Prea => latest.prea = later_cycle(latest.prea, cycle),
        Kind::Ref => latest.refresh = later_cycle(latest.refresh, cycle),
    }
}

/// Whether the latest of some commands is less than a distance before a cycle.
pub(crate) fn is_ahead(now: u64, distance: u64, latest: Option<u64>) -> bool
    ensures { result ≡ is_ahead now distance latest }
{
    match latest {
        None => false,
        Some(cycle) => !(cycle <= now && distance <= now - cycle),
    }
}
