//! The last four ACTs of a rank.

ghost use Rattle.std.specs.Prelude.{◌≡◌, max, min};
ghost use Rattle.rule_check.specs.Kept.{window_after};

/// The four latest of the cycles from which on an ACT no longer counts, the latest first; 0 where there were fewer.
#[derive(Clone, Copy)]
pub(crate) struct ActWindow {
    pub(crate) first: u64,
    pub(crate) second: u64,
    pub(crate) third: u64,
    pub(crate) fourth: u64,
}

/// No ACT so far.
pub(crate) const NO_ACTS: ActWindow = ActWindow {
    first: 0,
    second: 0,
    third: 0,
    fourth: 0,
};

/// The window after one more ACT, which no longer counts from the cycle `end` on.
pub(crate) fn window_after(end: u64, w: ActWindow) -> ActWindow
    ensures { result ≡ window_after end w }
{
    ActWindow {
        first: w.first.max(end),
        second: w.second.max(w.first.min(end)),
        third: w.third.max(w.second.min(end)),
        fourth: w.fourth.max(w.third.min(end)),
    }
}
