//! What is told of a run in progress.

ghost use Rattle.std.specs.Prelude.{◌≡◌, ◌/◌, ◌*◌};
ghost use Rattle.std.specs.Duration.{as_nanos};
ghost use Rattle.progress.specs.Figures.{quotient, percent_of, left_by, left_of, figures_of};
ghost use Rattle.sim_base.specs.Earlier.{earlier};

use sim_base::message::Cycle;
use simulation::watch::Stage;
use std::time::Duration;

/// A greater count counts as this one.
const MOST: u128 = 1 << 80;

/// A longer time, in milliseconds, counts as this one: 34 years.
const LONGEST: u128 = 1 << 40;

/// What is told of a run, each number rounded down. What cannot be known yet is left out.
#[derive(Clone, Copy, PartialEq, Debug)]
pub struct Figures {
    /// How many cycles are over.
    pub cycles: Cycle,
    /// How many in a hundred of the traces' entries have retired.
    pub percent: Option<u128>,
    /// How many cycles there were in a second.
    pub rate: Option<u128>,
    /// How many seconds are left, if the run goes on as it has so far.
    pub left: Option<u128>,
}

// How many in a hundred of the traces' entries have retired.
fn percent_of(stage: Stage) -> Option<u128>
    ensures { result ≡ percent_of stage }
{
    let retired = stage.retired?;
    (100 * retired.min(MOST)).checked_div(stage.entries)
}

// How many cycles there were in a second.
fn rate_of(cycles: Cycle, millis: u128) -> Option<u128>
    ensures { result ≡ quotient (1000 * cycles) millis }
{
    (1_000 * u128::from(cycles)).checked_div(millis)
}

// How many seconds are left where `millis` milliseconds were spent on a part of the whole.
fn left_by(millis: u128, part: u128, whole: u128) -> Option<u128>
    ensures { result ≡ left_by millis part whole }
{
    let rest = whole.saturating_sub(part).min(MOST);
    let millis = (millis.min(LONGEST) * rest).checked_div(part)?;
    Some(millis / 1_000)
}

fn earlier(one: Option<u128>, other: Option<u128>) -> Option<u128>
    ensures { result ≡ earlier one other }
{
    match (one, other) {
        (Some(one), Some(other)) => Some(one.min(other)),
        (Some(one), None) => Some(one),
        (None, other) => other,
    }
}

// How many seconds are left: up to the limit, or, where the run ends drained, until all has retired, whichever is
// sooner.
fn left_of(stage: Stage, millis: u128) -> Option<u128>
    ensures { result ≡ left_of stage millis }
{
    let by_cycles = left_by(millis, u128::from(stage.now), u128::from(stage.limit));
    match stage.retired {
        Some(retired) if stage.ends_drained => {
            earlier(by_cycles, left_by(millis, retired, stage.entries))
        }
        _ => by_cycles,
    }
}

impl Figures {
    /// What is told of a run that has gone on for this long.
    pub fn of(stage: Stage, elapsed: Duration) -> Figures
        ensures { result ≡ figures_of stage (as_nanos elapsed / 1_000_000) }
    {
        let millis = elapsed.as_millis();
        Figures {
            cycles: stage.now,
            percent: percent_of(stage),
            rate: rate_of(stage.now, millis),
            left: left_of(stage, millis),
        }
    }
}
