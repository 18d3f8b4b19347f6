//! What a run has of a measure, and how that has changed.

ghost use Rattle.std.specs.Prelude.{◌≡◌, ◌^◌, ◌<◌, IfSome};
ghost use Rattle.compare.specs.Cells.{cell_of, change_towards, extreme_cell, measured_cell};

use crate::changes::{Change, change_of};
use crate::compared::{Measure, value_of};
use crate::cores::{Direction, Extreme, most};
use statistics::stats::Stats;

/// A value in billionths, and its change from the first run.
#[derive(Clone, Copy)]
pub(crate) struct Cell {
    pub(crate) value: Option<u128>,
    pub(crate) change: Option<Change>,
}

fn change_towards(direction: Direction, tenths: u128) -> Change
    ensures { result ≡ change_towards direction tenths }
{
    match direction {
        Direction::Gained => Change::Rise(tenths),
        Direction::Lost => Change::Fall(tenths),
    }
}

// The number of a core, and its change.
fn extreme_cell(direction: Direction, found: Extreme) -> Cell
    ensures cell { result ≡ extreme_cell direction found }
    ensures small { IfSome result.value (λ value. value < 2 ^ 116) }
{
    if found.tenths == 0 {
        return Cell {
            value: None,
            change: None,
        };
    }
    Cell {
        value: Some(1_000_000_000 * found.core as u128),
        change: Some(change_towards(direction, found.tenths)),
    }
}

fn measured_cell(measure: Measure, base: &Stats, run: &Stats) -> Cell
    ensures cell { result ≡ measured_cell measure base.now run.now }
    ensures small { IfSome result.value (λ value. value < 2 ^ 116) }
{
    let value = value_of(measure, run);
    Cell {
        value,
        change: change_of(value_of(measure, base), value),
    }
}

/// What a run has of a measure, and how that has changed from the first run.
#[tactic(auto, unfolding(crate::specs::Cells::cell_of))]
pub(crate) fn cell_of(measure: Measure, base: &Stats, run: &Stats) -> Cell
    ensures cell { result ≡ cell_of measure base.now run.now }
    ensures small { IfSome result.value (λ value. value < 2 ^ 116) }
{
    match measure {
        Measure::MostGained => extreme_cell(Direction::Gained, most(Direction::Gained, base, run)),
        Measure::MostLost => extreme_cell(Direction::Lost, most(Direction::Lost, base, run)),
        _ => measured_cell(measure, base, run),
    }
}
