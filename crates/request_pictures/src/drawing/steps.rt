//! Plots over a run in steps of equal length, the last of which may be shorter.

ghost use Rattle.measures.specs.Texts.{Grows};

use crate::drawing::markup::Piece;
use crate::drawing::page_text::Markup;

/// A run is divided into at most this many steps.
pub const STEPS: u64 = 200;

/// The axes of a plot by step.
#[derive(Clone, Copy)]
pub struct StepAxes {
    /// The cycles of the run.
    pub cycles: u64,
    /// The cycles of a step.
    pub step: u64,
    /// The value at the upper end, above 0.
    pub top: u64,
}

/// Goes on with a path by the value of a step, after the one before it or, where that has none, from a new beginning.
pub fn put_step(axes: StepAxes, place: u64, value: u64, joined: bool, out: &mut Markup)
    ensures { Grows out.old.text out.new.text }
{
    let start = axes.step.saturating_mul(place);
    let end = start.saturating_add(axes.step).min(axes.cycles);
    let y = axes.top.saturating_sub(value);
    if !joined {
        out.fill("M{} {}", &[Piece::Number(start), Piece::Number(y)]);
    }
    out.fill("V{}H{}", &[Piece::Number(y), Piece::Number(end)]);
}
