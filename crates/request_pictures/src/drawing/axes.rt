//! The ticks of axes, as lines across a picture with a label beside it. All labels of an axis are in one unit.

ghost use Rattle.std.specs.Prelude.{◌<◌};
ghost use Rattle.measures.specs.Texts.{Grows};

use crate::drawing::markup::Piece;
use crate::drawing::scales::{share_of, tick_step};
use measures::text_builder::TextBuilder;

/// What an axis of values counts.
#[derive(Clone, Copy)]
pub enum Quantity {
    /// Tenths of a percent.
    Percent,
    Count,
}

/// The unit of a count's labels, whose distance is `step`: how many it is, and its letter.
fn unit_of(step: u64) -> (u64, &'static str)
    ensures { 0 < result.0 }
{
    if step % 1_000_000_000 == 0 {
        (1_000_000_000, "G")
    } else if step % 1_000_000 == 0 {
        (1_000_000, "M")
    } else if step % 1_000 == 0 {
        (1_000, "k")
    } else {
        (1, "")
    }
}

// The label of a count at a tick.
fn count_label(value: u64, step: u64) -> [Piece; 2] {
    if value == 0 {
        return [Piece::Number(0), Piece::Text("")];
    }
    let (size, letter) = unit_of(step);
    [Piece::Grouped(value / size), Piece::Text(letter)]
}

// The label of a value at a tick.
fn label_of(quantity: Quantity, value: u64, step: u64) -> [Piece; 2] {
    match quantity {
        Quantity::Percent if step % 10 == 0 => [Piece::Number(value / 10), Piece::Text("")],
        Quantity::Percent => [Piece::Tenths(value), Piece::Text("")],
        Quantity::Count => count_label(value, step),
    }
}

// A tick, so many hundredths of a percent from where its axis begins, which `side` names.
fn put_tick(side: &'static str, offset: u64, label: [Piece; 2], out: &mut TextBuilder)
    ensures { Grows out.old out.new }
{
    let [number, unit] = label;
    out.fill(
        "<i class=\"{}{}%\"><b>{}{}</b></i>",
        &[Piece::Text(side), Piece::Hundredths(offset), number, unit],
    );
}

/// Appends the ticks of the values from 0 up to `top`: at most five above 0.
pub(crate) fn put_value_ticks(quantity: Quantity, top: u64, out: &mut TextBuilder)
    ensures { Grows out.old out.new }
{
    let step = tick_step(top, 5);
    for tick in 0..=top / step {
        let value = tick.saturating_mul(step);
        let offset = share_of(u128::from(value), top, 10_000);
        put_tick(
            "y\" style=\"bottom:",
            offset,
            label_of(quantity, value, step),
            out,
        );
    }
}

/// Appends the ticks of the cycles of a picture that shows the `span` cycles from `from` on: at most six.
pub(crate) fn put_cycle_ticks(from: u64, span: u64, out: &mut TextBuilder)
    ensures { Grows out.old out.new }
{
    let step = tick_step(span, 5);
    let end = from.saturating_add(span);
    for tick in from.div_ceil(step)..=end / step {
        let cycle = tick.saturating_mul(step);
        let offset = share_of(u128::from(cycle.saturating_sub(from)), span, 10_000);
        put_tick("x\" style=\"left:", offset, count_label(cycle, step), out);
    }
}
