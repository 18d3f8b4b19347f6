//! The lines of a comparison.

ghost use Rattle.std.specs.Prelude.{flat_map};
ghost use Rattle.compare.specs.Lines.{cells_text, beginning_text, line_text, lines_text};
ghost use Rattle.measures.specs.Texts.{PutsWords};

use crate::cells::cell_of;
use crate::compared::{FIRST_MEASURES, LAST_MEASURES, Measure, decimals_of, label_of, value_of};
use crate::layout::Layout;
use crate::tails::put_tails;
use crate::texts::{change_text, put_cell, put_label, value_text};
use measures::text_builder::TextBuilder;
use sim_base::message::Cycle;
use statistics::stats::Stats;

/// The width of a value, in characters.
pub(crate) const VALUE_WIDTH: usize = 12;

/// The width of a change.
pub(crate) const CHANGE_WIDTH: usize = 10;

// The value of a run, and its change from the first one.
fn put_cells(layout: Layout, base: &Stats, measure: Measure, run: &Stats, out: &mut TextBuilder)
    ensures { PutsWords (cells_text layout base.now measure run.now) out.old out.new }
{
    let cell = cell_of(measure, base, run);
    let value = value_text(out.alloc(), layout, decimals_of(measure), cell.value);
    put_cell(layout, VALUE_WIDTH, value, out);
    let change = change_text(out.alloc(), layout, cell.change);
    put_cell(layout, CHANGE_WIDTH, change, out);
}

// The label of a measure, and the value of the first run.
fn put_beginning(layout: Layout, base: &Stats, measure: Measure, out: &mut TextBuilder)
    ensures { PutsWords (beginning_text layout base.now measure) out.old out.new }
{
    put_label(layout, label_of(measure), out);
    let value = value_text(
        out.alloc(),
        layout,
        decimals_of(measure),
        value_of(measure, base),
    );
    put_cell(layout, VALUE_WIDTH, value, out);
}

// The line of a measure.
fn put_line(layout: Layout, base: &Stats, others: &[Stats], measure: Measure, out: &mut TextBuilder)
    ensures { PutsWords (line_text layout base.now others.now measure) out.old out.new }
{
    put_beginning(layout, base, measure, out);
    for run in others {
        put_cells(layout, base, measure, run, out);
    }
    out.push_str("\n");
}

// A line for each of these measures.
fn put_lines_of(
    layout: Layout,
    base: &Stats,
    others: &[Stats],
    measures: &[Measure],
    out: &mut TextBuilder,
)
    ensures { PutsWords (flat_map (line_text layout base.now others.now) measures.now)
        out.old out.new }
{
    for measure in measures {
        put_line(layout, base, others, *measure, out);
    }
}

/// A line for each measure, and one for p99 where it is known of each run.
pub(crate) fn put_lines(
    layout: Layout,
    base: &Stats,
    others: &[Stats],
    tails: &[Option<Cycle>],
    out: &mut TextBuilder,
)
    ensures { PutsWords (lines_text layout base.now others.now tails.now) out.old out.new }
{
    put_lines_of(layout, base, others, &FIRST_MEASURES, out);
    put_tails(layout, tails, out);
    put_lines_of(layout, base, others, &LAST_MEASURES, out);
}
