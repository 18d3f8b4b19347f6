//! Runs beside the first of them.

ghost use Rattle.std.specs.Prelude.{◌^◌, ◌<◌, IfOk};
ghost use Rattle.compare.specs.Comparison.{names_text, head_text, heading_text, headings_text, comparison_text};
ghost use Rattle.measures.specs.Texts.{PutsWords};
ghost use Rattle.sim_base.specs.Texts.{IsText, texts_of};

use crate::layout::Layout;
use crate::lines::{CHANGE_WIDTH, VALUE_WIDTH, put_lines};
use crate::texts::{put_cell, put_label, put_words};
use measures::text_builder::TextBuilder;
use sim_base::message::Cycle;
use statistics::stats::Stats;
use std::alloc::{AllocError, Global};

// The names of the runs, a line for each.
fn put_names(names: &[&str], out: &mut TextBuilder)
    ensures { PutsWords (names_text (texts_of names.now)) out.old out.new }
{
    for (place, name) in names.iter().enumerate() {
        write!(out, "run {}: ", place + 1);
        out.push_str(name);
        out.push_str("\n");
    }
}

// What stands before the headings: on a screen the names of the runs, and room for the labels.
fn put_head(layout: Layout, names: &[&str], out: &mut TextBuilder)
    ensures { PutsWords (head_text layout (texts_of names.now)) out.old out.new }
{
    match layout {
        Layout::Screen => {
            put_names(names, out);
            out.push_str("\n");
            put_label(Layout::Screen, "", out);
        }
        Layout::Csv => out.push_str("measure"),
    }
}

// The headings of a run behind the first.
fn put_heading(layout: Layout, number: usize, out: &mut TextBuilder)
    ensures { PutsWords (heading_text layout number) out.old out.new }
{
    let run = format!(in out.alloc(); "run {number}");
    put_cell(layout, VALUE_WIDTH, run, out);
    let change = format!(in out.alloc(); "change {number} %");
    put_cell(layout, CHANGE_WIDTH, change, out);
}

// The headings of the first run, and of so many others.
fn put_headings(layout: Layout, others: usize, out: &mut TextBuilder)
    requires { others < 2 ^ 63 }
    ensures { PutsWords (headings_text layout others) out.old out.new }
{
    put_words(layout, VALUE_WIDTH, "run 1", out);
    for place in 0..others {
        put_heading(layout, place + 2, out);
    }
    out.push_str("\n");
}

// Runs beside the first of them.
fn put_comparison(
    layout: Layout,
    names: &[&str],
    runs: &[Stats],
    tails: &[Option<Cycle>],
    out: &mut TextBuilder,
)
    ensures { PutsWords (comparison_text layout (texts_of names.now) runs.now tails.now)
        out.old out.new }
{
    if let Some((base, others)) = runs.split_first() {
        put_head(layout, names, out);
        put_headings(layout, others.len(), out);
        put_lines(layout, base, others, tails, out);
    }
}

/// Runs beside the first of them, a column for each, and for each of the others how much it is above or below the
/// first, in percent of that, rounded half up. Nothing for no runs. On a screen the names of the runs stand first.
///
/// The lines are: the cycles; the entries a cycle of all cores, of the core that retired the fewest and of the one that
/// retired the most; RDs and WRs; the row hits in % of them; the cycles in which the data buses were taken, in % of the
/// cycles of all channels; the mean latency in cycles of the reads that were answered, and behind it the 99th
/// percentile, where it is given; the mean length of a queue, and the greatest; the cycles in which a refresh was due,
/// and in which writes were drained, in %; and the cores whose entries a cycle gained and lost most of those that the
/// run and the first one have, by their numbers, with the change of that core.
///
/// The 99th percentile of read latency is given of each run, or of none: then there is no line for it. It is missing of
/// a run of which no read was answered.
///
/// There is no value where there is nothing to divide by, of the drain where no channel ever does, or of a core where
/// none gained or lost; and no change where a value is missing or that of the first run is 0. Only memory can be
/// refused.
pub fn compare_text(
    alloc: Global,
    layout: Layout,
    names: &[&str],
    runs: &[Stats],
    tails: &[Option<Cycle>],
) -> Result<String, AllocError>
    ensures { IfOk result
        (IsText (comparison_text layout (texts_of names.now) runs.now tails.now)) }
{
    let mut text = TextBuilder::new(alloc);
    put_comparison(layout, names, runs, tails, &mut text);
    text.finish()
}
