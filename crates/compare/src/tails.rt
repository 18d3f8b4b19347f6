//! The line of the 99th percentile of read latency.

ghost use Rattle.std.specs.Prelude.{◌≡◌, ◌^◌, ◌<◌, IfSome};
ghost use Rattle.measures.specs.Texts.{PutsWords};
ghost use Rattle.compare.specs.Tails.{tail_value, tail_text, tail_cells_text, tail_line_text, tails_text};

use crate::changes::change_of;
use crate::compared::Decimals;
use crate::layout::Layout;
use crate::lines::{CHANGE_WIDTH, VALUE_WIDTH};
use crate::quotients::quotient;
use crate::texts::{change_text, put_cell, put_label, value_text};
use measures::text_builder::TextBuilder;
use sim_base::message::Cycle;

// The p99 of a run, in billionths, where one of its reads was answered.
fn tail_value(tail: Option<Cycle>) -> Option<u128>
    ensures value { result ≡ tail_value tail }
    ensures small { IfSome result (λ value. value < 2 ^ 116) }
{
    match tail {
        Some(cycles) => quotient(u128::from(cycles), 1),
        None => None,
    }
}

// The p99 of a run.
fn put_tail(layout: Layout, tail: Option<Cycle>, out: &mut TextBuilder)
    ensures { PutsWords (tail_text layout tail) out.old out.new }
{
    let value = value_text(out.alloc(), layout, Decimals::Zero, tail_value(tail));
    put_cell(layout, VALUE_WIDTH, value, out);
}

// The p99 of a run, and its change from the first one.
fn put_tail_cells(layout: Layout, base: Option<Cycle>, tail: Option<Cycle>, out: &mut TextBuilder)
    ensures { PutsWords (tail_cells_text layout base tail) out.old out.new }
{
    put_tail(layout, tail, out);
    let change = change_of(tail_value(base), tail_value(tail));
    put_cell(
        layout,
        CHANGE_WIDTH,
        change_text(out.alloc(), layout, change),
        out,
    );
}

// The line of the first run and of others.
fn put_tail_line(
    layout: Layout,
    base: Option<Cycle>,
    others: &[Option<Cycle>],
    out: &mut TextBuilder,
)
    ensures { PutsWords (tail_line_text layout base others.now) out.old out.new }
{
    put_label(layout, "read latency p99", out);
    put_tail(layout, base, out);
    for tail in others {
        put_tail_cells(layout, base, *tail, out);
    }
    out.push_str("\n");
}

/// The line of all runs; nothing for none.
pub(crate) fn put_tails(layout: Layout, tails: &[Option<Cycle>], out: &mut TextBuilder)
    ensures { PutsWords (tails_text layout tails.now) out.old out.new }
{
    if let Some((base, others)) = tails.split_first() {
        put_tail_line(layout, *base, others, out);
    }
}
