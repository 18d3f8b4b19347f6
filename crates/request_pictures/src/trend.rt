//! The median and the 99th percentile of read latency over the run, in steps of equal length, the last of which may be
//! shorter.

ghost use Rattle.measures.specs.Texts.{Grows};

use crate::drawing::axes::Quantity;
use crate::drawing::markup::{LegendEntry, Piece};
use crate::drawing::page_text::Markup;
use crate::drawing::scales::axis_end;
use crate::drawing::steps::{STEPS, StepAxes, put_step};
use measures::percentiles::SortedValues;
use request_table::times::RequestTimes;
use std::alloc::{AllocError, Global};

static LEGEND: [LegendEntry; 2] = [
    LegendEntry {
        class: "pre",
        text: "median",
    },
    LegendEntry {
        class: "wr",
        text: "p99",
    },
];

/// The percentiles of the replies that came in a step, if there are any.
#[derive(Clone, Copy)]
struct Step {
    median: Option<u64>,
    p99: Option<u64>,
}

/// A line through percentiles.
#[derive(Clone, Copy)]
enum Line {
    Median,
    Tail,
}

impl Line {
    fn class(self) -> &'static str {
        match self {
            Line::Median => "open",
            Line::Tail => "hits",
        }
    }
}

impl Step {
    fn value(&self, line: Line) -> Option<u64> {
        match line {
            Line::Median => self.median,
            Line::Tail => self.p99,
        }
    }
}

// No latency for each step.
fn no_latencies(alloc: Global) -> Result<Vec<Vec<u64>>, AllocError> {
    let mut steps = Vec::new(alloc);
    for _ in 0..STEPS {
        steps.push(Vec::new(alloc))?;
    }
    Ok(steps)
}

// The latency of each reply, by the step in which it came.
fn latencies_by_step(
    alloc: Global,
    step: u64,
    requests: &[RequestTimes],
) -> Result<Vec<Vec<u64>>, AllocError> {
    let mut found = no_latencies(alloc)?;
    for request in requests {
        if let Some(cycle) = request.replied
            && let Some(latencies) = found.get_mut((cycle / step.max(1)) as usize)
        {
            latencies.push(cycle.saturating_sub(request.issued))?;
        }
    }
    Ok(found)
}

// The percentiles of each step.
fn steps_of(alloc: Global, latencies: Vec<Vec<u64>>) -> Result<Vec<Step>, AllocError> {
    let mut steps = Vec::new(alloc);
    for values in latencies {
        let values = SortedValues::of(values);
        steps.push(Step {
            median: values.percentile(50),
            p99: values.percentile(99),
        })?;
    }
    Ok(steps)
}

// The percentiles of the replies of a run, by the step in which they came.
fn trend_of(alloc: Global, step: u64, requests: &[RequestTimes]) -> Result<Vec<Step>, AllocError> {
    let latencies = latencies_by_step(alloc, step, requests)?;
    steps_of(alloc, latencies)
}

// The greatest 99th percentile of a step.
fn greatest_of(steps: &[Step]) -> u64 {
    let mut greatest = 0;
    for step in steps {
        greatest = step.p99.unwrap_or(0).max(greatest);
    }
    greatest
}

// A line through the values of the steps, with a gap at a step without one.
fn put_line(axes: StepAxes, line: Line, steps: &[Step], out: &mut Markup)
    ensures { Grows out.old.text out.new.text }
{
    out.fill("<path class=\"line {}\" d=\"", &[Piece::Text(line.class())]);
    let mut joined = false;
    for (place, step) in steps.iter().enumerate() {
        let value = step.value(line);
        if let Some(value) = value {
            put_step(axes, place as u64, value, joined, out);
        }
        joined = value.is_some();
    }
    out.push_str("\"/>");
}

// The plot.
fn put_plot(axes: StepAxes, steps: &[Step], out: &mut Markup)
    ensures { Grows out.old.text out.new.text }
{
    out.fill(
        "<div class=\"grid\">\n<figure><figcaption><b>all cores</b> read latency (cycles)</figcaption><div class=\"plot\"><svg preserveAspectRatio=\"none\" role=\"img\" aria-label=\"median and p99 of read latency over the run\" viewBox=\"0 0 {} {}\">",
        &[Piece::Number(axes.cycles), Piece::Number(axes.top)],
    );
    put_line(axes, Line::Median, steps, out);
    put_line(axes, Line::Tail, steps, out);
    out.push_str("</svg>");
    out.put_value_ticks(Quantity::Count, axes.top);
    out.put_cycle_ticks(0, axes.cycles);
    out.push_str("</div></figure>\n</div>\n");
}

// What there is to say of these steps of so many cycles, and their plot.
fn put_steps(cycles: u64, step: u64, steps: &[Step], out: &mut Markup)
    ensures { Grows out.old.text out.new.text }
{
    let top = axis_end(greatest_of(steps), 5).max(1);
    out.fill(
        "<h3>Over the run</h3><p>Of the reads whose reply came in a step of {} cycles. Where none came the lines have a gap.</p>",
        &[Piece::Grouped(step)],
    );
    out.put_legend(&LEGEND);
    put_plot(StepAxes { cycles, step, top }, steps, out);
}

/// Appends the median and the 99th percentile over a run of so many cycles.
pub(crate) fn put_trend(alloc: Global, cycles: u64, requests: &[RequestTimes], out: &mut Markup)
    ensures { Grows out.old.text out.new.text }
{
    let step = cycles.div_ceil(STEPS);
    match trend_of(alloc, step, requests) {
        Ok(steps) => put_steps(cycles, step, &steps, out),
        Err(AllocError) => out.refuse(),
    }
}
