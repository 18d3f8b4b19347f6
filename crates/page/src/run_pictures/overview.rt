//! The whole run in steps: plots of what each channel did. A picture's units are the run's cycles and the
//! values of its axis.

use crate::run_pictures::activity::{Activity, Step, Value};
use request_pictures::drawing::axes::Quantity;
use request_pictures::drawing::markup::{LegendEntry, Piece};
use request_pictures::drawing::page_text::Markup;
use request_pictures::drawing::scales::axis_end;
use request_pictures::drawing::steps::{StepAxes, put_step};

/// How values are drawn.
#[derive(Clone, Copy)]
enum SeriesForm {
    /// The area below them is filled. Each step has a value.
    Area,
    /// A line, with a gap at a step without a value.
    Line,
}

/// Values by step, in the colour of a class of the style sheet.
#[derive(Clone, Copy)]
struct Series {
    class: &'static str,
    form: SeriesForm,
    value: Value,
}

/// What is plotted for each channel: its series, later ones drawn over earlier ones.
#[derive(Clone, Copy)]
struct Plot {
    heading: &'static str,
    name: &'static str,
    quantity: Quantity,
    /// No value of a series is above this one.
    greatest: Value,
    series: &'static [Series],
    legend: &'static [LegendEntry],
}

static PLOTS: [Plot; 4] = [
    Plot {
        heading: "<h3>Data bus</h3><p>Cycles in which data move, four for each RD or WR, booked in the step of their command.</p>",
        name: "data bus (% of cycles)",
        quantity: Quantity::Percent,
        greatest: Value::BusUse,
        series: &[
            Series {
                class: "bus pale",
                form: SeriesForm::Area,
                value: Value::BusUse,
            },
            Series {
                class: "line bus",
                form: SeriesForm::Line,
                value: Value::BusUse,
            },
        ],
        legend: &[],
    },
    Plot {
        heading: "<h3>Row hits</h3><p>A RD or WR is a row hit here unless the last ACT of its bank was issued in the name of its own request. Where a step has neither RD nor WR the line has a gap.</p>",
        name: "row hits (% of RD and WR)",
        quantity: Quantity::Percent,
        greatest: Value::Hits,
        series: &[Series {
            class: "line hits",
            form: SeriesForm::Line,
            value: Value::Hits,
        }],
        legend: &[],
    },
    Plot {
        heading: "<h3>Commands</h3><p>Cycles in which the channel issues a command, stacked by kind.</p>",
        name: "commands (% of cycles)",
        quantity: Quantity::Percent,
        greatest: Value::Stacked(4),
        series: &[
            Series {
                class: "ref",
                form: SeriesForm::Area,
                value: Value::Stacked(4),
            },
            Series {
                class: "pre",
                form: SeriesForm::Area,
                value: Value::Stacked(3),
            },
            Series {
                class: "act",
                form: SeriesForm::Area,
                value: Value::Stacked(2),
            },
            Series {
                class: "wr",
                form: SeriesForm::Area,
                value: Value::Stacked(1),
            },
            Series {
                class: "rd",
                form: SeriesForm::Area,
                value: Value::Stacked(0),
            },
        ],
        legend: &[
            LegendEntry {
                class: "ref",
                text: "REF",
            },
            LegendEntry {
                class: "pre",
                text: "PRE, PREA",
            },
            LegendEntry {
                class: "act",
                text: "ACT",
            },
            LegendEntry {
                class: "wr",
                text: "WR",
            },
            LegendEntry {
                class: "rd",
                text: "RD",
            },
        ],
    },
    Plot {
        heading: "<h3>Open banks</h3><p>Banks with an open row at the end of each step.</p>",
        name: "open banks",
        quantity: Quantity::Count,
        greatest: Value::OpenBanks,
        series: &[
            Series {
                class: "open pale",
                form: SeriesForm::Area,
                value: Value::OpenBanks,
            },
            Series {
                class: "line open",
                form: SeriesForm::Line,
                value: Value::OpenBanks,
            },
        ],
        legend: &[],
    },
];

fn put_steps(axes: StepAxes, value: Value, steps: &[Step], mut joined: bool, out: &mut Markup) {
    for (place, step) in steps.iter().enumerate() {
        let found = step.value(value);
        if let Some(value) = found {
            put_step(axes, place as u64, value, joined, out);
        }
        joined = found.is_some();
    }
}

fn put_series(axes: StepAxes, series: &Series, steps: &[Step], out: &mut Markup) {
    out.fill("<path class=\"{}\" d=\"", &[Piece::Text(series.class)]);
    match series.form {
        SeriesForm::Area => {
            out.fill("M0 {}", &[Piece::Number(axes.top)]);
            put_steps(axes, series.value, steps, true, out);
            out.fill("V{}Z", &[Piece::Number(axes.top)]);
        }
        SeriesForm::Line => put_steps(axes, series.value, steps, false, out),
    }
    out.push_str("\"/>");
}

// A plot for the channel `id`.
fn put_plot(plot: &Plot, axes: StepAxes, id: u64, steps: &[Step], out: &mut Markup) {
    out.fill(
        "<figure><figcaption><b>channel {}</b> {}</figcaption><div class=\"plot\"><svg preserveAspectRatio=\"none\" role=\"img\" aria-label=\"channel {}: {}\" viewBox=\"0 0 {} {}\">",
        &[
            Piece::Number(id),
            Piece::Text(plot.name),
            Piece::Number(id),
            Piece::Text(plot.name),
            Piece::Number(axes.cycles),
            Piece::Number(axes.top),
        ],
    );
    for series in plot.series {
        put_series(axes, series, steps, out);
    }
    out.push_str("</svg>");
    out.put_value_ticks(plot.quantity, axes.top);
    out.put_cycle_ticks(0, axes.cycles);
    out.push_str("</div></figure>\n");
}

// The greatest value of a series in some steps, or `least` if that is greater.
fn greatest_of(value: Value, steps: &[Step], least: u64) -> u64 {
    let mut greatest = least;
    for step in steps {
        greatest = step.value(value).unwrap_or(0).max(greatest);
    }
    greatest
}

// The upper end of the axes of a plot, the same for all channels. An axis of percent ends at 1 or above, and at 100.
fn top_of(plot: &Plot, activity: &Activity) -> u64 {
    let (mut greatest, most) = match plot.quantity {
        Quantity::Percent => (10, 1_000),
        Quantity::Count => (1, u64::MAX),
    };
    for channel in &activity.channels {
        greatest = greatest_of(plot.greatest, &channel.steps, greatest);
    }
    axis_end(greatest.min(most), 5)
}

// A plot for each channel, below its heading and its legend.
fn put_section(plot: &Plot, activity: &Activity, out: &mut Markup) {
    let axes = StepAxes {
        cycles: activity.cycles,
        step: activity.step,
        top: top_of(plot, activity),
    };
    out.push_str(plot.heading);
    if !plot.legend.is_empty() {
        out.put_legend(plot.legend);
    }
    out.push_str("<div class=\"grid\">\n");
    for (id, channel) in activity.channels.iter().enumerate() {
        put_plot(plot, axes, id as u64, &channel.steps, out);
    }
    out.push_str("</div>\n");
}

/// Appends the plots of the whole run.
pub(crate) fn put_overview(activity: &Activity, out: &mut Markup) {
    out.fill(
        "<h2 id=\"steps\">The run in steps of {} cycles</h2>\n",
        &[Piece::Grouped(activity.step)],
    );
    for plot in &PLOTS {
        put_section(plot, activity, out);
    }
}
