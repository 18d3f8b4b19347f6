//! Why each core stopped issuing, as bars. A bar's unit is a cycle.

use request_pictures::drawing::markup::{LegendEntry, Piece};
use request_pictures::drawing::page_text::Markup;
use request_pictures::drawing::scales::share_of;
use statistics::cores::CoreStats;

/// What each part of a bar stands for.
static LEGEND: [LegendEntry; 5] = [
    LegendEntry {
        class: "credit",
        text: "credit: it held no credit for a channel",
    },
    LegendEntry {
        class: "window",
        text: "window: its window was full",
    },
    LegendEntry {
        class: "memory",
        text: "memory: it had issued a memory entry already",
    },
    LegendEntry {
        class: "width",
        text: "width: it had issued as many entries as it can",
    },
    LegendEntry {
        class: "end",
        text: "end: its trace was at an end",
    },
];

// A part of a core's bar: the cycles in which it stopped for a reason, after those of the reasons before it.
fn put_part(reason: &'static str, before: u64, cycles: u64, run: u64, out: &mut Markup) {
    if cycles == 0 {
        return;
    }
    out.fill(
        "<rect class=\"{}\" x=\"{}\" width=\"{}\" height=\"1\"><title>{}: {} %</title></rect>",
        &[
            Piece::Text(reason),
            Piece::Number(before),
            Piece::Number(cycles),
            Piece::Text(reason),
            Piece::Tenths(share_of(u128::from(cycles), run, 1_000)),
        ],
    );
}

fn put_bar(id: u64, run: u64, core: &CoreStats, out: &mut Markup) {
    out.fill(
        "<div class=\"bar\"><b>core {}</b><svg preserveAspectRatio=\"none\" role=\"img\" aria-label=\"why core {} stopped issuing\" viewBox=\"0 0 {} 1\">",
        &[Piece::Number(id), Piece::Number(id), Piece::Number(run)],
    );
    let window = core.stop_credit;
    let memory = window.saturating_add(core.stop_window);
    let width = memory.saturating_add(core.stop_memory);
    let end = width.saturating_add(core.stop_width);
    put_part("credit", 0, core.stop_credit, run, out);
    put_part("window", window, core.stop_window, run, out);
    put_part("memory", memory, core.stop_memory, run, out);
    put_part("width", width, core.stop_width, run, out);
    put_part("end", end, core.stop_end, run, out);
    out.push_str("</svg></div>\n");
}

/// Appends a bar for each core, with a legend.
pub(crate) fn put_stops(cycles: u64, cores: &[CoreStats], out: &mut Markup) {
    out.push_str("<h3>Why each core stopped issuing</h3><p>Each cycle counts for one reason.</p>");
    out.put_legend(&LEGEND);
    out.push_str("<div class=\"bars\">\n");
    for (id, core) in cores.iter().enumerate() {
        put_bar(id as u64, cycles, core, out);
    }
    out.push_str(
        "<div class=\"bar scale\"><b></b><p><i>0 %</i><i>25 %</i><i>50 %</i><i>75 %</i><i>100 %</i></p></div></div>\n",
    );
}
