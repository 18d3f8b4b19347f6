//! The timeline of a channel, in strips of at most `STRIP` cycles. A strip's units are a cycle and a pixel.

use crate::run_pictures::activity::{BURST, Channel, TimelineSpan};
use crate::run_pictures::lanes::{Lane, OpenRow};
use request_pictures::drawing::markup::{LegendEntry, Piece};
use request_pictures::drawing::page_text::Markup;
use sim_base::command::{Command, IssuedCommand, Kind};
use sim_base::place::BankId;

/// Cycles of a strip, at most.
const STRIP: u64 = 250;

/// How many commands before a strip may have data in it: a channel issues one a cycle, and data take four.
const EARLIER: usize = 3;

/// How far a lane is from the one above it, in pixels; the last two are free.
const PITCH: u64 = 14;

/// What the colours of a timeline stand for.
pub(crate) static LEGEND: [LegendEntry; 7] = [
    LegendEntry {
        class: "act",
        text: "ACT",
    },
    LegendEntry {
        class: "rd",
        text: "RD",
    },
    LegendEntry {
        class: "wr",
        text: "WR",
    },
    LegendEntry {
        class: "pre",
        text: "PRE",
    },
    LegendEntry {
        class: "prea",
        text: "PREA",
    },
    LegendEntry {
        class: "ref",
        text: "REF",
    },
    LegendEntry {
        class: "band",
        text: "a row is open",
    },
];

/// The name of a kind of command, and its class in the style sheet.
fn name_of(kind: Kind) -> (&'static str, &'static str) {
    match kind {
        Kind::Act => ("ACT", "act"),
        Kind::Rd => ("RD", "rd"),
        Kind::Wr => ("WR", "wr"),
        Kind::Pre => ("PRE", "pre"),
        Kind::Prea => ("PREA", "prea"),
        Kind::Ref => ("REF", "ref"),
    }
}

/// Some cycles of the window.
#[derive(Clone, Copy)]
struct Strip {
    span: TimelineSpan,
    /// Cycles that there is room for.
    room: u64,
    /// Cycles that a REF is drawn for.
    refresh: u64,
}

/// A box in a lane, from one cycle up to, but not including, another.
#[derive(Clone, Copy)]
struct Mark {
    lane: usize,
    from: u64,
    end: u64,
}

// The begin of a box, as far as it lies in the strip.
fn put_rect(strip: Strip, mark: Mark, class: &'static str, out: &mut Markup) {
    let from = mark.from.max(strip.span.from);
    let end = mark.end.min(strip.span.end);
    out.fill(
        "<rect class=\"{}\" x=\"{}\" y=\"{}\" width=\"{}\" height=\"12\"><title>",
        &[
            Piece::Text(class),
            Piece::Number(from.saturating_sub(strip.span.from)),
            Piece::Number(PITCH.saturating_mul(mark.lane as u64)),
            Piece::Number(end.saturating_sub(from)),
        ],
    );
}

// What a command names, but for its request.
fn put_operands(command: Command, out: &mut Markup) {
    match command {
        Command::Act { bank, row, .. } => {
            put_bank(bank, out);
            out.fill(", row {}", &[Piece::Number(row.into())])
        }
        Command::Rd {
            bank,
            row,
            column,
            ..
        }
        | Command::Wr {
            bank,
            row,
            column,
            ..
        } => {
            put_bank(bank, out);
            out.fill(
                ", row {}, column {}",
                &[Piece::Number(row.into()), Piece::Number(column.into())],
            )
        }
        Command::Pre { bank, .. } => put_bank(bank, out),
        Command::Prea { rank } | Command::Ref { rank } => out.fill(
            "rank {}, all banks",
            &[Piece::Number(rank.into())],
        ),
    }
}

fn put_bank(bank: BankId, out: &mut Markup) {
    out.fill(
        "rank {}, group {}, bank {}",
        &[
            Piece::Number(bank.rank.into()),
            Piece::Number(bank.group.into()),
            Piece::Number(bank.bank.into()),
        ],
    );
}

// A box for a command, which says all of it.
fn put_box(strip: Strip, mark: Mark, row: &IssuedCommand, out: &mut Markup) {
    let (name, class) = name_of(row.command.kind());
    put_rect(strip, mark, class, out);
    out.fill(
        "{} in cycle {}: ",
        &[Piece::Text(name), Piece::Number(row.cycle)],
    );
    put_operands(row.command, out);
    if let Some(source) = row.command.source() {
        out.fill(
            ", core {}, entry {}",
            &[
                Piece::Number(source.core.into()),
                Piece::Number(source.entry),
            ],
        );
    }
    out.push_str("</title></rect>\n");
}

// The band of a row that is open up to, but not including, a cycle.
fn put_band(strip: Strip, lane: usize, open: OpenRow, end: u64, out: &mut Markup) {
    let mark = Mark {
        lane,
        from: open.since,
        end,
    };
    put_rect(strip, mark, "band", out);
    out.fill(
        "row {} open, since cycle {}</title></rect>\n",
        &[Piece::Number(open.row.into()), Piece::Number(open.since)],
    );
}

// The bands of a lane, which follows the commands of the strip.
fn put_bands(
    strip: Strip,
    place: usize,
    lane: &mut Lane,
    commands: &[IssuedCommand],
    out: &mut Markup,
) {
    for row in commands {
        if let Some(closed) = lane.follow(row) {
            put_band(strip, place, closed, row.cycle, out);
        }
    }
    match lane.state.open {
        Some(open) => put_band(strip, place, open, strip.span.end, out),
        None => {}
    }
}

// The boxes of a lane.
fn put_boxes(
    strip: Strip,
    place: usize,
    lane: &Lane,
    commands: &[IssuedCommand],
    out: &mut Markup,
) {
    for row in commands {
        if lane.is_named_by(row.command) {
            let cycles = match row.command.kind() {
                Kind::Ref => strip.refresh,
                _ => 1,
            };
            let mark = Mark {
                lane: place,
                from: row.cycle,
                end: row.cycle.saturating_add(cycles),
            };
            put_box(strip, mark, row, out);
        }
    }
}

// The rest of a refresh that began before the strip.
fn put_refresh(strip: Strip, place: usize, lane: &Lane, out: &mut Markup) {
    let Some(cycle) = lane.state.refreshed else {
        return;
    };
    let end = cycle.saturating_add(strip.refresh);
    if end <= strip.span.from {
        return;
    }
    let row = IssuedCommand {
        cycle,
        channel: 0,
        command: Command::Ref { rank: lane.id.rank },
    };
    let mark = Mark {
        lane: place,
        from: cycle,
        end,
    };
    put_box(strip, mark, &row, out);
}

// The data of RDs and WRs on the bus, as far as they lie in the strip.
fn put_data(strip: Strip, lane: usize, commands: &[IssuedCommand], out: &mut Markup) {
    for row in commands {
        let mark = Mark {
            lane,
            from: row.cycle,
            end: row.cycle.saturating_add(BURST),
        };
        if row.command.is_column() && strip.span.from < mark.end {
            put_box(strip, mark, row, out);
        }
    }
}

// The label of a lane, and its ground.
fn put_label(place: usize, lane: &Lane, out: &mut Markup) {
    let class = if lane.id.group % 2 == 0 { "" } else { " odd" };
    out.fill(
        "<i class=\"lane{}\" style=\"top:{}px\"><b>r{} g{} b{}</b></i>",
        &[
            Piece::Text(class),
            Piece::Number(PITCH.saturating_mul(place as u64)),
            Piece::Number(lane.id.rank.into()),
            Piece::Number(lane.id.group.into()),
            Piece::Number(lane.id.bank.into()),
        ],
    );
}

// The grounds and labels of the lanes, the last of which is the data bus, and the ticks.
fn put_ground(strip: Strip, lanes: &[Lane], out: &mut Markup) {
    let bus = PITCH.saturating_mul(lanes.len() as u64);
    out.fill(
        "<div class=\"strip\" style=\"height:{}px\"><i class=\"lane\" style=\"top:{}px\"><b>data bus</b></i>",
        &[Piece::Number(bus.saturating_add(PITCH)), Piece::Number(bus)],
    );
    for (place, lane) in lanes.iter().enumerate() {
        put_label(place, lane, out);
    }
    out.put_cycle_ticks(strip.span.from, strip.room);
    out.fill(
        "<svg preserveAspectRatio=\"none\" role=\"img\" aria-label=\"commands from cycle {} to before {}\" viewBox=\"0 0 {} {}\">\n",
        &[
            Piece::Grouped(strip.span.from),
            Piece::Grouped(strip.span.end),
            Piece::Number(strip.room),
            Piece::Number(bus.saturating_add(PITCH)),
        ],
    );
}

// Where the commands from a cycle on begin.
fn place_of(commands: &[IssuedCommand], cycle: u64) -> usize {
    commands.partition_point(|row| row.cycle < cycle)
}

// The lanes of a strip with its commands.
fn put_lanes(strip: Strip, lanes: &mut [Lane], commands: &[IssuedCommand], out: &mut Markup) {
    for (place, lane) in lanes.iter_mut().enumerate() {
        put_refresh(strip, place, lane, out);
        put_bands(strip, place, lane, commands, out);
        put_boxes(strip, place, lane, commands, out);
    }
}

// A strip of a window's commands; those just before it may have data that reach into it.
fn put_strip(strip: Strip, lanes: &mut [Lane], shown: &[IssuedCommand], out: &mut Markup) {
    let first = place_of(shown, strip.span.from);
    let last = place_of(shown, strip.span.end);
    let earlier = first.saturating_sub(EARLIER);
    put_ground(strip, lanes, out);
    put_lanes(strip, lanes, shown.get(first..last).unwrap_or(&[]), out);
    put_data(
        strip,
        lanes.len(),
        shown.get(earlier..last).unwrap_or(&[]),
        out,
    );
    out.push_str("</svg></div>\n");
}

// The strips of a window.
fn put_strips(
    span: TimelineSpan,
    refresh: u64,
    lanes: &mut [Lane],
    shown: &[IssuedCommand],
    out: &mut Markup,
) {
    let cycles = span.end.saturating_sub(span.from);
    let room = cycles.min(STRIP).max(1);
    for number in 0..cycles.div_ceil(room) {
        let from = number.saturating_mul(room).saturating_add(span.from);
        let end = from.saturating_add(room).min(span.end);
        let strip = Strip {
            span: TimelineSpan { from, end },
            room,
            refresh,
        };
        put_strip(strip, lanes, shown, out);
    }
}

/// Appends the timeline of the channel `id`, with REFs of `refresh` cycles.
pub(crate) fn put_timeline(
    id: u64,
    span: TimelineSpan,
    refresh: u64,
    channel: &mut Channel,
    out: &mut Markup,
) {
    for lane in channel.lanes.iter_mut() {
        lane.state = lane.before;
    }
    out.fill(
        "<details open><summary>channel {}</summary><div class=\"strips\">\n",
        &[Piece::Number(id)],
    );
    put_strips(span, refresh, &mut channel.lanes, &channel.shown, out);
    out.push_str("</div></details>\n");
}
