//! The numbers of a run as tables.

use crate::run_pictures::cells::{
    Cell, CellForm, RunScale, channel_cells, core_cells, core_times, data_rate,
};
use measures::percentiles::Summary;
use request_pictures::drawing::markup::Piece;
use request_pictures::drawing::page_text::Markup;
use statistics::channels::ChannelStats;
use statistics::cores::CoreStats;
use std::alloc::{AllocError, Global};

fn put_cells(cells: &[Cell], out: &mut Markup) {
    for cell in cells {
        out.fill("<td>{}</td>", &[cell.piece()]);
    }
}

// The begin of a row.
fn put_label(label: Piece, out: &mut Markup) {
    out.fill("<tr><th scope=\"row\">{}</th>", &[label]);
}

// The heading of columns that are left out where a number is not given.
fn head_if(number: Option<u64>, heading: &'static str) -> &'static str {
    match number {
        Some(_) => heading,
        None => "",
    }
}

// The cells of a channel: the share of its REFs is left out where it is not known how many cycles one takes, and its
// data rate where the clock is not given.
fn put_channel_cells(scale: RunScale, channel: &ChannelStats, out: &mut Markup) {
    let cycles = scale.cycles;
    let cells = channel_cells(cycles, channel, scale.refresh.unwrap_or(0));
    match scale.refresh {
        Some(_) => put_cells(&cells, out),
        None => put_cells(&cells[..9], out),
    }
    match scale.khz {
        Some(khz) => put_cells(&[data_rate(cycles, channel, khz)], out),
        None => {}
    }
}

/// Appends the table of the channels.
pub(crate) fn put_channels(scale: RunScale, channels: &[ChannelStats], out: &mut Markup) {
    out.push_str(CHANNEL_HEAD);
    out.push_str(head_if(scale.refresh, REFRESH_HEAD));
    out.push_str(head_if(scale.khz, RATE_HEAD));
    out.push_str(CHANNEL_HEADINGS);
    for (id, channel) in channels.iter().enumerate() {
        put_label(Piece::Number(id as u64), out);
        put_channel_cells(scale, channel, out);
        out.push_str(ROW_TAIL);
    }
    out.push_str(TABLE_TAIL);
}

// The cells of a core; its times are left out where the clock is not given.
fn put_core_cells(scale: RunScale, core: &CoreStats, out: &mut Markup) {
    put_cells(&core_cells(scale.cycles, core), out);
    match scale.khz {
        Some(khz) => put_cells(&core_times(core, khz), out),
        None => {}
    }
}

/// Appends the table of the cores.
pub(crate) fn put_cores(scale: RunScale, cores: &[CoreStats], out: &mut Markup) {
    out.push_str(CORE_HEAD);
    out.push_str(head_if(scale.khz, TIMES_HEAD));
    out.push_str(CORE_HEADINGS);
    for (id, core) in cores.iter().enumerate() {
        put_label(Piece::Number(id as u64), out);
        put_core_cells(scale, core, out);
        out.push_str(ROW_TAIL);
    }
    out.push_str(TABLE_TAIL);
}

// A number of a core, by its column: the times come last, where the clock is given.
fn core_cell(scale: RunScale, core: &CoreStats, column: usize) -> Option<Cell> {
    let cells = core_cells(scale.cycles, core);
    if column < cells.len() {
        return cells.get(column).copied();
    }
    core_times(core, scale.khz?)
        .get(column - cells.len())
        .copied()
}

// A cell of a form with a number of a summary, all of which are of 64 bits.
fn summary_cell(form: CellForm, number: Option<u128>) -> Cell {
    Cell {
        form,
        number: number.map(|number| u64::try_from(number).unwrap_or(u64::MAX)),
    }
}

// The least, the median and the greatest number that there is in a column of the cores' table.
fn summary_of(
    alloc: Global,
    scale: RunScale,
    cores: &[CoreStats],
    column: usize,
) -> Result<[Cell; 3], AllocError> {
    let mut known = Vec::new(alloc);
    let mut form = CellForm::Count;
    for core in cores {
        if let Some(cell) = core_cell(scale, core, column) {
            form = cell.form;
            if let Some(number) = cell.number {
                known.push(u128::from(number))?;
            }
        }
    }
    let summary = Summary::of(known);
    Ok([
        summary_cell(form, summary.least),
        summary_cell(form, summary.median),
        summary_cell(form, summary.greatest),
    ])
}

// A row of these cells.
fn put_row(name: &'static str, cells: &[Cell], out: &mut Markup) {
    put_label(Piece::Text(name), out);
    put_cells(cells, out);
    out.push_str(ROW_TAIL);
}

/// Appends the least, the median and the greatest of each number of the cores.
pub(crate) fn put_core_summary(
    alloc: Global,
    scale: RunScale,
    cores: &[CoreStats],
    out: &mut Markup,
) {
    let columns = match scale.khz {
        Some(_) => &CORE_COLUMNS[..],
        None => &CORE_COLUMNS[..11],
    };
    out.push_str(SUMMARY_HEAD);
    for (column, name) in columns.iter().enumerate() {
        match summary_of(alloc, scale, cores, column) {
            Ok(cells) => put_row(*name, &cells, out),
            Err(AllocError) => out.refuse(),
        }
    }
    out.push_str(TABLE_TAIL);
}

const CHANNEL_HEAD: &str = r#"<h2 id="channels">Channels</h2>
<div class="wide"><table><thead>
<tr><th rowspan="2" scope="col">channel</th><th rowspan="2" scope="col">reads<br>(RD)</th><th rowspan="2" scope="col">writes<br>(WR)</th><th rowspan="2" scope="col">row hits<br>(%)</th><th rowspan="2" scope="col">data bus<br>(%)</th><th colspan="2" scope="colgroup">queue (requests)</th><th colspan="3" scope="colgroup">cycles (%)</th>"#;

const REFRESH_HEAD: &str = r#"<th rowspan="2" scope="col">REFs × nRFC<br>(% of cycles)</th>"#;

const RATE_HEAD: &str = r#"<th rowspan="2" scope="col">data rate<br>(GB/s)</th>"#;

const CHANNEL_HEADINGS: &str = r#"</tr>
<tr><th scope="col">mean</th><th scope="col">greatest</th><th scope="col">idle</th><th scope="col">refresh due</th><th scope="col">drain</th></tr>
</thead><tbody>
"#;

const CORE_HEAD: &str = r#"<div class="wide"><table><thead>
<tr><th rowspan="2" scope="col">core</th><th colspan="2" scope="colgroup">entries retired</th><th colspan="2" scope="colgroup">finish</th><th rowspan="2" scope="col">reads</th><th rowspan="2" scope="col">mean read latency<br>(cycles)</th><th colspan="5" scope="colgroup">why the core stopped issuing (% of cycles)</th>"#;

const TIMES_HEAD: &str =
    r#"<th rowspan="2" scope="col">finish<br>(ns)</th><th rowspan="2" scope="col">mean read latency<br>(ns)</th>"#;

const CORE_HEADINGS: &str = r#"</tr>
<tr><th scope="col">in all</th><th scope="col">a cycle</th><th scope="col">cycle</th><th scope="col">entries a cycle<br>up to it</th><th scope="col">end</th><th scope="col">width</th><th scope="col">window</th><th scope="col">memory</th><th scope="col">credit</th></tr>
</thead><tbody>
"#;

const SUMMARY_HEAD: &str = r#"<div class="wide"><table><thead>
<tr><th scope="col">of the cores</th><th scope="col">least</th><th scope="col">median</th><th scope="col">greatest</th></tr>
</thead><tbody>
"#;

/// The columns of the cores' table; the last two are there with a clock only.
static CORE_COLUMNS: [&str; 13] = [
    "entries retired",
    "entries a cycle",
    "finish (cycle)",
    "entries a cycle up to the finish",
    "reads",
    "mean read latency (cycles)",
    "end (% of cycles)",
    "width (% of cycles)",
    "window (% of cycles)",
    "memory (% of cycles)",
    "credit (% of cycles)",
    "finish (ns)",
    "mean read latency (ns)",
];

const ROW_TAIL: &str = "</tr>\n";

const TABLE_TAIL: &str = "</tbody></table></div>\n";
