//! A run as one HTML document.

ghost use Rattle.std.specs.Prelude.{OnOk};
ghost use Rattle.page.specs.Document.{WritesDocument};

use crate::run_pictures::activity::{Activity, Channel, TimelineSpan};
use crate::run_pictures::cells::RunScale;
use crate::run_pictures::overview::put_overview;
use crate::run_pictures::settings::put_settings;
use crate::run_pictures::stops::put_stops;
use crate::run_pictures::strips::{LEGEND, put_timeline};
use crate::run_pictures::style::STYLE;
use crate::run_pictures::tables::{put_channels, put_core_summary, put_cores};
use command_table::list::CommandList;
use request_pictures::drawing::markup::Piece;
use request_pictures::drawing::page_text::Markup;
use request_pictures::drawing::scales::share_of;
use request_pictures::section::put_requests;
use request_table::times::RequestTimes;
use sim_base::config::Config;
use statistics::cores::CoreStats;
use statistics::stats::Stats;
use std::alloc::{AllocError, Global};
use std::io::{self, Write};

/// More cores than this have a summary, with their table and their bars folded.
const MOST_CORES: usize = 16;

/// What a document shows: a run, its configuration, its clock in kHz and its requests if they are given, and the window
/// of its timeline, which is from a cycle up to, but not including, another. The commands are taken in the order of the
/// list.
#[derive(Clone, Copy)]
pub struct Run<'a> {
    pub stats: &'a Stats,
    pub commands: &'a CommandList,
    pub config: Option<&'a Config>,
    pub khz: Option<u64>,
    pub requests: Option<&'a [RequestTimes]>,
    pub from: u64,
    pub end: u64,
}

// A count, and what it counts, in the plural unless the count is 1.
fn put_count(form: &'static str, count: u64, out: &mut Markup) {
    let ending = if count == 1 { "" } else { "s" };
    out.fill(form, &[Piece::Grouped(count), Piece::Text(ending)]);
}

// The style sheet, and what was run: how many cycles, cores, channels and commands.
fn put_head(run: &Run<'_>, out: &mut Markup) {
    let stats = run.stats;
    out.push_str(STYLE);
    out.push_str(BODY);
    put_count("<b>{}</b> cycle{}", stats.cycles, out);
    put_count(", <b>{}</b> core{}", stats.cores.len() as u64, out);
    put_count(", <b>{}</b> channel{}", stats.channels.len() as u64, out);
    put_count(", <b>{}</b> command{}", run.commands.len() as u64, out);
}

// How many ns the cycles take, and the clock in MHz, where this is given.
fn put_time(cycles: u64, khz: Option<u64>, out: &mut Markup) {
    let Some(khz) = khz else {
        return;
    };
    out.fill(
        ", <b>{}</b> ns with a clock of <b>{}</b> MHz",
        &[
            Piece::Grouped(share_of(u128::from(cycles), khz, 1_000_000)),
            Piece::Thousandths(khz),
        ],
    );
}

// The cores: where there are many, a summary with all else folded.
fn put_all_cores(alloc: Global, scale: RunScale, cores: &[CoreStats], out: &mut Markup) {
    out.push_str("<h2 id=\"cores\">Cores</h2>\n");
    if cores.len() <= MOST_CORES {
        put_cores(scale, cores, out);
        put_stops(scale.cycles, cores, out);
        return;
    }
    put_core_summary(alloc, scale, cores, out);
    out.push_str("<details><summary>each core</summary>\n");
    put_cores(scale, cores, out);
    put_stops(scale.cycles, cores, out);
    out.push_str("</details>\n");
}

// What the timeline shows, where it is known how many cycles a REF takes, and where it is not: the configuration, which
// tells this, also tells when data move.
fn put_caption(refresh: Option<u64>, out: &mut Markup) {
    let (of_refresh, of_data) = match refresh {
        Some(_) => (REFRESH_OF_CONFIG, DATA_OF_CONFIG),
        None => (REFRESH_ALONE, DATA_ALONE),
    };
    out.fill(TIMELINE, &[Piece::Text(of_refresh), Piece::Text(of_data)]);
}

// The begin of the timeline of a window, or that the run has no cycle there.
fn put_window_head(span: TimelineSpan, refresh: Option<u64>, out: &mut Markup) {
    let first = Piece::Grouped(span.from);
    if span.end <= span.from {
        out.fill(
            "<h2 id=\"timeline\">Timeline</h2><p>The run has no cycle from {} on in the window.</p>\n",
            &[first],
        );
        return;
    }
    out.fill(
        "<h2 id=\"timeline\">Timeline from cycle {} to before {}</h2>\n",
        &[first, Piece::Grouped(span.end)],
    );
    put_caption(refresh, out);
    out.put_legend(&LEGEND);
}

// What the channels did in the window. A REF is drawn for as long as it takes, or for a cycle if that is not known.
fn put_window(
    span: TimelineSpan,
    refresh: Option<u64>,
    channels: &mut [Channel],
    out: &mut Markup,
) {
    put_window_head(span, refresh, out);
    if span.from < span.end {
        for (id, channel) in channels.iter_mut().enumerate() {
            put_timeline(id as u64, span, refresh.unwrap_or(1), channel, out);
        }
    }
}

// What the channels of a run did.
fn activity_of(alloc: Global, run: &Run<'_>, span: TimelineSpan) -> Result<Activity, AllocError> {
    let mut activity = Activity::idle(alloc, run.stats)?;
    activity.add_run(run.commands, span)?;
    Ok(activity)
}

// What the channels did over the whole run and in the window, with REFs of `refresh` cycles, if these are known.
fn put_activity(
    alloc: Global,
    run: &Run<'_>,
    span: TimelineSpan,
    refresh: Option<u64>,
    out: &mut Markup,
) {
    match activity_of(alloc, run, span) {
        Ok(mut activity) => {
            put_overview(&activity, out);
            put_window(span, refresh, &mut activity.channels, out);
        }
        Err(AllocError) => out.refuse(),
    }
}

// Where a page with commands leads to.
fn links_of(run: &Run<'_>) -> &'static str {
    if run.commands.is_empty() {
        ""
    } else if run.requests.is_some() {
        LINKS_WITH_LATENCY
    } else {
        LINKS
    }
}

// What the requests tell, if they are given.
fn put_latency(alloc: Global, run: &Run<'_>, out: &mut Markup) {
    let Some(requests) = run.requests else {
        return;
    };
    let n_cl = match run.config {
        Some(config) => Some(config.timing.n_cl),
        None => None,
    };
    put_requests(alloc, run.stats, n_cl, requests, out);
}

// The tables, and what the channels did if there are commands.
fn put_run(alloc: Global, run: &Run<'_>, out: &mut Markup) {
    let stats = run.stats;
    let refresh = match run.config {
        Some(config) => Some(u64::from(config.timing.n_rfc)),
        None => None,
    };
    let span = TimelineSpan {
        from: run.from,
        end: run.end,
    };
    out.push_str(links_of(run));
    let scale = RunScale {
        cycles: stats.cycles,
        refresh,
        khz: run.khz,
    };
    put_channels(scale, &stats.channels, out);
    put_all_cores(alloc, scale, &stats.cores, out);
    put_latency(alloc, run, out);
    if run.commands.is_empty() {
        out.push_str("<p>No command was issued.</p>\n");
    } else {
        put_activity(alloc, run, span, refresh, out);
    }
}

// All that stands in the document.
fn contents_of(alloc: Global, run: &Run<'_>) -> Result<String, AllocError> {
    let stats = run.stats;
    let mut page = Markup::new(alloc);
    put_head(run, &mut page);
    put_time(stats.cycles, run.khz, &mut page);
    page.push_str("</p>\n");
    if let Some(config) = run.config {
        put_settings(config, &mut page);
    }
    if stats.cycles == 0 {
        page.push_str("<p>The run has no cycles.</p>\n");
    } else {
        put_run(alloc, run, &mut page);
    }
    page.finish()
}

// Writes the contents between the begin and the end of a document.
fn write_framed<W: Write>(contents: &str, writer: &mut W) -> io::Result<()>
    ensures { OnOk result (WritesDocument (W.contents writer.old) (W.contents writer.new)) }
{
    writer.write_all(HEAD.as_bytes())?;
    writer.write_all(contents.as_bytes())?;
    writer.write_all(TAIL.as_bytes())
}

/// Writes a run as one HTML document: its statistics, how long its reads took if its requests are given, what its
/// channels did over the whole run, and what they did in the window, one command after the other.
///
/// # Errors
///
/// An error of `OutOfMemory` where memory is refused, and the writer's error where it fails.
pub fn write_document<W: Write>(alloc: Global, run: &Run<'_>, writer: &mut W) -> io::Result<()>
    ensures { OnOk result (WritesDocument (W.contents writer.old) (W.contents writer.new)) }
{
    let contents = contents_of(alloc, run)?;
    write_framed(contents.as_str(), writer)
}

const HEAD: &str = r#"<!DOCTYPE html>
<html lang="en">
<head>
<meta charset="utf-8">
<meta name="viewport" content="width=device-width, initial-scale=1">
<title>dramsim run</title>
<style>
"#;

const BODY: &str = r#"</style>
</head>
<body>
<main>
<h1>dramsim run</h1>
<p class="run">"#;

const LINKS: &str =
    r##"<nav><a href="#channels">Channels</a><a href="#cores">Cores</a><a href="#steps">Whole run</a><a href="#timeline">Timeline</a></nav>
"##;

const LINKS_WITH_LATENCY: &str =
    r##"<nav><a href="#channels">Channels</a><a href="#cores">Cores</a><a href="#latency">Read latency</a><a href="#steps">Whole run</a><a href="#timeline">Timeline</a></nav>
"##;

const TIMELINE: &str =
    r#"<p>A lane for each bank that the run uses (r rank, g group, b bank), with a box for each command in its cycle; PREA and REF are in each lane of their rank, and a REF {}. The tooltip of a box has the command's fields. On the data bus each RD and WR takes four cycles, drawn from its command's cycle on{}.</p>
"#;

const REFRESH_OF_CONFIG: &str = "is drawn for the cycles that it takes by the configuration (nRFC)";

const REFRESH_ALONE: &str =
    "has a box of one cycle unless the configuration is given, which says how many it takes (nRFC)";

const DATA_OF_CONFIG: &str = ", though its data move nCL (RD) or nCWL (WR) cycles later";

const DATA_ALONE: &str = ": the tables do not have the latency (nCL, nCWL) after which data move";

const TAIL: &str = "</main>\n</body>\n</html>\n";
