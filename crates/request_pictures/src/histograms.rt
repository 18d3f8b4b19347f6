//! A histogram of the read latency of each core, all on the same axes.

ghost use Rattle.measures.specs.Texts.{Grows, Puts};
ghost use Rattle.request_pictures.specs.Section.{Begins, histograms_head};

use crate::drawing::axes::Quantity;
use crate::drawing::markup::{LegendEntry, Piece};
use crate::drawing::page_text::Markup;
use crate::drawing::scales::axis_end;
use measures::request_measures::latency::{
    Latencies, core_latency_percentiles, of_core, read_latencies,
};
use request_table::times::RequestTimes;
use sim_base::message::CoreId;
use std::alloc::{AllocError, Global};

/// How many bins a histogram has.
const BINS: usize = 50;

/// More cores than this are folded.
const MOST_CORES: usize = 16;

static LEGEND: [LegendEntry; 3] = [
    LegendEntry {
        class: "pre",
        text: "p50: half of the reads took no longer",
    },
    LegendEntry {
        class: "act",
        text: "p95",
    },
    LegendEntry {
        class: "wr",
        text: "p99",
    },
];

/// How many reads of a core took how long, and their percentiles, if there are any.
#[derive(Clone, Copy)]
struct Histogram {
    bins: [u64; BINS],
    found: Option<Latencies>,
}

/// The axes of all histograms: the latency where they end, that of a bin, and the greatest count of one.
#[derive(Clone, Copy)]
struct Axes {
    end: u64,
    bin: u64,
    top: u64,
}

/// The histograms of the cores, and their axes.
#[derive(Drop)]
struct Pictures {
    axes: Axes,
    histograms: Vec<Histogram>,
}

fn core_id(core: usize) -> CoreId {
    u16::try_from(core).unwrap_or(u16::MAX)
}

// The percentiles of each of so many cores.
fn all_percentiles(
    alloc: Global,
    cores: usize,
    requests: &[RequestTimes],
) -> Result<Vec<Option<Latencies>>, AllocError> {
    let mut all = Vec::new(alloc);
    for core in 0..cores {
        all.push(core_latency_percentiles(alloc, core_id(core), requests)?)?;
    }
    Ok(all)
}

// The greatest 99th percentile of a core.
fn greatest_p99(all: &[Option<Latencies>]) -> u64 {
    let mut greatest = 0;
    for found in all {
        if let Some(found) = found {
            greatest = found.p99.max(greatest);
        }
    }
    greatest
}

// How many of the latencies are in each bin of so many cycles; those beyond the last are in none.
fn bins_of(latencies: &[u64], bin: u64) -> [u64; BINS] {
    let mut bins = [0u64; BINS];
    for latency in latencies {
        if let Some(count) = bins.get_mut((*latency / bin.max(1)) as usize) {
            *count = count.saturating_add(1);
        }
    }
    bins
}

// The bins of the read latencies of a core.
fn bins_of_core(
    alloc: Global,
    core: CoreId,
    bin: u64,
    requests: &[RequestTimes],
) -> Result<[u64; BINS], AllocError> {
    let own = of_core(alloc, core, requests)?;
    let latencies = read_latencies(alloc, &own)?;
    Ok(bins_of(&latencies, bin))
}

// The histograms of the cores with these percentiles.
fn histograms_of(
    alloc: Global,
    all: &[Option<Latencies>],
    bin: u64,
    requests: &[RequestTimes],
) -> Result<Vec<Histogram>, AllocError> {
    let mut histograms = Vec::new(alloc);
    for (core, found) in all.iter().enumerate() {
        let bins = bins_of_core(alloc, core_id(core), bin, requests)?;
        let found = *found;
        histograms.push(Histogram { bins, found })?;
    }
    Ok(histograms)
}

// The greatest count of a bin.
fn greatest_of(histograms: &[Histogram]) -> u64 {
    let mut greatest = 1;
    for histogram in histograms {
        let own = histogram.bins.iter().copied().max();
        greatest = own.unwrap_or(0).max(greatest);
    }
    greatest
}

// The histograms of so many cores.
fn pictures_of(
    alloc: Global,
    cores: usize,
    requests: &[RequestTimes],
) -> Result<Pictures, AllocError> {
    let found = all_percentiles(alloc, cores, requests)?;
    let end = axis_end(greatest_p99(&found).saturating_add(1), 5).max(1);
    let bin = end.div_ceil(BINS as u64);
    let histograms = histograms_of(alloc, &found, bin, requests)?;
    let top = axis_end(greatest_of(&histograms), 5).max(1);
    let axes = Axes { end, bin, top };
    Ok(Pictures { axes, histograms })
}

// A line at a latency.
fn put_mark(class: &'static str, latency: u64, top: u64, out: &mut Markup)
    ensures { Grows out.old.text out.new.text }
{
    out.fill(
        "<path class=\"line {}\" d=\"M{} 0V{}\"/>",
        &[
            Piece::Text(class),
            Piece::Number(latency),
            Piece::Number(top),
        ],
    );
}

// The lines at the percentiles.
fn put_marks(found: Option<Latencies>, top: u64, out: &mut Markup)
    ensures { Grows out.old.text out.new.text }
{
    if let Some(found) = found {
        put_mark("open", found.median, top, out);
        put_mark("tail", found.p95, top, out);
        put_mark("hits", found.p99, top, out);
    }
}

// The counts, as steps.
fn put_bins(axes: Axes, bins: &[u64], out: &mut Markup)
    ensures { Grows out.old.text out.new.text }
{
    let top = Piece::Number(axes.top);
    out.fill("<path class=\"bus pale\" d=\"M0 {}", &[top]);
    for (place, count) in bins.iter().enumerate() {
        let end = axes.bin.saturating_mul((place as u64).saturating_add(1));
        let y = axes.top.saturating_sub(*count);
        let x = end.min(axes.end);
        out.fill("V{}H{}", &[Piece::Number(y), Piece::Number(x)]);
    }
    out.fill("V{}Z\"/>", &[top]);
}

// How many reads were answered, and their percentiles.
fn put_percentiles(found: Latencies, out: &mut Markup)
    ensures { Grows out.old.text out.new.text }
{
    out.fill(
        "replies {}; p50 {}, p95 {}, p99 {}, greatest {} cycles",
        &[
            Piece::Grouped(found.replies),
            Piece::Grouped(found.median),
            Piece::Grouped(found.p95),
            Piece::Grouped(found.p99),
            Piece::Grouped(found.greatest),
        ],
    );
}

// What stands above the picture of a core.
fn put_caption(core: u64, found: Option<Latencies>, out: &mut Markup)
    ensures { Grows out.old.text out.new.text }
{
    out.fill(
        "<figure><figcaption><b>core {}</b> ",
        &[Piece::Number(core)],
    );
    match found {
        Some(found) => put_percentiles(found, out),
        None => out.push_str("no reply"),
    }
    out.push_str("</figcaption>");
}

// The picture of a core.
fn put_histogram(core: u64, axes: Axes, histogram: &Histogram, out: &mut Markup)
    ensures { Grows out.old.text out.new.text }
{
    put_caption(core, histogram.found, out);
    out.fill(
        "<div class=\"plot\"><svg preserveAspectRatio=\"none\" role=\"img\" aria-label=\"read latency of core {}\" viewBox=\"0 0 {} {}\">",
        &[
            Piece::Number(core),
            Piece::Number(axes.end),
            Piece::Number(axes.top),
        ],
    );
    put_bins(axes, &histogram.bins, out);
    put_marks(histogram.found, axes.top, out);
    out.push_str("</svg>");
    out.put_value_ticks(Quantity::Count, axes.top);
    out.put_cycle_ticks(0, axes.end);
    out.push_str("</div></figure>\n");
}

// The pictures of all cores.
fn put_each(pictures: &Pictures, out: &mut Markup)
    ensures { Grows out.old.text out.new.text }
{
    out.push_str("<div class=\"grid\">\n");
    for (core, histogram) in pictures.histograms.iter().enumerate() {
        put_histogram(core as u64, pictures.axes, histogram, out);
    }
    out.push_str("</div>\n");
}

// The percentiles of all cores, a legend, and the pictures of each, folded where there are many.
fn put_below(all: Latencies, pictures: &Pictures, out: &mut Markup)
    ensures { Grows out.old.text out.new.text }
{
    put_percentiles(all, out);
    out.push_str(".</p>\n");
    out.put_legend(&LEGEND);
    if pictures.histograms.len() <= MOST_CORES {
        return put_each(pictures, out);
    }
    out.push_str("<details><summary>each core</summary>\n");
    put_each(pictures, out);
    out.push_str("</details>\n");
}

// The pictures of all cores, below what they show.
fn put_pictures(all: Latencies, pictures: &Pictures, out: &mut Markup)
    ensures { Puts (Begins histograms_head) out.old.text out.new.text }
{
    out.push_str(HEAD);
    put_below(all, pictures, out);
}

/// Appends the histograms of so many cores, whose percentiles together are `all`; those of many are folded.
pub(crate) fn put_histograms(
    alloc: Global,
    cores: usize,
    all: Latencies,
    requests: &[RequestTimes],
    out: &mut Markup,
)
    ensures { Puts (Begins histograms_head) out.old.text out.new.text }
{
    match pictures_of(alloc, cores, requests) {
        Ok(pictures) => put_pictures(all, &pictures, out),
        Err(AllocError) => out.refuse(),
    }
}

const HEAD: &str =
    "<p>How many reads took how many cycles, from their issue to their reply. The axis ends behind the greatest p99 of a core; reads that took longer are not drawn. All cores: ";
