//! Where the time of the reads of each channel went, as bars. A bar's unit is a hundredth of a cycle.

ghost use Rattle.measures.specs.Texts.{Grows};

use crate::drawing::markup::{LegendEntry, Piece};
use crate::drawing::page_text::Markup;
use crate::drawing::scales::share_of;
use request_table::times::RequestTimes;
use std::alloc::{AllocError, Global};

const THERE: LegendEntry = LegendEntry {
    class: "end",
    text: "the way there: from the issue to the arrival at the channel",
};

const QUEUE: LegendEntry = LegendEntry {
    class: "window",
    text: "in the queue: up to the RD",
};

/// What each part of a bar stands for, where nCL is known.
static LEGEND: [LegendEntry; 4] = [
    THERE,
    QUEUE,
    LegendEntry {
        class: "width",
        text: "from the RD to the end of the data: nCL + 4",
    },
    LegendEntry {
        class: "credit",
        text: "the way back: up to the reply at the core",
    },
];

/// What each part of a bar stands for, where nCL is not known.
static SHORT_LEGEND: [LegendEntry; 3] = [
    THERE,
    QUEUE,
    LegendEntry {
        class: "credit",
        text: "from the RD to the reply at the core",
    },
];

/// The mean times of the answered reads of a channel, in hundredths of a cycle: to the channel, in its queue, from RD
/// to the end of the data, which is 0 where it is not known, and from there to the core.
#[derive(Clone, Copy)]
struct Parts {
    there: u64,
    queue: u64,
    data: u64,
    back: u64,
}

impl Parts {
    fn total(self) -> u64 {
        let before = self.there.saturating_add(self.queue);
        before.saturating_add(self.data).saturating_add(self.back)
    }
}

/// Over reads, the sums of the cycles to the channel, in its queue, and from RD to the core.
#[derive(Clone, Copy)]
struct Sums {
    reads: u64,
    there: u128,
    queue: u128,
    after: u128,
}

impl Sums {
    // The sums with one read more.
    fn with(self, request: &RequestTimes, replied: u64) -> Sums {
        let there = request.arrived.saturating_sub(request.issued);
        let queue = request.served.saturating_sub(request.arrived);
        let after = replied.saturating_sub(request.served);
        Sums {
            reads: self.reads.saturating_add(1),
            there: self.there.saturating_add(u128::from(there)),
            queue: self.queue.saturating_add(u128::from(queue)),
            after: self.after.saturating_add(u128::from(after)),
        }
    }
}

// The sums of the answered reads of a channel.
fn sums_of(channel: usize, requests: &[RequestTimes]) -> Sums {
    let mut sums = Sums {
        reads: 0,
        there: 0,
        queue: 0,
        after: 0,
    };
    for request in requests {
        if request.channel as usize == channel
            && let Some(replied) = request.replied
        {
            sums = sums.with(request, replied);
        }
    }
    sums
}

// The means, where the data take so many cycles from the RD on, if that is known.
fn parts_of(sums: Sums, data: Option<u64>) -> Parts {
    let after = share_of(sums.after, sums.reads, 100);
    let data = data.unwrap_or(0).saturating_mul(100).min(after);
    Parts {
        there: share_of(sums.there, sums.reads, 100),
        queue: share_of(sums.queue, sums.reads, 100),
        data,
        back: after.saturating_sub(data),
    }
}

// The means of so many channels.
fn all_parts(
    alloc: Global,
    channels: usize,
    data: Option<u64>,
    requests: &[RequestTimes],
) -> Result<Vec<Parts>, AllocError> {
    let mut all = Vec::new(alloc);
    for channel in 0..channels {
        all.push(parts_of(sums_of(channel, requests), data))?;
    }
    Ok(all)
}

// A part of a bar, after those before it.
fn put_part(class: &'static str, before: u64, hundredths: u64, out: &mut Markup)
    ensures { Grows out.old.text out.new.text }
{
    if hundredths > 0 {
        out.fill(
            "<rect class=\"{}\" x=\"{}\" width=\"{}\" height=\"1\"><title>{} cycles</title></rect>",
            &[
                Piece::Text(class),
                Piece::Number(before),
                Piece::Number(hundredths),
                Piece::Hundredths(hundredths),
            ],
        );
    }
}

// The bar of a channel, in a picture of so many hundredths of a cycle.
fn put_bar(channel: u64, parts: Parts, width: u64, out: &mut Markup)
    ensures { Grows out.old.text out.new.text }
{
    let id = Piece::Number(channel);
    out.fill(
        "<div class=\"bar\"><b>channel {}</b><svg preserveAspectRatio=\"none\" role=\"img\" aria-label=\"where the time of a read of channel {} went: {} cycles\" viewBox=\"0 0 {} 1\">",
        &[
            id,
            id,
            Piece::Hundredths(parts.total()),
            Piece::Number(width),
        ],
    );
    put_parts(parts, out);
    out.push_str("</svg></div>\n");
}

// The parts of a bar, each after those before it.
fn put_parts(parts: Parts, out: &mut Markup)
    ensures { Grows out.old.text out.new.text }
{
    let served = parts.there.saturating_add(parts.queue);
    let moved = served.saturating_add(parts.data);
    put_part("end", 0, parts.there, out);
    put_part("window", parts.there, parts.queue, out);
    put_part("width", served, parts.data, out);
    put_part("credit", moved, parts.back, out);
}

// The scale below the bars: five labels, so many cycles apart.
fn put_scale(apart: u64, out: &mut Markup)
    ensures { Grows out.old.text out.new.text }
{
    out.push_str("<div class=\"bar scale\"><b>cycles</b><p>");
    for place in 0..5u64 {
        out.fill("<i>{}</i>", &[Piece::Grouped(apart.saturating_mul(place))]);
    }
    out.push_str("</p></div></div>\n");
}

// The bars, all on one scale, whose end is a multiple of four cycles.
fn put_bars(all: &[Parts], out: &mut Markup)
    ensures { Grows out.old.text out.new.text }
{
    let apart = greatest_of(all).div_ceil(400).max(1);
    let width = apart.saturating_mul(400);
    out.push_str("<div class=\"bars\">\n");
    for (channel, parts) in all.iter().enumerate() {
        put_bar(channel as u64, *parts, width, out);
    }
    put_scale(apart, out);
}

// The greatest time of a read.
fn greatest_of(all: &[Parts]) -> u64 {
    let mut greatest = 0;
    for parts in all {
        greatest = parts.total().max(greatest);
    }
    greatest
}

/// Appends a bar for each of so many channels, with a legend. `data` is how many cycles the data of a read take from
/// the RD on, where that is known.
pub(crate) fn put_breakdown(
    alloc: Global,
    channels: usize,
    data: Option<u64>,
    requests: &[RequestTimes],
    out: &mut Markup,
)
    ensures { Grows out.old.text out.new.text }
{
    out.push_str(
        "<h3>Where the time of a read goes</h3><p>The mean over the reads of a channel whose reply came, in cycles.</p>",
    );
    match data {
        Some(_) => out.put_legend(&LEGEND),
        None => out.put_legend(&SHORT_LEGEND),
    }
    match all_parts(alloc, channels, data, requests) {
        Ok(all) => put_bars(&all, out),
        Err(AllocError) => out.refuse(),
    }
}
