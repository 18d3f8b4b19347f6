//! What a page shows of requests.

ghost use Rattle.measures.specs.Texts.{Puts};
ghost use Rattle.request_pictures.specs.Section.{IsSection};

use crate::breakdown::put_breakdown;
use crate::drawing::page_text::Markup;
use crate::histograms::put_histograms;
use crate::trend::put_trend;
use measures::request_measures::latency::latency_percentiles;
use request_table::times::RequestTimes;
use statistics::stats::Stats;
use std::alloc::{AllocError, Global};

/// How many cycles the data of a RD take; they begin nCL cycles after it.
const BURST: u64 = 4;

// How many cycles pass from the RD to the end of the data, where that is known.
fn data_cycles(n_cl: Option<u32>) -> Option<u64> {
    match n_cl {
        Some(n_cl) => Some(u64::from(n_cl) + BURST),
        None => None,
    }
}

/// Appends what the requests of a run tell: how long the reads of each core took, how that changed over the run, and
/// for each channel where the time of its reads went, of which the time from the RD to the end of the data is apart
/// from the way back only where nCL is given. Where no reply came it says so.
pub fn put_requests(
    alloc: Global,
    stats: &Stats,
    n_cl: Option<u32>,
    requests: &[RequestTimes],
    out: &mut Markup,
)
    ensures { Puts (IsSection requests.now) out.old.text out.new.text }
{
    out.push_str("<h2 id=\"latency\">Read latency</h2>\n");
    let all = match latency_percentiles(alloc, requests) {
        Ok(Some(all)) => all,
        Ok(None) => return out.push_str("<p>No reply came in the run.</p>\n"),
        Err(AllocError) => return out.refuse(),
    };
    put_histograms(alloc, stats.cores.len(), all, requests, out);
    put_trend(alloc, stats.cycles, requests, out);
    put_breakdown(
        alloc,
        stats.channels.len(),
        data_cycles(n_cl),
        requests,
        out,
    );
}
