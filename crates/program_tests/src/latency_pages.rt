//! What pages show of requests, worked out by hand from the three of the small machine, whose nCL is 4: the reads took
//! 15 and 29 cycles, of which 2 were the way to the channel, 3 and 17 were in its queue, 8 went from the RD to the end
//! of the data, and 2 were the way back.

use crate::page_runs::{Parts, Shown, assert_page};
use crate::requests::{SECOND, TABLE, run_of};
use fixtures::none::{NO_CHANNEL, NO_CORE};
use fixtures::small::small;
use page::window::{Beside, View, Window};
use request_table::times::RequestTimes;
use sim_base::config::Config;
use sim_base::message::Access;
use statistics::stats::Stats;
use std::alloc::Global;
use std::process::Abort;

// Asserts what the page of a run with these requests has.
fn assert_latency(
    rt: &impl Abort,
    alloc: Global,
    stats: &Stats,
    (config, requests): (Option<&Config>, Option<&[RequestTimes]>),
    parts: Parts<'_>,
) {
    let window = Window {
        from: 0,
        cycles: 64,
    };
    let shown = Shown {
        stats,
        rows: &[],
        beside: Beside { config, requests },
        view: View { window, khz: None },
    };
    assert_page(rt, alloc, &shown, parts);
}

// An axis of 30 cycles has a bin for each, and the picture's y is from its top: a read in the bin of 15 and one in that
// of 29. Steps of a cycle, up to 30 cycles of latency: the replies came in the cycles 15 and 31. Of 22 cycles in the
// mean, on a scale up to 24.
const PICTURES: &[&str] = &[
    r#"<h2 id="latency">Read latency</h2>
<p>How many reads took how many cycles, from their issue to their reply. The axis ends behind the greatest p99 of a core; reads that took longer are not drawn. All cores: replies 2; p50 15, p95 29, p99 29, greatest 29 cycles.</p>"#,
    r#"<b>core 0</b> replies 2; p50 15, p95 29, p99 29, greatest 29 cycles</figcaption>"#,
    r#"aria-label="read latency of core 0" viewBox="0 0 30 1"><path class="bus pale" d="M0 1V1H1V1H2"#,
    r#"V1H15V0H16V1H17"#,
    r#"V1H29V0H30V1H30"#,
    r#"<path class="line open" d="M15 0V1"/><path class="line tail" d="M29 0V1"/><path class="line hits" d="M29 0V1"/></svg>"#,
    r#"viewBox="0 0 64 30"><path class="line open" d="M15 15V15H16M31 1V1H32"/><path class="line hits" d="M15 15V15H16M31 1V1H32"/></svg>"#,
    r#"<rect class="end" x="0" width="200" height="1"><title>2.00 cycles</title></rect><rect class="window" x="200" width="1000" height="1"><title>10.00 cycles</title></rect>"#,
];

// Behind the queue.
const PARTED: &[&str] = &[
    r#"went: 22.00 cycles" viewBox="0 0 2400 1">"#,
    r#"<rect class="width" x="1200" width="800" height="1"><title>8.00 cycles</title></rect><rect class="credit" x="2000" width="200" height="1"><title>2.00 cycles</title></rect></svg></div>"#,
    r#"<b>cycles</b><p><i>0</i><i>6</i><i>12</i><i>18</i><i>24</i></p>"#,
];

// Behind the queue, where nCL is not known.
const TOGETHER: &[&str] = &[
    r#"<rect class="credit" x="1200" width="1000" height="1"><title>10.00 cycles</title></rect></svg></div>"#,
    r#"from the RD to the reply at the core"#,
];

const NO_REPLY: &[&str] = &[
    "<h2 id=\"latency\">Read latency</h2>\n<p>No reply came in the run.</p>",
];

#[test]
fn pictures_of_requests(rt: HostRuntime) {
    let alloc = rt.alloc();
    let stats = run_of(&rt, alloc, 44, 1);
    let config = small(alloc, &[], "").expect(&rt, "a machine");
    let table = Some(TABLE.as_slice());
    let known = (Some(&config), table);
    let absent = &["each core</summary>", "no reply"];
    assert_latency(&rt, alloc, &stats, known, (PICTURES, absent));
    assert_latency(&rt, alloc, &stats, known, (PARTED, TOGETHER));
    assert_latency(&rt, alloc, &stats, (None, table), (PICTURES, &["nCL + 4"]));
    let absent = &["class=\"width\" x"];
    assert_latency(&rt, alloc, &stats, (None, table), (TOGETHER, absent));
}

#[test]
fn pages_without_a_reply(rt: HostRuntime) {
    let alloc = rt.alloc();
    let stats = run_of(&rt, alloc, 44, 1);
    let absent = &["id=\"latency\"", "p99"];
    assert_latency(&rt, alloc, &stats, (None, None), (&[], absent));
    let written = Some([SECOND].as_slice());
    assert_latency(&rt, alloc, &stats, (None, written), (NO_REPLY, &["p99"]));
}

static READ: [RequestTimes; 1] = [RequestTimes {
    core: 16,
    entry: 0,
    access: Access::Read,
    channel: 1,
    issued: 10,
    arrived: 11,
    served: 12,
    replied: Some(60),
    hit: false,
}];

const FOLDED: &[&str] = &[
    r#"<details><summary>each core</summary>
<div class="grid">
<figure><figcaption><b>core 0</b> no reply</figcaption>"#,
    r#"<b>core 16</b> replies 1; p50 50, p95 50, p99 50, greatest 50 cycles</figcaption>"#,
    r#"channel 0 went: 0.00 cycles" viewBox="0 0 5200 1"></svg>"#,
    r#"channel 1 went: 50.00 cycles" viewBox="0 0 5200 1"><rect class="end" x="0" width="100""#,
    r#"<i>0</i><i>13</i><i>26</i><i>39</i><i>52</i>"#,
];

// Cores of which one has no reply, folded as there are more than 16; the channel that has no read has a bar with no
// part.
#[test]
fn many_cores_are_folded(rt: HostRuntime) {
    let stats = Stats::of_parts(rt.alloc(), 64, &[NO_CORE; 17], &[NO_CHANNEL; 2]);
    let stats = stats.expect(&rt, "memory");
    assert_latency(&rt, rt.alloc(), &stats, (None, Some(&READ)), (FOLDED, &[]));
}
