//! Numbers, shares, scales and axes, with what they print worked out by hand.

use crate::expect::{expect, expect_at, expect_parts};
use request_pictures::drawing::axes::Quantity;
use request_pictures::drawing::markup::{LegendEntry, Piece};
use request_pictures::drawing::page_text::Markup;
use request_pictures::drawing::scales::{axis_end, share_of, tick_step};

static PIECES: [(Piece, &str); 13] = [
    (Piece::Text("a <b>"), "a <b>"),
    (Piece::Number(1_234_567), "1234567"),
    (Piece::Tenths(123), "12.3"),
    (Piece::Hundredths(105), "1.05"),
    (Piece::Thousandths(1_200_000), "1200"),
    (Piece::Thousandths(1_333_500), "1333.5"),
    (Piece::Thousandths(1_066_050), "1066.05"),
    (Piece::Thousandths(1_333_333), "1333.333"),
    (Piece::Grouped(0), "0"),
    (Piece::Grouped(999), "999"),
    (Piece::Grouped(1_000), "1,000"),
    (Piece::Grouped(1_000_007), "1,000,007"),
    (Piece::Grouped(u64::MAX), "18,446,744,073,709,551,615"),
];

#[test]
fn pieces_print(rt: HostRuntime) {
    for (piece, want) in &PIECES {
        let mut markup = Markup::new(rt.alloc());
        markup.fill("{}", &[*piece]);
        let text = markup.finish().expect(&rt, "memory");
        expect(&rt, &text.as_str(), want);
    }
}

// A part, a whole, the units of the whole, and the share. A half is rounded up.
static SHARES: [(u128, u64, u64, u64); 8] = [
    (1, 3, 1000, 333),
    (2, 3, 1000, 667),
    (1, 2, 1, 1),
    (1, 8, 100, 13),
    (3, 3, 1000, 1000),
    (5, 0, 1000, 0),
    (0, 7, 1000, 0),
    (u128::MAX, 1, 1, u64::MAX),
];

// A span, the distance between its ticks, and the end of its axis.
static STEPS: [(u64, u64, u64); 6] = [
    (0, 1, 0),
    (4, 1, 4),
    (6, 2, 6),
    (37, 10, 40),
    (1000, 200, 1000),
    (4604, 1000, 5000),
];

#[test]
fn shares_and_steps(rt: HostRuntime) {
    for (part, whole, units, want) in &SHARES {
        expect_at(&rt, part, &share_of(*part, *whole, *units), want);
    }
    for (span, step, end) in &STEPS {
        let found = (tick_step(*span, 5), axis_end(*span, 5));
        expect_at(&rt, span, &found, &(*step, *end));
    }
}

// The label of a tick, and how far it is from the begin of its axis; and the entry of a legend.
const PUT: &[&str] = &[
    r#"<i class="y" style="bottom:41.67%"><b>1.0</b></i>"#,
    r#"<i class="y" style="bottom:25.00%"><b>20</b></i>"#,
    r#"<i class="y" style="bottom:75.00%"><b>15</b></i>"#,
    r#"<i class="x" style="left:0.00%"><b>0</b></i>"#,
    r#"<i class="x" style="left:40.00%"><b>1,000k</b></i>"#,
    r#"<i class="x" style="left:100.00%"><b>2,500k</b></i>"#,
    r#"<i class="x" style="left:50.00%"><b>1,200</b></i>"#,
    r#"<rect class="act" width="10" height="10"/></svg>ACT</li></ul>"#,
];

#[test]
fn ticks_have_one_unit(rt: HostRuntime) {
    let mut markup = Markup::new(rt.alloc());
    // Up to 2.4 %, and up to 80 %.
    for (quantity, end) in [
        (Quantity::Percent, 24),
        (Quantity::Percent, 800),
        (Quantity::Count, 20),
    ] {
        markup.put_value_ticks(quantity, end);
    }
    markup.put_cycle_ticks(0, 2_500_000);
    markup.put_cycle_ticks(1_100, 200);
    let entry = LegendEntry {
        class: "act",
        text: "ACT",
    };
    markup.put_legend(&[entry]);
    let text = markup.finish().expect(&rt, "memory");
    expect_parts(&rt, text.as_str(), PUT, true);
}
