//! The configuration of a run: its keys by name, with their values.

use request_pictures::drawing::markup::Piece;
use request_pictures::drawing::page_text::Markup;
use sim_base::config::Config;
use sim_base::key::Key;
use sim_base::place::Field;
use sim_base::timing::Timing;

// A key with its value.
fn put_key(key: Key, value: Piece, out: &mut Markup) {
    out.fill("<li><b>{}</b> {}</li>", &[Piece::Text(key.name()), value]);
}

fn put_numbers(numbers: &[(Key, u32)], out: &mut Markup) {
    for (key, number) in numbers {
        put_key(*key, Piece::Number(u64::from(*number)), out);
    }
}

fn field_name(field: Field) -> &'static str {
    match field {
        Field::Channel => " channel",
        Field::Column => " column",
        Field::Rank => " rank",
        Field::Group => " group",
        Field::Bank => " bank",
        Field::Row => " row",
    }
}

fn put_fields(fields: &[Field], out: &mut Markup) {
    out.push_str("<li><b>fields</b>");
    for field in fields {
        out.push_str(field_name(*field));
    }
    out.push_str("</li>");
}

// The keys of a configuration whose values are numbers, but for `link`: those before its timing, and those of its
// timing.
fn numbers_of(config: &Config) -> [(Key, u32); 13] {
    [
        (Key::Cores, u32::from(config.cores)),
        (Key::Channels, u32::from(config.channels)),
        (Key::Groups, config.groups),
        (Key::Ranks, config.ranks),
        (Key::Columns, config.columns),
        (Key::Rows, config.rows),
        (Key::Window, config.window),
        (Key::Width, u32::from(config.width)),
        (Key::ReadCredits, config.read_credits),
        (Key::WriteCredits, config.write_credits),
        (Key::RequestLatency, config.request_latency),
        (Key::ReplyLatency, config.reply_latency),
        (Key::CreditLatency, config.credit_latency),
    ]
}

fn timing_of(timing: &Timing) -> [(Key, u32); 19] {
    [
        (Key::NRcd, timing.n_rcd),
        (Key::NRp, timing.n_rp),
        (Key::NRas, timing.n_ras),
        (Key::NRc, timing.n_rc),
        (Key::NCl, timing.n_cl),
        (Key::NCwl, timing.n_cwl),
        (Key::NCcdS, timing.n_ccd_s),
        (Key::NCcdL, timing.n_ccd_l),
        (Key::NRrdS, timing.n_rrd_s),
        (Key::NRrdL, timing.n_rrd_l),
        (Key::NFaw, timing.n_faw),
        (Key::NRtp, timing.n_rtp),
        (Key::NWr, timing.n_wr),
        (Key::NWtrS, timing.n_wtr_s),
        (Key::NWtrL, timing.n_wtr_l),
        (Key::NRtw, timing.n_rtw),
        (Key::NRfc, timing.n_rfc),
        (Key::NRtrs, timing.n_rtrs),
        (Key::NRefi, timing.n_refi),
    ]
}

// What the keys say that are no numbers; `links` is how many links have a latency of their own.
fn put_others(fields: &[Field], ends_drained: bool, links: u64, out: &mut Markup) {
    put_fields(fields, out);
    let end = if ends_drained { "drained" } else { "limit" };
    put_key(Key::End, Piece::Text(end), out);
    put_key(Key::Link, Piece::Number(links), out);
    out.push_str("</ul>\n");
}

/// Appends the keys of a configuration with their values; of the links with a latency of their own only how many there
/// are.
pub(crate) fn put_settings(config: &Config, out: &mut Markup) {
    let fields = config.fields.as_slice();
    let links = config.overrides.as_slice().len() as u64;
    out.push_str("<h2 id=\"configuration\">Configuration</h2><ul class=\"keys\">");
    put_numbers(&numbers_of(config), out);
    put_numbers(&timing_of(&config.timing), out);
    put_key(
        Key::WriteHigh,
        Piece::Number(u64::from(config.write_high)),
        out,
    );
    put_key(
        Key::WriteLow,
        Piece::Number(u64::from(config.write_low)),
        out,
    );
    put_others(fields, config.ends_drained, links, out);
}
