//! The numbers of tables: what is counted of a core and of a channel.

ghost use Rattle.std.specs.Prelude.{◌≡◌, ◌∷◌, []};
ghost use Rattle.page.specs.Cells.{count, absent, percent, quotient, drain_of, rate, data_rate, time, finish_time};

use crate::run_pictures::activity::BURST;
use measures::rates;
use measures::rates::Quotient;
use request_pictures::drawing::markup::Piece;
use request_pictures::drawing::scales::share_of;
use statistics::channels::ChannelStats;
use statistics::cores::CoreStats;

/// How a number is written.
#[derive(Clone, Copy)]
pub(crate) enum CellForm {
    Count,
    Tenths,
    Hundredths,
}

/// What the numbers of a run are divided by: its cycles, the cycles that a REF takes, if that is known, and the clock
/// in kHz, if it is given.
#[derive(Clone, Copy)]
pub(crate) struct RunScale {
    pub(crate) cycles: u64,
    pub(crate) refresh: Option<u64>,
    pub(crate) khz: Option<u64>,
}

/// A number of a table, if it is there, with the form of its column.
#[derive(Clone, Copy)]
pub(crate) struct Cell {
    pub(crate) form: CellForm,
    pub(crate) number: Option<u64>,
}

impl Cell {
    /// The number, or a dash where there is none.
    pub(crate) fn piece(self) -> Piece {
        match (self.form, self.number) {
            (_, None) => Piece::Text("–"),
            (CellForm::Count, Some(number)) => Piece::Grouped(number),
            (CellForm::Tenths, Some(number)) => Piece::Tenths(number),
            (CellForm::Hundredths, Some(number)) => Piece::Hundredths(number),
        }
    }
}

fn count(number: u64) -> Cell
    ensures { result ≡ count number }
{
    Cell {
        form: CellForm::Count,
        number: Some(number),
    }
}

// A number that is not there.
fn absent(form: CellForm) -> Cell
    ensures { result ≡ absent form }
{
    Cell { form, number: None }
}

// A quotient, if there is something to divide by: of each hundred, in tenths.
fn percent(part: u64, whole: u64) -> Cell
    ensures { result ≡ percent part whole }
{
    quotient(CellForm::Tenths, u128::from(part), whole, 1_000)
}

// A quotient, if there is something to divide by; one has `units` of the last digit.
fn quotient(form: CellForm, part: u128, whole: u64, units: u64) -> Cell
    ensures { result ≡ quotient form part whole units }
{
    if whole == 0 {
        return absent(form);
    }
    Cell {
        form,
        number: Some(share_of(part, whole, units)),
    }
}

// The cycles in which a channel drained its writes, in percent, where they are counted.
fn drain_of(cycles: u64, channel: &ChannelStats) -> Cell
    ensures { result ≡ drain_of cycles channel.now.draining }
{
    match channel.draining {
        Some(drained) => percent(drained, cycles),
        None => absent(CellForm::Tenths),
    }
}

// A rate or a time, if there is something to divide by.
fn rate_cell(form: CellForm, found: Quotient, units: u64) -> Cell
    ensures { result ≡ rate form found.dividend found.divisor units }
{
    let whole = u64::try_from(found.divisor).unwrap_or(u64::MAX);
    quotient(form, found.dividend, whole, units)
}

/// The data that a channel moved in a run of `cycles` cycles, in GB/s.
pub(crate) fn data_rate(cycles: u64, channel: &ChannelStats, khz: u64) -> Cell
    ensures { result ≡ data_rate cycles channel.now khz }
{
    rate_cell(
        CellForm::Hundredths,
        rates::data_rate(cycles, channel, khz),
        100,
    )
}

/// The numbers of a channel in a run of `cycles` cycles, in the order of their columns. The last is the share of the
/// cycles that its REFs take, `refresh` of them each.
pub(crate) fn channel_cells(cycles: u64, channel: &ChannelStats, refresh: u64) -> [Cell; 10] {
    let column_commands = channel.rd.saturating_add(channel.wr);
    [
        count(channel.rd),
        count(channel.wr),
        percent(channel.hits, column_commands),
        percent(BURST.saturating_mul(column_commands), cycles),
        quotient(CellForm::Hundredths, channel.queued, cycles, 100),
        count(channel.queued_max),
        percent(channel.idle, cycles),
        percent(channel.refreshing, cycles),
        drain_of(cycles, channel),
        percent(channel.refs.saturating_mul(refresh), cycles),
    ]
}

// The entries of a core a cycle up to the cycle of its finish, if it has one.
fn rate_to_finish(core: &CoreStats) -> Cell {
    let cycles = match core.finish {
        Some(cycle) => cycle.saturating_add(1),
        None => 0,
    };
    quotient(CellForm::Hundredths, u128::from(core.retired), cycles, 100)
}

// A quotient of cycles, in tenths of a ns.
fn nanoseconds(cycles: u128, divisor: u64, khz: u64) -> Cell
    ensures { result ≡ time cycles divisor khz }
{
    rate_cell(
        CellForm::Tenths,
        rates::nanoseconds(cycles, divisor, khz),
        10,
    )
}

/// The finish and the mean read latency of a core, in ns.
pub(crate) fn core_times(core: &CoreStats, khz: u64) -> [Cell; 2]
    ensures { result ≡ finish_time core.now.finish khz
        ∷ time core.now.read_latency core.now.replies khz ∷ [] }
{
    [
        finish_time(core.finish, khz),
        nanoseconds(core.read_latency, core.replies, khz),
    ]
}

// The finish of a core in ns, if it has finished.
fn finish_time(finish: Option<u64>, khz: u64) -> Cell
    ensures { result ≡ finish_time finish khz }
{
    match finish {
        Some(cycle) => nanoseconds(u128::from(cycle), 1, khz),
        None => absent(CellForm::Tenths),
    }
}

/// The numbers of a core in a run of `cycles` cycles, in the order of their columns.
pub(crate) fn core_cells(cycles: u64, core: &CoreStats) -> [Cell; 11] {
    [
        count(core.retired),
        quotient(CellForm::Hundredths, u128::from(core.retired), cycles, 100),
        Cell {
            form: CellForm::Count,
            number: core.finish,
        },
        rate_to_finish(core),
        count(core.reads),
        quotient(CellForm::Tenths, core.read_latency, core.replies, 10),
        percent(core.stop_end, cycles),
        percent(core.stop_width, cycles),
        percent(core.stop_window, cycles),
        percent(core.stop_memory, cycles),
        percent(core.stop_credit, cycles),
    ]
}
