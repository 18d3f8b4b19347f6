//! Values and changes as texts.

ghost use Rattle.std.specs.Prelude.{◌≡◌, ◌^◌, ◌<◌, ◌≤◌, List, ℕ, IfOk, IfSome, string_bytes};
ghost use Rattle.measures.specs.Texts.{PutsWords};
ghost use Rattle.sim_base.specs.Texts.{IsText};
ghost use Rattle.compare.specs.Texts.{rounded, fixed_text, missing_text, value_text, signed_text, change_text, cell_text, label_text};

use crate::changes::Change;
use crate::compared::Decimals;
use crate::layout::Layout;
use measures::number::{tenths_text, thousandths_text};
use measures::text_builder::TextBuilder;
use std::alloc::{AllocError, Global};

/// The width of the labels, in characters: that of the longest one.
const LABEL_WIDTH: usize = 22;

// A number of billionths as one of units, rounded half up.
fn rounded(value: u128, unit: u128) -> u128
    requires some { 0 < unit }
    requires few { unit ≤ 1000000000 }
    requires small { value < 2 ^ 116 }
    ensures { result ≡ rounded value unit }
{
    (value + unit / 2) / unit
}

// A value with so many decimals, rounded half up.
fn fixed_text(alloc: Global, decimals: Decimals, value: u128) -> Result<String, AllocError>
    requires { value < 2 ^ 116 }
    ensures { IfOk result (λ text. string_bytes text ≡ fixed_text decimals value) }
{
    match decimals {
        Decimals::Zero => rounded(value, 1_000_000_000).to_string(alloc),
        Decimals::One => tenths_text(alloc, rounded(value, 100_000_000), ""),
        Decimals::Three => thousandths_text(alloc, rounded(value, 1_000_000), ""),
    }
}

// What stands where there is nothing to show.
fn missing_text(layout: Layout) -> &'static str
    ensures { result.now ≡ missing_text layout }
{
    match layout {
        Layout::Screen => "-",
        Layout::Csv => "",
    }
}

/// A value with so many decimals.
pub(crate) fn value_text(
    alloc: Global,
    layout: Layout,
    decimals: Decimals,
    value: Option<u128>,
) -> Result<String, AllocError>
    requires { IfSome value (λ value. value < 2 ^ 116) }
    ensures { IfOk result (λ text. string_bytes text ≡ value_text layout decimals value) }
{
    match value {
        Some(value) => fixed_text(alloc, decimals, value),
        None => String::from_str(alloc, missing_text(layout)),
    }
}

// Tenths of a percent behind a sign, which 0 has not.
fn signed_text(alloc: Global, sign: &str, tenths: u128) -> Result<String, AllocError>
    ensures { IfOk result (λ text. string_bytes text ≡ signed_text sign.now tenths) }
{
    if tenths == 0 {
        return tenths_text(alloc, tenths, "");
    }
    let (whole, tenth) = (tenths / 10, tenths % 10);
    format!(in alloc; "{sign}{whole}.{tenth}")
}

/// A change in percent.
pub(crate) fn change_text(
    alloc: Global,
    layout: Layout,
    change: Option<Change>,
) -> Result<String, AllocError>
    ensures { IfOk result (λ text. string_bytes text ≡ change_text layout change) }
{
    match change {
        Some(Change::Rise(tenths)) => signed_text(alloc, "+", tenths),
        Some(Change::Fall(tenths)) => signed_text(alloc, "-", tenths),
        None => String::from_str(alloc, missing_text(layout)),
    }
}

/// Appends a cell, whose text is known.
pub(crate) fn put_words(layout: Layout, width: usize, text: &str, out: &mut TextBuilder)
    ensures { PutsWords (cell_text layout width text.now) out.old out.new }
{
    match layout {
        Layout::Screen => {
            out.push_str("  ");
            out.push_flush_right(width, text);
        }
        Layout::Csv => {
            out.push_str(",");
            out.push_str(text);
        }
    }
}

/// Appends a cell behind others, unless memory was refused for its text: flush right in a column of a screen, or behind
/// a comma.
pub(crate) fn put_cell(
    layout: Layout,
    width: usize,
    text: Result<String, AllocError>,
    out: &mut TextBuilder,
)
    ensures { (words : List ℕ) → IfOk text (IsText words)
        → PutsWords (cell_text layout width words) out.old out.new }
{
    match text {
        Ok(text) => put_words(layout, width, text.as_str(), out),
        Err(AllocError) => out.refuse(),
    }
}

/// Appends the first cell of a line.
pub(crate) fn put_label(layout: Layout, label: &str, out: &mut TextBuilder)
    ensures { PutsWords (label_text layout label.now) out.old out.new }
{
    out.push_str(label);
    match layout {
        Layout::Screen => out.push(" ".repeat(
            out.alloc(),
            LABEL_WIDTH.saturating_sub(label.len()),
        )),
        Layout::Csv => {}
    }
}
