//! Text of a page, put together from pieces.

ghost use Rattle.measures.specs.Number.{tenths_text, hundredths_text, thousandths_text};
ghost use Rattle.measures.specs.Texts.{Puts, PutsWords};
ghost use Rattle.request_pictures.specs.Legends.{entry_text, legend_text};
ghost use Rattle.request_pictures.specs.Pieces.{IsGrouped, IsPieceText, group_text, shortest_text};

use measures::text_builder::TextBuilder;
use measures::text_builder::forms::Append;

/// A piece of text.
#[derive(Clone, Copy)]
pub enum Piece {
    /// Markup, or words without markup: it is not escaped.
    Text(&'static str),
    /// A number as it stands: `1234567`.
    Number(u64),
    /// A number in groups of three digits: `1,234,567`.
    Grouped(u64),
    /// A number of tenths: 123 is `12.3`.
    Tenths(u64),
    /// A number of hundredths: 123 is `1.23`.
    Hundredths(u64),
    /// A number of thousandths, without zeros at the end: 1230 is `1.23`, and 1000 is `1`.
    Thousandths(u64),
}

// A comma, and the three digits of a group.
fn put_group(group: u64, out: &mut TextBuilder)
    ensures { PutsWords (group_text group) out.old out.new }
{
    write!(out, ",{}{}{}", group / 100, group / 10 % 10, group % 10);
}

// A number in groups of three digits.
fn put_grouped(number: u64, out: &mut TextBuilder)
    ensures { Puts (IsGrouped number) out.old out.new }
{
    if number < 1_000 {
        return write!(out, "{number}");
    }
    put_grouped(number / 1_000, out);
    put_group(number % 1_000, out);
}

// A number of tenths.
fn put_tenths(number: u64, out: &mut TextBuilder)
    ensures { PutsWords (tenths_text number) out.old out.new }
{
    write!(out, "{}.{}", number / 10, number % 10);
}

// A number of hundredths.
fn put_hundredths(number: u64, out: &mut TextBuilder)
    ensures { PutsWords (hundredths_text number) out.old out.new }
{
    write!(out, "{}.{}{}", number / 100, number / 10 % 10, number % 10);
}

// A number of thousandths.
fn put_thousandths(number: u64, out: &mut TextBuilder)
    ensures { PutsWords (thousandths_text number) out.old out.new }
{
    let (tenth, hundredth, last) = (number / 100 % 10, number / 10 % 10, number % 10);
    write!(out, "{}.{tenth}{hundredth}{last}", number / 1_000);
}

// A number of thousandths, without zeros at the end.
fn put_shortest(number: u64, out: &mut TextBuilder)
    ensures { PutsWords (shortest_text number) out.old out.new }
{
    if number % 1_000 == 0 {
        write!(out, "{}", number / 1_000);
    } else if number % 100 == 0 {
        put_tenths(number / 100, out);
    } else if number % 10 == 0 {
        put_hundredths(number / 10, out);
    } else {
        put_thousandths(number, out);
    }
}

impl Append for Piece {
    ghost appends = { IsPieceText };

    fn append_to(self, out: &mut TextBuilder) {
        match self {
            Piece::Text(text) => out.push_str(text),
            Piece::Number(number) => write!(out, "{number}"),
            Piece::Grouped(number) => put_grouped(number, out),
            Piece::Tenths(number) => put_tenths(number, out),
            Piece::Hundredths(number) => put_hundredths(number, out),
            Piece::Thousandths(number) => put_shortest(number, out),
        }
    }
}

/// An entry of a legend: a patch in the colour of a class of the style sheet, and what it stands for.
#[derive(Clone, Copy)]
pub struct LegendEntry {
    pub class: &'static str,
    pub text: &'static str,
}

fn put_entry(entry: &LegendEntry, out: &mut TextBuilder)
    ensures { PutsWords (entry_text entry.now) out.old out.new }
{
    out.push_str("<li><svg class=\"patch\" viewBox=\"0 0 10 10\"><rect class=\"");
    out.push_str(entry.class);
    out.push_str("\" width=\"10\" height=\"10\"/></svg>");
    out.push_str(entry.text);
    out.push_str("</li>");
}

/// Appends a legend as a list.
pub(crate) fn put_legend(entries: &[LegendEntry], out: &mut TextBuilder)
    ensures { PutsWords (legend_text entries.now) out.old out.new }
{
    out.push_str("<ul class=\"legend\">");
    for entry in entries {
        put_entry(entry, out);
    }
    out.push_str("</ul>\n");
}
