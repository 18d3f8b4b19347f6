//! Tables of text: a line of headings, and below it a line for each row, with each column flush right.

ghost use Rattle.std.specs.Prelude.{◌≡◌, List, ℕ, IfOk, string_bytes};
ghost use Rattle.measures.specs.declared.number.Number.{Number};
ghost use Rattle.measures.specs.Texts.{Puts, PutsWords};
ghost use Rattle.sim_base.specs.Texts.{IsText};
ghost use Rattle.show.specs.Tables.{width_of, column_text, headings_text, number_at, row_text, summary_label, label_text, lines_text, headings_of, IsTableOf};

use crate::rows::{Row, summary_rows};
use measures::number::Number;
use measures::text_builder::TextBuilder;
use std::alloc::{AllocError, Global};

/// A table with more lines than this is shown in three, unless all are asked for.
const MOST_LINES: usize = 16;

/// The width of the first column, in characters: that of the longest label.
const LABEL_WIDTH: usize = 8;

/// The least width of a column of numbers, in characters: no number is longer.
const NUMBER_WIDTH: usize = 5;

// The width of a column of numbers, in characters.
fn width_of(heading: &str) -> usize
    ensures { result ≡ width_of heading.now }
{
    heading.len().max(NUMBER_WIDTH)
}

// Which of three rows of a summary a row is.
fn summary_label(row: usize) -> &'static str
    ensures { result.now ≡ summary_label row }
{
    match row {
        0 => "least",
        1 => "median",
        _ => "greatest",
    }
}

// What stands before a row: the number of its unit, or which of three rows of a summary it is.
fn label_of(alloc: Global, row: usize, summarized: bool) -> Result<String, AllocError>
    ensures { IfOk result (λ text. string_bytes text ≡ label_text summarized row) }
{
    if summarized {
        String::from_str(alloc, summary_label(row))
    } else {
        format!(in alloc; "{row}")
    }
}

// Appends a cell of a column of numbers.
fn put_column(heading: &str, text: &str, out: &mut TextBuilder)
    ensures { PutsWords (column_text heading.now text.now) out.old out.new }
{
    out.push_str("  ");
    out.push_flush_right(width_of(heading), text);
}

// Appends a cell of a column of numbers, unless memory was refused for its text.
fn put_made(heading: &str, text: Result<String, AllocError>, out: &mut TextBuilder)
    ensures { (words : List ℕ) → IfOk text (IsText words)
        → PutsWords (column_text heading.now words) out.old out.new }
{
    match text {
        Ok(text) => put_column(heading, text.as_str(), out),
        Err(AllocError) => out.refuse(),
    }
}

/// The headings of a table, `label` that of its first column, which says what each line is about; and whether each row
/// has a line, however many there are.
#[derive(Clone, Copy)]
pub(crate) struct TableLayout<'a> {
    pub(crate) label: &'a str,
    pub(crate) headings: &'a [&'a str],
    pub(crate) all: bool,
}

impl TableLayout<'_> {
    /// Appends the line of headings.
    pub(crate) fn put_headings(&self, out: &mut TextBuilder)
        ensures { PutsWords (headings_text self.now.label.now (headings_of self.now))
            out.old out.new }
    {
        out.push_flush_right(LABEL_WIDTH, self.label);
        for heading in self.headings {
            put_column(heading, heading, out);
        }
        out.push_str("\n");
    }

    // Appends the number below a heading, where there are both.
    fn put_number(&self, alloc: Global, row: &[Number], place: usize, out: &mut TextBuilder)
        ensures { PutsWords (number_at (headings_of self.now) row.now place) out.old out.new }
    {
        match (self.headings.get(place), row.get(place)) {
            (Some(heading), Some(number)) => put_made(heading, number.text(alloc), out),
            _ => {}
        }
    }

    // Appends the line of a row, behind a label.
    fn put_line(&self, alloc: Global, label: &str, row: &[Number], out: &mut TextBuilder)
        ensures { PutsWords (row_text (headings_of self.now) label.now row.now) out.old out.new }
    {
        out.push_flush_right(LABEL_WIDTH, label);
        for place in 0..self.headings.len() {
            self.put_number(alloc, row, place, out);
        }
        out.push_str("\n");
    }

    /// Appends the line of a row, behind a label, unless memory was refused for that.
    pub(crate) fn put_row(
        &self,
        alloc: Global,
        label: Result<String, AllocError>,
        row: &[Number],
        out: &mut TextBuilder,
    )
        ensures { (words : List ℕ) → IfOk label (IsText words)
            → PutsWords (row_text (headings_of self.now) words row.now) out.old out.new }
    {
        match label {
            Ok(label) => self.put_line(alloc, label.as_str(), row, out),
            Err(AllocError) => out.refuse(),
        }
    }

    fn put_lines(&self, alloc: Global, rows: &[Row], summarized: bool, out: &mut TextBuilder)
        ensures { PutsWords (lines_text self.now.label.now (headings_of self.now)
            summarized rows.now)
            out.old out.new }
    {
        self.put_headings(out);
        for place in 0..rows.len() {
            let row = &rows[place];
            self.put_row(alloc, label_of(alloc, place, summarized), &row[..], out);
        }
    }

    /// Appends the table of rows, or of their summary: the headings, and a line for each row.
    pub(crate) fn put_rows(&self, alloc: Global, rows: &[Row], out: &mut TextBuilder)
        ensures { Puts (IsTableOf self.now rows.now) out.old out.new }
    {
        if rows.len() <= MOST_LINES || self.all {
            return self.put_lines(alloc, rows, false, out);
        }
        match summary_rows(alloc, rows) {
            Ok(summary) => self.put_lines(alloc, &summary, true, out),
            Err(AllocError) => out.refuse(),
        }
    }

    /// Appends the table of rows, or of their summary, unless memory was refused for them: the headings, and a line for
    /// each row.
    pub(crate) fn put(
        &self,
        alloc: Global,
        rows: Result<Vec<Row>, AllocError>,
        out: &mut TextBuilder,
    )
        ensures { (found : List (List Number)) → IfOk rows (λ rows. rows.items ≡ found)
            → Puts (IsTableOf self.now found) out.old out.new }
    {
        match rows {
            Ok(rows) => self.put_rows(alloc, &rows, out),
            Err(AllocError) => out.refuse(),
        }
    }
}
