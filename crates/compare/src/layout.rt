//! How a comparison is laid out.

/// A screen for readers, or a table for scripts.
#[derive(Clone, Copy)]
pub enum Layout {
    /// Columns that are aligned, below the names of the runs; `-` where there is nothing to show.
    Screen,
    /// Lines of CSV, with nothing where there is nothing to show.
    Csv,
}
