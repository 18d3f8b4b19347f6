//! Where the tables of a run are.

/// The folder of a run's tables, and the file of the configuration that is named beside it, if one is.
#[derive(Clone, Copy)]
pub struct RunFolder<'a> {
    pub dir: &'a str,
    pub config: Option<&'a str>,
}
