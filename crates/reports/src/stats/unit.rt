//! What a row of the table of statistics is about.

ghost use Rattle.std.specs.Prelude.{◌≤◌, length};

/// The run, or one of its cores or channels.
#[derive(Clone, Copy)]
pub(crate) struct Unit {
    /// `run`, `core` or `channel`.
    pub(crate) scope: &'static [u8],
    pub(crate) id: u64,
    ghost short: { length scope.now ≤ 32 },
}
