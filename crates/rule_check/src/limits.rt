//! What the numbers of a table are below.

ghost use Rattle.std.specs.Prelude.{◌<◌};

/// The numbers of a table of commands are below these. Banks are below 4, cycles and entries below 2^62. With one rank
/// a table has no column for it.
#[derive(Clone, Copy)]
pub struct Limits {
    pub channels: u16,
    pub ranks: u32,
    pub groups: u32,
    pub rows: u32,
    pub columns: u32,
    pub cores: u16,
    pub ghost has_rank: { 0 < ranks },
}
