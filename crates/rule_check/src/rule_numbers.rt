//! The numbers of the rules that are no distance between two commands, as docs/RULES.md has them.

/// The order of rows: by cycle, and then by channel.
pub(crate) const ROW_ORDER: u32 = 1;

/// The state of banks: idle for ACT and for REF, active with the row for RD and WR.
pub(crate) const BANK_STATE: u32 = 2;

/// The four activate window, tFAW.
pub(crate) const FOUR_ACTIVATE_WINDOW: u32 = 16;

/// The average periodic refresh interval, tREFI.
pub(crate) const REFRESH_INTERVAL: u32 = 18;

/// Rules are numbered from 1 to this one.
pub(crate) const LAST_RULE: u8 = 21;
