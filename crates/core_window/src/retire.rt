//! How many entries retire in a cycle.

ghost use Rattle.std.specs.Prelude.{◌≡◌, ◌-◌, ◌<◌, ◌≤◌, ◌↔◌, min, IsTrue};
ghost use Rattle.core_window.specs.Causes.{first_undone};

use crate::outstanding::OutstandingRead;

/// The first entry that is not done, where `issued` entries were issued and these Reads wait.
fn first_undone(outstanding: &[OutstandingRead], issued: u64) -> u64
    ensures { result ≡ first_undone issued outstanding.now }
{
    match outstanding {
        [read, ..] => read.entry,
        [] => issued,
    }
}

/// How many entries retire, where `retired` entries have retired already: up to the first that is not done, and no more
/// than the width.
pub fn retire_count(width: u16, outstanding: &[OutstandingRead], issued: u64, retired: u64) -> u16
    ensures { result ≡ min width (first_undone issued outstanding.now - retired) }
{
    let done = first_undone(outstanding, issued).saturating_sub(retired);
    u64::from(width).min(done) as u16
}

/// Whether an entry retires, where `retired` entries have retired already: whether the next one is done.
pub fn is_next_done(outstanding: &[OutstandingRead], issued: u64, retired: u64) -> bool
    ensures { IsTrue result ↔ retired < first_undone issued outstanding.now }
{
    retired < first_undone(outstanding, issued)
}

/// Whether the first entry of a full window waits, so that no entry retires and none issues.
pub fn is_stalled(window: u32, outstanding: &[OutstandingRead], issued: u64, retired: u64) -> bool
    requires { retired ≤ issued }
    ensures undone { IsTrue result → first_undone issued outstanding.now ≤ retired }
    ensures full { IsTrue result → window ≤ issued - retired }
{
    match outstanding {
        [read, ..] => { read.entry <= retired && u64::from(window) <= issued - retired }
        [] => false,
    }
}
