//! What is read of lines.

ghost use Rattle.std.specs.Prelude.{◌≡◌, ℕ, ◌+◌, ◌^◌, ◌<◌, ◌≤◌, ◌↔◌, List, [], ◌++◌, length, IsTrue, IfOk, OnOk};
ghost use Rattle.cpu_trace.specs.Lines.{entries_in};
ghost use Rattle.cpu_trace.specs.Reading.{appended, joined, told_behind, fault_of, line_told, lines_told, IsReadingOf, IsRead};

use crate::entries::{Entries, MOST_ENTRIES};
use crate::line::Line;
use sim_base::fault::{Fault, LineCause};
use sim_base::message::CoreId;
use sim_base::trace::Entry;
use std::alloc::{AllocError, Global};

/// What lines have: how many there are, and what is kept of their entries. Nothing is kept of more than 2^62 entries.
#[derive(Drop)]
pub(crate) struct Reading {
    pub lines: u64,
    pub kept: Option<Entries>,
}

/// Why lines are not read.
#[derive(Clone, Copy)]
pub(crate) enum Unread {
    /// The first bad line, counted from 1.
    BadLine { line: u64, cause: LineCause },
    /// Memory was refused.
    Memory,
}

impl From<AllocError> for Unread {
    ghost use Rattle.cpu_trace.specs.declared.reading.Unread.TheVariants.{Memory};

    ghost from_gives = { λ _ unread. unread ≡ Memory };

    fn from(_error: AllocError) -> Self {
        Unread::Memory
    }
}

impl Unread {
    /// Why lines that follow `lines` others are not read.
    fn told_behind(self, lines: u64) -> Unread
        requires { lines + line_told self < 2 ^ 64 }
        ensures { result ≡ told_behind lines self }
    {
        match self {
            Unread::BadLine { line, cause } => Unread::BadLine {
                line: lines + line,
                cause,
            },
            Unread::Memory => Unread::Memory,
        }
    }

    /// The fault of a core's trace whose lines are not read.
    pub(crate) fn fault(self, core: CoreId) -> Fault
        ensures { result ≡ fault_of core self }
    {
        match self {
            Unread::BadLine { line, cause } => Fault::TraceLine { core, line, cause },
            Unread::Memory => Fault::Memory,
        }
    }
}

/// Whether the entries of a line may follow others.
pub(crate) fn has_room(entries: &Entries, line: Option<Line>) -> bool
    ensures { IsTrue result ↔ (length entries.now + length (entries_in line) ≤ 2 ^ 62) }
{
    let Some(line) = line else {
        return entries.len() <= MOST_ENTRIES;
    };
    let more = if line.write.is_some() { 2 } else { 1 };
    line.plain <= MOST_ENTRIES && entries.len() + line.plain + more <= MOST_ENTRIES
}

/// Adds the entries of a line.
pub(crate) fn add_line(entries: &mut Entries, line: Option<Line>) -> Result<(), AllocError>
    requires { length entries.old + length (entries_in line) ≤ 2 ^ 62 }
    ensures { OnOk result (entries.new ≡ entries.old ++ entries_in line) }
{
    let Some(line) = line else {
        return Ok(());
    };
    entries.add(line.plain, Entry::Read(line.read))?;
    if let Some(address) = line.write {
        entries.add(0, Entry::Write(address))?;
    }
    Ok(())
}

/// What was kept so far, with the entries of a line. Nothing is kept of a trace that is too long.
pub(crate) fn extended(
    so_far: Option<Entries>,
    line: Option<Line>,
) -> Result<Option<Entries>, AllocError>
    ensures { IfOk result (λ all. all ≡ appended so_far (entries_in line)) }
{
    let Some(mut entries) = so_far else {
        return Ok(None);
    };
    if !has_room(&entries, line) {
        return Ok(None);
    }
    add_line(&mut entries, line)?;
    Ok(Some(entries))
}

/// What was kept of lines, with what was kept of those after them.
fn joined(so_far: Option<Entries>, more: &Option<Entries>) -> Result<Option<Entries>, AllocError>
    ensures { IfOk result (λ all. all ≡ joined so_far more.now) }
{
    let (Some(mut entries), Some(more)) = (so_far, more) else {
        return Ok(None);
    };
    if entries.len() + more.len() > MOST_ENTRIES {
        return Ok(None);
    }
    entries.append(more)?;
    Ok(Some(entries))
}

impl Reading {
    /// What no lines have.
    pub(crate) fn new(alloc: Global) -> Self
        ensures { IsReadingOf [] result }
    {
        Reading {
            lines: 0,
            kept: Some(Entries::new(alloc)),
        }
    }

    /// What these lines and those after them have together. If the latter were not read, the result says why.
    pub(crate) fn followed_by(self, next: Result<Reading, Unread>) -> Result<Reading, Unread>
        requires { self.lines + lines_told next < 2 ^ 64 }
        ensures { (lines behind : List (List ℕ)) → IsReadingOf lines self → IsRead behind next
            → IsRead (lines ++ behind) result }
    {
        match next {
            Ok(more) => Ok(Reading {
                lines: self.lines + more.lines,
                kept: joined(self.kept, &more.kept)?,
            }),
            Err(why) => Err(why.told_behind(self.lines)),
        }
    }
}
