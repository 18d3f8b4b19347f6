//! Row hits among commands.

ghost use Rattle.std.specs.Prelude.{◌≡◌, ℕ, count_by, IfOk, OnOk};
ghost use Rattle.std.specs.HashSet.{contains};
ghost use Rattle.measures.specs.Hits.{has_act, same_entry, is_hit_without, with_entry};
ghost use Rattle.sim_base.specs.Counts.{hits};

use sim_base::command::{Command, IssuedCommand};
use sim_base::message::CoreId;
use std::alloc::{AllocError, Global};
use std::collections::HashSet;

/// The entries of traces, each by its core, on whose behalf a command was issued.
type Entries = HashSet<(CoreId, u64)>;

// Takes in one more command: if it is an ACT, the entry on whose behalf it was issued.
fn take_in(entries: &mut Entries, command: Command) -> Result<(), AllocError>
    ensures { OnOk result ((q : ℕ × ℕ) → contains same_entry entries.new q
        ≡ with_entry command q (contains same_entry entries.old q)) }
{
    if let Command::Act { source, .. } = command {
        entries.insert((source.core, source.entry))?;
    }
    Ok(())
}

// The entries on whose behalf an ACT was issued.
#[tactic(auto, using(crate::proofs::Acts::one_more))]
fn with_acts(alloc: Global, commands: &[IssuedCommand]) -> Result<Entries, AllocError>
    ensures { IfOk result (λ entries. (q : ℕ × ℕ)
        → contains same_entry entries q ≡ has_act commands.now q) }
{
    let mut entries = HashSet::new(alloc);
    for issued in commands {
        take_in(&mut entries, issued.command)?;
    }
    Ok(entries)
}

// Whether a command is a column command for a request that has no ACT among these.
fn is_hit(entries: &Entries, issued: IssuedCommand) -> bool
    ensures { result ≡ is_hit_without (contains same_entry entries.now) issued.command }
{
    match issued.command {
        Command::Rd { source, .. } | Command::Wr { source, .. } => {
            !entries.contains(&(source.core, source.entry))
        }
        _ => false,
    }
}

// How many commands are column commands for a request that has no ACT among these.
fn count_hits(entries: &Entries, commands: &[IssuedCommand]) -> u64
    ensures { result ≡ count_by (λ i. is_hit_without (contains same_entry entries.now) i.command)
        commands.now }
{
    commands
        .iter()
        .filter(move |issued| is_hit(entries, **issued))
        .count() as u64
}

/// How many commands are column commands for a request for which there was no ACT. The only error is out of memory.
pub(crate) fn hits(alloc: Global, commands: &[IssuedCommand]) -> Result<u64, AllocError>
    ensures { IfOk result (λ count. count ≡ hits commands.now) }
{
    let entries = with_acts(alloc, commands)?;
    Ok(count_hits(&entries, commands))
}
