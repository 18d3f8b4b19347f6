//! Which commands move data for a request that no ACT was issued for.

ghost use Rattle.std.specs.Prelude.{◌≡◌};
ghost use Rattle.std.specs.List.{list_any};
ghost use Rattle.sim_base.specs.Counts.{is_act_for, is_hit_of, is_hit};

use sim_base::command::{Command, IssuedCommand, Source};

fn opens_for(source: Source, command: Command) -> bool
    ensures { result ≡ is_act_for source command }
{
    match command {
        Command::Act { source: other, .. } => {
            source.core == other.core && source.entry == other.entry
        }
        _ => false,
    }
}

fn was_opened_for(source: Source, history: &[IssuedCommand]) -> bool
    ensures { result ≡ list_any (λ i. is_act_for source i.command) history.now }
{
    history.iter().any(move |i| opens_for(source, i.command))
}

fn needs_no_act(history: &[IssuedCommand], source: Option<Source>) -> bool
    ensures { result ≡ is_hit_of history.now source }
{
    match source {
        Some(source) => !was_opened_for(source, history),
        None => false,
    }
}

/// Whether a command moves data for a request that no ACT before it was issued for.
pub fn is_command_hit(history: &[IssuedCommand], command: Command) -> bool
    ensures { result ≡ is_hit history.now command }
{
    command.is_column() && needs_no_act(history, command.source())
}
