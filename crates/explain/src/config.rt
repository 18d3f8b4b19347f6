//! Why a configuration is refused.

ghost use Rattle.std.specs.Prelude.{◌≡◌, true, false, IfOk};
ghost use Rattle.refusal.specs.Heads.{file_head};
ghost use Rattle.explain.specs.Heads.{StartsBy, IsSilent};
ghost use Rattle.explain.specs.Silence.{is_of_config};

use crate::explain_text::config::config_text;
use crate::heads::behind;
use refusal::heads::file_head;
use sim_base::fault::Fault;
use std::alloc::{AllocError, Global};

/// Explains a fault of a configuration, 1 to 4, by its document.
pub fn of_config(
    alloc: Global,
    fault: Fault,
    path: &str,
    document: &[u8],
) -> Result<String, AllocError>
    ensures silent { is_of_config fault ≡ false → IfOk result IsSilent }
    ensures file { is_of_config fault ≡ true → IfOk result (StartsBy (file_head path.now)) }
{
    match fault {
        Fault::ConfigSyntax
        | Fault::ConfigKey(_)
        | Fault::ConfigRange(_)
        | Fault::ConfigRelation(_) => {
            let head = file_head(alloc, path)?;
            behind(head, config_text(alloc, fault, path, document))
        }
        _ => Ok(String::new(alloc)),
    }
}
