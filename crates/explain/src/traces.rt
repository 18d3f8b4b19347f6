//! Why a trace is refused.

ghost use Rattle.std.specs.Prelude.{◌≡◌, ℕ, false, IfOk};
ghost use Rattle.sim_base.specs.declared.fault.Fault.TheVariants.{TraceLine, TraceTooLong};
ghost use Rattle.sim_base.specs.declared.fault.LineCause.{LineCause};
ghost use Rattle.refusal.specs.Heads.{line_head};
ghost use Rattle.sim_base.specs.Texts.{IsText};
ghost use Rattle.explain.specs.Heads.{StartsBy, IsSilent, trace_path, length_text};
ghost use Rattle.explain.specs.Silence.{is_of_traces};

use crate::explain_text::traces::line_text;
use crate::heads::behind;
use refusal::heads::line_head;
use sim_base::fault::Fault;
use sim_base::message::CoreId;
use std::alloc::{AllocError, Global};

fn path_of<'a>(paths: &[&'a str], core: CoreId) -> &'a str
    ensures { result.now ≡ trace_path paths.now core }
{
    match paths.get(usize::from(core)) {
        Some(path) => path,
        None => "trace",
    }
}

fn text_of<'a>(texts: &[&'a [u8]], core: CoreId) -> &'a [u8] {
    match texts.get(usize::from(core)) {
        Some(text) => text,
        None => b"",
    }
}

// What is said of a line of a core's trace.
fn of_line(
    alloc: Global,
    core: CoreId,
    line: u64,
    paths: &[&str],
    texts: &[&[u8]],
) -> Result<String, AllocError>
    ensures { IfOk result (StartsBy (line_head (trace_path paths.now core) line)) }
{
    let path = path_of(paths, core);
    let head = line_head(alloc, path, line)?;
    behind(head, line_text(alloc, path, line, text_of(texts, core)))
}

/// Explains a fault of a core's trace, 5 or 6, by the paths and the texts of all traces.
pub fn of_traces(
    alloc: Global,
    fault: Fault,
    paths: &[&str],
    texts: &[&[u8]],
) -> Result<String, AllocError>
    ensures silent { is_of_traces fault ≡ false → IfOk result IsSilent }
    ensures line { (core line : ℕ) (cause : LineCause) → fault ≡ TraceLine core line cause
        → IfOk result (StartsBy (line_head (trace_path paths.now core) line)) }
    ensures long { (core : ℕ) → fault ≡ TraceTooLong core
        → IfOk result (IsText (length_text (trace_path paths.now core))) }
{
    match fault {
        Fault::TraceLine { core, line, .. } => of_line(alloc, core, line, paths, texts),
        Fault::TraceTooLong { core } => {
            let path = path_of(paths, core);
            format!(in alloc;
                "{path}: its lines stand for more than 2^62 entries: 'COUNT READ' for COUNT + 1, 'COUNT READ WRITE' for COUNT + 2\n"
            )
        }
        _ => Ok(String::new(alloc)),
    }
}
