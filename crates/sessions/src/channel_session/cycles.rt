//! Cycles of a session, or of a memory of several: where a run may end.

ghost use Rattle.std.specs.Prelude.{◌≡◌};
ghost use Rattle.sessions.specs.Sessions.{end_refusal};

use crate::channel_session::fault::SessionFault;
use sim_base::message::Cycle;

/// The last cycle at which a session may stand: 2^62.
const LAST_CYCLE: Cycle = 1 << 62;

/// Why a run from one cycle up to another is refused, if it is.
pub fn end_refusal(now: Cycle, until: Cycle) -> Option<SessionFault>
    ensures { result ≡ end_refusal now until }
{
    if until < now {
        Some(SessionFault::EndPassed)
    } else if LAST_CYCLE < until {
        Some(SessionFault::EndTooLate)
    } else {
        None
    }
}
