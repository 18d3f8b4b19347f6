//! What the program has done.

ghost use Rattle.std.specs.Prelude.{◌≡◌, None};
ghost use Rattle.program.specs.Done.{done_unwarned, run_done, warned_done};

use crate::status::ExitStatus;
use refusal::reason::Reason;
use refusal::refusal::Refusal;
use refusal::warning::LargePage;

/// What has been done: the status of the program, and what it warns of.
#[derive(Clone, Copy)]
pub(crate) struct Done {
    pub(crate) status: ExitStatus,
    pub(crate) warning: Option<LargePage>,
}

impl Done {
    /// Done, with nothing to warn of.
    pub(crate) fn unwarned() -> Done
        ensures status { result.status ≡ ExitStatus.Done }
        ensures warning { result.warning ≡ None }
    {
        Done::with_warning(None)
    }

    /// Done, with this to warn of, if there is something.
    pub(crate) fn with_warning(warning: Option<LargePage>) -> Done
        ensures status { result.status ≡ ExitStatus.Done }
        ensures warning { result.warning ≡ warning }
    {
        Done {
            status: ExitStatus::Done,
            warning,
        }
    }

    /// Done with a status, and nothing to warn of.
    pub(crate) fn with_status(status: ExitStatus) -> Done
        ensures status { result.status ≡ status }
        ensures warning { result.warning ≡ None }
    {
        Done {
            status,
            warning: None,
        }
    }
}

/// What an answer has done that warns of nothing.
pub(crate) fn done_unwarned(answer: Result<(), Reason>) -> Result<Done, Refusal>
    ensures { result ≡ done_unwarned answer }
{
    match answer {
        Ok(()) => Ok(Done::unwarned()),
        Err(reason) => Err(Refusal::Kept(reason)),
    }
}

/// What a run has done.
pub(crate) fn run_done(run: Result<(), Refusal>) -> Result<Done, Refusal>
    ensures { result ≡ run_done run }
{
    match run {
        Ok(()) => Ok(Done::unwarned()),
        Err(refusal) => Err(refusal),
    }
}

/// What a page has done, and what it warns of.
pub(crate) fn warned_done(page: Result<Option<LargePage>, Reason>) -> Result<Done, Refusal>
    ensures { result ≡ warned_done page }
{
    match page {
        Ok(warning) => Ok(Done::with_warning(warning)),
        Err(reason) => Err(Refusal::Kept(reason)),
    }
}
