//! A shard's job in a phase, and what comes of it.

ghost use Rattle.std.specs.Prelude.{◌≡◌, IfOk};

use crate::shard::Shard;
use crew::work::DoneOf;
use sim_base::message::{Cycle, Message};
use std::alloc::AllocError;
use std::marker::Model;

/// The name of a job: the number of the phase, the number of the shard, and the cycles of the phase, from `from` up to
/// `until`.
#[derive(Clone, Copy, Debug, PartialEq, Eq)]
pub struct JobName {
    pub phase: u64,
    pub shard: usize,
    pub from: Cycle,
    pub until: Cycle,
}

/// A shard at the end of a phase, with what was sent to it in that phase, and the name of its job in the next.
#[derive(Drop)]
pub struct Job {
    pub(crate) name: JobName,
    pub(crate) shard: Box<Shard>,
    pub(crate) inbound: Vec<Vec<Message>>,
}

impl Model for Job {
    ghost use Rattle.shards.specs.Jobs.{JobView};

    ghost Value = { JobView };

    ghost use Rattle.units.specs.contracts.machine.Machine as of_machine;
    ghost use Rattle.std.specs.Coded.{codes};

    ghost coded = { Prim.hlevel (codes, of_machine.the_row.coded) };

    ghost use Rattle.shards.specs.Jobs.{IsOwnJob, job_view};

    ghost view = { λ t. job_view t.shard.value t.name };

    ghost invariant = { λ t. IsOwnJob t.name t.shard.value t.inbound.items };
}

/// What came of a job: the shard at the end of the phase, with what it sent in it, by the shard that it goes to, and
/// a cycle before which it sends nothing more and nothing that it sent arrives.
#[derive(Drop)]
pub struct Done {
    pub(crate) name: JobName,
    pub(crate) shard: Box<Shard>,
    pub(crate) outbound: Vec<Vec<Message>>,
    pub(crate) wake: Cycle,
}

impl Model for Done {
    ghost use Rattle.shards.specs.Jobs.{JobView};

    ghost Value = { JobView };

    ghost use Rattle.units.specs.contracts.machine.Machine as of_machine;
    ghost use Rattle.std.specs.Coded.{codes};

    ghost coded = { Prim.hlevel (codes, of_machine.the_row.coded) };

    ghost use Rattle.shards.specs.Jobs.{IsOwnDone, job_view};

    ghost view = { λ t. job_view t.shard.value t.name };

    ghost invariant = { λ t. IsOwnDone t.name t.wake t.shard.value t.outbound.items };
}

impl DoneOf<Job> for Done {
    ghost task = { λ done. done };
}

impl Done {
    /// The name of the job whose result this is.
    pub fn name(&self) -> JobName
        ensures { result ≡ self.now.name }
    {
        self.name
    }
}

impl Job {
    /// The name of the job.
    pub fn name(&self) -> JobName
        ensures { result ≡ self.now.name }
    {
        self.name
    }

    /// Runs the shard over the phase. The only error is out of memory; the shard is then gone.
    pub fn run(self) -> Result<Done, AllocError>
        ensures { IfOk result (λ done. done ≡ self) }
    {
        let Job {
            name,
            mut shard,
            mut inbound,
        } = self;
        shard.take_up(&mut inbound)?;
        let wake = shard.go(name.from, name.until)?;
        shard.sort_sent(&mut inbound)?;
        Ok(Done {
            name,
            shard,
            outbound: inbound,
            wake,
        })
    }
}
