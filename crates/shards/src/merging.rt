//! How the results of a phase are put together, in whatever order they come.

ghost use Rattle.std.specs.Prelude.{◌≡◌, ◌<◌, [], Some, None, Err, length, map, is_some, slice_index_or, All, IfOk, IfErr, IfSome, IsOkUnless, OnOk};
ghost use Rattle.shards.specs.Merging.{AreAllThere, ArePlaced, IsMissing, IsNameFault, IsOf, IsFirstFault, IsOneOfEach, IsPut, IsWhyUnmerged, fault_in, has_span, is_among, names_in, names_of, results_at};
ghost use Rattle.shards.specs.Phases.{TakesApartAny, ended, jobs_of, shard_count};

use crate::exchange::by_receiver;
use crate::job::{Done, JobName};
use crate::shard::Shard;
use crate::sharded::ShardedSim;
use sim_base::fault::MergeFault;
use sim_base::message::{Cycle, Message};
use std::alloc::{AllocError, Global};
use std::marker::Model;
use std::sync::Arc;
use units::machine::Machine;

/// The cycles of a phase, from `from` up to `until`, and its number.
#[derive(Clone, Copy)]
pub(crate) struct PhaseSpan {
    pub number: u64,
    pub from: Cycle,
    pub until: Cycle,
}

/// What a phase is: the cycles of a machine in shards.
#[derive(Drop)]
pub(crate) struct Outline {
    pub machine: Arc<Machine>,
    /// The place where each shard begins, and the number of units.
    pub bounds: Vec<usize>,
    pub span: PhaseSpan,
}

impl Model for Outline {
    ghost use Rattle.std.specs.Arc.{arc_value};
    ghost use Rattle.shards.specs.Phases.{PhaseView};

    ghost Value = { PhaseView };

    ghost use Rattle.units.specs.contracts.machine.Machine as of_machine;
    ghost use Rattle.std.specs.Coded.{codes};

    ghost coded = { Prim.hlevel (codes, of_machine.the_row.coded) };

    ghost use Rattle.shards.specs.Phases.{IsPhase, phase_over};

    ghost view = { λ p. phase_over (arc_value p.machine) p.bounds.items p.span };

    ghost invariant = { λ p. IsPhase (phase_over (arc_value p.machine) p.bounds.items p.span) };
}

/// A phase, while its jobs are out.
#[derive(Drop)]
pub struct Phase {
    pub(crate) outline: Outline,
    /// A place for the result of each shard, all of them empty. They are made with the jobs, so that what is wrong
    /// with results is told even where memory is short.
    pub(crate) places: Vec<Option<Done>>,
}

impl Model for Phase {
    ghost use Rattle.std.specs.Prelude.{◌≡◌, []};
    ghost use Rattle.shards.specs.Phases.{PhaseView};
    ghost use Rattle.shards.specs.Merging.{results_at};

    ghost Value = { PhaseView };

    ghost use Rattle.units.specs.contracts.machine.Machine as of_machine;
    ghost use Rattle.std.specs.Coded.{codes};

    ghost coded = { Prim.hlevel (codes, of_machine.the_row.coded) };

    ghost view = { λ p. p.outline };

    ghost invariant = { λ p. p.places.items ≡ results_at p.outline [] };
}

impl Phase {
    /// The number of the phase.
    pub fn number(&self) -> u64
        ensures { result ≡ self.now.number }
    {
        self.outline.span.number
    }
}

/// What came of the jobs of a phase, shard by shard.
#[derive(Drop)]
struct TakenApart {
    shards: Vec<Box<Shard>>,
    outbound: Vec<Vec<Vec<Message>>>,
    wake: Cycle,
}

/// A place for the result of each shard, with nothing in it.
pub(crate) fn no_results(alloc: Global, phase: &Outline) -> Result<Vec<Option<Done>>, AllocError>
    ensures { IfOk result (λ places. places.items ≡ results_at phase.now []) }
{
    let count = phase.bounds.len() - 1;
    let mut places = Vec::with_capacity(alloc, count)?;
    for _ in 0..count {
        places.push(None)?;
    }
    Ok(places)
}

/// Whether a name has the number and the cycles of a phase.
fn has_span(phase: &Outline, name: JobName) -> bool
    ensures { result ≡ has_span phase.now name }
{
    name.phase == phase.span.number
        && (name.from == phase.span.from && name.until == phase.span.until)
}

/// Whether a job of the phase has this name.
fn is_of_phase(phase: &Outline, name: JobName) -> bool
    ensures { result ≡ is_among (names_of phase.now) name }
{
    has_span(phase, name) && name.shard < phase.bounds.len() - 1
}

/// Whether there is a result in a place.
fn is_filled(places: &[Option<Done>], shard: usize) -> bool
    requires { shard < length places.now }
    ensures { result ≡ is_some (slice_index_or places.now shard None) }
{
    places[shard].is_some()
}

/// Puts a result, which comes after `index` others, in the place of its shard.
fn put(
    phase: &Outline,
    places: &mut Vec<Option<Done>>,
    done: Done,
    index: usize,
) -> Result<(), MergeFault>
    requires count { length places.old.items ≡ shard_count phase.now }
    requires of { IsOf phase.now done }
    ensures count { length places.new.items ≡ shard_count phase.now }
    ensures ok { OnOk result (IsPut phase.now index done.name places.old.items places.new.items) }
    ensures err { IfErr result (IsNameFault phase.now index done.name places.old.items) }
{
    let name = done.name();
    if !is_of_phase(phase, name) {
        return Err(MergeFault::Stranger(index));
    }
    if is_filled(places, name.shard) {
        return Err(MergeFault::Double(index));
    }
    places[name.shard] = Some(done);
    Ok(())
}

/// The results of a phase, each put in the place of its shard, of which all are empty. The first result that belongs
/// to no job of the phase, or whose name came earlier, is a fault.
fn sorted_by_shard(
    phase: &Outline,
    empty: Vec<Option<Done>>,
    results: Vec<Done>,
) -> Result<Vec<Option<Done>>, MergeFault>
    requires empty { empty.items ≡ results_at phase.now [] }
    requires of { All (IsOf phase.now) results.items }
    ensures ok { IfOk result (λ v. ArePlaced phase.now (names_in results.items) v.items) }
    ensures err { IfErr result (IsFirstFault phase.now (names_in results.items)) }
{
    let mut places = empty;
    let mut read = 0;
    for done in results {
        put(phase, &mut places, done, read)?;
        read += 1;
    }
    Ok(places)
}

/// Whether each shard has a result. The least shard that has none is a fault.
fn are_all_there(places: &[Option<Done>]) -> Result<(), MergeFault>
    ensures ok { OnOk result (AreAllThere places.now) }
    ensures err { IfErr result (IsMissing places.now) }
{
    for shard in 0..places.len() {
        if !is_filled(places, shard) {
            return Err(MergeFault::Missing(shard));
        }
    }
    Ok(())
}

/// Takes apart the results that are in their places.
fn take_apart(alloc: Global, places: Vec<Option<Done>>) -> Result<TakenApart, AllocError>
    ensures { IfOk result (λ r. TakesApartAny places.items r.wake r.shards.items r.outbound.items) }
{
    let mut shards = Vec::with_capacity(alloc, places.len())?;
    let mut outbound = Vec::with_capacity(alloc, places.len())?;
    let mut first = Cycle::MAX;
    for place in places {
        let Some(done) = place else { continue };
        let Done {
            shard,
            outbound: lists,
            wake,
            ..
        } = done;
        shards.push(shard)?;
        outbound.push(lists)?;
        first = first.min(wake);
    }
    Ok(TakenApart {
        shards,
        outbound,
        wake: first,
    })
}

/// The simulator at the end of a phase, from the results of all its jobs in their places.
fn joined(
    phase: Outline,
    alloc: Global,
    places: Vec<Option<Done>>,
) -> Result<ShardedSim, AllocError>
    requires all { places.items ≡ map Some (jobs_of phase) }
    ensures { IfOk result (λ sim. sim ≡ ended phase) }
{
    let Outline {
        machine,
        bounds,
        span,
    } = phase;
    let TakenApart {
        shards,
        outbound,
        wake,
    } = take_apart(alloc, places)?;
    let inbound = by_receiver(alloc, outbound)?;
    Ok(ShardedSim {
        machine,
        bounds,
        shards,
        inbound,
        now: span.until,
        phase: span.number + 1,
        wake,
    })
}

/// Puts the results of a phase together, in whatever order they come: the simulator then stands at the end of the
/// phase. The first result of the list that belongs to no job of the phase, or whose name came earlier, is a fault, and
/// otherwise the least shard without a result. A fault is told even where memory is short. Where there is one result of
/// each job, only memory can be refused.
pub fn merge(phase: Phase, alloc: Global, results: Vec<Done>) -> Result<ShardedSim, MergeFault>
    requires of { All (IsOf phase) results.items }
    ensures ok { IfOk result (λ sim. sim ≡ ended phase) }
    ensures fits { OnOk result (fault_in phase results.items ≡ None) }
    ensures exact { IfSome (fault_in phase results.items) (λ fault. result ≡ Err fault) }
    ensures err { IfErr result (IsWhyUnmerged phase results.items) }
    ensures whole { IsOneOfEach phase results.items → IsOkUnless result MergeFault.Memory }
{
    let Phase { outline, places } = phase;
    let places = sorted_by_shard(&outline, places, results)?;
    are_all_there(&places)?;
    match joined(outline, alloc, places) {
        Ok(sim) => Ok(sim),
        Err(_) => Err(MergeFault::Memory),
    }
}
