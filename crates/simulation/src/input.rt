//! The input of a run, read and tested.

ghost use Rattle.std.specs.Prelude.{◌≡◌, ◌≤◌, ◌<◌, ◌^◌, ◌==◌, ◌&&◌, ◌↔◌, nat_le, length, vec_len, IsTrue, Ok, IfOk, IfErr, IfSome};
ghost use Rattle.std.specs.List.{AllZip, range_with_len};
ghost use Rattle.config_reader.specs.Document.{document_of};
ghost use Rattle.sim_base.specs.Values.{values_of};
ghost use Rattle.simulation.specs.Runs.{unless, limits_of, traces_of, IsTraceFault, IsTracesFault, IsInputFault, PassesTests};
ghost use Rattle.sim_base.specs.Texts.{IsTextAt, texts_of};
ghost use Rattle.simulation.specs.Traces.{text_of, len_to_read, bytes_to_read, trace_in, AreTwins, IsTraceFor, IsFound, IsBefore};

use config_reader::read_config;
use cpu_trace::reader::read_trace;
use cpu_trace::trace::Trace;
use rayon::prelude::*;
use sim_base::config::Config;
use sim_base::fault::Fault;
use sim_base::message::{CoreId, Cycle};
use std::alloc::{AllocError, Global};
use std::thread::Threads;

/// The greatest limit of a run, in cycles.
pub const MOST_CYCLES: Cycle = 1_000_000_000_000;

/// The greatest number of workers.
pub const MOST_WORKERS: u64 = 64;

/// The bytes of a run's input: of its configuration, and of a trace for each core, by number.
#[derive(Clone, Copy)]
pub struct InputTexts<'a> {
    pub config: &'a [u8],
    pub traces: &'a [&'a [u8]],
}

/// One trace per core.
fn check_count(cores: u16, texts: usize) -> Result<(), Fault>
    ensures { result ≡ unless (texts == cores) Fault.TraceCount }
{
    if texts == usize::from(cores) {
        Ok(())
    } else {
        Err(Fault::TraceCount)
    }
}

fn check_workers(workers: u64) -> Result<(), Fault>
    ensures { result ≡ unless (nat_le 1 workers && nat_le workers 64) Fault.Workers }
{
    if 1 <= workers && workers <= MOST_WORKERS {
        Ok(())
    } else {
        Err(Fault::Workers)
    }
}

fn check_cycles(cycles: Cycle) -> Result<(), Fault>
    ensures { result ≡ unless (nat_le cycles 1000000000000) Fault.Cycles }
{
    if cycles <= MOST_CYCLES {
        Ok(())
    } else {
        Err(Fault::Cycles)
    }
}

#[tactic(auto, unfolding(crate::specs::Runs::limits_of))]
fn check_limits(cores: u16, texts: usize, cycles: Cycle, workers: u64) -> Result<(), Fault>
    ensures { result ≡ limits_of cores texts cycles workers }
{
    check_count(cores, texts)?;
    check_workers(workers)?;
    check_cycles(cycles)
}

/// A core before this one that is given the same text.
fn earlier(texts: &[&[u8]], core: usize, text: &[u8]) -> Option<usize>
    ensures before { IfSome result (λ first. first < core) }
    ensures same { IfSome result (IsTextAt texts.now text.entry) }
{
    for first in 0..core.min(texts.len()) {
        if texts[first] == text {
            return Some(first);
        }
    }
    None
}

/// For each core an earlier one that is given the same text, its source, if there is one.
fn find_twins(alloc: Global, texts: &[&[u8]]) -> Result<Vec<Option<usize>>, AllocError>
    ensures count { IfOk result (λ sources. length sources.items ≡ length texts.now) }
    ensures sources { IfOk result (λ sources. AreTwins (texts_of texts.now) sources.items) }
{
    let mut sources: Vec<Option<usize>> = Vec::new(alloc);
    for text in texts {
        let source = earlier(texts, sources.len(), text);
        sources.push(source)?;
    }
    Ok(sources)
}

/// How many bytes of a core's text are read: all, or none if the core has a source.
fn len_to_read(text: &[u8], source: Option<usize>) -> usize
    ensures { result ≡ len_to_read text.now source }
{
    match source {
        Some(_) => 0,
        None => text.len(),
    }
}

/// More bytes than this are worth several threads.
const FEW_BYTES: usize = 1 << 18;

/// Whether more than `FEW_BYTES` bytes of texts are read.
fn are_long(texts: &[&[u8]], sources: &[Option<usize>]) -> bool
    requires { length sources.now ≡ length texts.now }
    ensures { IsTrue result ↔ (2 ^ 18 < bytes_to_read (texts_of texts.now) sources.now) }
{
    let mut left = FEW_BYTES;
    for core in 0..texts.len() {
        let len = len_to_read(texts[core], sources[core]);
        if left < len {
            return true;
        }
        left -= len;
    }
    false
}

/// The trace of a core: its own, or the trace of its source.
#[derive(Drop)]
enum CoreTrace {
    Own(Trace),
    SharedWith(usize),
}

/// The trace of a core, for which no other trace has to be read.
fn find_trace<R: Threads + Sync>(
    rt: &R,
    alloc: Global,
    texts: &[&[u8]],
    sources: &[Option<usize>],
    core: usize,
) -> Result<CoreTrace, Fault>
    requires core { (core < length texts.now) × (core < length sources.now) }
    requires few { length texts.now ≤ 256 }
    requires sources { AreTwins (texts_of texts.now) sources.now }
    ensures found { IfOk result (IsTraceFor (texts_of texts.now) core) }
    ensures refused { IfErr result (IsTraceFault core (text_of (texts_of texts.now) core)) }
{
    match sources[core] {
        Some(first) => Ok(CoreTrace::SharedWith(first)),
        None => match read_trace(rt, alloc, core as CoreId, texts[core]) {
            Ok(trace) => Ok(CoreTrace::Own(trace)),
            Err(fault) => Err(fault),
        },
    }
}

/// The traces of all cores, by core. If many bytes are read, then in as many threads as there are processors.
fn find_traces<R: Threads + Sync>(
    rt: &R,
    alloc: Global,
    texts: &[&[u8]],
    sources: &[Option<usize>],
) -> Result<Vec<Result<CoreTrace, Fault>>, AllocError>
    requires few { length texts.now ≤ 256 }
    requires count { length sources.now ≡ length texts.now }
    requires sources { AreTwins (texts_of texts.now) sources.now }
    ensures { IfOk result (λ found. AllZip (IsFound (texts_of texts.now))
        (range_with_len 0 (length texts.now)) found.items) }
{
    let least = if are_long(texts, sources) {
        1
    } else {
        texts.len()
    };
    (0..texts.len())
        .into_par_iter()
        .with_min_len(least)
        .map(
            |core: usize| -> Result<CoreTrace, Fault>
                requires { (core < length texts.now) × (core < length sources.now)
                    × (length texts.now ≤ 256) × AreTwins (texts_of texts.now) sources.now }
                ensures { IsFound (texts_of texts.entry.now) core result }
            { find_trace(rt, alloc, texts, sources, core) },
        )
        .collect(rt, alloc)
}

/// The trace that was found for the next core, where `traces` are the traces of the cores before it.
fn next_trace(traces: &[Trace], found: CoreTrace) -> Result<Trace, AllocError>
    requires { IsBefore (length traces.now) found }
    ensures { IfOk result (λ trace. trace ≡ trace_in traces.now found) }
{
    match found {
        CoreTrace::Own(trace) => Ok(trace),
        CoreTrace::SharedWith(first) => traces[first].copy(),
    }
}

/// The traces of the cores, in their order.
fn read_traces<R: Threads + Sync>(
    rt: &R,
    alloc: Global,
    texts: &[&[u8]],
) -> Result<Vec<Trace>, Fault>
    requires { length texts.now ≤ 256 }
    ensures ok { IfOk result (λ v. traces_of 0 (texts_of texts.now) ≡ Ok v.items) }
    ensures count { IfOk result (λ v. vec_len v ≡ length texts.now) }
    ensures refused { IfErr result (IsTracesFault (texts_of texts.now)) }
{
    let sources = find_twins(alloc, texts)?;
    let mut traces: Vec<Trace> = Vec::new(alloc);
    for found in find_traces(rt, alloc, texts, &sources)? {
        let found = match found {
            Ok(found) => found,
            Err(fault) => return Err(fault),
        };
        let trace = next_trace(&traces, found)?;
        let Ok(()) = traces.push(trace) else {
            return Err(Fault::Memory);
        };
    }
    Ok(traces)
}

/// The configuration and the traces of a run, one trace per core, after all tests of its input.
///
/// The input is tested in this order: the configuration, the number of traces, the number of workers (1 to 64), the
/// limit (at most 10^12 cycles), and the traces by core. The first fault is returned. `Fault::Memory` may come at any
/// time.
pub fn read_input<R: Threads + Sync>(
    rt: &R,
    alloc: Global,
    input: InputTexts<'_>,
    cycles: Cycle,
    workers: u64,
) -> Result<(Config, Vec<Trace>), Fault>
    ensures configured { IfOk result (λ r.
        document_of input.entry.config.now ≡ Ok (values_of r.0)) }
    ensures traces { IfOk result (λ r.
        traces_of 0 (texts_of input.entry.traces.now) ≡ Ok r.1.items) }
    ensures input { IfOk result
        (λ r. PassesTests input.entry.config.now (texts_of input.entry.traces.now)
        cycles workers r.1.items) }
    ensures count { IfOk result (λ r. vec_len r.1 ≡ r.0.cores) }
    ensures workers { IfOk result (λ _. (1 ≤ workers) × (workers ≤ 64)) }
    ensures cycles { IfOk result (λ _. cycles ≤ 10 ^ 12) }
    ensures refused { IfErr result
        (IsInputFault input.entry.config.now (texts_of input.entry.traces.now) cycles workers) }
{
    let config = match read_config(alloc, input.config) {
        Ok(config) => config,
        Err(fault) => return Err(fault),
    };
    if let Err(fault) = check_limits(config.cores, input.traces.len(), cycles, workers) {
        return Err(fault);
    }
    let traces = match read_traces(rt, alloc, input.traces) {
        Ok(traces) => traces,
        Err(fault) => return Err(fault),
    };
    Ok((config, traces))
}
