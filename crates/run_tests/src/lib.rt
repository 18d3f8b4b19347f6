//! Tests of runs: of a machine from its bytes, of its workers and of their phases, and of the order in which the
//! results of a phase come.
#![tactic(auto)]

#[cfg(test)]
mod expect;
#[cfg(test)]
mod first_faults;
#[cfg(test)]
mod gates;
#[cfg(test)]
mod generated;
#[cfg(test)]
mod little_memory;
#[cfg(test)]
mod ordered_runs;
#[cfg(test)]
mod outcomes;
#[cfg(test)]
mod phase_counts;
#[cfg(test)]
mod phases;
#[cfg(test)]
mod request_times;
#[cfg(test)]
mod same;
#[cfg(test)]
mod shared_out;
#[cfg(test)]
mod watchers;
