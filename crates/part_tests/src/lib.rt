//! Tests of the parts of a run, a module for each crate or table: of what is read, written and counted, of the plain
//! machine, of what a channel and the links are made of, and of channels in sessions. What is said of configurations
//! and tables that are refused is tried on the built program.
#![tactic(auto)]

#[cfg(test)]
mod addresses;
#[cfg(test)]
mod channels;
#[cfg(test)]
mod command_pieces;
#[cfg(test)]
mod command_tables;
#[cfg(test)]
mod commands;
#[cfg(test)]
mod counts;
#[cfg(test)]
mod distances;
#[cfg(test)]
mod documents;
#[cfg(test)]
mod drains;
#[cfg(test)]
mod expect;
#[cfg(test)]
mod faults;
#[cfg(test)]
mod final_tables;
#[cfg(test)]
mod flights;
#[cfg(test)]
mod lanes;
#[cfg(test)]
mod plain_machine;
#[cfg(test)]
mod readiness;
#[cfg(test)]
mod refreshes;
#[cfg(test)]
mod slow;
#[cfg(test)]
mod stats_tables;
#[cfg(test)]
mod trace_texts;
#[cfg(test)]
mod written;
