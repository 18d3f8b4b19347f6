//! Tests of what users see: the program over files in memory, which may fail, and its command line; what is read of a
//! run's tables, the page of a run and its pictures, the line that tells how far a run is, and the texts that explain a
//! refusal. The texts were written by hand. Screens, comparisons, tables that are refused and what the program says to
//! further lines of words are tried on the built program.
#![tactic(auto)]

#[cfg(test)]
mod chosen_tables;
#[cfg(test)]
mod command_lists;
#[cfg(test)]
mod command_words;
#[cfg(test)]
mod drawn;
#[cfg(test)]
mod expect;
#[cfg(test)]
mod explained;
#[cfg(test)]
mod explained_configs;
#[cfg(test)]
mod explained_others;
#[cfg(test)]
mod failing_files;
#[cfg(test)]
mod failing_pages;
#[cfg(test)]
mod files_in_memory;
#[cfg(test)]
mod latency_pages;
#[cfg(test)]
mod page_files;
#[cfg(test)]
mod page_runs;
#[cfg(test)]
mod pages;
#[cfg(test)]
mod program_runs;
#[cfg(test)]
mod progress_lines;
#[cfg(test)]
mod ranks;
#[cfg(test)]
mod refusing_streams;
#[cfg(test)]
mod requests;
#[cfg(test)]
mod stats_read;
#[cfg(test)]
mod told_files;
