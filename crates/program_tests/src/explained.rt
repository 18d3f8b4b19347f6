//! Texts that explain a fault, and those that are wanted.

use crate::expect::expect;
use crate::explained_configs::OF_CONFIGS;
use crate::explained_others::OF_OTHERS;
use explain::{RunNumbers, TableKind, of_config, of_host, of_numbers, of_table, of_traces};
use sim_base::fault::{Fault, LineCause};
use std::alloc::{AllocError, Global};
use std::process::Abort;

/// What is to be explained.
#[derive(Clone, Copy)]
pub(crate) enum Asked {
    /// A fault of a document.
    Config(Fault, &'static str),
    /// A document that is not UTF-8.
    Bytes(&'static [u8]),
    /// Why the third line of the second of two traces is refused.
    Line(LineCause, &'static str),
    /// Why the first line of the second of two traces is refused.
    FirstLine(&'static [u8]),
    /// A trace that is too long.
    TooLong,
    /// A fault of a run with 65 workers and a limit of 1000000000001 cycles: how many cores the configuration has, and
    /// how many traces there are.
    Numbers(Fault, Option<u16>, usize),
    /// A row of a table.
    Row(TableKind, u64, &'static str),
    /// A fault of the host.
    Host(Fault),
}

/// What is asked for, and the text that is wanted.
pub(crate) type Case = (Asked, &'static str);

// Why a line of the second trace is refused.
fn line_fault(line: u64, cause: LineCause) -> Fault {
    Fault::TraceLine {
        core: 1,
        line,
        cause,
    }
}

fn text_of(alloc: Global, asked: Asked) -> Result<String, AllocError> {
    let paths = ["a.trace", "b.trace"];
    match asked {
        Asked::Config(fault, document) => of_config(alloc, fault, "c.toml", document.as_bytes()),
        Asked::Bytes(document) => of_config(alloc, Fault::ConfigSyntax, "c.toml", document),
        Asked::Line(cause, text) => {
            of_traces(alloc, line_fault(3, cause), &paths, &[b"", text.as_bytes()])
        }
        Asked::FirstLine(bytes) => {
            let fault = line_fault(1, LineCause::TooFew);
            of_traces(alloc, fault, &paths, &[b"", bytes])
        }
        Asked::TooLong => of_traces(alloc, Fault::TraceTooLong { core: 0 }, &paths, &[b"", b""]),
        Asked::Numbers(fault, cores, traces) => {
            let numbers = RunNumbers {
                traces,
                cycles: 1_000_000_000_001,
                workers: 65,
            };
            of_numbers(alloc, fault, cores, numbers)
        }
        Asked::Row(kind, row, table) => {
            of_table(alloc, Fault::CheckRow(row), kind, "t.csv", table.as_bytes())
        }
        Asked::Host(fault) => of_host(alloc, fault),
    }
}

/// Ends the test where a text is not the one that is wanted, and prints both.
fn expect_texts(rt: &impl Abort, alloc: Global, cases: &[Case]) {
    for (asked, want) in cases {
        let text = text_of(alloc, *asked).expect(rt, "memory");
        expect(rt, &text.as_str(), want);
    }
}

#[test]
fn faults_are_explained(rt: HostRuntime) {
    expect_texts(&rt, rt.alloc(), &OF_CONFIGS);
    expect_texts(&rt, rt.alloc(), &OF_OTHERS);
}
