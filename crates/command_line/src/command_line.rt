//! The command line, as `clap` reads it.

ghost use Rattle.std.specs.Prelude.{◌≡◌, fold, IfOk, false};
ghost use Rattle.clap.specs.Words.{app_of, new_app, rule_of};
ghost use Rattle.command_line.specs.CommandLine.{rule_in, app_in, with_below, program_app};

use clap::{Arg, ArgAction, Command, value_parser};
use std::alloc::{AllocError, Global};

/// The version of the program. CHANGELOG.md says what is in it.
pub const VERSION: &str = "1.0.0";

const RUN_EXAMPLE: &str = "Example:
  mkdir -p build && ./dramsim run examples/ddr4_2400.toml --cycles 20000 --workers 1 --out build examples/ddr4_2400/*.trace";

const CHECK_EXAMPLE: &str = "Example:
  ./dramsim check examples/profile_s.toml examples/tables/broken.csv";

const MAP_EXAMPLE: &str = "Example:
  ./dramsim map examples/profile_s.toml 0x12345640";

const SHOW_EXAMPLE: &str = "Example, after that of run:
  ./dramsim show build";

const PAGE_EXAMPLE: &str = "Example, after that of run:
  ./dramsim page build build/page.html --from 0 --cycles 2000";

const COMPARE_EXAMPLE: &str = "Example, after runs into two folders:
  ./dramsim compare build other";

/// How an argument is given.
#[derive(Clone, Copy)]
enum ArgumentKind {
    /// A word that has to be given.
    Positional,
    /// One word or more.
    Positionals,
    /// An option that takes a word.
    RequiredText,
    /// An option that takes a number.
    RequiredNumber,
    /// An option that takes a word and may be left out.
    OptionalText,
    /// An option that takes a number and may be left out.
    OptionalNumber,
    /// An option that takes nothing.
    Flag,
}

/// An argument of a command.
#[derive(Clone, Copy)]
struct Argument {
    id: &'static str,
    kind: ArgumentKind,
    /// What stands for its value.
    name: &'static str,
    help: &'static str,
}

/// A command of the program.
#[derive(Clone, Copy)]
struct Subcommand {
    name: &'static str,
    about: &'static str,
    example: &'static str,
    arguments: &'static [Argument],
}

// An argument as `clap` takes it.
fn arg_of<'a>(alloc: Global, argument: &Argument) -> Arg<'a>
    ensures rule { rule_of result ≡ rule_in argument.now }
    ensures own { result.global ≡ false }
{
    let Argument {
        id,
        kind,
        name,
        help,
    } = *argument;
    let bare = Arg::new(alloc, id).help(help);
    match kind {
        ArgumentKind::Positional => bare.value_name(name).required(true),
        ArgumentKind::Positionals => bare
            .value_name(name)
            .required(true)
            .action(ArgAction::Append),
        ArgumentKind::RequiredText => bare.value_name(name).required(true).long(id),
        ArgumentKind::RequiredNumber => bare
            .value_name(name)
            .required(true)
            .long(id)
            .value_parser(value_parser!(u64)),
        ArgumentKind::OptionalText => bare.value_name(name).long(id),
        ArgumentKind::OptionalNumber => bare
            .value_name(name)
            .long(id)
            .value_parser(value_parser!(u64)),
        ArgumentKind::Flag => bare.long(id).action(ArgAction::SetTrue),
    }
}

/// The configuration that a command reads.
const CONFIG: Argument = Argument {
    id: "config",
    kind: ArgumentKind::Positional,
    name: "CONFIG",
    help: "The configuration, a TOML file",
};

/// The folder of one run.
const DIR: Argument = Argument {
    id: "dir",
    kind: ArgumentKind::Positional,
    name: "DIR",
    help: "The folder with the tables of a run",
};

/// The configuration of a run whose tables are read.
const RUN_CONFIG: Argument = Argument {
    id: "config",
    kind: ArgumentKind::OptionalText,
    name: "FILE",
    help: "The configuration of the run",
};

/// The clock of the memory of that run.
const CLOCK: Argument = Argument {
    id: "mhz",
    kind: ArgumentKind::OptionalText,
    name: "N",
    help: "The clock in MHz, for times and data rates",
};

/// The commands.
static SUBCOMMANDS: [Subcommand; 6] = [
    // run CONFIG --cycles N --workers N [--share WHEN] [--tables LIST] --out DIR TRACE...
    Subcommand {
        name: "run",
        about: "Simulates traces and writes the commands",
        example: RUN_EXAMPLE,
        arguments: &[
            CONFIG,
            Argument {
                id: "cycles",
                kind: ArgumentKind::RequiredNumber,
                name: "N",
                help: "How many cycles to simulate, at most",
            },
            Argument {
                id: "workers",
                kind: ArgumentKind::RequiredNumber,
                name: "N",
                help: "How many threads work, 1 to 64",
            },
            Argument {
                id: "share",
                kind: ArgumentKind::OptionalText,
                name: "WHEN",
                help: "When they share a machine out, auto or always [default: auto]",
            },
            Argument {
                id: "tables",
                kind: ArgumentKind::OptionalText,
                name: "LIST",
                help: "Of commands, stats, final and requests [default: the first 3]",
            },
            Argument {
                id: "out",
                kind: ArgumentKind::RequiredText,
                name: "DIR",
                help: "The folder for the tables, which must exist",
            },
            Argument {
                id: "trace",
                kind: ArgumentKind::Positionals,
                name: "TRACE",
                help: "The trace of each core, in order",
            },
        ],
    },
    // check CONFIG COMMANDS
    Subcommand {
        name: "check",
        about: "Tests a table of commands against the DDR4 rules",
        example: CHECK_EXAMPLE,
        arguments: &[
            CONFIG,
            Argument {
                id: "commands",
                kind: ArgumentKind::Positional,
                name: "COMMANDS",
                help: "The table of commands, a CSV file",
            },
        ],
    },
    // map CONFIG ADDRESS
    Subcommand {
        name: "map",
        about: "Prints where an address lies",
        example: MAP_EXAMPLE,
        arguments: &[
            CONFIG,
            Argument {
                id: "address",
                kind: ArgumentKind::Positional,
                name: "ADDRESS",
                help: "A decimal number, or one after 0x",
            },
        ],
    },
    // show DIR [--all] [--banks] [--config FILE] [--mhz N]
    Subcommand {
        name: "show",
        about: "Prints what a run did",
        example: SHOW_EXAMPLE,
        arguments: &[
            DIR,
            Argument {
                id: "all",
                kind: ArgumentKind::Flag,
                name: "",
                help: "Tells of each core, however many there are",
            },
            Argument {
                id: "banks",
                kind: ArgumentKind::Flag,
                name: "",
                help: "Tells of each bank too",
            },
            RUN_CONFIG,
            CLOCK,
        ],
    },
    // page DIR FILE [--config FILE] [--mhz N] [--from N] [--cycles N]
    Subcommand {
        name: "page",
        about: "Draws what a run did as a page of HTML",
        example: PAGE_EXAMPLE,
        arguments: &[
            DIR,
            Argument {
                id: "file",
                kind: ArgumentKind::Positional,
                name: "FILE",
                help: "The page, an HTML file",
            },
            RUN_CONFIG,
            CLOCK,
            Argument {
                id: "from",
                kind: ArgumentKind::OptionalNumber,
                name: "N",
                help: "The first cycle of the timeline [default: 0]",
            },
            Argument {
                id: "cycles",
                kind: ArgumentKind::OptionalNumber,
                name: "N",
                help: "How many cycles it shows [default: 2000]",
            },
        ],
    },
    // compare DIR DIR... [--csv]
    Subcommand {
        name: "compare",
        about: "Compares runs with the first of them",
        example: COMPARE_EXAMPLE,
        arguments: &[
            Argument {
                id: "dir",
                kind: ArgumentKind::Positionals,
                name: "DIR",
                help: "The folders with the tables of two runs or more",
            },
            Argument {
                id: "csv",
                kind: ArgumentKind::Flag,
                name: "",
                help: "Prints a table of CSV in place of a screen",
            },
        ],
    },
];

// A command with no argument yet, and an example of it.
fn bare_command<'a>(alloc: Global, name: &'a str, about: &'a str, example: &'a str) -> Command<'a>
    ensures app { app_of result ≡ new_app name.entry.now }
{
    Command::new(alloc, name).about(about).after_help(example)
}

// A command with its arguments.
fn command_of<'a>(alloc: Global, subcommand: &Subcommand) -> Result<Command<'a>, AllocError>
    ensures { IfOk result (λ c. app_of c ≡ app_in subcommand.now) }
{
    let mut command = bare_command(alloc, subcommand.name, subcommand.about, subcommand.example);
    for argument in subcommand.arguments {
        let longer = command.arg(arg_of(alloc, argument))?;
        command = longer;
    }
    Ok(command)
}

// A command with one more below it.
fn with_subcommand<'a>(
    alloc: Global,
    command: Command<'a>,
    subcommand: &Subcommand,
) -> Result<Command<'a>, AllocError>
    ensures { IfOk result (λ c. app_of c ≡ with_below (app_of command.entry) subcommand.now) }
{
    let below = command_of(alloc, subcommand)?;
    command.subcommand(below)
}

// A command with these below it.
fn with_subcommands<'a>(
    alloc: Global,
    bare: Command<'a>,
    subcommands: &[Subcommand],
) -> Result<Command<'a>, AllocError>
    ensures { IfOk result (λ c. app_of c ≡ fold with_below (app_of bare.entry) subcommands.now) }
{
    let mut command = bare;
    for subcommand in subcommands {
        let longer = with_subcommand(alloc, command, subcommand)?;
        command = longer;
    }
    Ok(command)
}

/// The program's command line.
pub fn program<'a>(alloc: Global) -> Result<Command<'a>, AllocError>
    ensures { IfOk result (λ c. app_of c ≡ program_app) }
{
    let bare = bare_command(alloc, "dramsim", "Simulates DDR4 main memory", RUN_EXAMPLE)
        .version(VERSION)
        .subcommand_required(true);
    with_subcommands(alloc, bare, &SUBCOMMANDS)
}
