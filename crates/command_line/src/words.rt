//! What a command line asks for.

ghost use Rattle.std.specs.Prelude.{◌≡◌, true, Some, None, Ok, IfOk, IfErr, IsOk, IsErr, IfSome, option_map, codes, string_bytes};
ghost use Rattle.clap.specs.Words.{kind_of, subcommand_rows_of};
ghost use Rattle.sim_base.specs.TraceText.{number_of};
ghost use Rattle.command_line.specs.Ask.{is_taken, IsCallForHelp, IsCallForVersion, IsCount, IsCountText, IsCountOr, IsNoneOrCount, IsFlag, IsShare, IsNoShare, IsTables, IsNoTables, IsClock, IsNoClock, IsCommand, IsCommandOf, IsCommandFault, IsShown, IsHelpUnlessMemory, IsVersionUnlessMemory, IsNoHelp, IsAskedBy, version_line, IsAnswerTo, IsWordsFault, GivesRun, GivesCheck, GivesMap, GivesShow, GivesPage, GivesCompare, GivesAll, IsAlone};
ghost use Rattle.command_line.specs.Arguments.{rows_in, word_at, one_at, all_at, texts_in, IsRefusal, IsMemoryOrRefusal, GivesWords, GivesRuns, HasNoShare, HasNoTables, HasNoAddress, HasNoClock, BarsRun, BarsCompare};

use crate::clock::read_clock;
use crate::command_line::{VERSION, program};
use crate::tables::read_tables;
use clap::ArgMatches;
use clap::error::{Error, ErrorKind};
use cpu_trace::number::read_number;
use refusal::reason::Reason;
use sim_base::fault::Fault;
use statistics::tables::Tables;
use std::alloc::{AllocError, Global};
use strsim::osa_distance;

// The names of the commands.
const COMMANDS: [&str; 7] = ["run", "check", "map", "show", "page", "compare", "help"];

/// When the workers of a run share a machine out.
#[derive(Clone, Copy, Debug)]
pub enum Share {
    /// Where that is worth its cost.
    Auto,
    /// Always, from the first cycle on.
    Always,
}

/// The arguments of a run.
#[derive(Debug, Drop)]
pub struct RunArguments<'a> {
    pub config: &'a str,
    pub cycles: u64,
    pub workers: u64,
    pub share: Share,
    pub tables: Tables,
    pub out: &'a str,
    pub traces: Vec<&'a str>,
}

/// The arguments of a screen. The clock is in kHz.
#[derive(Clone, Copy, Debug)]
pub struct ShowArguments<'a> {
    pub dir: &'a str,
    pub all: bool,
    pub config: Option<&'a str>,
    pub khz: Option<u64>,
}

/// The arguments of a page: its window has so many cycles, from a cycle on. The clock is in kHz.
#[derive(Clone, Copy, Debug)]
pub struct PageArguments<'a> {
    pub dir: &'a str,
    pub file: &'a str,
    pub config: Option<&'a str>,
    pub khz: Option<u64>,
    pub from: u64,
    pub cycles: u64,
}

/// What a command line asks for.
#[derive(Debug, Drop)]
pub enum Ask<'a> {
    /// `run CONFIG --cycles N --workers N [--share auto|always] [--tables LIST] --out DIR TRACE...`: simulates the
    /// traces.
    Run(RunArguments<'a>),
    /// `check CONFIG COMMANDS`: tests a table of commands.
    Check { config: &'a str, commands: &'a str },
    /// `map CONFIG ADDRESS`: tells where an address lies.
    Map { config: &'a str, address: u64 },
    /// `show DIR [--all] [--config FILE] [--mhz N]`: tells what the run did whose tables are in a folder, with what its
    /// configuration adds, and its clock, here in kHz.
    Show(ShowArguments<'a>),
    /// `show DIR --banks [--all] [--config FILE] [--mhz N]`: tells the same, and what each bank did.
    ShowBanks(ShowArguments<'a>),
    /// `page DIR FILE [--config FILE] [--mhz N] [--from N] [--cycles N]`: draws the run whose tables are in a folder,
    /// and its commands in a window of cycles, with what its configuration adds, and its clock, here in kHz.
    Page(PageArguments<'a>),
    /// `compare DIR DIR... [--csv]`: compares the runs whose tables are in folders with the first of them, as a screen
    /// or as a table.
    Compare { dirs: Vec<&'a str>, csv: bool },
    /// A call for help, with the text that answers it.
    Help(String),
    /// A call for the version, with the text that answers it.
    Version(String),
}

// The text of an argument, if it is there.
fn text_of<'a>(found: &ArgMatches<'a>, id: &str) -> Option<&'a str>
    ensures { option_map (λ s. s.now) result ≡ word_at found.now id.now }
{
    found.get_str(id)
}

// The number of an argument.
fn count_of(found: &ArgMatches<'_>, id: &str) -> Option<u64>
    ensures given { IfSome result (IsCount (one_at found.now id.now)) }
    ensures missing { result ≡ None → ¬ (IsCountText (one_at found.now id.now)) }
{
    found.get_one::<u64>(id)
}

// The number of an argument that may be left out.
fn count_or(found: &ArgMatches<'_>, id: &str, absent: u64) -> Option<u64>
    ensures given { IfSome result (IsCountOr absent (one_at found.now id.now)) }
    ensures missing { result ≡ None → ¬ (IsNoneOrCount (one_at found.now id.now)) }
{
    match found.get_str(id) {
        Some(_) => count_of(found, id),
        None => Some(absent),
    }
}

// Whether a flag is set.
fn is_set(found: &ArgMatches<'_>, id: &str) -> bool
    ensures { IsFlag (one_at found.now id.now) result }
{
    found.get_flag(id)
}

// The texts of an argument that may have several.
fn texts_of<'a>(alloc: Global, found: &ArgMatches<'a>, id: &str) -> Result<Vec<&'a str>, Fault>
    ensures given { IfOk result (GivesWords found.now id.now) }
    ensures missing { IfErr result (IsMemoryOrRefusal (all_at found.now id.now ≡ None)) }
{
    match found.get_strs(id) {
        Some(texts) => Ok(Vec::from_slice(alloc, texts)?),
        None => Err(Fault::CommandLine),
    }
}

// When workers share a machine out, by its word.
fn share_named(word: &str) -> Result<Share, Fault>
    ensures named { IfOk result (IsShare (Some word.now)) }
    ensures refused { IfErr result (IsRefusal (IsNoShare (Some word.now))) }
{
    match word {
        "auto" => Ok(Share::Auto),
        "always" => Ok(Share::Always),
        _ => Err(Fault::CommandLine),
    }
}

// When workers share a machine out.
fn share_of(found: &ArgMatches<'_>) -> Result<Share, Fault>
    ensures given { IfOk result (IsShare (word_at found.now (codes "share"))) }
    ensures refused { IfErr result (IsRefusal (HasNoShare found.now)) }
{
    match found.get_str("share") {
        Some(word) => share_named(word),
        None => Ok(Share::Auto),
    }
}

// The tables that a word lists.
fn tables_named(alloc: Global, word: &str) -> Result<Tables, Fault>
    ensures named { IfOk result (IsTables (Some word.now)) }
    ensures refused { IfErr result (IsMemoryOrRefusal (IsNoTables (Some word.now))) }
{
    match read_tables(alloc, word)? {
        Some(tables) => Ok(tables),
        None => Err(Fault::CommandLine),
    }
}

// The tables that are asked for.
fn tables_of(alloc: Global, found: &ArgMatches<'_>) -> Result<Tables, Fault>
    ensures given { IfOk result (IsTables (word_at found.now (codes "tables"))) }
    ensures refused { IfErr result (IsMemoryOrRefusal (HasNoTables found.now)) }
{
    match found.get_str("tables") {
        Some(word) => tables_named(alloc, word),
        None => Ok(Tables::usual()),
    }
}

fn run_ask<'a>(alloc: Global, found: &ArgMatches<'a>) -> Result<Ask<'a>, Fault>
    ensures asked { IfOk result (IsCommand (codes "run") (rows_in found.now)) }
    ensures refused { GivesRun (rows_in found.now) → IfErr result (BarsRun found.now) }
    ensures fault { IfErr result (λ e. IsWordsFault e) }
{
    match (
        text_of(found, "config"),
        count_of(found, "cycles"),
        count_of(found, "workers"),
        share_of(found),
        text_of(found, "out"),
    ) {
        (Some(config), Some(cycles), Some(workers), Ok(share), Some(out)) => {
            Ok(Ask::Run(RunArguments {
                config,
                cycles,
                workers,
                share,
                tables: tables_of(alloc, found)?,
                out,
                traces: texts_of(alloc, found, "trace")?,
            }))
        }
        _ => Err(Fault::CommandLine),
    }
}

fn check_ask<'a>(found: &ArgMatches<'a>) -> Result<Ask<'a>, Fault>
    ensures asked { IfOk result (IsCommand (codes "check") (rows_in found.now)) }
    ensures refused { GivesCheck (rows_in found.now) → IsOk result }
    ensures fault { IfErr result (λ e. e ≡ Fault.CommandLine) }
{
    match (text_of(found, "config"), text_of(found, "commands")) {
        (Some(config), Some(commands)) => Ok(Ask::Check { config, commands }),
        _ => Err(Fault::CommandLine),
    }
}

// The number that a text is, read as in a trace.
fn address_of(text: &str) -> Result<u64, Fault>
    ensures number { IfOk result (λ a. number_of text.now ≡ Ok a) }
    ensures refused { IfErr result (IsRefusal (IsErr (number_of text.now))) }
{
    match read_number(text.as_bytes()) {
        Ok(address) => Ok(address),
        Err(_) => Err(Fault::CommandLine),
    }
}

fn map_ask<'a>(found: &ArgMatches<'a>) -> Result<Ask<'a>, Fault>
    ensures asked { IfOk result (IsCommand (codes "map") (rows_in found.now)) }
    ensures refused { GivesMap (rows_in found.now) → IfErr result (λ e. HasNoAddress found.now) }
    ensures fault { IfErr result (λ e. e ≡ Fault.CommandLine) }
{
    match (text_of(found, "config"), text_of(found, "address")) {
        (Some(config), Some(text)) => Ok(Ask::Map {
            config,
            address: address_of(text)?,
        }),
        _ => Err(Fault::CommandLine),
    }
}

// The frequency of a clock, by its word.
fn clock_named(word: &str) -> Result<Option<u64>, Fault>
    ensures named { IfOk result (IsClock (Some word.now)) }
    ensures refused { IfErr result (IsRefusal (IsNoClock (Some word.now))) }
{
    match read_clock(word) {
        Some(khz) => Ok(Some(khz)),
        None => Err(Fault::CommandLine),
    }
}

// The frequency of a clock, if it is given.
fn clock_of(found: &ArgMatches<'_>) -> Result<Option<u64>, Fault>
    ensures given { IfOk result (IsClock (word_at found.now (codes "mhz"))) }
    ensures refused { IfErr result (IsRefusal (HasNoClock found.now)) }
{
    match found.get_str("mhz") {
        Some(word) => clock_named(word),
        None => Ok(None),
    }
}

fn show_ask<'a>(found: &ArgMatches<'a>) -> Result<Ask<'a>, Fault>
    ensures asked { IfOk result (IsCommand (codes "show") (rows_in found.now)) }
    ensures refused { GivesShow (rows_in found.now) → IfErr result (λ e. HasNoClock found.now) }
    ensures fault { IfErr result (λ e. e ≡ Fault.CommandLine) }
{
    let (Some(dir), Ok(khz)) = (text_of(found, "dir"), clock_of(found)) else {
        return Err(Fault::CommandLine);
    };
    let arguments = ShowArguments {
        dir,
        all: is_set(found, "all"),
        config: text_of(found, "config"),
        khz,
    };
    match is_set(found, "banks") {
        false => Ok(Ask::Show(arguments)),
        true => Ok(Ask::ShowBanks(arguments)),
    }
}

fn page_ask<'a>(found: &ArgMatches<'a>) -> Result<Ask<'a>, Fault>
    ensures asked { IfOk result (IsCommand (codes "page") (rows_in found.now)) }
    ensures refused { GivesPage (rows_in found.now) → IfErr result (λ e. HasNoClock found.now) }
    ensures fault { IfErr result (λ e. e ≡ Fault.CommandLine) }
{
    match (
        text_of(found, "dir"),
        text_of(found, "file"),
        clock_of(found),
        count_or(found, "from", 0),
        count_or(found, "cycles", 2_000),
    ) {
        (Some(dir), Some(file), Ok(khz), Some(from), Some(cycles)) => {
            Ok(Ask::Page(PageArguments {
                dir,
                file,
                config: text_of(found, "config"),
                khz,
                from,
                cycles,
            }))
        }
        _ => Err(Fault::CommandLine),
    }
}

// The folders of two runs or more.
fn dirs_of<'a>(alloc: Global, found: &ArgMatches<'a>) -> Result<Vec<&'a str>, Fault>
    ensures given { IfOk result (GivesRuns found.now) }
    ensures missing { IfErr result (IsMemoryOrRefusal (IsAlone (all_at found.now (codes "dir")))) }
{
    let dirs = texts_of(alloc, found, "dir")?;
    if dirs.len() < 2 {
        return Err(Fault::CommandLine);
    }
    Ok(dirs)
}

fn compare_ask<'a>(alloc: Global, found: &ArgMatches<'a>) -> Result<Ask<'a>, Fault>
    ensures asked { IfOk result (IsCommand (codes "compare") (rows_in found.now)) }
    ensures refused { GivesCompare (rows_in found.now) → IfErr result (BarsCompare found.now) }
    ensures fault { IfErr result (λ e. IsWordsFault e) }
{
    Ok(Ask::Compare {
        dirs: dirs_of(alloc, found)?,
        csv: is_set(found, "csv"),
    })
}

// What the command of this name asks for.
fn ask_named<'a>(alloc: Global, name: &str, found: &ArgMatches<'a>) -> Result<Ask<'a>, Fault>
    ensures asked { IfOk result (IsCommand name.now (rows_in found.now)) }
    ensures refused { let command = Some (name.now, rows_in found.now) in
        GivesAll command → IfErr result (IsCommandFault command) }
    ensures fault { IfErr result (λ e. IsWordsFault e) }
{
    match name {
        "run" => run_ask(alloc, found),
        "check" => check_ask(found),
        "map" => map_ask(found),
        "show" => show_ask(found),
        "page" => page_ask(found),
        "compare" => compare_ask(alloc, found),
        _ => Err(Fault::CommandLine),
    }
}

// What the matches of a command line ask for.
fn ask_of<'a>(alloc: Global, matches: &ArgMatches<'a>) -> Result<Ask<'a>, Fault>
    ensures asked { IfOk result (IsCommandOf (subcommand_rows_of matches.now)) }
    ensures refused { let command = subcommand_rows_of matches.now in
        GivesAll command → IfErr result (IsCommandFault command) }
    ensures fault { IfErr result (λ e. IsWordsFault e) }
{
    match matches.subcommand() {
        Some((name, found)) => ask_named(alloc, name, found),
        None => Err(Fault::CommandLine),
    }
}

// What may stand where a word means nothing.
const ADDRESS: &str =
    "ADDRESS: a decimal number, or a hexadecimal one after 0x, at most 18446744073709551615";

const MHZ: &str =
    "N of --mhz: a decimal number such as 1200 or 1333.333, with at most three places behind the point, above 0 and below a million";

const SHARE: &str = "WHEN of --share: auto or always";

const TABLES: &str =
    "LIST of --tables: some of commands, stats, final and requests, joined by commas, each at most once";

// The argument whose word means nothing, of a command that has all that it needs, and what may stand there.
fn wrong_place(name: &str, found: &ArgMatches<'_>) -> (&'static str, &'static str) {
    match name {
        "map" => ("address", ADDRESS),
        "run" if share_of(found).is_err() => ("share", SHARE),
        "run" => ("tables", TABLES),
        _ => ("mhz", MHZ),
    }
}

// What explains a word that means nothing where it stands, or a folder alone.
fn explain_word(alloc: Global, matches: &ArgMatches<'_>) -> Result<String, AllocError> {
    let Some((name, found)) = matches.subcommand() else {
        return Ok(String::new(alloc));
    };
    if name == "compare" {
        return String::from_str(alloc, "compare takes the folders of two runs or more\n");
    }
    let (id, wanted) = wrong_place(name, found);
    match found.get_str(id) {
        Some(word) => format!(in alloc; "'{word}' is no {wanted}\n"),
        None => Ok(String::new(alloc)),
    }
}

// What the matches of a command line ask for, or why they are refused.
fn command_of<'a>(alloc: Global, matches: &ArgMatches<'a>) -> Result<Ask<'a>, Reason>
    ensures asked { IfOk result (IsCommandOf (subcommand_rows_of matches.now)) }
    ensures refused { let command = subcommand_rows_of matches.now in
        GivesAll command → IfErr result (IsCommandFault command) }
    ensures fault { IfErr result (λ e. IsWordsFault e) }
{
    match ask_of(alloc, matches) {
        Ok(ask) => Ok(ask),
        Err(Fault::CommandLine) => Err(Reason::explained(
            Fault::CommandLine,
            explain_word(alloc, matches),
        )),
        Err(fault) => Err(Reason::from(fault)),
    }
}

// The command that a word may be meant for, if it is none itself: at most a third of its letters are inserted, deleted,
// changed, or exchanged with the next one.
fn nearest(alloc: Global, word: &str) -> Result<Option<&'static str>, AllocError> {
    let most = word.len().max(3) / 3;
    for name in COMMANDS {
        let distance = osa_distance(alloc, word, name)?;
        if distance <= most {
            return Ok(if distance == 0 { None } else { Some(name) });
        }
    }
    Ok(None)
}

// The word that stands where a command is wanted: the first one, or the one behind a `help`.
fn command_word<'a>(words: &[&'a str]) -> &'a str {
    let first = words.get(1).copied().unwrap_or("");
    match first {
        "help" => words.get(2).copied().unwrap_or(""),
        _ => first,
    }
}

// What explains an error of the command line: its text, and the command that a word may be meant for where the text has
// no tip.
fn explain_error(alloc: Global, error: &Error, words: &[&str]) -> Result<String, AllocError> {
    let text = error.to_string(alloc)?;
    if error.kind() != ErrorKind::InvalidSubcommand || text.as_str().contains("tip:") {
        return Ok(text);
    }
    match nearest(alloc, command_word(words))? {
        Some(name) => format!(in alloc; "{text}did you mean '{name}'?\n"),
        None => Ok(text),
    }
}

// The line that tells the name of the program and its version.
fn version_text(alloc: Global) -> Result<String, AllocError>
    ensures line { IfOk result (λ text. string_bytes text ≡ version_line) }
{
    format!(in alloc; "dramsim {VERSION}\n")
}

// Why a command line refuses its words, or the text that answers a call for help or for the version.
fn help_of<'a>(alloc: Global, error: &Error, words: &[&str]) -> Result<Ask<'a>, Reason>
    ensures shown { IfOk result (λ ask. IsShown ask (kind_of error.now)) }
    ensures refused { IfErr result (IsMemoryOrRefusal (IsNoHelp (kind_of error.now))) }
{
    match error.kind() {
        ErrorKind::OutOfMemory => Err(Reason::from(Fault::Memory)),
        ErrorKind::DisplayHelp => Ok(Ask::Help(error.to_string(alloc)?)),
        ErrorKind::DisplayVersion => Ok(Ask::Version(version_text(alloc)?)),
        _ => Err(Reason::explained(Fault::CommandLine, explain_error(alloc, error, words))),
    }
}

/// Reads the words of a command line, of which the first is the program's name.
///
/// # Errors
///
/// `Fault::CommandLine` where the words are no command of `Ask`, the address of a `map` is no number, the word of
/// `--share` is neither `auto` nor `always`, the one of `--tables` lists no tables, the one of `--mhz` states no
/// frequency, or a `compare` has one folder alone, and `Fault::Memory`.
pub fn read_words<'a>(alloc: Global, words: &'a [&'a str]) -> Result<Ask<'a>, Reason>
    ensures asked { IfOk result (IsAskedBy (texts_in words.entry.now)) }
    ensures answered { let asked = texts_in words.entry.now in
        is_taken asked ≡ true → IsAnswerTo asked result }
    ensures helped { IsCallForHelp (texts_in words.entry.now) → IsHelpUnlessMemory result }
    ensures versioned { IsCallForVersion (texts_in words.entry.now) → IsVersionUnlessMemory result }
    ensures refused { IfErr result (λ e. IsWordsFault e) }
{
    match program(alloc)?.try_get_matches_from(words) {
        Ok(matches) => command_of(alloc, &matches),
        Err(error) => help_of(alloc, &error, words),
    }
}
