//! The statistics of a run, and the configuration that may be named beside them.

ghost use Rattle.std.specs.Prelude.{◌≡◌, Some, None, IfOk, IfErr, IfSome, OnOk};
ghost use Rattle.answers.specs.Answers.{stats_table};
ghost use Rattle.answers.specs.Inputs.{IsDocumentAt, IsUnreadConfig, IsRunUnder, IsNoRun, text_of};
ghost use Rattle.answers.specs.Named.{Fits};
ghost use Rattle.answers.specs.Refused.{IsMisfitKey, IsSizeFault};
ghost use Rattle.rule_check.specs.Verdict.{records_of};
ghost use Rattle.whole_files.specs.Files.{SameFiles};

use crate::explained::{configuration_of, statistics_of};
use refusal::reason::Reason;
use sim_base::config::Config;
use sim_base::fault::Fault;
use sim_base::key::Key;
use statistics::stats::Stats;
use std::alloc::{AllocError, Global};
use whole_files::files::FileSet;

/// A file, and what it holds.
#[derive(Drop)]
pub(crate) struct FileText<'a> {
    pub(crate) path: &'a str,
    pub(crate) bytes: Vec<u8>,
}

/// The statistics of a run, and its configuration where one is named.
#[derive(Drop)]
pub(crate) struct RunRecord {
    pub(crate) stats: Stats,
    pub(crate) config: Option<Config>,
}

/// The file of a configuration, where one is named.
pub(crate) fn document_at<'a, F: FileSet>(
    alloc: Global,
    files: &mut F,
    path: Option<&'a str>,
) -> Result<Option<FileText<'a>>, Reason>
    ensures text { IfOk result (IsDocumentAt F.FileSet files.old path.entry) }
    ensures fault { IfErr result (IsUnreadConfig F.FileSet files.old path.entry) }
    ensures same { F.tells → SameFiles (F.held files.old) (F.held files.new) }
    ensures unopened { F.tells → F.opened files.new ≡ F.opened files.old }
{
    match path {
        None => Ok(None),
        Some(path) => Ok(Some(FileText {
            path,
            bytes: files.read(alloc, path)?,
        })),
    }
}

// The first key whose number in a configuration is not that of a run.
fn misfit(config: &Config, stats: &Stats) -> Option<Key>
    ensures none { result ≡ None → Fits config.now stats.now }
    ensures key { IfSome result (IsMisfitKey config.now stats.now) }
{
    if usize::from(config.cores) != stats.cores.len() {
        Some(Key::Cores)
    } else if usize::from(config.channels) != stats.channels.len() {
        Some(Key::Channels)
    } else {
        None
    }
}

// What explains that a run is of another machine.
fn explain_misfit(
    alloc: Global,
    path: &str,
    config: &Config,
    stats: &Stats,
) -> Result<String, AllocError> {
    let (cores, channels) = (stats.cores.len(), stats.channels.len());
    format!(in alloc;
        "{path}: cores = {}, channels = {}, where the run has {cores} and {channels}\n",
        config.cores, config.channels
    )
}

// Refuses a configuration that is not of the run.
fn check_fits(alloc: Global, path: &str, config: &Config, stats: &Stats) -> Result<(), Reason>
    ensures fits { OnOk result (Fits config.now stats.now) }
    ensures fault { IfErr result (IsSizeFault config.now stats.now) }
{
    match misfit(config, stats) {
        None => Ok(()),
        Some(key) => {
            let more = explain_misfit(alloc, path, config, stats);
            Err(Reason::explained(Fault::ConfigRange(key), more))
        }
    }
}

// The statistics that a table holds, under a configuration.
fn described_by(
    alloc: Global,
    document: &FileText<'_>,
    path: &str,
    table: &[u8],
) -> Result<RunRecord, Reason>
    ensures read { IfOk result (λ run. records_of table.now ≡ stats_table run.stats) }
    ensures configured { IfOk result (IsRunUnder (Some document.now.bytes.items)) }
    ensures fault { IfErr result (IsNoRun (Some document.now.bytes.items) table.now) }
{
    let config = configuration_of(alloc, document.path, &document.bytes)?;
    let stats = statistics_of(alloc, path, table)?;
    check_fits(alloc, document.path, &config, &stats)?;
    Ok(RunRecord {
        stats,
        config: Some(config),
    })
}

/// The statistics that a table holds, under the configuration that is named, if one is: that is tested first, and has
/// to have the run's numbers of cores and channels.
pub(crate) fn described(
    alloc: Global,
    document: &Option<FileText<'_>>,
    path: &str,
    table: &[u8],
) -> Result<RunRecord, Reason>
    ensures read { IfOk result (λ run. records_of table.now ≡ stats_table run.stats) }
    ensures configured { IfOk result (IsRunUnder (text_of document.now)) }
    ensures fault { IfErr result (IsNoRun (text_of document.now) table.now) }
{
    match document {
        None => Ok(RunRecord {
            stats: statistics_of(alloc, path, table)?,
            config: None,
        }),
        Some(document) => described_by(alloc, document, path, table),
    }
}
