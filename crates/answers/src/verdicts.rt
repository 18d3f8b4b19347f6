//! Whether a table of commands keeps the rules.

ghost use Rattle.std.specs.Prelude.{◌≡◌, ◌≢◌, IfOk, IfErr, OnOk, string_bytes};
ghost use Rattle.whole_files.specs.Files.{SameFiles};
ghost use Rattle.answers.specs.Answers.{verdict_line};
ghost use Rattle.answers.specs.Inputs.{Prints, IsVerdictAt, CanCheck, BarsCheck, Checks, RefusesCheck};

use crate::explained::{configuration_of, verdict_of};
use crate::print::print_answer;
use refusal::reason::Reason;
use rule_check::Verdict;
use sim_base::fault::Fault;
use std::alloc::Global;
use std::io::Write;
use whole_files::files::FileSet;

// What a table is found to be.
fn judge<F: FileSet>(
    alloc: Global,
    files: &mut F,
    config: &str,
    commands: &str,
) -> Result<Verdict, Reason>
    ensures found { IfOk result (IsVerdictAt F.FileSet files.old config.now commands.now) }
    ensures ready { OnOk result (CanCheck F.FileSet files.old config.now commands.now) }
    ensures fault { IfErr result (BarsCheck F.FileSet files.old config.now commands.now) }
    ensures same { F.tells → SameFiles (F.held files.old) (F.held files.new) }
    ensures unopened { F.tells → F.opened files.new ≡ F.opened files.old }
{
    let document = files.read(alloc, config)?;
    let table = files.read(alloc, commands)?;
    let config = configuration_of(alloc, config, &document)?;
    verdict_of(alloc, &config, commands, &table)
}

fn verdict_line_of(alloc: Global, found: Verdict) -> Result<String, Reason>
    ensures line { IfOk result (λ s. string_bytes s ≡ verdict_line found) }
    ensures fault { IfErr result (λ e. e ≡ Fault.Memory) }
{
    match found {
        Verdict::Legal => Ok(String::from_str(alloc, "legal\n")?),
        Verdict::Broken { row, rule } => {
            Ok(format!(in alloc; "broken row {row} rule {rule}\n")?)
        }
    }
}

/// `check CONFIG COMMANDS`: prints the verdict on a table of commands, and gives it. It opens and changes no file.
///
/// # Errors
///
/// `Fault::Read`, the configuration's first fault, the table's, `Fault::Write` where the answer cannot be written, and
/// `Fault::Memory`.
pub fn perform_check<F: FileSet, P: Write>(
    alloc: Global,
    files: &mut F,
    output: &mut P,
    config: &str,
    commands: &str,
) -> Result<Verdict, Reason>
    ensures checked { let printed = Prints P.Write output.old output.new in
        IfOk result (Checks F.FileSet files.old config.now commands.now printed) }
    ensures fault { IfErr result (RefusesCheck F.FileSet files.old config.now commands.now) }
    ensures unprinted { IfErr result (λ e. e ≢ Fault.Write → output.new ≡ output.old) }
    ensures same { F.tells → SameFiles (F.held files.old) (F.held files.new) }
    ensures unopened { F.tells → F.opened files.new ≡ F.opened files.old }
{
    let found = judge(alloc, files, config, commands)?;
    print_answer(alloc, output, verdict_line_of(alloc, found))?;
    Ok(found)
}
