//! Where an address lies.

ghost use Rattle.std.specs.Prelude.{◌≡◌, ◌≢◌, IfOk, IfErr, OnOk, string_bytes};
ghost use Rattle.whole_files.specs.Files.{SameFiles};
ghost use Rattle.answers.specs.Answers.{rank_words, place_line};
ghost use Rattle.answers.specs.Inputs.{Prints, LiesAt, CanMap, BarsMap, Maps, RefusesMap};

use crate::explained::configuration_of;
use crate::print::print_answer;
use address_map::place_of;
use refusal::reason::Reason;
use sim_base::fault::Fault;
use sim_base::place::Place;
use std::alloc::Global;
use std::io::Write;
use whole_files::files::FileSet;

// The place of an address, and how many ranks there are.
fn find_place<F: FileSet>(
    alloc: Global,
    files: &mut F,
    config: &str,
    address: u64,
) -> Result<(u32, Place), Reason>
    ensures place { IfOk result (LiesAt F.FileSet files.old config.now address) }
    ensures ready { OnOk result (CanMap F.FileSet files.old config.now) }
    ensures fault { IfErr result (BarsMap F.FileSet files.old config.now) }
    ensures same { F.tells → SameFiles (F.held files.old) (F.held files.new) }
    ensures unopened { F.tells → F.opened files.new ≡ F.opened files.old }
{
    let document = files.read(alloc, config)?;
    let config = configuration_of(alloc, config, &document)?;
    Ok((config.ranks, place_of(&config, address)))
}

fn rank_words_of(alloc: Global, ranks: u32, rank: u32) -> Result<String, Reason>
    ensures words { IfOk result (λ s. string_bytes s ≡ rank_words ranks rank) }
    ensures fault { IfErr result (λ e. e ≡ Fault.Memory) }
{
    if ranks > 1 {
        Ok(format!(in alloc; " rank {rank}")?)
    } else {
        Ok(String::new(alloc))
    }
}

fn place_line_of(alloc: Global, ranks: u32, place: Place) -> Result<String, Reason>
    ensures line { IfOk result (λ s. string_bytes s ≡ place_line ranks place) }
    ensures fault { IfErr result (λ e. e ≡ Fault.Memory) }
{
    let words = rank_words_of(alloc, ranks, place.rank)?;
    Ok(format!(in alloc;
        "channel {}{words} group {} bank {} row {} column {}\n",
        place.channel, place.group, place.bank, place.row, place.column
    )?)
}

/// `map CONFIG ADDRESS`: prints where an address lies under the configuration that a file holds. It opens and changes
/// no file.
///
/// # Errors
///
/// `Fault::Read`, the configuration's first fault, `Fault::Write` where the answer cannot be written, and
/// `Fault::Memory`.
pub fn perform_map<F: FileSet, P: Write>(
    alloc: Global,
    files: &mut F,
    output: &mut P,
    config: &str,
    address: u64,
) -> Result<(), Reason>
    ensures mapped { let printed = Prints P.Write output.old output.new in
        OnOk result (Maps F.FileSet files.old config.now address printed) }
    ensures fault { IfErr result (RefusesMap F.FileSet files.old config.now) }
    ensures unprinted { IfErr result (λ e. e ≢ Fault.Write → output.new ≡ output.old) }
    ensures same { F.tells → SameFiles (F.held files.old) (F.held files.new) }
    ensures unopened { F.tells → F.opened files.new ≡ F.opened files.old }
{
    let (ranks, place) = find_place(alloc, files, config, address)?;
    print_answer(alloc, output, place_line_of(alloc, ranks, place))
}
