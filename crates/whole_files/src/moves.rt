//! The way of a file to its place: it is written under a name of its own, and gets its place once it is whole.

ghost use Rattle.std.specs.Prelude.{◌≡◌, None, IfOk, IfErr, OnOk, OnErr, string_bytes};
ghost use Rattle.whole_files.specs.Files.{SameFiles, SameBut};
ghost use Rattle.sim_base.specs.Faults.{IsWriteFault};
ghost use Rattle.whole_files.specs.Tables.{path_in, IsMoveIn};
ghost use Rattle.whole_files.specs.WholeFile.{from_path, IsMoveTo, GetsPlace};

use crate::files::FileSet;
use refusal::reason::Reason;
use sim_base::fault::Fault;
use std::alloc::Global;

/// The path of a name in a folder.
pub fn path_of(alloc: Global, folder: &str, name: &str) -> Result<String, Fault>
    ensures path { IfOk result (λ s. string_bytes s ≡ path_in folder.now name.now) }
    ensures fault { IfErr result (λ e. e ≡ Fault.Memory) }
{
    Ok(format!(in alloc; "{folder}/{name}")?)
}

/// A file's way to its place.
#[derive(Drop)]
pub(crate) struct Move {
    pub(crate) from: String,
    pub(crate) to: String,
}

/// The way of a file in a folder from one name to another.
pub(crate) fn move_in(alloc: Global, folder: &str, part: &str, name: &str) -> Result<Move, Fault>
    ensures way { IfOk result (IsMoveIn folder.now part.now name.now) }
    ensures fault { IfErr result (λ e. e ≡ Fault.Memory) }
{
    Ok(Move {
        from: path_of(alloc, folder, part)?,
        to: path_of(alloc, folder, name)?,
    })
}

/// The way of a file to its path, from the same path with `.part` appended.
pub(crate) fn move_to(alloc: Global, path: &str) -> Result<Move, Fault>
    ensures way { IfOk result (IsMoveTo path.now) }
    ensures fault { IfErr result (λ e. e ≡ Fault.Memory) }
{
    Ok(Move {
        from: format!(in alloc; "{path}.part")?,
        to: String::from_str(alloc, path)?,
    })
}

/// Gives a file its place.
pub(crate) fn place_one<F: FileSet>(alloc: Global, files: &mut F, way: &Move) -> Result<(), Reason>
    ensures renamed { OnOk result (F.tells
        → GetsPlace way.now (F.held files.old) (F.held files.new)) }
    ensures refused { OnErr result (F.tells → SameFiles (F.held files.old) (F.held files.new)) }
    ensures fault { IfErr result (λ e. IsWriteFault e) }
    ensures unopened { F.tells → F.opened files.new ≡ F.opened files.old }
{
    files.rename(alloc, way.from.as_str(), way.to.as_str())
}

/// Removes what was written and did not get its place, if possible.
pub(crate) fn discard_one<F: FileSet>(files: &mut F, way: &Move)
    ensures gone { F.tells → F.held files.new (from_path way.now) ≡ None }
    ensures others { F.tells → SameBut (from_path way.now) (F.held files.old) (F.held files.new) }
{
    let _ = files.remove(way.from.as_str());
}
