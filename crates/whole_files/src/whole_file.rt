//! A file that is written whole or not at all.

ghost use Rattle.std.specs.Prelude.{◌≡◌, ◌++◌, ◌∷◌, [], List, ℕ, Some, IfErr, OnOk, OnErr};
ghost use Rattle.whole_files.specs.Files.{SameFiles, SameBut};
ghost use Rattle.sim_base.specs.Faults.{IsWriteFault};
ghost use Rattle.whole_files.specs.WholeFile.{from_path, part_of, IsMoveTo, GetsPlace, IsWhole, IsUnwritten};

use crate::files::FileSet;
use crate::moves::{Move, discard_one, move_to, place_one};
use refusal::reason::Reason;
use sim_base::fault::Fault;
use std::alloc::Global;
use std::io::Write;

/// Writes a text under a path.
fn stage_text<F: FileSet>(
    alloc: Global,
    files: &mut F,
    path: &str,
    text: &[u8],
) -> Result<(), Reason>
    ensures whole { OnOk result (F.tells → F.held files.new path.now ≡ Some text.now) }
    ensures noted { OnOk result (F.tells
        → F.opened files.new ≡ F.opened files.old ++ path.now ∷ []) }
    ensures fault { IfErr result (λ e. IsWriteFault e) }
    ensures others { F.tells → SameBut path.now (F.held files.old) (F.held files.new) }
{
    let mut out = files.create(alloc, path)?;
    let Ok(()) = out.write_all(text) else {
        return Err(files.cause(alloc, path, &out, Fault::Write));
    };
    files.close(alloc, path, out)
}

/// Gives a written file its place, if possible.
fn give_place<F: FileSet>(alloc: Global, files: &mut F, way: &Move) -> Result<(), Reason>
    ensures renamed { OnOk result (F.tells
        → GetsPlace way.now (F.held files.old) (F.held files.new)) }
    ensures refused { OnErr result (F.tells → SameFiles (F.held files.old) (F.held files.new)) }
    ensures fault { IfErr result (λ e. IsWriteFault e) }
    ensures unopened { F.tells → F.opened files.new ≡ F.opened files.old }
{
    files.test_place(way.to.as_str())?;
    place_one(alloc, files, way)
}

/// Writes a text, and gives it its place.
fn write_by<F: FileSet>(alloc: Global, files: &mut F, way: &Move, text: &[u8]) -> Result<(), Reason>
    ensures whole { OnOk result ((path : List ℕ) → IsMoveTo path way.now → F.tells
        → IsWhole path text.now (F.held files.old) (F.held files.new)) }
    ensures noted { OnOk result (F.tells
        → F.opened files.new ≡ F.opened files.old ++ from_path way.now ∷ []) }
    ensures fault { IfErr result (λ e. IsWriteFault e) }
    ensures others { OnErr result (F.tells
        → SameBut (from_path way.now) (F.held files.old) (F.held files.new)) }
{
    stage_text(alloc, files, way.from.as_str(), text)?;
    give_place(alloc, files, way)
}

/// Writes a file. It is written under its path with `.part` appended, and gets its place when it is whole. If that
/// fails, what was written is removed, and the place holds what it held before.
pub fn write_whole<F: FileSet>(
    alloc: Global,
    files: &mut F,
    path: &str,
    text: &[u8],
) -> Result<(), Reason>
    ensures whole { OnOk result (F.tells
        → IsWhole path.now text.now (F.held files.old) (F.held files.new)) }
    ensures noted { OnOk result (F.tells
        → F.opened files.new ≡ F.opened files.old ++ part_of path.now ∷ []) }
    ensures refused { OnErr result (F.tells → IsUnwritten path.now
        (F.held files.old) (F.held files.new) (F.opened files.old) (F.opened files.new)) }
    ensures fault { IfErr result (λ e. IsWriteFault e) }
{
    let way = move_to(alloc, path)?;
    if let Err(fault) = write_by(alloc, files, &way, text) {
        discard_one(files, &way);
        return Err(fault);
    }
    Ok(())
}
