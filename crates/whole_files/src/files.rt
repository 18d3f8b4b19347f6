//! The files that the program reads and writes.

ghost use Rattle.std.specs.Prelude.{◌≡◌, ◌++◌, ◌∷◌, [], Some, None, IfOk, IfErr, OnOk, OnErr, List, ℕ, Bool, true, false};
ghost use Rattle.std.specs.Io.{WritesAtMost};
ghost use Rattle.std.specs.Io.Buffered.{writer_contents};
ghost use Rattle.std.specs.Io.KnownBytes.{Keeps, WriteAppends};
ghost use Rattle.std.specs.IoError.{raw_os_error};
ghost use Rattle.whole_files.specs.Files.{Held, SameFiles, SameBut, IsRenamed, IsReadFault};
ghost use Rattle.sim_base.specs.Faults.{IsWriteFault};

use crate::host_answers::{PathKind, bytes_read, folder_at, replaceable_link, stands_at, written};
use refusal::reason::Reason;
use sim_base::fault::Fault;
use std::alloc::Global;
use std::fs::{self, File, OpenFile, OpenOptions};
use std::io::{self, BufWriter, Read, Write};
use std::rt::Files;

/// Files by their paths, as the program sees them. Tests put memory in their place.
///
/// A set that *tells* says by its clauses what each path holds, and what was opened to be written. It reads whatever it
/// holds, and removes whatever it is told to. The files of the host do not tell, since no clause can say what a file
/// system gives: for them only the faults are claimed here.
pub trait FileSet {
    /// A file that is being written.
    type Out: Write + Drop;

    /// The set tells what its paths hold.
    ghost tells: { Type 0 } = { ⊥ };

    /// What each path holds: the bytes of a file, or `None` where there is none.
    ghost held: { Self → Held } = { λ _ _. None };

    /// Whether a folder stands at a path.
    ghost has_folder: { Self → List ℕ → Bool } = { λ _ _. true };

    /// The paths that were opened to be written, in their order.
    ghost opened: { Self → List (List ℕ) } = { λ _. [] };

    /// The whole of a file. Refuses by `Fault::Read` where it cannot be read, and by `Fault::Memory`.
    fn read(&mut self, alloc: Global, path: &str) -> Result<Vec<u8>, Reason>
        ensures bytes { IfOk result (λ v. tells → held self.old path.now ≡ Some v.items) }
        ensures fault { IfErr result (IsReadFault tells (held self.old path.now)) }
        ensures same { tells → SameFiles (held self.old) (held self.new) }
        ensures unopened { tells → opened self.new ≡ opened self.old };

    /// Opens a file to be written from its beginning; what it held is gone. Refuses by `Fault::Write` where it cannot
    /// be opened, and by `Fault::Memory`.
    fn create(&mut self, alloc: Global, path: &str) -> Result<Self::Out, Reason>
        ensures empty { IfOk result (λ out. tells → Self.Out.contents out ≡ Some []) }
        ensures fault { IfErr result (λ e. IsWriteFault e) }
        ensures noted { OnOk result (tells
            → opened self.new ≡ opened self.old ++ path.now ∷ []) }
        ensures others { tells → SameBut path.now (held self.old) (held self.new) };

    /// Why a file that is being written is refused, with the host's cause where the set knows it.
    fn cause(&self, _alloc: Global, _path: &str, _out: &Self::Out, fault: Fault) -> Reason
        ensures { result ≡ fault }
    {
        Reason::from(fault)
    }

    /// Ends the writing of a file. Refuses by `Fault::Write` where what is left cannot be written, and by
    /// `Fault::Memory`.
    fn close(&mut self, alloc: Global, path: &str, out: Self::Out) -> Result<(), Reason>
        ensures written { OnOk result (tells → held self.new path.now ≡ Self.Out.contents out) }
        ensures fault { IfErr result (λ e. IsWriteFault e) }
        ensures others { tells → SameBut path.now (held self.old) (held self.new) }
        ensures unopened { tells → opened self.new ≡ opened self.old };

    /// Tests whether a file could be given this path. Refuses by `Fault::Write` where something stands there that no
    /// file can replace, such as a folder, or that must not be replaced, such as a device or a file that may not be
    /// written, or where that cannot be told.
    fn test_place(&mut self, path: &str) -> Result<(), Reason>
        ensures fault { IfErr result (λ e. IsWriteFault e) }
        ensures same { tells → SameFiles (held self.old) (held self.new) }
        ensures unopened { tells → opened self.new ≡ opened self.old };

    /// Tests whether a folder stands at a path. Refuses by `Fault::Write` where none does, or where that cannot be
    /// told.
    fn test_folder(&self, path: &str) -> Result<(), Reason>
        ensures there { OnOk result (tells → has_folder self.now path.now ≡ true) }
        ensures none { OnErr result (tells → has_folder self.now path.now ≡ false) }
        ensures fault { IfErr result (λ e. e ≡ Fault.Write) };

    /// Gives a file another path, in one step: what that path held is gone, or, where it refuses, nothing has changed.
    /// Refuses by `Fault::Write`, and by `Fault::Memory`.
    fn rename(&mut self, alloc: Global, from: &str, to: &str) -> Result<(), Reason>
        ensures renamed { OnOk result (tells
            → IsRenamed from.now to.now (held self.old) (held self.new)) }
        ensures refused { OnErr result (tells → SameFiles (held self.old) (held self.new)) }
        ensures fault { IfErr result (λ e. IsWriteFault e) }
        ensures unopened { tells → opened self.new ≡ opened self.old };

    /// Removes a file. Refuses by `Fault::Write` where it cannot, or where there is none. A set that tells always can.
    fn remove(&mut self, path: &str) -> Result<(), Reason>
        ensures removed { tells → held self.new path.now ≡ None }
        ensures others { tells → SameBut path.now (held self.old) (held self.new) }
        ensures unopened { tells → opened self.new ≡ opened self.old };
}

/// The bytes of a file, for which room is made at once.
fn read_whole<R: Files + AllocGlobal>(rt: &R, path: &str) -> io::Result<Vec<u8>> {
    let mut file = File::open(rt, path)?;
    let length = usize::try_from(file.metadata()?.len()).unwrap_or(0);
    // with a place more, in which the end is found without another block
    let mut bytes = Vec::with_capacity(rt.alloc(), length.saturating_add(1))?;
    file.read_to_end(&mut bytes)?;
    Ok(bytes)
}

/// The files of the host.
#[derive(Drop)]
pub struct HostFiles<'a, R> {
    pub rt: &'a R,
}

/// Opens a file as if to write it, and leaves it as it is: one that is protected, for example by its mode or its
/// folder's, refuses that.
fn test_writing(alloc: Global, files: &impl Files, path: &str) -> Result<(), Reason>
    ensures { IfErr result (λ e. e ≡ Fault.Write) }
{
    let mut options = OpenOptions::new();
    options.write(true);
    let _file = written(alloc, path, options.open(files, path))?;
    Ok(())
}

/// A file of the host that is being written, and the number of the last error that it gave.
#[derive(Drop)]
pub struct HostOut<W: Write + Drop> {
    out: BufWriter<W>,
    code: Option<i32>,
}

impl<W: Write + Drop> HostOut<W> {
    fn note(&mut self, error: &io::Error)
        ensures code { self.new.code ≡ raw_os_error error.now }
        ensures out { self.new.out ≡ self.old.out }
    {
        self.code = error.raw_os_error();
    }

    /// Writes what is left, and gives the file back.
    fn finish(self) -> io::Result<W>
        ensures whole { IfOk result (λ file.
            Keeps (writer_contents W.contents self.out) (W.contents file)) }
    {
        let mut file = self.out.into_inner()?;
        file.flush()?;
        Ok(file)
    }
}

impl<W: Write + Drop> Write for HostOut<W> {
    ghost contents = { λ file. writer_contents W.contents file.out };

    fn write(&mut self, buf: &[u8]) -> io::Result<usize>
        ensures bound { WritesAtMost result buf.now }
        ensures bytes { WriteAppends (writer_contents W.contents self.old.out)
            (writer_contents W.contents self.new.out) result buf.now }
        ensures noted { IfErr result (λ e. self.new.code ≡ raw_os_error e) }
    {
        let answer = self.out.write(buf);
        if let Err(error) = &answer {
            self.note(error);
        }
        answer
    }

    fn flush(&mut self) -> io::Result<()>
        ensures bytes { Keeps (writer_contents W.contents self.old.out)
            (writer_contents W.contents self.new.out) }
        ensures noted { IfErr result (λ e. self.new.code ≡ raw_os_error e) }
    {
        let answer = self.out.flush();
        if let Err(error) = &answer {
            self.note(error);
        }
        answer
    }
}

impl<R: Files + AllocGlobal> FileSet for HostFiles<'_, R> {
    type Out = HostOut<R::File>;

    fn read(&mut self, alloc: Global, path: &str) -> Result<Vec<u8>, Reason> {
        bytes_read(alloc, path, read_whole(self.rt, path))
    }

    fn create(&mut self, alloc: Global, path: &str) -> Result<HostOut<R::File>, Reason> {
        let file = written(alloc, path, fs::create(self.rt, path))?;
        match BufWriter::new(alloc, file) {
            Ok(out) => Ok(HostOut { out, code: None }),
            Err(_) => Err(Reason::from(Fault::Memory)),
        }
    }

    fn cause(&self, alloc: Global, path: &str, out: &HostOut<R::File>, fault: Fault) -> Reason {
        match out.code {
            Some(code) => Reason::of_host(alloc, fault, path, &io::Error::from_raw_os_error(code)),
            None => Reason::from(fault),
        }
    }

    fn close(&mut self, alloc: Global, path: &str, out: HostOut<R::File>) -> Result<(), Reason> {
        let _file = written(alloc, path, out.finish())?;
        Ok(())
    }

    fn test_place(&mut self, path: &str) -> Result<(), Reason> {
        let alloc = self.rt.alloc();
        match stands_at(alloc, path, fs::symlink_metadata(self.rt, path))? {
            PathKind::File => test_writing(alloc, self.rt, path),
            PathKind::Link => replaceable_link(alloc, path, fs::metadata(self.rt, path)),
            PathKind::Nothing => Ok(()),
        }
    }

    fn test_folder(&self, path: &str) -> Result<(), Reason> {
        folder_at(self.rt.alloc(), path, fs::metadata(self.rt, path))
    }

    fn rename(&mut self, alloc: Global, from: &str, to: &str) -> Result<(), Reason> {
        written(alloc, to, fs::rename(self.rt, from, to))
    }

    fn remove(&mut self, path: &str) -> Result<(), Reason> {
        written(self.rt.alloc(), path, fs::remove_file(self.rt, path))
    }
}
