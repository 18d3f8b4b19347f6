//! Files in memory, in place of the host's.

ghost use Rattle.std.specs.Prelude.{◌≡◌, IfErr};

use refusal::reason::Reason;
use sim_base::fault::Fault;
use std::alloc::{AllocError, Global};
use std::collections::BTreeMap;
use std::io;
use std::io::{ErrorKind, Write};
use std::process::Abort;
use whole_files::files::FileSet;

// What goes wrong with a file. A placing or a renaming fails by the path that the file is to have.
#[derive(Clone, Copy, PartialEq)]
pub(crate) enum Failure {
    None,
    Folder,
    Opening,
    Writing,
    Closing,
    Placing,
    Renaming,
}

// A file in memory that is being written.
#[derive(Drop)]
pub(crate) struct MemoryOut {
    bytes: Vec<u8>,
    fails: bool,
}

impl Write for MemoryOut {
    fn write(&mut self, buf: &[u8]) -> io::Result<usize> {
        if self.fails {
            return Err(io::Error::from(ErrorKind::BrokenPipe));
        }
        self.bytes.extend_from_slice(buf)?;
        Ok(buf.len())
    }

    fn flush(&mut self) -> io::Result<()> {
        Ok(())
    }
}

// Files in memory. What is written stands in a file from its opening on, as far as it came. One file may fail.
#[derive(Drop)]
pub(crate) struct MemoryFiles {
    files: BTreeMap<String, Vec<u8>>,
    pub(crate) opened: String,
    pub(crate) failing: (Failure, &'static str),
}

impl MemoryFiles {
    pub(crate) fn new(alloc: Global) -> Self {
        MemoryFiles {
            files: BTreeMap::new(alloc),
            opened: String::new(alloc),
            failing: (Failure::None, ""),
        }
    }

    fn put(&mut self, alloc: Global, path: &str, bytes: Vec<u8>) -> Result<(), AllocError> {
        let path = String::from_str(alloc, path)?;
        self.files.insert(path, bytes)?;
        Ok(())
    }

    pub(crate) fn add(&mut self, rt: &impl Abort, alloc: Global, path: &str, text: &str) {
        let bytes = Vec::from_slice(alloc, text.as_bytes()).expect(rt, "memory");
        self.put(alloc, path, bytes).expect(rt, "memory");
    }

    // The text of a file that was added or written, if it is one.
    pub(crate) fn text_at(&self, path: &str) -> Option<&str> {
        str::from_utf8(self.files.get(path)?).ok()
    }

    fn test(&self, failure: Failure, path: &str) -> Result<(), Reason>
        ensures { IfErr result (λ e. e ≡ Fault.Write) }
    {
        let (kind, name) = self.failing;
        if kind == failure && name == path {
            Err(Reason::from(Fault::Write))
        } else {
            Ok(())
        }
    }
}

impl FileSet for MemoryFiles {
    type Out = MemoryOut;

    fn read(&mut self, alloc: Global, path: &str) -> Result<Vec<u8>, Reason> {
        match self.files.get(path) {
            Some(bytes) => Ok(Vec::from_slice(alloc, bytes)?),
            None => Err(Reason::from(Fault::Read)),
        }
    }

    fn create(&mut self, alloc: Global, path: &str) -> Result<MemoryOut, Reason> {
        self.opened.push_str(path)?;
        self.opened.push_str(" ")?;
        self.test(Failure::Opening, path)?;
        self.put(alloc, path, Vec::new(alloc))?;
        Ok(MemoryOut {
            bytes: Vec::new(alloc),
            fails: self.test(Failure::Writing, path).is_err(),
        })
    }

    fn close(&mut self, alloc: Global, path: &str, out: MemoryOut) -> Result<(), Reason> {
        self.test(Failure::Closing, path)?;
        Ok(self.put(alloc, path, out.bytes)?)
    }

    fn test_place(&mut self, path: &str) -> Result<(), Reason> {
        self.test(Failure::Placing, path)
    }

    fn test_folder(&self, path: &str) -> Result<(), Reason> {
        self.test(Failure::Folder, path)
    }

    fn rename(&mut self, alloc: Global, from: &str, to: &str) -> Result<(), Reason> {
        self.test(Failure::Renaming, to)?;
        match self.files.remove(from) {
            Some(bytes) => Ok(self.put(alloc, to, bytes)?),
            None => Err(Reason::from(Fault::Write)),
        }
    }

    fn remove(&mut self, path: &str) -> Result<(), Reason> {
        match self.files.remove(path) {
            Some(_) => Ok(()),
            None => Err(Reason::from(Fault::Write)),
        }
    }
}

// Files in memory that hold these texts.
pub(crate) fn files_with(rt: &impl Abort, alloc: Global, texts: &[(&str, &str)]) -> MemoryFiles {
    let mut files = MemoryFiles::new(alloc);
    for (path, text) in texts {
        files.add(rt, alloc, path, text);
    }
    files
}
