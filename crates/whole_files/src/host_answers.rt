//! What the host's answers about files mean to the program.

ghost use Rattle.std.specs.Prelude.{◌≡◌, ◌⊎◌, Ok, Err, IfOk, IfErr, IsOk, IsErr};
ghost use Rattle.whole_files.specs.HostAnswers.{IsFolder, IsPlainFile, IsLink, IsSpecial, IsMissing, LacksMemory};

use refusal::reason::Reason;
use sim_base::fault::Fault;
use std::alloc::Global;
use std::fs::Metadata;
use std::io::{self, ErrorKind};

fn read_fault(error: &io::Error) -> Fault
    ensures memory { LacksMemory error.now → result ≡ Fault.Memory }
    ensures read { (¬ LacksMemory error.now) → result ≡ Fault.Read }
    ensures fault { (result ≡ Fault.Memory) ⊎ (result ≡ Fault.Read) }
{
    match error.kind() {
        ErrorKind::OutOfMemory => Fault::Memory,
        _ => Fault::Read,
    }
}

/// The bytes of a file that the host was asked to read. Refuses by `Fault::Memory` where the host lacked memory, and
/// otherwise by `Fault::Read` where it gave no bytes.
pub(crate) fn bytes_read(
    alloc: Global,
    path: &str,
    answer: io::Result<Vec<u8>>,
) -> Result<Vec<u8>, Reason>
    ensures bytes { IfOk answer (λ bytes. result ≡ Ok bytes) }
    ensures memory { IfErr answer (λ e. LacksMemory e → result ≡ Err Fault.Memory) }
    ensures read { IfErr answer (λ e. (¬ LacksMemory e) → result ≡ Err Fault.Read) }
    ensures fault { IfErr result (λ e. (e ≡ Fault.Memory) ⊎ (e ≡ Fault.Read)) }
{
    match answer {
        Ok(bytes) => Ok(bytes),
        Err(error) => Err(Reason::of_host(alloc, read_fault(&error), path, &error)),
    }
}

/// What the host gave that was asked to open, write, move or remove a file. Refuses by `Fault::Write` just where the
/// host did.
pub(crate) fn written<T>(alloc: Global, path: &str, answer: io::Result<T>) -> Result<T, Reason>
    ensures given { IfOk answer (λ value. result ≡ Ok value) }
    ensures refused { IfErr answer (λ _. result ≡ Err Fault.Write) }
    ensures fault { IfErr result (λ e. e ≡ Fault.Write) }
{
    match answer {
        Ok(value) => Ok(value),
        Err(error) => Err(Reason::of_host(alloc, Fault::Write, path, &error)),
    }
}

/// What stands at a path and may give way to a file.
#[derive(Clone, Copy)]
pub(crate) enum PathKind {
    Nothing,
    /// A file, if it may be written.
    File,
    /// A symbolic link, which is replaced, and not written through.
    Link,
}

/// What stands at a path, according to the host's answer. Refuses by `Fault::Write` where a folder stands there, or
/// another thing that is no file, such as a device or a pipe, and where the host does not tell.
pub(crate) fn stands_at(
    alloc: Global,
    path: &str,
    answer: io::Result<Metadata>,
) -> Result<PathKind, Reason>
    ensures folder { IfOk answer (λ found. IsFolder found → result ≡ Err Fault.Write) }
    ensures file { IfOk answer (λ found. IsPlainFile found → result ≡ Ok PathKind.File) }
    ensures link { IfOk answer (λ found. IsLink found → result ≡ Ok PathKind.Link) }
    ensures other { IfOk answer (λ found. IsSpecial found → result ≡ Err Fault.Write) }
    ensures nothing { IfErr answer (λ e. IsMissing e → result ≡ Ok PathKind.Nothing) }
    ensures untold { IfErr answer (λ e. (¬ IsMissing e) → result ≡ Err Fault.Write) }
    ensures fault { IfErr result (λ e. e ≡ Fault.Write) }
{
    match answer {
        Ok(found) if found.is_dir() => Err(Reason::of_host(
            alloc,
            Fault::Write,
            path,
            &"a folder stands there",
        )),
        Ok(found) if found.is_file() => Ok(PathKind::File),
        Ok(found) if found.is_symlink() => Ok(PathKind::Link),
        Ok(_) => Err(Reason::of_host(alloc, Fault::Write, path, &"this is no file")),
        Err(error) if error.kind() == ErrorKind::NotFound => Ok(PathKind::Nothing),
        Err(error) => Err(Reason::of_host(alloc, Fault::Write, path, &error)),
    }
}

/// Whether a symbolic link may be replaced, according to the host's answer about what it leads to. Refuses by
/// `Fault::Write` where that is there, and neither a file nor a folder, such as a device or a pipe, and where the host
/// does not tell.
pub(crate) fn replaceable_link(
    alloc: Global,
    path: &str,
    answer: io::Result<Metadata>,
) -> Result<(), Reason>
    ensures folder { IfOk answer (λ found. IsFolder found → IsOk result) }
    ensures file { IfOk answer (λ found. IsPlainFile found → IsOk result) }
    ensures other { IfOk answer (λ found. IsSpecial found → IsErr result) }
    ensures nothing { IfErr answer (λ e. IsMissing e → IsOk result) }
    ensures untold { IfErr answer (λ e. (¬ IsMissing e) → IsErr result) }
    ensures fault { IfErr result (λ e. e ≡ Fault.Write) }
{
    match answer {
        Ok(found) if found.is_file() || found.is_dir() => Ok(()),
        Ok(_) => Err(Reason::of_host(alloc, Fault::Write, path, &"this leads to what is no file")),
        Err(error) if error.kind() == ErrorKind::NotFound => Ok(()),
        Err(error) => Err(Reason::of_host(alloc, Fault::Write, path, &error)),
    }
}

/// Whether a folder stands at a path, or at what a symbolic link there names, according to the host's answer. Refuses
/// by `Fault::Write` where none does, and where the host does not tell.
pub(crate) fn folder_at(
    alloc: Global,
    path: &str,
    answer: io::Result<Metadata>,
) -> Result<(), Reason>
    ensures folder { IfOk answer (λ found. IsFolder found → IsOk result) }
    ensures other { IfOk answer (λ found. (¬ IsFolder found) → IsErr result) }
    ensures untold { IfErr answer (λ _. IsErr result) }
    ensures fault { IfErr result (λ e. e ≡ Fault.Write) }
{
    match answer {
        Ok(found) if found.is_dir() => Ok(()),
        Ok(_) => Err(Reason::of_host(alloc, Fault::Write, path, &"this is no folder")),
        Err(error) => Err(Reason::of_host(alloc, Fault::Write, path, &error)),
    }
}
