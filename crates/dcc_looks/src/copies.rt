//! Copies of a store's files.

ghost use Rattle.std.specs.Prelude.{IsTrue, IfOk};

use sqlite::{Connection, Error, ErrorCode, FileStore, Files, Options};
use sqlite_disk::{Disk, Memory};
use sqlite_std_file::{OpenError, Unknown};
use std::alloc::{AllocError, Global};
use std::fs::OpenOptions;
use std::os::unix::fs::MetadataExt;
use std::{fs, io};

/// The octets of a store's files, or why they can't be had.
#[derive(Drop)]
pub(crate) enum Copies {
    /// There is no file.
    Missing,
    /// A server can't use the files either, for this reason.
    Refused(String),
    Octets { db: Vec<u8>, log: Vec<u8> },
}

/// The octets of the store at a path. Only files that a server could use are copied: another process that has them open is a reason against it. A
/// missing file is not made.
pub(crate) fn copies_of(rt: &HostRuntime, folder: &str, path: &str) -> Result<Copies, AllocError> {
    let alloc = rt.alloc();
    if let Some(reason) = folder_reason(rt, folder) {
        return refused(rt, folder, &reason);
    }
    match fs::symlink_metadata(rt, path) {
        Err(error) if error.kind() == io::ErrorKind::NotFound => return Ok(Copies::Missing),
        Err(error) => return refused(rt, path, &error),
        Ok(_) => {}
    }
    let log = format!(in alloc; "{path}-wal")?;
    if fs::symlink_metadata(rt, log.as_str()).is_ok() {
        return both_of(rt, path, log.as_str());
    }
    // A process that has a store open has made its log: so no process has this one open.
    match octets_of(rt, path) {
        Ok(db) => Ok(Copies::Octets {
            db,
            log: Vec::new(alloc),
        }),
        Err(error) => refused(rt, path, &error),
    }
}

/// Why a folder is none.
fn folder_reason(rt: &HostRuntime, folder: &str) -> Option<io::Error> {
    match fs::metadata(rt, folder) {
        Ok(found) if found.is_dir() => None,
        Ok(_) => Some(io::ErrorKind::NotADirectory.into()),
        Err(error) => Some(error),
    }
}

/// The system's reason for which a path can't be used; if rights are the reason, also what is known of them.
fn refused(rt: &HostRuntime, path: &str, error: &io::Error) -> Result<Copies, AllocError> {
    let mut reason = format!(in rt.alloc(); "{path}: {error}")?;
    if error.kind() == io::ErrorKind::PermissionDenied {
        push_rights(rt, &mut reason, path)?;
    }
    Ok(Copies::Refused(reason))
}

/// Adds the mode and the owner of a file, if its folder lets them be known, and the user as whom the program runs: the owner of the program's folder
/// below `/proc`.
fn push_rights(rt: &HostRuntime, reason: &mut String, path: &str) -> Result<(), AllocError> {
    if let Ok(found) = fs::metadata(rt, path) {
        let (mode, owner) = (found.mode() & 0o7777, found.uid());
        write!(
            reason,
            "; the file has mode {mode:03o} and belongs to user {owner}"
        )?;
    }
    if let Ok(own) = fs::metadata(rt, "/proc/self") {
        let user = own.uid();
        write!(reason, "; the program runs as user {user}")?;
    }
    Ok(())
}

/// The octets of a file that may be written too.
fn octets_of(rt: &HostRuntime, path: &str) -> io::Result<Vec<u8>> {
    let _file = OpenOptions::new().read(true).write(true).open(rt, path)?;
    fs::read(rt, path)
}

/// The octets of a file and its log, which no other process may open meanwhile.
fn both_of(rt: &HostRuntime, path: &str, log_path: &str) -> Result<Copies, AllocError> {
    let alloc = rt.alloc();
    let mut files = match sqlite_std_file::open(rt, path, Unknown) {
        Ok(files) => files,
        Err(error) => return unopened(rt, path, log_path, &error),
    };
    let log = read_whole(alloc, &mut files.log);
    let db = read_whole(alloc, &mut files.db);
    // By a call: files that are let go in place are proved part by part.
    drop(files);
    match (db, log) {
        (Ok(db), Ok(log)) => Ok(Copies::Octets { db, log }),
        (Err(error), _) => refused(rt, path, &error),
        (_, Err(error)) => refused(rt, log_path, &error),
    }
}

/// Why a file and its log aren't opened. A reason of the system has the path of the file that it belongs to.
fn unopened(
    rt: &HostRuntime,
    path: &str,
    log_path: &str,
    error: &OpenError,
) -> Result<Copies, AllocError> {
    let alloc = rt.alloc();
    let reason = match error {
        OpenError::OutOfMemory => return Err(AllocError),
        OpenError::Io(error) => {
            let is_log = is_usable(rt, path) && !is_usable(rt, log_path);
            return refused(rt, if is_log { log_path } else { path }, error);
        }
        OpenError::Busy => format!(in alloc; "{path}: another process has it open")?,
        other => format!(in alloc; "{path}: {other}")?,
    };
    Ok(Copies::Refused(reason))
}

/// Whether a file that is there may be read and written.
fn is_usable(rt: &HostRuntime, path: &str) -> bool {
    OpenOptions::new()
        .read(true)
        .write(true)
        .open(rt, path)
        .is_ok()
}

/// All octets of a disk.
fn read_whole<D: Disk>(alloc: Global, disk: &mut D) -> io::Result<Vec<u8>>
    requires { IsTrue (D.is_usable disk.old) }
{
    let len = disk.len()?;
    let mut octets = vec![in alloc; 0u8; len]?;
    if len > 0 {
        disk.read_at(0, &mut octets)?;
    }
    Ok(octets)
}

/// A disk in memory with these octets.
fn filled(alloc: Global, octets: &[u8]) -> io::Result<Memory>
    ensures { IfOk result (λ memory. IsTrue (⟦<Memory as Disk>⟧.is_usable memory)) }
{
    let mut memory = Memory::new(alloc);
    if !octets.is_empty() {
        memory.write_at(0, octets)?;
    }
    Ok(memory)
}

/// A connection to a database in memory that is a copy of these files.
pub(crate) fn connected(
    alloc: Global,
    db: &[u8],
    log: &[u8],
    seed: u64,
) -> Result<Connection<FileStore<Memory>>, Error> {
    let Ok(db) = filled(alloc, db) else {
        return Err(Error::SqliteFailure(ErrorCode::OutOfMemory));
    };
    let Ok(log) = filled(alloc, log) else {
        drop(db);
        return Err(Error::SqliteFailure(ErrorCode::OutOfMemory));
    };
    match Connection::open_files(alloc, Files { log, db }, Options::new(seed)) {
        Ok(conn) => Ok(conn),
        Err((error, left)) => {
            drop(left);
            Err(error)
        }
    }
}
