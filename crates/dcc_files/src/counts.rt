//! The count file of a store, `shard-N.acts`, which says how many acts the store had when it was written: at the store's last quiet end, or later, while
//! its process went on.
//!
//! Acts only grow, so a store with fewer acts has lost some: its log was cut, or its files are older ones.

ghost use Rattle.std.specs.Prelude.{◌≡◌, true};
ghost use Rattle.dcc_files.specs.Stores.{SeesCommitted};

use crate::stores::path_of;
use sqlite::types::ValueRef;
use sqlite::{Alter, Connection, Error, Row};
use std::alloc::{AllocError, Global};
use std::fs::OpenOptions;
use std::io::{self, ErrorKind};
use std::os::unix::fs::{FileExt, OpenOptionsExt};
use std::{fs, str};

/// What the count file of a store says.
#[derive(Clone, Copy, Debug, PartialEq, Eq)]
pub enum Count {
    /// There is no such file, as beside a store of which no server has kept a number yet.
    Missing,
    /// So many acts.
    Acts(u64),
    /// It has no number of acts.
    Unread,
}

/// The mode of the files of a store: no other user reads or writes them.
const MODE: u32 = 0o600;

/// The path of the count file of a shard's store.
pub fn count_path_of(alloc: Global, folder: &str, shard: usize) -> Result<String, AllocError> {
    format!(in alloc; "{folder}/shard-{shard}.acts")
}

/// What the count file of a shard's store says. The error is the system's, which refuses the file or its octets.
pub fn count_of(rt: &HostRuntime, folder: &str, shard: usize) -> io::Result<Count> {
    let path = count_path_of(rt.alloc(), folder, shard)?;
    match fs::read(rt, path.as_str()) {
        Ok(octets) => Ok(count_in(octets.as_slice())),
        Err(error) if error.kind() == ErrorKind::NotFound => Ok(Count::Missing),
        Err(error) => Err(error),
    }
}

/// What the octets of a count file say: a number in decimal digits and a line feed, or nothing.
fn count_in(octets: &[u8]) -> Count {
    let Some(digits) = octets.strip_suffix(b"\n") else {
        return Count::Unread;
    };
    if !digits.iter().all(|octet| octet.is_ascii_digit()) {
        return Count::Unread;
    }
    let Ok(text) = str::from_utf8(digits) else {
        return Count::Unread;
    };
    match text.parse::<u64>() {
        Ok(acts) => Count::Acts(acts),
        Err(_) => Count::Unread,
    }
}

/// The number of acts in a database. A database without a table of acts has none.
pub fn acts_in<S: Alter>(conn: &mut Connection<S>) -> Result<u64, Error> {
    match conn.query_row("SELECT COUNT(*) FROM act", &[]) {
        Ok(row) => {
            let acts = number_in(&row);
            // By a call, here and below: what is let go in place is proved part by part.
            drop(row);
            Ok(acts)
        }
        Err(Error::SqlInputError(_)) => Ok(0),
        Err(error) => Err(error),
    }
}

/// The number in the first column of a row.
fn number_in(row: &Row) -> u64 {
    match row.get_ref(0) {
        Ok(ValueRef::Int(number)) => u64::try_from(number).unwrap_or(0),
        _ => 0,
    }
}

/// Whether a connection still answers, and sees what is committed.
pub(crate) fn is_settled<S: Alter>(conn: &mut Connection<S>) -> bool
    ensures { result ≡ true → SeesCommitted S.Store conn.new }
{
    let prepared = conn.prepare("SELECT 1");
    let is_prepared = prepared.is_ok();
    drop(prepared);
    if !is_prepared {
        return false;
    }
    conn.is_autocommit()
}

/// The octets of the log beside the database at a path, or none if there is no log.
pub(crate) fn log_of(rt: &HostRuntime, path: &str) -> io::Result<Option<Vec<u8>>> {
    let log_path = log_path_of(rt.alloc(), path)?;
    match fs::read(rt, log_path.as_str()) {
        Ok(octets) => Ok(Some(octets)),
        Err(error) if error.kind() == ErrorKind::NotFound => Ok(None),
        Err(error) => Err(error),
    }
}

/// Puts back the log that was there before the database at a path was opened: the opening cuts off what stands behind the last whole commit, and makes a
/// missing log. The database has to be open still, so that no other process writes meanwhile.
pub(crate) fn put_back(rt: &HostRuntime, path: &str, log: &Option<Vec<u8>>) {
    let _lost = try_put_back(rt, path, log);
}

fn try_put_back(rt: &HostRuntime, path: &str, log: &Option<Vec<u8>>) -> io::Result<()> {
    let log_path = log_path_of(rt.alloc(), path)?;
    match log {
        Some(octets) => write_log(rt, log_path.as_str(), octets.as_slice()),
        None => fs::remove_file(rt, log_path.as_str()),
    }
}

/// Writes octets in place of those of the log at a path, unless they are the same.
fn write_log(rt: &HostRuntime, log_path: &str, octets: &[u8]) -> io::Result<()> {
    let found = fs::read(rt, log_path)?;
    let is_same = found.as_slice() == octets;
    drop(found);
    if is_same {
        return Ok(());
    }
    let file = OpenOptions::new().write(true).open(rt, log_path)?;
    file.write_all_at(octets, 0)?;
    file.set_len(octets.len() as u64)?;
    file.sync_all()
}

/// The path of the log beside the database at a path.
pub(crate) fn log_path_of(alloc: Global, path: &str) -> Result<String, AllocError> {
    format!(in alloc; "{path}-wal")
}

/// Makes the empty file of a store that is not there yet, with the mode of a store's files. The opening of the database makes its log with the same
/// mode, and reports a file that could not be made.
pub(crate) fn make_file(rt: &HostRuntime, path: &str) {
    let _made = new_file(rt, path);
}

/// A new file at a path, with the mode of a store's files.
fn new_file(rt: &HostRuntime, path: &str) -> io::Result<fs::File> {
    OpenOptions::new()
        .write(true)
        .create_new(true)
        .mode(MODE)
        .open(rt, path)
}

/// Copies the log of a shard's store into its database, and then writes the count file. No process may have the store open.
pub(crate) fn keep(rt: &HostRuntime, folder: &str, shard: usize) -> Option<()> {
    let path = path_of(rt.alloc(), folder, shard).ok()?;
    let mut conn = Connection::open(rt, path.as_str()).ok()?;
    let acts = acts_in(&mut conn).ok();
    // The count is written behind the copy: a stop between them leaves the older number.
    conn.close().ok()?;
    write_count(rt, folder, shard, acts?).ok()
}

/// Writes the count file of a shard's store, unless it has this number already, or a greater one. A file without a number is replaced, as at a quiet end:
/// an opening refuses such a file, so the file lost its number later. The store may be open.
pub(crate) fn note(rt: &HostRuntime, folder: &str, shard: usize, acts: u64) -> io::Result<()> {
    match count_of(rt, folder, shard)? {
        Count::Acts(kept) if kept >= acts => Ok(()),
        Count::Acts(_) | Count::Missing | Count::Unread => write_count(rt, folder, shard, acts),
    }
}

/// Writes the count file of a shard's store under another name, and renames it once the disk has it: a stop leaves the file before or this one, whole.
fn write_count(rt: &HostRuntime, folder: &str, shard: usize, acts: u64) -> io::Result<()> {
    let alloc = rt.alloc();
    let path = count_path_of(alloc, folder, shard)?;
    let new_path = format!(in alloc; "{path}.new")?;
    write_new(rt, new_path.as_str(), acts)?;
    fs::rename(rt, new_path.as_str(), path.as_str())?;
    sync_folder(rt, folder)
}

/// Writes a count file at a path, and waits until the disk has it.
fn write_new(rt: &HostRuntime, path: &str, acts: u64) -> io::Result<()> {
    let text = format!(in rt.alloc(); "{acts}\n")?;
    // One that an earlier call left unfinished.
    drop(fs::remove_file(rt, path));
    let file = new_file(rt, path)?;
    file.write_all_at(text.as_bytes(), 0)?;
    file.sync_all()
}

/// Removes the count file of a shard's store.
pub(crate) fn remove_count(rt: &HostRuntime, folder: &str, shard: usize) -> io::Result<()> {
    let path = count_path_of(rt.alloc(), folder, shard)?;
    fs::remove_file(rt, path.as_str())?;
    sync_folder(rt, folder)
}

fn sync_folder(rt: &HostRuntime, folder: &str) -> io::Result<()> {
    fs::open(rt, folder)?.sync_all()
}
