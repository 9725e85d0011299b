//! Stores in files.

ghost use Rattle.std.specs.Prelude.{◌≡◌, ◌≢◌, None, IfOk, IfErr, IfSome, IfNone};
ghost use Rattle.sqlite.specs.Files.{file_state};
ghost use Rattle.sqlite.specs.Held.{state};
ghost use Rattle.sqlite.specs.State.{HasCleanDisk};
ghost use Rattle.dcc_files.specs.Stores.{IsSettingOf, AreOfShard, UpgradesShard, HasNoSetting, SeesCommitted, IsConnectFault, IsCountFault, IsOpenFault, IsFileFault, IsStoreFault, connect_number};
ghost use Rattle.dcc_sqlite_store.specs.Faults.{open_number, create_number};
ghost use Rattle.dcc_sqlite_store.specs.Tables.{no_schema};
ghost use Rattle.dcc_sqlite_store.specs.Trees.{IsUndone};

use crate::counts::{
    Count, acts_in, count_of, is_settled, keep, log_of, log_path_of, make_file, note, put_back,
    remove_count,
};
use crate::file_records::FileRecords;
use crate::opening::open_or_upgrade;
use dcc_sqlite_store::{CreateFault, OpenFault, Setting, SqlRecords};
use dcc_startup::{Copies, CopyFault, CountFault, Counts, StoreRefusal, Stores};
use dcc_tariff::{MAX_SHARDS, Plan};
use sqlite::{Alter, Connection, Error, ErrorCode, FileStore};
use sqlite_std_file::File;
use sqlite_trees::store::Store;
use std::alloc::{AllocError, Global};
use std::fs;
use std::hash::RandomState;
use std::io::{self, ErrorKind, Write};

/// The fault of memory, and that of a database that failed.
const MEMORY: StoreRefusal = StoreRefusal(50);

const DEVICE: StoreRefusal = StoreRefusal(51);

/// The fault of a setting that no store has.
const LAYOUT: StoreRefusal = StoreRefusal(53);

/// The fault of a store that has fewer acts than its count file says, or whose count file has no number.
const LOST: StoreRefusal = StoreRefusal(57);

/// The stores of shards in the files of this process's system.
#[derive(Clone, Copy)]
pub struct FileStores<'r> {
    rt: &'r HostRuntime,
}

impl<'r> FileStores<'r> {
    /// The stores in the files that this process may open.
    pub fn new(rt: &'r HostRuntime) -> FileStores<'r> {
        FileStores { rt }
    }

    /// A connection to the database at a path. The database is made if there is none.
    fn connect(&self, path: &str) -> Result<Connection<FileStore<File>>, StoreRefusal>
        ensures sees { IfOk result (λ conn. SeesCommitted ⟦<FileStore<File> as Store>⟧ conn) }
        ensures refused { IfErr result (λ refusal. IsConnectFault refusal.0) }
    {
        match Connection::open(self.rt, path) {
            Ok(conn) => Ok(conn),
            Err(error) => Err(unconnected(&error)),
        }
    }

    /// The octets of the log of the database at a path, if there is a log. It isn't read if the database may have no acts.
    fn log(&self, path: &str, least: u64) -> Result<Option<Vec<u8>>, StoreRefusal>
        ensures { IfErr result (λ refusal. IsCountFault refusal.0) }
    {
        if least == 0 {
            return Ok(None);
        }
        match log_of(self.rt, path) {
            Ok(log) => Ok(log),
            Err(error) if error.kind() == ErrorKind::OutOfMemory => Err(MEMORY),
            Err(_) => Err(DEVICE),
        }
    }

    /// The number of acts that the store of a shard has to have at least: that of its count file, or 0 if there is no such file.
    fn least(&self, folder: &str, shard: usize) -> Result<u64, StoreRefusal>
        ensures { IfErr result (λ refusal. IsCountFault refusal.0) }
    {
        match count_of(self.rt, folder, shard) {
            Ok(Count::Missing) => Ok(0),
            Ok(Count::Acts(acts)) => Ok(acts),
            Ok(Count::Unread) => Err(LOST),
            Err(error) if error.kind() == ErrorKind::OutOfMemory => Err(MEMORY),
            Err(_) => Err(DEVICE),
        }
    }

    /// Whether there is a file for the store of a shard, which has to be there if its count file says that it had acts.
    fn is_there_with(&self, folder: &str, shard: usize, least: u64) -> Result<bool, StoreRefusal>
        ensures { IfErr result (λ refusal. IsCountFault refusal.0) }
    {
        let is_there = self.is_there(folder, shard)?;
        if !is_there && least > 0 {
            return Err(LOST);
        }
        Ok(is_there)
    }

    /// The number of acts in the store of a shard, or none if the store isn't opened.
    fn found(&self, folder: &str, shard: usize) -> Option<u64> {
        if !self.is_there(folder, shard).ok()? {
            return Some(0);
        }
        let path = path_of(self.rt.alloc(), folder, shard).ok()?;
        match self.connect(path.as_str()) {
            Ok(conn) => acts_of(conn),
            Err(_) => None,
        }
    }

    /// Removes the count file of a shard's store whose loss is accepted, and reports that by this line on standard error.
    fn forget(&self, folder: &str, shard: usize, line: Result<String, AllocError>) {
        if remove_count(self.rt, folder, shard).is_err() {
            return;
        }
        if let Ok(line) = line {
            let _unwritten = self.rt.stderr().write_all(line.as_bytes());
        }
    }

    /// Whether there is a file for the store of a shard.
    fn is_there(&self, folder: &str, shard: usize) -> Result<bool, StoreRefusal>
        ensures { IfErr result (λ refusal. IsConnectFault refusal.0) }
    {
        let path = path_of(self.rt.alloc(), folder, shard).map_err(|_| MEMORY)?;
        fs::exists(self.rt, path.as_str()).map_err(|_| DEVICE)
    }

    /// Reports the upgrade of a store by a line on standard error. The line goes out in one piece, since stores are opened side by side. If memory for
    /// the line is short, or the line can't be written, nothing else is done.
    fn report(&self, path: &str, upgraded: Option<u64>) {
        let Some(count) = upgraded else {
            return;
        };
        let acts = if count == 1 { "act" } else { "acts" };
        let line = format!(in self.rt.alloc();
            "dcc: {path}: store upgraded from layout 1 to layout 2, {count} {acts}\n"
        );
        if let Ok(line) = line {
            let _unwritten = self.rt.stderr().write_all(line.as_bytes());
        }
    }
}

impl Copies for FileStores<'_> {
    fn make_folder(&self, into: &str) -> Result<(), CopyFault> {
        match fs::create_dir(self.rt, into) {
            Ok(()) => Ok(()),
            Err(error) if error.kind() == ErrorKind::AlreadyExists => Err(CopyFault::There),
            Err(_) => Err(CopyFault::Io),
        }
    }

    fn copy(&self, folder: &str, shard: usize, into: &str) -> Result<(), CopyFault> {
        match copy_store(self.rt, folder, shard, into) {
            Ok(()) => Ok(()),
            Err(_) => Err(CopyFault::Io),
        }
    }
}

impl Counts for FileStores<'_> {
    fn keep_count(&self, folder: &str, shard: usize) -> Result<(), CountFault> {
        match keep(self.rt, folder, shard) {
            Some(()) => Ok(()),
            None => Err(CountFault),
        }
    }

    fn note_acts(&self, folder: &str, shard: usize, acts: u64) -> Result<(), CountFault> {
        match note(self.rt, folder, shard, acts) {
            Ok(()) => Ok(()),
            Err(_) => Err(CountFault),
        }
    }

    fn accept_loss(&self, folder: &str, shard: usize) {
        let alloc = self.rt.alloc();
        match count_of(self.rt, folder, shard) {
            Ok(Count::Acts(acts)) => {
                let Some(found) = self.found(folder, shard) else {
                    return;
                };
                if found < acts {
                    let line = format!(in alloc;
                        "dcc: shard {shard}: {found} acts of {acts}, the loss is accepted\n"
                    );
                    self.forget(folder, shard, line);
                }
            }
            Ok(Count::Unread) => {
                let line = format!(in alloc;
                    "dcc: shard {shard}: the number of its acts is lost, a loss is accepted\n"
                );
                self.forget(folder, shard, line);
            }
            Ok(Count::Missing) | Err(_) => {}
        }
    }
}

impl Stores for FileStores<'_> {
    type Records = FileRecords;

    // Which files there are is the system's word, and has no clause.
    ghost refuses = { λ _ _ plan shard number. IsStoreFault ⟦<FileStore<File> as Store>⟧ plan shard number };

    // If the disk has returned the written octets, the setting in the tables is that of the shard under the plan. No clause says what else files
    // hold, and in which folder they are.
    ghost opens = { λ _ _ plan shard r. HasCleanDisk (file_state r.records.conn) → AreOfShard plan shard (file_state r.records.conn).now.trees };

    fn open(
        &self,
        folder: &str,
        plan: &Plan,
        shard: usize,
        hasher: RandomState,
    ) -> Result<Option<FileRecords>, StoreRefusal> {
        let least = self.least(folder, shard)?;
        if !self.is_there_with(folder, shard, least)? {
            return Ok(None);
        }
        let path = path_of(self.rt.alloc(), folder, shard).map_err(|_| MEMORY)?;
        let log = self.log(path.as_str(), least)?;
        let before = Before {
            rt: self.rt,
            path: path.as_str(),
            least,
            log: &log,
        };
        let conn = self.connect(path.as_str())?;
        match opened_with(before, conn, plan, shard, hasher)? {
            Some((records, upgraded)) => {
                self.report(path.as_str(), upgraded);
                Ok(Some(FileRecords { records }))
            }
            None => Ok(None),
        }
    }

    fn look_beside(
        &self,
        folder: &str,
        plan: &Plan,
        shard: usize,
        hasher: RandomState,
    ) -> Result<(), StoreRefusal> {
        let least = self.least(folder, shard)?;
        if self.is_there_with(folder, shard, least)? {
            return Ok(());
        }
        for other in 0..usize::from(MAX_SHARDS) {
            let found = self.open(folder, plan, other, hasher)?;
            // By a call: records that are let go in place are proved part by part.
            drop(found);
        }
        Ok(())
    }

    fn open_or_make(
        &self,
        folder: &str,
        plan: &Plan,
        shard: usize,
        hasher: RandomState,
    ) -> Result<FileRecords, StoreRefusal> {
        let least = self.least(folder, shard)?;
        let path = path_of(self.rt.alloc(), folder, shard).map_err(|_| MEMORY)?;
        if !self.is_there_with(folder, shard, least)? {
            make_file(self.rt, path.as_str());
        }
        let log = self.log(path.as_str(), least)?;
        let before = Before {
            rt: self.rt,
            path: path.as_str(),
            least,
            log: &log,
        };
        let conn = self.connect(path.as_str())?;
        let (records, upgraded) = opened_or_made_with(before, conn, plan, shard, hasher)?;
        self.report(path.as_str(), upgraded);
        Ok(FileRecords { records })
    }
}

/// What was there before a database was opened.
#[derive(Clone, Copy)]
struct Before<'a> {
    rt: &'a HostRuntime,
    /// The path of the database.
    path: &'a str,
    /// At least so many acts have to be in it, by its count file.
    least: u64,
    /// The octets of its log, if there was a log.
    log: &'a Option<Vec<u8>>,
}

/// The number of acts in a database, which is closed.
fn acts_of<S: Alter + Drop>(conn: Connection<S>) -> Option<u64> {
    let mut conn = conn;
    let acts = acts_in(&mut conn).ok();
    // By a call, here and below: a connection that is let go in place is proved part by part.
    drop(conn);
    acts
}

/// The connection to a database, if there are enough acts in it; else its log is put back as it was before.
fn with_acts<S: Alter + Drop>(
    before: Before<'_>,
    conn: Connection<S>,
) -> Result<Connection<S>, StoreRefusal>
    requires { SeesCommitted S.Store conn }
    ensures sees { IfOk result (λ conn. SeesCommitted S.Store conn) }
    ensures refused { IfErr result (λ refusal. IsCountFault refusal.0) }
{
    if before.least == 0 {
        return Ok(conn);
    }
    let mut conn = conn;
    match counted(&mut conn, before.least) {
        Ok(()) => Ok(conn),
        Err(refusal) => {
            put_back(before.rt, before.path, before.log);
            drop(conn);
            Err(refusal)
        }
    }
}

/// Looks whether there are at least so many acts in a database.
fn counted<S: Alter>(conn: &mut Connection<S>, least: u64) -> Result<(), StoreRefusal>
    ensures sees { IfOk result (λ _. SeesCommitted S.Store conn.new) }
    ensures refused { IfErr result (λ refusal. IsCountFault refusal.0) }
{
    match acts_in(conn) {
        Ok(acts) if acts < least => return Err(LOST),
        Ok(_) => {}
        Err(Error::SqliteFailure(ErrorCode::OutOfMemory)) => return Err(MEMORY),
        Err(_) => return Err(DEVICE),
    }
    if is_settled(conn) {
        Ok(())
    } else {
        Err(DEVICE)
    }
}

/// What [`opened`] returns, if there are enough acts in the database.
fn opened_with<S: Alter + Drop>(
    before: Before<'_>,
    conn: Connection<S>,
    plan: &Plan,
    shard: usize,
    hasher: RandomState,
) -> Result<Option<(SqlRecords<S>, Option<u64>)>, StoreRefusal>
    requires { SeesCommitted S.Store conn }
    ensures terms { IfOk result (λ found. IfSome found (λ opened. opened.0.terms ≡ plan.now.terms)) }
    ensures shard { IfOk result (λ found. IfSome found (λ opened. HasCleanDisk (state S.Store opened.0.conn)
        → AreOfShard plan.now shard (state S.Store opened.0.conn).now.trees)) }
    ensures refused { IfErr result (λ refusal. IsFileFault S.Store plan.now shard refusal.0) }
{
    let conn = match with_acts(before, conn) {
        Ok(conn) => conn,
        Err(refusal) => return Err(refusal),
    };
    match opened(before.rt.alloc(), conn, plan, shard, hasher) {
        Ok(found) => Ok(found),
        Err(refusal) => Err(refusal),
    }
}

/// What [`opened_or_made`] returns, if there are enough acts in the database.
fn opened_or_made_with<S: Alter + Drop>(
    before: Before<'_>,
    conn: Connection<S>,
    plan: &Plan,
    shard: usize,
    hasher: RandomState,
) -> Result<(SqlRecords<S>, Option<u64>), StoreRefusal>
    requires { SeesCommitted S.Store conn }
    ensures terms { IfOk result (λ opened. opened.0.terms ≡ plan.now.terms) }
    ensures shard { IfOk result (λ opened. HasCleanDisk (state S.Store opened.0.conn)
        → AreOfShard plan.now shard (state S.Store opened.0.conn).now.trees) }
    ensures refused { IfErr result (λ refusal. IsFileFault S.Store plan.now shard refusal.0) }
{
    let conn = match with_acts(before, conn) {
        Ok(conn) => conn,
        Err(refusal) => return Err(refusal),
    };
    match opened_or_made(before.rt.alloc(), conn, plan, shard, hasher) {
        Ok(opened) => Ok(opened),
        Err(refusal) => Err(refusal),
    }
}

/// The records over a database, and how many acts its store had if it was of layout 1 and is upgraded. None if there is nothing in the
/// database.
fn opened<S: Alter + Drop>(
    alloc: Global,
    conn: Connection<S>,
    plan: &Plan,
    shard: usize,
    hasher: RandomState,
) -> Result<Option<(SqlRecords<S>, Option<u64>)>, StoreRefusal>
    requires { SeesCommitted S.Store conn }
    ensures terms { IfOk result (λ found. IfSome found (λ opened. opened.0.terms ≡ plan.now.terms)) }
    ensures shard { IfOk result (λ found. IfSome found (λ opened. HasCleanDisk (state S.Store opened.0.conn)
        → AreOfShard plan.now shard (state S.Store opened.0.conn).now.trees)) }
    ensures still { IfOk result (λ found. IfSome found (λ opened. opened.1 ≡ None → HasCleanDisk (state S.Store opened.0.conn)
        → IsUndone (state S.Store conn) (state S.Store opened.0.conn))) }
    ensures upgraded { IfOk result (λ found. IfSome found (λ opened. IfSome opened.1 (λ count. HasCleanDisk (state S.Store opened.0.conn)
        → UpgradesShard plan.now shard count (state S.Store conn).now.trees (state S.Store opened.0.conn).now.trees))) }
    ensures none { IfOk result (λ found. IfNone found (conn.schema ≡ no_schema)) }
    ensures refused { IfErr result (λ refusal. IsOpenFault S.Store plan.now shard conn refusal.0) }
{
    let Some(setting) = setting_of(plan, shard) else {
        drop(conn);
        return Err(LAYOUT);
    };
    match open_or_upgrade(alloc, conn, &setting, hasher) {
        Ok(opened) => Ok(Some(opened)),
        Err((fault, conn)) => {
            drop(conn);
            match unopened(fault) {
                Some(refusal) => Err(refusal),
                None => Ok(None),
            }
        }
    }
}

/// The same, and a store is made if there is nothing in the database, and only then.
fn opened_or_made<S: Alter + Drop>(
    alloc: Global,
    conn: Connection<S>,
    plan: &Plan,
    shard: usize,
    hasher: RandomState,
) -> Result<(SqlRecords<S>, Option<u64>), StoreRefusal>
    requires { SeesCommitted S.Store conn }
    ensures terms { IfOk result (λ opened. opened.0.terms ≡ plan.now.terms) }
    ensures shard { IfOk result (λ opened. HasCleanDisk (state S.Store opened.0.conn)
        → AreOfShard plan.now shard (state S.Store opened.0.conn).now.trees) }
    ensures still { IfOk result (λ opened. opened.1 ≡ None → conn.schema ≢ no_schema → HasCleanDisk (state S.Store opened.0.conn)
        → IsUndone (state S.Store conn) (state S.Store opened.0.conn)) }
    ensures upgraded { IfOk result (λ opened. IfSome opened.1 (λ count. HasCleanDisk (state S.Store opened.0.conn)
        → UpgradesShard plan.now shard count (state S.Store conn).now.trees (state S.Store opened.0.conn).now.trees)) }
    ensures refused { IfErr result (λ refusal. IsOpenFault S.Store plan.now shard conn refusal.0) }
{
    let Some(setting) = setting_of(plan, shard) else {
        drop(conn);
        return Err(LAYOUT);
    };
    let (fault, conn) = match open_or_upgrade(alloc, conn, &setting, hasher) {
        Ok(opened) => return Ok(opened),
        Err(refused) => refused,
    };
    if let Some(refusal) = unopened(fault) {
        drop(conn);
        return Err(refusal);
    }
    match SqlRecords::create(alloc, conn, &setting, hasher) {
        Ok(records) => Ok((records, None)),
        Err((fault, conn)) => {
            drop(conn);
            Err(unmade(fault))
        }
    }
}

/// Copies the files of a shard's store into a folder.
fn copy_store(rt: &HostRuntime, folder: &str, shard: usize, into: &str) -> io::Result<()> {
    let alloc = rt.alloc();
    let from = path_of(alloc, folder, shard)?;
    let to = path_of(alloc, into, shard)?;
    copy_file(rt, from.as_str(), to.as_str())?;
    copy_log(rt, from.as_str(), to.as_str())?;
    fs::open(rt, into)?.sync_all()
}

/// Copies the log beside the database at a path, if there is a log.
fn copy_log(rt: &HostRuntime, from: &str, to: &str) -> io::Result<()> {
    let from_log = log_path_of(rt.alloc(), from)?;
    if !fs::exists(rt, from_log.as_str())? {
        return Ok(());
    }
    let to_log = log_path_of(rt.alloc(), to)?;
    copy_file(rt, from_log.as_str(), to_log.as_str())
}

/// Copies a file, and waits until the disk has its octets.
fn copy_file(rt: &HostRuntime, from: &str, to: &str) -> io::Result<()> {
    fs::copy(rt, from, to)?;
    fs::open(rt, to)?.sync_all()
}

/// The refusal that reports a file that isn't opened.
fn unconnected(error: &Error) -> StoreRefusal
    ensures { result.0 ≡ connect_number error.now }
{
    match error {
        Error::SqliteFailure(ErrorCode::OutOfMemory) => MEMORY,
        _ => DEVICE,
    }
}

/// The refusal that reports a store that isn't opened. None if there is nothing in the database.
fn unopened(fault: OpenFault) -> Option<StoreRefusal>
    ensures some { IfSome result (λ refusal. (refusal.0 ≡ open_number fault) × (fault ≢ OpenFault.Empty)) }
    ensures none { IfNone result (fault ≡ OpenFault.Empty) }
{
    match fault {
        OpenFault::Empty => None,
        fault => Some(StoreRefusal(fault.number())),
    }
}

/// The refusal that reports a store that isn't made.
fn unmade(fault: CreateFault) -> StoreRefusal
    ensures { result.0 ≡ create_number fault }
{
    StoreRefusal(fault.number())
}

/// The path of a shard's store.
pub fn path_of(alloc: Global, folder: &str, shard: usize) -> Result<String, AllocError> {
    format!(in alloc; "{folder}/shard-{shard}.db")
}

/// The setting of the store of a shard, under a plan. It is there, since names of visible ASCII are text, and shards are few.
pub fn setting_of(plan: &Plan, shard: usize) -> Option<Setting<'_>>
    ensures some { IfSome result (IsSettingOf plan.now shard) }
    ensures none { IfNone result (HasNoSetting plan.now shard) }
{
    let (Ok(host), Ok(realm)) = (str::from_utf8(plan.host()), str::from_utf8(plan.realm())) else {
        return None;
    };
    let Ok(shard) = u32::try_from(shard) else {
        return None;
    };
    Some(Setting {
        shard,
        shards: u32::from(plan.shards()),
        host,
        realm,
        terms: *plan.terms(),
    })
}
