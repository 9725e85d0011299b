//! Backups.

ghost use Rattle.std.specs.Prelude.{◌≡◌, ◌++◌, IfOk, OnOk, string_bytes};
ghost use Rattle.http_server.specs.Response.{IsBlank};
ghost use Rattle.dcc_port.specs.Answers.{AreCopiedAs, IsBackedUp};
ghost use Rattle.dcc_port.specs.Sheets.{IsSheet, backup_sheet, copies_text, file_text, files, uncopied_text, with_file};

use crate::account::put_escaped;
use crate::looks::CopyLook;
use crate::port::{CopyFault, Port, Server};
use crate::sheet::{Kind, put};
use dcc_running::Naming;
use dcc_store::Records;
use http::StatusCode;
use http_server::Response;
use std::alloc::{AllocError, Global};
use std::sync::Wait;

/// The end of a backup.
#[derive(Clone, Copy)]
pub(crate) enum BackupEnd {
    /// Each shard's store was copied.
    Done,
    /// There was something of the folder's name already.
    There,
    /// The folder was not made.
    NoFolder,
    /// The copy of the store of the shard with this index failed.
    Uncopied(usize),
}

/// Makes a folder, and copies each shard's store into it, one after another, up to the first failure. It waits for each shard's lock in turn, and holds it
/// until the shard's store is copied.
pub(crate) fn back_up<W: Wait, R: Records, J: Naming, S: Server>(
    rt: &W,
    port: &Port<'_, R, J>,
    server: &mut S,
    folder: &[u8],
) -> BackupEnd
    ensures { IsBackedUp R S.rules port.now.count folder.now server.old result server.new }
{
    match server.begin_copy(folder) {
        Ok(()) => copy_all(rt, port, server, folder),
        Err(CopyFault::There) => BackupEnd::There,
        Err(CopyFault::Io) => BackupEnd::NoFolder,
    }
}

/// Copies each shard's store into the folder, up to the first failure.
fn copy_all<W: Wait, R: Records, J: Naming, S: Server>(
    rt: &W,
    port: &Port<'_, R, J>,
    server: &S,
    folder: &[u8],
) -> BackupEnd
    ensures { AreCopiedAs R S.rules port.now.count folder.now server.now result }
{
    for index in 0..port.count {
        match port.shards.read(rt, index, CopyLook { server, folder }) {
            Ok(()) => {}
            Err(_) => return BackupEnd::Uncopied(index),
        }
    }
    BackupEnd::Done
}

/// Writes the end of a backup of so many shards. The only error is want of memory.
pub(crate) fn put_backup(
    alloc: Global,
    response: &mut Response,
    folder: &[u8],
    count: usize,
    end: BackupEnd,
) -> Result<(), AllocError>
    requires { IsBlank response.old }
    ensures { OnOk result (IsSheet (backup_sheet folder.now count end) response.new) }
{
    match end {
        BackupEnd::Done => {
            let text = copies_text(alloc, folder, count)?;
            put(response, StatusCode::OK, Kind::Json, text.as_slice())
        }
        BackupEnd::There => put(response, StatusCode::CONFLICT, Kind::Json, THERE_TEXT),
        BackupEnd::NoFolder => put(
            response,
            StatusCode::INSUFFICIENT_STORAGE,
            Kind::Json,
            NO_FOLDER_TEXT,
        ),
        BackupEnd::Uncopied(index) => {
            let text = uncopied_text(alloc, index)?;
            put(
                response,
                StatusCode::INSUFFICIENT_STORAGE,
                Kind::Json,
                text.as_bytes(),
            )
        }
    }
}

const THERE_TEXT: &[u8] =
    b"{\"error\":\"folder is there\",\"in\":\"folder\",\"expected\":\"the path of a new folder\"}";

const NO_FOLDER_TEXT: &[u8] =
    b"{\"error\":\"copy failed\",\"in\":\"folder\",\"expected\":\"a new folder in one that exists, and to which the user of the server may write\"}";

/// The copies of so many shards in a folder, as text.
#[tactic(auto, unfolding(crate::specs::Sheets::copies_text))]
fn copies_text(alloc: Global, folder: &[u8], count: usize) -> Result<Vec<u8>, AllocError>
    ensures { IfOk result (λ text. text.items ≡ copies_text folder.now count) }
{
    let mut text = Vec::from_slice(alloc, b"{\"folder\":\"")?;
    put_escaped(&mut text, folder)?;
    text.extend_from_slice(b"\",\"files\":[")?;
    put_files(alloc, &mut text, count)?;
    text.extend_from_slice(b"]}")?;
    Ok(text)
}

/// Adds the files of so many shards to a text.
fn put_files(alloc: Global, text: &mut Vec<u8>, count: usize) -> Result<(), AllocError>
    ensures { OnOk result (text.new.items ≡ text.old.items ++ files count) }
{
    let names = files(alloc, count)?;
    text.extend_from_slice(names.as_slice())
}

/// The files of so many shards, with commas between them.
fn files(alloc: Global, count: usize) -> Result<Vec<u8>, AllocError>
    ensures { IfOk result (λ text. text.items ≡ files count) }
{
    let mut text = Vec::new(alloc);
    for index in 0..count {
        put_file(alloc, &mut text, index)?;
    }
    Ok(text)
}

/// Adds the files of a shard to a list of files.
fn put_file(alloc: Global, text: &mut Vec<u8>, index: usize) -> Result<(), AllocError>
    ensures { OnOk result (text.new.items ≡ with_file text.old.items index) }
{
    let name = file_text(alloc, index)?;
    if !text.is_empty() {
        text.extend_from_slice(b",")?;
    }
    text.extend_from_slice(name.as_bytes())
}

/// The files of a shard, as text: its database, and the log beside it, in which the newest acts stand.
#[tactic(auto, unfolding(crate::specs::Sheets::file_text))]
fn file_text(alloc: Global, index: usize) -> Result<String, AllocError>
    ensures { IfOk result (λ text. string_bytes text ≡ file_text index) }
{
    let text = format!(in alloc; "\"shard-{index}.db\",\"shard-{index}.db-wal\"")?;
    Ok(text)
}

/// The failure of a shard's copy, as text.
#[tactic(auto, unfolding(crate::specs::Sheets::uncopied_text))]
fn uncopied_text(alloc: Global, index: usize) -> Result<String, AllocError>
    ensures { IfOk result (λ text. string_bytes text ≡ uncopied_text index) }
{
    let text = format!(in alloc;
        "{{\"error\":\"copy failed\",\"in\":\"shard {index}\",\"expected\":\"a disk with room, and files that the user of the server may write\"}}"
    )?;
    Ok(text)
}
