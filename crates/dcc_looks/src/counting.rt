//! Whether a store has the acts that its count file says.

use dcc_explain::StoreNote;
use dcc_files::{Count, acts_in, count_of, count_path_of};
use sqlite::{Alter, Connection, Error, ErrorCode};
use std::alloc::{AllocError, Global};
use std::io::ErrorKind;

/// How many acts a store has to have at least, or why that isn't known.
#[derive(Drop)]
pub(crate) enum Least {
    Acts(u64),
    /// There is no number in its count file.
    Lost(StoreNote),
    /// Its count file can't be read.
    Unknown(StoreNote),
}

/// How many acts the store of a shard has to have at least: none, if it has no count file.
pub(crate) fn least_of(rt: &HostRuntime, folder: &str, shard: usize) -> Result<Least, AllocError> {
    let alloc = rt.alloc();
    let path = count_path_of(alloc, folder, shard)?;
    match count_of(rt, folder, shard) {
        Ok(Count::Missing) => Ok(Least::Acts(0)),
        Ok(Count::Acts(acts)) => Ok(Least::Acts(acts)),
        Ok(Count::Unread) => Ok(Least::Lost(StoreNote {
            fault: Some(57),
            words: format!(in alloc;
                "{path}: there is no number of acts in it; restore a back-up, or accept a loss by dcc serve --accept-loss"
            )?,
        })),
        Err(error) if error.kind() == ErrorKind::OutOfMemory => Err(AllocError),
        Err(error) => Ok(Least::Unknown(StoreNote {
            fault: Some(51),
            words: format!(in alloc; "{path}: {error}")?,
        })),
    }
}

/// What is wrong with a database in which there have to be so many acts at least, if something is.
pub(crate) fn counted<S: Alter>(
    alloc: Global,
    conn: &mut Connection<S>,
    least: u64,
) -> Result<Option<StoreNote>, AllocError> {
    if least == 0 {
        return Ok(None);
    }
    match acts_in(conn) {
        Ok(acts) if acts >= least => Ok(None),
        Ok(acts) => Ok(Some(StoreNote {
            fault: Some(57),
            words: lost_words(alloc, acts, least)?,
        })),
        Err(Error::SqliteFailure(ErrorCode::OutOfMemory)) => Err(AllocError),
        Err(error) => Ok(Some(StoreNote {
            fault: Some(51),
            words: format!(in alloc; "its acts can't be counted: {error}")?,
        })),
    }
}

/// What is said of a store with fewer acts than it had.
pub(crate) fn lost_words(alloc: Global, acts: u64, least: u64) -> Result<String, AllocError> {
    let noun = if acts == 1 { "act is" } else { "acts are" };
    format!(in alloc;
        "{acts} {noun} there, and {least} were there before; restore a back-up, or accept the loss by dcc serve --accept-loss"
    )
}
