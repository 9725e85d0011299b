//! Looks at stores in files.

use crate::copies::{Copies, connected, copies_of};
use crate::counting::{Least, least_of, lost_words};
use crate::judging::judged;
use dcc_explain::{Looks, StoreNote};
use dcc_files::path_of;
use dcc_tariff::{MAX_SHARDS, Plan};
use sqlite::{Error, ErrorCode};
use std::alloc::{AllocError, Global};
use std::hash::{BuildHasher, RandomState};

/// Looks at the stores in the files of this process's system.
#[derive(Clone, Copy)]
pub struct FileLooks<'r> {
    rt: &'r HostRuntime,
}

impl<'r> FileLooks<'r> {
    /// Looks at the files that this process may open.
    pub fn new(rt: &'r HostRuntime) -> FileLooks<'r> {
        FileLooks { rt }
    }
}

impl Looks for FileLooks<'_> {
    fn look(
        &self,
        folder: &str,
        plan: &Plan,
        shard: usize,
        hasher: RandomState,
    ) -> Result<StoreNote, AllocError> {
        match self.note_of(folder, plan, shard, hasher)? {
            Some(note) => Ok(note),
            None => self.note_beside(folder, plan, shard, hasher),
        }
    }
}

impl FileLooks<'_> {
    /// What is found of a shard's store, if there is one.
    fn note_of(
        &self,
        folder: &str,
        plan: &Plan,
        shard: usize,
        hasher: RandomState,
    ) -> Result<Option<StoreNote>, AllocError> {
        let alloc = self.rt.alloc();
        let path = path_of(alloc, folder, shard)?;
        let copies = copies_of(self.rt, folder, path.as_str())?;
        match (copies, least_of(self.rt, folder, shard)?) {
            (_, Least::Lost(note)) => Ok(Some(note)),
            (Copies::Refused(words), _) => Ok(Some(StoreNote {
                fault: Some(51),
                words,
            })),
            (_, Least::Unknown(note)) => Ok(Some(note)),
            (Copies::Missing, Least::Acts(0)) => Ok(None),
            (Copies::Missing, Least::Acts(least)) => {
                let words = lost_words(alloc, 0, least)?;
                Ok(Some(named(alloc, path.as_str(), Some(57), words.as_str())?))
            }
            (Copies::Octets { db, log }, Least::Acts(least)) => {
                let found = over(
                    alloc,
                    db.as_slice(),
                    log.as_slice(),
                    plan,
                    shard,
                    least,
                    hasher,
                )?;
                let StoreNote { fault, words } = found;
                Ok(Some(named(alloc, path.as_str(), fault, words.as_str())?))
            }
        }
    }

    /// What is found if there is no store of a shard: the first store of another shard in the folder that isn't one of a server under this plan, as
    /// an opening looks at these first; or that there is no store yet.
    fn note_beside(
        &self,
        folder: &str,
        plan: &Plan,
        shard: usize,
        hasher: RandomState,
    ) -> Result<StoreNote, AllocError> {
        let alloc = self.rt.alloc();
        let path = path_of(alloc, folder, shard)?;
        for other in 0..usize::from(MAX_SHARDS) {
            if let Some(note) = self.note_of(folder, plan, other, hasher)? {
                let StoreNote { fault, words } = note;
                if fault.is_some() {
                    let words = format!(in alloc;
                        "{path}: there is no store yet, and beside it {words}"
                    )?;
                    return Ok(StoreNote { fault, words });
                }
            }
        }
        Ok(StoreNote {
            fault: None,
            words: format!(in alloc; "{path}: there is no store yet")?,
        })
    }
}

/// What is found of a store, with its path in front.
fn named(
    alloc: Global,
    path: &str,
    fault: Option<u8>,
    words: &str,
) -> Result<StoreNote, AllocError> {
    let words = format!(in alloc; "{path}: {words}")?;
    Ok(StoreNote { fault, words })
}

/// What is found of the store that these files are, in which there have to be so many acts at least.
fn over(
    alloc: Global,
    db: &[u8],
    log: &[u8],
    plan: &Plan,
    shard: usize,
    least: u64,
    hasher: RandomState,
) -> Result<StoreNote, AllocError> {
    match connected(alloc, db, log, hasher.hash_one(&0u8)) {
        Ok(conn) => judged(alloc, conn, plan, shard, least, hasher),
        Err(Error::SqliteFailure(ErrorCode::OutOfMemory)) => Err(AllocError),
        Err(error) => Ok(StoreNote {
            fault: Some(51),
            words: format!(in alloc; "the database can't be opened: {error}")?,
        }),
    }
}
