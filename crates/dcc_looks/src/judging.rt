//! The judgement of a database as a shard's store.

ghost use Rattle.std.specs.Prelude.{◌≡◌, Some, None, IfOk};
ghost use Rattle.dcc_sqlite_store.specs.Faults.{open_number};

use crate::counting::counted;
use crate::damage::{damage_words, disagreement_words};
use crate::settings::setting_words;
use crate::subs::stray_words;
use dcc_explain::StoreNote;
use dcc_files::{open_or_upgrade, setting_of};
use dcc_sqlite_store::OpenFault;
use dcc_tariff::Plan;
use sqlite::{Alter, Connection};
use std::alloc::{AllocError, Global};
use std::hash::RandomState;

/// What is found of a database as the store of a shard, in which there have to be so many acts at least.
pub(crate) fn judged<S: Alter + Drop>(
    alloc: Global,
    conn: Connection<S>,
    plan: &Plan,
    shard: usize,
    least: u64,
    hasher: RandomState,
) -> Result<StoreNote, AllocError> {
    let mut conn = conn;
    match counted(alloc, &mut conn, least) {
        Ok(None) => note_over(alloc, conn, plan, shard, hasher),
        Ok(Some(note)) => {
            // By a call: a connection that is let go in place is proved part by part.
            drop(conn);
            Ok(note)
        }
        Err(AllocError) => {
            drop(conn);
            Err(AllocError)
        }
    }
}

/// What is found of a database as the store of a shard. It is a copy: a store of layout 1 is upgraded in it, as an opening does.
fn note_over<S: Alter + Drop>(
    alloc: Global,
    conn: Connection<S>,
    plan: &Plan,
    shard: usize,
    hasher: RandomState,
) -> Result<StoreNote, AllocError> {
    let Some(setting) = setting_of(plan, shard) else {
        drop(conn);
        return Err(AllocError);
    };
    let mut conn = conn;
    let stray = stray_words(alloc, &mut conn, shard, usize::from(plan.shards()));
    match open_or_upgrade(alloc, conn, &setting, hasher) {
        Ok((records, upgraded)) => {
            // By a call: records that are let go in place are proved part by part.
            drop(records);
            opened_note(alloc, stray?, upgraded.is_some())
        }
        Err((fault, conn)) => {
            let mut conn = conn;
            let note = fault_note(alloc, fault, &mut conn, plan, shard);
            drop(conn);
            note
        }
    }
}

/// A store that is opened: it is good, or it has a subscriber of another shard. A good one may be of layout 1.
fn opened_note(
    alloc: Global,
    stray: Option<String>,
    is_upgraded: bool,
) -> Result<StoreNote, AllocError> {
    if let Some(words) = stray {
        return Ok(StoreNote {
            fault: Some(54),
            words,
        });
    }
    let words = if is_upgraded {
        "good; an opening makes it a store of layout 2"
    } else {
        "good"
    };
    Ok(StoreNote {
        fault: None,
        words: String::from_str(alloc, words)?,
    })
}

/// A store that isn't opened, for this fault; an empty one is made by a server.
fn fault_note<S: Alter>(
    alloc: Global,
    fault: OpenFault,
    conn: &mut Connection<S>,
    plan: &Plan,
    shard: usize,
) -> Result<StoreNote, AllocError> {
    let words = match fault {
        OpenFault::Memory => return Err(AllocError),
        OpenFault::Empty => {
            return Ok(StoreNote {
                fault: None,
                words: String::from_str(alloc, "there is nothing in it yet")?,
            });
        }
        OpenFault::Device => String::from_str(alloc, "the database failed")?,
        OpenFault::Layout => setting_words(alloc, conn, plan, shard)?,
        OpenFault::Damaged => damage_words(alloc, conn)?,
        OpenFault::Disagree => disagreement_words(alloc, conn)?,
    };
    Ok(StoreNote {
        fault: Some(fault.number()),
        words,
    })
}
