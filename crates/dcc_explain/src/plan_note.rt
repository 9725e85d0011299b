//! The explanation of a plan's fault.

ghost use Rattle.std.specs.Prelude.{◌≡◌, IfOk, IfSome, IsUtf8, Some, option_map};
ghost use Rattle.toml.specs.Parse.{parse_document};
ghost use Rattle.toml.specs.View.{table_view};
ghost use Rattle.dcc_tariff.specs.PlanTexts.{plan_of_text};
ghost use Rattle.dcc_explain.specs.Flaws.{fault_in, IsAt};

use crate::place::{Place, place_in};
use crate::plan_words::{words_of, words_of_octets, words_of_text};
use dcc_tariff::{Plan, PlanFault};
use std::alloc::{AllocError, Global};
use toml::Table;

/// The first fault of a plan file, explained.
#[derive(Drop)]
pub struct PlanNote {
    /// The fault that the reading of the plan reports.
    pub fault: PlanFault,
    /// Where it stands.
    pub place: Place,
    /// Key, table and line, the value that was found, and the values that may stand there.
    pub words: String,
}

/// The explanation of a plan file's octets, if they have a fault: octets that are no text are no TOML document.
pub fn explain_plan(alloc: Global, octets: &[u8]) -> Result<Option<PlanNote>, AllocError>
    ensures fault { IsUtf8 octets.now → IfOk result (λ note. option_map (λ n. n.fault) note ≡ fault_in (plan_of_text octets.now)) }
    ensures place { IsUtf8 octets.now → IfOk result (λ note. IfSome note (λ n. IsAt (parse_document octets.now) n.fault n.place)) }
    ensures no_text { ¬ IsUtf8 octets.now → IfOk result (λ note. option_map (λ n. n.fault) note ≡ Some PlanFault.NotToml) }
{
    match str::from_utf8(octets) {
        Ok(text) => explain_text(alloc, text),
        Err(error) => {
            let words = words_of_octets(alloc, octets, error.valid_up_to())?;
            Ok(Some(PlanNote {
                fault: PlanFault::NotToml,
                place: Place::Text,
                words,
            }))
        }
    }
}

/// The same of a text.
fn explain_text(alloc: Global, text: &str) -> Result<Option<PlanNote>, AllocError>
    ensures fault { IfOk result (λ note. option_map (λ n. n.fault) note ≡ fault_in (plan_of_text text.now)) }
    ensures place { IfOk result (λ note. IfSome note (λ n. IsAt (parse_document text.now) n.fault n.place)) }
{
    match fault_of(alloc, text)? {
        Some(fault) => Ok(Some(note_of(alloc, text, fault)?)),
        None => Ok(None),
    }
}

/// The fault of a plan's text.
fn fault_of(alloc: Global, text: &str) -> Result<Option<PlanFault>, AllocError>
    ensures { IfOk result (λ fault. fault ≡ fault_in (plan_of_text text.now)) }
{
    match Plan::read(alloc, text) {
        Ok(plan) => {
            // By a call: a plan that is let go in place is proved part by part.
            drop(plan);
            Ok(None)
        }
        Err(PlanFault::NotToml) => Ok(Some(PlanFault::NotToml)),
        Err(PlanFault::MissingKey) => Ok(Some(PlanFault::MissingKey)),
        Err(PlanFault::Range) => Ok(Some(PlanFault::Range)),
        Err(PlanFault::BadMoment) => Ok(Some(PlanFault::BadMoment)),
        Err(PlanFault::Memory) => Err(AllocError),
    }
}

/// The explanation of this fault of a text.
fn note_of(alloc: Global, text: &str, fault: PlanFault) -> Result<PlanNote, AllocError>
    ensures fault { IfOk result (λ note. note.fault ≡ fault) }
    ensures place { IfOk result (λ note. IsAt (parse_document text.now) fault note.place) }
{
    match toml::table_from_str(alloc, text) {
        Ok(table) => {
            let note = note_in(alloc, text, &table, fault);
            // By a call: a table that is let go in place is proved part by part.
            drop(table);
            note
        }
        Err(error) => {
            if error.is_memory() {
                return Err(AllocError);
            }
            let words = words_of_text(alloc, text.as_bytes(), &error)?;
            Ok(PlanNote {
                fault,
                place: Place::Text,
                words,
            })
        }
    }
}

/// The explanation of this fault of the tables of a text.
fn note_in(
    alloc: Global,
    text: &str,
    table: &Table,
    fault: PlanFault,
) -> Result<PlanNote, AllocError>
    ensures fault { IfOk result (λ note. note.fault ≡ fault) }
    ensures place { IfOk result (λ note. IsAt (Some (table_view table.now)) fault note.place) }
{
    let place = place_in(alloc, table, fault)?;
    let words = words_of(alloc, text.as_bytes(), table, place, fault)?;
    Ok(PlanNote {
        fault,
        place,
        words,
    })
}
