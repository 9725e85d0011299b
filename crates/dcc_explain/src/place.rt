//! Where the fault of a plan stands.

ghost use Rattle.std.specs.Prelude.{◌≡◌, true, Some, IfSome, IfOk};
ghost use Rattle.toml.specs.View.{table_view};
ghost use Rattle.dcc_explain.specs.Flaws.{fault_at, IsAt};

use crate::judging::key_fault;
use crate::key::{Key, PLAN_KEYS};
use crate::tariffs::{Spot, spot_in};
use dcc_tariff::PlanFault;
use std::alloc::{AllocError, Global};
use std::net::Ipv4Addr;
use toml::Table;

/// Where the fault of a plan stands.
#[derive(Clone, Copy)]
pub enum Place {
    /// The text is no TOML document.
    Text,
    /// A key of the plan is missing, or its value has another type or is outside its limits.
    Key(Key),
    /// The address of the plan is none.
    NoAddress,
    /// The fault is one of the tables of tariffs.
    Tariffs(Spot),
}

/// The first place of a plan's tables that has this fault, in the order in which places are judged.
pub(crate) fn place_in(alloc: Global, table: &Table, fault: PlanFault) -> Result<Place, AllocError>
    ensures { IfOk result (IsAt (Some (table_view table.now)) fault) }
{
    match place_of_key(table, fault) {
        Some(place) => Ok(place),
        None => Ok(Place::Tariffs(spot_in(alloc, table, fault)?)),
    }
}

/// The first key of the plan that has this fault.
fn place_of_key(table: &Table, fault: PlanFault) -> Option<Place>
    ensures { IfSome result (IsAt (Some (table_view table.now)) fault) }
{
    for key in PLAN_KEYS {
        if has_fault(table, key, fault) {
            return Some(Place::Key(key));
        }
        if key == Key::Address && fault == PlanFault::Range && !has_address(table) {
            return Some(Place::NoAddress);
        }
    }
    None
}

/// Whether a key has just this fault by itself.
pub(crate) fn has_fault(table: &Table, key: Key, fault: PlanFault) -> bool
    ensures { result ≡ true → fault_at key (table_view table.now) ≡ Some fault }
{
    match key_fault(table, key) {
        Some(own) => own == fault,
        None => false,
    }
}

/// Whether the text at `address` is an address.
fn has_address(table: &Table) -> bool {
    match table.get("address").and_then(|value| value.as_str()) {
        Some(text) => text.parse::<Ipv4Addr>().is_ok(),
        None => false,
    }
}
