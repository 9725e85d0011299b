//! What a server has beside its shards.

use crate::audits::AuditReports;
use dcc_metrics::Meters;
use dcc_startup::Copies;

/// What a server has beside its shards: its counters, its audits without a line, and the stores of its shards.
#[derive(Drop)]
pub struct Backing<'r, S: Copies> {
    pub meters: &'r Meters,
    pub audits: &'r AuditReports,
    pub stores: &'r S,
    /// The folder of the stores.
    pub folder: &'r str,
}
