//! The charges of reports.

/// The charge of a service's report, in minor units.
#[derive(Clone, Copy, Debug, PartialEq, Eq)]
pub struct Charged {
    /// The charge. None if nothing is reported, or if there is no tariff for it.
    pub charge: Option<u64>,
    /// The part of the charge beyond the price of the grant that the service held; all of it if the service held none.
    pub overrun: u64,
}

/// The charges of a request's reports together, in minor units: at most 2 * 10^18, since the floor bears them.
#[derive(Clone, Copy, Debug, PartialEq, Eq)]
pub struct Charges {
    /// The sum of the charges.
    pub total: u64,
    /// The sum of the parts of the charges beyond the prices of the grants that their services held.
    pub overrun: u64,
}
