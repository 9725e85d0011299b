//! The place of a gateway, as its connection sees it.

use dcc_metrics::Meters;

/// The place that a gateway takes, by its index, and the counters that count there.
#[derive(Clone, Copy)]
pub struct Place<'r> {
    pub meters: &'r Meters,
    pub gate: usize,
}

impl Place<'_> {
    /// The number of threads that have begun to write to gateways of this place.
    pub fn writers(&self) -> u64 {
        self.meters.writers(self.gate)
    }

    /// Begins the place anew, for a gateway that comes.
    pub fn begin(&self) {
        self.meters.begin(self.gate);
    }

    /// Whether the gateway has exchanged capabilities.
    pub fn is_open(&self) -> bool {
        self.meters.is_open(self.gate)
    }

    /// The number of answers that were put into the lane to the writer.
    pub fn puts(&self) -> u64 {
        self.meters.puts(self.gate)
    }

    /// Counts so many answers that went out whole, and returns how many that are in all.
    pub fn wrote(&self, count: u64) -> u64 {
        self.meters.wrote(self.gate, count)
    }

    /// Keeps that nothing more reaches the gateway.
    pub fn gone(&self) {
        self.meters.gone(self.gate);
    }
}
