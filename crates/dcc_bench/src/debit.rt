//! The debit request that is measured: of 1,001 octets.

ghost use Rattle.std.specs.Prelude.{◌≡◌, length};

use crate::fault::{Fault, Measured};
use dcc_samples::DEBIT;

/// A request, whose identifiers and number can be set.
#[derive(Clone, Copy)]
pub(crate) struct Debit {
    octets: [u8; 228],
}

impl Debit {
    /// How long the request is, in octets.
    pub(crate) const LENGTH: u32 = 228;

    /// The sample request, under the identifiers 0.
    pub(crate) fn new() -> Measured<Debit> {
        let mut debit = Debit { octets: [0; 228] };
        if hex::decode_to_slice(DEBIT.as_bytes(), &mut debit.octets).is_err() {
            return Err(Fault::Sample);
        }
        debit.set_identifiers(0);
        Ok(debit)
    }

    /// Sets the Hop-by-Hop and the End-to-End Identifier.
    pub(crate) fn set_identifiers(&mut self, number: u32) {
        let octets = number.to_be_bytes();
        self.octets[12..16].copy_from_slice(&octets);
        self.octets[16..20].copy_from_slice(&octets);
    }

    /// Sets the identifiers and the CC-Request-Number.
    pub(crate) fn set(&mut self, number: u32) {
        self.set_identifiers(number);
        self.octets[148..152].copy_from_slice(&number.to_be_bytes());
    }

    /// The octets of the request.
    pub(crate) fn as_slice(&self) -> &[u8]
        ensures { length result.now ≡ 228 }
    {
        &self.octets
    }
}
