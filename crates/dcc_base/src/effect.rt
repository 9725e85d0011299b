//! The effect of an accepted request on its peer.

use dcc_octets::Host;

/// The effect of an accepted request of the base protocol on its peer.
#[derive(Debug, Drop)]
pub enum Effect {
    /// The peer is open, under this host's name.
    Opens(Host),
    /// The peer stays as it is.
    Stays,
    /// Its connection is closed.
    Closes,
}
