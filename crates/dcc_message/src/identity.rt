//! Who answers: the names and the address that a server gives itself.

ghost use Rattle.std.specs.Prelude.{◌≡◌, true, if◌then◌else◌, Some, None, IfOk};
ghost use Rattle.dcc_octets.specs.Names.{is_name};

use dcc_octets::is_name;
use std::alloc::AllocError;
use std::marker::Model;

/// A DiameterIdentity (RFC 6733, section 4.3.1): the name of a host or a realm, 1 to 255 octets of visible ASCII.
#[derive(Debug, Drop)]
pub struct DiameterIdentity {
    octets: Vec<u8>,
}

impl Model for DiameterIdentity {
    ghost use Rattle.std.specs.Prelude.{◌≡◌, List, ℕ, true};
    ghost use Rattle.dcc_octets.specs.Names.{is_name};

    ghost Value = { List ℕ };

    ghost view = { λ n. n.octets.items };

    ghost invariant = { λ n. is_name n.octets.items ≡ true };
}

impl DiameterIdentity {
    /// The name of these octets. None if they are outside the limits. It takes no memory.
    pub fn from_vec(octets: Vec<u8>) -> Option<DiameterIdentity>
        ensures { result ≡ (if is_name octets.items then Some octets.items else None) }
    {
        if !is_name(&octets) {
            return None;
        }
        Some(DiameterIdentity { octets })
    }

    /// The octets of the name.
    pub fn as_slice(&self) -> &[u8]
        ensures value { result.now ≡ self.now }
        ensures limits { is_name self.now ≡ true }
    {
        self.octets.as_slice()
    }

    /// The octets, moved out.
    pub fn into_vec(self) -> Vec<u8>
        ensures value { result.items ≡ self }
        ensures limits { is_name self ≡ true }
    {
        let DiameterIdentity { octets } = self;
        octets
    }

    /// An equal name. The only error is want of memory.
    pub fn copy(&self) -> Result<DiameterIdentity, AllocError>
        ensures { IfOk result (λ copy. copy ≡ self.now) }
    {
        Ok(DiameterIdentity {
            octets: self.octets.clone()?,
        })
    }
}

/// Who a server is: the Origin-Host, the Origin-Realm and the Host-IP-Address of its answers.
#[derive(Debug, Drop)]
pub struct Identity {
    pub host: DiameterIdentity,
    pub realm: DiameterIdentity,
    /// An IPv4 address, the highest octet first.
    pub address: [u8; 4],
}

impl Identity {
    /// The same names and address. The only error is want of memory.
    pub fn copy(&self) -> Result<Identity, AllocError>
        ensures { IfOk result (λ copy. copy ≡ self.now) }
    {
        Ok(Identity {
            host: self.host.copy()?,
            realm: self.realm.copy()?,
            address: self.address,
        })
    }
}
