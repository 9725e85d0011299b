//! The proxies that an answer copies from its request.

ghost use Rattle.std.specs.Prelude.{◌≡◌, ◌≤◌, ◌++◌, [], filter, length, vec_len, IfOk, OnOk};
ghost use Rattle.std.specs.List.{sum_by};
ghost use Rattle.dcc_avp.specs.Spelling.{padded_len, has_code};
ghost use Rattle.dcc_avp.specs.declared.codes.TheConstants.{PROXY_INFO};
ghost use Rattle.dcc_answer.specs.Proxies.{proxies_of, AreProxies, SpellProxies};
ghost use Rattle.dcc_answer.specs.Sizes.{Grows};

use dcc_avp::{Avp, codes, write_avp};
use dcc_message::MAX_LENGTH;
use std::alloc::{AllocError, Global};
use std::marker::Model;

/// The Proxy-Info of a request (RFC 6733, section 6.7.2), as an answer copies it: in order, with zero padding. At most
/// 65,532 octets, which spell Proxy-Info AVPs and nothing else.
#[derive(Debug, Drop)]
pub struct Proxies {
    octets: Vec<u8>,
}

impl Model for Proxies {
    ghost use Rattle.std.specs.Prelude.{List, ℕ, length};
    ghost use Rattle.dcc_message.specs.declared.length.TheConstants.{MAX_LENGTH};
    ghost use Rattle.dcc_answer.specs.Proxies.{SpellProxies};
    ghost use Rattle.dcc_answer.specs.Sizes.{Grows};

    ghost Value = { List ℕ };

    ghost view = { λ p. p.octets.items };

    ghost invariant = { λ p. Grows 0 (length p.octets.items) MAX_LENGTH × SpellProxies p.octets.items };
}

impl Proxies {
    /// No proxies. It takes no memory.
    pub fn none(alloc: Global) -> Self
        ensures { result ≡ [] }
    {
        Proxies {
            octets: Vec::new(alloc),
        }
    }

    /// The Proxy-Info of a message's list, which has with its padding at most 65,532 octets. The only error is want of memory.
    pub fn of(alloc: Global, avps: &[Avp<'_>]) -> Result<Self, AllocError>
        requires { sum_by padded_len avps.now ≤ MAX_LENGTH }
        ensures { IfOk result (λ proxies. proxies ≡ proxies_of avps.now) }
    {
        let mut octets = Vec::new(alloc);
        put_proxies(&mut octets, avps)?;
        Ok(Proxies { octets })
    }

    /// Equal proxies. The only error is want of memory.
    pub fn copy(&self) -> Result<Self, AllocError>
        ensures { IfOk result (λ copy. copy ≡ self.now) }
    {
        Ok(Proxies {
            octets: self.octets.clone()?,
        })
    }

    /// Their octets.
    pub fn as_slice(&self) -> &[u8]
        ensures value { result.now ≡ self.now }
        ensures spelled { SpellProxies self.now }
        ensures limits { Grows 0 (length self.now) MAX_LENGTH }
    {
        self.octets.as_slice()
    }
}

/// Appends each Proxy-Info.
#[tactic(auto, unfolding(crate::specs::Proxies::proxies_of))]
fn put_proxies(out: &mut Vec<u8>, avps: &[Avp<'_>]) -> Result<(), AllocError>
    requires small { sum_by padded_len avps.now ≤ MAX_LENGTH }
    ensures ok { OnOk result (out.new.items ≡ out.old.items ++ proxies_of avps.now) }
    ensures proxies { OnOk result (AreProxies (filter (has_code PROXY_INFO) avps.now)) }
    ensures grows { OnOk result (Grows (vec_len out.old) (vec_len out.new) (sum_by padded_len avps.now)) }
{
    for avp in avps {
        if avp.has_code(codes::PROXY_INFO) {
            write_avp(out, avp)?;
        }
    }
    Ok(())
}
