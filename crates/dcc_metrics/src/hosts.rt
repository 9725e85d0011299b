//! The hosts of the gateways that are connected.

ghost use Rattle.std.specs.Prelude.{◌≡◌, ◌++◌, IfOk, OnOk, length, slice_set};
ghost use Rattle.std.specs.List.{flat_map};
ghost use Rattle.dcc_metrics.specs.Hosts.{escaped, host_tail, host_text, hosts_text};

use crate::family::Family;
use crate::page::{put_head, put_line};
use dcc_octets::{OctetString, is_name};
use std::alloc::{AllocError, Global};
use std::marker::Model;

/// The hosts by place: no octets for a place without a gateway, and for a gateway that has not told its host.
#[derive(Drop)]
pub(crate) struct Hosts {
    names: Vec<OctetString>,
}

impl Model for Hosts {
    ghost use Rattle.std.specs.Prelude.{ℕ, List};

    ghost Value = { List (List ℕ) };

    ghost view = { λ hosts. hosts.names.items };
}

impl Hosts {
    /// So many places without a gateway. The only error is want of memory.
    pub fn new(alloc: Global, places: usize) -> Result<Hosts, AllocError>
        ensures { IfOk result (λ hosts. length hosts ≡ places) }
    {
        let mut names = Vec::new(alloc);
        for _made in 0..places {
            names.push(OctetString::new(alloc))?;
        }
        Ok(Hosts { names })
    }

    /// Sets the host of a place. It does nothing at a place outside.
    pub fn set(&mut self, place: usize, host: OctetString)
        ensures { self.new ≡ slice_set self.old place host }
    {
        if let Some(name) = self.names.get_mut(place) {
            *name = host;
        }
    }

    /// Appends the family of the hosts: a line for each place with a host. The only error is want of memory.
    pub fn put(&self, alloc: Global, page: &mut Vec<u8>) -> Result<(), AllocError>
        ensures { OnOk result (page.new.items ≡ page.old.items ++ hosts_text self.now) }
    {
        put_hosts(alloc, page, self.names.as_slice())
    }
}

/// Appends the family of these hosts.
fn put_hosts(alloc: Global, page: &mut Vec<u8>, hosts: &[OctetString]) -> Result<(), AllocError>
    ensures { OnOk result (page.new.items ≡ page.old.items ++ hosts_text hosts.now) }
{
    put_head(alloc, page, Family::GatewayInfo)?;
    for (i, host) in hosts.iter().enumerate() {
        put_host(alloc, page, i, host.as_slice())?;
    }
    Ok(())
}

/// Appends the line of the host at a place, if it is a name.
fn put_host(alloc: Global, page: &mut Vec<u8>, place: usize, host: &[u8]) -> Result<(), AllocError>
    ensures { OnOk result (page.new.items ≡ page.old.items ++ host_text place host.now) }
{
    if !is_name(host) {
        return Ok(());
    }
    let tail = host_tail(alloc, place, host)?;
    put_line(page, Family::GatewayInfo, tail.as_slice(), b"1")
}

/// The labels of the host at a place.
#[tactic(auto, unfolding(crate::specs::Hosts::host_tail))]
fn host_tail(alloc: Global, place: usize, host: &[u8]) -> Result<Vec<u8>, AllocError>
    ensures { IfOk result (λ tail. tail.items ≡ host_tail place host.now) }
{
    let number = (place as u64).saturating_add(1);
    let label = format!(in alloc; "{{place=\"{number}\",host=\"")?;
    let mut tail = label.into_bytes();
    put_escaped(&mut tail, host)?;
    tail.extend_from_slice(b"\"}")?;
    Ok(tail)
}

/// Appends octets as the value of a label: a quote and a backslash stand behind a backslash.
fn put_escaped(text: &mut Vec<u8>, octets: &[u8]) -> Result<(), AllocError>
    ensures { OnOk result (text.new.items ≡ text.old.items ++ flat_map escaped octets.now) }
{
    for octet in octets {
        put_octet(text, *octet)?;
    }
    Ok(())
}

/// Appends an octet of the value of a label.
fn put_octet(text: &mut Vec<u8>, octet: u8) -> Result<(), AllocError>
    ensures { OnOk result (text.new.items ≡ text.old.items ++ escaped octet) }
{
    if octet == b'"' || octet == b'\\' {
        text.extend_from_slice(&[b'\\', octet])
    } else {
        text.extend_from_slice(&[octet])
    }
}
