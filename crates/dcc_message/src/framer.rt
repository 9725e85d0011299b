//! Messages out of a stream of octets.

ghost use Rattle.std.specs.Prelude.{◌≡◌, ◌↔◌, ◌≤◌, ◌<◌, ◌+◌, ◌++◌, [], Some, Err, true, false, length, slice_index, IfOk, IfErr, IfSome, IfNone, OnOk, OnErr, option_map, List, ℕ};
ghost use Rattle.dcc_message.specs.Streams.{length_field, fault_at, begins_whole, first_message, after_first, octets_of};
ghost use Rattle.dcc_message.specs.inner.Frames.{joined, IsMessage, IsCut, Completes};

use crate::length::{LengthFault, fault_in, fault_of_length, is_whole, length_of};
use std::alloc::{AllocError, Global};
use std::collections::VecDeque;
use std::marker::Model;
use std::mem;

/// A reader of messages from a stream that comes in pieces. Its value is the octets that were fed and not yet returned.
#[derive(Drop)]
pub struct Framer {
    alloc: Global,
    /// Whole messages, in order.
    ready: VecDeque<Vec<u8>>,
    /// The octets behind them, which are no whole message.
    begun: Vec<u8>,
}

impl Model for Framer {
    ghost use Rattle.std.specs.Prelude.{List, ℕ, ◌++◌, ◌≡◌, false};
    ghost use Rattle.dcc_message.specs.Streams.{begins_whole};
    ghost use Rattle.dcc_message.specs.inner.Frames.{joined, AreMessages, IsHeld};

    ghost Value = { List ℕ };

    ghost view = { λ f. joined f.ready.items ++ f.begun.items };

    ghost invariant = { λ f. IsHeld f.ready.items f.begun.items };
}

impl Framer {
    /// A framer that was fed nothing. It takes no memory.
    pub fn new(alloc: Global) -> Self
        ensures { result ≡ [] }
    {
        Framer {
            alloc,
            ready: VecDeque::new(alloc),
            begun: Vec::new(alloc),
        }
    }

    /// Feeds a piece of the stream. The only error is want of memory; then nothing was fed.
    pub fn feed(&mut self, piece: &[u8]) -> Result<(), AllocError>
        ensures ok { OnOk result (self.new ≡ self.old ++ piece.now) }
        ensures err { OnErr result (self.new ≡ self.old) }
    {
        let Some(count) = missing(&self.begun, piece) else {
            return self.begun.extend_from_slice(piece);
        };
        let (head, tail) = piece.split_at(count);
        let mut later = cut_up(self.alloc, tail)?;
        self.ready.reserve(later.ready.len() + 1)?;
        self.begun.extend_from_slice(head)?;
        self.ready
            .push_back_reserved(mem::replace(&mut self.begun, later.begun));
        self.ready.append(&mut later.ready).unwrap();
        Ok(())
    }

    /// Takes the first whole message off the stream, without memory. If no whole message stands at the front, nothing
    /// changes: the error is the fault of a bad length field, which stays, and `None` means that more octets have to
    /// come.
    pub fn next(&mut self) -> Result<Option<Vec<u8>>, LengthFault>
        ensures message { IfOk result (λ found. option_map octets_of found ≡ first_message self.old) }
        ensures left { self.new ≡ after_first self.old }
        ensures fault { (f : LengthFault) → (result ≡ Err f) ↔ (fault_at self.old ≡ Some f) }
    {
        if let Some(message) = self.ready.pop_front() {
            return Ok(Some(message));
        }
        if let Some(fault) = fault_in(&self.begun) {
            return Err(fault);
        }
        Ok(None)
    }
}

/// How many octets of the piece complete the message that is begun. None if the piece has fewer.
fn missing(begun: &[u8], piece: &[u8]) -> Option<usize>
    requires { begins_whole begun.now ≡ false }
    ensures some { IfSome result (λ count. Completes begun.now piece.now count) }
    ensures none { IfNone result (begins_whole (begun.now ++ piece.now) ≡ false) }
{
    let held = begun.len() + piece.len();
    if held < 4 {
        return None;
    }
    let field = [
        0,
        octet_at(begun, piece, 1),
        octet_at(begun, piece, 2),
        octet_at(begun, piece, 3),
    ];
    let stated = u32::from_be_bytes(field) as usize;
    if fault_of_length(stated).is_some() || held < stated {
        return None;
    }
    Some(stated - begun.len())
}

/// An octet of two pieces, one after the other.
fn octet_at(front: &[u8], back: &[u8], index: usize) -> u8
    requires { index < length front.now + length back.now }
    ensures { result ≡ slice_index (front.now ++ back.now) index }
{
    if index < front.len() {
        front[index]
    } else {
        back[index - front.len()]
    }
}

/// The messages of octets, and the octets that are left.
#[derive(Drop)]
struct Pieces {
    ready: VecDeque<Vec<u8>>,
    begun: Vec<u8>,
}

/// Cuts octets into messages.
fn cut_up(alloc: Global, octets: &[u8]) -> Result<Pieces, AllocError>
    ensures { IfOk result (λ c. IsCut octets.now c.ready.items c.begun.items) }
{
    let mut ready = VecDeque::new(alloc);
    let mut left = octets;
    while is_whole(left) {
        let (message, others) = left.split_at(length_of(left));
        ready.push_back(Vec::from_slice(alloc, message)?)?;
        left = others;
    }
    Ok(Pieces {
        ready,
        begun: Vec::from_slice(alloc, left)?,
    })
}
