//! A refusal: its cause, and the AVPs that its answer shows.

ghost use Rattle.std.specs.Prelude.{◌≡◌, [], ◌∷◌};
ghost use Rattle.dcc_request.specs.Refusals.{Refusal, refusal, bare, failed_in, clear};

use crate::cause::Cause;
use dcc_avp::Avp;
use std::marker::Model;

/// The AVPs in the Failed-AVP of the answer (RFC 6733, section 7.5).
#[derive(Debug, Drop)]
pub enum Failed<'a> {
    /// No AVP, and then the answer has no Failed-AVP.
    Nothing,
    /// One AVP.
    One(Avp<'a>),
    /// Two AVPs, in this order, in the one Failed-AVP.
    Two(Avp<'a>, Avp<'a>),
}

/// A refusal of a request. Its AVPs are those of the message, or stand for missing or broken AVPs. They lend their data
/// from the octets of the message, so that the refusal outlives the lists that were read, and takes no memory. Contracts
/// see it as a `Refusal`.
#[derive(Debug, Drop)]
pub struct Refused<'a> {
    cause: Cause,
    failed: Failed<'a>,
}

impl<'a> Model for Refused<'a> {
    ghost use Rattle.dcc_request.specs.Refusals.{Refusal, failed_in};

    ghost Value = { Refusal };

    ghost view = { λ r. record { cause = r.cause; failed = failed_in r.failed } };
}

impl<'a> Refused<'a> {
    /// A refusal that shows no AVP.
    pub fn bare(cause: Cause) -> Refused<'a>
        ensures { result ≡ bare cause }
    {
        Refused {
            cause,
            failed: Failed::Nothing,
        }
    }

    /// A refusal that shows this AVP.
    pub fn one(cause: Cause, avp: Avp<'a>) -> Refused<'a>
        ensures { result ≡ refusal cause avp.entry }
    {
        Refused {
            cause,
            failed: Failed::One(avp),
        }
    }

    /// A refusal that shows these two AVPs, in this order.
    pub fn two(cause: Cause, first: Avp<'a>, second: Avp<'a>) -> Refused<'a>
        ensures { result ≡ record { cause = cause; failed = first.entry ∷ second.entry ∷ [] } }
    {
        Refused {
            cause,
            failed: Failed::Two(first, second),
        }
    }

    /// The cause.
    pub fn cause(&self) -> Cause
        ensures { result ≡ self.now.cause }
    {
        self.cause
    }

    /// The AVPs in the Failed-AVP of the answer.
    pub fn failed(&self) -> &Failed<'a>
        ensures { failed_in result.now ≡ self.now.failed }
    {
        &self.failed
    }
}

/// `Ok` if no refusal was found, else the refusal as an error: so a test becomes a step with `?`.
pub fn clear<'a>(found: Option<Refused<'a>>) -> Result<(), Refused<'a>>
    ensures { result ≡ clear found.entry }
{
    match found {
        None => Ok(()),
        Some(refused) => Err(refused),
    }
}
