//! The verdict on a credit-control message.

ghost use Rattle.std.specs.Prelude.{◌≡◌, IfOk};
ghost use Rattle.dcc_credit.specs.Acts.{act_of};
ghost use Rattle.dcc_dispatch.specs.Verdicts.{verdict_of, asked_of};
ghost use Rattle.dcc_dispatch.specs.inner.Known.{IsVerdict};

use crate::message::Message;
use dcc_act::{Act, Moment, Sub};
use dcc_ccr::{Request, read_ccr, subscriber};
use dcc_credit::{to_act, write_refusal, write_unread};
use dcc_message::Identity;
use dcc_octets::{Host, OctetString};
use dcc_request::Stop;
use dcc_tariff::Plan;
use std::alloc::{AllocError, Global};

/// The verdict on a credit-control message.
#[derive(Drop)]
pub enum Verdict {
    /// Its subscriber's account is asked for an act.
    Asks { sub: Sub, act: Act },
    /// It names nobody: the subscriber who opened the act's session is asked for the act.
    Seeks { act: Act },
    /// It is refused for its fault, by these octets.
    Refused(OctetString),
}

impl<'a> Message<'a> {
    /// The verdict on a credit-control message from a peer of this host at a moment. The only error is want of memory.
    #[tactic(auto, unfolding(crate::specs::Verdicts::verdict_of))]
    pub(crate) fn verdict(
        &self,
        alloc: Global,
        plan: &Plan,
        identity: &Identity,
        moment: Moment,
        host: &Host,
    ) -> Result<Verdict, AllocError>
        ensures value { IfOk result (λ verdict. verdict ≡ verdict_of (record { plan = plan.now; identity = identity.now }) moment host.now self.now) }
        ensures known { IfOk result (λ verdict. IsVerdict self.now verdict) }
    {
        let avps = match &self.list {
            Ok(avps) => avps,
            Err(fault) => {
                let refusal = write_unread(alloc, identity, &self.header, fault)?;
                return Ok(Verdict::Refused(OctetString::from_vec(refusal)));
            }
        };
        match read_ccr(alloc, avps) {
            Ok(request) => asked(alloc, plan, &request, host, moment),
            Err(Stop::Refused(refused)) => {
                let (header, proxies) = (&self.header, &self.proxies);
                let refusal = write_refusal(alloc, identity, header, avps, proxies, &refused)?;
                Ok(Verdict::Refused(OctetString::from_vec(refusal)))
            }
            Err(Stop::Memory) => Err(AllocError),
        }
    }
}

/// The act that a request from a peer of this host asks for, and its subscriber if it names any. The only error is want
/// of memory.
fn asked(
    alloc: Global,
    plan: &Plan,
    request: &Request<'_>,
    host: &Host,
    moment: Moment,
) -> Result<Verdict, AllocError>
    ensures { IfOk result (λ verdict. verdict ≡ asked_of request.now.sub (act_of plan.now host.now request.now moment)) }
{
    let act = to_act(alloc, plan, request, host, moment)?;
    Ok(match subscriber(request) {
        Some(sub) => Verdict::Asks { sub, act },
        None => Verdict::Seeks { act },
    })
}
