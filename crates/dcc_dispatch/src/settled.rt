//! The decision on a message whose subscriber was sought.

ghost use Rattle.std.specs.Prelude.{◌≡◌, Some, Option, MatchBool};
ghost use Rattle.dcc_act.specs.declared.act.Act.{Act as AnAct};
ghost use Rattle.dcc_act.specs.declared.sub.Sub.{Sub as ASub};
ghost use Rattle.dcc_credit.specs.Refusals.{unfound_octets};
ghost use Rattle.dcc_dispatch.specs.Dispatches.{IsSought, IsSettled, session_of_key};
ghost use Rattle.dcc_dispatch.specs.Messages.{MessageView};
ghost use Rattle.dcc_dispatch.specs.Refusals.{is_refusal, IsBusyOrNothingUnder};
ghost use Rattle.dcc_dispatch.specs.Verdicts.{settled};
ghost use Rattle.dcc_dispatch.specs.declared.verdict.Verdict.{Verdict};

use crate::asked::Asked;
use crate::reply::{busy_or_nothing, staying};
use crate::sought::Sought;
use dcc_act::{Kind, SessionId, Sub};
use dcc_base::Reply;
use dcc_credit::{lend_session, write_unfound};
use dcc_message::Identity;
use dcc_octets::OctetString;
use std::alloc::Global;

/// The decision on a message whose subscriber is known, or was not found.
#[derive(Debug, Drop)]
pub enum Settled {
    /// It is answered with these octets, or without octets not at all, and the connection stays.
    Replied(Reply),
    /// A subscriber's account is asked for an act.
    Asked(Asked),
}

impl Sought {
    /// The session whose opener is sought.
    pub fn session(&self) -> &SessionId
        ensures { session_of_key self.now.act ≡ Some result.now }
    {
        match &self.act.kind {
            Kind::Update(request) | Kind::Termination(request) => &request.key.sid,
            Kind::TopUp(_) | Kind::Initial { .. } | Kind::Event(_) | Kind::Expiry => unreachable!(),
        }
    }

    /// Decides on the message by the finding. If a subscriber was found, the subscriber's account is asked for the act. If nobody was found,
    /// the message is refused by DIAMETER_MISSING_AVP (5005) with an empty Subscription-Id; if memory is refused for that, it is answered
    /// busy, or not at all.
    pub fn settle(self, alloc: Global, identity: &Identity, found: Option<Sub>) -> Settled
        ensures { (message : MessageView) (verdict : Verdict) (find : AnAct → Option ASub) → IsSought message verdict self
            → find self.act ≡ found → IsSettled identity.now message (settled identity.now message find verdict) result }
    {
        let Some(sub) = found else {
            return Settled::Replied(staying(self.refusal(alloc, identity)));
        };
        let Sought {
            act,
            header,
            proxies,
        } = self;
        Settled::Asked(Asked {
            sub,
            act,
            header,
            proxies,
        })
    }

    /// The refusal of a message whose subscriber was not found; or the busy answer, or nothing.
    fn refusal(&self, alloc: Global, identity: &Identity) -> OctetString
        ensures { MatchBool (is_refusal result)
            (IsBusyOrNothingUnder identity.now (session_of_key self.now.act) self.now.header self.now.proxies result)
            (result ≡ unfound_octets identity.now self.now.header self.now.act self.now.proxies) }
    {
        match write_unfound(alloc, identity, &self.header, &self.act, &self.proxies) {
            Ok(octets) => OctetString::from_vec(octets),
            Err(_) => {
                let session = Some(lend_session(self.session()));
                busy_or_nothing(alloc, identity, session, &self.header, &self.proxies)
            }
        }
    }
}
