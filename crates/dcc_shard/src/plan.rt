//! The plans of a batch: a plan for each call, made before the append.

ghost use Rattle.std.specs.Prelude.{◌≡◌, ◌≤◌, [], ◌∷◌, ◌++◌, length, vec_capacity, option_to_list};
ghost use Rattle.dcc_shard.specs.inner.Plans.{additions_in};

use crate::call::Reply;
use crate::indexed::Ready;
use dcc_act::Sub;
use dcc_answer::Proxies;
use dcc_message::Header;
use dcc_store::Addition;

/// The kind of a call. For a request, the header and the proxies of its answer.
#[derive(Drop)]
pub(crate) enum Way {
    Request { header: Header, proxies: Proxies },
    TopUp,
    Expiry,
}

/// The plan of a call: nothing of the books or the records has changed yet.
#[derive(Drop)]
pub(crate) enum Plan {
    /// The call is refused, or its amount is bad. It makes nothing.
    Refused {
        reply: Reply,
    },
    /// The step of the call's act is prepared, and the reply to it is written. The way is kept for the refusal, if the append is refused.
    Step {
        sub: Sub,
        ready: Ready,
        way: Way,
        reply: Reply,
    },
}

impl Plan {
    /// The new act of the planned step, with the entries that it adds; none if the step makes no act.
    fn addition(&self) -> Option<Addition<'_>>
        ensures { option_to_list result ≡ additions_in (self.now ∷ []) }
    {
        let Plan::Step { sub, ready, .. } = self else {
            return None;
        };
        let step = ready.step();
        if step.is_new() {
            Some(Addition::new(*sub, step.act(), step.entries()))
        } else {
            None
        }
    }
}

/// Adds the new acts of planned steps to an empty list, in order. It takes no memory. The condition: there is room for them.
pub(crate) fn collect<'a>(plans: &'a [Plan], additions: &mut Vec<Addition<'a>>)
    requires empty { additions.old.items ≡ [] }
    requires room { length plans.now ≤ vec_capacity additions.old }
    ensures { additions.new.items ≡ additions_in plans.now }
{
    for plan in plans {
        if let Some(addition) = plan.addition() {
            additions.push_reserved(addition);
        }
    }
}
