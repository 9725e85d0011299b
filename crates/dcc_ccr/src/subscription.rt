//! The subscriber whose account a request is for.

ghost use Rattle.std.specs.Prelude.{◌≡◌, ◌==◌, if◌then◌else◌, find, option_copied, Some, None};
ghost use Rattle.dcc_act.specs.Subs.{is_sub};
ghost use Rattle.dcc_request.specs.Answers.{Gives};
ghost use Rattle.dcc_ccr.specs.Subscribers.{SubscriptionView, subscription_of, chosen, sub_of, sub_of_chosen, subscriber_of};

use dcc_act::Sub;
use dcc_avp::{Avp, codes};
use dcc_request::{
    Cause, Parts, Refused, Stop, number, number_within, read_each, read_message_list, required,
};
use std::alloc::Global;
use std::marker::Model;

/// END_USER_E164: an international telephone number (Subscription-Id-Type, RFC 8506, section 8.47).
pub const E164: u32 = 0;

/// A Subscription-Id: the number of its type, and the AVPs of its type and its data.
#[derive(Debug, Drop)]
struct Subscription<'a> {
    kind: u32,
    type_avp: Avp<'a>,
    name: Avp<'a>,
}

impl<'a> Model for Subscription<'a> {
    ghost use Rattle.dcc_ccr.specs.Subscribers.{SubscriptionView};

    ghost Value = { SubscriptionView };

    ghost view = { λ s. record { kind = s.kind; type = s.type_avp; name = s.name } };
}

/// A Subscription-Id; `InvalidAvpLength` with its type if that hasn't four octets.
#[tactic(auto, unfolding(crate::specs::Subscribers::subscription_of))]
fn subscription_of<'a>(alloc: Global, avp: &Avp<'a>) -> Result<Subscription<'a>, Stop<'a>>
    ensures { Gives (λ subscription. subscription) result (subscription_of avp.now) }
{
    let avps = read_message_list(alloc, avp.value())?;
    let type_avp = required(&avps, codes::SUBSCRIPTION_ID_TYPE)?;
    let kind = number(type_avp)?;
    let name = required(&avps, codes::SUBSCRIPTION_ID_DATA)?;
    Ok(Subscription {
        kind,
        type_avp: type_avp.copy(),
        name: name.copy(),
    })
}

/// Subscription-Ids.
#[derive(Drop)]
struct Subscriptions;

impl<'a> Parts<'a> for Subscriptions {
    ghost use Rattle.dcc_avp.specs.Spelling.{has_code};
    ghost use Rattle.dcc_avp.specs.declared.codes.TheConstants.{SUBSCRIPTION_ID as SUBSCRIPTION};
    ghost use Rattle.dcc_ccr.specs.Subscribers.{subscription_of};

    type Part = Subscription<'a>;

    ghost holds = { λ _. has_code SUBSCRIPTION };

    ghost part_of = { subscription_of };

    fn holds(&self, avp: &Avp<'a>) -> bool {
        avp.has_code(codes::SUBSCRIPTION_ID)
    }

    fn read(&self, alloc: Global, avp: &Avp<'a>) -> Result<Subscription<'a>, Stop<'a>> {
        subscription_of(alloc, avp)
    }
}

/// The first of type E164.
fn first_e164<'m, 'a>(all: &'m [Subscription<'a>]) -> Option<&'m Subscription<'a>>
    ensures { option_copied result ≡ find (λ s. s.kind == E164) all.now }
{
    all.iter().find(|subscription| subscription.kind == E164)
}

/// The first of type E164, or else the first.
fn chosen<'m, 'a>(all: &'m [Subscription<'a>]) -> Option<&'m Subscription<'a>>
    ensures { option_copied result ≡ chosen all.now }
{
    first_e164(all).or(all.first())
}

/// The subscriber of a type and data, if they are within the limits.
fn sub_with(kind: u32, name: &[u8]) -> Option<Sub>
    ensures { result ≡ (if is_sub kind name.now then Some (record { kind = kind; name = name.now }) else None) }
{
    if kind > 4 {
        return None;
    }
    Sub::new(kind as u8, name)
}

/// The subscriber of the chosen Subscription-Id; `InvalidAvpValue` with its type if that is over 4, or else with its data.
#[tactic(auto, unfolding(crate::specs::Subscribers::sub_of))]
fn sub_of<'a>(subscription: &Subscription<'a>) -> Result<Sub, Refused<'a>>
    ensures { result ≡ sub_of subscription.now }
{
    let kind = number_within(&subscription.type_avp, 0, 4)?;
    match sub_with(kind, subscription.name.value()) {
        Some(sub) => Ok(sub),
        None => Err(Refused::one(Cause::InvalidAvpValue, subscription.name.copy())),
    }
}

/// The subscriber of the chosen Subscription-Id, if there is any.
fn sub_of_chosen<'a>(chosen: Option<&Subscription<'a>>) -> Result<Option<Sub>, Refused<'a>>
    ensures { result ≡ sub_of_chosen (option_copied chosen.entry) }
{
    match chosen {
        Some(subscription) => Ok(Some(sub_of(subscription)?)),
        None => Ok(None),
    }
}

/// The subscriber of a message, if it names a subscriber.
#[tactic(auto, unfolding(crate::specs::Subscribers::subscriber_of))]
pub(crate) fn subscriber_of<'a>(alloc: Global, avps: &[Avp<'a>]) -> Result<Option<Sub>, Stop<'a>>
    ensures { Gives (λ sub. sub) result (subscriber_of avps.now) }
{
    let all = read_each(alloc, &Subscriptions, avps)?;
    Ok(sub_of_chosen(chosen(&all))?)
}
