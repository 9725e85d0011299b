//! The laws of isolation, of runs in turn, and of the subscriber of a request that names nobody. Each function does nothing: it has its
//! law as its contract.

ghost use Rattle.std.specs.Prelude.{◌≡◌, ◌↔◌, ◌++◌, ℕ, true, List, map, Some};
ghost use Rattle.dcc_act.specs.declared.sub.Sub.{Sub};
ghost use Rattle.dcc_model.specs.Outcomes.{acts, was_opened_from};
ghost use Rattle.dcc_hosts.specs.Hosts.{AreAlike};
ghost use Rattle.dcc_engine.specs.Engines.{EngineView, held_of};
ghost use Rattle.dcc_engine.specs.Asks.{Turn};
ghost use Rattle.dcc_engine.specs.Isolation.{IsRun, Follows, AsksAreAlike, before_of, own, own_asks, answers, peers};
ghost use Rattle.dcc_engine.specs.Openers.{openers, the_one};

use dcc_act::same_subscribers_are_equal;
use dcc_hosts::hosts_change_nothing;
use dcc_model::{
    acts_come_to_their_own, later_acts_change_no_outcome, leaving_out_changes_nothing,
    one_more_act_opens,
};

/// Two runs that agree on a subscriber's own events, on which of these were refused, and on the acts held for it before, agree on its
/// answers, octet for octet, and on its own entries. The condition: both servers answer under one identity and one plan's terms. All
/// other parts may differ: shards, tariffs by which no own event was priced, other subscribers, peers, and the order between
/// subscribers.
pub fn isolation()
    ensures answers { (sub : Sub) (a b : EngineView) (xs ys : List Turn) → IsRun a xs → IsRun b ys
        → a.setting.identity ≡ b.setting.identity → a.setting.plan.terms ≡ b.setting.plan.terms
        → held_of a sub ≡ held_of b sub → own_asks a xs sub ≡ own_asks b ys sub → answers a xs sub ≡ answers b ys sub }
    ensures own { (sub : Sub) (a b : EngineView) (xs ys : List Turn)
        → held_of a sub ≡ held_of b sub → own_asks a xs sub ≡ own_asks b ys sub → own a xs sub ≡ own b ys sub }
    // The hosts of peers, which initial acts keep, make no difference.
    ensures alike { (sub : Sub) (a b : EngineView) (xs ys : List Turn) → IsRun a xs → IsRun b ys
        → a.setting.identity ≡ b.setting.identity → a.setting.plan.terms ≡ b.setting.plan.terms
        → AreAlike (held_of a sub) (held_of b sub) → AsksAreAlike (own_asks a xs sub) (own_asks b ys sub) → answers a xs sub ≡ answers b ys sub }
    ensures alike_own { (sub : Sub) (a b : EngineView) (xs ys : List Turn)
        → AreAlike (held_of a sub) (held_of b sub) → AsksAreAlike (own_asks a xs sub) (own_asks b ys sub) → AreAlike (own a xs sub) (own b ys sub) }
    // The subscriber's own entries are the acts held before, and then the acts that its events asked for.
    ensures asks { (sub : Sub) (a : EngineView) (xs : List Turn)
        → own a xs sub ≡ held_of a sub ++ map (λ ask. ask.act) (own_asks a xs sub) }
{
    acts_come_to_their_own();
    later_acts_change_no_outcome();
    hosts_change_nothing();
}

/// If a run begins as another left off, both in turn are one run of both lists: with the same answers, the same acts held afterwards and
/// the same peers. Each subscriber's asks and answers are those of the first run, and then those of the second. So the law of isolation
/// serves for a history of runs.
pub fn runs_in_turn()
    ensures run { (a b : EngineView) (xs ys : List Turn) → IsRun a xs → IsRun b ys → Follows a b xs → IsRun a (xs ++ ys) }
    ensures acts { (a b : EngineView) (xs ys : List Turn) → Follows a b xs
        → (sub : Sub) → acts b.setting.plan.terms (own b ys sub) ≡ acts a.setting.plan.terms (own a (xs ++ ys) sub) }
    ensures peers { (a b : EngineView) (xs ys : List Turn) → Follows a b xs → (id : ℕ) → peers b ys id ≡ peers a (xs ++ ys) id }
    ensures asks { (a b : EngineView) (xs ys : List Turn) → Follows a b xs
        → (sub : Sub) → own_asks a (xs ++ ys) sub ≡ own_asks a xs sub ++ own_asks b ys sub }
    ensures answers { (a b : EngineView) (xs ys : List Turn) → Follows a b xs
        → (sub : Sub) → answers a (xs ++ ys) sub ≡ answers a xs sub ++ answers b ys sub }
    ensures own { (a b : EngineView) (xs ys : List Turn) → Follows a b xs
        → (sub : Sub) → own a (xs ++ ys) sub ≡ own a xs sub ++ map (λ ask. ask.act) (own_asks b ys sub) }
{
    leaving_out_changes_nothing();
    one_more_act_opens();
    same_subscribers_are_equal();
    acts_come_to_their_own();
    later_acts_change_no_outcome();
}

/// A subscriber is found for a session and a host exactly if its own entries opened the session from the host, and those of no other
/// subscriber did.
pub fn openers_are_found()
    ensures { (engine : EngineView) (past : List Turn) (host sid : List ℕ) (sub : Sub)
        → (the_one (openers engine.setting.plan.terms (before_of engine past) host sid) ≡ Some sub)
        ↔ ((was_opened_from engine.setting.plan.terms ((before_of engine past).own sub) host sid ≡ true)
        × ((other : Sub) → was_opened_from engine.setting.plan.terms ((before_of engine past).own other) host sid ≡ true → other ≡ sub)) }
{
    one_more_act_opens();
    same_subscribers_are_equal();
}
