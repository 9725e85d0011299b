//! The rule of the queue: the taken items of a sender, and then its queued items, are the items that it put.
use crate::bell::Bell;
use crossbeam_queue::protocol::{Join, Lesson, Outcome, Protocol, Split};
use crossbeam_queue::{Pass, RuledArrayQueue};
use std::collections::LinkedList;

/// An item in the queue, with its sender's number.
#[derive(Drop)]
pub struct Tagged<T> {
    pub from: usize,
    pub item: T,
}

/// The knowledge of an end about the queue. A sender knows the items that it put. The receiver knows the items that it took, the number of
/// senders that were made, and the items that the ended senders put. No value of this type is made.
pub struct Known<T> {
    pub sends: bool,
    pub number: usize,
    pub put: LinkedList<T>,
    pub receives: bool,
    pub made: usize,
    pub taken: LinkedList<Tagged<T>>,
    pub ended: LinkedList<(usize, LinkedList<T>)>,
}

pub type Queue<T> = RuledArrayQueue<Tagged<T>, Known<T>, InOrder>;

pub type End<T> = Pass<Tagged<T>, Known<T>>;

/// The parts that the ends of a lane share.
#[derive(Drop)]
pub struct Shared<T> {
    pub queue: Queue<T>,
    pub items: Bell,
    pub room: Bell,
}

pub struct InOrder;

impl<T> Protocol<Tagged<T>, Known<T>> for InOrder {
    ghost use Rattle.std.specs.Prelude.{[]};
    ghost use Rattle.dcc_lane.specs.Rule.{Delivers, receiver};

    ghost holds = { Delivers };

    ghost first = { receiver 0 [] [] };
}

pub struct Splits;

impl<T> Split<Known<T>> for Splits {
    ghost use Rattle.std.specs.Prelude.{◌+◌, []};
    ghost use Rattle.dcc_lane.specs.Rule.{receiver, sender};

    ghost left = { λ v. receiver (v.made + 1) v.taken v.ended };

    ghost right = { λ v. sender v.made [] };
}

pub struct Joins;

impl<T> Join<Known<T>> for Joins {
    ghost use Rattle.std.specs.Prelude.{◌++◌, ◌∷◌, []};
    ghost use Rattle.dcc_lane.specs.Rule.{receiver, spent};

    ghost both = { λ v w. receiver v.made v.taken (v.ended ++ (w.number, w.put) ∷ []) };

    ghost spent = { spent };
}

pub struct Puts;

impl<T> Outcome<Tagged<T>, Known<T>> for Puts {
    ghost use Rattle.std.specs.Prelude.{◌≡◌, ◌++◌, ◌∷◌, []};
    ghost use Rattle.dcc_lane.specs.Rule.{sender};

    ghost then = { λ v x w. w ≡ sender v.number (v.put ++ x.item ∷ []) };
}

impl<T> Lesson<Tagged<T>, Known<T>> for Puts {
    ghost fact = { λ v items. Unit {0} };
}

pub struct Takes;

impl<T> Outcome<Tagged<T>, Known<T>> for Takes {
    ghost use Rattle.std.specs.Prelude.{◌≡◌, ◌<◌, ◌++◌, ◌∷◌, []};
    ghost use Rattle.dcc_lane.specs.Rule.{receiver};

    ghost then = { λ v x w. (x.from < v.made) × (w ≡ receiver v.made (v.taken ++ x ∷ []) v.ended) };
}

impl<T> Lesson<Tagged<T>, Known<T>> for Takes {
    ghost fact = { λ v items. Unit {0} };
}

pub struct Compares;

impl<T> Lesson<Tagged<T>, Known<T>> for Compares {
    ghost use Rattle.dcc_lane.specs.Rule.{AreBegun};

    ghost fact = { λ v items. AreBegun v.taken v.ended };
}
