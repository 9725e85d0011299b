//! The outcomes of the services of a request.

ghost use Rattle.std.specs.Prelude.{◌≡◌, ◌≤◌, ◌↔◌, List, length, sum_by, IsSome, IfSome, IfOk};
ghost use Rattle.dcc_act.specs.Answers.{AreAnswers};

use crate::limits::{MAX_IDS, MAX_SERVICES};
use crate::outcome::ServiceAnswer;
use std::alloc::{AllocError, Global};
use std::marker::Model;

/// The outcomes of the services of a request, in the order of the request: at most 32, with at most 5,460 identifiers together.
#[derive(Debug, Drop)]
pub struct ServiceAnswers {
    items: Vec<ServiceAnswer>,
}

impl Model for ServiceAnswers {
    ghost use Rattle.std.specs.Prelude.{List};
    ghost use Rattle.dcc_act.specs.declared.outcome.ServiceAnswer.{ServiceAnswer};
    ghost use Rattle.dcc_act.specs.Answers.{AreAnswers};

    ghost Value = { List ServiceAnswer };

    ghost view = { λ s. s.items.items };

    ghost invariant = { λ s. AreAnswers s.items.items };
}

impl ServiceAnswers {
    /// These answers. None if they are past a limit.
    pub fn from_vec(items: Vec<ServiceAnswer>) -> Option<ServiceAnswers>
        ensures limits { IsSome result ↔ AreAnswers items.items }
        ensures value { IfSome result (λ answers. answers ≡ items.items) }
    {
        if items.len() > MAX_SERVICES || count_ids(&items) > MAX_IDS {
            return None;
        }
        Some(ServiceAnswers { items })
    }

    /// The answers, moved out.
    pub fn into_vec(self) -> Vec<ServiceAnswer>
        ensures value { result.items ≡ self }
        ensures limits { AreAnswers self }
    {
        self.items
    }

    /// The answers.
    pub fn as_slice(&self) -> &[ServiceAnswer]
        ensures value { result.now ≡ self.now }
        ensures limits { AreAnswers self.now }
    {
        &self.items
    }

    /// Equal answers. The only error is want of memory.
    pub fn copy(&self) -> Result<ServiceAnswers, AllocError>
        ensures { IfOk result (λ copy. copy ≡ self.now) }
    {
        Ok(ServiceAnswers {
            items: copied(*self.items.allocator(), &self.items)?,
        })
    }
}

/// How many identifiers the answers have together.
fn count_ids(items: &[ServiceAnswer]) -> usize
    requires { length items.now ≤ MAX_SERVICES }
    ensures { result ≡ sum_by (λ answer. length answer.ids) items.now }
{
    let mut count = 0;
    for answer in items {
        count += answer.ids.as_slice().len();
    }
    count
}

/// A copy of each answer.
fn copied(alloc: Global, items: &[ServiceAnswer]) -> Result<Vec<ServiceAnswer>, AllocError>
    ensures { IfOk result (λ copies. copies.items ≡ items.now) }
{
    let mut copies = Vec::with_capacity(alloc, items.len())?;
    for answer in items {
        copies.push(answer.copy()?)?;
    }
    Ok(copies)
}
