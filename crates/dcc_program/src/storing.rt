//! `dcc topup`, `dcc ledger` and `dcc balance`, over the reader of the plan, the stores of a folder and a writer.

ghost use Rattle.std.specs.Prelude.{◌≡◌, ◌≢◌, ◌⊎◌, ℕ, List, Option, IfErr, OnOk};
ghost use Rattle.std.specs.Io.KnownBytes.{Keeps};
ghost use Rattle.dcc_program.specs.Plans.{IsPlanOf};
ghost use Rattle.dcc_program.specs.Stores.{IsTopUp, IsTopUpBegun, IsPage, IsPageBegun, IsStoreFailure};
ghost use Rattle.dcc_program.specs.declared.failure.Failure.TheVariants.{Io};

use crate::failure::Failure;
use crate::plan_file::plan_from;
use dcc_act::Sub;
use dcc_operator::{Page, TopUpAsk, page_in, top_up_in};
use dcc_replay::identity_of;
use dcc_startup::Stores;
use dcc_tariff::Plan;
use std::alloc::Global;
use std::hash::RandomState;
use std::io::{Read, Write};

/// Makes a top-up under the plan that the file gives, in the store of its subscriber's shard, and writes its answer.
///
/// The plan is judged first, then the store, and both before anything is written. If the writer fails, a beginning is written, and
/// the top-up stands.
pub fn top_up<P: Read, S: Stores, W: Write>(
    alloc: Global,
    file: &mut P,
    stores: &S,
    folder: &str,
    ask: TopUpAsk,
    output: &mut W,
    hasher: RandomState,
) -> Result<(), Failure>
    ensures whole { OnOk result (IsTopUp (S.opens stores.now folder.now) S.Records.may_leave (P.remaining file.old) ask
        (W.contents output.old) (W.contents output.new)) }
    ensures failure { IfErr result (IsStoreFailure (P.remaining file.old)) }
    ensures silent { IfErr result (λ failure. failure ≢ Io → Keeps (W.contents output.old) (W.contents output.new)) }
    ensures part { IfErr result (λ failure. failure ≡ Io → Keeps (W.contents output.old) (W.contents output.new)
        ⊎ IsTopUpBegun (P.remaining file.old) ask (W.contents output.old) (W.contents output.new)) }
{
    let plan = plan_from(alloc, file)?;
    let done = top_up_under(alloc, stores, folder, &plan, ask, output, hasher);
    // By a call: a plan that is let go in place is proved part by part.
    drop(plan);
    done
}

/// Makes a top-up under a plan, whichever file gave the plan.
fn top_up_under<S: Stores, W: Write>(
    alloc: Global,
    stores: &S,
    folder: &str,
    plan: &Plan,
    ask: TopUpAsk,
    output: &mut W,
    hasher: RandomState,
) -> Result<(), Failure>
    ensures whole { (file : Option (List ℕ)) → IsPlanOf file plan.now → OnOk result (IsTopUp (S.opens stores.now folder.now) S.Records.may_leave file ask
        (W.contents output.old) (W.contents output.new)) }
    ensures failure { (file : Option (List ℕ)) → IsPlanOf file plan.now → IfErr result (IsStoreFailure file) }
    ensures silent { IfErr result (λ failure. failure ≢ Io → Keeps (W.contents output.old) (W.contents output.new)) }
    ensures part { (file : Option (List ℕ)) → IsPlanOf file plan.now → IfErr result (λ failure. failure ≡ Io → Keeps (W.contents output.old) (W.contents output.new)
        ⊎ IsTopUpBegun file ask (W.contents output.old) (W.contents output.new)) }
{
    let identity = identity_of(alloc, plan)?;
    match top_up_in(alloc, stores, folder, plan, &identity, ask, output, hasher) {
        Ok(shard) => {
            // By a call: a shard that is let go in place is proved part by part.
            drop(shard);
            Ok(())
        }
        Err((fault, records)) => {
            drop(records);
            Err(Failure::from(fault))
        }
    }
}

/// Writes a page of a subscriber under the plan that the file gives, from the store of its shard. If there is no store, writes
/// that the account is unknown.
///
/// The plan is judged first, then the store, and both before anything is written. If the writer fails, a beginning is written.
pub fn page<P: Read, S: Stores, W: Write>(
    alloc: Global,
    file: &mut P,
    stores: &S,
    folder: &str,
    page: Page,
    sub: Sub,
    output: &mut W,
    hasher: RandomState,
) -> Result<(), Failure>
    ensures whole { OnOk result (IsPage page (S.opens stores.now folder.now) S.Records.may_leave (P.remaining file.old) sub
        (W.contents output.old) (W.contents output.new)) }
    ensures failure { IfErr result (IsStoreFailure (P.remaining file.old)) }
    ensures silent { IfErr result (λ failure. failure ≢ Io → Keeps (W.contents output.old) (W.contents output.new)) }
    ensures part { IfErr result (λ failure. failure ≡ Io → Keeps (W.contents output.old) (W.contents output.new)
        ⊎ IsPageBegun page (P.remaining file.old) sub (W.contents output.old) (W.contents output.new)) }
{
    let plan = plan_from(alloc, file)?;
    let done = page_under(alloc, stores, folder, &plan, page, sub, output, hasher);
    drop(plan);
    done
}

/// Writes a page of a subscriber under a plan, whichever file gave the plan.
fn page_under<S: Stores, W: Write>(
    alloc: Global,
    stores: &S,
    folder: &str,
    plan: &Plan,
    page: Page,
    sub: Sub,
    output: &mut W,
    hasher: RandomState,
) -> Result<(), Failure>
    ensures whole { (file : Option (List ℕ)) → IsPlanOf file plan.now → OnOk result (IsPage page (S.opens stores.now folder.now) S.Records.may_leave file sub
        (W.contents output.old) (W.contents output.new)) }
    ensures failure { (file : Option (List ℕ)) → IsPlanOf file plan.now → IfErr result (IsStoreFailure file) }
    ensures silent { IfErr result (λ failure. failure ≢ Io → Keeps (W.contents output.old) (W.contents output.new)) }
    ensures part { (file : Option (List ℕ)) → IsPlanOf file plan.now → IfErr result (λ failure. failure ≡ Io → Keeps (W.contents output.old) (W.contents output.new)
        ⊎ IsPageBegun page file sub (W.contents output.old) (W.contents output.new)) }
{
    let identity = identity_of(alloc, plan)?;
    match page_in(
        alloc, stores, folder, plan, &identity, page, sub, output, hasher,
    ) {
        Ok(shard) => {
            drop(shard);
            Ok(())
        }
        Err(fault) => Err(Failure::from(fault)),
    }
}
