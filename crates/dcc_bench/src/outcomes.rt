//! What an account says to the sample debit, of which its answer is written.

use dcc_act::{
    Answer, Form, Grant, Outcome, RequestKey, RequestType, ResultCode, ServiceAnswer,
    ServiceAnswers, ServiceIds, SessionId,
};
use dcc_tariff::{Tariff, UnitKind};
use std::alloc::Global;

/// Success, by which 1,001 octets are granted; none without memory.
pub(crate) fn debited(alloc: Global) -> Option<Outcome> {
    let sid = session(alloc, b"gw1.example;1;1")?;
    Some(Outcome::Answered(Answer {
        request: RequestType::Event,
        key: RequestKey { sid, number: 0 },
        result: ResultCode::Success,
        services: services(alloc)?,
        cost: None,
        balance: None,
    }))
}

/// A session's name. A name that is made of a literal in its place takes the prover minutes.
fn session(alloc: Global, octets: &[u8]) -> Option<SessionId> {
    SessionId::from_slice(alloc, octets).ok()?
}

/// The service of a debit.
fn services(alloc: Global) -> Option<ServiceAnswers> {
    let service = ServiceAnswer {
        group: None,
        ids: ServiceIds::new(alloc),
        form: Form::Single,
        result: ResultCode::Success,
        grant: Some(GRANT),
        is_final: false,
    };
    ServiceAnswers::from_vec(vec![in alloc; service].ok()?)
}

/// The grant of a service.
const GRANT: Grant = Grant {
    unit: UnitKind::Octets,
    units: 1001,
    tariff: Tariff {
        price: 5,
        block: 1000,
    },
};
