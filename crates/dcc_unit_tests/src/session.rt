//! A grant that is made alone, where the program makes all of a request.

use crate::acts::OCTETS;
use dcc_act::{Grant, ServiceKey};
use dcc_escrow::Pool;
use dcc_session::{Held, Idle};
use dcc_tariff::UnitKind;
use std::alloc::Global;
use std::test::Fail;

/// So many octets of group 10.
fn octets(units: u64) -> Result<Held, Fail> {
    Ok(Held {
        key: ServiceKey {
            group: Some(10),
            id: None,
        },
        grant: Grant::new(UnitKind::Octets, units, OCTETS).ok_or("a grant")?,
    })
}

/// What a session of one grant reserves, where it is made.
fn reserved(alloc: Global, pool: &mut Pool, held: Held) -> Option<u64> {
    let mut session = Idle::new(alloc, pool).open(1200);
    let granted = session.grant(pool, held).is_ok();
    let reserved = pool.reserved();
    session.end(pool);
    granted.then_some(reserved)
}

#[test]
fn grant_is_made(rt: HostRuntime) -> Result<(), Fail> {
    let mut pool = Pool::new(7);
    pool.credit(1000)?;
    let held = octets(100_000)?;
    assert_eq!(rt; reserved(rt.alloc(), &mut pool, held), Some(500));
    Ok(())
}
