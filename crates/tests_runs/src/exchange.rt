//! What the parties tell each other is kept. What each call answers is proved, and not that it succeeds.

use bm_exchange::Exchange;
use spec_data::{Name, OutOfMemory};
use std::test::Fail;

fn advertise(exchange: &mut Exchange, party: Name) -> Result<(), OutOfMemory> {
    exchange.advertise(0, &[(party, 7)])?;
    exchange.advertise(1, &[])
}

fn commit(exchange: &mut Exchange, party: Name) -> Result<(), OutOfMemory> {
    exchange.commit(0, party, &[(party, [1; 32]), (party, [2; 32])])?;
    exchange.commit(1, party, &[])
}

fn post(exchange: &mut Exchange) -> Result<(), OutOfMemory> {
    exchange.post(b"one")?;
    exchange.post(b"one")
}

#[test]
fn what_is_told_is_kept(rt: HostRuntime) -> Result<(), Fail> {
    let party = Name::new(b"A").ok_or("no name")?;
    let mut exchange = Exchange::new(rt.alloc(), 2)?;
    advertise(&mut exchange, party)?;
    commit(&mut exchange, party)?;
    post(&mut exchange)?;
    assert!(rt; exchange.posts() == 2);
    Ok(())
}
