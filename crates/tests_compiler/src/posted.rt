//! Each of many strings that were posted is found without a walk over the others.

use bm_exchange::Exchange;
use spec_data::OutOfMemory;
use std::test::Fail;

const COUNT: u32 = 200_000;

fn post_all(exchange: &mut Exchange) -> Result<(), OutOfMemory> {
    for k in 0..COUNT {
        exchange.post(&k.to_le_bytes())?;
    }
    Ok(())
}

fn are_found(exchange: &Exchange) -> bool {
    for k in 0..COUNT {
        if !exchange.posted(&k.to_le_bytes()) {
            return false;
        }
    }
    !exchange.posted(&COUNT.to_le_bytes())
}

#[test]
fn posted_strings_take_no_search(rt: HostRuntime) -> Result<(), Fail> {
    let mut exchange = Exchange::new(rt.alloc(), 0)?;
    post_all(&mut exchange)?;
    exchange.index_posts();
    assert!(rt; are_found(&exchange));
    Ok(())
}
