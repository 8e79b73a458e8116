//! A run in the calculus, and what may come next.

use crate::worlds::{SHOWN, left};
use bm_calculus::{Config, Step};
use bm_hash::Sha;
use bm_offers::{Offer, offers};
use bm_translate_course::translate;
use bm_world::World;
use spec_run::Event;
use std::alloc::Global;

// Whether A's withdrawal from output 3 alone is offered.
fn is_withdrawal(found: &[Offer]) -> bool {
    match found {
        [offer] => {
            matches!(
                &offer.step,
                Step::Withdraw {
                    output: 3,
                    branch: 0
                }
            ) && matches!(
                &offer.event,
                Event::Fire {
                    output: 3,
                    branch: 0
                }
            )
        }
        _ => false,
    }
}

fn offers_withdrawal(alloc: Global, config: &Config) -> bool {
    if config.contracts().len() > 16 {
        return false;
    }
    match offers(alloc, config) {
        Ok(found) => is_withdrawal(&found),
        Err(_) => false,
    }
}

// Whether each record has its steps, and the last configuration offers the withdrawal.
fn goes_on(alloc: Global, world: &World<Sha>) -> bool {
    match translate(alloc, world) {
        Ok(made) => made.steps.len() == 10 && offers_withdrawal(alloc, &made.last),
        Err(_) => false,
    }
}

fn goes_on_by_text(alloc: Global) -> bool {
    match left(alloc, SHOWN) {
        Some(world) => goes_on(alloc, &world),
        None => false,
    }
}

#[test]
fn a_run_offers_its_next_step(rt: HostRuntime) {
    assert!(rt; goes_on_by_text(rt.alloc()));
}
