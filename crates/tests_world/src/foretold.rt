//! What an event or a transaction would come to.

ghost use Rattle.spec_run.specs.Conditions.{IsEvent};
ghost use Rattle.bm_world.specs.Playing.{setup_in};

use crate::worlds::{SHOWN, left};
use bm_hash::{Hash32, Sha};
use bm_world::World;
use spec_bitcoin::{Refusal, Tx};
use spec_data::Seq;
use spec_run::Event;
use std::alloc::Global;

// Whether the event would be done or accepted; nothing after a halt.
fn would_pass<H: Hash32 + Drop>(world: &mut World<H>, event: &Event) -> Option<bool>
    requires { IsEvent (setup_in H.digest_of world.old) event.now }
{
    if world.trace().len() >= 16_000 {
        return None;
    }
    world.test(event).ok()
}

// The same of taking a branch of an output.
fn would_take(world: &mut World<Sha>, output: u32, branch: u32) -> Option<bool> {
    would_pass(world, &Event::Fire { output, branch })
}

// Whether the first branch of output 3 would be taken, and that of output 2, which is spent, not.
fn takes_the_first(world: &mut World<Sha>) -> bool {
    would_take(world, 3, 0) == Some(true) && would_take(world, 2, 0) == Some(false)
}

// Whether a transaction of nothing would be refused for that.
fn refuses_nothing(alloc: Global, world: &mut World<Sha>) -> bool {
    let nothing = Tx {
        version: 2,
        inputs: Seq::new(alloc),
        outputs: Seq::new(alloc),
        lock: 0,
    };
    matches!(world.judge(&nothing), Ok(Some(Refusal::NoInput)))
}

fn is_foretold(alloc: Global) -> bool {
    match left(alloc, SHOWN) {
        Some(world) => {
            let mut world = world;
            takes_the_first(&mut world)
                && refuses_nothing(alloc, &mut world)
                && world.trace().len() == 10
        }
        None => false,
    }
}

#[test]
fn what_would_come_is_told(rt: HostRuntime) {
    assert!(rt; is_foretold(rt.alloc()));
}
