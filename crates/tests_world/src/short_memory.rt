//! Where memory is refused to an event, it leaves the world as it was, and every later call says so. With ample memory all events
//! here go on; the kit's `--fail-alloc` refuses one allocation.

ghost use Rattle.std.specs.Prelude.{◌≡◌, true, IfOk};
ghost use Rattle.spec_run.specs.Conditions.{IsEvent};
ghost use Rattle.spec_run.specs.Setup.{Setup, is_declared};
ghost use Rattle.bm_world.specs.Playing.{setup_in};

use crate::worlds::{OPENING, left};
use bm_hash::{Hash32, Sha};
use bm_world::{Halt, World};
use bm_world_board::is_name_among;
use spec_bitcoin::Tx;
use spec_data::{Name, OutOfMemory, Seq};
use spec_run::Event;
use std::alloc::Global;

// The parties, their deposits, and A's secret.
#[derive(Clone, Copy)]
struct Names {
    a: Name,
    b: Name,
    x: Name,
    y: Name,
    secret: Name,
}

fn all_names() -> Option<Names> {
    Some(Names {
        a: Name::new(b"A")?,
        b: Name::new(b"B")?,
        x: Name::new(b"x")?,
        y: Name::new(b"y")?,
        secret: Name::new(b"a")?,
    })
}

// How much there is of what an event may change.
#[derive(Clone, Copy, PartialEq, Eq)]
struct Counts {
    records: usize,
    pairs: usize,
    posts: usize,
    births: u32,
    tip: u32,
    advertised: bool,
    committed: bool,
}

fn counted<H: Hash32 + Drop>(world: &World<H>, party: &Name) -> Counts {
    Counts {
        records: world.trace().len(),
        pairs: world.book().count(),
        posts: world.exchange().posts(),
        births: world.ledger().births(),
        tip: world.ledger().tip(),
        advertised: world.exchange().bindings(0).is_some(),
        committed: world.exchange().committed(0, party),
    }
}

// The contract is advertised, and the parties commit.
fn told(alloc: Global, names: &Names, row: u32) -> Result<Event, OutOfMemory>
    ensures { (s : Setup) → is_declared s names.now.a ≡ true → is_declared s names.now.b ≡ true → IfOk result (IsEvent s) }
{
    let contract = 0;
    match row {
        0 => Ok(Event::Advertise {
            contract,
            bindings: Seq::of(Vec::from_slice(alloc, &[(names.x, 0), (names.y, 1)])?),
        }),
        1 => Ok(Event::Commit {
            contract,
            party: names.a,
            digests: Seq::new(alloc),
        }),
        _ => Ok(Event::Commit {
            contract,
            party: names.b,
            digests: Seq::new(alloc),
        }),
    }
}

// The parties sign, the contract begins, A reveals its secret, and takes the deposit.
fn done(names: &Names, row: u32) -> Event
    ensures { (s : Setup) → is_declared s names.now.a ≡ true → is_declared s names.now.b ≡ true → IsEvent s result }
{
    let contract = 0;
    match row {
        3 => Event::Endorse {
            contract,
            party: names.a,
        },
        4 => Event::Endorse {
            contract,
            party: names.b,
        },
        5 => Event::Init {
            contract,
            party: names.a,
        },
        6 => Event::Init {
            contract,
            party: names.b,
        },
        7 => Event::FireInit { contract },
        8 => Event::Reveal {
            contract,
            party: names.a,
            secret: names.secret,
        },
        9 => Event::Fire {
            output: 2,
            branch: 0,
        },
        _ => Event::Mine { blocks: 1000 },
    }
}

// The event of this row.
fn event_at(alloc: Global, names: &Names, row: u32) -> Result<Event, OutOfMemory>
    ensures { (s : Setup) → is_declared s names.now.a ≡ true → is_declared s names.now.b ≡ true → IfOk result (IsEvent s) }
{
    if row < 3 {
        told(alloc, names, row)
    } else {
        Ok(done(names, row))
    }
}

// Whether memory was short, for an event and for a test of it.
fn is_short<H: Hash32 + Drop>(world: &mut World<H>) -> bool {
    let event = Event::FireInit { contract: 0 };
    if world.trace().len() >= 16_000 {
        return false;
    }
    matches!(world.test(&event), Err(Halt::Memory))
}

// The same for a transaction.
fn is_short_for<H: Hash32 + Drop>(alloc: Global, world: &mut World<H>) -> bool {
    let nothing = Tx {
        version: 2,
        inputs: Seq::new(alloc),
        outputs: Seq::new(alloc),
        lock: 0,
    };
    matches!(world.judge(&nothing), Err(Halt::Memory))
}

// Whether an event goes on and is recorded, or memory is short and nothing has changed.
fn is_whole<H: Hash32 + Drop>(
    alloc: Global,
    world: &mut World<H>,
    event: &Event,
    party: &Name,
) -> bool
    requires { IsEvent (setup_in H.digest_of world.old) event.now }
{
    if world.trace().len() >= 16_000 {
        return false;
    }
    let before = counted(world, party);
    match world.event(event) {
        Ok(_) => world.trace().len() > before.records,
        Err(Halt::Memory) => {
            counted(world, party) == before && is_short(world) && is_short_for(alloc, world)
        }
        Err(_) => false,
    }
}

// The same of the event of this row. Where memory is refused to the row itself there is none.
fn is_whole_at<H: Hash32 + Drop>(
    alloc: Global,
    world: &mut World<H>,
    names: &Names,
    row: u32,
) -> bool {
    let declared = world.header().parties.as_slice();
    if !is_name_among(declared, &names.a) || !is_name_among(declared, &names.b) {
        return false;
    }
    match event_at(alloc, names, row) {
        Ok(event) => is_whole(alloc, world, &event, &names.a),
        Err(_) => true,
    }
}

fn are_whole<H: Hash32 + Drop>(alloc: Global, world: &mut World<H>, names: &Names) -> bool {
    for row in 0..11 {
        if !is_whole_at(alloc, world, names, row) {
            return false;
        }
    }
    true
}

// Whether each event of the run is whole; so it is where memory is refused before any.
fn is_played(alloc: Global, names: &Names) -> bool {
    match left(alloc, OPENING) {
        Some(world) => {
            let mut world: World<Sha> = world;
            are_whole(alloc, &mut world, names)
        }
        None => true,
    }
}

#[test]
fn an_event_without_memory_leaves_the_world_alone(rt: HostRuntime) {
    let names = all_names();
    assert!(rt; names.is_some());
    if let Some(names) = names {
        assert!(rt; is_played(rt.alloc(), &names));
    }
}
