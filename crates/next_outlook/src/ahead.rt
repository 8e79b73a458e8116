//! Whether a refused event is still ahead of its contract.

ghost use Rattle.std.specs.Prelude.{◌≡◌, option_map};
ghost use Rattle.spec_run.specs.Setup.{held_among, held_secret};
ghost use Rattle.spec_run.specs.World.{is_advertised};
ghost use Rattle.spec_next.specs.Prospects as spec;
ghost use Rattle.bm_world.specs.Playing.{setup_in};

use bm_hash::Hash32;
use bm_world::World;
use spec_data::Name;
use spec_next::Ruling;
use spec_run::{Event, HeldSecret};

// The bytes of a party's secret among these.
fn held<'a>(secrets: &'a [HeldSecret], party: &Name, name: &Name) -> Option<&'a [u8]>
    ensures { option_map (λ b. b.now) result ≡ held_among party.now name.now secrets.now }
{
    for held in secrets {
        if held.party == *party && held.name == *name {
            return Some(held.bytes.as_slice());
        }
    }
    None
}

// Whether the party's secret is posted; one that the header lacks isn't.
fn is_posted<H: Hash32 + Drop>(world: &World<H>, party: &Name, name: &Name) -> bool
    ensures { result ≡ spec.is_string_posted (held_secret (setup_in H.digest_of world.now) party.now name.now) world.now.world }
{
    match held(world.header().secrets.as_slice(), party, name) {
        Some(bytes) => world.exchange().posted(bytes),
        None => false,
    }
}

// Whether the contract is advertised.
fn has_advert<H: Hash32 + Drop>(world: &World<H>, contract: u32) -> bool
    ensures { result ≡ is_advertised world.now.world contract }
{
    world.exchange().bindings(contract).is_some()
}

// Whether an event is still ahead of its contract.
fn is_ahead<H: Hash32 + Drop>(world: &World<H>, event: &Event) -> bool
    ensures { result ≡ spec.is_ahead (setup_in H.digest_of world.now) world.now.world event.now }
{
    match event {
        Event::Advertise { contract, .. } => !has_advert(world, *contract),
        Event::Commit {
            contract,
            party,
            ..
        } => !world.exchange().committed(*contract, party),
        Event::Endorse { contract, .. } => !world.board().has_begun(*contract),
        Event::Init { contract, .. } => !world.board().has_begun(*contract),
        Event::FireInit { contract } => !world.board().has_begun(*contract),
        Event::Reveal { party, secret, .. } => !is_posted(world, party, secret),
        Event::Authorise { .. } => true,
        Event::Fire { .. } => true,
        _ => false,
    }
}

/// Whether an event with this ruling is shown.
pub(crate) fn is_shown<H: Hash32 + Drop>(world: &World<H>, event: &Event, ruling: &Ruling) -> bool
    ensures { result ≡ spec.is_shown (setup_in H.digest_of world.now) world.now.world event.now ruling.now }
{
    match ruling {
        Ruling::Can => true,
        Ruling::Cannot(_) => is_ahead(world, event),
        Ruling::Halts => true,
    }
}
