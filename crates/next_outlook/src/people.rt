//! Those who take part in a contract and are declared.

ghost use Rattle.std.specs.Prelude.{◌≡◌, filter, IfOk};
ghost use Rattle.spec_data.specs.Lists.{is_among};
ghost use Rattle.spec_next.specs.Candidates as spec;
ghost use Rattle.bm_world.specs.Playing.{setup_in};

use bm_hash::Hash32;
use bm_wellformed::Checked;
use bm_world::World;
use bm_world_board::is_name_among;
use spec_data::{Name, OutOfMemory, Seq};
use std::alloc::Global;

// Those of these people who are among the parties.
fn declared(alloc: Global, parties: &[Name], people: &[Name]) -> Result<Seq<Name>, OutOfMemory>
    ensures { IfOk result (λ list. list ≡ filter (λ party. is_among party parties.now) people.now) }
{
    let mut list = Seq::new(alloc);
    for party in people {
        if is_name_among(parties, party) {
            list.push(*party)?;
        }
    }
    Ok(list)
}

/// Those who take part in the contract and are declared.
pub(crate) fn people_of<H: Hash32 + Drop>(
    alloc: Global,
    world: &World<H>,
    contract: &Checked,
) -> Result<Seq<Name>, OutOfMemory>
    ensures { IfOk result (λ list. list ≡ spec.people (setup_in H.digest_of world.now) contract.now) }
{
    declared(alloc, world.header().parties.as_slice(), contract.parties())
}
