//! Whether a party has signed all that it endorses.

ghost use Rattle.std.specs.Prelude.{◌≡◌, Some, option_map, IfOk};
ghost use Rattle.spec_run.specs.Setup.{contract_at};
ghost use Rattle.spec_run.specs.Compiled.{compiled_instance};
ghost use Rattle.spec_next.specs.Candidates as spec;
ghost use Rattle.bm_compile.specs.Numbered.{numbered};
ghost use Rattle.bm_world.specs.Playing.{setup_in};

use bm_book::Book;
use bm_compile::Compiled;
use bm_hash::Hash32;
use bm_honest::{Pair, endorsing_pairs};
use bm_wellformed::Checked;
use bm_world::World;
use spec_data::{Name, OutOfMemory};
use std::alloc::Global;

/// Whether the book has all of these pairs.
pub(crate) fn are_signed(book: &Book, pairs: &[Pair]) -> bool
    ensures { result ≡ spec.are_signed book.now pairs.now }
{
    pairs.iter().all(|p| book.has(&p.0, &p.1))
}

// Whether the book has all that the party signs to endorse this contract, which is compiled so.
fn are_its_own<H: Hash32 + Drop>(
    alloc: Global,
    world: &World<H>,
    contract: u32,
    checked: &Checked,
    compiled: &Compiled,
    party: &Name,
) -> Result<bool, OutOfMemory>
    requires checked { Some checked.now ≡ contract_at (setup_in H.digest_of world.now) contract }
    requires compiled { Some compiled.now ≡ option_map (numbered (setup_in H.digest_of world.now).hash)
        (compiled_instance (setup_in H.digest_of world.now) world.now.world contract) }
    ensures { IfOk result (λ all. all ≡ spec.has_endorsed (setup_in H.digest_of world.now) world.now.world
        (compiled_instance (setup_in H.digest_of world.now) world.now.world contract) party.now) }
{
    let hasher = world.trail().hasher();
    let pairs = endorsing_pairs(alloc, hasher, checked, contract, compiled, party)?;
    Ok(are_signed(world.book(), pairs.as_slice()))
}

// The same of a contract by its number.
fn has_endorsed_with<H: Hash32 + Drop>(
    alloc: Global,
    world: &World<H>,
    contract: u32,
    compiled: &Compiled,
    party: &Name,
) -> Result<bool, OutOfMemory>
    requires { Some compiled.now ≡ option_map (numbered (setup_in H.digest_of world.now).hash)
        (compiled_instance (setup_in H.digest_of world.now) world.now.world contract) }
    ensures { IfOk result (λ all. all ≡ spec.has_endorsed (setup_in H.digest_of world.now) world.now.world
        (compiled_instance (setup_in H.digest_of world.now) world.now.world contract) party.now) }
{
    match world.board().contract(contract) {
        Some(checked) => are_its_own(alloc, world, contract, checked, compiled, party),
        None => Ok(false),
    }
}

/// Whether the party has signed all that it endorses, where the contract is compiled.
pub(crate) fn has_endorsed<H: Hash32 + Drop>(
    alloc: Global,
    world: &World<H>,
    contract: u32,
    party: &Name,
) -> Result<bool, OutOfMemory>
    ensures { IfOk result (λ all. all ≡ spec.has_endorsed (setup_in H.digest_of world.now) world.now.world
        (compiled_instance (setup_in H.digest_of world.now) world.now.world contract) party.now) }
{
    match world.compiled(contract) {
        Some(compiled) => has_endorsed_with(alloc, world, contract, compiled, party),
        None => Ok(false),
    }
}
