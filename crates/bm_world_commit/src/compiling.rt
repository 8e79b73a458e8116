//! The contract that a commitment completes, compiled.

ghost use Rattle.std.specs.Prelude.{◌≡◌, ◌++◌, ◌∷◌, [], ℕ, List, true, None, map, is_some, slice_get, IfOk, OnOk};
ghost use Rattle.std.specs.List.{list_all, list_any};
ghost use Rattle.spec_data.specs.Lists.{look_up};
ghost use Rattle.spec_terms.specs.Precondition.{deposits};
ghost use Rattle.bm_hash.specs.Messages.{evidence_of};
ghost use Rattle.bm_hash.specs.Trails.{Hashes};
ghost use Rattle.spec_compiler.specs.Hashed.{compiled_strings};
ghost use Rattle.spec_run.specs.World.{is_promise_of, digests_at};
ghost use Rattle.spec_run.specs.Compiled.{outpoint_of, compiled_instance};
ghost use Rattle.spec_run.specs.Committing.{strings_compiled};
ghost use Rattle.bm_compile.specs.Numbered.{instance_with, numbered};
ghost use Rattle.bm_world_board.specs.Prepares.{setup_of, world_of};
ghost use Rattle.bm_world_commit.specs.Committed.{promise_in, promised, placed_at, are_made, IsBoundAt};
ghost use Rattle.bm_world_commit.specs.Entries.{entry_of};

use bm_compile::{Compiled, compile};
use bm_exchange::Exchange;
use bm_hash::{Hash32, Trail, TrailError};
use bm_wellformed::Checked;
use bm_world_board::{Board, Promising};
use bm_world_coins::Coins;
use spec_bitcoin::OutPoint;
use spec_data::{Name, OutOfMemory, Seq};
use std::alloc::Global;

// Where the output of this number lies.
fn outpoint_at(coins: &Coins, number: u32) -> OutPoint
    requires { is_some (slice_get coins.now.outputs number) ≡ true }
    ensures { result ≡ outpoint_of (slice_get coins.now.outputs number) }
{
    let Some(output) = coins.output(number) else {
        unreachable!()
    };
    output.outpoint()
}

// Where the deposits lie that these names are bound to.
fn bound_outpoints(
    alloc: Global,
    coins: &Coins,
    bindings: &[(Name, u32)],
) -> Result<Seq<(Name, OutPoint)>, OutOfMemory>
    requires { are_made coins.now.outputs bindings.now ≡ true }
    ensures { IfOk result (λ bound. bound ≡ map (placed_at coins.now.outputs) bindings.now) }
{
    let mut bound = Seq::new(alloc);
    for binding in bindings {
        bound.push((binding.0, outpoint_at(coins, binding.1)))?;
    }
    Ok(bound)
}

// Whether the party has committed, or does so now.
#[tactic(auto, using(crate::proofs::Completed::promised_last))]
fn has_promised(exchange: &Exchange, promising: &Promising, party: &Name) -> bool
    ensures { result
        ≡ list_any (is_promise_of promising.now.contract party.now) (exchange.now.promises ++ promise_in promising.now ∷ []) }
{
    exchange.committed(promising.contract, party) || promising.party == *party
}

// Whether all these parties have committed, or do so now.
fn have_promised(exchange: &Exchange, promising: &Promising, parties: &[Name]) -> bool
    ensures { let promises = exchange.now.promises ++ promise_in promising.now ∷ [] in
        result ≡ list_all (λ party. list_any (is_promise_of promising.now.contract party) promises) parties.now }
{
    for party in parties {
        if !has_promised(exchange, promising, party) {
            return false;
        }
    }
    true
}

// Puts these digests to the others.
fn put_digests(
    list: &mut Seq<(Name, [u8; 32])>,
    digests: &[(Name, [u8; 32])],
) -> Result<(), OutOfMemory>
    ensures { OnOk result (list.new ≡ list.old ++ digests.now) }
{
    for digest in digests {
        list.push(*digest)?;
    }
    Ok(())
}

// The digests that were committed for the contract, and now are: in the order of the commitments.
#[tactic(auto, using(crate::proofs::Completed::digests_last))]
fn hashes_of(
    exchange: &Exchange,
    promising: &Promising,
) -> Result<Seq<(Name, [u8; 32])>, OutOfMemory>
    ensures { let promises = exchange.now.promises ++ promise_in promising.now ∷ [] in
        IfOk result (λ hashes. hashes ≡ digests_at promises promising.now.contract) }
{
    let mut hashes = exchange.all_digests(promising.contract)?;
    put_digests(&mut hashes, promising.digests.as_slice())?;
    Ok(hashes)
}

// The contract compiled, whose deposits these are and which has all commitments with this one.
#[tactic(auto, using(bm_hash::proofs::HashesLemmas::stops_early))]
fn compile_bound<H: Hash32 + Drop>(
    alloc: Global,
    trail: &mut Trail<H>,
    board: &Board,
    promising: &Promising,
    checked: &Checked,
    bindings: &[(Name, u32)],
) -> Result<Compiled, TrailError>
    requires clear { evidence_of (H.digest_of trail.old.hasher) trail.old.messages ≡ None }
    requires made { are_made board.now.coins.outputs bindings.now ≡ true }
    requires bound { list_all (λ d. is_some (look_up d.0 bindings.now)) (deposits checked.now.pre) ≡ true }
    ensures compiled { let hashes = digests_at (board.now.exchange.promises ++ promise_in promising.now ∷ []) promising.now.contract in
        let s = instance_with promising.now.contract checked.now (map (placed_at board.now.coins.outputs) bindings.now) hashes in
        IfOk result (λ c. c ≡ numbered (H.digest_of trail.old.hasher) s) }
    ensures trail { let hashes = digests_at (board.now.exchange.promises ++ promise_in promising.now ∷ []) promising.now.contract in
        let s = instance_with promising.now.contract checked.now (map (placed_at board.now.coins.outputs) bindings.now) hashes in
        Hashes H.digest_of trail.old trail.new (compiled_strings (H.digest_of trail.old.hasher) s) result }
{
    let bound = bound_outpoints(alloc, &board.coins, bindings)?;
    let hashes = hashes_of(&board.exchange, promising)?;
    let compiled = compile(
        alloc,
        trail,
        promising.contract,
        checked,
        bound.as_slice(),
        hashes.as_slice(),
    )?;
    Ok(compiled)
}

/// The contract of a commitment with what it is compiled to, where all its participants have then committed.
#[tactic(auto, using(bm_hash::proofs::HashesLemmas::hashed_none))]
pub(crate) fn compile_last<H: Hash32 + Drop>(
    alloc: Global,
    trail: &mut Trail<H>,
    board: &Board,
    promising: &Promising,
) -> Result<Option<(u32, Compiled)>, TrailError>
    requires clear { evidence_of (H.digest_of trail.old.hasher) trail.old.messages ≡ None }
    requires bound { let s = setup_of (H.digest_of trail.old.hasher) board.now in
        (messages : List (List ℕ)) → IsBoundAt s (world_of board.now messages) promising.now.contract }
    ensures compiled { (messages : List (List ℕ)) →
        let s = setup_of (H.digest_of trail.old.hasher) board.now in
        let next = promised (world_of board.now messages) promising.now in
        IfOk result (λ entry. entry ≡ entry_of s.hash promising.now.contract (compiled_instance s next promising.now.contract)) }
    ensures trail { (messages : List (List ℕ)) →
        let s = setup_of (H.digest_of trail.old.hasher) board.now in
        let next = promised (world_of board.now messages) promising.now in
        Hashes H.digest_of trail.old trail.new (strings_compiled s (compiled_instance s next promising.now.contract)) result }
{
    let Some(checked) = board.contract(promising.contract) else {
        return Ok(None);
    };
    let Some(bindings) = board.exchange.bindings(promising.contract) else {
        return Ok(None);
    };
    if !have_promised(&board.exchange, promising, checked.parties()) {
        return Ok(None);
    }
    let compiled = compile_bound(alloc, trail, board, promising, checked, bindings)?;
    Ok(Some((promising.contract, compiled)))
}
