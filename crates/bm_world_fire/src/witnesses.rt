//! The transaction of a branch that is taken, with its witnesses.

ghost use Rattle.std.specs.Prelude.{◌≡◌, ◌<◌, ◌∷◌, Some, length, map, IfOk};
ghost use Rattle.bm_syntax.specs.View.{guarded};
ghost use Rattle.spec_terms.specs.Core as terms;
ghost use Rattle.spec_terms.specs.Core.{core as core_of};
ghost use Rattle.spec_compiler.specs.Witness.{witness_of};
ghost use Rattle.spec_run.specs.Setup.{bytes_or_none};
ghost use Rattle.spec_run.specs.Signing.{first_of};
ghost use Rattle.spec_run.specs.Firing as spec;
ghost use Rattle.bm_world_board.specs.Playable.{IsPlayable};
ghost use Rattle.bm_world_board.specs.Prepares.{setup_of, world_of};
ghost use Rattle.bm_world_fire.specs.Filled.{signed_by, deposits_items, owner_in};
ghost use Rattle.bm_world_fire.specs.Taken.{IsTaking, IsOpen, taking_with};
ghost use Rattle.bm_world_fire.specs.Shown.{shown_by};

use crate::deposits::{put_witnesses, volatile_owners};
use crate::shown::shown_strings;
use crate::taking::Taking;
use bm_branch::witness;
use bm_hash::{Hash32, Trail};
use bm_honest::branch_key;
use bm_keys::signature;
use bm_match::branches_at;
use bm_syntax::{puts, reveals};
use bm_tx_filled::with_witnesses;
use bm_world_board::Board;
use spec_bitcoin::Tx;
use spec_compiler::Prepared;
use spec_data::{Bytes, Name, OutOfMemory, Seq};
use spec_terms::{Path, Pre};
use std::alloc::Global;

// The first of the digests.
fn first_of(digests: &[[u8; 32]]) -> [u8; 32]
    requires { 0 < length digests.now }
    ensures { result ≡ first_of digests.now }
{
    let Some((digest, _)) = digests.split_first() else {
        unreachable!()
    };
    *digest
}

// The digests but the first.
fn others_of(digests: &[[u8; 32]]) -> &[[u8; 32]]
    ensures { result.now ≡ spec.other_digests digests.now }
{
    match digests.split_first() {
        Some((_, others)) => others,
        None => &[],
    }
}

// The participants' signatures of the digest by their keys of the branch at a path.
fn signatures<H: Hash32>(
    alloc: Global,
    hasher: &H,
    contract: u32,
    path: &Path,
    parties: &[Name],
    digest: &[u8; 32],
) -> Result<Vec<[u8; 66]>, OutOfMemory>
    ensures { IfOk result (λ all. all.items ≡ map (signed_by (H.digest_of hasher.now) contract path.now digest.now) parties.now) }
{
    let mut all = Vec::new(alloc);
    for party in parties {
        let key = branch_key(alloc, hasher, contract, path, party)?;
        all.push(signature(&key, digest))?;
    }
    Ok(all)
}

// The witnesses of the position's output, which is this one, and of the deposits that the branch puts.
fn with_deposits<H: Hash32>(
    alloc: Global,
    hasher: &H,
    pre: &[Pre],
    puts: &[Name],
    first: Seq<Bytes>,
    digests: &[[u8; 32]],
) -> Result<Seq<Seq<Bytes>>, OutOfMemory>
    ensures { let owners = map (owner_in pre.now) puts.now in
        IfOk result (λ all. all ≡ first ∷ deposits_items (H.digest_of hasher.now) owners digests.now) }
{
    let owners = volatile_owners(alloc, pre, puts)?;
    let mut all = Seq::new(alloc);
    all.push(first)?;
    put_witnesses(alloc, hasher, &mut all, owners.as_slice(), digests)?;
    Ok(all)
}

// The witness of the position's output, which has so many branches and this script.
fn position_witness<H: Hash32 + Drop>(
    alloc: Global,
    trail: &Trail<H>,
    board: &Board,
    taking: &Taking,
    signed: &[[u8; 66]],
    branches: u32,
    script: &[u8],
) -> Result<Seq<Bytes>, OutOfMemory>
    requires playable { IsPlayable (setup_of (H.digest_of trail.now.hasher) board.now) board.now trail.now.messages }
    requires there { taking.now.number < branches }
    ensures { let s = setup_of (H.digest_of trail.now.hasher) board.now in
        let secrets = terms.reveals_of (core_of (guarded taking.now.branch.now)) in
        let shown = map (λ name. bytes_or_none (shown_by s board.now.exchange.posted taking.now.hashes name)) secrets in
        IfOk result (λ items. items ≡ witness_of signed.now shown taking.now.number branches script.now) }
{
    let secrets = reveals(taking.branch);
    let shown = shown_strings(alloc, trail, board, taking.hashes.as_slice(), secrets)?;
    let number = taking.number;
    let items = witness(alloc, signed, shown.as_slice(), number, branches, script)?;
    Ok(Seq::of(items))
}

// The transaction of a branch with its witnesses, by what it is compiled to, and how many branches and which script its
// position has.
fn filled<H: Hash32 + Drop>(
    alloc: Global,
    trail: &Trail<H>,
    board: &Board,
    taking: &Taking,
    made: &Prepared,
    branches: u32,
    script: &[u8],
) -> Result<Tx, OutOfMemory>
    requires playable { IsPlayable (setup_of (H.digest_of trail.now.hasher) board.now) board.now trail.now.messages }
    requires there { taking.now.number < branches }
    requires some { 0 < length made.now.digests }
    ensures { let s = setup_of (H.digest_of trail.now.hasher) board.now in
        let t = taking.now in
        IfOk result (λ tx. tx ≡ taking_with s board.now.exchange.posted t.held.now.contract t.checked.now t.hashes t.path t.number branches
        (guarded t.branch.now) made.now script.now) }
{
    let hasher = trail.hasher();
    let digest = first_of(made.digests.as_slice());
    let contract = taking.held.contract();
    let parties = taking.checked.parties();
    let signed = signatures(alloc, hasher, contract, &taking.path, parties, &digest)?;
    let first = position_witness(alloc, trail, board, taking, &signed, branches, script)?;
    let pre = taking.checked.advert().pre.as_slice();
    let others = others_of(made.digests.as_slice());
    let witnesses = with_deposits(alloc, hasher, pre, puts(taking.branch), first, others)?;
    let tx = with_witnesses(alloc, &made.tx, witnesses.as_slice())?;
    Ok(tx)
}

/// The transaction of a branch with its witnesses.
pub(crate) fn taking_transaction<H: Hash32 + Drop>(
    alloc: Global,
    trail: &Trail<H>,
    board: &Board,
    taking: &Taking,
) -> Result<Tx, OutOfMemory>
    requires playable { IsPlayable (setup_of (H.digest_of trail.now.hasher) board.now) board.now trail.now.messages }
    requires taking { IsTaking board.now taking.now }
    requires opened { IsOpen (setup_of (H.digest_of trail.now.hasher) board.now) (world_of board.now trail.now.messages) taking.now }
    ensures { let s = setup_of (H.digest_of trail.now.hasher) board.now in let w = world_of board.now trail.now.messages in
        IfOk result (λ tx. Some tx ≡ spec.taking_of_position s w (Some taking.now.held.now) taking.now.number) }
{
    let Some(made) = taking.compiled.transaction_at(&taking.path) else {
        unreachable!()
    };
    let position = taking.held.position();
    let Some(script) = taking.compiled.script_at(position) else {
        unreachable!()
    };
    let branches = branches_at(taking.compiled.arena(), position);
    let tx = filled(
        alloc,
        trail,
        board,
        taking,
        made,
        branches,
        script.as_slice(),
    )?;
    Ok(tx)
}
