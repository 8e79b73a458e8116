//! What is hashed for a transaction, whatever its verdict.

ghost use Rattle.std.specs.Prelude.{◌≡◌, ◌∷◌, None, IfOk};
ghost use Rattle.bm_hash.specs.Messages.{evidence_of};
ghost use Rattle.bm_hash.specs.Trails.{Hashes};
ghost use Rattle.bm_sighash.specs.Shared.{hashes_of};
ghost use Rattle.spec_bitcoin.specs.Digests as spec;
ghost use Rattle.spec_bitcoin.specs.Verdict.{input_strings};
ghost use Rattle.bm_ledger.specs.Judging.{input_hashes};

use crate::inputs::script_of;
use crate::outputs::Live;
use bm_hash::{Hash32, Trail, TrailError};
use bm_sighash::{ListHashes, digest_of_input};
use spec_bitcoin::{Tx, TxIn};
use std::alloc::Global;

/// The hash of the script in an input's witness, and the digest that the input's signatures sign.
#[derive(Clone, Copy)]
pub(crate) struct InputHashes {
    pub script: [u8; 32],
    pub digest: [u8; 32],
}

// Hashes the script of an input, and what its signatures sign where it spends an output of this value.
#[tactic(auto, using(bm_hash::proofs::HashesLemmas::hashing))]
fn hash_spending<H: Hash32 + Drop>(
    alloc: Global,
    trail: &mut Trail<H>,
    tx: &Tx,
    lists: &ListHashes,
    input: &TxIn,
    script: &[u8],
    value: u64,
) -> Result<InputHashes, TrailError>
    requires lists { lists.now ≡ hashes_of (H.digest_of trail.old.hasher) tx.now }
    ensures script { IfOk result (λ hashes. hashes.script ≡ H.digest_of trail.old.hasher script.now) }
    ensures digest { IfOk result (λ hashes. hashes.digest ≡ spec.digest (H.digest_of trail.old.hasher) tx.now input.now script.now value) }
    ensures trail { Hashes H.digest_of trail.old trail.new
        (script.now ∷ spec.digest_strings (H.digest_of trail.old.hasher) tx.now input.now script.now value) result }
{
    let program = trail.hash(script)?;
    let digest = digest_of_input(alloc, trail, tx, lists, input, script, value)?;
    Ok(InputHashes {
        script: program,
        digest,
    })
}

/// Hashes what is hashed for an input: something where it has a witness and spends a live output.
#[tactic(auto, using(bm_hash::proofs::HashesLemmas::hashing_loop))]
pub(crate) fn hash_input<H: Hash32 + Drop>(
    alloc: Global,
    trail: &mut Trail<H>,
    tx: &Tx,
    lists: &ListHashes,
    live: &Live,
    input: &TxIn,
) -> Result<Option<InputHashes>, TrailError>
    requires lists { lists.now ≡ hashes_of (H.digest_of trail.old.hasher) tx.now }
    requires clear { evidence_of (H.digest_of trail.old.hasher) trail.old.messages ≡ None }
    ensures hashes { IfOk result (λ hashes. hashes ≡ input_hashes (H.digest_of trail.old.hasher) live.now tx.now input.now) }
    ensures trail { Hashes H.digest_of trail.old trail.new
        (input_strings (H.digest_of trail.old.hasher) live.now tx.now input.now) result }
{
    if input.witness.is_empty() {
        return Ok(None);
    }
    let Some(spent) = live.find(&input.prev) else {
        return Ok(None);
    };
    let script = script_of(input.witness.as_slice());
    let hashes = hash_spending(alloc, trail, tx, lists, input, script, spent.1.value)?;
    Ok(Some(hashes))
}
