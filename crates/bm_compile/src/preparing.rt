//! Transactions made ready to be signed.

ghost use Rattle.std.specs.Prelude.{◌≡◌, ◌++◌, map, None, IfOk};
ghost use Rattle.std.specs.List.{flat_map};
ghost use Rattle.bm_hash.specs.Messages.{evidence_of};
ghost use Rattle.bm_hash.specs.Trails.{Hashes};
ghost use Rattle.bm_sighash.specs.Shared.{hashes_of};
ghost use Rattle.spec_compiler.specs.Transactions as spec;
ghost use Rattle.spec_compiler.specs.Hashed.{spent_strings, unsigned_strings};
ghost use Rattle.bm_compile.specs.Keyed.Detailed.{detailed};

use crate::detailed::Detailed;
use bm_hash::{Hash32, Trail, TrailError};
use bm_sighash::{ListHashes, digest_of_input, shared};
use bm_tx::txid;
use spec_bitcoin::tx::copy_outputs;
use spec_bitcoin::{Tx, TxIn};
use spec_compiler::{Prepared, Spent, Unsigned};
use spec_data::{Bytes, OutOfMemory, Seq};
use std::alloc::Global;

// The input that spends an output, without its witness. Its sequence is one under which the transaction's lock binds.
fn input_of(alloc: Global, spent: &Spent) -> TxIn
    ensures { result ≡ spec.input_of spent.now }
{
    TxIn {
        prev: spent.outpoint,
        script_sig: Bytes::of(Vec::new(alloc)),
        sequence: 0xffff_fffe,
        witness: Seq::new(alloc),
    }
}

fn inputs_of(alloc: Global, spends: &[Spent]) -> Result<Seq<TxIn>, OutOfMemory>
    ensures { IfOk result (λ inputs. inputs ≡ map spec.input_of spends.now) }
{
    let mut inputs = Seq::new(alloc);
    for spent in spends {
        inputs.push(input_of(alloc, spent))?;
    }
    Ok(inputs)
}

fn tx_of(alloc: Global, unsigned: &Unsigned) -> Result<Tx, OutOfMemory>
    ensures { IfOk result (λ tx. tx ≡ spec.tx_of unsigned.now) }
{
    Ok(Tx {
        version: 2,
        inputs: inputs_of(alloc, unsigned.spends.as_slice())?,
        outputs: copy_outputs(alloc, unsigned.outputs.as_slice())?,
        lock: unsigned.lock,
    })
}

// The digest of the input that spends this output.
fn digest_of_spent<H: Hash32 + Drop>(
    alloc: Global,
    trail: &mut Trail<H>,
    tx: &Tx,
    lists: &ListHashes,
    spent: &Spent,
) -> Result<[u8; 32], TrailError>
    requires lists { lists.now ≡ hashes_of (H.digest_of trail.old.hasher) tx.now }
    ensures digest { IfOk result (λ d. d ≡ spec.digest_of_spent (H.digest_of trail.old.hasher) tx.now spent.now) }
    ensures trail { Hashes H.digest_of trail.old trail.new (spent_strings (H.digest_of trail.old.hasher) tx.now spent.now) result }
{
    digest_of_input(
        alloc,
        trail,
        tx,
        lists,
        &input_of(alloc, spent),
        spent.script.as_slice(),
        spent.value,
    )
}

// The digest of each input, in order.
#[tactic(auto, using(bm_hash::proofs::HashesLemmas::hashed_none, bm_hash::proofs::HashesLemmas::stops_short_of))]
fn digests_of<H: Hash32 + Drop>(
    alloc: Global,
    trail: &mut Trail<H>,
    tx: &Tx,
    lists: &ListHashes,
    spends: &[Spent],
) -> Result<Seq<[u8; 32]>, TrailError>
    requires lists { lists.now ≡ hashes_of (H.digest_of trail.old.hasher) tx.now }
    requires clear { evidence_of (H.digest_of trail.old.hasher) trail.old.messages ≡ None }
    ensures digests { IfOk result (λ ds. ds ≡ map (spec.digest_of_spent (H.digest_of trail.old.hasher) tx.now) spends.now) }
    ensures trail { Hashes H.digest_of trail.old trail.new
        (flat_map (spent_strings (H.digest_of trail.old.hasher) tx.now) spends.now) result }
{
    let mut digests = Seq::new(alloc);
    for spent in spends {
        let digest = digest_of_spent(alloc, trail, tx, lists, spent)?;
        digests.push(digest)?;
    }
    Ok(digests)
}

// A transaction with its txid and the digest of each input. It hashes the strings of the txid, of the three lists, and
// of each input.
fn prepare<H: Hash32 + Drop>(
    alloc: Global,
    trail: &mut Trail<H>,
    unsigned: &Unsigned,
) -> Result<Prepared, TrailError>
    requires clear { evidence_of (H.digest_of trail.old.hasher) trail.old.messages ≡ None }
    ensures prepared { IfOk result (λ p. p ≡ spec.prepared (H.digest_of trail.old.hasher) unsigned.now) }
    ensures trail { Hashes H.digest_of trail.old trail.new (unsigned_strings (H.digest_of trail.old.hasher) unsigned.now) result }
{
    let tx = tx_of(alloc, unsigned)?;
    let txid = txid(alloc, trail, &tx)?;
    let lists = shared(alloc, trail, &tx)?;
    let digests = digests_of(alloc, trail, &tx, &lists, unsigned.spends.as_slice())?;
    Ok(Prepared { tx, txid, digests })
}

/// A transaction ready to be signed, with what it does and spends. It hashes the strings of the txid, of the three lists, and of
/// each input.
pub(crate) fn detail<H: Hash32 + Drop>(
    alloc: Global,
    trail: &mut Trail<H>,
    pending: Unsigned,
) -> Result<Detailed, TrailError>
    requires clear { evidence_of (H.digest_of trail.old.hasher) trail.old.messages ≡ None }
    ensures detailed { IfOk result (λ d. d ≡ detailed (H.digest_of trail.old.hasher) pending) }
    ensures trail { Hashes H.digest_of trail.old trail.new (unsigned_strings (H.digest_of trail.old.hasher) pending) result }
{
    let prepared = prepare(alloc, trail, &pending)?;
    Ok(Detailed { pending, prepared })
}
