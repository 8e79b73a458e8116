//! Transactions with their witnesses.

ghost use Rattle.std.specs.Prelude.{◌≡◌, option_map, slice_get, IfOk};
ghost use Rattle.spec_run.specs.Firing as spec;
ghost use Rattle.bm_tx_filled.specs.Filled.{input_with};

use spec_bitcoin::tx::copy_items;
use spec_bitcoin::{Tx, TxIn};
use spec_data::{Bytes, OutOfMemory, Seq};
use std::alloc::Global;

// The input with this witness, if there is one.
fn input_with(
    alloc: Global,
    input: &TxIn,
    witness: Option<&Seq<Bytes>>,
) -> Result<TxIn, OutOfMemory>
    ensures { IfOk result (λ new. new ≡ input_with input.now (option_map (λ w. w.now) witness.entry)) }
{
    let mut new = input.copy(alloc)?;
    if let Some(witness) = witness {
        new.witness = copy_items(alloc, witness.as_slice())?;
    }
    Ok(new)
}

// The witness at this place.
fn witness_at(witnesses: &[Seq<Bytes>], k: usize) -> Option<&Seq<Bytes>>
    ensures { option_map (λ w. w.now) result ≡ slice_get witnesses.now k }
{
    witnesses.get(k)
}

// The inputs with these witnesses, one by one.
fn witnessed(
    alloc: Global,
    inputs: &[TxIn],
    witnesses: &[Seq<Bytes>],
) -> Result<Seq<TxIn>, OutOfMemory>
    ensures { IfOk result (λ new. new ≡ spec.witnessed inputs.now witnesses.now) }
{
    let mut new = Seq::with_capacity(alloc, inputs.len())?;
    for (k, input) in inputs.iter().enumerate() {
        new.push(input_with(alloc, input, witness_at(witnesses, k))?)?;
    }
    Ok(new)
}

/// The transaction whose inputs have these witnesses, one by one.
pub fn with_witnesses(alloc: Global, tx: &Tx, witnesses: &[Seq<Bytes>]) -> Result<Tx, OutOfMemory>
    ensures { IfOk result (λ new. new ≡ spec.with_witnesses tx.now witnesses.now) }
{
    let mut new = tx.copy(alloc)?;
    new.inputs = witnessed(alloc, tx.inputs.as_slice(), witnesses)?;
    Ok(new)
}
