//! Outputs that inputs spend twice.

ghost use Rattle.std.specs.Prelude.{◌≡◌, map, IfOk};
ghost use Rattle.std.specs.List.{list_any};
ghost use Rattle.spec_bitcoin.specs.Live.{same_outpoint};
ghost use Rattle.spec_bitcoin.specs.Verdict.{has_repeat};

use crate::elements::{FEW, repeats};
use spec_bitcoin::{OutPoint, TxIn};
use spec_data::OutOfMemory;
use std::alloc::Global;

// One of the inputs spends the output at a place.
fn spends(inputs: &[TxIn], place: &OutPoint) -> bool
    ensures { result ≡ list_any (λ i. same_outpoint i.prev place.now) inputs.now }
{
    inputs.iter().any(|input| input.prev == *place)
}

// The same pair by pair.
fn spend_twice_pairwise(inputs: &[TxIn]) -> bool
    ensures { result ≡ has_repeat inputs.now }
{
    let mut rest = inputs;
    while let Some((first, others)) = rest.split_first() {
        if spends(others, &first.prev) {
            return true;
        }
        rest = others;
    }
    false
}

// The places of the outputs that are spent.
fn places_of(alloc: Global, inputs: &[TxIn]) -> Result<Vec<OutPoint>, OutOfMemory>
    ensures { IfOk result (λ places. places.items ≡ map (λ i. i.prev) inputs.now) }
{
    inputs.iter().map(|input| input.prev).collect(alloc)
}

/// Whether two inputs spend one output.
pub fn spend_twice(alloc: Global, inputs: &[TxIn]) -> bool
    ensures { result ≡ has_repeat inputs.now }
{
    if inputs.len() <= FEW {
        return spend_twice_pairwise(inputs);
    }
    match places_of(alloc, inputs) {
        Ok(places) => repeats(alloc, places.as_slice()),
        Err(_) => spend_twice_pairwise(inputs),
    }
}
