//! The branch that a witness chooses.

ghost use Rattle.std.specs.Prelude.{◌≡◌, ◌+◌, ◌-◌, ◌≤◌, ◌<◌, ◌^◌, take, drop, reverse, length};
ghost use Rattle.spec_bitcoin.specs.Effects.{truth};
ghost use Rattle.spec_compiler.specs.Witness as spec;
ghost use Rattle.spec_run.specs.Ledger as ledger;

use spec_bitcoin::Tx;
use spec_data::Bytes;

// Whether an item counts as true: some byte isn't zero, but for a last byte 80.
fn is_true(item: &[u8]) -> bool
    ensures { result ≡ truth item.now }
{
    for (i, byte) in item.iter().enumerate() {
        if *byte != 0 {
            return !(*byte == 128 && i + 1 == item.len());
        }
    }
    false
}

// The items below the script, which is the last one.
fn below_script(witness: &[Bytes]) -> &[Bytes]
    ensures { reverse result.now ≡ drop 1 (reverse witness.now) }
{
    match witness.split_last() {
        Some((_, items)) => items,
        None => witness,
    }
}

// The place of the last true one of at most `most` items, counted from the last one, and `most` where none of these is true.
#[tactic(auto, using(crate::proofs::Selecting::chosen_here, crate::proofs::Selecting::chosen_later))]
fn last_true(items: &[Bytes], most: u32) -> u32
    ensures { result ≡ spec.first_true 0 most (take most (reverse items.now)) }
{
    let mut rest = items;
    let mut place = 0;
    while let Some((item, others)) = rest.split_last() {
        if place == most {
            return most;
        }
        if is_true(item.as_slice()) {
            return place;
        }
        place += 1;
        rest = others;
    }
    most
}

/// The branch that a witness chooses at a position with so many: the place of the first true item under the script, counted
/// downwards from 0, among the first ones, one fewer than there are branches; and the last branch where none of these is true.
pub fn chosen_by(branches: u32, witness: &[Bytes]) -> u32
    ensures { result ≡ spec.chosen_by branches witness.now }
{
    last_true(below_script(witness), branches.saturating_sub(1))
}

/// The witness of a transaction's first input, nothing without one.
pub fn first_witness(tx: &Tx) -> &[Bytes]
    ensures { result.now ≡ ledger.first_witness tx.now.inputs }
{
    match tx.inputs.as_slice().first() {
        Some(input) => input.witness.as_slice(),
        None => &[],
    }
}
