//! The output scripts of deposits and payouts.

ghost use Rattle.std.specs.Prelude.{◌≡◌, IfOk};
ghost use Rattle.spec_bitcoin.specs.Keys.{pay_to as output_of};
ghost use Rattle.spec_compiler.specs.Keyed.Transactions as spec;
ghost use Rattle.deal_compile.specs.Keyed.{keys_of};
ghost use Rattle.deal_show.specs.Showing.{deposit_output};

use bm_compile::KeySource;
use bm_hash::Hash32;
use bm_keys::{deposit_script, pay_to};
use deal_compile::DealKeys;
use spec_data::{Bytes, Name, OutOfMemory};
use std::alloc::Global;

// The output script of a party's key.
fn key_output<H: Hash32>(
    alloc: Global,
    hasher: &H,
    keys: &DealKeys,
    party: &Name,
) -> Result<Bytes, OutOfMemory>
    ensures { let hash = H.digest_of hasher.now in
        IfOk result (λ script. script ≡ output_of (hash (spec.party_script hash (keys_of keys.now) party.now))) }
{
    let key = keys.party_key(alloc, party.bytes())?;
    let script = deposit_script(&key);
    Bytes::from_slice(alloc, &pay_to(&hasher.hash32(&script)))
}

/// The output script of what a party is paid: its own, or that of its key.
pub(crate) fn payee_script<H: Hash32>(
    alloc: Global,
    hasher: &H,
    keys: &DealKeys,
    party: &Name,
) -> Result<Bytes, OutOfMemory>
    ensures { IfOk result (λ script. script ≡ spec.payee_script (H.digest_of hasher.now) (keys_of keys.now) party.now) }
{
    match keys.own_payee(party.bytes()) {
        Some(script) => Bytes::from_slice(alloc, script),
        None => key_output(alloc, hasher, keys, party),
    }
}

/// The output script of a deposit: a wallet's, or that of its owner's key.
pub(crate) fn deposit_script_of<H: Hash32>(
    alloc: Global,
    hasher: &H,
    keys: &DealKeys,
    name: &Name,
    owner: &Name,
) -> Result<Bytes, OutOfMemory>
    ensures { IfOk result (λ script. script
        ≡ deposit_output (H.digest_of hasher.now) (keys_of keys.now) name.now owner.now) }
{
    match keys.own_script(name.bytes()) {
        Some(script) => Bytes::from_slice(alloc, script),
        None => key_output(alloc, hasher, keys, owner),
    }
}
