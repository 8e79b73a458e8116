//! The deposits of a contract as what its transactions spend and pay to.

ghost use Rattle.std.specs.Prelude.{◌≡◌, ◌++◌, IfOk, OnOk, true};
ghost use Rattle.std.specs.List.{list_all};
ghost use Rattle.std.specs.Option.{option_map};
ghost use Rattle.spec_data.specs.Lists.{look_up};
ghost use Rattle.spec_terms.specs.Precondition.{holding, volatile, persistent, value_of};
ghost use Rattle.spec_compiler.specs.Keyed.Transactions as spec;
ghost use Rattle.bm_compile.specs.Seen.{is_bound};

use crate::binding::bound_to;
use crate::setting::Setting;
use crate::sourcing::KeySource;
use crate::wallets::code_of;
use bm_hash::Hash32;
use bm_keys::{deposit_script, pay_to};
use bm_syntax::{Name, Pre};
use spec_bitcoin::TxOut;
use spec_compiler::Spent;
use spec_data::{Bytes, OutOfMemory, Seq};
use std::alloc::Global;

// The script of a party's deposits, where they are of its key. Its parts were hashed earlier, so that they aren't hashed along a trail.
fn party_script<H: Hash32, K: KeySource>(
    alloc: Global,
    hasher: &H,
    source: &K,
    party: &[u8],
) -> Result<[u8; 35], OutOfMemory>
    ensures { IfOk result (λ script. script ≡ spec.party_script (H.digest_of hasher.now) (K.keys source.now) party.now) }
{
    let key = source.deposit_key(alloc, hasher, party)?;
    Ok(deposit_script(&key))
}

/// An output of this value, in satoshi, for whoever shows this script and what it asks for.
pub fn pays<H: Hash32>(
    alloc: Global,
    hasher: &H,
    script: &[u8],
    value: u64,
) -> Result<TxOut, OutOfMemory>
    ensures { IfOk result (λ output. output ≡ spec.pays (H.digest_of hasher.now) script.now value) }
{
    Ok(TxOut {
        value,
        script: Bytes::from_slice(alloc, &pay_to(&hasher.hash32(script)))?,
    })
}

/// The output script of what a party is paid.
pub(crate) fn payee_script<H: Hash32, K: KeySource>(
    alloc: Global,
    hasher: &H,
    source: &K,
    party: &[u8],
) -> Result<Bytes, OutOfMemory>
    ensures { IfOk result (λ script. script ≡ spec.payee_script (H.digest_of hasher.now) (K.keys source.now) party.now) }
{
    if let Some(script) = source.own_payee(party) {
        return Bytes::from_slice(alloc, script);
    }
    let script = party_script(alloc, hasher, source, party)?;
    Bytes::from_slice(alloc, &pay_to(&hasher.hash32(&script)))
}

// The script that signatures of the owner of the deposit of this name are made with.
fn deposit_code<H: Hash32, K: KeySource>(
    alloc: Global,
    hasher: &H,
    source: &K,
    name: &[u8],
    owner: &[u8],
) -> Result<Bytes, OutOfMemory>
    ensures { IfOk result (λ code. code ≡ spec.deposit_code (H.digest_of hasher.now) (K.keys source.now) name.now owner.now) }
{
    if let Some(script) = source.own_script(name) {
        return code_of(alloc, script);
    }
    let script = party_script(alloc, hasher, source, owner)?;
    Bytes::from_slice(alloc, &script)
}

// The output of the deposit of this name, of an owner and a value.
fn deposit<H: Hash32, K: KeySource>(
    alloc: Global,
    hasher: &H,
    source: &K,
    setting: &Setting,
    name: &Name,
    owner: &[u8],
    value: u64,
) -> Result<Spent, OutOfMemory>
    requires { is_bound setting.now.bound name.now ≡ true }
    ensures { IfOk result (λ spent. spent ≡ spec.deposit (H.digest_of hasher.now) (K.keys source.now) setting.now name.now (holding owner.now value)) }
{
    let Some(outpoint) = bound_to(setting.bound(), name) else {
        unreachable!()
    };
    Ok(Spent {
        outpoint,
        script: deposit_code(alloc, hasher, source, name.bytes(), owner)?,
        value,
    })
}

/// The owner and the value of the volatile deposit of this name.
pub fn volatile_of<'a>(pre: &'a [Pre], name: &Name) -> Option<(&'a Name, u64)>
    ensures { option_map (λ p. holding p.0.now p.1) result ≡ look_up name.now (volatile pre.now) }
{
    for entry in pre {
        if let Pre::Volatile {
            party,
            value,
            name: known,
        } = entry
        {
            if *known == *name {
                return Some((party, *value));
            }
        }
    }
    None
}

/// The value of the volatile deposit of this name in satoshi, 0 without one.
pub(crate) fn volatile_value(pre: &[Pre], name: &Name) -> u64
    ensures { result ≡ value_of (look_up name.now (volatile pre.now)) }
{
    match volatile_of(pre, name) {
        Some((_, value)) => value,
        None => 0,
    }
}

// The output of the volatile deposit of this name.
fn put_deposit<H: Hash32, K: KeySource>(
    alloc: Global,
    hasher: &H,
    source: &K,
    setting: &Setting,
    name: &Name,
) -> Result<Spent, OutOfMemory>
    requires { is_bound setting.now.bound name.now ≡ true }
    ensures { IfOk result (λ spent. spent ≡ spec.deposit (H.digest_of hasher.now) (K.keys source.now) setting.now name.now
        (spec.holding_or_none (look_up name.now (volatile setting.now.advert.pre)))) }
{
    match volatile_of(&setting.advert().pre, name) {
        Some((owner, value)) => deposit(alloc, hasher, source, setting, name, owner.bytes(), value),
        None => deposit(alloc, hasher, source, setting, name, &[], 0),
    }
}

/// Adds the outputs of the volatile deposits of these names.
#[tactic(auto, using(crate::proofs::Chains::all_item))]
pub(crate) fn add_deposits<H: Hash32, K: KeySource>(
    alloc: Global,
    hasher: &H,
    source: &K,
    setting: &Setting,
    spends: &mut Seq<Spent>,
    puts: &[Name],
) -> Result<(), OutOfMemory>
    requires { list_all (is_bound setting.now.bound) puts.now ≡ true }
    ensures { OnOk result (spends.new ≡ spends.old ++ spec.put_deposits (H.digest_of hasher.now) (K.keys source.now) setting.now puts.now) }
{
    for name in puts {
        spends.push(put_deposit(alloc, hasher, source, setting, name)?)?;
    }
    Ok(())
}

/// The outputs of the persistent deposits.
pub(crate) fn persistent_deposits<H: Hash32, K: KeySource>(
    alloc: Global,
    hasher: &H,
    source: &K,
    setting: &Setting,
) -> Result<Seq<Spent>, OutOfMemory>
    ensures { IfOk result (λ spends. spends ≡ spec.persistent_deposits (H.digest_of hasher.now) (K.keys source.now) setting.now) }
{
    setting.is_seen_to();
    let mut spends = Seq::new(alloc);
    for entry in &setting.advert().pre {
        if let Pre::Persistent { party, value, name } = entry {
            spends.push(deposit(alloc, hasher, source, setting, name, party.bytes(), *value)?)?;
        }
    }
    Ok(spends)
}
