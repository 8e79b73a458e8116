//! The deposits of a deal.

ghost use Rattle.std.specs.Prelude.{◌≡◌, ◌∷◌, [], map, codes, true, is_some, option_map, IfOk};
ghost use Rattle.std.specs.List.{list_all};
ghost use Rattle.serde_json.specs.Data.{boolean};
ghost use Rattle.serde_json.specs.View.{view};
ghost use Rattle.spec_data.specs.Lists.{look_up};
ghost use Rattle.spec_terms.specs.Precondition.{deposits as deposits_of, holding};
ghost use Rattle.spec_compiler.specs.Keyed.Keys.{own_script};
ghost use Rattle.spec_json.specs.Values.{number_value};
ghost use Rattle.spec_show.specs.Objects.{object_of};
ghost use Rattle.deal_compile.specs.Keyed.{keys_of};
ghost use Rattle.deal_show.specs.Showing as spec;

use crate::scripts::deposit_script_of;
use crate::values::{address_value, hex_value, text_value, txid_value};
use bm_compile::KeySource;
use bm_hash::Hash32;
use deal_compile::DealKeys;
use serde_json::{Value, json};
use spec_bitcoin::OutPoint;
use spec_data::{Name, OutOfMemory};
use spec_deal::Deal;
use spec_terms::Pre;
use std::alloc::Global;

// Where the deposit of this name lies, where a place was given.
fn place_of<'a>(bound: &'a [(Name, OutPoint)], name: &Name) -> Option<&'a OutPoint>
    ensures { option_map (λ p. p.now) result ≡ look_up name.now bound.now }
{
    for (known, place) in bound {
        if *known == *name {
            return Some(place);
        }
    }
    None
}

// A deposit by its parts.
fn told_deposit(
    alloc: Global,
    address: Value,
    name: Value,
    party: Value,
    script: Value,
    txid: Value,
    value: u64,
    vout: u32,
    wallet: bool,
) -> Result<Value, OutOfMemory>
    ensures { IfOk result (λ v. view v ≡ object_of ((codes "address", view address) ∷ (codes "name", view name)
        ∷ (codes "party", view party) ∷ (codes "script", view script) ∷ (codes "txid", view txid)
        ∷ (codes "value", number_value value) ∷ (codes "vout", number_value vout) ∷ (codes "wallet", boolean wallet) ∷ [])) }
{
    json!(in alloc; {
        "address": address,
        "name": name,
        "party": party,
        "script": script,
        "txid": txid,
        "value": value,
        "vout": vout,
        "wallet": wallet
    })
}

// A deposit at this place, whose output has this script; whether a wallet brings it.
fn placed_value(
    alloc: Global,
    network: &Option<Name>,
    name: &Name,
    owner: &Name,
    value: u64,
    place: &OutPoint,
    script: &[u8],
    wallet: bool,
) -> Result<Value, OutOfMemory>
    ensures { IfOk result (λ v. view v
        ≡ spec.placed_data network.now (name.now, holding owner.now value) place.now script.now (boolean wallet)) }
{
    let address = address_value(alloc, network, script)?;
    let name = text_value(alloc, name.bytes())?;
    let party = text_value(alloc, owner.bytes())?;
    let script = hex_value(alloc, script)?;
    let txid = txid_value(alloc, &place.txid)?;
    told_deposit(
        alloc, address, name, party, script, txid, value, place.vout, wallet,
    )
}

// Whether a wallet brings the deposit of this name.
fn is_brought(keys: &DealKeys, name: &Name) -> bool
    ensures { result ≡ is_some (own_script (keys_of keys.now) name.now) }
{
    keys.own_script(name.bytes()).is_some()
}

// A deposit of this owner and value.
#[tactic(auto, unfolding(crate::specs::Showing::deposit_by))]
fn deposit_value<H: Hash32>(
    alloc: Global,
    hasher: &H,
    keys: &DealKeys,
    deal: &Deal,
    name: &Name,
    owner: &Name,
    value: u64,
) -> Result<Value, OutOfMemory>
    requires { is_some (look_up name.now deal.now.deposits) ≡ true }
    ensures { IfOk result (λ v. view v ≡ spec.deposit_by (H.digest_of hasher.now) deal.now.network (keys_of keys.now)
        deal.now.deposits (name.now, holding owner.now value)) }
{
    let Some(place) = place_of(deal.deposits.as_slice(), name) else {
        unreachable!()
    };
    let script = deposit_script_of(alloc, hasher, keys, name, owner)?;
    placed_value(
        alloc,
        &deal.network,
        name,
        owner,
        value,
        place,
        script.as_slice(),
        is_brought(keys, name),
    )
}

/// The deposits among these entries of a precondition, in order.
pub(crate) fn deposit_values<H: Hash32>(
    alloc: Global,
    hasher: &H,
    keys: &DealKeys,
    deal: &Deal,
    pre: &[Pre],
) -> Result<Vec<Value>, OutOfMemory>
    requires { list_all (λ d. is_some (look_up d.0 deal.now.deposits)) (deposits_of pre.now) ≡ true }
    ensures { IfOk result (λ vs. map view vs.items ≡ map (spec.deposit_by (H.digest_of hasher.now) deal.now.network
        (keys_of keys.now) deal.now.deposits) (deposits_of pre.now)) }
{
    let mut values = Vec::new(alloc);
    for entry in pre {
        match entry {
            Pre::Persistent { party, value, name } => {
                values.push(deposit_value(alloc, hasher, keys, deal, name, party, *value)?)?
            }
            Pre::Volatile { party, value, name } => {
                values.push(deposit_value(alloc, hasher, keys, deal, name, party, *value)?)?
            }
            Pre::Secret { .. } => {}
        }
    }
    Ok(values)
}
