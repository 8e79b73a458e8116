//! Where participants are paid.

ghost use Rattle.std.specs.Prelude.{◌≡◌, ◌∷◌, [], map, filter, codes, IfOk};
ghost use Rattle.serde_json.specs.View.{view};
ghost use Rattle.spec_terms.specs.Parties.{participants};
ghost use Rattle.spec_data.specs.Lists.{is_among};
ghost use Rattle.spec_deal.specs.Used.{paid_parties};
ghost use Rattle.spec_show.specs.Objects.{object_of};
ghost use Rattle.spec_show.specs.ShownDeal.{payee_data};
ghost use Rattle.deal_compile.specs.Keyed.{keys_of};

use crate::scripts::payee_script;
use crate::values::{address_value, hex_value, text_value};
use bm_hash::Hash32;
use bm_wellformed::Checked;
use deal_compile::DealKeys;
use deal_payees::{all_paid, is_paid};
use serde_json::{Value, json};
use spec_data::{Name, OutOfMemory};
use std::alloc::Global;

// A payout by its parts.
fn told_payout(
    alloc: Global,
    address: Value,
    party: Value,
    script: Value,
) -> Result<Value, OutOfMemory>
    ensures { IfOk result (λ v. view v
        ≡ object_of ((codes "address", view address) ∷ (codes "party", view party) ∷ (codes "script", view script) ∷ [])) }
{
    json!(in alloc; {"address": address, "party": party, "script": script})
}

// Where a party is paid.
fn payout_value<H: Hash32>(
    alloc: Global,
    hasher: &H,
    keys: &DealKeys,
    network: &Option<Name>,
    party: &Name,
) -> Result<Value, OutOfMemory>
    ensures { IfOk result (λ v. view v ≡ payee_data (H.digest_of hasher.now) network.now (keys_of keys.now) party.now) }
{
    let script = payee_script(alloc, hasher, keys, party)?;
    let address = address_value(alloc, network, script.as_slice())?;
    let party = text_value(alloc, party.bytes())?;
    let script = hex_value(alloc, script.as_slice())?;
    told_payout(alloc, address, party, script)
}

// Where those of these parties are paid that are among `paid`.
fn payouts_among<H: Hash32>(
    alloc: Global,
    hasher: &H,
    keys: &DealKeys,
    network: &Option<Name>,
    paid: &[Name],
    parties: &[Name],
) -> Result<Vec<Value>, OutOfMemory>
    ensures { IfOk result (λ vs. map view vs.items ≡ map (payee_data (H.digest_of hasher.now) network.now (keys_of keys.now))
        (filter (λ party. is_among party paid.now) parties.now)) }
{
    let mut values = Vec::new(alloc);
    for party in parties {
        if is_paid(paid, party) {
            values.push(payout_value(alloc, hasher, keys, network, party)?)?;
        }
    }
    Ok(values)
}

/// Where each participant is paid whom the contract pays, in order.
pub(crate) fn payout_values<H: Hash32>(
    alloc: Global,
    hasher: &H,
    keys: &DealKeys,
    checked: &Checked,
    network: &Option<Name>,
) -> Result<Vec<Value>, OutOfMemory>
    ensures { IfOk result (λ vs. map view vs.items
        ≡ map (payee_data (H.digest_of hasher.now) network.now (keys_of keys.now)) (paid_parties checked.now)) }
{
    let paid = all_paid(alloc, checked)?;
    payouts_among(alloc, hasher, keys, network, &paid, checked.parties())
}
