//! A whole deal.

ghost use Rattle.std.specs.Prelude.{◌≡◌, ◌∷◌, [], map, true, is_some, codes, IfOk};
ghost use Rattle.std.specs.List.{list_all};
ghost use Rattle.serde_json.specs.View.{view};
ghost use Rattle.spec_data.specs.Lists.{look_up};
ghost use Rattle.spec_terms.specs.Precondition.{deposits as deposits_of};
ghost use Rattle.spec_deal.specs.Setting.{deal_keys};
ghost use Rattle.spec_deal.specs.Used.{paid_parties};
ghost use Rattle.spec_json.specs.Values.{list_value as list_data};
ghost use Rattle.spec_show.specs.Objects.{object_of};
ghost use Rattle.spec_show.specs.ShownDeal.{payee_data};
ghost use Rattle.deal_compile.specs.Keyed.{keys_of};
ghost use Rattle.deal_show.specs.Showing as spec;

use crate::deposits::deposit_values;
use crate::payouts::payout_values;
use crate::transactions::transaction_values;
use crate::values::{list_value, optional_name};
use bm_hash::Hash32;
use bm_wellformed::Checked;
use deal_compile::DealKeys;
use serde_json::{Value, json};
use spec_data::OutOfMemory;
use spec_deal::{Deal, Transaction};
use spec_terms::Pre;
use std::alloc::Global;

// The entries of a precondition.
fn pre_of(checked: &Checked) -> &[Pre]
    ensures { result.now ≡ checked.now.pre }
{
    &checked.advert().pre
}

fn deposits_value<H: Hash32>(
    alloc: Global,
    hasher: &H,
    keys: &DealKeys,
    checked: &Checked,
    deal: &Deal,
) -> Result<Value, OutOfMemory>
    requires { list_all (λ d. is_some (look_up d.0 deal.now.deposits)) (deposits_of checked.now.pre) ≡ true }
    ensures { IfOk result (λ v. view v ≡ list_data (map (spec.deposit_by (H.digest_of hasher.now) deal.now.network
        (keys_of keys.now) deal.now.deposits) (deposits_of checked.now.pre))) }
{
    let pre = pre_of(checked);
    Ok(list_value(deposit_values(alloc, hasher, keys, deal, pre)?))
}

fn payouts_value<H: Hash32>(
    alloc: Global,
    hasher: &H,
    keys: &DealKeys,
    checked: &Checked,
    deal: &Deal,
) -> Result<Value, OutOfMemory>
    ensures { IfOk result (λ v. view v
        ≡ list_data (map (payee_data (H.digest_of hasher.now) deal.now.network (keys_of keys.now)) (paid_parties checked.now))) }
{
    let network = &deal.network;
    Ok(list_value(payout_values(alloc, hasher, keys, checked, network)?))
}

fn transactions_value(
    alloc: Global,
    checked: &Checked,
    deal: &Deal,
    transactions: &[Transaction],
) -> Result<Value, OutOfMemory>
    ensures { IfOk result (λ v. view v
        ≡ list_data (map (spec.transaction_by deal.now.network checked.now) transactions.now)) }
{
    let network = &deal.network;
    Ok(list_value(transaction_values(alloc, network, checked, transactions)?))
}

// A deal by its parts.
fn told_deal(
    alloc: Global,
    deposits: Value,
    network: Value,
    payouts: Value,
    transactions: Value,
) -> Result<Value, OutOfMemory>
    ensures { IfOk result (λ v. view v ≡ object_of ((codes "deposits", view deposits) ∷ (codes "network", view network)
        ∷ (codes "payouts", view payouts) ∷ (codes "transactions", view transactions) ∷ [])) }
{
    json!(in alloc; {
        "deposits": deposits,
        "network": network,
        "payouts": payouts,
        "transactions": transactions
    })
}

/// A deal with its transactions.
pub(crate) fn deal_value<H: Hash32>(
    alloc: Global,
    hasher: &H,
    checked: &Checked,
    deal: &Deal,
    transactions: &[Transaction],
) -> Result<Value, OutOfMemory>
    requires { list_all (λ d. is_some (look_up d.0 deal.now.deposits)) (deposits_of checked.now.pre) ≡ true }
    ensures { IfOk result (λ v. view v ≡ spec.deal_by (H.digest_of hasher.now) deal.now.network (deal_keys deal.now)
        deal.now.deposits checked.now transactions.now) }
{
    let keys = DealKeys::of(alloc, deal)?;
    let deposits = deposits_value(alloc, hasher, &keys, checked, deal)?;
    let network = optional_name(alloc, deal.network.as_ref())?;
    let payouts = payouts_value(alloc, hasher, &keys, checked, deal)?;
    let transactions = transactions_value(alloc, checked, deal, transactions)?;
    told_deal(alloc, deposits, network, payouts, transactions)
}
