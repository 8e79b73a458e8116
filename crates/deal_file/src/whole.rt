//! The deal of all that the lines of a file give.

ghost use Rattle.std.specs.Prelude.{◌≡◌, ◌++◌, map, option_map, Ok, IfOk, OnOk};
ghost use Rattle.spec_terms.specs.Precondition.{names_of};
ghost use Rattle.spec_deal.specs.Needed as spec_needs;
ghost use Rattle.spec_deal.specs.DealFile as spec;
ghost use Rattle.spec_deal.specs.Setting.{own_scripts};
ghost use Rattle.spec_deal.specs.Used.{choice_paid};
ghost use Rattle.deal_file.specs.Building as building;
ghost use Rattle.deal_file.specs.Entries.{needed_in, told};
ghost use Rattle.deal_file.specs.Gives.{Gives};

use crate::entries::Entries;
use crate::error::DealError;
use crate::keying::{Need, kind_and, need_key};
use crate::own::{payees_of, wallets_of};
use crate::used::is_used;
use crate::values::{hash_in, key_in, network_in, place_in};
use bm_wellformed::Checked;
use deal_payees::{all_paid, brought_names};
use spec_bitcoin::{Label, OutPoint};
use spec_data::{Name, OutOfMemory, Seq};
use spec_deal::{Deal, DealFault, Needed, Value};
use std::alloc::Global;

// The place of a deposit, and one of zeros without one.
fn place_or_none(value: Option<&Value>) -> OutPoint
    ensures { result ≡ spec.place_or_none (option_map (λ v. v.now) value.entry) }
{
    match place_in(value) {
        Some(outpoint) => outpoint,
        None => OutPoint {
            txid: [0; 32],
            vout: 0,
        },
    }
}

// A label with its key, if there is one.
fn put_key(
    alloc: Global,
    keys: &mut Seq<(Label, [u8; 33])>,
    label: &Label,
    value: Option<&Value>,
) -> Result<(), OutOfMemory>
    ensures { OnOk result (keys.new ≡ keys.old ++ spec.with_key label.now (option_map (λ v. v.now) value.entry)) }
{
    match key_in(value) {
        Some(key) => keys.push((label.copy(alloc)?, key)),
        None => Ok(()),
    }
}

// Adds to a deal what is given to what is needed.
fn put_given(
    alloc: Global,
    deal: &mut Deal,
    needed: &Needed,
    value: Option<&Value>,
) -> Result<(), OutOfMemory>
    ensures { OnOk result (deal.new ≡ building.joined deal.old (building.deal_with needed.now (option_map (λ v. v.now) value.entry))) }
{
    match needed {
        Needed::Key(label) => put_key(alloc, &mut deal.keys, label, value),
        Needed::Deposit(name) => deal.deposits.push((*name, place_or_none(value))),
        Needed::Hash(name) => deal.hashes.push((*name, hash_in(value))),
        Needed::Network => Ok(()),
        Needed::Payee(_) => Ok(()),
    }
}

// What is given to what is needed is added to a deal; where nothing is and the deal uses it, it is missing.
fn take_given(
    alloc: Global,
    checked: &Checked,
    paid: &[Name],
    brought: &[Name],
    deal: &mut Deal,
    needed: &Needed,
    value: Option<&Value>,
) -> Result<(), DealError>
    requires paid { paid.now ≡ choice_paid checked.now.root }
    requires brought { brought.now ≡ names_of deal.old.wallets }
    ensures given { OnOk result (deal.new ≡ building.joined deal.old (building.deal_with needed.now (option_map (λ v. v.now) value.entry))) }
    ensures there { building.IsThere result needed.now
        (building.is_absent (own_scripts deal.old) checked.now needed.now (option_map (λ v. v.now) value.entry)) }
{
    if value.is_none() && is_used(checked, paid, brought, deal, needed) {
        return Err(DealError::Refused(DealFault::Missing(needed.copy(alloc)?)));
    }
    put_given(alloc, deal, needed, value)?;
    Ok(())
}

// What the entries give to one need.
fn take_need(
    alloc: Global,
    checked: &Checked,
    paid: &[Name],
    brought: &[Name],
    deal: &mut Deal,
    entries: &Entries,
    need: &Need,
) -> Result<(), DealError>
    requires paid { paid.now ≡ choice_paid checked.now.root }
    requires brought { brought.now ≡ names_of deal.old.wallets }
    ensures given { OnOk result (deal.new ≡ building.joined deal.old (building.given_to (told entries.now) need.now.needed)) }
    ensures there { building.IsThere result need.now.needed
        (building.is_absent (own_scripts deal.old) checked.now need.now.needed (spec.value_for (told entries.now) need.now.needed)) }
{
    let key = need_key(alloc, &need.needed)?;
    take_given(
        alloc,
        checked,
        paid,
        brought,
        deal,
        &need.needed,
        entries.value_for(&key),
    )
}

/// A deal of the network and the scripts of wallets that the entries give, before all that is needed.
pub(crate) fn own_deal(
    alloc: Global,
    checked: &Checked,
    entries: &Entries,
) -> Result<Deal, OutOfMemory>
    ensures { IfOk result (λ deal. deal ≡ building.own_deal checked.now (told entries.now)) }
{
    let key = kind_and(alloc, b'N', &[])?;
    Ok(Deal {
        keys: Seq::new(alloc),
        deposits: Seq::new(alloc),
        hashes: Seq::new(alloc),
        network: network_in(entries.value_for(&key)),
        wallets: wallets_of(alloc, entries, &checked.advert().pre)?,
        payees: payees_of(alloc, entries, checked.parties())?,
    })
}

// What the entries give to these needs, behind what a deal has.
fn with_needs(
    alloc: Global,
    checked: &Checked,
    paid: &[Name],
    brought: &[Name],
    start: Deal,
    needs: &[Need],
    entries: &Entries,
) -> Result<Deal, DealError>
    requires paid { paid.now ≡ choice_paid checked.now.root }
    requires brought { brought.now ≡ names_of start.wallets }
    ensures { Gives (λ d. d) result (building.onto_deal start
        (building.whole (own_scripts start) checked.now (told entries.now) (map needed_in needs.now))) }
{
    let mut deal = start;
    for need in needs {
        take_need(alloc, checked, paid, brought, &mut deal, entries, need)?;
    }
    Ok(deal)
}

/// The deal of all entries, if nothing is missing.
pub(crate) fn whole_deal(
    alloc: Global,
    checked: &Checked,
    needs: &[Need],
    entries: &Entries,
) -> Result<Deal, DealError>
    requires needs { map needed_in needs.now ≡ spec_needs.needed checked.now }
    ensures { Gives (λ d. d) result (spec.deal_judged checked.now (Ok (told entries.now))) }
{
    let paid = all_paid(alloc, checked)?;
    let deal = own_deal(alloc, checked, entries)?;
    let brought = brought_names(alloc, deal.wallets.as_slice())?;
    with_needs(alloc, checked, &paid, &brought, deal, needs, entries)
}
