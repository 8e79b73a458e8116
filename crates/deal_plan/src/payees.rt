//! The lines of those whom a contract pays.

ghost use Rattle.std.specs.Prelude.{◌≡◌, ◌++◌, filter, flat_map, OnOk};
ghost use Rattle.spec_data.specs.Lists.{is_among};
ghost use Rattle.spec_deal.specs.DealText.{is_plain as is_plain_of};
ghost use Rattle.spec_deal.specs.Setting.{deal_keys};
ghost use Rattle.spec_deal.specs.Used.{paid_parties};
ghost use Rattle.deal_plan.specs.Parts as spec;

use crate::outputs::{own_script, put_own_or_key};
use bm_hash::Hash32;
use bm_text::put;
use bm_wellformed::Checked;
use deal_payees::{all_paid, is_paid};
use spec_data::{Name, OutOfMemory};
use spec_deal::Deal;
use std::alloc::Global;

// Whether the file of a deal gave keys, places and hashes alone.
fn is_plain(deal: &Deal) -> bool
    ensures { result ≡ is_plain_of deal.now.network (deal_keys deal.now) }
{
    deal.network.is_none() && deal.wallets.is_empty() && deal.payees.is_empty()
}

// `pay PARTY SCRIPT`, where the last is the output script that the party is paid at, with its address.
#[tactic(auto, using(std::proofs::Common::append_assoc))]
fn put_payee<H: Hash32>(
    alloc: Global,
    hasher: &H,
    out: &mut Vec<u8>,
    deal: &Deal,
    party: &Name,
) -> Result<(), OutOfMemory>
    ensures { OnOk result (out.new.items ≡ out.old.items ++ spec.payee_text (H.digest_of hasher.now) deal.now party.now) }
{
    put(out, b"pay ")?;
    put(out, party.bytes())?;
    put(out, b" ")?;
    let own = own_script(deal.payees.as_slice(), party);
    put_own_or_key(alloc, hasher, out, deal, own, party)?;
    put(out, b"\n")
}

// The line of each of these parties that is paid.
fn put_paid<H: Hash32>(
    alloc: Global,
    hasher: &H,
    out: &mut Vec<u8>,
    deal: &Deal,
    paid: &[Name],
    parties: &[Name],
) -> Result<(), OutOfMemory>
    ensures { OnOk result (out.new.items ≡ out.old.items
        ++ flat_map (spec.payee_text (H.digest_of hasher.now) deal.now) (filter (λ party. is_among party paid.now) parties.now)) }
{
    for party in parties {
        if is_paid(paid, party) {
            put_payee(alloc, hasher, out, deal, party)?;
        }
    }
    Ok(())
}

// The line of each party whom the contract pays.
fn put_all_paid<H: Hash32>(
    alloc: Global,
    hasher: &H,
    out: &mut Vec<u8>,
    checked: &Checked,
    deal: &Deal,
) -> Result<(), OutOfMemory>
    ensures { OnOk result (out.new.items ≡ out.old.items
        ++ flat_map (spec.payee_text (H.digest_of hasher.now) deal.now) (paid_parties checked.now)) }
{
    let paid = all_paid(alloc, checked)?;
    put_paid(alloc, hasher, out, deal, &paid, checked.parties())
}

/// The line of each party whom the contract pays, in order; none of a deal whose file gave keys, places and hashes alone.
pub(crate) fn put_payees<H: Hash32>(
    alloc: Global,
    hasher: &H,
    out: &mut Vec<u8>,
    checked: &Checked,
    deal: &Deal,
) -> Result<(), OutOfMemory>
    ensures { OnOk result (out.new.items ≡ out.old.items ++ spec.payees_text (H.digest_of hasher.now) deal.now checked.now) }
{
    if is_plain(deal) {
        Ok(())
    } else {
        put_all_paid(alloc, hasher, out, checked, deal)
    }
}
