//! What `fund` prints.

ghost use Rattle.std.specs.Prelude.{◌≡◌, ◌++◌, filter, flat_map, option_map, reverse, IfOk, OnOk};
ghost use Rattle.spec_data.specs.Digits.{hex_text};
ghost use Rattle.spec_data.specs.Lists.{is_among};
ghost use Rattle.spec_terms.specs.Precondition.{deposits as deposits_of, holding};
ghost use Rattle.spec_deal.specs.FundText as spec;
ghost use Rattle.deal_fund.specs.Told as told;

use crate::outputs::put_own_or_key;
use bm_hash::Hash32;
use bm_text::{put, put_decimal, put_hex};
use bm_wellformed::Checked;
use deal_file::Part;
use deal_payees::{all_paid, is_paid};
use spec_bitcoin::OutPoint;
use spec_data::{Name, OutOfMemory};
use spec_terms::Pre;
use std::alloc::Global;

// ---- deposits

// A txid as it is shown, the last byte first.
fn put_txid(alloc: Global, out: &mut Vec<u8>, txid: &[u8; 32]) -> Result<(), OutOfMemory>
    ensures { OnOk result (out.new.items ≡ out.old.items ++ hex_text (reverse txid.now)) }
{
    let mut shown = *txid;
    shown.reverse();
    put_hex(alloc, out, &shown)
}

// Where a deposit lies, or two blanks.
#[tactic(auto, using(std::proofs::Common::append_assoc))]
fn put_place(alloc: Global, out: &mut Vec<u8>, place: &Option<OutPoint>) -> Result<(), OutOfMemory>
    ensures { OnOk result (out.new.items ≡ out.old.items ++ told.place_text place.now) }
{
    match place {
        Some(place) => {
            put_txid(alloc, out, &place.txid)?;
            put(out, b" ")?;
            put_decimal(alloc, out, place.vout as u64)
        }
        None => put(out, b".. .."),
    }
}

// `deposit NAME TXID VOUT VALUE`, with a space behind.
#[tactic(auto, using(std::proofs::Common::append_assoc))]
fn put_holding(
    alloc: Global,
    out: &mut Vec<u8>,
    part: &Part,
    name: &Name,
    value: u64,
) -> Result<(), OutOfMemory>
    ensures { OnOk result (out.new.items ≡ out.old.items ++ told.holding_text part.now name.now value) }
{
    put(out, b"deposit ")?;
    put(out, name.bytes())?;
    put(out, b" ")?;
    put_place(alloc, out, &part.place_of(alloc, name)?)?;
    put(out, b" ")?;
    put_decimal(alloc, out, value)?;
    put(out, b" ")
}

// `deposit NAME TXID VOUT VALUE SCRIPT`, and the script's address.
#[tactic(auto, using(std::proofs::Common::append_assoc))]
fn put_deposit<H: Hash32>(
    alloc: Global,
    hasher: &H,
    out: &mut Vec<u8>,
    part: &Part,
    network: Option<&Name>,
    name: &Name,
    owner: &Name,
    value: u64,
) -> Result<(), OutOfMemory>
    ensures { OnOk result (out.new.items ≡ out.old.items
        ++ told.deposit_text (H.digest_of hasher.now) (option_map (λ n. n.now) network.entry) part.now (name.now, holding owner.now value)) }
{
    put_holding(alloc, out, part, name, value)?;
    let own = part.wallet_of(alloc, name)?;
    put_own_or_key(alloc, hasher, out, part, network, own, owner)?;
    put(out, b"\n")
}

// The line of each deposit of a precondition, in order.
fn put_deposits<H: Hash32>(
    alloc: Global,
    hasher: &H,
    out: &mut Vec<u8>,
    part: &Part,
    network: Option<&Name>,
    pre: &[Pre],
) -> Result<(), OutOfMemory>
    ensures { OnOk result (out.new.items ≡ out.old.items
        ++ flat_map (told.deposit_text (H.digest_of hasher.now) (option_map (λ n. n.now) network.entry) part.now) (deposits_of pre.now)) }
{
    for entry in pre {
        match entry {
            Pre::Persistent { party, value, name } => {
                put_deposit(alloc, hasher, out, part, network, name, party, *value)?
            }
            Pre::Volatile { party, value, name } => {
                put_deposit(alloc, hasher, out, part, network, name, party, *value)?
            }
            Pre::Secret { .. } => {}
        }
    }
    Ok(())
}

// ---- payees

// `pay A SCRIPT`, and the script's address.
#[tactic(auto, using(std::proofs::Common::append_assoc))]
fn put_payee<H: Hash32>(
    alloc: Global,
    hasher: &H,
    out: &mut Vec<u8>,
    part: &Part,
    network: Option<&Name>,
    party: &Name,
) -> Result<(), OutOfMemory>
    ensures { OnOk result (out.new.items ≡ out.old.items
        ++ told.payee_text (H.digest_of hasher.now) (option_map (λ n. n.now) network.entry) part.now party.now) }
{
    put(out, b"pay ")?;
    put(out, party.bytes())?;
    put(out, b" ")?;
    let own = part.payee_of(alloc, party)?;
    put_own_or_key(alloc, hasher, out, part, network, own, party)?;
    put(out, b"\n")
}

// The line of each of these parties that is among those who are paid.
fn put_payees<H: Hash32>(
    alloc: Global,
    hasher: &H,
    out: &mut Vec<u8>,
    part: &Part,
    network: Option<&Name>,
    paid: &[Name],
    parties: &[Name],
) -> Result<(), OutOfMemory>
    ensures { OnOk result (out.new.items ≡ out.old.items
        ++ flat_map (told.payee_text (H.digest_of hasher.now) (option_map (λ n. n.now) network.entry) part.now)
        (filter (λ party. is_among party paid.now) parties.now)) }
{
    for party in parties {
        if is_paid(paid, party) {
            put_payee(alloc, hasher, out, part, network, party)?;
        }
    }
    Ok(())
}

// ---- all

#[tactic(auto, using(std::proofs::Common::append_assoc))]
fn put_all<H: Hash32>(
    alloc: Global,
    hasher: &H,
    out: &mut Vec<u8>,
    checked: &Checked,
    part: &Part,
    network: Option<&Name>,
) -> Result<(), OutOfMemory>
    ensures { OnOk result (out.new.items ≡ out.old.items
        ++ told.fund_by (H.digest_of hasher.now) (option_map (λ n. n.now) network.entry) checked.now part.now) }
{
    let paid = all_paid(alloc, checked)?;
    put_deposits(alloc, hasher, out, part, network, &checked.advert().pre)?;
    put_payees(alloc, hasher, out, part, network, &paid, checked.parties())
}

// With the addresses of the network that the file names.
fn told<H: Hash32>(
    alloc: Global,
    hasher: &H,
    checked: &Checked,
    part: &Part,
) -> Result<Vec<u8>, OutOfMemory>
    ensures { IfOk result (λ text. text.items
        ≡ told.fund_by (H.digest_of hasher.now) (spec.shown_network part.now) checked.now part.now) }
{
    let network = part.network(alloc)?;
    let mut out = Vec::new(alloc);
    put_all(alloc, hasher, &mut out, checked, part, network.as_ref())?;
    Ok(out)
}

/// Each deposit of a contract with its place, its value and the output script that it has or has to get, and then each party whom a
/// branch pays with the output script where it is paid, as far as the file gives them; a blank stands for what it doesn't give.
#[tactic(auto, using(crate::proofs::FundTold::fund_told))]
pub fn fund_text<H: Hash32>(
    alloc: Global,
    hasher: &H,
    checked: &Checked,
    part: &Part,
) -> Result<Vec<u8>, OutOfMemory>
    ensures { IfOk result (λ text. text.items ≡ spec.fund_text (H.digest_of hasher.now) checked.now part.now) }
{
    told(alloc, hasher, checked, part)
}
