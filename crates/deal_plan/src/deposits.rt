//! The lines of deposits.

ghost use Rattle.std.specs.Prelude.{◌≡◌, ◌++◌, true, is_some, option_map, flat_map, OnOk};
ghost use Rattle.std.specs.List.{list_all};
ghost use Rattle.spec_data.specs.Lists.{look_up};
ghost use Rattle.spec_terms.specs.Precondition.{deposits as deposits_of, holding};
ghost use Rattle.deal_plan.specs.Parts as spec;

use crate::outputs::{own_script, put_own_or_key};
use crate::transactions::put_txid;
use bm_hash::Hash32;
use bm_text::{put, put_decimal};
use bm_wellformed::Checked;
use spec_bitcoin::OutPoint;
use spec_data::{Name, OutOfMemory};
use spec_deal::Deal;
use spec_terms::Pre;
use std::alloc::Global;

// Where the deposit of this name lies, where a place was given.
fn place_of<'a>(bound: &'a [(Name, OutPoint)], name: &Name) -> Option<&'a OutPoint>
    ensures { option_map (λ p. p.now) result ≡ look_up name.now bound.now }
{
    for (known, place) in bound {
        if *known == *name {
            return Some(place);
        }
    }
    None
}

// `deposit NAME TXID VOUT`, with a space behind.
#[tactic(auto, using(std::proofs::Common::append_assoc))]
fn put_place(
    alloc: Global,
    out: &mut Vec<u8>,
    name: &Name,
    place: &OutPoint,
) -> Result<(), OutOfMemory>
    ensures { OnOk result (out.new.items ≡ out.old.items ++ spec.place_text name.now place.now) }
{
    put(out, b"deposit ")?;
    put(out, name.bytes())?;
    put(out, b" ")?;
    put_txid(alloc, out, &place.txid)?;
    put(out, b" ")?;
    put_decimal(alloc, out, place.vout as u64)?;
    put(out, b" ")
}

// `deposit NAME TXID VOUT VALUE SCRIPT`, where the last is the output script that has to stand at the place, with its address.
#[tactic(auto, using(std::proofs::Common::append_assoc))]
fn put_placed<H: Hash32>(
    alloc: Global,
    hasher: &H,
    out: &mut Vec<u8>,
    deal: &Deal,
    name: &Name,
    place: &OutPoint,
    owner: &Name,
    value: u64,
) -> Result<(), OutOfMemory>
    ensures { let own = look_up name.now deal.now.wallets in
        let shown = spec.shown_output (H.digest_of hasher.now) deal.now own (spec.key_script deal.now owner.now) in
        OnOk result (out.new.items ≡ out.old.items ++ spec.placed_parts name.now place.now value shown) }
{
    put_place(alloc, out, name, place)?;
    put_decimal(alloc, out, value)?;
    put(out, b" ")?;
    let own = own_script(deal.wallets.as_slice(), name);
    put_own_or_key(alloc, hasher, out, deal, own, owner)?;
    put(out, b"\n")
}

// The line of a deposit of this owner and value.
fn put_deposit<H: Hash32>(
    alloc: Global,
    hasher: &H,
    out: &mut Vec<u8>,
    deal: &Deal,
    name: &Name,
    owner: &Name,
    value: u64,
) -> Result<(), OutOfMemory>
    requires { is_some (look_up name.now deal.now.deposits) ≡ true }
    ensures { OnOk result (out.new.items ≡ out.old.items
        ++ spec.deposit_text (H.digest_of hasher.now) deal.now (name.now, holding owner.now value)) }
{
    let Some(place) = place_of(deal.deposits.as_slice(), name) else {
        unreachable!()
    };
    put_placed(alloc, hasher, out, deal, name, place, owner, value)
}

// The line of each deposit of a precondition, in order.
fn put_deposits<H: Hash32>(
    alloc: Global,
    hasher: &H,
    out: &mut Vec<u8>,
    deal: &Deal,
    pre: &[Pre],
) -> Result<(), OutOfMemory>
    requires { list_all (λ d. is_some (look_up d.0 deal.now.deposits)) (deposits_of pre.now) ≡ true }
    ensures { OnOk result (out.new.items ≡ out.old.items
        ++ flat_map (spec.deposit_text (H.digest_of hasher.now) deal.now) (deposits_of pre.now)) }
{
    for entry in pre {
        match entry {
            Pre::Persistent { party, value, name } => {
                put_deposit(alloc, hasher, out, deal, name, party, *value)?
            }
            Pre::Volatile { party, value, name } => {
                put_deposit(alloc, hasher, out, deal, name, party, *value)?
            }
            Pre::Secret { .. } => {}
        }
    }
    Ok(())
}

// The entries of a precondition.
fn pre_of(checked: &Checked) -> &[Pre]
    ensures { result.now ≡ checked.now.pre }
{
    &checked.advert().pre
}

/// The line of each deposit of a deal, in order.
pub(crate) fn put_all<H: Hash32>(
    alloc: Global,
    hasher: &H,
    out: &mut Vec<u8>,
    checked: &Checked,
    deal: &Deal,
) -> Result<(), OutOfMemory>
    requires { list_all (λ d. is_some (look_up d.0 deal.now.deposits)) (deposits_of checked.now.pre) ≡ true }
    ensures { OnOk result (out.new.items ≡ out.old.items
        ++ flat_map (spec.deposit_text (H.digest_of hasher.now) deal.now) (deposits_of checked.now.pre)) }
{
    put_deposits(alloc, hasher, out, deal, pre_of(checked))
}
