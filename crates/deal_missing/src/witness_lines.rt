//! The lines of wallets' witnesses.

ghost use Rattle.std.specs.Prelude.{◌≡◌, ◌++◌, OnOk};
ghost use Rattle.spec_deal.specs.DealText.{item_word};
ghost use Rattle.deal_missing.specs.Required as spec;

use crate::lines::{put_held, put_requirement};
use crate::requirements::Wanted;
use bm_text::{put, put_hex};
use deal_payees::pays_to_key_hash;
use deal_signatures::{first_item, second_item};
use spec_data::{Bytes, OutOfMemory};
use spec_deal::Wallet;
use std::alloc::Global;

// An item of a witness; `-` for one of no bytes.
fn put_item(alloc: Global, out: &mut Vec<u8>, item: &[u8]) -> Result<(), OutOfMemory>
    ensures { OnOk result (out.new.items ≡ out.old.items ++ item_word item.now) }
{
    match item {
        [] => put(out, b"-"),
        [_, ..] => put_hex(alloc, out, item),
    }
}

// The items in order, each behind a space.
#[tactic(auto, using(std::proofs::Common::append_assoc))]
fn put_items(alloc: Global, out: &mut Vec<u8>, items: &[Bytes]) -> Result<(), OutOfMemory>
    ensures { OnOk result (out.new.items ≡ out.old.items ++ spec.items_text items.now) }
{
    for item in items {
        put(out, b" ")?;
        put_item(alloc, out, item.as_slice())?;
    }
    Ok(())
}

// `witness WHICH k LABEL VERB` and the items.
fn put_listed(
    alloc: Global,
    out: &mut Vec<u8>,
    requirement: &Wanted,
    items: &[Bytes],
) -> Result<(), OutOfMemory>
    ensures { OnOk result (out.new.items ≡ out.old.items ++ spec.items_line (spec.wanted_in requirement.now) items.now) }
{
    put(out, b"witness ")?;
    put_requirement(alloc, out, requirement)?;
    put_items(alloc, out, items)?;
    put(out, b"\n")
}

/// A wallet's witness: by a key's hash its key, the digest and its signature, else its items.
pub(crate) fn put_witness(
    alloc: Global,
    out: &mut Vec<u8>,
    requirement: &Wanted,
    wallet: &Wallet,
    items: &[Bytes],
) -> Result<(), OutOfMemory>
    ensures { OnOk result (out.new.items ≡ out.old.items ++ spec.witness_line (spec.wanted_in requirement.now) wallet.now items.now) }
{
    if pays_to_key_hash(wallet.script.as_slice()) {
        let (key, signature) = (second_item(items), first_item(items));
        return put_held(alloc, out, requirement, key, signature);
    }
    put_listed(alloc, out, requirement, items)
}
