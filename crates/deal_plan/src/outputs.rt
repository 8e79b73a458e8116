//! Output scripts of a deal, as they are shown: a wallet's own, or that of a party's key of its deposits.

ghost use Rattle.std.specs.Prelude.{◌≡◌, ◌++◌, option_map, OnOk};
ghost use Rattle.spec_data.specs.Lists.{look_up};
ghost use Rattle.spec_bitcoin.specs.declared.label.Label.TheVariants.{Deposit};
ghost use Rattle.spec_deal.specs.Needed.{same_label};
ghost use Rattle.spec_deal.specs.Setting.{key_at};
ghost use Rattle.deal_payees.specs.Shown.{output_text};
ghost use Rattle.deal_plan.specs.Parts as spec;

use bm_hash::Hash32;
use bm_keys::{deposit_script, pay_to};
use deal_payees::put_output;
use spec_bitcoin::Label;
use spec_data::{Bytes, Name, OutOfMemory};
use spec_deal::Deal;
use std::alloc::Global;

/// The script that was given under this name, if one was.
pub(crate) fn own_script<'a>(scripts: &'a [(Name, Bytes)], name: &Name) -> Option<&'a Bytes>
    ensures { option_map (λ s. s.now) result ≡ look_up name.now scripts.now }
{
    for (known, script) in scripts {
        if *known == *name {
            return Some(script);
        }
    }
    None
}

// Whether a label is that of a party's deposits.
#[tactic(auto, unfolding(spec_bitcoin::specs::Keys::label_text))]
fn is_deposit_of(label: &Label, party: &Name) -> bool
    ensures { result ≡ same_label label.now (Deposit party.now) }
{
    match label {
        Label::Deposit { party: owner } => *owner == *party,
        Label::Branch { .. } => false,
    }
}

// A party's key of its deposits; one of zeros, which no wallet has, without one. The labels of deposits stand first.
fn party_key(keys: &[(Label, [u8; 33])], party: &Name) -> [u8; 33]
    ensures { result ≡ key_at keys.now (Deposit party.now) }
{
    for (label, key) in keys {
        if is_deposit_of(label, party) {
            return *key;
        }
    }
    [0; 33]
}

// The script of a party's deposits, by its key.
fn key_script(deal: &Deal, party: &Name) -> [u8; 35]
    ensures { result ≡ spec.key_script deal.now party.now }
{
    deposit_script(&party_key(deal.keys.as_slice(), party))
}

// Where the deal names a network, with the address.
fn put_shown(
    alloc: Global,
    out: &mut Vec<u8>,
    deal: &Deal,
    script: &[u8],
) -> Result<(), OutOfMemory>
    ensures { OnOk result (out.new.items ≡ out.old.items ++ output_text deal.now.network script.now) }
{
    match &deal.network {
        Some(hrp) => put_output(alloc, out, Some(hrp), script),
        None => put_output(alloc, out, None, script),
    }
}

/// A wallet's own output script, or without one that of the party's key of its deposits.
pub(crate) fn put_own_or_key<H: Hash32>(
    alloc: Global,
    hasher: &H,
    out: &mut Vec<u8>,
    deal: &Deal,
    own: Option<&Bytes>,
    party: &Name,
) -> Result<(), OutOfMemory>
    ensures { OnOk result (out.new.items ≡ out.old.items
        ++ spec.shown_output (H.digest_of hasher.now) deal.now (option_map (λ s. s.now) own.entry) (spec.key_script deal.now party.now)) }
{
    match own {
        Some(script) => put_shown(alloc, out, deal, script.as_slice()),
        None => {
            let program = hasher.hash32(&key_script(deal, party));
            put_shown(alloc, out, deal, &pay_to(&program))
        }
    }
}
