//! Output scripts, as far as a file gives what they are made of.

ghost use Rattle.std.specs.Prelude.{◌≡◌, ◌++◌, option_map, IfOk, OnOk};
ghost use Rattle.spec_data.specs.Lists.{or_else};
ghost use Rattle.spec_deal.specs.FundText as spec;
ghost use Rattle.deal_fund.specs.Told as told;

use bm_hash::Hash32;
use bm_keys::{deposit_script, pay_to};
use bm_text::put;
use deal_file::Part;
use deal_payees::put_output;
use spec_data::{Name, OutOfMemory};
use std::alloc::Global;

// The output script of a party's deposits, where its key is given.
fn key_output<H: Hash32>(
    alloc: Global,
    hasher: &H,
    part: &Part,
    party: &Name,
) -> Result<Option<[u8; 34]>, OutOfMemory>
    ensures { IfOk result (λ o. o ≡ spec.key_output (H.digest_of hasher.now) part.now party.now) }
{
    match part.key_of(alloc, party)? {
        Some(key) => Ok(Some(pay_to(&hasher.hash32(&deposit_script(&key))))),
        None => Ok(None),
    }
}

// An output script and its address, or a blank.
fn put_known(
    alloc: Global,
    out: &mut Vec<u8>,
    network: Option<&Name>,
    script: Option<&[u8]>,
) -> Result<(), OutOfMemory>
    ensures { OnOk result (out.new.items ≡ out.old.items
        ++ told.shown_text (option_map (λ n. n.now) network.entry) (option_map (λ s. s.now) script.entry)) }
{
    match script {
        Some(script) => put_output(alloc, out, network, script),
        None => put(out, b".."),
    }
}

// The output of a party's deposits, or a blank.
fn put_key_output<H: Hash32>(
    alloc: Global,
    hasher: &H,
    out: &mut Vec<u8>,
    part: &Part,
    network: Option<&Name>,
    party: &Name,
) -> Result<(), OutOfMemory>
    ensures { OnOk result (out.new.items ≡ out.old.items
        ++ told.shown_text (option_map (λ n. n.now) network.entry) (spec.key_output (H.digest_of hasher.now) part.now party.now)) }
{
    match key_output(alloc, hasher, part, party)? {
        Some(script) => put_known(alloc, out, network, Some(&script)),
        None => put_known(alloc, out, network, None),
    }
}

/// A wallet's own output script, else that of a party's deposits, or a blank.
pub(crate) fn put_own_or_key<H: Hash32>(
    alloc: Global,
    hasher: &H,
    out: &mut Vec<u8>,
    part: &Part,
    network: Option<&Name>,
    own: Option<&[u8]>,
    party: &Name,
) -> Result<(), OutOfMemory>
    ensures { OnOk result (out.new.items ≡ out.old.items ++ told.shown_text (option_map (λ n. n.now) network.entry)
        (or_else (option_map (λ s. s.now) own.entry) (spec.key_output (H.digest_of hasher.now) part.now party.now))) }
{
    match own {
        Some(script) => put_known(alloc, out, network, Some(script)),
        None => put_key_output(alloc, hasher, out, part, network, party),
    }
}
