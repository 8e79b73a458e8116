//! Deposits that the deal itself would make, and participants who would be paid at its own positions.

ghost use Rattle.std.specs.Prelude.{◌≡◌, ◌++◌, ◌∷◌, [], map, option_map, IfOk, OnOk};
ghost use Rattle.std.specs.List.{list_any};
ghost use Rattle.std.specs.Str.{bytes_eq};
ghost use Rattle.spec_data.specs.Lists.{or_else};
ghost use Rattle.spec_terms.specs.Parties.{participants};
ghost use Rattle.spec_bitcoin.specs.Keys.{pay_to as output_of};
ghost use Rattle.spec_compiler.specs.Keyed.Compilation.{scripts as scripts_of};
ghost use Rattle.spec_deal.specs.Answers.{circular as circular_of};
ghost use Rattle.spec_deal.specs.Setting.{deal_keys, deal_instance};
ghost use Rattle.spec_deal.specs.Transactions.{transactions as transactions_of};
ghost use Rattle.deal_compile.specs.Circles.{output_in};
ghost use Rattle.deal_compile.specs.Keyed.{script_pair};
ghost use Rattle.deal_compile.specs.Parts as spec;

use crate::compiling::CompiledDeal;
use crate::keys::{OwnScript, named_scripts, script_under};
use bm_hash::Hash32;
use bm_keys::pay_to;
use bm_syntax::Path;
use bm_wellformed::Checked;
use deal_index::{Indexed, Keyed};
use spec_bitcoin::OutPoint;
use spec_data::{Bytes, Name, OutOfMemory};
use spec_deal::{Deal, Transaction};
use std::alloc::Global;

// Whether one of these transactions makes the output at this place.
fn is_made(transactions: &[Transaction], place: &OutPoint) -> bool
    ensures { result ≡ spec.is_made_by transactions.now place.now }
{
    for transaction in transactions {
        if transaction.txid == place.txid {
            return true;
        }
    }
    false
}

// The first of these deposits that one of the transactions would make.
fn first_made<'a>(bound: &'a [(Name, OutPoint)], transactions: &[Transaction]) -> Option<&'a Name>
    ensures { option_map (λ name. name.now) result ≡ spec.first_made bound.now transactions.now }
{
    for (name, place) in bound {
        if is_made(transactions, place) {
            return Some(name);
        }
    }
    None
}

// ---- who is paid

/// The output script of a position, which it is found by.
pub struct PositionOutput {
    pub script: [u8; 34],
}

impl Drop for PositionOutput {
    fn drop(self) {
        let PositionOutput { script: _ } = self;
    }
}

impl Keyed for PositionOutput {
    ghost use Rattle.std.specs.Prelude.{true};

    ghost key_of = { λ output. output.script };

    ghost is_sized = { λ output. true };
}

// One more position's.
fn put_output<H: Hash32>(
    alloc: Global,
    hasher: &H,
    outputs: &mut Indexed<PositionOutput>,
    script: &Bytes,
) -> Result<(), OutOfMemory>
    ensures { OnOk result (map output_in outputs.new ≡ map output_in outputs.old ++ output_of (H.digest_of hasher.now script.now) ∷ []) }
{
    let output = PositionOutput {
        script: pay_to(&hasher.hash32(script.as_slice())),
    };
    let found_by = Vec::from_slice(alloc, &output.script)?;
    outputs.push(output, found_by)
}

// Those of the positions with these scripts.
fn outputs_for<H: Hash32>(
    alloc: Global,
    hasher: &H,
    scripts: &[(Path, Bytes)],
) -> Result<Indexed<PositionOutput>, OutOfMemory>
    ensures { IfOk result (λ outputs. map output_in outputs ≡ map (λ p. output_of (H.digest_of hasher.now (p.1))) scripts.now) }
{
    let mut outputs = Indexed::new(alloc);
    for entry in scripts {
        put_output(alloc, hasher, &mut outputs, &entry.1)?;
    }
    Ok(outputs)
}

// Whether one of these is this script.
fn is_output(outputs: &Indexed<PositionOutput>, script: &[u8]) -> bool
    ensures { result ≡ list_any (λ output. bytes_eq output script.now) (map output_in outputs.now) }
{
    match outputs.find(script) {
        Some(_) => true,
        None => false,
    }
}

// Whether the party gave a script that is one of these.
fn is_paid_at(outputs: &Indexed<PositionOutput>, payees: &Indexed<OwnScript>, party: &Name) -> bool
    ensures { result ≡ spec.is_paid_at (map output_in outputs.now) (map script_pair payees.now) party.now }
{
    match script_under(payees, party.bytes()) {
        Some(script) => is_output(outputs, script),
        None => false,
    }
}

// The first of these parties that did.
fn first_paid<'a>(
    outputs: &Indexed<PositionOutput>,
    payees: &Indexed<OwnScript>,
    parties: &'a [Name],
) -> Option<&'a Name>
    ensures { option_map (λ name. name.now) result
        ≡ spec.first_paid (map output_in outputs.now) (map script_pair payees.now) parties.now }
{
    for party in parties {
        if is_paid_at(outputs, payees, party) {
            return Some(party);
        }
    }
    None
}

// The first of these parties that would be paid at a position with one of these scripts. Nothing is hashed where nobody gave a script.
fn paid_here<H: Hash32>(
    alloc: Global,
    hasher: &H,
    parties: &[Name],
    payees: &[(Name, Bytes)],
    scripts: &[(Path, Bytes)],
) -> Result<Option<Name>, OutOfMemory>
    ensures { let outputs = map (λ p. output_of (H.digest_of hasher.now (p.1))) scripts.now in
        IfOk result (λ name. name ≡ spec.first_paid outputs payees.now parties.now) }
{
    if payees.is_empty() {
        return Ok(None);
    }
    let outputs = outputs_for(alloc, hasher, scripts)?;
    let payees = named_scripts(alloc, payees)?;
    Ok(first_paid(&outputs, &payees, parties).copied())
}

// ---- both

// The first deposit that one of these transactions makes, or else who is paid at a position.
fn first_circle<H: Hash32>(
    alloc: Global,
    hasher: &H,
    checked: &Checked,
    deal: &Deal,
    compiled: &CompiledDeal,
) -> Result<Option<Name>, OutOfMemory>
    ensures { let outputs = map (λ p. output_of (H.digest_of hasher.now (p.1))) compiled.now.scripts in
        IfOk result (λ name. name ≡ or_else (spec.first_made deal.now.deposits compiled.now.transactions)
        (spec.first_paid outputs deal.now.payees (participants checked.now))) }
{
    let transactions = compiled.transactions.as_slice();
    match first_made(deal.deposits.as_slice(), transactions) {
        Some(name) => Ok(Some(*name)),
        None => paid_here(
            alloc,
            hasher,
            checked.parties(),
            deal.payees.as_slice(),
            compiled.scripts.as_slice(),
        ),
    }
}

/// The first deposit of a deal that would be made by one of the deal's own transactions, or else the first participant that gave the
/// output script of one of its positions as where it is paid.
pub fn circular<H: Hash32>(
    alloc: Global,
    hasher: &H,
    checked: &Checked,
    deal: &Deal,
    compiled: &CompiledDeal,
) -> Result<Option<Name>, OutOfMemory>
    ensures { let hash = H.digest_of hasher.now in
        compiled.now.transactions ≡ transactions_of hash (deal_keys deal.now) (deal_instance checked.now deal.now)
        → compiled.now.scripts ≡ scripts_of hash (deal_keys deal.now) (deal_instance checked.now deal.now)
        → IfOk result (λ name. name ≡ circular_of hash (deal_keys deal.now) (deal_instance checked.now deal.now)) }
{
    first_circle(alloc, hasher, checked, deal, compiled)
}
