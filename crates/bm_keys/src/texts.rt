//! The text of a label, in memory that is taken at once.

ghost use Rattle.std.specs.Prelude.{◌≡◌, ◌++◌, ◌∷◌, IfOk, OnOk};
ghost use Rattle.spec_bitcoin.specs.Keys as spec;
ghost use Rattle.spec_bitcoin.specs.declared.label.Label.TheVariants.{Deposit, Branch};

use bm_text::put_decimal;
use spec_bitcoin::Label;
use spec_data::{Name, OutOfMemory};
use spec_terms::PathStep;
use std::alloc::Global;

// Room for the label of a branch that isn't deep; a longer text takes more.
const ROOM: usize = 32;

// Writes a step of a path.
fn put_step(alloc: Global, out: &mut Vec<u8>, step: &PathStep) -> Result<(), OutOfMemory>
    ensures { OnOk result (out.new.items ≡ out.old.items ++ spec.step_text step.now) }
{
    match step {
        PathStep::Branch(number) => {
            out.push(b'.')?;
            put_decimal(alloc, out, *number as u64)
        }
        PathStep::Part(number) => {
            out.push(b'/')?;
            put_decimal(alloc, out, *number as u64)
        }
    }
}

/// Writes a path, from the root on.
pub fn put_path(alloc: Global, out: &mut Vec<u8>, steps: &[PathStep]) -> Result<(), OutOfMemory>
    ensures { OnOk result (out.new.items ≡ out.old.items ++ spec.path_text steps.now) }
{
    out.push(b'r')?;
    for step in steps {
        put_step(alloc, out, step)?;
    }
    Ok(())
}

#[tactic(auto, unfolding(spec_bitcoin::specs::Keys::label_text))]
fn put_deposit(out: &mut Vec<u8>, party: &[u8]) -> Result<(), OutOfMemory>
    ensures { OnOk result (out.new.items ≡ out.old.items ++ spec.label_text (Deposit party.now)) }
{
    out.extend_from_slice(b"D:")?;
    out.extend_from_slice(party)
}

#[tactic(auto, unfolding(spec_bitcoin::specs::Keys::label_text))]
fn put_branch(
    alloc: Global,
    out: &mut Vec<u8>,
    contract: u32,
    steps: &[PathStep],
    party: &Name,
) -> Result<(), OutOfMemory>
    ensures { OnOk result (out.new.items ≡ out.old.items ++ spec.label_text (Branch contract steps.now party.now)) }
{
    out.extend_from_slice(b"B:")?;
    put_decimal(alloc, out, contract as u64)?;
    out.push(b':')?;
    put_path(alloc, out, steps)?;
    out.push(b':')?;
    out.extend_from_slice(party.bytes())
}

/// Writes the text of a label: `D:` and the party; or `B:`, the contract's number, `:`, the path, `:` and the party.
pub fn put_label(alloc: Global, out: &mut Vec<u8>, label: &Label) -> Result<(), OutOfMemory>
    ensures { OnOk result (out.new.items ≡ out.old.items ++ spec.label_text label.now) }
{
    match label {
        Label::Deposit { party } => put_deposit(out, party.bytes()),
        Label::Branch {
            contract,
            path,
            party,
        } => put_branch(alloc, out, *contract, path.steps(), party),
    }
}

/// The text of the label of a party's deposits.
pub fn deposit_text(alloc: Global, party: &[u8]) -> Result<Vec<u8>, OutOfMemory>
    ensures { IfOk result (λ text. text.items ≡ spec.label_text (Deposit party.now)) }
{
    let mut out = Vec::with_capacity(alloc, ROOM)?;
    put_deposit(&mut out, party)?;
    Ok(out)
}

/// The text of a label.
pub fn label_text(alloc: Global, label: &Label) -> Result<Vec<u8>, OutOfMemory>
    ensures { IfOk result (λ text. text.items ≡ spec.label_text label.now) }
{
    let mut out = Vec::with_capacity(alloc, ROOM)?;
    put_label(alloc, &mut out, label)?;
    Ok(out)
}

/// The text of a label behind this byte.
pub fn label_behind(alloc: Global, first: u8, label: &Label) -> Result<Vec<u8>, OutOfMemory>
    ensures { IfOk result (λ text. text.items ≡ first ∷ spec.label_text label.now) }
{
    let mut out = Vec::with_capacity(alloc, ROOM)?;
    out.push(first)?;
    put_label(alloc, &mut out, label)?;
    Ok(out)
}
