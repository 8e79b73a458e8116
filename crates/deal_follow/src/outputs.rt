//! The outputs of a deal: its deposits, and what its transactions make.

ghost use Rattle.std.specs.Prelude.{◌≡◌, ◌+◌, ◌∷◌, [], IfOk};
ghost use Rattle.spec_data.specs.Lists.{look_up};
ghost use Rattle.spec_terms.specs.Paths.{at as branch_of};
ghost use Rattle.spec_deal.specs.Setting.{deal_instance};
ghost use Rattle.spec_terms.specs.Precondition.{deposits};
ghost use Rattle.spec_chain.specs.Outputs as spec;
ghost use Rattle.deal_follow.specs.Deposits.{deposit_by, deposits_by};
ghost use Rattle.bm_syntax.specs.View.{guarded, parts_view};

use bm_syntax::{Guarded, Part, at, core, longer};
use bm_wellformed::Checked;
use spec_bitcoin::{OutPoint, TxOut};
use spec_chain::{Held, Output};
use spec_data::{Name, OutOfMemory};
use spec_deal::{Deal, Transaction};
use spec_terms::{Path, PathStep, Pre};
use spec_tool::Which;
use std::alloc::{AllocError, Global};

/// The next number; one of more than 32 bits is taken for lack of memory.
pub(crate) fn next_number(number: u32) -> Result<u32, OutOfMemory>
    ensures { IfOk result (λ n. n ≡ number + 1) }
{
    if number == u32::MAX {
        return Err(AllocError);
    }
    Ok(number + 1)
}

// ---- copies

fn copy_held(alloc: Global, held: &Held) -> Result<Held, OutOfMemory>
    ensures { IfOk result (λ new. new ≡ held.now) }
{
    Ok(match held {
        Held::Deposit(name) => Held::Deposit(*name),
        Held::Position(path) => Held::Position(path.copy(alloc)?),
        Held::Payout(party) => Held::Payout(*party),
    })
}

/// An equal output.
pub(crate) fn copy_output(alloc: Global, output: &Output) -> Result<Output, OutOfMemory>
    ensures { IfOk result (λ new. new ≡ output.now) }
{
    Ok(Output {
        number: output.number,
        held: copy_held(alloc, &output.held)?,
        place: output.place,
        value: output.value,
    })
}

/// Whether it is a position.
pub(crate) fn is_position(output: &Output) -> bool
    ensures { result ≡ spec.is_position output.now }
{
    match output.held {
        Held::Deposit(_) => false,
        Held::Position(_) => true,
        Held::Payout(_) => false,
    }
}

// ---- deposits

// Where the deposit of a name lies.
fn place_of(bound: &[(Name, OutPoint)], name: &Name) -> Option<OutPoint>
    ensures { result ≡ look_up name.now bound.now }
{
    for (known, place) in bound {
        if *known == *name {
            return Some(*place);
        }
    }
    None
}

// The deposit of a name; one that lies nowhere, as a deal has none, is taken for lack of memory.
fn deposit_output(
    bound: &[(Name, OutPoint)],
    number: u32,
    name: &Name,
    value: u64,
) -> Result<Output, OutOfMemory>
    ensures { IfOk result (λ o. o ≡ deposit_by bound.now number name.now value) }
{
    match place_of(bound, name) {
        Some(place) => Ok(Output {
            number,
            held: Held::Deposit(*name),
            place,
            value,
        }),
        None => Err(AllocError),
    }
}

// The deposits of a precondition in order, with their numbers.
fn deposits_in(
    alloc: Global,
    bound: &[(Name, OutPoint)],
    pre: &[Pre],
) -> Result<Vec<Output>, OutOfMemory>
    ensures { IfOk result (λ v. v.items ≡ deposits_by bound.now 0 (deposits pre.now)) }
{
    let mut all = Vec::new(alloc);
    let mut number = 0u32;
    for entry in pre {
        match entry {
            Pre::Persistent { value, name, .. } => {
                all.push(deposit_output(bound, number, name, *value)?)?;
                number = next_number(number)?;
            }
            Pre::Volatile { value, name, .. } => {
                all.push(deposit_output(bound, number, name, *value)?)?;
                number = next_number(number)?;
            }
            Pre::Secret { .. } => {}
        }
    }
    Ok(all)
}

/// The deposits of a contract in order, with their numbers.
pub(crate) fn deposit_outputs(
    alloc: Global,
    checked: &Checked,
    deal: &Deal,
) -> Result<Vec<Output>, OutOfMemory>
    ensures { IfOk result (λ v. v.items ≡ spec.deposit_outputs (deal_instance checked.now deal.now)) }
{
    deposits_in(alloc, deal.deposits.as_slice(), &checked.advert().pre)
}

// ---- what transactions make

// The positions of the parts of the split at a path.
fn parts_held(alloc: Global, path: &Path, parts: &[Part]) -> Result<Vec<Held>, OutOfMemory>
    ensures { IfOk result (λ v. v.items ≡ spec.parts_held path.now 0 (parts_view parts.now)) }
{
    let mut all = Vec::new(alloc);
    let mut number = 0u32;
    for _part in parts {
        all.push(Held::Position(longer(alloc, path, PathStep::Part(number))?))?;
        number = next_number(number)?;
    }
    Ok(all)
}

// One output.
fn one_held(alloc: Global, held: Held) -> Result<Vec<Held>, OutOfMemory>
    ensures { IfOk result (λ v. v.items ≡ held ∷ []) }
{
    let mut all = Vec::new(alloc);
    all.push(held)?;
    Ok(all)
}

// What the core of the branch at a path makes.
fn core_held(alloc: Global, path: &Path, core: &Guarded) -> Result<Vec<Held>, OutOfMemory>
    ensures { IfOk result (λ v. v.items ≡ spec.core_held path.now (guarded core.now)) }
{
    match core {
        Guarded::PutReveal { .. } => one_held(alloc, Held::Position(path.copy(alloc)?)),
        Guarded::Withdraw { party } => one_held(alloc, Held::Payout(*party)),
        Guarded::Split { parts } => parts_held(alloc, path, parts),
        Guarded::Auth { .. } => Ok(Vec::new(alloc)),
        Guarded::After { .. } => Ok(Vec::new(alloc)),
    }
}

// What the branch at a path makes, if there is one.
fn path_held(alloc: Global, checked: &Checked, path: &Path) -> Result<Vec<Held>, OutOfMemory>
    ensures { IfOk result (λ v. v.items ≡ spec.branch_held path.now (branch_of checked.now.root path.now)) }
{
    match at(&checked.advert().root, path) {
        Some(branch) => core_held(alloc, path, core(branch)),
        None => Ok(Vec::new(alloc)),
    }
}

// What each output of a transaction of this name is.
fn held_by(alloc: Global, checked: &Checked, which: &Which) -> Result<Vec<Held>, OutOfMemory>
    ensures { IfOk result (λ v. v.items ≡ spec.held_by checked.now which.now) }
{
    match which {
        Which::Init => one_held(alloc, Held::Position(Path::of(Vec::new(alloc)))),
        Which::At(path) => path_held(alloc, checked, path),
    }
}

// The outputs of the transaction of this txid, with numbers from this one on.
fn made_from(
    alloc: Global,
    txid: &[u8; 32],
    first: u32,
    held: &[Held],
    outputs: &[TxOut],
) -> Result<Vec<Output>, OutOfMemory>
    ensures { IfOk result (λ v. v.items ≡ spec.made_from txid.now 0 first held.now outputs.now) }
{
    let mut all = Vec::new(alloc);
    let mut vout = 0u32;
    let mut number = first;
    let mut rest = outputs;
    for one in held {
        let Some((output, others)) = rest.split_first() else {
            return Ok(all);
        };
        all.push(Output {
            number,
            held: copy_held(alloc, one)?,
            place: OutPoint { txid: *txid, vout },
            value: output.value,
        })?;
        vout = next_number(vout)?;
        number = next_number(number)?;
        rest = others;
    }
    Ok(all)
}

/// What a transaction makes, with numbers from this one on.
pub(crate) fn made_by(
    alloc: Global,
    checked: &Checked,
    first: u32,
    transaction: &Transaction,
) -> Result<Vec<Output>, OutOfMemory>
    ensures { IfOk result (λ v. v.items ≡ spec.made_by checked.now first transaction.now) }
{
    let held = held_by(alloc, checked, &transaction.which)?;
    let outputs = transaction.tx.outputs.as_slice();
    made_from(alloc, &transaction.txid, first, &held, outputs)
}
