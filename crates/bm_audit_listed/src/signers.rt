//! The labels whose keys sign the inputs of a contract's transactions.

ghost use Rattle.std.specs.Prelude.{◌≡◌, ◌++◌, map, option_map, OnOk, IfOk};
ghost use Rattle.spec_data.specs.Lists.{look_up};
ghost use Rattle.spec_terms.specs.Precondition.{persistent, volatile};
ghost use Rattle.spec_compiler.specs.Instance.{branch_label};
ghost use Rattle.spec_compiler.specs.Endorsements.{put_owner};
ghost use Rattle.spec_tool.specs.Listed as listed;
ghost use Rattle.bm_syntax.specs.View.{guarded};
ghost use Rattle.bm_audit_listed.specs.Parts as spec;

use bm_syntax::walk::at;
use bm_syntax::{Guarded, puts};
use bm_wellformed::Checked;
use spec_bitcoin::Label;
use spec_data::{Name, OutOfMemory, Seq};
use spec_terms::{Path, Pre};
use std::alloc::{AllocError, Global};

// A party's key of its deposits signs alone.
fn deposit_signer(alloc: Global, party: &Name) -> Result<Seq<Label>, OutOfMemory>
    ensures { IfOk result (λ labels. labels ≡ listed.deposit_signer party.now) }
{
    let mut labels = Seq::new(alloc);
    labels.push(Label::Deposit { party: *party })?;
    Ok(labels)
}

/// Of the initial transaction, the owners of the persistent deposits.
pub(crate) fn initial_signers(alloc: Global, pre: &[Pre]) -> Result<Vec<Seq<Label>>, OutOfMemory>
    ensures { IfOk result (λ signers. signers.items ≡ map (λ d. listed.deposit_signer (d.1).owner) (persistent pre.now)) }
{
    let mut signers = Vec::new(alloc);
    for entry in pre {
        if let Pre::Persistent { party, .. } = entry {
            signers.push(deposit_signer(alloc, party)?)?;
        }
    }
    Ok(signers)
}

// The owner of the volatile deposit of this name.
fn owner_of<'a>(pre: &'a [Pre], name: &Name) -> Option<&'a Name>
    ensures { option_map (λ o. o.now) result ≡ option_map (λ h. h.owner) (look_up name.now (volatile pre.now)) }
{
    for entry in pre {
        if let Pre::Volatile {
            party,
            name: known,
            ..
        } = entry
        {
            if *known == *name {
                return Some(party);
            }
        }
    }
    None
}

// Who signs for the deposit of this name. A name of no deposit, which no checked contract has, counts as out of memory.
fn put_signer(alloc: Global, checked: &Checked, name: &Name) -> Result<Seq<Label>, OutOfMemory>
    ensures { IfOk result (λ labels. labels ≡ listed.deposit_signer (put_owner checked.now name.now)) }
{
    match owner_of(&checked.advert().pre, name) {
        Some(owner) => deposit_signer(alloc, owner),
        None => Err(AllocError),
    }
}

// Adds the owners of the deposits that are put.
fn add_put_signers(
    alloc: Global,
    checked: &Checked,
    puts: &[Name],
    signers: &mut Vec<Seq<Label>>,
) -> Result<(), OutOfMemory>
    ensures { OnOk result (signers.new.items ≡ signers.old.items ++ map (spec.put_signer checked.now) puts.now) }
{
    for name in puts {
        signers.push(put_signer(alloc, checked, name)?)?;
    }
    Ok(())
}

// The participants' labels of the branch at a path.
fn branch_labels(
    alloc: Global,
    contract: u32,
    path: &Path,
    people: &[Name],
) -> Result<Seq<Label>, OutOfMemory>
    ensures { IfOk result (λ labels. labels ≡ map (branch_label contract path.now) people.now) }
{
    let mut labels = Seq::new(alloc);
    for party in people {
        labels.push(Label::Branch {
            contract,
            path: path.copy(alloc)?,
            party: *party,
        })?;
    }
    Ok(labels)
}

// Of a branch, all participants for the position's output, and then the owners of the deposits that are put.
fn branch_signers(
    alloc: Global,
    contract: u32,
    checked: &Checked,
    path: &Path,
    branch: &Guarded,
) -> Result<Vec<Seq<Label>>, OutOfMemory>
    ensures { IfOk result (λ signers. signers.items ≡ listed.branch_signers contract checked.now path.now (guarded branch.now)) }
{
    let mut signers = Vec::new(alloc);
    signers.push(branch_labels(alloc, contract, path, checked.parties())?)?;
    add_put_signers(alloc, checked, puts(branch), &mut signers)?;
    Ok(signers)
}

/// Of the branch at a path, nobody where there is none.
pub(crate) fn path_signers(
    alloc: Global,
    contract: u32,
    checked: &Checked,
    path: &Path,
) -> Result<Vec<Seq<Label>>, OutOfMemory>
    ensures { IfOk result (λ signers. signers.items ≡ spec.path_signers contract checked.now path.now) }
{
    match at(&checked.advert().root, path) {
        Some(branch) => branch_signers(alloc, contract, checked, path, branch),
        None => Ok(Vec::new(alloc)),
    }
}
