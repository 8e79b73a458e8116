//! The labels whose keys sign a transaction, input by input.

ghost use Rattle.std.specs.Prelude.{◌≡◌, ◌++◌, ◌∷◌, [], map, true, is_some, option_map, IfOk, IfSome, OnOk};
ghost use Rattle.std.specs.List.{list_all};
ghost use Rattle.spec_data.specs.Lists.{look_up};
ghost use Rattle.spec_terms.specs.Precondition.{persistent, volatile};
ghost use Rattle.spec_bitcoin.specs.declared.label.Label.TheVariants.{Deposit};
ghost use Rattle.spec_compiler.specs.Keyed.Instance.{branch_label};
ghost use Rattle.spec_compiler.specs.Keyed.Endorsements.{put_owner};
ghost use Rattle.spec_compiler.specs.Keyed.Transactions.{holding_or_none};
ghost use Rattle.spec_tool.specs.Keyed.Listed.{deposit_signer, branch_signers};
ghost use Rattle.bm_syntax.specs.View.{guarded};
ghost use Rattle.deal_compile.specs.Parts as spec;

use bm_compile::volatile_of;
use bm_syntax::{Guarded, Name, Path, Pre, puts};
use bm_wellformed::Checked;
use spec_bitcoin::Label;
use spec_data::{OutOfMemory, Seq};
use std::alloc::Global;

// The number of the only contract of a deal.
const CONTRACT: u32 = 0;

// The label of a party's deposits, alone.
fn deposit_label(alloc: Global, party: &Name) -> Result<Seq<Label>, OutOfMemory>
    ensures { IfOk result (λ labels. labels ≡ deposit_signer party.now) }
{
    let mut labels = Seq::new(alloc);
    labels.push(Label::Deposit { party: *party })?;
    Ok(labels)
}

/// The labels of the inputs of the initial transaction: the owner's of each persistent deposit.
pub(crate) fn initial_labels(alloc: Global, pre: &[Pre]) -> Result<Seq<Seq<Label>>, OutOfMemory>
    ensures { IfOk result (λ labels. labels ≡ map (λ d. deposit_signer (d.1).owner) (persistent pre.now)) }
{
    let mut labels = Seq::new(alloc);
    for entry in pre {
        if let Pre::Persistent { party, .. } = entry {
            labels.push(deposit_label(alloc, party)?)?;
        }
    }
    Ok(labels)
}

// The label of a participant's key of the branch at a path.
fn label_of(alloc: Global, path: &Path, party: &Name) -> Result<Label, OutOfMemory>
    ensures { IfOk result (λ label. label ≡ branch_label 0 path.now party.now) }
{
    Ok(Label::Branch {
        contract: CONTRACT,
        path: path.copy(alloc)?,
        party: *party,
    })
}

// The labels of all participants for the branch at a path.
fn party_labels(alloc: Global, path: &Path, parties: &[Name]) -> Result<Seq<Label>, OutOfMemory>
    ensures { IfOk result (λ labels. labels ≡ map (branch_label 0 path.now) parties.now) }
{
    let mut labels = Seq::new(alloc);
    for party in parties {
        labels.push(label_of(alloc, path, party)?)?;
    }
    Ok(labels)
}

// The label of the owner of a volatile deposit, alone.
fn owner_label(alloc: Global, pre: &[Pre], name: &Name) -> Result<Seq<Label>, OutOfMemory>
    requires { is_some (look_up name.now (volatile pre.now)) ≡ true }
    ensures { IfOk result (λ labels. labels ≡ deposit_signer (holding_or_none (look_up name.now (volatile pre.now))).owner) }
{
    match volatile_of(pre, name) {
        Some((owner, _)) => deposit_label(alloc, owner),
        None => unreachable!(),
    }
}

// Adds the labels of the owners of the deposits that are put.
fn add_owners(
    alloc: Global,
    pre: &[Pre],
    names: &[Name],
    labels: &mut Seq<Seq<Label>>,
) -> Result<(), OutOfMemory>
    requires { list_all (λ name. is_some (look_up name (volatile pre.now))) names.now ≡ true }
    ensures { OnOk result (labels.new ≡ labels.old
        ++ map (λ name. deposit_signer (holding_or_none (look_up name (volatile pre.now))).owner) names.now) }
{
    for name in names {
        labels.push(owner_label(alloc, pre, name)?)?;
    }
    Ok(())
}

// The labels of the inputs of a branch's transaction: of all participants for the position's output, and then of the owners of the
// deposits that are put.
fn branch_labels(
    alloc: Global,
    checked: &Checked,
    path: &Path,
    branch: &Guarded,
) -> Result<Seq<Seq<Label>>, OutOfMemory>
    requires { spec.has_known_puts checked.now.pre (guarded branch.now) ≡ true }
    ensures { IfOk result (λ labels. labels ≡ branch_signers 0 checked.now path.now (guarded branch.now)) }
{
    let mut labels = Seq::new(alloc);
    labels.push(party_labels(alloc, path, checked.parties())?)?;
    add_owners(alloc, &checked.advert().pre, puts(branch), &mut labels)?;
    Ok(labels)
}

/// The labels of the inputs of the transaction of a path, by the branch there.
pub(crate) fn path_labels(
    alloc: Global,
    checked: &Checked,
    path: &Path,
    branch: Option<&Guarded>,
) -> Result<Seq<Seq<Label>>, OutOfMemory>
    requires { IfSome branch (λ b. spec.has_known_puts checked.now.pre (guarded b.now) ≡ true) }
    ensures { IfOk result (λ labels. labels
        ≡ spec.labels_by checked.now path.now (option_map (λ b. guarded b.now) branch.entry)) }
{
    match branch {
        Some(branch) => branch_labels(alloc, checked, path, branch),
        None => Ok(Seq::new(alloc)),
    }
}
