//! The transactions of a deal with all that is asked of them.

ghost use Rattle.std.specs.Prelude.{◌≡◌, ◌++◌, ◌∷◌, [], map, true, option_map, IfOk, IfSome, OnOk};
ghost use Rattle.spec_terms.specs.Paths.{at as branch_of};
ghost use Rattle.spec_terms.specs.Precondition.{persistent, names_of};
ghost use Rattle.spec_deal.specs.Wallets.{puts_at};
ghost use Rattle.bm_syntax.specs.View.{guarded};
ghost use Rattle.deal_compile.specs.Parts as spec;
ghost use Rattle.deal_compile.specs.Programs.{are_hashed};

use crate::inputs::inputs_for;
use crate::keys::DealKeys;
use crate::labels::{initial_labels, path_labels};
use crate::programs::{Program, programs_of};
use crate::seen::is_well_formed;
use bm_compile::{Detailed, Details};
use bm_hash::Hash32;
use bm_syntax::{Guarded, Name, Path, Pre, at, puts};
use bm_tx::encode_stripped;
use bm_wellformed::Checked;
use deal_index::Indexed;
use spec_bitcoin::Label;
use spec_data::{Bytes, OutOfMemory, Seq};
use spec_deal::Transaction;
use spec_tool::Which;
use std::alloc::Global;

// The names of the persistent deposits.
fn initial_deposits(alloc: Global, pre: &[Pre]) -> Result<Vec<Name>, OutOfMemory>
    ensures { IfOk result (λ deposits. deposits.items ≡ names_of (persistent pre.now)) }
{
    let mut deposits = Vec::new(alloc);
    for entry in pre {
        if let Pre::Persistent { name, .. } = entry {
            deposits.push(*name)?;
        }
    }
    Ok(deposits)
}

// The names of the deposits that a branch puts.
fn path_deposits<'a>(branch: Option<&'a Guarded>) -> &'a [Name]
    ensures { result.now ≡ puts_at (option_map (λ b. guarded b.now) branch.entry) }
{
    match branch {
        Some(branch) => puts(branch),
        None => &[],
    }
}

// A transaction by its name, the branch that it takes, the deposits that it spends, and the labels whose keys sign its inputs.
fn transaction_for<H: Hash32>(
    alloc: Global,
    hasher: &H,
    programs: &Indexed<Program>,
    keys: &DealKeys,
    which: Which,
    branch: Option<&Guarded>,
    deposits: &[Name],
    labels: &[Seq<Label>],
    detailed: &Detailed,
) -> Result<Transaction, OutOfMemory>
    requires { are_hashed (H.digest_of hasher.now) programs.now ≡ true }
    ensures { IfOk result (λ t. t ≡ spec.transaction_by (H.digest_of hasher.now) keys.now which (option_map (λ b. guarded b.now) branch.entry)
        deposits.now labels.now detailed.now) }
{
    let prepared = &detailed.prepared;
    let spends = detailed.pending.spends.as_slice();
    let digests = prepared.digests.as_slice();
    let inputs = inputs_for(
        alloc, hasher, programs, keys, &which, branch, deposits, spends, digests, labels,
    )?;
    Ok(Transaction {
        which,
        tx: prepared.tx.copy(alloc)?,
        txid: prepared.txid,
        bytes: Bytes::of(encode_stripped(alloc, &prepared.tx)?),
        inputs,
    })
}

fn initial_for<H: Hash32>(
    alloc: Global,
    hasher: &H,
    programs: &Indexed<Program>,
    keys: &DealKeys,
    checked: &Checked,
    init: &Detailed,
) -> Result<Transaction, OutOfMemory>
    requires { are_hashed (H.digest_of hasher.now) programs.now ≡ true }
    ensures { IfOk result (λ t. t ≡ spec.initial_transaction (H.digest_of hasher.now) keys.now checked.now init.now) }
{
    let deposits = initial_deposits(alloc, &checked.advert().pre)?;
    let labels = initial_labels(alloc, &checked.advert().pre)?;
    transaction_for(
        alloc,
        hasher,
        programs,
        keys,
        Which::Init,
        None,
        &deposits,
        labels.as_slice(),
        init,
    )
}

fn branch_of<'a>(checked: &'a Checked, path: &Path) -> Option<&'a Guarded>
    ensures { option_map (λ b. guarded b.now) result ≡ branch_of checked.now.root path.now }
{
    at(&checked.advert().root, path)
}

// The branch at a path of a checked contract: each deposit that it puts is known.
fn branch_at<'a>(checked: &'a Checked, path: &Path) -> Option<&'a Guarded>
    ensures branch { option_map (λ b. guarded b.now) result ≡ branch_of checked.now.root path.now }
    ensures known { IfSome result (λ b. spec.has_known_puts checked.now.pre (guarded b.now) ≡ true) }
{
    is_well_formed(checked);
    branch_of(checked, path)
}

fn path_for<H: Hash32>(
    alloc: Global,
    hasher: &H,
    programs: &Indexed<Program>,
    keys: &DealKeys,
    checked: &Checked,
    path: &Path,
    detailed: &Detailed,
) -> Result<Transaction, OutOfMemory>
    requires { are_hashed (H.digest_of hasher.now) programs.now ≡ true }
    ensures { IfOk result (λ t. t ≡ spec.path_transaction (H.digest_of hasher.now) keys.now checked.now (path.now, detailed.now)) }
{
    let branch = branch_at(checked, path);
    let labels = path_labels(alloc, checked, path, branch)?;
    let which = Which::At(path.copy(alloc)?);
    transaction_for(
        alloc,
        hasher,
        programs,
        keys,
        which,
        branch,
        path_deposits(branch),
        labels.as_slice(),
        detailed,
    )
}

// The transactions of the paths, put to the others.
fn put_paths<H: Hash32>(
    alloc: Global,
    hasher: &H,
    programs: &Indexed<Program>,
    keys: &DealKeys,
    checked: &Checked,
    paths: &[(Path, Detailed)],
    all: &mut Seq<Transaction>,
) -> Result<(), OutOfMemory>
    requires { are_hashed (H.digest_of hasher.now) programs.now ≡ true }
    ensures { OnOk result (all.new ≡ all.old ++ map (spec.path_transaction (H.digest_of hasher.now) keys.now checked.now) paths.now) }
{
    for (path, detailed) in paths {
        all.push(path_for(alloc, hasher, programs, keys, checked, path, detailed)?)?;
    }
    Ok(())
}

/// All transactions: the initial one, and then those of the paths.
pub(crate) fn transactions<H: Hash32>(
    alloc: Global,
    hasher: &H,
    keys: &DealKeys,
    checked: &Checked,
    details: &Details,
) -> Result<Seq<Transaction>, OutOfMemory>
    ensures { IfOk result (λ all. all ≡ spec.transactions_by (H.digest_of hasher.now) keys.now checked.now details.now) }
{
    let programs = programs_of(alloc, hasher, details.scripts.as_slice())?;
    let mut all = Seq::new(alloc);
    all.push(initial_for(alloc, hasher, &programs, keys, checked, &details.init)?)?;
    put_paths(
        alloc,
        hasher,
        &programs,
        keys,
        checked,
        details.paths.as_slice(),
        &mut all,
    )?;
    Ok(all)
}
