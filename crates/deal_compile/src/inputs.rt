//! The inputs of a transaction, each with what it spends and who signs it.

ghost use Rattle.std.specs.Prelude.{◌≡◌, map, option_map, true, IfOk};
ghost use Rattle.bm_syntax.specs.View.{guarded};
ghost use Rattle.spec_deal.specs.Slots.{branch_verb};
ghost use Rattle.deal_compile.specs.Parts as spec;
ghost use Rattle.deal_compile.specs.Programs.{are_hashed};

use crate::keys::DealKeys;
use crate::programs::Program;
use crate::wallets::{digest_for, output_for, wallet_for};
use bm_hash::Hash32;
use bm_syntax::{Guarded, Name, asks};
use deal_index::Indexed;
use spec_bitcoin::Label;
use spec_compiler::Spent;
use spec_data::{OutOfMemory, Seq};
use spec_deal::{Input, Signer, Verb, Wallet};
use spec_tool::Which;
use std::alloc::Global;

// What a participant's signature by its key of a branch is for.
fn branch_verb_for(branch: Option<&Guarded>, party: &Name) -> Verb
    ensures { result ≡ branch_verb (option_map (λ b. guarded b.now) branch.entry) party.now }
{
    match branch {
        None => Verb::Endorse,
        Some(branch) => {
            if asks(branch, party) {
                Verb::Authorise
            } else {
                Verb::Endorse
            }
        }
    }
}

// What the signature by a label's key is for, by the branch that the transaction takes.
fn verb_for(which: &Which, branch: Option<&Guarded>, label: &Label) -> Verb
    ensures { result ≡ spec.verb_by which.now (option_map (λ b. guarded b.now) branch.entry) label.now }
{
    match which {
        Which::Init => Verb::Init,
        Which::At(_) => match label {
            Label::Deposit { .. } => Verb::Endorse,
            Label::Branch { party, .. } => branch_verb_for(branch, party),
        },
    }
}

// The key that a signature is by: what a wallet signs is by none of the deal.
fn key_for(
    alloc: Global,
    keys: &DealKeys,
    wallet: &Option<Wallet>,
    label: &Label,
) -> Result<[u8; 33], OutOfMemory>
    ensures { IfOk result (λ key. key ≡ spec.key_by keys.now wallet.now label.now) }
{
    match wallet {
        Some(_) => Ok([0; 33]),
        None => keys.label_key(alloc, label),
    }
}

fn signer_for(
    alloc: Global,
    keys: &DealKeys,
    which: &Which,
    branch: Option<&Guarded>,
    wallet: &Option<Wallet>,
    label: &Label,
) -> Result<Signer, OutOfMemory>
    ensures { IfOk result (λ signer. signer
        ≡ spec.signer_by keys.now which.now (option_map (λ b. guarded b.now) branch.entry) wallet.now label.now) }
{
    Ok(Signer {
        label: label.copy(alloc)?,
        key: key_for(alloc, keys, wallet, label)?,
        verb: verb_for(which, branch, label),
    })
}

// Who signs by the keys of these labels, or by a wallet.
fn signers_for(
    alloc: Global,
    keys: &DealKeys,
    which: &Which,
    branch: Option<&Guarded>,
    wallet: &Option<Wallet>,
    labels: &[Label],
) -> Result<Seq<Signer>, OutOfMemory>
    ensures { IfOk result (λ signers. signers
        ≡ map (spec.signer_by keys.now which.now (option_map (λ b. guarded b.now) branch.entry) wallet.now) labels.now) }
{
    let mut signers = Seq::new(alloc);
    for label in labels {
        signers.push(signer_for(alloc, keys, which, branch, wallet, label)?)?;
    }
    Ok(signers)
}

fn input_for<H: Hash32>(
    alloc: Global,
    hasher: &H,
    programs: &Indexed<Program>,
    keys: &DealKeys,
    which: &Which,
    branch: Option<&Guarded>,
    wallet: Option<Wallet>,
    spent: &Spent,
    digest: &[u8; 32],
    labels: &[Label],
) -> Result<Input, OutOfMemory>
    requires { are_hashed (H.digest_of hasher.now) programs.now ≡ true }
    ensures { let branch = option_map (λ b. guarded b.now) branch.entry in
        IfOk result (λ input. input
        ≡ spec.input_by (H.digest_of hasher.now) keys.now which.now branch wallet spent.now digest.now labels.now) }
{
    Ok(Input {
        spent: spent.copy(alloc)?,
        output: output_for(alloc, hasher, programs, &wallet, spent)?,
        digest: digest_for(&wallet, digest),
        signers: signers_for(alloc, keys, which, branch, &wallet, labels)?,
        wallet,
    })
}

// The labels of the first input.
fn first_labels(labels: &[Seq<Label>]) -> &[Label]
    ensures { result.now ≡ spec.first_labels labels.now }
{
    match labels {
        [] => &[],
        [first, ..] => first.as_slice(),
    }
}

// Those of the others.
fn other_labels(labels: &[Seq<Label>]) -> &[Seq<Label>]
    ensures { result.now ≡ spec.other_labels labels.now }
{
    match labels {
        [] => &[],
        [_, others @ ..] => others,
    }
}

/// The inputs that spend these, by the deposits among them, their digests and the labels whose keys sign each.
pub(crate) fn inputs_for<H: Hash32>(
    alloc: Global,
    hasher: &H,
    programs: &Indexed<Program>,
    keys: &DealKeys,
    which: &Which,
    branch: Option<&Guarded>,
    deposits: &[Name],
    spends: &[Spent],
    digests: &[[u8; 32]],
    labels: &[Seq<Label>],
) -> Result<Seq<Input>, OutOfMemory>
    requires { are_hashed (H.digest_of hasher.now) programs.now ≡ true }
    ensures { let branch = option_map (λ b. guarded b.now) branch.entry in
        IfOk result (λ inputs. inputs
        ≡ spec.inputs_by (H.digest_of hasher.now) keys.now which.now branch deposits.now 0 spends.now digests.now labels.now) }
{
    let mut inputs = Seq::new(alloc);
    let mut digests = digests;
    let mut labels = labels;
    for (k, spent) in spends.iter().enumerate() {
        let Some((digest, others)) = digests.split_first() else {
            return Ok(inputs);
        };
        let wallet = wallet_for(alloc, keys, which, deposits, k)?;
        let first = first_labels(labels);
        inputs.push(input_for(
            alloc, hasher, programs, keys, which, branch, wallet, spent, digest, first,
        )?)?;
        digests = others;
        labels = other_labels(labels);
    }
    Ok(inputs)
}
