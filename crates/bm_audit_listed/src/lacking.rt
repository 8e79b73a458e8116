//! The signatures that a contract's transactions lack.

ghost use Rattle.std.specs.Prelude.{◌≡◌, ◌++◌, ◌∷◌, [], ℕ, List, if◌then◌else◌, flat_map, OnOk, IfOk};
ghost use Rattle.spec_bitcoin.specs.Keys.{key_of, has_signed};
ghost use Rattle.spec_compiler.specs.Instance.{Instance};
ghost use Rattle.spec_tool.specs.Listed.{listed};
ghost use Rattle.spec_tool.specs.Audit as audit;
ghost use Rattle.bm_compile.specs.Numbered.{numbered};
ghost use Rattle.bm_audit_listed.specs.Parts as spec;

use crate::keys::has_signed;
use crate::numbers::narrow;
use crate::signers::{initial_signers, path_signers};
use bm_book::Book;
use bm_compile::Compiled;
use bm_hash::Hash32;
use bm_wellformed::Checked;
use spec_bitcoin::Label;
use spec_compiler::Prepared;
use spec_data::{OutOfMemory, Seq};
use spec_terms::Path;
use spec_tool::Which;
use std::alloc::Global;

/// The transaction, its input, counted from 0, and the label of the key that hasn't signed there.
pub(crate) type Missing = (Which, u32, Label);

// Adds the label, where its key hasn't signed the digest.
fn put_label<H: Hash32>(
    alloc: Global,
    hasher: &H,
    book: &Book,
    which: &Which,
    input: u32,
    digest: &[u8; 32],
    label: &Label,
    missing: &mut Seq<Missing>,
) -> Result<(), OutOfMemory>
    ensures { OnOk result (missing.new ≡ missing.old
        ++ spec.missing_label (H.digest_of hasher.now) book.now which.now input digest.now label.now) }
{
    if has_signed(alloc, hasher, book, label, digest)? {
        return Ok(());
    }
    missing.push((which.copy(alloc)?, input, label.copy(alloc)?))?;
    Ok(())
}

// Adds the labels of an input whose keys haven't signed its digest.
#[tactic(auto, using(std::proofs::Common::append_assoc))]
fn put_input<H: Hash32>(
    alloc: Global,
    hasher: &H,
    book: &Book,
    which: &Which,
    input: u32,
    digest: &[u8; 32],
    labels: &[Label],
    missing: &mut Seq<Missing>,
) -> Result<(), OutOfMemory>
    ensures { OnOk result (missing.new ≡ missing.old
        ++ flat_map (spec.missing_label (H.digest_of hasher.now) book.now which.now input digest.now) labels.now) }
{
    for label in labels {
        put_label(alloc, hasher, book, which, input, digest, label, missing)?;
    }
    Ok(())
}

// Adds those of a transaction, by the digests of its inputs and who signs them.
#[tactic(auto, using(std::proofs::Common::append_assoc))]
fn put_transaction<H: Hash32>(
    alloc: Global,
    hasher: &H,
    book: &Book,
    which: &Which,
    digests: &[[u8; 32]],
    signers: &[Seq<Label>],
    missing: &mut Seq<Missing>,
) -> Result<(), OutOfMemory>
    ensures { OnOk result (missing.new ≡ missing.old
        ++ spec.missing_by (H.digest_of hasher.now) book.now which.now 0 signers.now digests.now) }
{
    let mut rest = digests;
    for (k, labels) in signers.iter().enumerate() {
        let Some((digest, others)) = rest.split_first() else {
            return Ok(());
        };
        let input = narrow(k)?;
        put_input(
            alloc,
            hasher,
            book,
            which,
            input,
            digest,
            labels.as_slice(),
            missing,
        )?;
        rest = others;
    }
    Ok(())
}

// Adds those of a path's transaction.
fn put_path<H: Hash32>(
    alloc: Global,
    hasher: &H,
    book: &Book,
    contract: u32,
    checked: &Checked,
    path: &Path,
    prepared: &Prepared,
    missing: &mut Seq<Missing>,
) -> Result<(), OutOfMemory>
    ensures { OnOk result (missing.new ≡ missing.old
        ++ spec.path_missing (H.digest_of hasher.now) book.now contract checked.now (path.now, prepared.now)) }
{
    let which = Which::At(path.copy(alloc)?);
    let signers = path_signers(alloc, contract, checked, path)?;
    put_transaction(
        alloc,
        hasher,
        book,
        &which,
        prepared.digests.as_slice(),
        &signers,
        missing,
    )
}

// Adds those of the paths' transactions.
#[tactic(auto, using(std::proofs::Common::append_assoc))]
fn put_paths<H: Hash32>(
    alloc: Global,
    hasher: &H,
    book: &Book,
    contract: u32,
    checked: &Checked,
    paths: &[(Path, Prepared)],
    missing: &mut Seq<Missing>,
) -> Result<(), OutOfMemory>
    ensures { OnOk result (missing.new ≡ missing.old
        ++ flat_map (spec.path_missing (H.digest_of hasher.now) book.now contract checked.now) paths.now) }
{
    for (path, prepared) in paths {
        put_path(
            alloc, hasher, book, contract, checked, path, prepared, missing,
        )?;
    }
    Ok(())
}

// The signatures that the transactions of a contract of this number lack.
fn missing_of<H: Hash32>(
    alloc: Global,
    hasher: &H,
    book: &Book,
    contract: u32,
    checked: &Checked,
    compiled: &Compiled,
) -> Result<Seq<Missing>, OutOfMemory>
    ensures { IfOk result (λ all. all ≡ spec.missing_in (H.digest_of hasher.now) book.now contract checked.now compiled.now) }
{
    let init = compiled.init();
    let signers = initial_signers(alloc, &checked.advert().pre)?;
    let mut missing = Seq::new(alloc);
    put_transaction(
        alloc,
        hasher,
        book,
        &Which::Init,
        init.digests.as_slice(),
        &signers,
        &mut missing,
    )?;
    put_paths(
        alloc,
        hasher,
        book,
        contract,
        checked,
        compiled.paths(),
        &mut missing,
    )?;
    Ok(missing)
}

/// The signatures that a compiled contract's transactions lack: by transaction, input and then participant or owner in order, the
/// labels whose keys haven't signed the input's digest. The contract has this number.
pub fn missing<H: Hash32>(
    alloc: Global,
    hasher: &H,
    book: &Book,
    contract: u32,
    checked: &Checked,
    compiled: &Compiled,
) -> Result<Seq<(Which, u32, Label)>, OutOfMemory>
    ensures by_lists { IfOk result (λ all. all ≡ spec.missing_in (H.digest_of hasher.now) book.now contract checked.now compiled.now) }
    ensures compiled { (s : Instance) → s.contract ≡ contract → s.advert ≡ checked.now
        → compiled.now ≡ numbered (H.digest_of hasher.now) s
        → IfOk result (λ all. all ≡ audit.missing_of (H.digest_of hasher.now) book.now (listed (H.digest_of hasher.now) s)) }
{
    missing_of(alloc, hasher, book, contract, checked, compiled)
}
