//! What `psbt RUN CONTRACT WHICH` prints of a run that isn't halted.

ghost use Rattle.std.specs.Prelude.{◌≡◌, ◌++◌, true, Some, option_map, OnOk, IfOk};
ghost use Rattle.spec_tool.specs.declared.which.Which.TheVariants as names;
ghost use Rattle.spec_run.specs.Setup.{Setup, contract_at};
ghost use Rattle.spec_run.specs.World.{World};
ghost use Rattle.spec_run.specs.Compiled.{compiled_instance};
ghost use Rattle.spec_tool.specs.Psbt.{is_psbt};
ghost use Rattle.spec_tool.specs.PsbtText as spec;
ghost use Rattle.bm_compile.specs.Numbered.{Numbered, numbered};
ghost use Rattle.bm_psbt_plan.specs.Parts as parts;
ghost use Rattle.bm_psbt_plan.specs.OfRun.{IsOfRun};

use crate::inputs::{path_inputs, persistent_inputs};
use crate::outputs::output_at;
use bm_book::Book;
use bm_compile::Compiled;
use bm_hash::Hash32;
use bm_plan::position_of;
use bm_psbt::{Psbt, base64_text, encode};
use bm_syntax::puts;
use bm_syntax::walk::at;
use bm_text::put;
use bm_wellformed::Checked;
use spec_bitcoin::Tx;
use spec_data::OutOfMemory;
use spec_terms::Path;
use spec_tool::{PsbtInput, Which};
use std::alloc::Global;
use tool_which::put_which;

// Whether the contract has the transaction.
fn has_transaction(checked: &Checked, which: &Which) -> bool
    ensures { result ≡ spec.has_transaction (Some checked.now) which.now }
{
    match which {
        Which::Init => true,
        Which::At(path) => at(&checked.advert().root, path).is_some(),
    }
}

#[tactic(auto, using(std::proofs::Common::append_assoc))]
fn put_no_path(alloc: Global, out: &mut Vec<u8>, which: &Which) -> Result<(), OutOfMemory>
    ensures { OnOk result (out.new.items ≡ out.old.items ++ spec.no_path_line which.now) }
{
    put(out, b"contract 0 no path ")?;
    put_which(alloc, out, which)?;
    put(out, b"\n")
}

fn no_path(alloc: Global, which: &Which) -> Result<Vec<u8>, OutOfMemory>
    ensures { IfOk result (λ text. text.items ≡ spec.no_path_line which.now) }
{
    let mut text = Vec::new(alloc);
    put_no_path(alloc, &mut text, which)?;
    Ok(text)
}

fn not_compiled(alloc: Global) -> Result<Vec<u8>, OutOfMemory>
    ensures { IfOk result (λ text. text.items ≡ spec.not_compiled_line) }
{
    Vec::from_slice(alloc, b"contract 0 not compiled\n")
}

// A transaction with what is known of its inputs.
fn psbt_with(alloc: Global, tx: &Tx, inputs: Vec<PsbtInput>) -> Result<Psbt, OutOfMemory>
    requires { is_psbt (record { tx = tx.now; inputs = inputs.items }) ≡ true }
    ensures { IfOk result (λ psbt. psbt ≡ record { tx = tx.now; inputs = inputs.items }) }
{
    match Psbt::of(tx.copy(alloc)?, inputs) {
        Some(psbt) => Ok(psbt),
        None => unreachable!(),
    }
}

// As Base64, as one line.
fn line(alloc: Global, psbt: &Psbt) -> Result<Vec<u8>, OutOfMemory>
    ensures { IfOk result (λ text. text.items ≡ spec.psbt_line psbt.now) }
{
    let mut text = base64_text(alloc, &encode(alloc, psbt)?)?;
    put(&mut text, b"\n")?;
    Ok(text)
}

fn init_psbt<H: Hash32>(
    alloc: Global,
    hasher: &H,
    book: &Book,
    checked: &Checked,
    compiled: &Compiled,
) -> Result<Psbt, OutOfMemory>
    requires { is_psbt (parts.init_psbt (H.digest_of hasher.now) book.now checked.now compiled.now) ≡ true }
    ensures { IfOk result (λ psbt. psbt ≡ parts.init_psbt (H.digest_of hasher.now) book.now checked.now compiled.now) }
{
    let init = compiled.init();
    let pre = &checked.advert().pre;
    let inputs = persistent_inputs(alloc, hasher, book, pre, init.digests.as_slice())?;
    psbt_with(alloc, &init.tx, inputs)
}

fn path_psbt<H: Hash32>(
    alloc: Global,
    hasher: &H,
    book: &Book,
    checked: &Checked,
    compiled: &Compiled,
    path: &Path,
) -> Result<Option<Psbt>, OutOfMemory>
    requires { parts.IsOne (parts.path_psbt (H.digest_of hasher.now) book.now 0 checked.now path.now compiled.now) }
    ensures { IfOk result (λ psbt. psbt ≡ parts.path_psbt (H.digest_of hasher.now) book.now 0 checked.now path.now compiled.now) }
{
    let position = position_of(alloc, path)?;
    let prefix = position_of(alloc, &position)?;
    let Some(prepared) = compiled.transaction_at(path) else {
        return Ok(None);
    };
    let Some(output) = output_at(compiled, &position, &prefix) else {
        return Ok(None);
    };
    let Some(script) = compiled.script_at(&position) else {
        return Ok(None);
    };
    let Some(branch) = at(&checked.advert().root, path) else {
        return Ok(None);
    };
    let inputs = path_inputs(
        alloc,
        hasher,
        book,
        0,
        checked,
        path,
        output,
        script.as_slice(),
        puts(branch),
        prepared.digests.as_slice(),
    )?;
    Ok(Some(psbt_with(alloc, &prepared.tx, inputs)?))
}

fn path_text<H: Hash32>(
    alloc: Global,
    hasher: &H,
    book: &Book,
    checked: &Checked,
    compiled: &Compiled,
    path: &Path,
    which: &Which,
) -> Result<Vec<u8>, OutOfMemory>
    requires which { which.now ≡ names.At path.now }
    requires one { parts.IsOne (parts.path_psbt (H.digest_of hasher.now) book.now 0 checked.now path.now compiled.now) }
    ensures { IfOk result (λ text. text.items ≡ parts.set_told (H.digest_of hasher.now) book.now 0 checked.now compiled.now which.now) }
{
    match path_psbt(alloc, hasher, book, checked, compiled, path)? {
        Some(psbt) => line(alloc, &psbt),
        None => no_path(alloc, which),
    }
}

// What is printed where the contract is compiled.
fn set_text<H: Hash32>(
    alloc: Global,
    hasher: &H,
    book: &Book,
    checked: &Checked,
    compiled: &Compiled,
    which: &Which,
) -> Result<Vec<u8>, OutOfMemory>
    requires { parts.IsOne (parts.named_psbt (H.digest_of hasher.now) book.now 0 checked.now compiled.now which.now) }
    ensures { IfOk result (λ text. text.items ≡ parts.set_told (H.digest_of hasher.now) book.now 0 checked.now compiled.now which.now) }
{
    match which {
        Which::Init => {
            let psbt = init_psbt(alloc, hasher, book, checked, compiled)?;
            line(alloc, &psbt)
        }
        Which::At(path) => path_text(alloc, hasher, book, checked, compiled, path, which),
    }
}

fn told<H: Hash32>(
    alloc: Global,
    hasher: &H,
    book: &Book,
    checked: &Checked,
    compiled: Option<&Compiled>,
    which: &Which,
) -> Result<Vec<u8>, OutOfMemory>
    requires { (c : Numbered) → option_map (λ c. c.now) compiled ≡ Some c
        → parts.IsOne (parts.named_psbt (H.digest_of hasher.now) book.now 0 checked.now c which.now) }
    ensures { IfOk result (λ text. text.items
        ≡ parts.psbt_told (H.digest_of hasher.now) book.now checked.now (option_map (λ c. c.now) compiled.entry) which.now) }
{
    if !has_transaction(checked, which) {
        return no_path(alloc, which);
    }
    match compiled {
        None => not_compiled(alloc),
        Some(compiled) => set_text(alloc, hasher, book, checked, compiled, which),
    }
}

/// One of the transactions of a run's contract, contract 0, with the signatures that the book has
/// for it, in Base64 as one line; or that the contract has no such path, or isn't compiled. What it
/// is compiled to is what a run leaves: there the keys that sign an input are all different.
pub fn psbt_text<H: Hash32>(
    alloc: Global,
    hasher: &H,
    book: &Book,
    checked: &Checked,
    compiled: Option<&Compiled>,
    which: &Which,
) -> Result<Vec<u8>, OutOfMemory>
    requires { IsOfRun (H.digest_of hasher.now) checked.now (option_map (λ c. c.now) compiled) }
    ensures told { IfOk result (λ text. text.items
        ≡ parts.psbt_told (H.digest_of hasher.now) book.now checked.now (option_map (λ c. c.now) compiled.entry) which.now) }
    ensures run { (s : Setup) (w : World) → s.hash ≡ H.digest_of hasher.now → contract_at s 0 ≡ Some checked.now → w.book ≡ book.now
        → option_map (λ c. c.now) compiled.entry ≡ option_map (numbered s.hash) (compiled_instance s w 0)
        → IfOk result (λ text. text.items ≡ spec.which_psbt s w which.now) }
{
    told(alloc, hasher, book, checked, compiled, which)
}
