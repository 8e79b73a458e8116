//! What is replied of partially signed transactions: a status and a text.

ghost use Rattle.std.specs.Prelude.{◌≡◌, ◌++◌, codes, Ok, IfOk, OnOk};
ghost use Rattle.std.specs.Fmt.{decimal};
ghost use Rattle.spec_text.specs.RunText.{newline};
ghost use Rattle.spec_tool.specs.PsbtText as spec;
ghost use Rattle.spec_tool.specs.Replies.{printed};
ghost use Rattle.bm_psbt_text.specs.Refusals.{word_of};

use crate::files::FileRefusal;
use crate::lines::shown_text;
use bm_psbt::Psbt;
use bm_text::{put, put_decimal};
use spec_data::OutOfMemory;
use spec_tool::Reply;
use std::alloc::Global;

// `psbt refused` and why.
#[tactic(auto, using(std::proofs::Common::append_assoc))]
fn put_refused(out: &mut Vec<u8>, why: &[u8]) -> Result<(), OutOfMemory>
    ensures { OnOk result (out.new.items ≡ out.old.items ++ (codes "psbt refused " ++ (why.now ++ newline))) }
{
    put(out, b"psbt refused ")?;
    put(out, why)?;
    put(out, b"\n")
}

/// The reply that refuses, and says why.
pub(crate) fn refused(alloc: Global, why: &[u8]) -> Result<Reply, OutOfMemory>
    ensures { IfOk result (λ a. printed a ≡ spec.psbt_refused why.now) }
{
    let mut out = Vec::new(alloc);
    put_refused(&mut out, why)?;
    Ok(Reply::new(9, out))
}

// Why a file is refused, in a word.
fn word_of(refusal: FileRefusal) -> &'static [u8]
    ensures { result.now ≡ word_of refusal }
{
    match refusal {
        FileRefusal::Size => b"size",
        FileRefusal::Base64 => b"base64",
        FileRefusal::Form => b"form",
    }
}

/// The reply that refuses the file of this number.
#[tactic(auto, using(std::proofs::Common::append_assoc))]
pub(crate) fn file_refused(
    alloc: Global,
    number: u64,
    refusal: FileRefusal,
) -> Result<Reply, OutOfMemory>
    ensures { IfOk result (λ a. printed a ≡ spec.file_refused number (word_of refusal)) }
{
    let mut why = Vec::new(alloc);
    put_decimal(alloc, &mut why, number)?;
    put(&mut why, b" ")?;
    put(&mut why, word_of(refusal))?;
    refused(alloc, &why)
}

/// The reply that refuses two that differ at this input.
pub(crate) fn conflict_refused(alloc: Global, number: u64) -> Result<Reply, OutOfMemory>
    ensures { IfOk result (λ a. printed a ≡ spec.psbt_refused (codes "conflict " ++ decimal number)) }
{
    let mut why = Vec::new(alloc);
    put(&mut why, b"conflict ")?;
    put_decimal(alloc, &mut why, number)?;
    refused(alloc, &why)
}

/// The reply that shows what is said.
pub(crate) fn shown(alloc: Global, psbt: &Psbt) -> Result<Reply, OutOfMemory>
    ensures { IfOk result (λ a. printed a ≡ spec.shown_judged (Ok psbt.now)) }
{
    let text = shown_text(alloc, psbt)?;
    Ok(Reply::new(0, text))
}
