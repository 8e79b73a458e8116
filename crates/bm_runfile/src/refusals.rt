//! How a refusal of the ledger is shown.

ghost use Rattle.std.specs.Prelude.{◌≡◌, ◌++◌, OnOk};
ghost use Rattle.spec_text.specs.OutcomeText as spec;

use bm_text::{put, put_decimal};
use spec_bitcoin::Refusal;
use spec_data::OutOfMemory;
use std::alloc::Global;

/// The name of a refusal.
pub fn refusal_name(refusal: Refusal) -> &'static [u8]
    ensures { result.now ≡ spec.refusal_name refusal }
{
    match refusal {
        Refusal::NoInput => b"NoInput",
        Refusal::NoOutput => b"NoOutput",
        Refusal::InputRepeated => b"InputRepeated",
        Refusal::MissingInput(_) => b"MissingInput",
        Refusal::ValueLimit => b"ValueLimit",
        Refusal::InsufficientIn => b"InsufficientIn",
        Refusal::NotFinal => b"NotFinal",
        Refusal::ScriptSigNotEmpty(_) => b"ScriptSigNotEmpty",
        Refusal::NotWitnessScript(_) => b"NotWitnessScript",
        Refusal::ScriptMismatch(_) => b"ScriptMismatch",
        Refusal::ItemTooLong(_) => b"ItemTooLong",
        Refusal::ScriptFalse(_) => b"ScriptFalse",
    }
}

// The input at fault, where it is an input's.
fn faulty_input(refusal: Refusal) -> Option<u32>
    ensures { result ≡ spec.faulty_input refusal }
{
    match refusal {
        Refusal::NoInput
        | Refusal::NoOutput
        | Refusal::InputRepeated
        | Refusal::ValueLimit
        | Refusal::InsufficientIn
        | Refusal::NotFinal => None,
        Refusal::MissingInput(k)
        | Refusal::ScriptSigNotEmpty(k)
        | Refusal::NotWitnessScript(k)
        | Refusal::ScriptMismatch(k)
        | Refusal::ItemTooLong(k)
        | Refusal::ScriptFalse(k) => Some(k),
    }
}

fn put_input(alloc: Global, out: &mut Vec<u8>, input: Option<u32>) -> Result<(), OutOfMemory>
    ensures { OnOk result (out.new.items ≡ out.old.items ++ spec.input_text input) }
{
    let Some(number) = input else { return Ok(()) };
    put(out, b" ")?;
    put_decimal(alloc, out, number as u64)
}

/// The name of a refusal, and the input at fault.
#[tactic(auto, using(std::proofs::Common::append_assoc))]
pub fn put_refusal(alloc: Global, out: &mut Vec<u8>, refusal: Refusal) -> Result<(), OutOfMemory>
    ensures { OnOk result (out.new.items ≡ out.old.items ++ spec.refusal_text refusal) }
{
    put(out, refusal_name(refusal))?;
    put_input(alloc, out, faulty_input(refusal))
}
