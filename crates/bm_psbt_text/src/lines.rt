//! What a partially signed transaction says, line by line.

ghost use Rattle.std.specs.Prelude.{◌≡◌, ◌+◌, ◌++◌, codes, IfOk, OnOk};
ghost use Rattle.std.specs.List.{flat_map};
ghost use Rattle.std.specs.Fmt.{decimal};
ghost use Rattle.spec_data.specs.Digits.{hex_text};
ghost use Rattle.spec_bitcoin.specs.Spelling.{stripped};
ghost use Rattle.spec_text.specs.RunText.{newline};
ghost use Rattle.spec_tool.specs.PsbtText as spec;

use bm_psbt::{Psbt, PsbtInput};
use bm_text::{put, put_decimal, put_hex};
use bm_tx::encode_stripped;
use spec_bitcoin::{Tx, TxOut};
use spec_data::{Bytes, OutOfMemory, Seq};
use std::alloc::Global;

// Hexadecimal digits, or `-` for no byte.
fn put_shown(alloc: Global, out: &mut Vec<u8>, bytes: &[u8]) -> Result<(), OutOfMemory>
    ensures { OnOk result (out.new.items ≡ out.old.items ++ spec.shown_bytes bytes.now) }
{
    match bytes {
        [] => put(out, b"-"),
        _ => put_hex(alloc, out, bytes),
    }
}

// `input k`, and a space.
#[tactic(auto, using(std::proofs::Common::append_assoc))]
fn put_head(alloc: Global, out: &mut Vec<u8>, number: u64) -> Result<(), OutOfMemory>
    ensures { OnOk result (out.new.items ≡ out.old.items ++ (codes "input " ++ (decimal number ++ codes " "))) }
{
    put(out, b"input ")?;
    put_decimal(alloc, out, number)?;
    put(out, b" ")
}

#[tactic(auto, using(std::proofs::Common::append_assoc))]
fn put_output(alloc: Global, out: &mut Vec<u8>, output: &TxOut) -> Result<(), OutOfMemory>
    ensures { OnOk result (out.new.items ≡ out.old.items
        ++ (codes "spent " ++ (decimal output.now.value ++ (codes " " ++ spec.shown_bytes output.now.script)))) }
{
    put(out, b"spent ")?;
    put_decimal(alloc, out, output.value)?;
    put(out, b" ")?;
    put_shown(alloc, out, output.script.as_slice())
}

// The output that an input spends.
fn put_spent(alloc: Global, out: &mut Vec<u8>, spent: &Option<TxOut>) -> Result<(), OutOfMemory>
    ensures { OnOk result (out.new.items ≡ out.old.items ++ spec.spent_said spent.now) }
{
    match spent {
        None => put(out, b"spent none"),
        Some(output) => put_output(alloc, out, output),
    }
}

#[tactic(auto, using(std::proofs::Common::append_assoc))]
fn put_spent_line(
    alloc: Global,
    out: &mut Vec<u8>,
    number: u64,
    spent: &Option<TxOut>,
) -> Result<(), OutOfMemory>
    ensures { OnOk result (out.new.items ≡ out.old.items ++ spec.input_line number (spec.spent_said spent.now)) }
{
    put_head(alloc, out, number)?;
    put_spent(alloc, out, spent)?;
    put(out, b"\n")
}

#[tactic(auto, using(std::proofs::Common::append_assoc))]
fn put_pair(
    alloc: Global,
    out: &mut Vec<u8>,
    key: &[u8; 33],
    signature: &Bytes,
) -> Result<(), OutOfMemory>
    ensures { OnOk result (out.new.items ≡ out.old.items
        ++ (codes "signature " ++ (hex_text key.now ++ (codes " " ++ spec.shown_bytes signature.now)))) }
{
    put(out, b"signature ")?;
    put_hex(alloc, out, key)?;
    put(out, b" ")?;
    put_shown(alloc, out, signature.as_slice())
}

#[tactic(auto, using(std::proofs::Common::append_assoc))]
fn put_signature(
    alloc: Global,
    out: &mut Vec<u8>,
    number: u64,
    key: &[u8; 33],
    signature: &Bytes,
) -> Result<(), OutOfMemory>
    ensures { OnOk result (out.new.items ≡ out.old.items ++ spec.signature_line number (key.now, signature.now)) }
{
    put_head(alloc, out, number)?;
    put_pair(alloc, out, key, signature)?;
    put(out, b"\n")
}

#[tactic(auto, using(std::proofs::Common::append_assoc))]
fn put_signatures(
    alloc: Global,
    out: &mut Vec<u8>,
    number: u64,
    pairs: &[([u8; 33], Bytes)],
) -> Result<(), OutOfMemory>
    ensures { OnOk result (out.new.items ≡ out.old.items ++ flat_map (spec.signature_line number) pairs.now) }
{
    for (key, signature) in pairs {
        put_signature(alloc, out, number, key, signature)?;
    }
    Ok(())
}

#[tactic(auto, using(std::proofs::Common::append_assoc))]
fn put_all(alloc: Global, out: &mut Vec<u8>, number: u64, all: bool) -> Result<(), OutOfMemory>
    ensures { OnOk result (out.new.items ≡ out.old.items ++ spec.all_line number all) }
{
    if !all {
        return Ok(());
    }
    put_head(alloc, out, number)?;
    put(out, b"all\n")
}

#[tactic(auto, using(std::proofs::Common::append_assoc))]
fn put_known_script(
    alloc: Global,
    out: &mut Vec<u8>,
    number: u64,
    script: &Bytes,
) -> Result<(), OutOfMemory>
    ensures { OnOk result (out.new.items ≡ out.old.items
        ++ spec.input_line number (codes "script " ++ spec.shown_bytes script.now)) }
{
    put_head(alloc, out, number)?;
    put(out, b"script ")?;
    put_shown(alloc, out, script.as_slice())?;
    put(out, b"\n")
}

fn put_script(
    alloc: Global,
    out: &mut Vec<u8>,
    number: u64,
    script: &Option<Bytes>,
) -> Result<(), OutOfMemory>
    ensures { OnOk result (out.new.items ≡ out.old.items ++ spec.script_line number script.now) }
{
    match script {
        None => Ok(()),
        Some(script) => put_known_script(alloc, out, number, script),
    }
}

#[tactic(auto, using(std::proofs::Common::append_assoc))]
fn put_item(alloc: Global, out: &mut Vec<u8>, item: &Bytes) -> Result<(), OutOfMemory>
    ensures { OnOk result (out.new.items ≡ out.old.items ++ (codes " " ++ spec.shown_bytes item.now)) }
{
    put(out, b" ")?;
    put_shown(alloc, out, item.as_slice())
}

fn put_items(alloc: Global, out: &mut Vec<u8>, items: &[Bytes]) -> Result<(), OutOfMemory>
    ensures { OnOk result (out.new.items ≡ out.old.items ++ flat_map (λ item. codes " " ++ spec.shown_bytes item) items.now) }
{
    for item in items {
        put_item(alloc, out, item)?;
    }
    Ok(())
}

#[tactic(auto, using(std::proofs::Common::append_assoc))]
fn put_known_witness(
    alloc: Global,
    out: &mut Vec<u8>,
    number: u64,
    items: &[Bytes],
) -> Result<(), OutOfMemory>
    ensures { OnOk result (out.new.items ≡ out.old.items
        ++ spec.input_line number (codes "witness" ++ flat_map (λ item. codes " " ++ spec.shown_bytes item) items.now)) }
{
    put_head(alloc, out, number)?;
    put(out, b"witness")?;
    put_items(alloc, out, items)?;
    put(out, b"\n")
}

fn put_witness(
    alloc: Global,
    out: &mut Vec<u8>,
    number: u64,
    witness: &Option<Seq<Bytes>>,
) -> Result<(), OutOfMemory>
    ensures { OnOk result (out.new.items ≡ out.old.items ++ spec.witness_line number witness.now) }
{
    match witness {
        None => Ok(()),
        Some(items) => put_known_witness(alloc, out, number, items.as_slice()),
    }
}

// The lines of the input of this number.
#[tactic(auto, using(std::proofs::Common::append_assoc))]
fn put_input(
    alloc: Global,
    out: &mut Vec<u8>,
    number: u64,
    input: &PsbtInput,
) -> Result<(), OutOfMemory>
    ensures { OnOk result (out.new.items ≡ out.old.items ++ spec.input_lines number input.now) }
{
    put_spent_line(alloc, out, number, &input.spent)?;
    put_signatures(alloc, out, number, input.partial.as_slice())?;
    put_all(alloc, out, number, input.all)?;
    put_script(alloc, out, number, &input.script)?;
    put_witness(alloc, out, number, &input.witness)
}

#[tactic(auto, using(std::proofs::Common::append_assoc))]
fn put_inputs(alloc: Global, out: &mut Vec<u8>, inputs: &[PsbtInput]) -> Result<(), OutOfMemory>
    ensures { OnOk result (out.new.items ≡ out.old.items ++ spec.inputs_lines 0 inputs.now) }
{
    let mut number = 0u64;
    for input in inputs {
        put_input(alloc, out, number, input)?;
        number += 1;
    }
    Ok(())
}

// The transaction, without marker and witnesses.
#[tactic(auto, using(std::proofs::Common::append_assoc))]
fn put_tx(alloc: Global, out: &mut Vec<u8>, tx: &Tx) -> Result<(), OutOfMemory>
    ensures { OnOk result (out.new.items ≡ out.old.items ++ (codes "tx " ++ (hex_text (stripped tx.now) ++ newline))) }
{
    let bytes = encode_stripped(alloc, tx)?;
    put(out, b"tx ")?;
    put_hex(alloc, out, &bytes)?;
    put(out, b"\n")
}

#[tactic(auto, using(std::proofs::Common::append_assoc))]
fn put_psbt(alloc: Global, out: &mut Vec<u8>, psbt: &Psbt) -> Result<(), OutOfMemory>
    ensures { OnOk result (out.new.items ≡ out.old.items ++ spec.shown_text psbt.now) }
{
    put_tx(alloc, out, psbt.tx())?;
    put_inputs(alloc, out, psbt.inputs())
}

/// The transaction, and of each input the output that it spends, its signatures, and what else is known.
pub fn shown_text(alloc: Global, psbt: &Psbt) -> Result<Vec<u8>, OutOfMemory>
    ensures { IfOk result (λ text. text.items ≡ spec.shown_text psbt.now) }
{
    let mut out = Vec::new(alloc);
    put_psbt(alloc, &mut out, psbt)?;
    Ok(out)
}
