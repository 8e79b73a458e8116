//! The bytes of a transaction.

ghost use Rattle.std.specs.Prelude.{◌≡◌, ◌++◌, ◌∷◌, [], IfOk, OnOk, length};
ghost use Rattle.std.specs.List.{flat_map};
ghost use Rattle.spec_bitcoin.specs.Spelling as spec;

use spec_bitcoin::{OutPoint, Tx, TxIn, TxOut};
use spec_data::{Bytes, OutOfMemory};
use std::alloc::Global;

/// No bytes, with room for those of an ordinary transaction, so that they need not move as they are written.
pub fn with_room(alloc: Global) -> Result<Vec<u8>, OutOfMemory>
    ensures { IfOk result (λ bytes. bytes.items ≡ []) }
{
    Vec::with_capacity(alloc, 256)
}

/// Writes a number of 4 bytes, the lowest first.
pub fn put_word(out: &mut Vec<u8>, number: u32) -> Result<(), OutOfMemory>
    ensures { OnOk result (out.new.items ≡ out.old.items ++ spec.word number) }
{
    out.extend_from_slice(&number.to_le_bytes())
}

/// Writes a number of 8 bytes, the lowest first.
pub fn put_long_word(out: &mut Vec<u8>, number: u64) -> Result<(), OutOfMemory>
    ensures { OnOk result (out.new.items ≡ out.old.items ++ spec.long_word number) }
{
    out.extend_from_slice(&number.to_le_bytes())
}

/// Writes a count, in the shortest of its four forms.
#[tactic(auto, unfolding(spec_bitcoin::specs::Spelling::compact))]
pub fn put_count(out: &mut Vec<u8>, count: u64) -> Result<(), OutOfMemory>
    ensures { OnOk result (out.new.items ≡ out.old.items ++ spec.compact count) }
{
    if count < 253 {
        out.push(count as u8)?;
    } else if count < 0x1_0000 {
        out.push(253)?;
        out.extend_from_slice(&(count as u16).to_le_bytes())?;
    } else if count < 0x1_0000_0000 {
        out.push(254)?;
        out.extend_from_slice(&(count as u32).to_le_bytes())?;
    } else {
        out.push(255)?;
        out.extend_from_slice(&count.to_le_bytes())?;
    }
    Ok(())
}

/// Writes a byte string after its length.
pub fn put_sized(out: &mut Vec<u8>, bytes: &[u8]) -> Result<(), OutOfMemory>
    ensures { OnOk result (out.new.items ≡ out.old.items ++ spec.sized bytes.now) }
{
    put_count(out, bytes.len() as u64)?;
    out.extend_from_slice(bytes)
}

/// Writes the place of an output: its txid and its number.
pub fn put_place(out: &mut Vec<u8>, place: &OutPoint) -> Result<(), OutOfMemory>
    ensures { OnOk result (out.new.items ≡ out.old.items ++ spec.place_bytes place.now) }
{
    out.extend_from_slice(&place.txid)?;
    put_word(out, place.vout)
}

fn put_input(out: &mut Vec<u8>, input: &TxIn) -> Result<(), OutOfMemory>
    ensures { OnOk result (out.new.items ≡ out.old.items ++ spec.input_bytes input.now) }
{
    put_place(out, &input.prev)?;
    put_sized(out, input.script_sig.as_slice())?;
    put_word(out, input.sequence)
}

/// Writes an output: its value and its script.
pub fn put_output(out: &mut Vec<u8>, output: &TxOut) -> Result<(), OutOfMemory>
    ensures { OnOk result (out.new.items ≡ out.old.items ++ spec.output_bytes output.now) }
{
    put_long_word(out, output.value)?;
    put_sized(out, output.script.as_slice())
}

fn put_inputs(out: &mut Vec<u8>, inputs: &[TxIn]) -> Result<(), OutOfMemory>
    ensures { OnOk result (out.new.items ≡ out.old.items ++ spec.inputs_bytes inputs.now) }
{
    put_count(out, inputs.len() as u64)?;
    for input in inputs {
        put_input(out, input)?;
    }
    Ok(())
}

fn put_outputs(out: &mut Vec<u8>, outputs: &[TxOut]) -> Result<(), OutOfMemory>
    ensures { OnOk result (out.new.items ≡ out.old.items ++ spec.outputs_bytes outputs.now) }
{
    put_count(out, outputs.len() as u64)?;
    for output in outputs {
        put_output(out, output)?;
    }
    Ok(())
}

fn put_witness(out: &mut Vec<u8>, items: &[Bytes]) -> Result<(), OutOfMemory>
    ensures { OnOk result (out.new.items ≡ out.old.items ++ spec.witness_bytes items.now) }
{
    put_count(out, items.len() as u64)?;
    for item in items {
        put_sized(out, item.as_slice())?;
    }
    Ok(())
}

fn put_witnesses(out: &mut Vec<u8>, inputs: &[TxIn]) -> Result<(), OutOfMemory>
    ensures { OnOk result (out.new.items ≡ out.old.items ++ spec.witnesses_bytes inputs.now) }
{
    for input in inputs {
        put_witness(out, input.witness.as_slice())?;
    }
    Ok(())
}

fn has_item(input: &TxIn) -> bool
    ensures { result ≡ spec.is_filled input.now.witness }
{
    !input.witness.is_empty()
}

// Whether some witness has an item.
fn is_marked(inputs: &[TxIn]) -> bool
    ensures { result ≡ spec.is_marked inputs.now }
{
    for input in inputs {
        if has_item(input) {
            return true;
        }
    }
    false
}

/// The bytes without marker and witnesses.
#[tactic(auto, unfolding(spec_bitcoin::specs::Spelling::stripped))]
pub fn encode_stripped(alloc: Global, tx: &Tx) -> Result<Vec<u8>, OutOfMemory>
    ensures { IfOk result (λ bytes. bytes.items ≡ spec.stripped tx.now) }
{
    let mut out = with_room(alloc)?;
    put_word(&mut out, tx.version)?;
    put_inputs(&mut out, tx.inputs.as_slice())?;
    put_outputs(&mut out, tx.outputs.as_slice())?;
    put_word(&mut out, tx.lock)?;
    Ok(out)
}

// The bytes with marker and witnesses.
#[tactic(auto, unfolding(spec_bitcoin::specs::Spelling::marked))]
fn encode_marked(alloc: Global, tx: &Tx) -> Result<Vec<u8>, OutOfMemory>
    ensures { IfOk result (λ bytes. bytes.items ≡ spec.marked tx.now) }
{
    let mut out = with_room(alloc)?;
    put_word(&mut out, tx.version)?;
    out.push(0)?;
    out.push(1)?;
    put_inputs(&mut out, tx.inputs.as_slice())?;
    put_outputs(&mut out, tx.outputs.as_slice())?;
    put_witnesses(&mut out, tx.inputs.as_slice())?;
    put_word(&mut out, tx.lock)?;
    Ok(out)
}

/// The bytes of a transaction: with marker and witnesses exactly where some witness has an item.
pub fn encode(alloc: Global, tx: &Tx) -> Result<Vec<u8>, OutOfMemory>
    ensures { IfOk result (λ bytes. bytes.items ≡ spec.spelling tx.now) }
{
    if is_marked(tx.inputs.as_slice()) {
        return encode_marked(alloc, tx);
    }
    encode_stripped(alloc, tx)
}
