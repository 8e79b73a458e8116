//! The bytes of a partially signed transaction.

ghost use Rattle.std.specs.Prelude.{◌≡◌, ◌++◌, ◌∷◌, [], ℕ, List, map, replicate, length, Some, IfOk, OnOk};
ghost use Rattle.std.specs.List.{flat_map};
ghost use Rattle.spec_bitcoin.specs.Spelling.{compact, output_bytes, witness_bytes};
ghost use Rattle.spec_tool.specs.Psbt.{pairing_bytes, map_bytes};
ghost use Rattle.spec_tool.specs.PsbtBytes.{part, as_it_is, all_part, input_records, psbt_bytes};
ghost use Rattle.bm_psbt.specs.Written.{records_bytes, signature_records};

use crate::inputs::ALL_TYPE;
use crate::psbt::Psbt;
use crate::reading::MAGIC;
use bm_tx::{encode_stripped, put_count, put_output, put_sized};
use spec_bitcoin::TxOut;
use spec_data::{Bytes, OutOfMemory, Seq};
use spec_tool::PsbtInput;
use std::alloc::Global;

// A key and a value, each with its length before it.
fn put_record(out: &mut Vec<u8>, key: &[u8], value: &[u8]) -> Result<(), OutOfMemory>
    ensures { OnOk result (out.new.items ≡ out.old.items ++ records_bytes ((key.now, value.now) ∷ [])) }
{
    put_sized(out, key)?;
    put_sized(out, value)
}

fn put_spent(alloc: Global, out: &mut Vec<u8>, spent: &Option<TxOut>) -> Result<(), OutOfMemory>
    ensures { OnOk result (out.new.items ≡ out.old.items ++ records_bytes (part 1 output_bytes spent.now)) }
{
    let Some(output) = spent else {
        return Ok(());
    };
    let mut value = Vec::new(alloc);
    put_output(&mut value, output)?;
    put_record(out, &[1], &value)
}

fn put_signature(out: &mut Vec<u8>, key: &[u8; 33], signature: &[u8]) -> Result<(), OutOfMemory>
    ensures { OnOk result (out.new.items ≡ out.old.items ++ records_bytes ((2 ∷ key.now, signature.now) ∷ [])) }
{
    let mut whole = [2; 34];
    whole[1..].copy_from_slice(key);
    put_record(out, &whole, signature)
}

fn put_signatures(out: &mut Vec<u8>, signatures: &[([u8; 33], Bytes)]) -> Result<(), OutOfMemory>
    ensures { OnOk result (out.new.items ≡ out.old.items ++ records_bytes (signature_records signatures.now)) }
{
    for (key, signature) in signatures {
        put_signature(out, key, signature.as_slice())?;
    }
    Ok(())
}

fn put_all(out: &mut Vec<u8>, all: bool) -> Result<(), OutOfMemory>
    ensures { OnOk result (out.new.items ≡ out.old.items ++ records_bytes (all_part all)) }
{
    if !all {
        return Ok(());
    }
    put_record(out, &[3], &ALL_TYPE)
}

fn put_script(out: &mut Vec<u8>, script: &Option<Bytes>) -> Result<(), OutOfMemory>
    ensures { OnOk result (out.new.items ≡ out.old.items ++ records_bytes (part 5 as_it_is script.now)) }
{
    let Some(script) = script else {
        return Ok(());
    };
    put_record(out, &[5], script.as_slice())
}

fn put_items(out: &mut Vec<u8>, items: &[Bytes]) -> Result<(), OutOfMemory>
    ensures { OnOk result (out.new.items ≡ out.old.items ++ witness_bytes items.now) }
{
    put_count(out, items.len() as u64)?;
    for item in items {
        put_sized(out, item.as_slice())?;
    }
    Ok(())
}

fn put_witness(
    alloc: Global,
    out: &mut Vec<u8>,
    witness: &Option<Seq<Bytes>>,
) -> Result<(), OutOfMemory>
    ensures { OnOk result (out.new.items ≡ out.old.items ++ records_bytes (part 8 witness_bytes witness.now)) }
{
    let Some(items) = witness else {
        return Ok(());
    };
    let mut value = Vec::new(alloc);
    put_items(&mut value, items.as_slice())?;
    put_record(out, &[8], &value)
}

// The map of an input.
fn put_input(alloc: Global, out: &mut Vec<u8>, input: &PsbtInput) -> Result<(), OutOfMemory>
    ensures { OnOk result (out.new.items ≡ out.old.items ++ map_bytes (input_records input.now)) }
{
    put_spent(alloc, out, &input.spent)?;
    put_signatures(out, input.partial.as_slice())?;
    put_all(out, input.all)?;
    put_script(out, &input.script)?;
    put_witness(alloc, out, &input.witness)?;
    out.push(0)?;
    Ok(())
}

fn put_inputs(alloc: Global, out: &mut Vec<u8>, inputs: &[PsbtInput]) -> Result<(), OutOfMemory>
    ensures { OnOk result (out.new.items ≡ out.old.items ++ flat_map (λ input. map_bytes (input_records input)) inputs.now) }
{
    for input in inputs {
        put_input(alloc, out, input)?;
    }
    Ok(())
}

// So many empty maps.
fn put_empty_maps(out: &mut Vec<u8>, count: usize) -> Result<(), OutOfMemory>
    ensures { OnOk result (out.new.items ≡ out.old.items ++ replicate count 0) }
{
    for _ in 0..count {
        out.push(0)?;
    }
    Ok(())
}

/// The bytes of a partially signed transaction: the records of each map by type and then by key, and
/// the maps of the outputs empty.
#[tactic(auto, unfolding(spec_tool::specs::PsbtBytes::psbt_bytes))]
pub fn encode(alloc: Global, psbt: &Psbt) -> Result<Vec<u8>, OutOfMemory>
    ensures { IfOk result (λ bytes. bytes.items ≡ psbt_bytes psbt.now) }
{
    let mut out = Vec::new(alloc);
    out.extend_from_slice(&MAGIC)?;
    let tx = encode_stripped(alloc, psbt.tx())?;
    put_record(&mut out, &[0], &tx)?;
    out.push(0)?;
    put_inputs(alloc, &mut out, psbt.inputs())?;
    put_empty_maps(&mut out, psbt.tx().outputs.len())?;
    Ok(out)
}
