//! Pieces that the lines of events and of steps share.

ghost use Rattle.std.specs.Prelude.{◌≡◌, ◌++◌, ◌∷◌, [], codes, OnOk};
ghost use Rattle.std.specs.Fmt.{decimal};
ghost use Rattle.spec_text.specs.RunText as spec;
ghost use Rattle.spec_text.specs.StepText.{branch_text};

use bm_text::{put, put_decimal};
use spec_data::{Name, OutOfMemory};
use std::alloc::Global;

/// One byte at the end of what is there: a space, say, or the end of a line.
#[inline(always)]
pub fn put_byte(out: &mut Vec<u8>, byte: u8) -> Result<(), OutOfMemory>
    ensures { OnOk result (out.new.items ≡ out.old.items ++ byte ∷ []) }
{
    out.push(byte)?;
    Ok(())
}

/// A word and a number.
#[tactic(auto, using(std::proofs::Common::append_assoc))]
pub fn put_word_number(
    alloc: Global,
    out: &mut Vec<u8>,
    word: &[u8],
    number: u32,
) -> Result<(), OutOfMemory>
    ensures { OnOk result (out.new.items ≡ out.old.items ++ (word.now ++ decimal number)) }
{
    put(out, word)?;
    put_decimal(alloc, out, number as u64)
}

/// A word, a name and a space.
#[tactic(auto, using(std::proofs::Common::append_assoc))]
pub fn put_word_name(out: &mut Vec<u8>, word: &[u8], name: &Name) -> Result<(), OutOfMemory>
    ensures { OnOk result (out.new.items ≡ out.old.items ++ (word.now ++ (name.now ++ codes " "))) }
{
    put(out, word)?;
    put(out, name.bytes())?;
    put_byte(out, b' ')
}

/// An output by its number, as `#n`.
pub fn put_output(alloc: Global, out: &mut Vec<u8>, number: u32) -> Result<(), OutOfMemory>
    ensures { OnOk result (out.new.items ≡ out.old.items ++ spec.output_text number) }
{
    put_byte(out, b'#')?;
    put_decimal(alloc, out, number as u64)
}

/// An output by its number and a branch of its contract, which is counted from 0.
#[tactic(auto, using(std::proofs::Common::append_assoc))]
pub fn put_branch(
    alloc: Global,
    out: &mut Vec<u8>,
    output: u32,
    branch: u32,
) -> Result<(), OutOfMemory>
    ensures { OnOk result (out.new.items ≡ out.old.items ++ branch_text output branch) }
{
    put_output(alloc, out, output)?;
    put_byte(out, b' ')?;
    put_decimal(alloc, out, branch as u64)
}

/// A space, and an output by its number.
#[tactic(auto, using(std::proofs::Common::append_assoc))]
pub fn put_spaced_output(alloc: Global, out: &mut Vec<u8>, number: u32) -> Result<(), OutOfMemory>
    ensures { OnOk result (out.new.items ≡ out.old.items ++ (codes " " ++ spec.output_text number)) }
{
    put_byte(out, b' ')?;
    put_output(alloc, out, number)
}

/// Outputs by their numbers, a space before each.
pub fn put_outputs(alloc: Global, out: &mut Vec<u8>, numbers: &[u32]) -> Result<(), OutOfMemory>
    ensures { OnOk result (out.new.items ≡ out.old.items ++ spec.outputs_text numbers.now) }
{
    for number in numbers {
        put_spaced_output(alloc, out, *number)?;
    }
    Ok(())
}

/// A space, a name and `=`.
#[tactic(auto, using(std::proofs::Common::append_assoc))]
pub fn put_named(out: &mut Vec<u8>, name: &Name) -> Result<(), OutOfMemory>
    ensures { OnOk result (out.new.items ≡ out.old.items ++ (codes " " ++ (name.now ++ codes "="))) }
{
    put_byte(out, b' ')?;
    put(out, name.bytes())?;
    put_byte(out, b'=')
}

#[tactic(auto, using(std::proofs::Common::append_assoc))]
fn put_binding(
    alloc: Global,
    out: &mut Vec<u8>,
    name: &Name,
    output: u32,
) -> Result<(), OutOfMemory>
    ensures { OnOk result (out.new.items ≡ out.old.items ++ (codes " " ++ (name.now ++ (codes "=" ++ spec.output_text output)))) }
{
    put_named(out, name)?;
    put_output(alloc, out, output)
}

/// Names with the outputs that they are bound to, a space before each.
pub fn put_bindings(
    alloc: Global,
    out: &mut Vec<u8>,
    bindings: &[(Name, u32)],
) -> Result<(), OutOfMemory>
    ensures { OnOk result (out.new.items ≡ out.old.items ++ spec.bindings_text bindings.now) }
{
    for (name, output) in bindings {
        put_binding(alloc, out, name, *output)?;
    }
    Ok(())
}

/// An owner and a value, a space before each.
#[tactic(auto, using(std::proofs::Common::append_assoc))]
pub fn put_share(
    alloc: Global,
    out: &mut Vec<u8>,
    owner: &[u8],
    value: u64,
) -> Result<(), OutOfMemory>
    ensures { OnOk result (out.new.items ≡ out.old.items ++ (codes " " ++ (owner.now ++ (codes " " ++ decimal value)))) }
{
    put_byte(out, b' ')?;
    put(out, owner)?;
    put_byte(out, b' ')?;
    put_decimal(alloc, out, value)
}

/// A contract by its number, and a party.
#[tactic(auto, using(std::proofs::Common::append_assoc))]
pub fn put_contract_party(
    alloc: Global,
    out: &mut Vec<u8>,
    contract: u32,
    party: &Name,
) -> Result<(), OutOfMemory>
    ensures { OnOk result (out.new.items ≡ out.old.items ++ spec.contract_party_text contract party.now) }
{
    put_decimal(alloc, out, contract as u64)?;
    put_byte(out, b' ')?;
    put(out, party.bytes())
}

/// A word, a contract, a party and the name of one of its deposits or secrets.
#[tactic(auto, using(std::proofs::Common::append_assoc))]
pub fn put_party_name(
    alloc: Global,
    out: &mut Vec<u8>,
    word: &[u8],
    contract: u32,
    party: &Name,
    name: &Name,
) -> Result<(), OutOfMemory>
    ensures { OnOk result (out.new.items ≡ out.old.items
        ++ (word.now ++ (spec.contract_party_text contract party.now ++ (codes " " ++ name.now)))) }
{
    put(out, word)?;
    put_contract_party(alloc, out, contract, party)?;
    put_byte(out, b' ')?;
    put(out, name.bytes())
}

/// The line of a contract that is advertised, with the outputs that its deposits are bound to.
#[tactic(auto, using(std::proofs::Common::append_assoc))]
pub fn put_advertise(
    alloc: Global,
    out: &mut Vec<u8>,
    contract: u32,
    bindings: &[(Name, u32)],
) -> Result<(), OutOfMemory>
    ensures { OnOk result (out.new.items ≡ out.old.items ++ (codes "advertise " ++ (decimal contract ++ spec.bindings_text bindings.now))) }
{
    put_word_number(alloc, out, b"advertise ", contract)?;
    put_bindings(alloc, out, bindings)
}
