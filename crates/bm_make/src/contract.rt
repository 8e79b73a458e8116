//! The text of a generated contract.

ghost use Rattle.std.specs.Prelude.{◌≡◌, ◌≤◌, ◌+◌, ◌*◌, ◌++◌, codes, length, OnOk};
ghost use Rattle.std.specs.Fmt.{decimal};
ghost use Rattle.spec_terms.specs.declared.pre.Pre.TheVariants.{Persistent};
ghost use Rattle.spec_text.specs.Canonical.{entry_text, rest_entries_text, choice_text, advert_text};
ghost use Rattle.spec_text.specs.Generator.{secret_name, stages, secret_entries, generated_advert};

use crate::secrets::Generated;
use bm_text::{put, put_decimal};
use spec_data::OutOfMemory;
use std::alloc::Global;

/// The name of a secret.
#[tactic(auto, using(std::proofs::Common::append_assoc))]
pub(crate) fn put_name(alloc: Global, out: &mut Vec<u8>, number: u64) -> Result<(), OutOfMemory>
    ensures { OnOk result (out.new.items ≡ out.old.items ++ secret_name number) }
{
    put(out, b"a")?;
    put_decimal(alloc, out, number)
}

/// A deposit of a party, with its value in satoshi.
#[tactic(auto, using(std::proofs::Common::append_assoc))]
fn put_deposit(
    alloc: Global,
    out: &mut Vec<u8>,
    party: &[u8],
    value: u64,
    deposit: &[u8],
) -> Result<(), OutOfMemory>
    ensures { OnOk result (out.new.items ≡ out.old.items ++ entry_text (Persistent party.now value deposit.now)) }
{
    put(out, party)?;
    put(out, b":! ")?;
    put_decimal(alloc, out, value)?;
    put(out, b" @ ")?;
    put(out, deposit)
}

#[tactic(auto, using(std::proofs::Common::append_assoc))]
fn put_secret_entry(alloc: Global, out: &mut Vec<u8>, number: u64) -> Result<(), OutOfMemory>
    ensures { OnOk result (out.new.items ≡ out.old.items ++ (codes " | A: secret " ++ secret_name number)) }
{
    put(out, b" | A: secret ")?;
    put_name(alloc, out, number)
}

/// An entry for each secret, after those of the deposits.
#[tactic(auto, using(std::proofs::Common::append_assoc, crate::proofs::EntrySteps::entry_step))]
fn put_secret_entries(
    alloc: Global,
    out: &mut Vec<u8>,
    secrets: &[Generated],
) -> Result<(), OutOfMemory>
    requires { length secrets.now ≤ 30 }
    ensures { OnOk result (out.new.items ≡ out.old.items ++ rest_entries_text (secret_entries 1 secrets.now)) }
{
    let mut number = 1u64;
    for _secret in secrets {
        put_secret_entry(alloc, out, number)?;
        number += 1;
    }
    Ok(())
}

/// The beginning of a stage, up to what it goes on with.
#[tactic(auto, using(std::proofs::Common::append_assoc))]
fn put_stage_prefix(
    alloc: Global,
    out: &mut Vec<u8>,
    number: u64,
    length: u64,
) -> Result<(), OutOfMemory>
    ensures { OnOk result (out.new.items ≡ out.old.items ++ (codes "(reveal " ++ (secret_name number
        ++ (codes " if |" ++ (secret_name number ++ (codes "| = " ++ (decimal length ++ codes " . "))))))) }
{
    put(out, b"(reveal ")?;
    put_name(alloc, out, number)?;
    put(out, b" if |")?;
    put_name(alloc, out, number)?;
    put(out, b"| = ")?;
    put_decimal(alloc, out, length)?;
    put(out, b" . ")
}

/// The end of a stage: the height from which on B may withdraw, in blocks.
#[tactic(auto, using(std::proofs::Common::append_assoc))]
fn put_stage_back(alloc: Global, out: &mut Vec<u8>, number: u64) -> Result<(), OutOfMemory>
    requires { number ≤ 1000 }
    ensures { OnOk result (out.new.items ≡ out.old.items ++ (codes " + after " ++ (decimal (10 * number) ++ codes " : withdraw B)"))) }
{
    put(out, b" + after ")?;
    put_decimal(alloc, out, 10 * number)?;
    put(out, b" : withdraw B)")
}

/// The stages from this number on, one within the other; at last A withdraws.
#[tactic(auto, using(std::proofs::Common::append_assoc))]
fn put_stages(
    alloc: Global,
    out: &mut Vec<u8>,
    number: u64,
    secrets: &[Generated],
) -> Result<(), OutOfMemory>
    requires { number + length secrets.now ≤ 1000 }
    ensures { OnOk result (out.new.items ≡ out.old.items ++ choice_text (stages number secrets.now)) }
{
    let [(length, _), later @ ..] = secrets else {
        return put(out, b"withdraw A");
    };
    put_stage_prefix(alloc, out, number, *length)?;
    put_stages(alloc, out, number + 1, later)?;
    put_stage_back(alloc, out, number)
}

/// What the parties put in, and the secrets of A.
#[tactic(auto, using(std::proofs::Common::append_assoc))]
fn put_precondition(
    alloc: Global,
    out: &mut Vec<u8>,
    secrets: &[Generated],
) -> Result<(), OutOfMemory>
    requires { length secrets.now ≤ 30 }
    ensures { OnOk result (out.new.items ≡ out.old.items ++ (codes "{" ++ (entry_text (Persistent (codes "A") 1000000 (codes "x"))
        ++ (codes " | " ++ (entry_text (Persistent (codes "B") 0 (codes "y")) ++ rest_entries_text (secret_entries 1 secrets.now)))))) }
{
    put(out, b"{")?;
    put_deposit(alloc, out, b"A", 1_000_000, b"x")?;
    put(out, b" | ")?;
    put_deposit(alloc, out, b"B", 0, b"y")?;
    put_secret_entries(alloc, out, secrets)
}

/// The canonical text of the contract with these secrets.
#[tactic(auto, using(std::proofs::Common::append_assoc))]
pub(crate) fn put_contract(
    alloc: Global,
    out: &mut Vec<u8>,
    secrets: &[Generated],
) -> Result<(), OutOfMemory>
    requires { length secrets.now ≤ 30 }
    ensures { OnOk result (out.new.items ≡ out.old.items ++ advert_text (generated_advert secrets.now)) }
{
    put_precondition(alloc, out, secrets)?;
    put(out, b"} ")?;
    put_stages(alloc, out, 1, secrets)
}
