//! The header of a generated run.

ghost use Rattle.std.specs.Prelude.{◌≡◌, ◌≤◌, ◌++◌, codes, flat_map, length, OnOk};
ghost use Rattle.spec_text.specs.RunText.{secret_text, deposit_text, header_text, newline};
ghost use Rattle.spec_text.specs.Generator.{held, held_from, generated_header};

use crate::contract::put_name;
use crate::secrets::Generated;
use bm_text::{put, put_decimal, put_hex};
use spec_data::{Bytes, OutOfMemory};
use std::alloc::Global;

#[tactic(auto, using(std::proofs::Common::append_assoc))]
fn put_secret(
    alloc: Global,
    out: &mut Vec<u8>,
    number: u64,
    secret: &Generated,
) -> Result<(), OutOfMemory>
    ensures { OnOk result (out.new.items ≡ out.old.items ++ secret_text (held number secret.now)) }
{
    put(out, b"secret A ")?;
    put_name(alloc, out, number)?;
    put(out, b" ")?;
    put_hex(alloc, out, secret.1.as_slice())?;
    put(out, b"\n")
}

/// A line for each secret.
#[tactic(auto, using(std::proofs::Common::append_assoc))]
fn put_secrets(alloc: Global, out: &mut Vec<u8>, secrets: &[Generated]) -> Result<(), OutOfMemory>
    requires { length secrets.now ≤ 30 }
    ensures { OnOk result (out.new.items ≡ out.old.items ++ flat_map secret_text (held_from 1 secrets.now)) }
{
    let mut number = 1u64;
    for secret in secrets {
        put_secret(alloc, out, number, secret)?;
        number += 1;
    }
    Ok(())
}

/// A deposit of a party, with its value in satoshi.
#[tactic(auto, using(std::proofs::Common::append_assoc))]
fn put_deposit(
    alloc: Global,
    out: &mut Vec<u8>,
    party: &[u8],
    value: u64,
) -> Result<(), OutOfMemory>
    ensures { OnOk result (out.new.items ≡ out.old.items ++ deposit_text (party.now, value)) }
{
    put(out, b"deposit ")?;
    put(out, party)?;
    put(out, b" ")?;
    put_decimal(alloc, out, value)?;
    put(out, b"\n")
}

/// The deposits, and the line that ends the header.
#[tactic(auto, using(std::proofs::Common::append_assoc))]
fn put_deposits(alloc: Global, out: &mut Vec<u8>) -> Result<(), OutOfMemory>
    ensures { OnOk result (out.new.items ≡ out.old.items ++ (deposit_text (codes "A", 1000000) ++ (deposit_text (codes "B", 0)
        ++ (deposit_text (codes "B", 1000000000) ++ (codes "--" ++ newline))))) }
{
    put_deposit(alloc, out, b"A", 1_000_000)?;
    put_deposit(alloc, out, b"B", 0)?;
    put_deposit(alloc, out, b"B", 1_000_000_000)?;
    put(out, b"--\n")
}

/// The canonical lines of the header with these secrets.
#[tactic(auto, using(std::proofs::Common::append_assoc))]
pub(crate) fn put_header(
    alloc: Global,
    out: &mut Vec<u8>,
    secrets: &[Generated],
) -> Result<(), OutOfMemory>
    requires { length secrets.now ≤ 30 }
    ensures { OnOk result (out.new.items ≡ out.old.items ++ header_text (generated_header secrets.now)) }
{
    put(out, b"party A\nparty B\nhonest A\nhonest B\n")?;
    put_secrets(alloc, out, secrets)?;
    put_deposits(alloc, out)
}
