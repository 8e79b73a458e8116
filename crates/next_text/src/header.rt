//! The lines of the header that a contract needs.

ghost use Rattle.std.specs.Prelude.{◌≡◌, ◌++◌, map, flat_map, OnOk};
ghost use Rattle.spec_terms.specs.Precondition.{deposits, secrets};
ghost use Rattle.spec_text.specs.RunText as run;
ghost use Rattle.spec_next.specs.FirstLines as spec;

use bm_runfile::put_word_name;
use bm_text::{put, put_decimal};
use spec_data::{Name, OutOfMemory};
use spec_terms::Pre;
use std::alloc::Global;

#[tactic(auto, using(std::proofs::Common::append_assoc))]
fn put_word_line(out: &mut Vec<u8>, word: &[u8], name: &Name) -> Result<(), OutOfMemory>
    ensures { OnOk result (out.new.items ≡ out.old.items ++ (word.now ++ (name.now ++ run.newline))) }
{
    put(out, word)?;
    put(out, name.bytes())?;
    put(out, b"\n")
}

/// The lines of the parties.
#[tactic(auto, using(std::proofs::Common::append_assoc))]
pub(crate) fn put_parties(out: &mut Vec<u8>, names: &[Name]) -> Result<(), OutOfMemory>
    ensures { OnOk result (out.new.items ≡ out.old.items ++ flat_map run.party_text names.now) }
{
    for name in names {
        put_word_line(out, b"party ", name)?;
    }
    Ok(())
}

/// The lines of the honest parties.
#[tactic(auto, using(std::proofs::Common::append_assoc))]
pub(crate) fn put_honest(out: &mut Vec<u8>, names: &[Name]) -> Result<(), OutOfMemory>
    ensures { OnOk result (out.new.items ≡ out.old.items ++ flat_map run.honest_text names.now) }
{
    for name in names {
        put_word_line(out, b"honest ", name)?;
    }
    Ok(())
}

// The line of a secret that is to be filled in.
#[tactic(auto, using(std::proofs::Common::append_assoc))]
fn put_secret(out: &mut Vec<u8>, party: &Name, secret: &Name) -> Result<(), OutOfMemory>
    ensures { OnOk result (out.new.items ≡ out.old.items ++ spec.secret_line (secret.now, party.now) spec.placeholder) }
{
    put_word_name(out, b"secret ", party)?;
    put(out, secret.bytes())?;
    put(out, b" HEX\n")
}

/// The lines of the secrets of a precondition.
#[tactic(auto, using(std::proofs::Common::append_assoc))]
pub(crate) fn put_secrets(out: &mut Vec<u8>, pre: &[Pre]) -> Result<(), OutOfMemory>
    ensures { OnOk result (out.new.items ≡ out.old.items
        ++ spec.secret_lines (secrets pre.now) (map (λ x. spec.placeholder) (secrets pre.now))) }
{
    for entry in pre {
        if let Pre::Secret { party, name } = entry {
            put_secret(out, party, name)?;
        }
    }
    Ok(())
}

#[tactic(auto, using(std::proofs::Common::append_assoc))]
fn put_deposit(
    alloc: Global,
    out: &mut Vec<u8>,
    party: &Name,
    value: u64,
) -> Result<(), OutOfMemory>
    ensures { OnOk result (out.new.items ≡ out.old.items ++ run.deposit_text (party.now, value)) }
{
    put_word_name(out, b"deposit ", party)?;
    put_decimal(alloc, out, value)?;
    put(out, b"\n")
}

/// The lines of the deposits of a precondition.
#[tactic(auto, using(std::proofs::Common::append_assoc, crate::proofs::Deposits::first_deposit))]
pub(crate) fn put_deposits(alloc: Global, out: &mut Vec<u8>, pre: &[Pre]) -> Result<(), OutOfMemory>
    ensures { OnOk result (out.new.items ≡ out.old.items ++ flat_map run.deposit_text (spec.owned (deposits pre.now))) }
{
    for entry in pre {
        match entry {
            Pre::Persistent { party, value, .. } => put_deposit(alloc, out, party, *value)?,
            Pre::Volatile { party, value, .. } => put_deposit(alloc, out, party, *value)?,
            Pre::Secret { .. } => {}
        }
    }
    Ok(())
}
