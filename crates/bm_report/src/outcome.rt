//! How outcomes and their reasons are printed.

ghost use Rattle.std.specs.Prelude.{◌≡◌, ◌++◌, codes, OnOk};
ghost use Rattle.std.specs.Fmt.{decimal};
ghost use Rattle.spec_bitcoin.specs.Keys.{path_text};
ghost use Rattle.spec_text.specs.RunText.{newline, outputs_text};
ghost use Rattle.spec_text.specs.OutcomeText as spec;

use crate::piece::put_made;
use bm_keys::put_path;
use bm_runfile::{put_byte, put_outputs, put_refusal};
use bm_text::{put, put_decimal};
use spec_data::{Name, OutOfMemory};
use spec_run::{Outcome, Reason};
use spec_terms::PathStep;
use std::alloc::Global;

#[tactic(auto, using(std::proofs::Common::append_assoc))]
fn put_name(out: &mut Vec<u8>, word: &[u8], name: &Name) -> Result<(), OutOfMemory>
    ensures { OnOk result (out.new.items ≡ out.old.items ++ spec.with_name word.now name.now) }
{
    put(out, word)?;
    put(out, b" ")?;
    put(out, name.bytes())
}

#[tactic(auto, using(std::proofs::Common::append_assoc))]
fn put_number(alloc: Global, out: &mut Vec<u8>, word: &[u8], number: u64) -> Result<(), OutOfMemory>
    ensures { OnOk result (out.new.items ≡ out.old.items ++ spec.with_number word.now number) }
{
    put(out, word)?;
    put(out, b" ")?;
    put_decimal(alloc, out, number)
}

#[tactic(auto, using(std::proofs::Common::append_assoc))]
fn put_not_endorsed(
    alloc: Global,
    out: &mut Vec<u8>,
    path: &[PathStep],
    party: &Name,
) -> Result<(), OutOfMemory>
    ensures { OnOk result (out.new.items ≡ out.old.items ++ (codes "NotEndorsed " ++ (path_text path.now ++ (codes " " ++ party.now)))) }
{
    put(out, b"NotEndorsed ")?;
    put_path(alloc, out, path)?;
    put(out, b" ")?;
    put(out, party.bytes())
}

/// The name of a reason, and what it shows.
pub fn put_reason(alloc: Global, out: &mut Vec<u8>, reason: &Reason) -> Result<(), OutOfMemory>
    ensures { OnOk result (out.new.items ≡ out.old.items ++ spec.reason_text reason.now) }
{
    match reason {
        Reason::NoContract => put(out, b"NoContract"),
        Reason::AdvertFull => put(out, b"AdvertFull"),
        Reason::WrongNames => put(out, b"WrongNames"),
        Reason::DepositRepeated(name) => put_name(out, b"DepositRepeated", name),
        Reason::NotLive(name) => put_name(out, b"NotLive", name),
        Reason::WrongDeposit(name) => put_name(out, b"WrongDeposit", name),
        Reason::NoHonest => put(out, b"NoHonest"),
        Reason::NotAdvertised => put(out, b"NotAdvertised"),
        Reason::NotParticipant => put(out, b"NotParticipant"),
        Reason::AlreadyCommitted => put(out, b"AlreadyCommitted"),
        Reason::NoSecret(name) => put_name(out, b"NoSecret", name),
        Reason::BadSecretLength(name) => put_name(out, b"BadSecretLength", name),
        Reason::HashRepeated(name) => put_name(out, b"HashRepeated", name),
        Reason::NotAllCommitted => put(out, b"NotAllCommitted"),
        Reason::NotEndorsed(path, party) => {
            put_not_endorsed(alloc, out, path.value().steps(), party.value())
        },
        Reason::NotActive => put(out, b"NotActive"),
        Reason::NoBranch => put(out, b"NoBranch"),
        Reason::NotAsked => put(out, b"NotAsked"),
        Reason::NotHonest => put(out, b"NotHonest"),
        Reason::NotCommitted => put(out, b"NotCommitted"),
        Reason::NotBegun => put(out, b"NotBegun"),
        Reason::AlreadyRevealed => put(out, b"AlreadyRevealed"),
        Reason::Honest => put(out, b"Honest"),
        Reason::NotOwner => put(out, b"NotOwner"),
        Reason::NotLiveOutput(n) => put_number(alloc, out, b"NotLive", *n as u64),
        Reason::NotOwnerOutput(n) => put_number(alloc, out, b"NotOwner", *n as u64),
        Reason::BadTx(place) => put_number(alloc, out, b"BadTx", *place as u64),
        Reason::NotCompiled => put(out, b"NotCompiled"),
        Reason::SecretUnknown(name) => put_name(out, b"SecretUnknown", name),
        Reason::TimeLimit => put(out, b"TimeLimit"),
        Reason::Ledger(refusal) => put_refusal(alloc, out, *refusal),
    }
}

fn put_all_made(alloc: Global, out: &mut Vec<u8>, made: &[(u32, u64)]) -> Result<(), OutOfMemory>
    ensures { OnOk result (out.new.items ≡ out.old.items ++ spec.generated_text made.now) }
{
    for (number, value) in made {
        put_made(alloc, out, *number, *value)?;
    }
    Ok(())
}

#[tactic(auto, using(std::proofs::Common::append_assoc))]
fn put_accepted(
    alloc: Global,
    out: &mut Vec<u8>,
    spent: &[u32],
    made: &[(u32, u64)],
    lock: u32,
) -> Result<(), OutOfMemory>
    ensures { OnOk result (out.new.items ≡ out.old.items ++ spec.accepted_text spent.now made.now lock) }
{
    put(out, b"accepted spends")?;
    put_outputs(alloc, out, spent)?;
    put(out, b" makes")?;
    put_all_made(alloc, out, made)?;
    put(out, b" lock ")?;
    put_decimal(alloc, out, lock as u64)
}

#[tactic(auto, using(std::proofs::Common::append_assoc))]
fn put_refused(alloc: Global, out: &mut Vec<u8>, reason: &Reason) -> Result<(), OutOfMemory>
    ensures { OnOk result (out.new.items ≡ out.old.items ++ (codes "refused " ++ spec.reason_text reason.now)) }
{
    put(out, b"refused ")?;
    put_reason(alloc, out, reason)
}

/// The line of an outcome.
#[tactic(auto, using(std::proofs::Common::append_assoc))]
pub(crate) fn put_outcome(
    alloc: Global,
    out: &mut Vec<u8>,
    outcome: &Outcome,
) -> Result<(), OutOfMemory>
    ensures { OnOk result (out.new.items ≡ out.old.items ++ (spec.outcome_text outcome.now ++ newline)) }
{
    match outcome {
        Outcome::Done => put(out, b"done\n"),
        Outcome::Accepted { spent, made, lock } => {
            let spent = spent.value().as_slice();
            put_accepted(alloc, out, spent, made.value().as_slice(), *lock)?;
            put_byte(out, b'\n')
        }
        Outcome::Refused(reason) => {
            put_refused(alloc, out, reason)?;
            put_byte(out, b'\n')
        }
    }
}
